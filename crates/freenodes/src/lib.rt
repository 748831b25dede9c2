// The map of a pool's free nodes, which goes from command to command beside the pool.
#![tactic(auto)]

ghost use Rattle.std.specs.Prelude.{◌<◌, ◌≡◌, length};
ghost use Rattle.freemap.specs.FreeMap.{map_nodes, Sound};
ghost use Rattle.layout.specs.Words.{last_place};
ghost use Rattle.layout.specs.Fill.{cleared};
ghost use Rattle.freenodes.specs.FreeNodes.{Follows};

use freemap::give_used;
use layout::{clear_node, shift_of};

// Frees node n: all its words become 0, and it enters the map. A node that was free stays as it is, in the map or not: so
// this holds of any words, and a caller need not know that it meets no node twice.
pub fn release(pool: &mut [u64], map: &mut [u64], n: u64)
    requires n_in_bounds { last_place n < length pool.old }
    requires sound { Sound map.old }
    requires n_lt_map_nodes { n < map_nodes }
    ensures pool_after { pool.new ≡ cleared pool.old n }
    ensures follows { Follows pool.old pool.new map.old map.new }
{
    give_used(map, n, shift_of(pool, n));
    clear_node(pool, n);
}
