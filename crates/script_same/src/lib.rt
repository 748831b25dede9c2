// A command that leaves the nodes: the rows of the path, the anchor and the numbers, a table of the words after it.
#![tactic(auto)]

ghost use Rattle.std.specs.Prelude.{ℕ, ◌+◌, ◌-◌, ◌/◌, ◌<◌, ◌≤◌, ◌≡◌, true, false, List, get_or, length};
ghost use Rattle.std.proofs.Math.Option.{Option};
ghost use Rattle.blocks.specs.Blocks.{block};
ghost use Rattle.model.specs.declared.Entry.{Entry};
ghost use Rattle.model.specs.Model.{Valid, max_order, aligned};
ghost use Rattle.tree.specs.Tree.{height, has, tier_order, top_tier, slot_bits};
ghost use Rattle.layout.specs.Places.{number_in, new_places, render};
ghost use Rattle.layout.specs.WellFormed.{WellFormed, num};
ghost use Rattle.layout.specs.Words.{pool_words};
ghost use Rattle.script_rows.specs.Becomes.{Becomes, word_in, marks_in};
ghost use Rattle.script_table.specs.Table.{row_count, Tables};
ghost use Rattle.script_same.specs.Same.{NumberAt, Numbered, PathThere};

use layout::{COUNT_WORD, HEAD_WORD, SLOT_BITS, node_number};
use plan::walk_path;
use script_rows::{Range, anchor_row, path_rows};
use script_table::ROWS;

// The number of the node of row r, n where it has none.
pub fn number_at(path: &[u64], r: u64, v: u64, top: u64, n: u64) -> u64
    requires { (top ≤ top_tier) × (top_tier < length path.now) }
    ensures { NumberAt path.now r v top n result }
{
    if v < r && r <= top {
        return path[r as usize];
    }
    n
}

// The numbers of all rows, one by one: a copy of a part of the path would be a call of memcpy, and the library is to need memset alone.
pub fn number_rows(nums: &mut [u64], path: &[u64], v: u64, top: u64, n: u64)
    requires { (top ≤ top_tier) × (top_tier < length path.now) × (row_count ≤ length nums.old) }
    ensures { Numbered nums.new path.now v top n row_count }
{
    for r in 0..ROWS {
        nums[r as usize] = number_at(path, r, v, top, n);
    }
}

// The rows, the anchor and the numbers of a command that leaves the nodes: the words of the path, where the range of an entry
// in a node becomes another entry. path: words for the numbers of the path's nodes.
pub fn same_rows(
    pool: &[u64],
    rows: &mut [u64],
    nums: &mut [u64],
    path: &mut [u64],
    at: Range,
    top: u64,
)
    requires well_formed { WellFormed pool.now }
    requires row_count_in_bounds { (pool_words row_count ≤ length rows.old) × (row_count ≤ length nums.old) × (top_tier < length path.old) }
    requires order_le_max_order { (at.order ≤ max_order) × (aligned at.order at.base ≡ true) × (at.order / slot_bits < top) × (top ≤ top_tier) }
    requires path_there { (s : WellFormed pool.now) → PathThere s at.base (at.order / slot_bits) top }
    ensures { (s : WellFormed pool.now) (o : Option Entry) (l' : List Entry) →
        Becomes at.base at.order o s.list l' → Valid l' → at.word ≡ word_in o → at.marks ≡ marks_in o →
        ((u c : ℕ) → has l' u c ≡ has s.list u c) → height l' ≡ height s.list →
        new_places s.list l' s.places ≡ s.places →
        Tables pool.now rows.new nums.new (render l' s.places s.n) s.n }
{
    let v = at.order / SLOT_BITS;
    let i = at.base;
    let w = pool[HEAD_WORD];
    let n = pool[COUNT_WORD];
    let first = node_number(w);
    let d = walk_path(pool, path, i, v, top, first);
    path_rows(pool, rows, path, at, top);
    anchor_row(pool, rows, w, top);
    number_rows(nums, path, v, top, n);
}
