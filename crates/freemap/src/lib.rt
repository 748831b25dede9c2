// A map of free numbers: the lowest of them and how many they are in a bounded number of words, however many there are.
//
// map: its words, as specs/FreeMap has them; m: the number of a node; x: a bit of the map; k: one of its words.
#![tactic(auto)]

ghost use Rattle.std.specs.Prelude.{ℕ, ◌+◌, ◌*◌, ◌/◌, ◌≤◌, ◌<◌, ◌≡◌, Bool, true, false, not, eqb, get_or, length, MatchOption};
ghost use Rattle.blocks.specs.Choice.{either};
ghost use Rattle.words.specs.Bits.{word_bits};
ghost use Rattle.freemap.specs.FreeMap.{map_nodes, map_top, map_count, map_words, map_bit, one_over, put};
ghost use Rattle.freemap.specs.FreeMap.{MapOf, Sound, Full, Lowest, Flips, Topped, Draws};

use words::{WORD_BITS, next_bit, with_bit};

// The map's measures, as specs/FreeMap has them.
pub const MAP_NODES: u64 = 4 * WORD_BITS * WORD_BITS;

const MAP_TOP: u64 = MAP_NODES / WORD_BITS;

const MAP_COUNT: usize = 260;

pub const MAP_WORDS: usize = 261;

// Bit x is set, or cleared.
pub fn set_bit(map: &mut [u64], x: u64, on: bool)
    requires { (x < word_bits * length map.old) × (x < 2 * map_nodes) }
    ensures { Flips map.old map.new x on }
{
    let k = (x / WORD_BITS) as usize;
    map[k] = with_bit(map[k], x % WORD_BITS, on);
}

// Word k was w and is not 0 now: the second level says so.
fn raise_word(map: &mut [u64], k: u64, w: u64)
    requires map_len { (length map.old ≡ map_words) × (k < map_top) × (get_or map.old k 0 ≡ 0 → ⊥) }
    requires k_value { map_bit map.old (map_nodes + k) ≡ one_over w }
    ensures { Topped map.old map.new k }
{
    if w == 0 {
        set_bit(map, MAP_NODES + k, true);
    }
}

// Word k was not 0: if it is now, the second level says so.
fn lower_word(map: &mut [u64], k: u64)
    requires map_len { (length map.old ≡ map_words) × (k < map_top) }
    requires k_value { map_bit map.old (map_nodes + k) ≡ 1 }
    ensures { Topped map.old map.new k }
{
    if map[k as usize] == 0 {
        set_bit(map, MAP_NODES + k, false);
    }
}

// How many nodes are free.
pub fn free_count(map: &[u64]) -> u64
    requires { Sound map.now }
    ensures { result ≡ get_or map.now map_count 0 }
{
    map[MAP_COUNT]
}

// The lowest free node, if there is one.
pub fn lowest_free(map: &[u64]) -> Option<u64>
    requires { Sound map.now }
    ensures { MatchOption result (Full map.now) (Lowest map.now) }
{
    for j in 0..MAP_TOP / WORD_BITS {
        let t = next_bit(map[(MAP_TOP + j) as usize], 0);
        if t < WORD_BITS {
            let k = WORD_BITS * j + t;
            return Some(WORD_BITS * k + next_bit(map[k as usize], 0));
        }
    }
    None
}

// Node m, which is in the map, leaves it.
pub fn take(map: &mut [u64], m: u64)
    requires sound { Sound map.old }
    requires m_lt_map_nodes { (m < map_nodes) × (map_bit map.old m ≡ 1) }
    ensures { (f : ℕ → Bool) → MapOf f map.old → MapOf (put f m false) map.new }
{
    set_bit(map, m, false);
    lower_word(map, m / WORD_BITS);
    map[MAP_COUNT] -= 1;
}

// Node m is in the map from here on.
pub fn give(map: &mut [u64], m: u64)
    requires sound { Sound map.old }
    requires m_lt_map_nodes { m < map_nodes }
    ensures { (f : ℕ → Bool) → MapOf f map.old → MapOf (put f m true) map.new }
{
    let k = m / WORD_BITS;
    let w = map[k as usize];
    if (w >> (m % WORD_BITS)) % 2 == 1 {
        return;
    }
    set_bit(map, m, true);
    raise_word(map, k, w);
    map[MAP_COUNT] += 1;
}

// Node m, whose first word is w, is in the map from here on if it is in use now.
pub fn give_used(map: &mut [u64], m: u64, w: u64)
    requires sound { Sound map.old }
    requires m_lt_map_nodes { m < map_nodes }
    ensures { (f : ℕ → Bool) → MapOf f map.old →
        MapOf (put f m (either (f m) (not (eqb w 0)))) map.new }
{
    if w != 0 {
        give(map, m);
    }
}

// Node m, whose first word is w, is in the map from here on if it is free.
pub fn enter(map: &mut [u64], m: u64, w: u64)
    requires sound { Sound map.old }
    requires m_lt_map_nodes { m < map_nodes }
    ensures { (f : ℕ → Bool) → f m ≡ false → MapOf f map.old → MapOf (put f m (eqb w 0)) map.new }
{
    if w == 0 {
        give(map, m);
    }
}

// Draws the lowest free numbers from the map, as many as needed; none if there are too few.
pub fn draw(map: &mut [u64], nums: &mut [u64], need: u64) -> bool
    requires sound { Sound map.old }
    requires need_bound { need ≤ length nums.old }
    ensures { (f : ℕ → Bool) → MapOf f map.old →
        Draws f need nums.new map.old map.new result }
{
    if free_count(map) < need {
        return false;
    }
    for i in 0..need as usize {
        let m = lowest_free(map).unwrap();
        take(map, m);
        nums[i] = m;
    }
    true
}
