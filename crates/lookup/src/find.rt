// Find: the first entry that a filter takes, in steps that are counted (R58 to R67).
//
// p, q: positions; n, k: steps made; budget: the most; the other letters are lib.rt's.
ghost use Rattle.std.specs.Prelude.{ℕ, suc, ◌+◌, ◌-◌, ◌/◌, ◌%◌, ◌^◌, ◌<◌, ◌≤◌, ◌≡◌, length, get_or};
ghost use Rattle.blocks.specs.Blocks.{block};
ghost use Rattle.model.specs.Model.{max_order, mark_count};
ghost use Rattle.tree.specs.Tree.{slots, tier_order, top_tier};
ghost use Rattle.layout.specs.Words.{last_place, slot_place};
ghost use Rattle.layout.specs.WellFormed.{WellFormed, num};
ghost use Rattle.lookup.specs.Find;
ghost use Rattle.lookup.specs.Find.{any_mark, matches, after_slot, entry_turn, turn_at};
ghost use Rattle.lookup.specs.Leap.{sibling_count, Leaps, Walks, OnWay, StopsAt, counted_turn};
ghost use Rattle.lookup.specs.Views.{AtNode, down_of, Stopped};

use crate::{Entered, Outcome, Sight, Turn, enter, entry_at, look};
use layout::{
    SLOT_BITS, SLOTS, block_of, internal_bit, mark_bit, mark_word, next_filled, next_marked,
    plain_slots, sibling_bit, slot_word,
};
use model::{Entry, is_reserved};
use words::pow2;

// The filter that takes any entry.
const ANY_MARK: u64 = 3;

// Where the way down stopped: a node, and the tier of its slots.
#[derive(Clone, Copy)]
pub struct Stop {
    pub node: u64,
    pub tier: u64,
}

// Slots of a node that find passes at once: the slot after them, and the steps that they count; 0 steps: none are.
// An Option of it is slower: 3 in 100 more instructions of a find, counted with callgrind.
#[derive(Clone, Copy)]
pub struct Passed {
    pub to: u64,
    pub steps: u64,
}

// THE WAY DOWN, AS THE FILTER LEADS

// The node that the way down to p goes on into through its slot in node n: the slot leads there and has the filter's mark.
fn below(pool: &[u64], n: u64, v: u64, p: u64, filter: u64) -> Option<u64>
    requires well_formed { WellFormed pool.now }
    requires v_lt_top_tier { v < top_tier }
    requires filter_le_any_mark { filter ≤ any_mark }
    requires at_node { (s : WellFormed pool.now) → AtNode s.list (num s) v (block (tier_order (suc v)) p) n }
    ensures { (s : WellFormed pool.now) →
        result ≡ down_of s.list (num s) filter v (block (tier_order v) p) }
{
    let k = look(pool, n, v, p);
    match k {
        Sight::Below(m) => {
            if filter == ANY_MARK {
                return Some(m);
            }
            if mark_bit(pool, n, filter, block_of(v, p) % SLOTS) == 1 {
                return Some(m);
            }
            None
        }
        Sight::Gap | Sight::Shows(_) => None,
    }
}

// The way down to p, from node first, whose slots are of tier top.
fn descend(pool: &[u64], first: u64, top: u64, p: u64, filter: u64) -> Stop
    requires well_formed { WellFormed pool.now }
    requires top_lt_top_tier { top < top_tier }
    requires filter_le_any_mark { filter ≤ any_mark }
    requires at_node { (s : WellFormed pool.now) → AtNode s.list (num s) top (block (tier_order (suc top)) p) first }
    ensures tier_lt_top_tier { result.tier < top_tier }
    ensures stopped { (s : WellFormed pool.now) →
        Stopped s.list (num s) filter p top result.node result.tier }
{
    let mut n = first;
    let mut v = top;
    while let Some(m) = below(pool, n, v, p, filter) {
        n = m;
        v -= 1;
    }
    Stop { node: n, tier: v }
}

// ONE STEP

// The position after index z.
fn onward(z: u64, last: u64) -> Turn
    ensures { result ≡ Find.onward last (z + 1) }
{
    if last <= z {
        return Turn::Past;
    }
    Turn::On(z + 1)
}

// Whether the filter takes e; it takes no reservation. (b) Test by test: joined by `||` the marks are read before it is known that e is a
// reservation, and a find over reservations takes 27 % more instructions.
fn takes(filter: u64, e: Entry) -> bool
    requires { filter ≤ any_mark }
    ensures { result ≡ matches filter e }
{
    if is_reserved(e) {
        return false;
    }
    if filter == ANY_MARK {
        return true;
    }
    (e.marks >> filter) % 2 == 1
}

// The step that comes to the entry e.
fn consider(e: Entry, last: u64, filter: u64) -> Turn
    requires filter_le_any_mark { filter ≤ any_mark }
    requires order_le_max_order { e.order ≤ max_order }
    requires order_bound { e.base + 2 ^ e.order ≤ 2 ^ 64 }
    ensures { result ≡ entry_turn filter last e }
{
    if takes(filter, e) {
        return Turn::Hit(e);
    }
    onward(e.base + (pow2(e.order) - 1), last)
}

// The position after the slot of tier v that p lies in.
fn pass(v: u64, p: u64, last: u64) -> Turn
    requires { v < top_tier }
    ensures { result ≡ Find.onward last (after_slot v p) }
{
    let c = block_of(v, p);
    let w = pow2(SLOT_BITS * v);
    onward(c * w + (w - 1), last)
}

// The step that stops at the slot of node n towards p.
fn finish(pool: &[u64], n: u64, v: u64, p: u64, last: u64, filter: u64) -> Turn
    requires well_formed { WellFormed pool.now }
    requires v_lt_top_tier { v < top_tier }
    requires filter_le_any_mark { filter ≤ any_mark }
    requires at_node { (s : WellFormed pool.now) → AtNode s.list (num s) v (block (tier_order (suc v)) p) n }
    ensures { (s : WellFormed pool.now) → result ≡ turn_at s.list filter last p v }
{
    let k = look(pool, n, v, p);
    match k {
        Sight::Gap | Sight::Below(_) => pass(v, p, last),
        Sight::Shows(c) => consider(entry_at(pool, n, v, c), last, filter),
    }
}

// LEAPS

// How many slots of node n from o on, below to, are siblings, by reading each.
fn siblings_each(pool: &[u64], n: u64, o: u64, to: u64) -> u64
    requires n_in_bounds { last_place n < length pool.now }
    requires o_le_to { (o ≤ to) × (to ≤ slots) }
    ensures { result ≡ sibling_count (λ j. get_or pool.now (slot_place n j) 0) o (to - o) }
{
    let mut k = 0;
    for j in o..to {
        k += sibling_bit(slot_word(pool, n, j));
    }
    k
}

// How many slots of node n from o on, below to, are siblings. Where slots o and 63 are none, often none is, and
// one pass of a fixed number of turns tells.
fn siblings(pool: &[u64], n: u64, o: u64, to: u64) -> u64
    requires n_in_bounds { last_place n < length pool.now }
    requires o_lt_slots { o < slots }
    requires o_le_to { (o ≤ to) × (to ≤ slots) }
    ensures { result ≡ sibling_count (λ j. get_or pool.now (slot_place n j) 0) o (to - o) }
{
    if (internal_bit(slot_word(pool, n, o)) | internal_bit(slot_word(pool, n, SLOTS - 1))) % 2
        == 0
    {
        if plain_slots(pool, n, 0, SLOTS) {
            return 0;
        }
    }
    siblings_each(pool, n, o, to)
}

// The slots of node n from o on that are passed without a match, filter 0, 1 or 2.
fn over_unmarked(pool: &[u64], n: u64, o: u64, m: u64) -> Passed
    requires n_in_bounds { last_place n < length pool.now }
    requires o_lt_slots { o < slots }
    requires m_lt_mark_count { m < mark_count }
    ensures o_le_to { (o ≤ result.to) × (result.to ≤ slots) × (result.steps ≤ slots) }
    ensures leaps { (s : WellFormed pool.now) (v c : ℕ) → AtNode s.list (num s) v (c / slots) n →
        o ≡ c % slots → 0 < result.steps → Leaps s.list (num s) m v c (c - o + result.to) result.steps }
{
    let w = mark_word(pool, n, m);
    let to = next_marked(w, o);
    if to == o {
        return Passed { to: o, steps: 0 };
    }
    if sibling_bit(slot_word(pool, n, o)) == 1 {
        return Passed { to: o, steps: 0 };
    }
    let k = siblings(pool, n, o, to);
    Passed {
        to,
        steps: to - o - k,
    }
}

// The slots of node n from o on that are passed without a match.
fn leap(pool: &[u64], n: u64, o: u64, filter: u64) -> Passed
    requires n_in_bounds { last_place n < length pool.now }
    requires o_lt_slots { o < slots }
    requires filter_le_any_mark { filter ≤ any_mark }
    ensures o_le_to { (o ≤ result.to) × (result.to ≤ slots) × (result.steps ≤ slots) }
    ensures leaps { (s : WellFormed pool.now) (v c : ℕ) → AtNode s.list (num s) v (c / slots) n →
        o ≡ c % slots → 0 < result.steps → Leaps s.list (num s) filter v c (c - o + result.to) result.steps }
{
    if filter == ANY_MARK {
        let to = next_filled(pool, n, o, SLOTS);
        return Passed { to, steps: to - o };
    }
    over_unmarked(pool, n, o, filter)
}

// STRIDES

// What a step comes to as the step after n.
fn counted(t: Turn, n: u64) -> Outcome
    requires { n + 1 < 2 ^ 64 }
    ensures { result ≡ counted_turn t n }
{
    match t {
        Turn::Hit(e) => Outcome::Found(e, n + 1),
        Turn::Past => Outcome::Ended(n + 1),
        Turn::On(q) => Outcome::Paused(q, n + 1),
    }
}

// The steps from p on, after n, in the node m where the way to p stops: one, or a leap where last and budget allow it
// whole. A pause is where they end.
fn stride(
    pool: &[u64],
    m: u64,
    u: u64,
    p: u64,
    last: u64,
    filter: u64,
    n: u64,
    budget: u64,
) -> Outcome
    requires well_formed { WellFormed pool.now }
    requires u_lt_top_tier { u < top_tier }
    requires filter_le_any_mark { filter ≤ any_mark }
    requires n_lt_budget { n < budget }
    requires stops_at { (s : WellFormed pool.now) → StopsAt s.list (num s) filter p m u }
    ensures { (s : WellFormed pool.now) → Walks s.list filter last budget p n result }
{
    let c = block_of(u, p);
    let z = block_of(u, last);
    let o = c % SLOTS;
    let g = leap(pool, m, o, filter);
    let to = g.to;
    let k = g.steps;
    if 0 < k && k <= budget - n && c <= z && to - o <= z - c {
        return Outcome::Paused((c + (to - o)) * pow2(SLOT_BITS * u), n + k);
    }
    counted(finish(pool, m, u, p, last, filter), n)
}

// The steps from p on, after n, from node first on, while the position stays in the node where the way stopped.
fn walk_under(
    pool: &[u64],
    first: u64,
    top: u64,
    p: u64,
    last: u64,
    filter: u64,
    n: u64,
    budget: u64,
) -> Outcome
    requires well_formed { WellFormed pool.now }
    requires top_lt_top_tier { top < top_tier }
    requires filter_le_any_mark { filter ≤ any_mark }
    requires n_lt_budget { n < budget }
    requires on_way { (s : WellFormed pool.now) → OnWay s.list (num s) filter p first top }
    ensures { (s : WellFormed pool.now) → Walks s.list filter last budget p n result }
{
    let mut m = first;
    let mut u = top;
    let mut q = p;
    let mut k = n;
    while k < budget {
        let s = descend(pool, m, u, q, filter);
        m = s.node;
        u = s.tier;
        let t = stride(pool, m, u, q, last, filter, k, budget);
        let Outcome::Paused(z, j) = t else {
            return t;
        };
        if block_of(u, z) / SLOTS != block_of(u, q) / SLOTS {
            return t;
        }
        q = z;
        k = j;
    }
    Outcome::Paused(q, k)
}

// The steps from p on, after n, until the position leaves a node.
fn walk(pool: &[u64], p: u64, last: u64, filter: u64, n: u64, budget: u64) -> Outcome
    requires well_formed { WellFormed pool.now }
    requires filter_le_any_mark { filter ≤ any_mark }
    requires n_lt_budget { n < budget }
    ensures { (s : WellFormed pool.now) → Walks s.list filter last budget p n result }
{
    let k = enter(pool, p);
    match k {
        Entered::Outside => Outcome::Ended(n + 1),
        Entered::HeadEntry(e) => counted(consider(e, last, filter), n),
        Entered::Under(h, v) => walk_under(pool, h, v, p, last, filter, n, budget),
    }
}

// The first entry from first to last that the filter takes, in at most budget steps.
pub fn find(pool: &[u64], first: u64, last: u64, filter: u64, budget: u64) -> Outcome
    requires well_formed { WellFormed pool.now }
    requires filter_le_any_mark { filter ≤ any_mark }
    ensures { (s : WellFormed pool.now) → result ≡ Find.find s.list first last filter budget }
{
    let mut p = first;
    let mut n = 0;
    while n < budget {
        let t = walk(pool, p, last, filter, n, budget);
        let Outcome::Paused(q, m) = t else {
            return t;
        };
        p = q;
        n = m;
    }
    Outcome::Paused(p, n)
}
