// A step over the slots of a node: empty slots, a reserved one, an entry with its siblings, or a child (specs/Steps).
//
// pool: the borrowed words; n, m: numbers of nodes, or m the marks; v: the level of a node (its shift / 6); j: an offset of a slot.
// A test's contract is `Decides r A`: true with A, false with the refutation of A.
#![tactic(auto)]

ghost use Rattle.std.specs.Prelude.{◌≡◌, ℕ, ◌+◌, ◌<◌, ◌≤◌, MatchOption};
ghost use Rattle.blocks.specs.Blocks.{bit};
ghost use Rattle.model.specs.Model.{mark_count};
ghost use Rattle.tree.specs.Tree.{slots};
ghost use Rattle.layout.specs.declared.Slot.TheVariants.{Empty, Held};
ghost use Rattle.layout.specs.Pool.{slot_at, pool_of};
ghost use Rattle.layout.specs.Reading.{Decides};
ghost use Rattle.local.specs.Local.{HasNode, cap, top_level, Agree, SlotsOk, ReservedOk, ChildOk};
ghost use Rattle.steps.specs.Steps.{AllMarks, Past, Stepped, SameSlots, Power, RunFits};

use layout::{
    COUNT_WORD, SLOT_BITS, SLOTS, Slot, TOP_TIER, mark_bit, mark_word, owner_of, owner_word,
    read_slot, shift_of, sibling_word, slot_word,
};
use words::pow2;

// The level of the nodes of shift 60.
pub const TOP_LEVEL: u64 = TOP_TIER - 1;

// The three mark words of node n as one.
pub fn all_marks(pool: &[u64], n: u64) -> u64
    requires { HasNode n pool.now }
    ensures { AllMarks (pool_of pool.now) n result }
{
    mark_word(pool, n, 0) | mark_word(pool, n, 1) | mark_word(pool, n, 2)
}

// How many slots slot j of node n and those after it with the word w are.
fn same_slots(pool: &[u64], n: u64, j: u64, w: u64) -> u64
    requires fact_1 { HasNode n pool.now }
    requires fact_2 { j < slots }
    ensures { SameSlots (pool_of pool.now) n j w result }
{
    for p in 1..SLOTS - j {
        if slot_word(pool, n, j + p) != w {
            return p;
        }
    }
    SLOTS - j
}

// How many slots of a node of level v lie below 2^64.
fn width(v: u64) -> u64
    ensures { result ≡ cap v }
{
    if v == TOP_LEVEL { 16 } else { SLOTS }
}

// Whether p is a power of two up to 32.
fn is_power(p: u64) -> bool
    ensures { Decides result (Power p) }
{
    matches!(p, 1 | 2 | 4 | 8 | 16 | 32)
}

// Whether an entry may take p slots from slot j on. (c) Test by test, as child_ok.
fn run_fits(v: u64, j: u64, p: u64) -> bool
    requires fact_1 { j + p ≤ slots }
    requires fact_2 { 0 < p }
    ensures { Decides result (RunFits v j p) }
{
    if !is_power(p) {
        return false;
    }
    let w = width(v);
    if 2 * p > w {
        return false;
    }
    if j & (p - 1) != 0 {
        return false;
    }
    j + p <= w
}

// Whether the p - 1 bits of m after bit j are 0.
fn rest_clear(m: u64, j: u64, p: u64) -> bool
    requires fact_1 { j < slots }
    requires fact_2 { (0 < p) × (p ≤ slots) }
    ensures { Decides result ((i : ℕ) → j < i → i < j + p → bit i m ≡ 0) }
{
    let q = pow2(p - 1);
    ((m >> j) >> 1) % q == 0
}

// The slots that the entry in slot j takes, where m is the marks, if its run is as it must be.
fn run_ok(pool: &[u64], n: u64, v: u64, j: u64, m: u64) -> Option<u64>
    requires fact_1 { HasNode n pool.now }
    requires fact_2 { (j < slots) × (v ≤ top_level) }
    requires fact_3 { AllMarks (pool_of pool.now) n m }
    requires fact_4 { Past (pool_of pool.now) n j }
    requires fact_5 { slot_at (pool_of pool.now) n j ≡ Held }
    ensures { MatchOption result (SlotsOk (pool_of pool.now) n v → ⊥) (Stepped (pool_of pool.now) n v j) }
{
    let p = same_slots(pool, n, j, sibling_word(j));
    if !run_fits(v, j, p) {
        return None;
    }
    if !rest_clear(m, j, p) {
        return None;
    }
    Some(p)
}

// How many slots from slot j on are empty, where m is the marks, if none of them has a mark.
fn gap_ok(pool: &[u64], n: u64, v: u64, j: u64, m: u64) -> Option<u64>
    requires fact_1 { HasNode n pool.now }
    requires fact_2 { (j < slots) × (v ≤ top_level) }
    requires fact_3 { AllMarks (pool_of pool.now) n m }
    requires fact_4 { Past (pool_of pool.now) n j }
    requires fact_5 { slot_at (pool_of pool.now) n j ≡ Empty }
    ensures { MatchOption result (SlotsOk (pool_of pool.now) n v → ⊥) (Stepped (pool_of pool.now) n v j) }
{
    if (m >> j) % 2 != 0 {
        return None;
    }
    let g = same_slots(pool, n, j, 0);
    if !rest_clear(m, j, g) {
        return None;
    }
    Some(g)
}

// Whether slot j may be reserved, where m is the marks: at level 0, without a mark and without siblings.
fn reserved_ok(pool: &[u64], n: u64, v: u64, j: u64, m: u64) -> bool
    requires fact_1 { HasNode n pool.now }
    requires fact_2 { j < slots }
    requires fact_3 { AllMarks (pool_of pool.now) n m }
    ensures { Decides result (ReservedOk (pool_of pool.now) n v j) }
{
    v == 0 && (m >> j) % 2 == 0 && same_slots(pool, n, j, sibling_word(j)) == 1
}

// Whether mark k of slot j of node n is that of node m.
fn agrees(pool: &[u64], n: u64, j: u64, m: u64, k: u64) -> bool
    requires fact_1 { HasNode n pool.now }
    requires fact_2 { HasNode m pool.now }
    requires fact_3 { (j < slots) × (k < mark_count) }
    ensures { Decides result (Agree (pool_of pool.now) n j m k) }
{
    let b = mark_bit(pool, n, k, j);
    b == u64::from(mark_word(pool, m, k) != 0)
}

// Whether slot j may lead to node m.
// (c) Test by test: of a chain of `&&` the proof has the tests by case alone, and did not close.
pub fn child_ok(pool: &[u64], n: u64, v: u64, j: u64, m: u64) -> bool
    requires fact_1 { HasNode n pool.now }
    requires fact_2 { j < slots }
    requires fact_3 { v ≤ top_level }
    ensures { Decides result (ChildOk (pool_of pool.now) n v j m) }
{
    if v == 0 {
        return false;
    }
    if m >= pool[COUNT_WORD] {
        return false;
    }
    if shift_of(pool, m) != SLOT_BITS * (v - 1) + 1 {
        return false;
    }
    if owner_of(pool, m) != owner_word(n, j) {
        return false;
    }
    if j >= width(v) {
        return false;
    }
    if !agrees(pool, n, j, m, 0) {
        return false;
    }
    if !agrees(pool, n, j, m, 1) {
        return false;
    }
    agrees(pool, n, j, m, 2)
}

// How many slots from slot j on are as they must be, if they are: empty slots, a reserved one, a child, or an entry with its siblings.
// m: the marks.
pub fn step(pool: &[u64], n: u64, v: u64, j: u64, m: u64) -> Option<u64>
    requires fact_1 { HasNode n pool.now }
    requires fact_2 { (j < slots) × (v ≤ top_level) }
    requires fact_3 { AllMarks (pool_of pool.now) n m }
    requires fact_4 { Past (pool_of pool.now) n j }
    ensures { MatchOption result (SlotsOk (pool_of pool.now) n v → ⊥) (Stepped (pool_of pool.now) n v j) }
{
    match read_slot(slot_word(pool, n, j)) {
        Slot::Empty => gap_ok(pool, n, v, j, m),
        Slot::Reserved => reserved_ok(pool, n, v, j, m).then_some(1),
        Slot::Held => run_ok(pool, n, v, j, m),
        Slot::Sibling(_) => None,
        Slot::Child(c) => child_ok(pool, n, v, j, c).then_some(1),
    }
}
