// The script of a pool after a store that may free nodes: rows for the nodes that change, zeros for those inside the range.
//
// Which nodes lie inside is asked once, and kept in a map (crate freemap): to count the script's words and to write it take the time of the
// nodes that go.
//
// pool: the borrowed words, n nodes; rows, nums: the rows and their numbers (crate script_table); base, order: the range; map: the nodes
// inside it; m: the number of a node; k: words of the script so far.
#![tactic(auto)]

ghost use Rattle.std.specs.Prelude.{ℕ, ◌+◌, ◌*◌, ◌-◌, ◌^◌, ◌<◌, ◌≤◌, ◌≡◌, true, false, List, get_or, length};
ghost use Rattle.model.specs.Model.{max_order};
ghost use Rattle.tree.specs.Tree.{tier_order};
ghost use Rattle.layout.specs.Words.{pool_words, count_word};
ghost use Rattle.layout.specs.WellFormed.{WellFormed};
ghost use Rattle.freemap.specs.FreeMap.{map_nodes, map_top, BlankMap, Sound};
ghost use Rattle.script.specs.Script.{script_from, script};
ghost use Rattle.script_table.specs.Table.{laid, row_count, Wrote};
ghost use Rattle.script_wide.specs.Climb.{At, Stands};
ghost use Rattle.script_wide.specs.Freed.{Gone, AllFreed, Counted, GoneFits, FreedFits, NodeFits, WideFits};
ghost use Rattle.script_wide.specs.Going.{Going, NextGoing, WideBy};
ghost use Rattle.script_wide.specs.Wide.{GoesAt};

use freemap::give;
use layout::{ANCHOR_WORDS, NODE_WORDS, SHIFT_DROP, SLOT_BITS, SLOTS, owner_of, shift_of};
use script_table::{next_number, row_of, span_length, span_write};
use words::{WORD_BITS, next_bit, pow2};

// WHICH NODES GO

// The first index of the block of node m, of tier u.
fn first_of(pool: &[u64], m: u64, u: u64) -> u64
    requires well_formed { WellFormed pool.now }
    requires stands { (s : WellFormed pool.now) → Stands s m u }
    ensures { (s : WellFormed pool.now) (b : ℕ) → At s m u b → result ≡ b * 2 ^ tier_order u }
{
    let mut n = m;
    let mut t = u;
    let mut x = 0;
    loop {
        let p = owner_of(pool, n);
        if p == 0 {
            return x;
        }
        x = x + (p - 1) % SLOTS * pow2(SLOT_BITS * t);
        n = (p - 1) / SLOTS;
        t = t + 1;
    }
}

// Whether node m is in use and lies inside the range. Most nodes are told by their first word.
fn goes(pool: &[u64], m: u64, base: u64, order: u64) -> bool
    requires well_formed { WellFormed pool.now }
    requires m_bound { (m < get_or pool.now count_word 0) × (order ≤ max_order) }
    ensures { (s : WellFormed pool.now) →
        (result ≡ true → GoesAt s base order m) × (result ≡ false → GoesAt s base order m → ⊥) }
{
    let w = shift_of(pool, m);
    if w == 0 {
        return false;
    }
    if w + SHIFT_DROP > order {
        return false;
    }
    let u = (w + SHIFT_DROP) / SLOT_BITS;
    let x = first_of(pool, m, u);
    x >> order == base >> order
}

// Node m is in the map from here on if it goes.
fn mark(pool: &[u64], m: u64, base: u64, order: u64, map: &mut [u64])
    requires well_formed { WellFormed pool.now }
    requires m_bound { (m < get_or pool.now count_word 0) × (order ≤ max_order) }
    requires sound { Sound map.old }
    ensures sound_2 { Sound map.new }
    ensures going { (s : WellFormed pool.now) →
        Going s map.old base order m → Going s map.new base order (m + 1) }
{
    if goes(pool, m, base, order) {
        give(map, m);
    }
}

// The map of the nodes that go.
pub fn mark_going(pool: &[u64], n: u64, base: u64, order: u64, map: &mut [u64])
    requires well_formed { WellFormed pool.now }
    requires n_value { (n ≡ get_or pool.now count_word 0) × (order ≤ max_order) }
    requires blank_map { BlankMap map.old }
    ensures { (s : WellFormed pool.now) → Going s map.new base order n }
{
    for m in 0..n {
        mark(pool, m, base, order, map);
    }
}

// The next node that goes, from m on, if there is one below end.
fn next_going(map: &[u64], m: u64, end: u64) -> Option<u64>
    requires { (m ≤ end) × (end ≤ map_nodes) × (map_top ≤ length map.now) }
    ensures { NextGoing map.now m end result }
{
    let mut x = m;
    while x < end {
        let q = x / WORD_BITS;
        let j = next_bit(map[q as usize], x % WORD_BITS);
        if j < WORD_BITS {
            let r = WORD_BITS * q + j;
            return if r < end { Some(r) } else { None };
        }
        x = WORD_BITS * (q + 1);
    }
    None
}

// HOW MANY WORDS

// Node m, which goes.
fn free_length(pool: &[u64], m: u64, k: u64) -> u64
    requires well_formed { WellFormed pool.now }
    requires m_bound { (m < get_or pool.now count_word 0) × (k < 2 ^ 62) }
    ensures upper_bound { result ≤ k + 140 }
    ensures by_index { (ws' : List ℕ) → Gone ws' m →
        Counted pool.now ws' (pool_words m) (pool_words (m + 1)) k result }
{
    let zeros = [0u64; 70];
    let p = ANCHOR_WORDS + NODE_WORDS * m;
    span_length(pool, &zeros, p, 0, NODE_WORDS, k)
}

// The nodes from m on, below end, which have no row.
fn frees_length(pool: &[u64], map: &[u64], m: u64, end: u64, k: u64) -> u64
    requires well_formed { WellFormed pool.now }
    requires m_le_end { (m ≤ end) × (end ≤ get_or pool.now count_word 0) × (map_top ≤ length map.now) × (k ≤ 8 + 140 * m) }
    ensures upper_bound { result ≤ 8 + 140 * end }
    ensures by_index { (ws' : List ℕ) → AllFreed pool.now map.now ws' m end →
        Counted pool.now ws' (pool_words m) (pool_words end) k result }
{
    let mut x = m;
    let mut y = k;
    while let Some(q) = next_going(map, x, end) {
        y = free_length(pool, q, y);
        x = q + 1;
    }
    y
}

// Node m, by its row if it has one.
fn node_length(pool: &[u64], rows: &[u64], nums: &[u64], map: &[u64], m: u64, k: u64) -> u64
    requires well_formed { WellFormed pool.now }
    requires row_count_in_bounds { (pool_words row_count ≤ length rows.now) × (row_count ≤ length nums.now) × (map_top ≤ length map.now) }
    requires m_bound { (m < get_or pool.now count_word 0) × (k ≤ 8 + 140 * m) }
    ensures upper_bound { result ≤ 8 + 140 * (m + 1) }
    ensures by_index { (ws' : List ℕ) →
        WideBy pool.now rows.now nums.now map.now ws' →
        Counted pool.now ws' (pool_words m) (pool_words (m + 1)) k result }
{
    match row_of(nums, m) {
        None => frees_length(pool, map, m, m + 1, k),
        Some(r) => span_length(
            pool,
            rows,
            ANCHOR_WORDS + NODE_WORDS * m,
            ANCHOR_WORDS + NODE_WORDS * r as u64,
            NODE_WORDS,
            k,
        ),
    }
}

// How many words the script has.
pub fn wide_length(pool: &[u64], rows: &[u64], nums: &[u64], map: &[u64], n: u64) -> u64
    requires well_formed { WellFormed pool.now }
    requires row_count_in_bounds { (pool_words row_count ≤ length rows.now) × (row_count ≤ length nums.now) × (map_top ≤ length map.now) }
    requires n_value { n ≡ get_or pool.now count_word 0 }
    ensures { (ws' : List ℕ) →
        WideBy pool.now rows.now nums.now map.now ws' →
        result ≡ length (script pool.now ws') }
{
    let mut k = span_length(pool, rows, 0, 0, ANCHOR_WORDS, 0);
    let mut m = 0;
    while let Some(q) = next_number(nums, m, n) {
        k = frees_length(pool, map, m, q, k);
        k = node_length(pool, rows, nums, map, q, k);
        m = q + 1;
    }
    frees_length(pool, map, m, n, k)
}

// WRITING IT

// Node m's part, at t, where it goes.
fn free_write(pool: &[u64], m: u64, out: &mut [u64], t: usize) -> usize
    requires well_formed { WellFormed pool.now }
    requires m_bound { m < get_or pool.now count_word 0 }
    requires gone_fits { GoneFits pool.now m t out.old }
    ensures { (ws' : List ℕ) → Gone ws' m →
        Wrote pool.now ws' (pool_words m) (pool_words (m + 1)) t result out.old out.new }
{
    let zeros = [0u64; 70];
    let p = ANCHOR_WORDS + NODE_WORDS * m;
    span_write(pool, &zeros, p, 0, NODE_WORDS, out, t)
}

// That of the nodes from m on, below end, which have no row.
fn frees_write(pool: &[u64], map: &[u64], m: u64, end: u64, out: &mut [u64], t: usize) -> usize
    requires well_formed { WellFormed pool.now }
    requires m_le_end { (m ≤ end) × (end ≤ get_or pool.now count_word 0) × (map_top ≤ length map.now) }
    requires freed_fits { FreedFits pool.now map.now m end t out.old }
    ensures { (ws' : List ℕ) → AllFreed pool.now map.now ws' m end →
        Wrote pool.now ws' (pool_words m) (pool_words end) t result out.old out.new }
{
    let mut x = m;
    let mut y = t;
    while let Some(q) = next_going(map, x, end) {
        y = free_write(pool, q, out, y);
        x = q + 1;
    }
    y
}

// That of node m, by its row if it has one.
fn node_write(
    pool: &[u64],
    rows: &[u64],
    nums: &[u64],
    map: &[u64],
    m: u64,
    out: &mut [u64],
    t: usize,
) -> usize
    requires well_formed { WellFormed pool.now }
    requires row_count_in_bounds { (pool_words row_count ≤ length rows.now) × (row_count ≤ length nums.now) × (map_top ≤ length map.now) }
    requires m_bound { m < get_or pool.now count_word 0 }
    requires node_fits { NodeFits pool.now rows.now nums.now map.now m t out.old }
    ensures { (ws' : List ℕ) →
        WideBy pool.now rows.now nums.now map.now ws' →
        Wrote pool.now ws' (pool_words m) (pool_words (m + 1)) t result out.old out.new }
{
    match row_of(nums, m) {
        None => frees_write(pool, map, m, m + 1, out, t),
        Some(r) => span_write(
            pool,
            rows,
            ANCHOR_WORDS + NODE_WORDS * m,
            ANCHOR_WORDS + NODE_WORDS * r as u64,
            NODE_WORDS,
            out,
            t,
        ),
    }
}

// Writes the script, for which there is room.
pub fn wide_write(pool: &[u64], rows: &[u64], nums: &[u64], map: &[u64], n: u64, out: &mut [u64])
    requires well_formed { WellFormed pool.now }
    requires row_count_in_bounds { (pool_words row_count ≤ length rows.now) × (row_count ≤ length nums.now) × (map_top ≤ length map.now) }
    requires n_value { n ≡ get_or pool.now count_word 0 }
    requires wide_fits { WideFits pool.now rows.now nums.now map.now out.old }
    ensures { (ws' : List ℕ) →
        WideBy pool.now rows.now nums.now map.now ws' →
        out.new ≡ laid out.old 0 (script pool.now ws') }
{
    let mut t = span_write(pool, rows, 0, 0, ANCHOR_WORDS, out, 0);
    let mut m = 0;
    while let Some(q) = next_number(nums, m, n) {
        t = frees_write(pool, map, m, q, out, t);
        t = node_write(pool, rows, nums, map, q, out, t);
        m = q + 1;
    }
    frees_write(pool, map, m, n, out, t);
}
