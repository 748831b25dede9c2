// The script of a pool whose words after a command are given by rows: a row for each node that changes, and the anchor.
// Only these nodes are looked at.
//
// pool: the borrowed words, n nodes; rows: the rows, laid out as the words of a pool, whose anchor is that after the command;
// nums: the number of the node of each row, n or more where there is none; k: words of the script so far.
#![tactic(auto)]

ghost use Rattle.std.specs.Prelude.{ℕ, ◌+◌, ◌*◌, ◌-◌, ◌^◌, ◌<◌, ◌≤◌, ◌≡◌, List, eqb, get_or, length, set, replicate};
ghost use Rattle.blocks.specs.Choice.{pick};
ghost use Rattle.layout.specs.Words.{pool_words, last_place, max_nodes};
ghost use Rattle.script.specs.Script.{script_from, script};
ghost use Rattle.script_table.specs.Table.{laid, row_count, Tables, NextNumber, RowOf, Agrees, Fits, Wrote, NodeFits, AllFits};

use layout::{ANCHOR_WORDS, NODE_WORDS};

// How many rows there are.
pub const ROWS: u64 = 24;

pub const ROW_COUNT: usize = ROWS as usize;

// The words of all rows.
pub const ROW_WORDS: usize = (ANCHOR_WORDS + NODE_WORDS * ROWS) as usize;

// The rows and their numbers. It is large: it goes by reference alone.
#[derive(Drop)]
pub struct Table {
    pub rows: [u64; ROW_WORDS],
    pub nums: [u64; ROW_COUNT],
}

impl Table {
    // Zeros, to be written over. Inlined, it is made where it stays.
    #[inline(always)]
    pub fn new() -> Table
        ensures rows { result.rows ≡ replicate (pool_words row_count) 0 }
        ensures nums { result.nums ≡ replicate row_count 0 }
    {
        Table {
            rows: [0; ROW_WORDS],
            nums: [0; ROW_COUNT],
        }
    }
}

// k, and two more if a word changes.
fn counted(n: u64, w: u64, x: u64) -> u64
    requires { n < 2 ^ 63 }
    ensures { (result ≡ pick (eqb w x) n (n + 2)) × (result ≤ n + 2) }
{
    if w == x {
        return n;
    }
    n + 2
}

// How many words the script has after c places from p on, whose new words are those of rows from q on. (Counted by `zip`, `filter` and
// `count`, the words of both took 1,300 instructions more for each command prepared, a fifth of its script.)
pub fn span_length(pool: &[u64], rows: &[u64], p: u64, q: u64, c: u64, k: u64) -> u64
    requires { (p + c ≤ length pool.now) × (q + c ≤ length rows.now) × (c ≤ 70) × (k < 2 ^ 62) }
    ensures upper_bound { result ≤ k + 2 * c }
    ensures by_index { (ws' : List ℕ) → Agrees ws' rows.now p q c →
        result + length (script_from pool.now ws' (p + c) (length pool.now - (p + c))) ≡
        k + length (script_from pool.now ws' p (length pool.now - p)) }
{
    let mut y = k;
    for t in 0..c {
        let w = pool[(p + t) as usize];
        let x = rows[(q + t) as usize];
        y = counted(y, w, x);
    }
    y
}

// The least number of a row, from or more, if one is below n. (This and the next over a slice: over the array of a Table the search
// didn't find their proofs.)
pub fn next_number(nums: &[u64], from: u64, n: u64) -> Option<u64>
    requires { row_count ≤ length nums.now }
    ensures { NextNumber nums.now from n result }
{
    nums[..ROWS as usize]
        .iter()
        .copied()
        .filter(|m| from <= *m)
        .min()
        .filter(|m| *m < n)
}

// The row of node m, if it has one.
pub fn row_of(nums: &[u64], m: u64) -> Option<usize>
    requires { row_count ≤ length nums.now }
    ensures { RowOf nums.now m result }
{
    nums[..ROWS as usize].iter().position(|x| *x == m)
}

// How many words the script has after node m, where it has k before it.
fn node_length(pool: &[u64], rows: &[u64], nums: &[u64], m: u64, k: u64) -> u64
    requires { (last_place m < length pool.now) × (pool_words row_count ≤ length rows.now) ×
        (row_count ≤ length nums.now) × (k < 2 ^ 62) × (m < max_nodes) }
    ensures upper_bound { result ≤ k + 140 }
    ensures by_index { (n : ℕ) (ws' : List ℕ) →
        Tables pool.now rows.now nums.now ws' n → m < n →
        result + length (script_from pool.now ws' (pool_words (m + 1)) (length pool.now - pool_words (m + 1))) ≡
        k + length (script_from pool.now ws' (pool_words m) (length pool.now - pool_words m)) }
{
    match row_of(nums, m) {
        None => k,
        Some(r) => span_length(
            pool,
            rows,
            ANCHOR_WORDS + NODE_WORDS * m,
            ANCHOR_WORDS + NODE_WORDS * r as u64,
            NODE_WORDS,
            k,
        ),
    }
}

// How many words the script has.
pub fn table_length(pool: &[u64], rows: &[u64], nums: &[u64], n: u64) -> u64
    requires { (length pool.now ≡ pool_words n) × (n ≤ max_nodes) × (pool_words row_count ≤ length rows.now) ×
        (row_count ≤ length nums.now) }
    ensures { (ws' : List ℕ) → Tables pool.now rows.now nums.now ws' n →
        result ≡ length (script pool.now ws') }
{
    let mut k = span_length(pool, rows, 0, 0, ANCHOR_WORDS, 0);
    let mut from = 0;
    while let Some(m) = next_number(nums, from, n) {
        k = node_length(pool, rows, nums, m, k);
        from = m + 1;
    }
    k
}

// A place and its new word at t, if the word changes.
fn emit(out: &mut [u64], t: usize, p: u64, w: u64, x: u64) -> usize
    requires { (w ≡ x → ⊥) → t + 2 ≤ length out.old }
    ensures value { result ≡ pick (eqb w x) t (t + 2) }
    ensures out_after { out.new ≡ pick (eqb w x) out.old (set (set out.old t p) (t + 1) x) }
{
    if w == x {
        return t;
    }
    out[t] = p;
    out[t + 1] = x;
    t + 2
}

// Writes the script's part of c places from p on, whose new words are those of rows from q on, at t. (Places are written too: over
// pairs of words the loop would need their index beside them, and be no plainer.)
pub fn span_write(
    pool: &[u64],
    rows: &[u64],
    p: u64,
    q: u64,
    c: u64,
    out: &mut [u64],
    t: usize,
) -> usize
    requires { Fits pool.now rows.now p q c t out.old }
    ensures { (ws' : List ℕ) → Agrees ws' rows.now p q c →
        Wrote pool.now ws' p (p + c) t result out.old out.new }
{
    let mut y = t;
    for j in 0..c {
        let w = pool[(p + j) as usize];
        let x = rows[(q + j) as usize];
        y = emit(out, y, p + j, w, x);
    }
    y
}

// Writes node m's part of the script at t.
fn node_write(pool: &[u64], rows: &[u64], nums: &[u64], m: u64, out: &mut [u64], t: usize) -> usize
    requires row_count_in_bounds { (pool_words row_count ≤ length rows.now) × (row_count ≤ length nums.now) × (m < max_nodes) }
    requires node_fits { NodeFits pool.now rows.now nums.now m t out.old }
    ensures { (n : ℕ) (ws' : List ℕ) →
        Tables pool.now rows.now nums.now ws' n → m < n →
        Wrote pool.now ws' (pool_words m) (pool_words (m + 1)) t result out.old out.new }
{
    match row_of(nums, m) {
        None => t,
        Some(r) => span_write(
            pool,
            rows,
            ANCHOR_WORDS + NODE_WORDS * m,
            ANCHOR_WORDS + NODE_WORDS * r as u64,
            NODE_WORDS,
            out,
            t,
        ),
    }
}

// Writes the script, for which there is room.
pub fn table_write(pool: &[u64], rows: &[u64], nums: &[u64], n: u64, out: &mut [u64])
    requires pool_len { (length pool.now ≡ pool_words n) × (n ≤ max_nodes) × (pool_words row_count ≤ length rows.now) ×
        (row_count ≤ length nums.now) }
    requires all_fits { AllFits pool.now rows.now nums.now n out.old }
    ensures { (ws' : List ℕ) → Tables pool.now rows.now nums.now ws' n →
        out.new ≡ laid out.old 0 (script pool.now ws') }
{
    let mut t = span_write(pool, rows, 0, 0, ANCHOR_WORDS, out, 0);
    let mut from = 0;
    while let Some(m) = next_number(nums, from, n) {
        t = node_write(pool, rows, nums, m, out, t);
        from = m + 1;
    }
}
