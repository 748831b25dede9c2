// The check of a pool of names: one pass over the blocks, each by itself with the blocks that its slots name (assoc_local).
//
// pool: the borrowed words; n: how many blocks; m, x: numbers of blocks; v: a tier; j: a slot; r: its word, 0 or 1 + a number.
// A test's contract is `Decides r A`: true with A, false with the refutation of A.
#![tactic(auto)]

ghost use Rattle.std.specs.Prelude.{◌≡◌, Bool, true, false, MatchOption, ℕ, suc, ◌+◌, ◌-◌, ◌≤◌, ◌<◌, get_or, length, OnOk};
ghost use Rattle.answers.specs.Answers.{answer_of};
ghost use Rattle.blocks.specs.Choice.{either};
ghost use Rattle.blocks.specs.Deciding.{Decides};
ghost use Rattle.freemap.specs.FreeMap.{put, MapOf, BlankMap};
ghost use Rattle.assoc_tree.specs.Keys.{is_key};
ghost use Rattle.assoc_tree.specs.Parts.{full, slots, top_tier};
ghost use Rattle.assoc_layout.specs.Words.{place, tier_field, root_word, max_blocks};
ghost use Rattle.assoc_layout.specs.Decode.{word, base_at};
ghost use Rattle.assoc_layout.specs.Reading.{Within};
ghost use Rattle.assoc_local.specs.Local.{tier_of, skip_of, count_of, top_of, slot_at, keys_under, keys_at};
ghost use Rattle.assoc_local.specs.Local.{Head, LeafOk, CutOk, LeafIn, PackedOk, SlotOk, SpreadOk, BlockOk, RootOk, Live, PoolOk};
ghost use Rattle.assoc_check.specs.Checking.{Counts, Block, Sized, CutTo, InSlot, Rises, Leaves, free_to};
ghost use Rattle.assoc_check.specs.Seen.{SetOf, Seen, names, slot_names, named_to};
ghost use Rattle.assoc_check.specs.Answers.{check_answer, clear_answer, clear_words};
ghost use Rattle.assoc_layout.specs.Decode.{block_count};

use answers::Answer;
use assoc_layout::{
    ANCHOR_WORDS, BASE_FIELD, BLOCK_WORDS, FULL, MAX_BLOCKS, ROOT_WORD, SKIP_FIELD, SLOT_FIELD,
    SLOTS, TIER_FIELD, TOP_TIER, VALUE_FIELD, below, blank, digit, field, is_first, together,
};
use commands::is_storable;
use freemap::{MAP_WORDS, enter, set_bit};
use words::{WORD_BITS, fill, records_in};

// The bytes of the longest key; where the length byte stands, after the other words of a base.
const MAX_KEY: u64 = 32;

const LENGTH_FIELD: u64 = BASE_FIELD + 4;

const COUNT_WORD: usize = 0;

// A bit for each block.
const SEEN_WORDS: usize = 256;

// LEAVES

// The base of block m is a key's number: its length is one, and the bytes after the key are 0.
fn key_ok(pool: &[u64], m: u64) -> bool
    requires { Within pool.now m }
    ensures { Decides result (is_key (base_at pool.now m) ≡ true) }
{
    let size = field(pool, m, LENGTH_FIELD);
    if size < 1 {
        return false;
    }
    if MAX_KEY < size {
        return false;
    }
    is_first(pool, m, 2 * (MAX_KEY - size))
}

// Block m, which says that it is a leaf, is one.
fn leaf_ok(pool: &[u64], m: u64) -> bool
    requires { Within pool.now m × (word pool.now m tier_field ≡ 1) }
    ensures { (n : ℕ) → Decides result (LeafOk pool.now n m) }
{
    if field(pool, m, SKIP_FIELD) != 0 {
        return false;
    }
    if !is_storable(field(pool, m, VALUE_FIELD)) {
        return false;
    }
    if !key_ok(pool, m) {
        return false;
    }
    blank(pool, m, SLOT_FIELD, BLOCK_WORDS)
}

// NODES AND SHORTCUTS

// Tier, skip and base of block m, whose first word is t, above 1, are such as a node or shortcut has.
fn head_ok(pool: &[u64], m: u64, t: u64) -> bool
    requires { Within pool.now m × (t ≡ word pool.now m tier_field) × (2 ≤ t) }
    ensures { (n : ℕ) → Decides result (Head pool.now n m) }
{
    if TOP_TIER + 1 < t {
        return false;
    }
    if TOP_TIER + 1 - t < field(pool, m, SKIP_FIELD) {
        return false;
    }
    is_first(pool, m, t - 1)
}

// A shortcut m leads to block x.
fn cut_to(pool: &[u64], m: u64, x: u64) -> bool
    requires { Within pool.now m × Within pool.now x }
    ensures { Decides result (CutTo pool.now m x) }
{
    if field(pool, x, TIER_FIELD) != field(pool, m, TIER_FIELD) {
        return false;
    }
    if field(pool, x, SKIP_FIELD) != 0 {
        return false;
    }
    if field(pool, x, VALUE_FIELD) <= FULL {
        return false;
    }
    together(pool, x, m, 0)
}

// The block that a slot's word r leads to, if it is one of n: 0 leads to none, and wraps to a number above all.
fn named(n: u64, r: u64) -> Option<u64>
    ensures { MatchOption result (1 ≤ r → n < r) (λ x. (r ≡ suc x) × (x < n)) }
{
    let x = r.wrapping_sub(1);
    if x < n { Some(x) } else { None }
}

// The shortcut m.
fn cut_ok(pool: &[u64], n: u64, m: u64) -> bool
    requires { Block pool.now n m × Head pool.now n m × (1 ≤ skip_of pool.now m) }
    ensures { Decides result (CutOk pool.now n m) }
{
    if field(pool, m, VALUE_FIELD) != 0 {
        return false;
    }
    if !blank(pool, m, SLOT_FIELD + 1, BLOCK_WORDS) {
        return false;
    }
    match named(n, field(pool, m, SLOT_FIELD)) {
        Some(x) => cut_to(pool, m, x),
        None => false,
    }
}

// Slot j of node m, of tier v, has a leaf of its block.
fn leaf_in(pool: &[u64], n: u64, m: u64, v: u64, j: u64) -> bool
    requires { Block pool.now n m × (v ≡ tier_of pool.now m) × (v ≤ top_tier) × (j < slots) }
    ensures { Decides result (LeafIn pool.now n m j) }
{
    let Some(x) = named(n, field(pool, m, SLOT_FIELD + j)) else {
        return false;
    };
    if field(pool, x, TIER_FIELD) != 1 {
        return false;
    }
    together(pool, x, m, v)
}

// The leaf in slot j of node m is above the one in the slot before.
fn rises(pool: &[u64], n: u64, m: u64, j: u64) -> bool
    requires { Block pool.now n m × LeafIn pool.now n m (j - 1) × LeafIn pool.now n m j × (1 ≤ j) }
    ensures { Decides result (Rises pool.now n m (j - 1)) }
{
    let x = field(pool, m, SLOT_FIELD + (j - 1)) - 1;
    let y = field(pool, m, SLOT_FIELD + j) - 1;
    below(pool, x, y)
}

// The slots of node m below k, of tier v, have leaves, and so has slot k, all of them rising.
fn leaf_next(pool: &[u64], n: u64, m: u64, v: u64, k: u64) -> bool
    requires block { Block pool.now n m × (v ≡ tier_of pool.now m) × (v ≤ top_tier) × (k < slots) }
    requires leaves { Leaves pool.now n m k }
    ensures { Decides result (Leaves pool.now n m (k + 1)) }
{
    if !leaf_in(pool, n, m, v, k) {
        return false;
    }
    if k == 0 {
        return true;
    }
    rises(pool, n, m, k)
}

// The slots of node m below count have leaves of its block, rising.
fn leaves_ok(pool: &[u64], n: u64, m: u64, v: u64, count: u64) -> bool
    requires { Block pool.now n m × (v ≡ tier_of pool.now m) × (v ≤ top_tier) × (count ≤ slots) }
    ensures { Decides result (Leaves pool.now n m count) }
{
    for k in 0..count {
        if !leaf_next(pool, n, m, v, k) {
            return false;
        }
    }
    true
}

// Node m, of tier v, with at most 16 keys.
fn packed_ok(pool: &[u64], n: u64, m: u64, v: u64, count: u64) -> bool
    requires block { Block pool.now n m × Head pool.now n m × (v ≡ tier_of pool.now m) }
    requires m_value { (skip_of pool.now m ≡ 0) × (count ≡ count_of pool.now m) × (count ≤ full) }
    ensures { Decides result (PackedOk pool.now n m) }
{
    if count == 0 {
        return false;
    }
    if !blank(pool, m, SLOT_FIELD + count, BLOCK_WORDS) {
        return false;
    }
    leaves_ok(pool, n, m, v, count)
}

// The base of block x lies in the block of slot j of node m, of tier v + 1.
fn in_slot(pool: &[u64], m: u64, v: u64, j: u64, x: u64) -> bool
    requires { Within pool.now m × Within pool.now x × (v < top_tier) × (j < slots) }
    ensures { Decides result (InSlot pool.now m v j x) }
{
    if !together(pool, x, m, v + 1) {
        return false;
    }
    digit(pool, x, v) == j
}

// Block x, whose first word is t, is a node or shortcut whose upper end is of tier v.
fn tops_at(pool: &[u64], x: u64, t: u64, v: u64) -> bool
    requires { Within pool.now x × (t ≡ word pool.now x tier_field) × (v ≤ top_tier) }
    ensures { Decides result ((2 ≤ word pool.now x tier_field) × (top_of pool.now x ≡ v)) }
{
    if t < 2 {
        return false;
    }
    if TOP_TIER + 1 < t {
        return false;
    }
    let skip = field(pool, x, SKIP_FIELD);
    if TOP_TIER < skip {
        return false;
    }
    t - 1 + skip == v
}

// The keys that block x says it has below it; of a shortcut, what its node says. (A shortcut without a node is refused where it is
// looked at itself: here it is only the definition's number.)
fn keys_under(pool: &[u64], n: u64, x: u64) -> u64
    requires { Block pool.now n x }
    ensures { result ≡ keys_under pool.now x }
{
    if field(pool, x, TIER_FIELD) == 1 {
        return 1;
    }
    if field(pool, x, SKIP_FIELD) == 0 {
        return field(pool, x, VALUE_FIELD);
    }
    let r = field(pool, x, SLOT_FIELD);
    if r == 0 {
        return field(pool, 0, VALUE_FIELD);
    }
    if n < r {
        return 0;
    }
    field(pool, r - 1, VALUE_FIELD)
}

// The same by the word of a slot.
fn keys_at(pool: &[u64], n: u64, r: u64) -> u64
    requires { (r ≡ 0 → ⊥) → Block pool.now n (r - 1) }
    ensures { result ≡ keys_at pool.now r }
{
    if r == 0 {
        return 0;
    }
    keys_under(pool, n, r - 1)
}

// Slot j of node m, of tier v + 1, which has more than 16 keys, leads to block x.
fn child_ok(pool: &[u64], n: u64, m: u64, v: u64, j: u64, x: u64) -> bool
    requires block { Block pool.now n m × (x < n) × (slot_at pool.now m j ≡ suc x) × (j < slots) }
    requires m_value { (tier_of pool.now m ≡ suc v) × (v < top_tier) }
    ensures { Decides result (SlotOk pool.now n m j) }
{
    if !in_slot(pool, m, v, j, x) {
        return false;
    }
    let t = field(pool, x, TIER_FIELD);
    if t == 1 {
        return true;
    }
    if !tops_at(pool, x, t, v) {
        return false;
    }
    1 < keys_under(pool, n, x)
}

// Slot j of node m, of tier v + 1, which has more than 16 keys.
fn slot_ok(pool: &[u64], n: u64, m: u64, v: u64, j: u64) -> bool
    requires block { Block pool.now n m × (j < slots) }
    requires m_value { (tier_of pool.now m ≡ suc v) × (v < top_tier) }
    ensures { Decides result (SlotOk pool.now n m j) }
{
    let r = field(pool, m, SLOT_FIELD + j);
    if r == 0 {
        return true;
    }
    if n < r {
        return false;
    }
    child_ok(pool, n, m, v, j, r - 1)
}

// Node m, of tier v + 1, with more than 16 keys.
fn spread_ok(pool: &[u64], n: u64, m: u64, v: u64, count: u64) -> bool
    requires block { Block pool.now n m × Head pool.now n m × (tier_of pool.now m ≡ suc v) }
    requires m_value { (skip_of pool.now m ≡ 0) × (count ≡ count_of pool.now m) × (full < count) }
    ensures { Decides result (SpreadOk pool.now n m) }
{
    let mut total = 0;
    let mut filled = 0;
    for j in 0..SLOTS {
        if !slot_ok(pool, n, m, v, j) {
            return false;
        }
        let r = field(pool, m, SLOT_FIELD + j);
        let k = keys_at(pool, n, r);
        if count - total < k {
            return false;
        }
        total += k;
        filled += u64::from(r != 0);
    }
    if total != count {
        return false;
    }
    1 < filled
}

// Block m, whose first word is t, above 1: a shortcut or a node.
fn used_ok(pool: &[u64], n: u64, m: u64, t: u64) -> bool
    requires { Block pool.now n m × (t ≡ word pool.now m tier_field) × (2 ≤ t) }
    ensures { Decides result (BlockOk pool.now n m) }
{
    if !head_ok(pool, m, t) {
        return false;
    }
    if field(pool, m, SKIP_FIELD) != 0 {
        return cut_ok(pool, n, m);
    }
    let count = field(pool, m, VALUE_FIELD);
    if count <= FULL {
        return packed_ok(pool, n, m, t - 1, count);
    }
    spread_ok(pool, n, m, t - 2, count)
}

// Block m, whose first word is t.
pub fn block_ok(pool: &[u64], n: u64, m: u64, t: u64) -> bool
    requires { Block pool.now n m × (t ≡ word pool.now m tier_field) }
    ensures { Decides result (BlockOk pool.now n m) }
{
    if t == 0 {
        return blank(pool, m, 0, BLOCK_WORDS);
    }
    if t == 1 {
        return leaf_ok(pool, m);
    }
    used_ok(pool, n, m, t)
}

// WHICH BLOCKS ARE NAMED

// Block x is one.
fn mark(seen: &mut [u64], x: u64)
    requires { Seen seen.old × (x < max_blocks) }
    ensures { (f : ℕ → Bool) → SetOf f seen.old → SetOf (put f x true) seen.new }
{
    if (seen[(x / WORD_BITS) as usize] >> (x % WORD_BITS)) % 2 == 1 {
        return;
    }
    set_bit(seen, x, true);
}

// The block that the word r leads to, if it is one of n.
fn mark_ref(seen: &mut [u64], n: u64, r: u64)
    requires { Seen seen.old × (n ≤ max_blocks) }
    ensures { (f : ℕ → Bool) → SetOf f seen.old → SetOf (λ x. either (f x) (names n r x)) seen.new }
{
    if let Some(x) = named(n, r) {
        mark(seen, x);
    }
}

// Those that the slots of block m lead to.
fn mark_slots(pool: &[u64], n: u64, m: u64, seen: &mut [u64])
    requires { Block pool.now n m × Seen seen.old }
    ensures { (f : ℕ → Bool) → SetOf f seen.old →
        SetOf (λ x. either (f x) (slot_names pool.now n m slots x)) seen.new }
{
    for j in 0..SLOTS {
        mark_ref(seen, n, field(pool, m, SLOT_FIELD + j));
    }
}

// The same, where block m has passed and its first word is t: only nodes and shortcuts have slots.
fn note_slots(pool: &[u64], n: u64, m: u64, t: u64, seen: &mut [u64])
    requires { Block pool.now n m × Seen seen.old × (t ≡ word pool.now m tier_field) × BlockOk pool.now n m }
    ensures { (f : ℕ → Bool) → SetOf f seen.old →
        SetOf (λ x. either (f x) (slot_names pool.now n m slots x)) seen.new }
{
    if t < 2 {
        return;
    }
    mark_slots(pool, n, m, seen);
}

// THE POOL

// Each block by itself; which of them slots name, and the map of the free ones.
fn blocks_ok(pool: &[u64], n: u64, seen: &mut [u64], map: &mut [u64]) -> bool
    requires sized { Sized pool.now n }
    requires set_of { SetOf (λ _. false) seen.old × BlankMap map.old }
    ensures decides { Decides result ((m : ℕ) → m < n → BlockOk pool.now n m) }
    ensures set_of_2 { result ≡ true → SetOf (named_to pool.now n n) seen.new × MapOf (free_to pool.now n) map.new }
{
    for m in 0..n {
        let t = field(pool, m, TIER_FIELD);
        if !block_ok(pool, n, m, t) {
            return false;
        }
        note_slots(pool, n, m, t, seen);
        enter(map, m, t);
    }
    true
}

// The root's word leads to nothing, or to what stands over all keys.
fn root_ok(pool: &[u64], n: u64) -> bool
    requires { Sized pool.now n }
    ensures { Decides result ((x : ℕ) → get_or pool.now root_word 0 ≡ suc x → RootOk pool.now n x) }
{
    let r = pool[ROOT_WORD];
    if r == 0 {
        return true;
    }
    if n < r {
        return false;
    }
    let x = r - 1;
    let t = field(pool, x, TIER_FIELD);
    tops_at(pool, x, t, TOP_TIER)
}

// Block m is free, or named.
fn named_ok(pool: &[u64], m: u64, seen: &[u64]) -> bool
    requires { Within pool.now m × Seen seen.now × (m < max_blocks) }
    ensures { (f : ℕ → Bool) → SetOf f seen.now →
        Decides result (1 ≤ word pool.now m tier_field → f m ≡ true) }
{
    if field(pool, m, TIER_FIELD) == 0 {
        return true;
    }
    (seen[(m / WORD_BITS) as usize] >> (m % WORD_BITS)) % 2 == 1
}

// Every block in use is named.
fn all_named(pool: &[u64], n: u64, seen: &[u64]) -> bool
    requires { Sized pool.now n × Seen seen.now }
    ensures { (f : ℕ → Bool) → SetOf f seen.now →
        Decides result ((m : ℕ) → Live pool.now n m → f m ≡ true) }
{
    for m in 0..n {
        if !named_ok(pool, m, seen) {
            return false;
        }
    }
    true
}

// The words are well-formed, by the blocks one by one; seen and map are blank, and with true the map is that of the free blocks.
fn pool_ok(pool: &[u64], n: u64, seen: &mut [u64], map: &mut [u64]) -> bool
    requires sized { Sized pool.now n × (1 ≤ n) }
    requires set_of { SetOf (λ _. false) seen.old × BlankMap map.old }
    ensures decides { Decides result (PoolOk pool.now n) }
    ensures map_of { result ≡ true → MapOf (free_to pool.now n) map.new }
{
    if pool[COUNT_WORD] != n {
        return false;
    }
    if !root_ok(pool, n) {
        return false;
    }
    if !blocks_ok(pool, n, seen, map) {
        return false;
    }
    mark_ref(seen, n, pool[ROOT_WORD]);
    all_named(pool, n, seen)
}

// The number of blocks, if the length is that of a pool.
fn blocks_in(pool: &[u64]) -> Option<u64>
    ensures { Counts pool.now result }
{
    records_in(pool.len() as u64, ANCHOR_WORDS, BLOCK_WORDS, MAX_BLOCKS)
}

// Whether some list of keys prescribes the words, with its parts at some numbers; then the map, of none so far, becomes that of the free
// blocks.
pub fn check_map(pool: &[u64], map: &mut [u64]) -> Result<(), Answer>
    requires { BlankMap map.old }
    ensures value { answer_of result ≡ check_answer pool.now }
    ensures map_of { OnOk result (MapOf (free_to pool.now (block_count pool.now)) map.new) }
{
    let n = blocks_in(pool).ok_or(Answer::PoolLength)?;
    let mut seen = [0u64; SEEN_WORDS];
    if !pool_ok(pool, n, &mut seen, map) {
        return Err(Answer::NotWellFormed);
    }
    Ok(())
}

// The same for who needs no map.
pub fn check(pool: &[u64]) -> Result<(), Answer>
    ensures { answer_of result ≡ check_answer pool.now }
{
    let mut map = [0u64; MAP_WORDS];
    check_map(pool, &mut map)
}

// Blanks whatever stood there: word 0 is the number of blocks, every other word 0. If the length is not that of a pool, nothing is
// written.
pub fn clear(pool: &mut [u64]) -> Result<(), Answer>
    ensures value { answer_of result ≡ clear_answer pool.old }
    ensures pool_after { pool.new ≡ clear_words pool.old }
{
    let n = blocks_in(pool).ok_or(Answer::PoolLength)?;
    let len = pool.len() as u64;
    fill(pool, 0, 0, len);
    pool[COUNT_WORD] = n;
    Ok(())
}
