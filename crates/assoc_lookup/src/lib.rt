// Looking a key up in a pool of names.
//
// pool: the borrowed words, well-formed; key: the five words of a key's number, lowest first; m, x: numbers of blocks;
// v: the tier of a block's upper end; r: a slot's word, 0 or 1 + the number of a block.
#![tactic(auto)]

ghost use Rattle.std.specs.Prelude.{◌≡◌, ℕ, ◌+◌, ◌-◌, ◌*◌, ◌^◌, ◌<◌, ◌≤◌, get_or, length};
ghost use Rattle.words.specs.Bytes.{number_at};
ghost use Rattle.assoc_tree.specs.Keys.{find, max_key, key_number};
ghost use Rattle.assoc_layout.specs.Words.{place};
ghost use Rattle.assoc_layout.specs.WellFormed.{WellFormed};
ghost use Rattle.assoc_keys.specs.Number.{key_at, key_words};
ghost use Rattle.assoc_lookup.specs.Lookup.{single_step, cut_step, child_step, packed_step, step_of, HasBlock, LeavesIn, ReadyAt, looked_for};

use assoc_keys::{agree, nibble};
use assoc_layout::{
    ANCHOR_WORDS, BASE_FIELD, BLOCK_WORDS, FULL, ROOT_WORD, SKIP_FIELD, SLOT_FIELD, TIER_FIELD,
    TOP_TIER, VALUE_FIELD, field,
};

// What one step of the way down leads to, where it leads anywhere: the key's leaf; or a block, and the tier of its upper end.
#[derive(Clone, Copy)]
pub enum Step {
    Leaf(u64),
    Into(u64, u64),
}

// At the leaf x.
fn single(pool: &[u64], key: &[u64], x: u64) -> Option<Step>
    requires { HasBlock pool.now key.now x }
    ensures { result ≡ single_step pool.now key.now x }
{
    let at = (ANCHOR_WORDS + BLOCK_WORDS * x + BASE_FIELD) as usize;
    if agree(pool, at, key, 0, 0) {
        return Some(Step::Leaf(x));
    }
    None
}

// At the shortcut m, whose lower end is of tier u.
fn cut(pool: &[u64], key: &[u64], m: u64, u: u64) -> Option<Step>
    requires has_block { HasBlock pool.now key.now m }
    requires u_bound { u ≤ 66 }
    requires bound { 1 ≤ get_or pool.now (place m 8) 0 }
    ensures { result ≡ cut_step pool.now key.now m u }
{
    let at = (ANCHOR_WORDS + BLOCK_WORDS * m + BASE_FIELD) as usize;
    if agree(pool, at, key, 0, u) {
        return Some(Step::Into(field(pool, m, SLOT_FIELD) - 1, u));
    }
    None
}

// By the word r of a slot of tier w.
fn child(pool: &[u64], key: &[u64], r: u64, w: u64) -> Option<Step>
    requires { 1 ≤ r → HasBlock pool.now key.now (r - 1) }
    ensures { result ≡ child_step pool.now key.now r w }
{
    let x = r.checked_sub(1)?;
    if field(pool, x, TIER_FIELD) == 1 {
        return single(pool, key, x);
    }
    Some(Step::Into(x, w))
}

// Among the leaves in the first slots of node m.
fn packed(pool: &[u64], key: &[u64], m: u64, count: u64) -> Option<Step>
    requires has_block { HasBlock pool.now key.now m }
    requires leaves_in { LeavesIn pool.now key.now m count }
    ensures { result ≡ packed_step pool.now key.now m 0 count }
{
    for j in 0..count {
        let x = field(pool, m, SLOT_FIELD + j) - 1;
        let at = (ANCHOR_WORDS + BLOCK_WORDS * x + BASE_FIELD) as usize;
        if agree(pool, at, key, 0, 0) {
            return Some(Step::Leaf(x));
        }
    }
    None
}

// At block m, whose upper end is of tier v.
fn step_at(pool: &[u64], key: &[u64], m: u64, v: u64) -> Option<Step>
    requires { ReadyAt pool.now key.now m v }
    ensures { result ≡ step_of pool.now key.now m v }
{
    let skip = field(pool, m, SKIP_FIELD);
    if skip != 0 {
        return cut(pool, key, m, v - skip);
    }
    let count = field(pool, m, VALUE_FIELD);
    if count <= FULL {
        return packed(pool, key, m, count);
    }
    let w = v - 1;
    let j = nibble(key, 0, w);
    child(pool, key, field(pool, m, SLOT_FIELD + j), w)
}

// The object of a key.
pub fn look(pool: &[u64], key: &[u64]) -> Option<u64>
    requires well_formed { WellFormed pool.now }
    requires key_len { length key.now ≡ key_words }
    requires key_bound { key_at key.now 0 < 2 ^ 264 }
    ensures { (s : WellFormed pool.now) →
        result ≡ looked_for (find (key_at key.now 0) s.list) }
{
    let mut m = pool[ROOT_WORD].checked_sub(1)?;
    let mut v = TOP_TIER;
    while 0 < v {
        match step_at(pool, key, m, v)? {
            Step::Leaf(x) => {
                return Some(field(pool, x, VALUE_FIELD));
            }
            Step::Into(x, w) => {
                m = x;
                v = w;
            }
        }
    }
    None
}

// A KEY'S BYTES

// Byte i of a key, 0 after its end.
fn byte_of(key: &[u8], i: usize) -> u64
    ensures { (result ≡ get_or key.now i 0) × (result < 256) }
{
    match key.get(i) {
        Some(x) => u64::from(*x),
        None => 0,
    }
}

// Eight bytes of a key from a place on, the highest first. (The key may end among them, where words::number8 and `from_be_bytes` want all
// eight; a copy into a longer array would be a call of memcpy.)
fn word_of(key: &[u8], at: usize) -> u64
    requires { at ≤ 24 }
    ensures { result ≡ number_at key.now at 8 }
{
    let a = byte_of(key, at);
    let b = byte_of(key, at + 1);
    let c = byte_of(key, at + 2);
    let d = byte_of(key, at + 3);
    let e = byte_of(key, at + 4);
    let f = byte_of(key, at + 5);
    let g = byte_of(key, at + 6);
    let h = byte_of(key, at + 7);
    ((((((a * 256 + b) * 256 + c) * 256 + d) * 256 + e) * 256 + f) * 256 + g) * 256 + h
}

// The object of a key of 1 to 32 bytes.
pub fn look_bytes(pool: &[u64], key: &[u8]) -> Option<u64>
    requires { WellFormed pool.now × (length key.now ≤ max_key) }
    ensures { (s : WellFormed pool.now) → result ≡ looked_for (find (key_number key.now) s.list) }
{
    let a = word_of(key, 24);
    let b = word_of(key, 16);
    let c = word_of(key, 8);
    let d = word_of(key, 0);
    let n = key.len() as u64;
    let words = [a, b, c, d, n];
    look(pool, &words)
}
