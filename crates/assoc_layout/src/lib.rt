// The words of a pool of names, by name.
//
// pool: the borrowed words; m, x, y: numbers of blocks; f: a field of one; v: a tier (16^v numbers).
#![tactic(auto)]

ghost use Rattle.std.specs.Prelude.{◌≡◌, ◌%◌, ◌<◌, ◌≤◌, length, get_or};
ghost use Rattle.blocks.specs.Deciding.{Decides};
ghost use Rattle.assoc_tree.specs.Parts.{block_of, top_tier};
ghost use Rattle.assoc_layout.specs.Words.{place, block_words};
ghost use Rattle.assoc_layout.specs.Decode.{base_at};
ghost use Rattle.assoc_layout.specs.Reading.{Within, Blank, First, Together};

use assoc_keys::{agree, less, nibble};
use words::pow2;

pub const ANCHOR_WORDS: u64 = 2;

pub const BLOCK_WORDS: u64 = 24;

pub const MAX_BLOCKS: u64 = 16384;

pub const ROOT_WORD: usize = 1;

// Fields of a block.
pub const TIER_FIELD: u64 = 0;

pub const SKIP_FIELD: u64 = 1;

pub const VALUE_FIELD: u64 = 2;

pub const BASE_FIELD: u64 = 3;

pub const SLOT_FIELD: u64 = 8;

// The slots of a node; at most so many keys stand in one as leaves.
pub const SLOTS: u64 = 16;

pub const FULL: u64 = 16;

pub const TOP_TIER: u64 = 66;

// A word has the nibbles of so many tiers, of four bits each.
const WORD_TIERS: u64 = 16;

const SLOT_BITS: u64 = 4;

// Field f of block m.
pub fn field(pool: &[u64], m: u64, f: u64) -> u64
    requires { place m f < length pool.now }
    ensures { result ≡ get_or pool.now (place m f) 0 }
{
    pool[(ANCHOR_WORDS + BLOCK_WORDS * m + f) as usize]
}

// Whether the fields of block m from one up to another are 0; every word is looked at, so that the compiler takes several at once.
pub fn blank(pool: &[u64], m: u64, from: u64, end: u64) -> bool
    requires within { Within pool.now m }
    requires from_le_end { (from ≤ end) × (end ≤ block_words) }
    ensures { Decides result (Blank pool.now m from end) }
{
    let mut any: u64 = 0;
    for f in from..end {
        any |= pool[(ANCHOR_WORDS + BLOCK_WORDS * m + f) as usize];
    }
    any == 0
}

// BASES

// The bases of blocks x and y lie in one block of tier v.
pub fn together(pool: &[u64], x: u64, y: u64, v: u64) -> bool
    requires { Within pool.now x × Within pool.now y × (v ≤ top_tier) }
    ensures { Decides result (Together pool.now x y v) }
{
    let i = (ANCHOR_WORDS + BLOCK_WORDS * x + BASE_FIELD) as usize;
    let j = (ANCHOR_WORDS + BLOCK_WORDS * y + BASE_FIELD) as usize;
    agree(pool, i, pool, j, v)
}

// The base of block x is below that of block y.
pub fn below(pool: &[u64], x: u64, y: u64) -> bool
    requires { Within pool.now x × Within pool.now y }
    ensures { Decides result (base_at pool.now x < base_at pool.now y) }
{
    let i = (ANCHOR_WORDS + BLOCK_WORDS * x + BASE_FIELD) as usize;
    let j = (ANCHOR_WORDS + BLOCK_WORDS * y + BASE_FIELD) as usize;
    less(pool, i, pool, j)
}

// The nibble of the base of block x that picks the slot of tier v.
pub fn digit(pool: &[u64], x: u64, v: u64) -> u64
    requires { Within pool.now x × (v < top_tier) }
    ensures { result ≡ block_of v (base_at pool.now x) % 16 }
{
    nibble(
        pool,
        (ANCHOR_WORDS + BLOCK_WORDS * x + BASE_FIELD) as usize,
        v,
    )
}

// The base of block m is the first number of its block of tier v.
pub fn is_first(pool: &[u64], m: u64, v: u64) -> bool
    requires { Within pool.now m × (v ≤ top_tier) }
    ensures { Decides result (First pool.now m v) }
{
    let q = v / WORD_TIERS;
    if !blank(pool, m, BASE_FIELD, BASE_FIELD + q) {
        return false;
    }
    let d = pow2(SLOT_BITS * (v % WORD_TIERS));
    field(pool, m, BASE_FIELD + q) % d == 0
}
