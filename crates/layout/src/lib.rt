// The pool's words: where each field stands, and what a slot's word says.
//
// pool: the borrowed words; n, m: numbers of nodes; f: a field of a node; o: the offset of a slot in its node;
// tier: the tier of a block (64^tier indices).
#![tactic(auto)]

ghost use Rattle.std.specs.Prelude.{◌≡◌, ◌+◌, ◌*◌, ◌%◌, ◌<◌, ◌≤◌, ◌^◌, eqb, length, get_or, set};
ghost use Rattle.blocks.specs.Blocks.{block, bit, NextBit};
ghost use Rattle.tree.specs.Tree.{slots, tier_order, top_tier};
ghost use Rattle.tree.specs.Slots.{sibling_word, node_word};
ghost use Rattle.layout.specs.Words.{node_words, place, shift_place, owner_place, filled_place, mark_place, slot_place, last_place};
ghost use Rattle.layout.specs.Words.{shift_word, owner_word};
ghost use Rattle.layout.specs.Pool.{slot_of, child_of, sibling_bit, pool_of, Free};
ghost use Rattle.layout.specs.Reading.{Decides, is_node, Internal, Blank, Vacant, Plain, NextFilled};
ghost use Rattle.words.specs.Fill.{filled};
ghost use Rattle.layout.specs.Fill.{cleared};

use words::{fill, next_bit};

// The layout's constants, as specs/Words has them.
pub const ANCHOR_WORDS: u64 = 4;

pub const NODE_WORDS: u64 = 70;

pub const MAX_NODES: u64 = 16384;

pub const COUNT_WORD: usize = 0;

pub const HEAD_WORD: usize = 1;

pub const MARKS_WORD: usize = 2;

pub const SPARE_WORD: usize = 3;

const SHIFT_FIELD: u64 = 0;

const OWNER_FIELD: u64 = 1;

const FILLED_FIELD: u64 = 2;

const MARK_FIELD: u64 = 3;

const SLOT_FIELD: u64 = 6;

pub const SLOT_BITS: u64 = 6;

pub const SLOTS: u64 = 64;

// The tier of the nodes of the greatest shift.
pub const TOP_TIER: u64 = 11;

// A node of tier u has the shift word SLOT_BITS * u - SHIFT_DROP.
pub const SHIFT_DROP: u64 = SLOT_BITS - 1;

// The word of a slot that is reserved.
const RESERVED: u64 = 1030;

const NODE_OFFSET: u64 = 1024;
// Internal words from here on are those of nodes, below it those of siblings.
const NODES_FROM: u64 = 4 * NODE_OFFSET;

// What the word of a slot says: nothing; a reservation; an entry's word; a sibling of the slot at an offset; the node with a number.
#[derive(Clone, Copy)]
pub enum Slot {
    Empty,
    Reserved,
    Held,
    Sibling(u64),
    Child(u64),
}

// The block of a tier that holds index i.
pub fn block_of(tier: u64, i: u64) -> u64
    requires { tier < top_tier }
    ensures { result ≡ block (tier_order tier) i }
{
    i >> (SLOT_BITS * tier)
}

// THE WORDS OF A NODE. That their fields are these is known here alone; `now pool.entry` is `ws` in what follows,
// and what is read is `(pool_of ws).shift n` and so on.

// Where field f of node n stands.
fn place(n: u64, f: u64) -> u64
    requires { place n f < 2 ^ 64 }
    ensures { result ≡ place n f }
{
    ANCHOR_WORDS + NODE_WORDS * n + f
}

pub fn shift_of(pool: &[u64], n: u64) -> u64
    requires { shift_place n < length pool.now }
    ensures { result ≡ get_or pool.now (shift_place n) 0 }
{
    pool[place(n, SHIFT_FIELD) as usize]
}

pub fn owner_of(pool: &[u64], n: u64) -> u64
    requires { owner_place n < length pool.now }
    ensures { result ≡ get_or pool.now (owner_place n) 0 }
{
    pool[place(n, OWNER_FIELD) as usize]
}

// How many slots of node n are not 0.
pub fn filled_of(pool: &[u64], n: u64) -> u64
    requires { filled_place n < length pool.now }
    ensures { result ≡ get_or pool.now (filled_place n) 0 }
{
    pool[place(n, FILLED_FIELD) as usize]
}

// The word of mark m of node n.
pub fn mark_word(pool: &[u64], n: u64, m: u64) -> u64
    requires { mark_place n m < length pool.now }
    ensures { result ≡ get_or pool.now (mark_place n m) 0 }
{
    pool[place(n, MARK_FIELD + m) as usize]
}

// Mark m of slot o of node n.
pub fn mark_bit(pool: &[u64], n: u64, m: u64, o: u64) -> u64
    requires m_in_bounds { mark_place n m < length pool.now }
    requires o_lt_slots { o < slots }
    ensures { result ≡ bit o (get_or pool.now (mark_place n m) 0) }
{
    (mark_word(pool, n, m) >> o) % 2
}

pub fn slot_word(pool: &[u64], n: u64, o: u64) -> u64
    requires { slot_place n o < length pool.now }
    ensures { result ≡ get_or pool.now (slot_place n o) 0 }
{
    pool[place(n, SLOT_FIELD + o) as usize]
}

pub fn put_shift(pool: &mut [u64], n: u64, x: u64)
    requires { shift_place n < length pool.old }
    ensures { pool.new ≡ set pool.old (shift_place n) x }
{
    pool[place(n, SHIFT_FIELD) as usize] = x;
}

pub fn put_owner(pool: &mut [u64], n: u64, x: u64)
    requires { owner_place n < length pool.old }
    ensures { pool.new ≡ set pool.old (owner_place n) x }
{
    pool[place(n, OWNER_FIELD) as usize] = x;
}

pub fn put_filled(pool: &mut [u64], n: u64, x: u64)
    requires { filled_place n < length pool.old }
    ensures { pool.new ≡ set pool.old (filled_place n) x }
{
    pool[place(n, FILLED_FIELD) as usize] = x;
}

pub fn put_mark_word(pool: &mut [u64], n: u64, m: u64, x: u64)
    requires { mark_place n m < length pool.old }
    ensures { pool.new ≡ set pool.old (mark_place n m) x }
{
    pool[place(n, MARK_FIELD + m) as usize] = x;
}

pub fn put_slot(pool: &mut [u64], n: u64, o: u64, x: u64)
    requires { slot_place n o < length pool.old }
    ensures { pool.new ≡ set pool.old (slot_place n o) x }
{
    pool[place(n, SLOT_FIELD + o) as usize] = x;
}

// x in the slots of node n from o on, c in all.
pub fn fill_slots(pool: &mut [u64], n: u64, o: u64, x: u64, c: u64)
    requires { slot_place n o + c ≤ length pool.old }
    ensures { pool.new ≡ filled pool.old (slot_place n o) x c }
{
    fill(pool, place(n, SLOT_FIELD + o), x, c);
}

// All words of node n become 0: it is free (R30).
pub fn clear_node(pool: &mut [u64], n: u64)
    requires { last_place n < length pool.old }
    ensures { pool.new ≡ cleared pool.old n }
{
    fill(pool, place(n, 0), 0, NODE_WORDS);
}

// WHAT WORDS SAY

// The word of a sibling of slot o.
pub fn sibling_word(o: u64) -> u64
    requires { o < slots }
    ensures { result ≡ sibling_word o }
{
    4 * o + 2
}

// The word of a slot that leads to node n.
pub fn node_word(n: u64) -> u64
    requires { node_word n < 2 ^ 64 }
    ensures { result ≡ node_word n }
{
    4 * (NODE_OFFSET + n) + 2
}

// The first word of a node of tier u.
pub fn shift_word(u: u64) -> u64
    requires le_u { 1 ≤ u }
    requires u_le_top_tier { u ≤ top_tier }
    ensures { result ≡ shift_word u }
{
    SLOT_BITS * u - SHIFT_DROP
}

// The owner word of a node in slot o of node n.
pub fn owner_word(n: u64, o: u64) -> u64
    requires { owner_word n o < 2 ^ 64 }
    ensures { result ≡ owner_word n o }
{
    1 + SLOTS * n + o
}

pub fn read_slot(w: u64) -> Slot
    ensures { result ≡ slot_of w }
{
    if w % 4 == 2 {
        if NODES_FROM <= w {
            return Slot::Child(w / 4 - NODE_OFFSET);
        }
        if w == RESERVED {
            return Slot::Reserved;
        }
        return Slot::Sibling(w / 4);
    }
    if w == 0 {
        return Slot::Empty;
    }
    Slot::Held
}

// Whether the word of a slot leads to a node.
pub fn is_node(w: u64) -> bool
    ensures { result ≡ is_node w }
{
    matches!(read_slot(w), Slot::Child(_))
}

// The number of the node that the word of a slot leads to; 0 if it leads to none, as `child_of` has it: whoever asks knows
// by `is_node` or a count whether it does.
pub fn node_number(w: u64) -> u64
    ensures { result ≡ child_of (slot_of w) }
{
    match read_slot(w) {
        Slot::Child(n) => n,
        _ => 0,
    }
}

// 1 for the word of a sibling slot, else 0; such a word is below that of a reservation.
pub fn sibling_bit(w: u64) -> u64
    ensures { result ≡ sibling_bit w }
{
    if w % 4 != 2 {
        return 0;
    }
    if w < RESERVED { 1 } else { 0 }
}

// Odd for the word of a sibling slot, of a reservation or of a node.
pub fn internal_bit(w: u64) -> u64
    ensures { Decides (eqb (result % 2) 0) (Internal w → ⊥) }
{
    (w >> 1) & !w
}

// The least slot from o on whose bit is set in a mark word, or any word with a bit for each slot; 64 if there is none,
// as `next_bit` has it.
pub fn next_marked(w: u64, o: u64) -> u64
    requires { o < slots }
    ensures { NextBit slots w o result }
{
    next_bit(w, o)
}

// THE SLOTS OF A NODE

// The least slot of node n from o on, below end, that is not empty; end if there is none: a walk goes on from there either way.
pub fn next_filled(pool: &[u64], n: u64, o: u64, end: u64) -> u64
    requires n_in_bounds { last_place n < length pool.now }
    requires o_le_end { (o ≤ end) × (end ≤ slots) }
    ensures { NextFilled pool.now n o end result }
{
    for j in o..end {
        if slot_word(pool, n, j) != 0 {
            return j;
        }
    }
    end
}

// Whether the slots of node n from o on, below end, are empty; it stops at the first that is not.
pub fn vacant(pool: &[u64], n: u64, o: u64, end: u64) -> bool
    requires n_in_bounds { last_place n < length pool.now }
    requires o_le_end { (o ≤ end) × (end ≤ slots) }
    ensures { Decides result (Vacant pool.now n o end) }
{
    next_filled(pool, n, o, end) == end
}

// PASSES: every word is looked at, so that the compiler takes several at once

// Whether the words of node n from one field up to another are 0.
fn blank(pool: &[u64], n: u64, from: u64, end: u64) -> bool
    requires n_in_bounds { last_place n < length pool.now }
    requires from_le_end { (from ≤ end) × (end ≤ node_words) }
    ensures { Decides result (Blank pool.now n from end) }
{
    let mut any: u64 = 0;
    for f in from..end {
        any |= pool[place(n, f) as usize];
    }
    any == 0
}

// Whether every word of node n is 0.
pub fn blank_node(pool: &[u64], n: u64) -> bool
    requires { last_place n < length pool.now }
    ensures { Decides result (Free (pool_of pool.now) n) }
{
    blank(pool, n, 0, NODE_WORDS)
}

// Whether the slots of node n from one up to another are empty.
pub fn blank_slots(pool: &[u64], n: u64, from: u64, end: u64) -> bool
    requires n_in_bounds { last_place n < length pool.now }
    requires from_le_end { (from ≤ end) × (end ≤ slots) }
    ensures { Decides result (Vacant pool.now n from end) }
{
    blank(pool, n, SLOT_FIELD + from, SLOT_FIELD + end)
}

// Whether no slot of node n from one up to another has an internal word.
pub fn plain_slots(pool: &[u64], n: u64, from: u64, end: u64) -> bool
    requires n_in_bounds { last_place n < length pool.now }
    requires from_le_end { (from ≤ end) × (end ≤ slots) }
    ensures { Decides result (Plain pool.now n from end) }
{
    let mut inner: u64 = 0;
    for o in from..end {
        inner |= internal_bit(slot_word(pool, n, o));
    }
    inner % 2 == 0
}
