// The words that a changing command leaves in the nodes that it touches, worked out beside the pool: each such node has a
// row in words laid out as those of a small pool. For all commands at once: one aligned range becomes one entry, or
// nothing (proofs/CommandLaws).
//
// pool: the borrowed words; rows: the rows; r: the number of a row; n: the number of a node; o, c: the first slot of a run
// and how many; x: a mark; m: marks.
#![tactic(auto)]

ghost use Rattle.std.specs.Prelude.{ℕ, ◌+◌, ◌-◌, ◌/◌, ◌%◌, ◌<◌, ◌≤◌, List, length, ◌≡◌, Bool, true, false, not, eqb, get_or, set};
ghost use Rattle.std.proofs.Math.Option.{Option};
ghost use Rattle.blocks.specs.Blocks.{block};
ghost use Rattle.model.specs.Model.{max_order, aligned};
ghost use Rattle.model.specs.declared.Entry.{Entry};
ghost use Rattle.tree.specs.Tree.{slot_bits, top_tier, tier_order};
ghost use Rattle.tree.specs.Slots.{Numbering, node_word};
ghost use Rattle.layout.specs.Words.{max_nodes, filled_place, mark_place, owner_word};
ghost use Rattle.layout.specs.WellFormed.{WellFormed};
ghost use Rattle.script_rows.specs.Becomes.{Base, Shown, Edits, Turns, Begun, Roomy, Ready, Copied};
ghost use Rattle.blocks.specs.Choice.{pick, both};
ghost use Rattle.blocks.specs.Blocks.{bit, set_bit, bits_to};
ghost use Rattle.model.specs.Model.{mark_count};
ghost use Rattle.tree.specs.Tree.{slots};
ghost use Rattle.tree.specs.Slots.{sibling_word};
ghost use Rattle.layout.specs.Words.{last_place, slot_place, filled_of};
ghost use Rattle.words.specs.Fill.{filled};
ghost use Rattle.script_rows.specs.Row.{in_run, OtherRows, Copies, BitsPut, RunPut, Finishes, marks_up, AnchorPut};

use layout::{
    ANCHOR_WORDS, COUNT_WORD, HEAD_WORD, MARKS_WORD, NODE_WORDS, SLOT_BITS, SLOTS, SPARE_WORD,
    TOP_TIER, block_of, fill_slots, filled_of, mark_word, node_word, owner_word, put_filled,
    put_mark_word, put_owner, put_shift, put_slot, shift_word, sibling_word, slot_word,
};
use words::with_bit;
use write::width_of;

// Mark x among marks m.
fn has_bit(m: u64, x: u64) -> bool
    requires { x < mark_count }
    ensures { result ≡ eqb (bit x m) 1 }
{
    let y = (m >> x) % 2;
    y == 1
}

// w with the bits from o on, c of them, cleared.
fn clear_bits(w: u64, o: u64, c: u64) -> u64
    requires { o + c ≤ slots }
    ensures { (f : ℕ → Bool) → w ≡ bits_to f slots → result ≡ bits_to (λ j. pick (in_run o c j) false (f j)) slots }
{
    let mut y = w;
    for t in 0..c {
        y = with_bit(y, o + t, false);
    }
    y
}

// In mark word x of row r the bits from o on, c of them, give way to the one at o, set or not.
fn put_bits(rows: &mut [u64], r: u64, x: u64, o: u64, c: u64, on: bool)
    requires r_bound { last_place r < length rows.old }
    requires x_lt_mark_count { (x < mark_count) × (o + c ≤ slots) × (1 ≤ c) }
    ensures { BitsPut rows.old rows.new r x o c on }
{
    let w = mark_word(rows, r, x);
    let y = with_bit(clear_bits(w, o, c), o, on);
    put_mark_word(rows, r, x, y);
}

// The slots of row r from o on, c of them, get an entry's word and its siblings; or become empty, if the word is 0.
fn put_run(rows: &mut [u64], r: u64, o: u64, c: u64, word: u64)
    requires r_bound { last_place r < length rows.old }
    requires c_bound { (o + c ≤ slots) × (1 ≤ c) }
    ensures { rows.new ≡ pick (eqb word 0) (filled rows.old (slot_place r o) 0 c)
        (set (filled rows.old (slot_place r (o + 1)) (sibling_word o) (c - 1)) (slot_place r o) word) }
{
    if word == 0 {
        fill_slots(rows, r, o, 0, c);
        return;
    }
    fill_slots(rows, r, o + 1, sibling_word(o), c - 1);
    put_slot(rows, r, o, word);
}

// The same, with the marks.
pub fn edit_run(rows: &mut [u64], r: u64, o: u64, c: u64, word: u64, m: u64)
    requires r_bound { last_place r < length rows.old }
    requires c_bound { (o + c ≤ slots) × (1 ≤ c) }
    ensures { RunPut rows.old rows.new r o c word m }
{
    put_run(rows, r, o, c, word);
    put_bits(rows, r, 0, o, c, has_bit(m, 0));
    put_bits(rows, r, 1, o, c, has_bit(m, 1));
    put_bits(rows, r, 2, o, c, has_bit(m, 2));
}

// Row r becomes the words of node n. Where this is inlined LLVM makes a call of memcpy of the loop, as `copy_from_slice` would be, and the
// library is to need memset alone.
#[inline(never)]
pub fn copy_node(pool: &[u64], n: u64, rows: &mut [u64], r: u64)
    requires n_in_bounds { last_place n < length pool.now }
    requires r_bound { last_place r < length rows.old }
    ensures { Copies pool.now n rows.old rows.new r }
{
    for f in 0..NODE_WORDS {
        let w = pool[(ANCHOR_WORDS + NODE_WORDS * n + f) as usize];
        rows[(ANCHOR_WORDS + NODE_WORDS * r + f) as usize] = w;
    }
}

// How many slots of row r are filled.
fn count_row(rows: &[u64], r: u64) -> u64
    requires { last_place r < length rows.now }
    ensures { result ≡ filled_of (λ j. get_or rows.now (slot_place r j) 0) }
{
    let mut q = 0;
    for j in 0..SLOTS {
        q += u64::from(slot_word(rows, r, j) != 0);
    }
    q
}

// Row r gets its shift, its owner and its filled count.
pub fn finish_row(rows: &mut [u64], r: u64, shift: u64, owner: u64)
    requires { last_place r < length rows.old }
    ensures { Finishes rows.old rows.new r shift owner }
{
    put_shift(rows, r, shift);
    put_owner(rows, r, owner);
    let q = count_row(rows, r);
    put_filled(rows, r, q);
}

// THE ROWS OF THE PATH: row u is that of the path's node of tier u

// The tiers from 0 to the top one: as many numbers as a path has.
pub const TIERS: usize = (TOP_TIER + 1) as usize;

// What becomes of an aligned range: it gets an entry's word and marks, or nothing, if the word is 0, which is how the layout of pools
// writes an empty slot: an Option would become that word at once, in `put_run`, as what `child_word` gives does.
#[derive(Clone, Copy)]
pub struct Range {
    pub base: u64,
    pub order: u64,
    pub word: u64,
    pub marks: u64,
}

// The owner of the path's node of tier u.
fn owner_at(path: &[u64], i: u64, u: u64, top: u64) -> u64
    requires u_le_top { (u ≤ top) × (top ≤ top_tier) × (top_tier < length path.now) }
    requires u_bound { u < top → get_or path.now (u + 1) 0 < max_nodes }
    ensures { result ≡ pick (eqb u top) 0
        (owner_word (get_or path.now (u + 1) 0) (block (tier_order u) i % slots)) }
{
    if u == top {
        return 0;
    }
    let n = path[(u + 1) as usize];
    owner_word(n, block_of(u, i) % SLOTS)
}

// The word of the slot that leads to node n, whose row is u: 0 if no slot of it is filled.
fn child_word(rows: &[u64], u: u64, n: u64) -> u64
    requires u_in_bounds { last_place u < length rows.now }
    requires n_lt_max_nodes { n < max_nodes }
    ensures { result ≡ pick (not (eqb (get_or rows.now (filled_place u) 0) 0)) (node_word n) 0 }
{
    if filled_of(rows, u) == 0 {
        return 0;
    }
    node_word(n)
}

// The marks of that slot: those that any slot of row u has.
fn marks_up(rows: &[u64], u: u64) -> u64
    requires { last_place u < length rows.now }
    ensures by_index { (x : ℕ) → x < mark_count →
        eqb (bit x result) 1 ≡ not (eqb (get_or rows.now (mark_place u x) 0) 0) }
    ensures value { result ≡ marks_up rows.now u }
{
    let a = mark_word(rows, u, 0);
    let b = mark_word(rows, u, 1);
    let c = mark_word(rows, u, 2);
    u64::from(a != 0) + 2 * u64::from(b != 0) + 4 * u64::from(c != 0)
}

// The rows of the path begin as copies of its nodes.
pub fn begin_rows(pool: &[u64], rows: &mut [u64], path: &[u64], v: u64, top: u64)
    requires { Roomy pool.now rows.old path.now v top }
    ensures { Copied pool.now path.now v rows.new top }
{
    for u in v..top {
        let n = path[(u + 1) as usize];
        copy_node(pool, n, rows, u + 1);
    }
}

// The row of the lowest node of the path, which holds the range.
fn low_row(rows: &mut [u64], path: &[u64], at: Range, top: u64)
    requires ready { Ready rows.old path.now (at.order / slot_bits) top }
    requires order_le_max_order { (at.order ≤ max_order) × (aligned at.order at.base ≡ true) }
    ensures other_rows { OtherRows rows.old rows.new (at.order / slot_bits + 1) }
    ensures shown { (l : List Entry) (o : Option Entry) (l' : List Entry) (μ : Numbering) →
        Turns l at.base at.order at.word at.marks path.now top o l' μ →
        Base at.base at.order l' μ rows.old (at.order / slot_bits + 1) (at.order / slot_bits) →
        Shown at.base at.order l' μ rows.new top (at.order / slot_bits + 1) }
{
    let v = at.order / SLOT_BITS;
    let i = at.base;
    let o = block_of(v, i) % SLOTS;
    let c = width_of(at.order);
    let w = owner_at(path, i, v + 1, top);
    edit_run(rows, v + 1, o, c, at.word, at.marks);
    finish_row(rows, v + 1, shift_word(v + 1), w);
}

// The row of the node of tier u + 1, from the row of the one below.
fn up_row(rows: &mut [u64], path: &[u64], i: u64, u: u64, top: u64)
    requires ready { Ready rows.old path.now (u - 1) top }
    requires le_u { (1 ≤ u) × (u < top) }
    ensures other_rows { OtherRows rows.old rows.new (u + 1) }
    ensures shown { (l : List Entry) (k w m : ℕ) (o : Option Entry) (l' : List Entry) (μ : Numbering) →
        Turns l i k w m path.now top o l' μ → k / slot_bits < u →
        Base i k l' μ rows.old (u + 1) u → Shown i k l' μ rows.old top u →
        Shown i k l' μ rows.new top (u + 1) }
{
    let d = child_word(rows, u, path[u as usize]);
    let e = marks_up(rows, u);
    let w = owner_at(path, i, u + 1, top);
    edit_run(rows, u + 1, block_of(u, i) % SLOTS, 1, d, e);
    finish_row(rows, u + 1, shift_word(u + 1), w);
}

// All rows of the path, from the lowest node to the head, each begun right apart from the range.
pub fn put_rows(rows: &mut [u64], path: &[u64], at: Range, top: u64)
    requires ready { Ready rows.old path.now (at.order / slot_bits) top }
    requires order_le_max_order { (at.order ≤ max_order) × (aligned at.order at.base ≡ true) }
    ensures { (l : List Entry) (o : Option Entry) (l' : List Entry) (μ : Numbering) →
        Turns l at.base at.order at.word at.marks path.now top o l' μ →
        Begun at.base at.order l' μ rows.old top (at.order / slot_bits) → (u : ℕ) →
        at.order / slot_bits < u → u ≤ top → Shown at.base at.order l' μ rows.new top u }
{
    low_row(rows, path, at, top);
    let i = at.base;
    for u in at.order / SLOT_BITS + 1..top {
        up_row(rows, path, i, u, top);
    }
}

// All rows of the path of a command under the old head.
pub fn path_rows(pool: &[u64], rows: &mut [u64], path: &[u64], at: Range, top: u64)
    requires roomy { Roomy pool.now rows.old path.now (at.order / slot_bits) top }
    requires order_le_max_order { (at.order ≤ max_order) × (aligned at.order at.base ≡ true) }
    ensures { (s : WellFormed pool.now) (o : Option Entry) (l' : List Entry) (μ : Numbering) →
        Edits s at.base at.order at.word at.marks path.now top o l' μ → (u : ℕ) →
        at.order / slot_bits < u → u ≤ top → Shown at.base at.order l' μ rows.new top u }
{
    let v = at.order / SLOT_BITS;
    begin_rows(pool, rows, path, v, top);
    put_rows(rows, path, at, top);
}

// The anchor after a command: the head's word is w, the marks are those of the head's row.
pub fn anchor_row(pool: &[u64], rows: &mut [u64], w: u64, top: u64)
    requires { (4 ≤ length pool.now) × (last_place top < length rows.old) }
    ensures { AnchorPut pool.now rows.old rows.new w top }
{
    let m = marks_up(rows, top);
    rows[COUNT_WORD] = pool[COUNT_WORD];
    rows[HEAD_WORD] = w;
    rows[MARKS_WORD] = m;
    rows[SPARE_WORD] = 0;
}
