// The words that an erase leaves, in rows: those of the path's nodes, of the nodes that go, and of the head, which may
// come down. Row u is that of the path's node of tier u, row CHAIN + u that of the node of block 0 of tier u where that
// is another one.
//
// pool: the borrowed words; rows, nums: the rows and the numbers of their nodes (crate script_table); i, order: the first
// index of the entry and its order; v: the tier of its slots; top: the tier of the head; u: a tier; r: a row.
#![tactic(auto)]

ghost use Rattle.std.specs.Prelude.{ℕ, ◌+◌, ◌/◌, ◌<◌, ◌≤◌, ◌≡◌, true, List, eqb, get_or, length};
ghost use Rattle.std.proofs.Math.Option.{none};
ghost use Rattle.blocks.specs.Choice.{pick};
ghost use Rattle.blocks.specs.Lists.{any};
ghost use Rattle.model.specs.declared.Entry.{Entry};
ghost use Rattle.model.specs.Model.{Valid, max_order, aligned, within};
ghost use Rattle.tree.specs.Tree.{slot_bits, top_tier, tier_order};
ghost use Rattle.layout.specs.Words.{anchor_words, pool_words, last_place, filled_place};
ghost use Rattle.layout.specs.Fill.{cleared};
ghost use Rattle.layout.specs.Places.{new_places, render};
ghost use Rattle.layout.specs.WellFormed.{WellFormed};
ghost use Rattle.script_rows.specs.Becomes.{Becomes};
ghost use Rattle.script_same.specs.Same.{PathThere};
ghost use Rattle.script_table.specs.Table.{row_count, Tables};
ghost use Rattle.script_erase.specs.Erased.{Standing, Erases, HeadRow, Swept, Drops, Taken, Lowered, Lowering, Landed, SweptPath};

use layout::{
    COUNT_WORD, HEAD_WORD, MARKS_WORD, SLOT_BITS, SPARE_WORD, block_of, clear_node, filled_of,
    is_node, node_number, put_owner, slot_word,
};
use plan::walk_path;
use script_rows::{Range, anchor_row, copy_node, path_rows};
use script_same::number_rows;
use script_table::ROWS;
use words::fill;

const CHAIN: u64 = 12;

// NODES THAT GO

// Row u becomes 0, if none of its slots is filled.
fn sweep_row(rows: &mut [u64], u: u64)
    requires { last_place u < length rows.old }
    ensures { rows.new ≡ pick (eqb (get_or rows.old (filled_place u) 0) 0)
        (cleared rows.old u) rows.old }
{
    if filled_of(rows, u) == 0 {
        clear_node(rows, u);
    }
}

// So all rows of the path.
fn sweep(rows: &mut [u64], v: u64, top: u64)
    requires { (v < top) × (top ≤ top_tier) × (pool_words row_count ≤ length rows.old) }
    ensures { Swept rows.old rows.new v (top + 1) }
{
    for u in v + 1..top + 1 {
        sweep_row(rows, u);
    }
}

// THE HEAD

// The head of row r, of tier u, goes: slot 0 is all it has, and that can be a head, a node, or at shift 0 an entry.
fn drops(rows: &[u64], r: u64, u: u64) -> bool
    requires { last_place r < length rows.now }
    ensures { Drops rows.now r u result }
{
    if filled_of(rows, r) != 1 {
        return false;
    }
    let x = slot_word(rows, r, 0);
    if x == 0 {
        return false;
    }
    if u == 1 {
        return true;
    }
    is_node(x)
}

// The row of the node of block 0 of tier u.
fn head_row(i: u64, v: u64, u: u64) -> u64
    requires { u < top_tier }
    ensures head_row { HeadRow i v u result }
    ensures upper_bound { result < row_count }
{
    if u <= v {
        return CHAIN + u;
    }
    if block_of(u, i) != 0 {
        return CHAIN + u;
    }
    u
}

// The node n, of block 0 of tier u, becomes the head; its row.
fn take_head(
    pool: &[u64],
    rows: &mut [u64],
    nums: &mut [u64],
    i: u64,
    v: u64,
    u: u64,
    n: u64,
) -> u64
    requires n_in_bounds { last_place n < length pool.now }
    requires u_lt_top_tier { (u < top_tier) × (pool_words row_count ≤ length rows.old) × (row_count ≤ length nums.old) }
    ensures taken { Taken pool.now i v u n rows.old rows.new nums.old nums.new result }
    ensures upper_bound { result < row_count }
{
    let r = head_row(i, v, u);
    if r == u {
        put_owner(rows, r, 0);
        return r;
    }
    copy_node(pool, n, rows, r);
    nums[r as usize] = n;
    put_owner(rows, r, 0);
    r
}

// The head comes down as far as it does; its word.
fn lower_head(pool: &[u64], rows: &mut [u64], nums: &mut [u64], i: u64, order: u64, top: u64) -> u64
    requires slot_bits_bound { (order / slot_bits < top) × (top ≤ top_tier) × (pool_words row_count ≤ length rows.old) × (row_count ≤ length nums.old) }
    requires lowering { Lowering pool.now i order top rows.old nums.old }
    ensures landed { (s : WellFormed pool.now) (l' : List Entry) → Erases s i order top l' →
        Lowered s i (order / slot_bits) top top l' rows.old nums.old →
        any (within (tier_order top) 0) l' ≡ true →
        Landed s i (order / slot_bits) top l' rows.new nums.new result }
    ensures by_index { (p : ℕ) → p < anchor_words → get_or rows.new p 0 ≡ get_or rows.old p 0 }
{
    let v = order / SLOT_BITS;
    let mut u = top;
    let mut r = top;
    let mut w = pool[HEAD_WORD];
    loop {
        if !drops(rows, r, u) {
            return w;
        }
        w = slot_word(rows, r, 0);
        clear_node(rows, r);
        u = u - 1;
        if u == 0 {
            return w;
        }
        r = take_head(pool, rows, nums, i, v, u, node_number(w));
    }
}

// THE WHOLE

// The rows of the path under the old head, the numbers, and the anchor of no entries.
fn sweep_path(
    pool: &[u64],
    rows: &mut [u64],
    nums: &mut [u64],
    path: &mut [u64],
    i: u64,
    order: u64,
    top: u64,
)
    requires well_formed { WellFormed pool.now }
    requires row_count_in_bounds { (pool_words row_count ≤ length rows.old) × (row_count ≤ length nums.old) × (top_tier < length path.old) }
    requires order_le_max_order { (order ≤ max_order) × (aligned order i ≡ true) × (order / slot_bits < top) × (top ≤ top_tier) }
    requires path_there { (s : WellFormed pool.now) → PathThere s i (order / slot_bits) top }
    ensures { (s : WellFormed pool.now) (l' : List Entry) → Erases s i order top l' →
        SweptPath s i (order / slot_bits) top l' rows.new nums.new }
{
    let v = order / SLOT_BITS;
    let n = pool[COUNT_WORD];
    let first = node_number(pool[HEAD_WORD]);
    let d = walk_path(pool, path, i, v, top, first);
    let at = Range {
        base: i,
        order,
        word: 0,
        marks: 0,
    };
    path_rows(pool, rows, path, at, top);
    anchor_row(pool, rows, 0, top);
    sweep(rows, v, top);
    number_rows(nums, path, v, top, n);
}

// The rows, the anchor and the numbers after the entry of that order at i, in a node, is erased. path: words for the
// numbers of the path's nodes.
pub fn erase_rows(
    pool: &[u64],
    rows: &mut [u64],
    nums: &mut [u64],
    path: &mut [u64],
    i: u64,
    order: u64,
    top: u64,
)
    requires well_formed { WellFormed pool.now }
    requires row_count_in_bounds { (pool_words row_count ≤ length rows.old) × (row_count ≤ length nums.old) × (top_tier < length path.old) }
    requires order_le_max_order { (order ≤ max_order) × (aligned order i ≡ true) × (order / slot_bits < top) × (top ≤ top_tier) }
    requires path_there { (s : WellFormed pool.now) → PathThere s i (order / slot_bits) top × Standing s.list i order }
    ensures { (s : WellFormed pool.now) (l' : List Entry) → Becomes i order none s.list l' → Valid l' →
        Tables pool.now rows.new nums.new
        (render l' (new_places s.list l' s.places) s.n) s.n }
{
    sweep_path(pool, rows, nums, path, i, order, top);
    if filled_of(rows, top) == 0 {
        return;
    }
    let w = lower_head(pool, rows, nums, i, order, top);
    rows[HEAD_WORD] = w;
}

// The same of an entry that is the head: the anchor alone.
pub fn bare_rows(pool: &[u64], rows: &mut [u64], nums: &mut [u64])
    requires well_formed { WellFormed pool.now }
    requires row_count_in_bounds { (pool_words row_count ≤ length rows.old) × (row_count ≤ length nums.old) }
    ensures { (s : WellFormed pool.now) (i order : ℕ) (l' : List Entry) → PathThere s i (order / slot_bits) 0 →
        Standing s.list i order → Becomes i order none s.list l' → Valid l' →
        Tables pool.now rows.new nums.new
        (render l' (new_places s.list l' s.places) s.n) s.n }
{
    let n = pool[COUNT_WORD];
    rows[COUNT_WORD] = n;
    rows[HEAD_WORD] = 0;
    rows[MARKS_WORD] = 0;
    rows[SPARE_WORD] = 0;
    fill(nums, 0, n, ROWS);
}
