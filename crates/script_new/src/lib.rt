// A store of a new entry: the rows of the nodes over it, of the nodes between the heads, the anchor and the numbers.
//
// path, chain: the numbers of the nodes over the index and over index 0, by tier; u, t: a tier; v: the tier of the slots
// that hold the entry; beside: the old tree stays under a higher head; low: the lowest tier of the rows over index 0.
#![tactic(auto)]

ghost use Rattle.std.specs.Prelude.{ℕ, ◌+◌, ◌-◌, ◌/◌, ◌<◌, ◌≤◌, max, ◌≡◌, true, false, List, get_or, length};
ghost use Rattle.std.proofs.Math.Option.{Option};
ghost use Rattle.model.specs.declared.Entry.{Entry};
ghost use Rattle.tree.specs.Tree.{top_tier};
ghost use Rattle.tree.specs.Slots.{Numbering};
ghost use Rattle.layout.specs.Words.{pool_words, max_nodes};
ghost use Rattle.layout.specs.WellFormed.{WellFormed};
ghost use Rattle.plan.specs.Plan.{Storable};
ghost use Rattle.script_rows.specs.Row.{OtherRows};
ghost use Rattle.script_rows.specs.Becomes.{Roomy};
ghost use Rattle.script_table.specs.Table.{row_count};
ghost use Rattle.script_new.specs.New.{chain_row, NewList, NewPlanned, NewRows};
ghost use Rattle.script_new.specs.Chain.{under_word, beside_of, low_chain, BegunNew, ChainRoom, ChainFinal};
ghost use Rattle.script_new.specs.Chain.{ChainShown, Chains, NewNumber, NewNumbers};

use layout::{COUNT_WORD, SLOT_BITS, node_word, owner_word, shift_word};
use plan::{Heads, Target, at_least_1, chained_of, starts_at_0};
use script_rows::{Range, anchor_row, begin_rows, copy_node, edit_run, finish_row, put_rows};
use script_table::ROWS;

// The first of the rows over index 0.
const CHAIN_ROW: u64 = 12;

// The old tree stays beside the range, under a higher head.
fn is_beside(at: Range, heads: Heads) -> bool
    requires { Storable (record { index = at.base; order = at.order; word = at.word }) }
    ensures { result ≡ beside_of heads at.order at.base }
{
    if heads.new <= heads.old {
        return false;
    }
    let target = Target {
        index: at.base,
        order: at.order,
        word: at.word,
    };
    chained_of(heads.word, starts_at_0(target))
}

// What slot 0 of the node of tier t + 1 over index 0 holds, above the old head.
fn under(chain: &[u64], heads: Heads, t: u64) -> u64
    requires { (t ≤ top_tier) × (top_tier < length chain.now) × ((t ≡ heads.old → ⊥) → get_or chain.now t 0 < max_nodes) }
    ensures { result ≡ under_word heads chain.now t }
{
    if t == heads.old {
        return heads.word;
    }
    let n = chain[t as usize];
    node_word(n)
}

// The rows of the path begin as copies, and slot 0 of the new head's leads to the old tree, if that stays.
fn begin_new(
    pool: &[u64],
    rows: &mut [u64],
    path: &[u64],
    chain: &[u64],
    v: u64,
    heads: Heads,
    beside: bool,
)
    requires roomy { Roomy pool.now rows.old path.now v heads.new }
    requires top_tier_in_bounds { (top_tier < length chain.now) × (beside ≡ true → heads.old < heads.new) ×
        (beside ≡ true → ChainRoom pool.now chain.now heads) }
    ensures { BegunNew pool.now path.now chain.now heads v beside rows.new }
{
    let top = heads.new;
    begin_rows(pool, rows, path, v, top);
    if !beside {
        return;
    }
    let w = under(chain, heads, top - 1);
    edit_run(rows, top, 0, 1, w, heads.marks);
}

// A row over index 0 begins as a copy; slot 0 of a new node's leads down.
fn begin_chain(pool: &[u64], rows: &mut [u64], chain: &[u64], heads: Heads, u: u64)
    requires heads_bound { (max 1 heads.old ≤ u) × (u < heads.new) × (heads.new ≤ top_tier) }
    requires top_tier_in_bounds { (top_tier < length chain.now) × (pool_words row_count ≤ length rows.old) }
    requires chain_room { ChainRoom pool.now chain.now heads }
    ensures other_rows { OtherRows rows.old rows.new (chain_row + u) }
    ensures chain_final { (l' : List Entry) (μ : Numbering) → Chains pool.now heads chain.now l' μ →
        ChainFinal l' μ rows.new (chain_row + u) (u - 1) }
{
    let n = chain[u as usize];
    copy_node(pool, n, rows, CHAIN_ROW + u);
    if u == heads.old {
        return;
    }
    let w = under(chain, heads, u - 1);
    edit_run(rows, CHAIN_ROW + u, 0, 1, w, heads.marks);
}

// The row of the node of tier u over index 0.
fn chain_row(pool: &[u64], rows: &mut [u64], chain: &[u64], heads: Heads, u: u64)
    requires heads_bound { (max 1 heads.old ≤ u) × (u < heads.new) × (heads.new ≤ top_tier) }
    requires top_tier_in_bounds { (top_tier < length chain.now) × (pool_words row_count ≤ length rows.old) }
    requires chain_room { ChainRoom pool.now chain.now heads }
    ensures other_rows { OtherRows rows.old rows.new (chain_row + u) }
    ensures chain_shown { (l' : List Entry) (μ : Numbering) → Chains pool.now heads chain.now l' μ →
        ChainShown l' μ rows.new heads.new u }
{
    begin_chain(pool, rows, chain, heads, u);
    let n = chain[(u + 1) as usize];
    finish_row(rows, CHAIN_ROW + u, shift_word(u), owner_word(n, 0));
}

// All rows over index 0, from the old head up to below the new one.
fn chain_rows(pool: &[u64], rows: &mut [u64], chain: &[u64], heads: Heads, low: u64)
    requires heads_bound { (max 1 heads.old ≤ low) × (heads.new ≤ top_tier) }
    requires top_tier_in_bounds { (top_tier < length chain.now) × (pool_words row_count ≤ length rows.old) }
    requires chain_room { low < heads.new → ChainRoom pool.now chain.now heads }
    ensures by_index { (p : ℕ) → p < pool_words chain_row → get_or rows.new p 0 ≡ get_or rows.old p 0 }
    ensures chain_shown { (l' : List Entry) (μ : Numbering) → Chains pool.now heads chain.now l' μ →
        (u : ℕ) → low ≤ u → u < heads.new → ChainShown l' μ rows.new heads.new u }
{
    for u in low..heads.new {
        chain_row(pool, rows, chain, heads, u);
    }
}

// The lowest tier of the rows over index 0; the new head's, if there are none.
fn low_chain(heads: Heads, beside: bool) -> u64
    ensures { result ≡ low_chain heads beside }
{
    if !beside {
        return heads.new;
    }
    at_least_1(heads.old)
}

// The number of the node of row r: one over index 0, or as where the nodes stay; n where it has none.
fn number_at(path: &[u64], chain: &[u64], r: u64, v: u64, top: u64, low: u64, n: u64) -> u64
    requires { (v ≤ top_tier) × (top ≤ top_tier) × (low ≤ top_tier) × (top_tier < length path.now) × (top_tier < length chain.now) }
    ensures { NewNumber path.now chain.now r v top low n result }
{
    if CHAIN_ROW + low <= r && r < CHAIN_ROW + top {
        return chain[(r - CHAIN_ROW) as usize];
    }
    script_same::number_at(path, r, v, top, n)
}

// The numbers of all rows, one by one for the reason of script_same's.
fn number_rows(nums: &mut [u64], path: &[u64], chain: &[u64], v: u64, top: u64, low: u64, n: u64)
    requires v_le_top_tier { (v ≤ top_tier) × (top ≤ top_tier) × (low ≤ top_tier) × (top_tier < length path.now) × (top_tier < length chain.now) }
    requires row_count_in_bounds { row_count ≤ length nums.old }
    ensures { NewNumbers nums.new path.now chain.now v top low n row_count }
{
    for r in 0..ROWS {
        nums[r as usize] = number_at(path, chain, r, v, top, low, n);
    }
}

// The rows, the anchor and the numbers of a store of a new entry, whose head is a node.
pub fn new_rows(
    pool: &[u64],
    rows: &mut [u64],
    nums: &mut [u64],
    path: &[u64],
    chain: &[u64],
    at: Range,
    heads: Heads,
)
    requires well_formed { WellFormed pool.now }
    requires row_count_in_bounds { (pool_words row_count ≤ length rows.old) × (row_count ≤ length nums.old) ×
        (top_tier < length path.now) × (top_tier < length chain.now) }
    requires word_value { (heads.word ≡ get_or pool.now 1 0) × (heads.marks ≡ get_or pool.now 2 0) }
    requires storable { Storable (record { index = at.base; order = at.order; word = at.word }) }
    requires new_planned { (s : WellFormed pool.now) → NewPlanned s (record { index = at.base; order = at.order; word = at.word })
        heads path.now chain.now }
    ensures { (s : WellFormed pool.now) (o : Option Entry) (l' : List Entry) →
        NewList s at.base at.order at.word at.marks o l' →
        NewRows s at.base at.order l' rows.new nums.new }
{
    let v = at.order / SLOT_BITS;
    let top = heads.new;
    let n = pool[COUNT_WORD];
    let beside = is_beside(at, heads);
    let low = low_chain(heads, beside);
    begin_new(pool, rows, path, chain, v, heads, beside);
    put_rows(rows, path, at, top);
    chain_rows(pool, rows, chain, heads, low);
    let w = node_word(path[top as usize]);
    anchor_row(pool, rows, w, top);
    number_rows(nums, path, chain, v, top, low, n);
}
