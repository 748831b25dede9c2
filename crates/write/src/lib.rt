// What a store writes, once all that decides it is read: the filled counts, the edges between nodes, the marks, the entry
// with its siblings, and the nodes that it frees. Each function leaves what a definition of specs/Writes says, whatever
// the words are.
//
// pool: the borrowed words; map: a map of free nodes; n: how many nodes the pool has, or the number of one; u: a tier; v:
// the tier of the slots that hold the entry; h, top: the tier of the head before and after; path, chain: the numbers of
// the nodes over the index and over index 0, by tier; a: a node; o, c: the first of its slots, and how many; f: a filled
// count.
#![tactic(auto)]

ghost use Rattle.std.specs.Prelude.{ℕ, ◌+◌, ◌-◌, ◌/◌, ◌%◌, ◌<◌, ◌≤◌, ◌≡◌, ltb, get_or, length};
ghost use Rattle.tree.specs.Tree.{slots, slot_bits, top_tier};
ghost use Rattle.layout.specs.Words.{pool_words, last_place, filled_place, mark_place};
ghost use Rattle.freemap.specs.FreeMap.{map_nodes, Sound};
ghost use Rattle.freenodes.specs.FreeNodes.{Follows};
ghost use Rattle.plan.specs.Plan.{Storable};
ghost use Rattle.write.specs.Writes;
ghost use Rattle.write.specs.Writes.{Laid};

use freenodes::release;
use layout::{
    HEAD_WORD, SLOT_BITS, SLOTS, Slot, block_of, fill_slots, filled_of, mark_word, node_word,
    owner_word, put_filled, put_mark_word, put_owner, put_shift, put_slot, read_slot, shift_word,
    sibling_word, slot_word,
};
use plan::{Heads, Target, at_least_1};
use words::pow2;

// The slots that an entry takes: its node, the first of them, how many they are, and their tier.
#[derive(Clone, Copy)]
pub struct Seat {
    pub node: u64,
    pub slot: u64,
    pub count: u64,
    pub tier: u64,
}

// The edge from slot o of node p to node c, of tier u.
fn join(pool: &mut [u64], p: u64, o: u64, c: u64, u: u64)
    requires p_bound { last_place p < length pool.old }
    requires c_bound { last_place c < length pool.old }
    requires o_lt_slots { o < slots }
    requires le_u { 1 ≤ u }
    requires u_le_top_tier { u ≤ top_tier }
    ensures { pool.new ≡ Writes.join_at pool.old p o c u }
{
    put_shift(pool, c, shift_word(u));
    put_owner(pool, c, owner_word(p, o));
    put_slot(pool, p, o, node_word(c));
}

// The edges on the way to the index, between the tiers from and to.
fn join_all(pool: &mut [u64], nums: &[u64], index: u64, from: u64, to: u64)
    requires le_from { 1 ≤ from }
    requires to_le_top_tier { to ≤ top_tier }
    requires to_in_bounds { to < length nums.now }
    requires by_index { (u : ℕ) → from ≤ u → u ≤ to → last_place (get_or nums.now u 0) < length pool.old }
    ensures { pool.new ≡ Writes.joins nums.now index pool.old from (to - from) }
{
    for u in from..to {
        let p = nums[(u + 1) as usize];
        let c = nums[u as usize];
        join(pool, p, block_of(u, index) % SLOTS, c, u);
    }
}

// The mark words of node n where only slot 0 has marks: those of m.
fn put_marks(pool: &mut [u64], n: u64, m: u64)
    requires { last_place n < length pool.old }
    ensures { pool.new ≡ Writes.mark_at pool.old n (m % 2) (m / 2 % 2) (m / 4 % 2) }
{
    put_mark_word(pool, n, 0, m % 2);
    put_mark_word(pool, n, 1, m / 2 % 2);
    put_mark_word(pool, n, 2, m / 4 % 2);
}

// The marks of the slots 0 of the tiers from from to to - 1.
fn mark_all(pool: &mut [u64], nums: &[u64], m: u64, from: u64, to: u64)
    requires to_in_bounds { to ≤ length nums.now }
    requires by_index { (u : ℕ) → from ≤ u → u < to → last_place (get_or nums.now u 0) < length pool.old }
    ensures { pool.new ≡ Writes.marked nums.now m pool.old from (to - from) }
{
    for u in from..to {
        put_marks(pool, nums[u as usize], m);
    }
}

// Mark word w with the bits from o on, c of them, given way to their OR at o.
fn fold(w: u64, o: u64, c: u64) -> u64
    requires o_lt_slots { o < slots }
    requires c_lt_slots { c < slots }
    ensures { result ≡ Writes.folded w o c }
{
    let x = (w >> o) % pow2(c);
    if x == 0 {
        return w;
    }
    w - (x - 1) * pow2(o)
}

// The same of the word of mark m of node n.
fn fold_at(pool: &mut [u64], n: u64, m: u64, o: u64, c: u64)
    requires m_bound { mark_place n m < length pool.old }
    requires o_lt_slots { o < slots }
    requires c_lt_slots { c < slots }
    ensures { pool.new ≡ Writes.fold_at pool.old (mark_place n m) o c }
{
    let w = fold(mark_word(pool, n, m), o, c);
    put_mark_word(pool, n, m, w);
}

// Frees what the word of a slot leads to, of tier u. Each node that is freed enters the map.
#[cycle(free_slot_free_slots_free_tree)]
fn free_slot(pool: &mut [u64], map: &mut [u64], top: u64, w: u64, u: u64)
    requires top_bound { pool_words top ≤ length pool.old }
    requires sound { Sound map.old }
    requires top_le_map_nodes { top ≤ map_nodes }
    ensures pool_after { pool.new ≡ Writes.free_slot (Writes.free_tree top u) top pool.old w }
    ensures follows { Follows pool.old pool.new map.old map.new }
{
    if let Slot::Child(n) = read_slot(w) {
        if n < top {
            free_tree(pool, map, top, n, u);
        }
    }
}

// Frees what the slots of node n from o on, c of them, lead to, of tier u.
#[cycle(free_slot_free_slots_free_tree)]
fn free_slots(pool: &mut [u64], map: &mut [u64], top: u64, n: u64, o: u64, c: u64, u: u64)
    requires top_bound { pool_words top ≤ length pool.old }
    requires sound { Sound map.old }
    requires top_le_map_nodes { (top ≤ map_nodes) × (n < top) × (o + c ≤ slots) }
    ensures pool_after { pool.new ≡ Writes.free_slots (Writes.free_tree top u) top n o pool.old c }
    ensures follows { Follows pool.old pool.new map.old map.new }
{
    for j in 0..c {
        let w = slot_word(pool, n, o + j);
        free_slot(pool, map, top, w, u);
    }
}

// Frees node n, of tier u, and all below it.
#[cycle(free_slot_free_slots_free_tree)]
fn free_tree(pool: &mut [u64], map: &mut [u64], top: u64, n: u64, u: u64)
    requires top_bound { pool_words top ≤ length pool.old }
    requires sound { Sound map.old }
    requires top_le_map_nodes { (top ≤ map_nodes) × (n < top) }
    ensures pool_after { pool.new ≡ Writes.free_tree top u pool.old n }
    ensures follows { Follows pool.old pool.new map.old map.new }
{
    if u == 0 {
        return;
    }
    free_slots(pool, map, top, n, 0, SLOTS, u - 1);
    release(pool, map, n);
}

// Frees what gives way to an entry: what lies below its slots, and, where the head grows, the whole old tree.
fn clear(pool: &mut [u64], map: &mut [u64], n: u64, seat: Seat, heads: Heads)
    requires n_bound { pool_words n ≤ length pool.old }
    requires sound { Sound map.old }
    requires n_le_map_nodes { (n ≤ map_nodes) × (seat.node < n) × (seat.slot + seat.count ≤ slots) }
    ensures pool_after { pool.new ≡ Writes.cleared pool.old n seat.node seat.slot seat.count
        seat.tier (ltb heads.old heads.new) heads.word heads.old }
    ensures follows { Follows pool.old pool.new map.old map.new }
{
    free_slots(pool, map, n, seat.node, seat.slot, seat.count, seat.tier);
    if heads.old < heads.new {
        free_slot(pool, map, n, heads.word, heads.old);
    }
}

// Node a becomes the head, of tier h.
fn put_head(pool: &mut [u64], a: u64, h: u64)
    requires a_bound { last_place a < length pool.old }
    requires le_h { 1 ≤ h }
    requires h_le_top_tier { h ≤ top_tier }
    ensures { pool.new ≡ Writes.head_at pool.old a h }
{
    put_shift(pool, a, shift_word(h));
    put_owner(pool, a, 0);
    pool[HEAD_WORD] = node_word(a);
}

// The path from the head, of tier top, to tier v + 1.
fn link(pool: &mut [u64], path: &[u64], index: u64, v: u64, top: u64)
    requires v_lt_top { v < top }
    requires top_le_top_tier { top ≤ top_tier }
    requires top_in_bounds { top < length path.now }
    requires by_index { (u : ℕ) → v + 1 ≤ u → u ≤ top → last_place (get_or path.now u 0) < length pool.old }
    ensures { pool.new ≡ Writes.linked pool.old path.now index v top }
{
    join_all(pool, path, index, v + 1, top);
    put_head(pool, path[top as usize], top);
}

// An entry that was the head goes to slot 0 of the lowest node of the chain.
fn put_bottom(pool: &mut [u64], chain: &[u64], h: u64, word: u64)
    requires in_bounds { 1 < length chain.now }
    requires chain_in_bounds { h ≡ 0 → last_place (get_or chain.now 1 0) < length pool.old }
    ensures { pool.new ≡ Writes.bottomed pool.old chain.now h word }
{
    if h == 0 {
        put_slot(pool, chain[1], 0, word);
    }
}

// The old head under a higher one.
fn put_chain(pool: &mut [u64], chain: &[u64], heads: Heads)
    requires heads_lt_heads { (heads.old < heads.new) × (heads.new ≤ top_tier) × (heads.new < length chain.now) }
    requires by_index { (u : ℕ) → heads.old ≤ u → 1 ≤ u → u ≤ heads.new →
        last_place (get_or chain.now u 0) < length pool.old }
    ensures { pool.new ≡ Writes.chain_words pool.old chain.now
        heads.marks heads.old heads.new heads.word }
{
    let h = heads.old;
    let top = heads.new;
    put_bottom(pool, chain, h, heads.word);
    join_all(pool, chain, 0, at_least_1(h), top);
    mark_all(pool, chain, heads.marks, h + 1, top + 1);
}

// The nodes above the old head, which stays: the chain down to it, or, where there was none, the new head's marks alone.
fn grow(pool: &mut [u64], path: &[u64], chain: &[u64], heads: Heads)
    requires heads_lt_heads { (heads.old < heads.new) × (heads.new ≤ top_tier) }
    requires heads_in_bounds { (heads.new < length path.now) × (heads.new < length chain.now) }
    requires heads_in_bounds_2 { last_place (get_or path.now heads.new 0) < length pool.old }
    requires u_in_bounds { (heads.word ≡ 0 → ⊥) → (u : ℕ) → heads.old ≤ u → 1 ≤ u → u ≤ heads.new →
        last_place (get_or chain.now u 0) < length pool.old }
    ensures { pool.new ≡ Writes.grown pool.old path.now chain.now
        heads.marks heads.old heads.new heads.word }
{
    if heads.word == 0 {
        mark_all(pool, path, heads.marks, heads.new, heads.new + 1);
        return;
    }
    put_chain(pool, chain, heads);
}

// The marks of a higher head, under which nothing of the old one stays.
fn mark_top(pool: &mut [u64], path: &[u64], heads: Heads)
    requires heads_le_top_tier { (heads.new ≤ top_tier) × (heads.new < length path.now) }
    requires heads_in_bounds { last_place (get_or path.now heads.new 0) < length pool.old }
    ensures { pool.new ≡ Writes.top_marked pool.old path.now
        heads.marks heads.old heads.new }
{
    if heads.old >= heads.new {
        return;
    }
    mark_all(pool, path, heads.marks, heads.new, heads.new + 1);
}

// An entry in its slots.
fn put_entry(pool: &mut [u64], seat: Seat, word: u64)
    requires node_bound { last_place seat.node < length pool.old }
    requires count_bound { (seat.slot + seat.count ≤ slots) × (1 ≤ seat.count) }
    ensures { pool.new ≡ Writes.entered pool.old
        seat.node seat.slot seat.count word }
{
    let a = seat.node;
    let o = seat.slot;
    let c = seat.count;
    fill_slots(pool, a, o + 1, sibling_word(o), c - 1);
    put_slot(pool, a, o, word);
}

// An entry in slots that are empty, which then count as filled.
pub fn settle(pool: &mut [u64], seat: Seat, word: u64)
    requires node_bound { last_place seat.node < length pool.old }
    requires count_bound { (seat.slot + seat.count ≤ slots) × (1 ≤ seat.count) }
    requires node_bound_2 { get_or pool.old (filled_place seat.node) 0 ≤ slots }
    ensures { pool.new ≡ Writes.settled pool.old
        seat.node seat.slot seat.count word }
{
    let f = filled_of(pool, seat.node);
    put_filled(pool, seat.node, f + seat.count);
    put_entry(pool, seat, word);
}

// The three mark words of the entry's node: the marks of its slots give way to their OR in the first. Three calls, since a
// loop over the marks takes as many lines, and an invariant.
fn fold_all(pool: &mut [u64], seat: Seat)
    requires node_bound { last_place seat.node < length pool.old }
    requires slot_lt_slots { (seat.slot < slots) × (seat.count < slots) }
    ensures { pool.new ≡ Writes.fold_all pool.old seat.node seat.slot seat.count }
{
    fold_at(pool, seat.node, 0, seat.slot, seat.count);
    fold_at(pool, seat.node, 1, seat.slot, seat.count);
    fold_at(pool, seat.node, 2, seat.slot, seat.count);
}

// How many slots an entry takes.
pub fn width_of(order: u64) -> u64
    ensures { (result ≡ Writes.width order) × (1 ≤ result) × (result ≤ 32) }
{
    pow2(order % SLOT_BITS)
}

// The first slot of an entry in its node.
pub fn offset_of(target: Target) -> u64
    requires { Storable target }
    ensures { (result ≡ Writes.offset target.index target.order) × (result + Writes.width target.order ≤ slots) }
{
    block_of(target.order / SLOT_BITS, target.index) % SLOTS
}

// The slots of the target in its node.
pub fn seat_of(target: Target, node: u64) -> Seat
    requires { Storable target }
    ensures value { result ≡ Writes.seat_of target.index target.order node }
    ensures count_bound { (result.slot + result.count ≤ slots) × (1 ≤ result.count) × (result.count < slots) }
{
    Seat {
        node,
        slot: offset_of(target),
        count: width_of(target.order),
        tier: target.order / SLOT_BITS,
    }
}

// The counts of nodes with one filled slot each, of the tiers from from to to - 1.
fn count_ones(pool: &mut [u64], nums: &[u64], from: u64, to: u64)
    requires to_le_top_tier { to ≤ top_tier }
    requires to_in_bounds { to < length nums.now }
    requires by_index { (u : ℕ) → from ≤ u → u < to → last_place (get_or nums.now u 0) < length pool.old }
    ensures { pool.new ≡ Writes.ones nums.now pool.old from (to - from) }
{
    for u in from..to {
        put_filled(pool, nums[u as usize], 1);
    }
}

// The counts on the path of an entry: the node of tier top has f other filled slots, and those below it are new.
fn count_path(pool: &mut [u64], path: &[u64], order: u64, top: u64, f: u64)
    requires slot_bits_bound { (order / slot_bits < top) × (top ≤ top_tier) × (top < length path.now) × (f ≤ slots) }
    requires by_index { (u : ℕ) → order / slot_bits + 1 ≤ u → u ≤ top →
        last_place (get_or path.now u 0) < length pool.old }
    ensures { pool.new ≡ Writes.path_counts pool.old path.now order top f }
{
    let t = order / SLOT_BITS + 1;
    let c = width_of(order);
    let a = path[top as usize];
    if t == top {
        put_filled(pool, a, f + c);
        return;
    }
    put_filled(pool, a, f + 1);
    let b = path[t as usize];
    put_filled(pool, b, c);
    count_ones(pool, path, t + 1, top);
}

// The counts under a head that grows: on the path, and, where there was a head, on the chain.
fn count_grown(pool: &mut [u64], path: &[u64], chain: &[u64], order: u64, heads: Heads)
    requires slot_bits_bound { (order / slot_bits < heads.new) × (heads.new ≤ top_tier) × (heads.old < heads.new) }
    requires heads_in_bounds { (heads.new < length path.now) × (heads.new < length chain.now) }
    requires by_index { (u : ℕ) → order / slot_bits + 1 ≤ u → u ≤ heads.new →
        last_place (get_or path.now u 0) < length pool.old }
    requires u_in_bounds { (heads.word ≡ 0 → ⊥) → (u : ℕ) → heads.old ≤ u → 1 ≤ u → u ≤ heads.new →
        last_place (get_or chain.now u 0) < length pool.old }
    ensures { pool.new ≡ Writes.grown_counts pool.old path.now chain.now
        order heads.old heads.new heads.word }
{
    if heads.word == 0 {
        count_path(pool, path, order, heads.new, 0);
        return;
    }
    count_path(pool, path, order, heads.new, 1);
    count_ones(pool, chain, heads.old + 1, heads.new);
}

// How many of the slots of node n from o on, c of them, are not 0.
fn filled_in(pool: &[u64], n: u64, o: u64, c: u64) -> u64
    requires n_in_bounds { last_place n < length pool.now }
    requires c_bound { o + c ≤ slots }
    ensures { (result ≡ Writes.filled_in pool.now n o c) × (result ≤ c) }
{
    let mut r = 0;
    for j in 0..c {
        r += u64::from(slot_word(pool, n, o + j) != 0);
    }
    r
}

// The count of the entry's node once all its slots are filled: those that were filled before count already.
fn filled_then(pool: &[u64], seat: Seat) -> u64
    requires node_in_bounds { last_place seat.node < length pool.now }
    requires count_bound { seat.slot + seat.count ≤ slots }
    requires node_bound { get_or pool.now (filled_place seat.node) 0 ≤ slots }
    ensures { result ≡ Writes.filled_then pool.now seat.node seat.slot seat.count }
{
    let f = filled_of(pool, seat.node);
    f + seat.count - filled_in(pool, seat.node, seat.slot, seat.count)
}

// All writes of a store to which entries give way: those below its slots, or, where the head grows, the whole old tree.
pub fn rebuild(
    pool: &mut [u64],
    map: &mut [u64],
    path: &[u64],
    target: Target,
    heads: Heads,
    n: u64,
)
    requires pool_len { length pool.old ≡ pool_words n }
    requires sound { Sound map.old }
    requires n_le_map_nodes { n ≤ map_nodes }
    requires storable { Storable target × (target.order / slot_bits < heads.new) × (heads.new ≤ top_tier) ×
        (top_tier < length path.now) }
    requires by_index { (u : ℕ) → target.order / slot_bits + 1 ≤ u → u ≤ heads.new → get_or path.now u 0 < n }
    requires slot_bits_bound { get_or pool.old (filled_place (get_or path.now (target.order / slot_bits + 1) 0)) 0 ≤ slots }
    ensures pool_after { pool.new ≡ Writes.rebuilt pool.old path.now
        target.index target.order target.word n heads.old heads.new heads.word heads.marks }
    ensures follows { Follows pool.old (Writes.given_way pool.old path.now
        target.index target.order n heads.old heads.new heads.word) map.old map.new }
{
    let v = target.order / SLOT_BITS;
    let a = path[(v + 1) as usize];
    let seat = seat_of(target, a);
    let f = filled_then(pool, seat);
    clear(pool, map, n, seat, heads);
    put_filled(pool, a, f);
    link(pool, path, target.index, v, heads.new);
    mark_top(pool, path, heads);
    put_entry(pool, seat, target.word);
    fold_all(pool, seat);
}

// Writes a new entry whose target range is empty and lies outside the head's block: a new head over both, the path to
// the entry and the chain to the old head.
pub fn extend(pool: &mut [u64], path: &[u64], chain: &[u64], target: Target, heads: Heads)
    requires storable { Storable target × (target.order / slot_bits < heads.new) × (heads.new ≤ top_tier) ×
        (heads.old < heads.new) }
    requires top_tier_in_bounds { (top_tier < length path.now) × (top_tier < length chain.now) }
    requires by_index { (u : ℕ) → target.order / slot_bits + 1 ≤ u → u ≤ heads.new →
        last_place (get_or path.now u 0) < length pool.old }
    requires u_in_bounds { (heads.word ≡ 0 → ⊥) → (u : ℕ) → heads.old ≤ u → 1 ≤ u → u ≤ heads.new →
        last_place (get_or chain.now u 0) < length pool.old }
    ensures { pool.new ≡ Writes.extended pool.old path.now chain.now
        target.index target.order target.word heads.old heads.new heads.word heads.marks }
{
    let v = target.order / SLOT_BITS;
    count_grown(pool, path, chain, target.order, heads);
    link(pool, path, target.index, v, heads.new);
    grow(pool, path, chain, heads);
    let a = path[(v + 1) as usize];
    put_entry(pool, seat_of(target, a), target.word);
}

// The numbers of the nodes over the index by tier: first, of tier u + 1, and below it down to tier v + 1 those of nums.
pub fn lay(nums: &[u64], path: &mut [u64], first: u64, v: u64, u: u64)
    requires { (v < u) × (u < top_tier) × (top_tier < length nums.now) × (top_tier < length path.old) }
    ensures { Laid nums.now path.new first v u }
{
    for t in v + 1..=u {
        path[t as usize] = nums[(u - t) as usize];
    }
    path[(u + 1) as usize] = first;
}

// The counts from the node of tier u + 1 down, the edges below it, and the entry in the lowest node.
pub fn build(pool: &mut [u64], path: &[u64], target: Target, u: u64)
    requires storable { Storable target × (target.order / slot_bits < u) × (u < top_tier) × (top_tier < length path.now) }
    requires by_index { (t : ℕ) → target.order / slot_bits + 1 ≤ t → t ≤ u + 1 →
        last_place (get_or path.now t 0) < length pool.old }
    requires u_bound { get_or pool.old (filled_place (get_or path.now (u + 1) 0)) 0 ≤ slots }
    ensures { pool.new ≡ Writes.built pool.old path.now
        target.index target.order target.word u }
{
    let index = target.index;
    let v = target.order / SLOT_BITS;
    let first = path[(u + 1) as usize];
    count_path(pool, path, target.order, u + 1, filled_of(pool, first));
    join_all(pool, path, index, v + 1, u + 1);
    let a = path[(v + 1) as usize];
    put_entry(pool, seat_of(target, a), target.word);
}
