// Erasing the entry that covers an index: its marks off, its slots to 0, empty nodes freed, the head shrunk.
//
// pool: the borrowed words; i: the index; n, m: numbers of nodes; v: the tier of a node's slots; o: the offset of a
// slot; h: the tier of the head; map: the map of the free nodes.
#![tactic(auto)]

ghost use Rattle.std.specs.Prelude.{ℕ, ◌+◌, ◌-◌, ◌<◌, ◌≤◌, ◌≡◌, true, false, List, get_or, length, set};
ghost use Rattle.blocks.specs.Lists.{any};
ghost use Rattle.model.specs.Model;
ghost use Rattle.model.specs.Model.{within, covering, covered};
ghost use Rattle.model.specs.declared.Entry.{Entry};
ghost use Rattle.tree.specs.Tree.{slots, tier_order, height};
ghost use Rattle.layout.specs.Words.{last_place, filled_place, slot_place};
ghost use Rattle.layout.specs.Places.{Places, number_in, prune, render};
ghost use Rattle.words.specs.Fill.{filled};
ghost use Rattle.layout.specs.WellFormed.{WellFormed, num};
ghost use Rattle.lookup.specs.Views.{Holds};
ghost use Rattle.freenodes.specs.FreeNodes.{FreeMap};
ghost use Rattle.erase.specs.Freed.{Freed, Raised, Unlinked, Sheds};
ghost use Rattle.erase.specs.Tall.{Tall, Tower, Headed, Dropped};
ghost use Rattle.erase.specs.Leaving.{Unmarked, Cut, Cutting, Leaves, Erasing};

use freemap::give;
use layout::{
    HEAD_WORD, MARKS_WORD, SLOTS, Slot, clear_node, fill_slots, filled_of, owner_of, put_filled,
    put_owner, put_slot, read_slot, slot_word,
};
use lookup::{Located, Spot, locate, order_of};
use marks::climb;
use model::Entry;
use words::pow2;

// FREEING A NODE

// Frees the head n; the head's word becomes x.
fn free_head(pool: &mut [u64], n: u64, x: u64)
    requires { last_place n < length pool.old }
    ensures { Freed pool.old pool.new n x }
{
    clear_node(pool, n);
    pool[HEAD_WORD] = x;
}

// Frees the head n, and makes node m below it, whose word is x, the head.
fn raise(pool: &mut [u64], n: u64, m: u64, x: u64)
    requires n_bound { last_place n < length pool.old }
    requires m_bound { last_place m < length pool.old }
    ensures { Raised pool.old pool.new n m x }
{
    put_owner(pool, m, 0);
    free_head(pool, n, x);
}

// Takes c from the filled count of node n.
fn uncount(pool: &mut [u64], n: u64, c: u64)
    requires n_bound { filled_place n < length pool.old }
    requires c_bound { c ≤ get_or pool.old (filled_place n) 0 }
    ensures { pool.new ≡ set pool.old (filled_place n) (get_or pool.old (filled_place n) 0 - c) }
{
    let left = filled_of(pool, n) - c;
    put_filled(pool, n, left);
}

// Frees node n, and empties slot o of node m, which leads to it; m has one filled slot less.
fn unlink(pool: &mut [u64], n: u64, m: u64, o: u64)
    requires n_bound { last_place n < length pool.old }
    requires m_bound { last_place m < length pool.old }
    requires o_lt_slots { o < slots }
    requires bound { 1 ≤ get_or pool.old (filled_place m) 0 }
    ensures { Unlinked pool.old pool.new n m o }
{
    uncount(pool, m, 1);
    put_slot(pool, m, o, 0);
    clear_node(pool, n);
}

// SHRINKING THE HEAD

// The head n, of tier h, gives way to what its slot 0 holds, if that is all it has: a node, or, at shift 0, an entry.
fn drop_head(pool: &mut [u64], n: u64, h: u64) -> bool
    requires le_h { 1 ≤ h }
    requires headed { Headed h n pool.old }
    ensures by_index { (k : ℕ) (l : List Entry) (os : Places) → Tall k h l os pool.old →
        any (within (tier_order h) 0) l ≡ true → n ≡ number_in os h 0 → Dropped result k h l os pool.new }
    ensures sheds { Sheds result n pool.old pool.new }
{
    if filled_of(pool, n) != 1 {
        return false;
    }
    let x = slot_word(pool, n, 0);
    let k = read_slot(x);
    match k {
        Slot::Child(m) => {
            raise(pool, n, m, x);
            true
        }
        Slot::Held | Slot::Reserved => {
            if h != 1 {
                return false;
            }
            free_head(pool, n, x);
            true
        }
        Slot::Empty | Slot::Sibling(_) => false,
    }
}

// Shrinks the head, of tier top, to what the list needs.
fn shrink(pool: &mut [u64], map: &mut [u64], top: u64)
    requires tower { Tower top pool.old }
    requires free_map { FreeMap pool.old map.old }
    ensures free_map_2 { FreeMap pool.new map.new }
    ensures by_index { (k : ℕ) (l : List Entry) (os : Places) → Tall k top l os pool.old →
        pool.new ≡ render l (prune l os) k }
{
    for h in (1..=top).rev() {
        let Slot::Child(m) = read_slot(pool[HEAD_WORD]) else {
            return;
        };
        if !drop_head(pool, m, h) {
            return;
        }
        give(map, m);
    }
}

// TAKING THE ENTRY OUT

// Empties the slots of node n from o on, c of them; one of them, the most frequent case, by one write.
fn empty_slots(pool: &mut [u64], n: u64, o: u64, c: u64)
    requires n_bound { last_place n < length pool.old }
    requires c_bound { o + c ≤ slots }
    ensures { pool.new ≡ filled pool.old (slot_place n o) 0 c }
{
    if c == 1 {
        put_slot(pool, n, o, 0);
        return;
    }
    fill_slots(pool, n, o, 0, c);
}

// Empties the slots of the entry that covers i, and takes them from the node's filled count.
fn cut_run(pool: &mut [u64], i: u64, at: Spot)
    requires { Leaves i at.node at.tier at.slot at.top pool.old }
    ensures cut { (s : WellFormed pool.old) →
        Holds s.list (num s) i at.node at.tier at.slot → Unmarked s.list i →
        Cut s i at.tier at.node pool.new }
    ensures by_index { (ms : List ℕ) → FreeMap pool.old ms → FreeMap pool.new ms }
{
    let n = at.node;
    let o = at.slot;
    let k = order_of(pool, n, o);
    let c = pow2(k);
    uncount(pool, n, c);
    empty_slots(pool, n, o, c);
}

// Frees node first, which lost the entry that covered i, and those over it, as far as they are empty.
fn prune_up(pool: &mut [u64], map: &mut [u64], i: u64, first: u64, tier: u64)
    requires cutting { Cutting i tier first pool.old }
    requires free_map { FreeMap pool.old map.old }
    ensures free_map_2 { FreeMap pool.new map.new }
    ensures by_index { (ws : List ℕ) (s : WellFormed ws) → Cut s i tier first pool.old →
        Tall s.n (height s.list) (Model.erase s.list i) s.places pool.new }
{
    let mut n = first;
    let mut v = tier;
    loop {
        if filled_of(pool, n) != 0 {
            return;
        }
        give(map, n);
        let p = owner_of(pool, n);
        if p == 0 {
            free_head(pool, n, 0);
            return;
        }
        let m = (p - 1) / SLOTS;
        unlink(pool, n, m, (p - 1) % SLOTS);
        n = m;
        v += 1;
    }
}

// Takes out the entry that covers i, which has no marks.
fn cut(pool: &mut [u64], map: &mut [u64], i: u64, at: Spot)
    requires leaves { Leaves i at.node at.tier at.slot at.top pool.old }
    requires free_map { FreeMap pool.old map.old }
    ensures free_map_2 { FreeMap pool.new map.new }
    ensures pool_after { (s : WellFormed pool.old) →
        Holds s.list (num s) i at.node at.tier at.slot → Unmarked s.list i →
        height s.list ≡ at.top →
        pool.new ≡ render (Model.erase s.list i) (prune (Model.erase s.list i) s.places) s.n }
{
    cut_run(pool, i, at);
    prune_up(pool, map, i, at.node, at.tier);
    shrink(pool, map, at.top);
}

// Takes out the entry that covers i and stands at a spot: its marks off first, so that then no mark word changes. Three
// calls, since a loop over the marks takes as many lines, and an invariant.
fn remove(pool: &mut [u64], map: &mut [u64], i: u64, at: Spot)
    requires free_map { FreeMap pool.old map.old }
    requires erasing { Erasing i at.node at.tier at.slot at.top pool.old }
    ensures free_map_2 { FreeMap pool.new map.new }
    ensures pool_after { (s : WellFormed pool.old) →
        Holds s.list (num s) i at.node at.tier at.slot → height s.list ≡ at.top →
        pool.new ≡ render (Model.erase s.list i) (prune (Model.erase s.list i) s.places) s.n }
{
    climb(pool, i, at, 0, false);
    climb(pool, i, at, 1, false);
    climb(pool, i, at, 2, false);
    cut(pool, map, i, at);
}

// Takes out the entry that covers i; what it was. The nodes that it frees enter the map.
pub fn erase(pool: &mut [u64], map: &mut [u64], i: u64) -> Option<Entry>
    requires well_formed { WellFormed pool.old }
    requires free_map { FreeMap pool.old map.old }
    ensures value { (s : WellFormed pool.old) → result ≡ covered (covering s.list i) }
    ensures pool_after { (s : WellFormed pool.old) →
        pool.new ≡ render (Model.erase s.list i) (prune (Model.erase s.list i) s.places) s.n }
    ensures free_map_2 { FreeMap pool.new map.new }
{
    let k = locate(pool, i);
    match k {
        Located::Apart | Located::Vacant(_, _, _) => None,
        Located::AtHead(e) => {
            pool[HEAD_WORD] = 0;
            pool[MARKS_WORD] = 0;
            Some(e)
        }
        Located::InNode(e, at, _) => {
            remove(pool, map, i, at);
            Some(e)
        }
    }
}
