// Marking and unmarking: the bit of one entry, and of each slot that leads to it.
//
// pool: the borrowed words, well-formed; n: the number of a node; v: the tier of its slots; o: the offset of a slot;
// m: a mark, 0 to 2; on: whether it is set or cleared.
#![tactic(auto)]

ghost use Rattle.std.specs.Prelude.{ℕ, ◌<◌, ◌≡◌, true, false, not, eqb, get_or, length, set};
ghost use Rattle.blocks.specs.Blocks.{set_bit};
ghost use Rattle.model.specs.Model.{reserved, mark_count, covers, covering, present, covered, with_mark, remark};
ghost use Rattle.tree.specs.Tree.{slots};
ghost use Rattle.layout.specs.Words.{marks_word};
ghost use Rattle.layout.specs.Places.{render};
ghost use Rattle.layout.specs.WellFormed.{WellFormed, num};
ghost use Rattle.lookup.specs.Views.{Holds};
ghost use Rattle.marks.specs.Climb.{StandsAt};

use layout::{MARKS_WORD, SLOTS, mark_word, owner_of, put_mark_word};
use lookup::{Located, Spot, locate};
use model::{Entry, is_reserved};
use words::with_bit;

// Whether any slot of a node has the mark, by its mark word.
fn nonzero(w: u64) -> bool
    ensures { result ≡ not (eqb w 0) }
{
    w != 0
}

// Mark m of the anchor, set or cleared.
fn mark_anchor(pool: &mut [u64], m: u64, on: bool)
    requires marks_word_bound { marks_word < length pool.old }
    requires m_lt_mark_count { m < mark_count }
    ensures { pool.new ≡
        set pool.old marks_word (set_bit m on (get_or pool.old marks_word 0)) }
{
    let w = pool[MARKS_WORD];
    pool[MARKS_WORD] = with_bit(w, m, on);
}

// Mark m of the entry that stands at a spot, and of each slot that leads to it, by owner words as long as one changes:
// a slot above keeps the mark while any slot of the node below has it. Then the anchor's.
pub fn climb(pool: &mut [u64], i: u64, at: Spot, m: u64, on: bool)
    requires m_lt_mark_count { m < mark_count }
    requires stands_at { StandsAt i at.node at.tier at.slot on pool.old }
    ensures { (s : WellFormed pool.old) →
        Holds s.list (num s) i at.node at.tier at.slot →
        pool.new ≡ render (remark s.list i m on) s.places s.n }
{
    let mut n = at.node;
    let mut v = at.tier;
    let mut o = at.slot;
    let mut b = on;
    loop {
        let w = mark_word(pool, n, m);
        let x = with_bit(w, o, b);
        if x == w {
            return;
        }
        put_mark_word(pool, n, m, x);
        b = nonzero(x);
        let p = owner_of(pool, n);
        if p == 0 {
            break;
        }
        n = (p - 1) / SLOTS;
        o = (p - 1) % SLOTS;
        v += 1;
    }
    mark_anchor(pool, m, b);
}

// The entry with mark m set or cleared.
fn remarked(e: Entry, m: u64, on: bool) -> Entry
    requires m_lt_mark_count { m < mark_count }
    requires e_value { reserved e ≡ false }
    ensures { (i : ℕ) → covers i e ≡ true → result ≡ with_mark i m on e }
{
    Entry {
        marks: with_bit(e.marks, m, on),
        ..e
    }
}

// Sets or clears mark m of the entry that covers i; the entry as it then stands. A reservation has no marks, and stays.
pub fn set_mark(pool: &mut [u64], i: u64, m: u64, on: bool) -> Option<Entry>
    requires well_formed { WellFormed pool.old }
    requires m_lt_mark_count { m < mark_count }
    ensures value { (s : WellFormed pool.old) → result ≡ covered (present (covering (remark s.list i m on) i)) }
    ensures pool_after { (s : WellFormed pool.old) →
        pool.new ≡ render (remark s.list i m on) s.places s.n }
{
    let k = locate(pool, i);
    match k {
        Located::Apart | Located::Vacant(_, _, _) => None,
        Located::AtHead(e) => {
            if is_reserved(e) {
                return None;
            }
            mark_anchor(pool, m, on);
            Some(remarked(e, m, on))
        }
        Located::InNode(x, at, _) => {
            if is_reserved(x) {
                return None;
            }
            climb(pool, i, at, m, on);
            Some(remarked(x, m, on))
        }
    }
}
