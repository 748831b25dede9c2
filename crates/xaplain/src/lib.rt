// The plain engine: the entries in index order, in four slices, and zeros after them (R300 to R309).
//
// index, order, word, marks: the borrowed slices, of one length; n: how many entries they hold; i: an index.
#![tactic(auto)]

ghost use Rattle.std.specs.Prelude.{ℕ, leb, ltb, eqb, not, ◌≡◌, ◌+◌, ◌-◌, ◌^◌, ◌≤◌, ◌<◌, true, false};
ghost use Rattle.std.specs.Prelude.{length, get_or, set, take, drop, position};
ghost use Rattle.answers.specs.Answers.{answer_of, number_of};
ghost use Rattle.blocks.specs.Blocks.{bit, set_bit};
ghost use Rattle.blocks.specs.Deciding.{Decides};
ghost use Rattle.model.specs.Model.{covering, covered, store_new, over, store, aligned, max_order, matched_mark, is_word_ok, reserved_word};
ghost use Rattle.model.specs.Matches.{matches, first_match};
ghost use Rattle.xaplain.specs.Slices.{check_answer, init_answer, init_slices, fits_entry};
ghost use Rattle.xaplain.specs.Slices.{rest_zero, in_order, list_in, all_zero, holds_list, is_sized};
ghost use Rattle.xaplain.specs.Lent.{lent, Held, Even, Within, entry_in, Shown};
ghost use Rattle.xaplain.specs.Lent.{WithinMut, lent_mut, HeldMut, Listed, Kept, room_in, StoresIn, ExecutesIn};
ghost use Rattle.xaplain.specs.Moves.{Rising, Splits, Searchable, Placed, Closed, removed, seen, found_reply, remarking};
ghost use Rattle.xaplain.specs.Moves.{Opened, Pulled, Cleared, Spliced, replaced, Counts};
ghost use Rattle.xaplain.specs.Moves.{low_of, Parts, any_from, kept_from, BeginsAt, Starts, FirstFrom};
ghost use Rattle.xaplain.specs.Engine.{execute};
ghost use Rattle.blocks.specs.Lists.{any};
ghost use Rattle.xaplain.specs.Stores.{Larger, entry_with, turned_by, refused_by};

use answers::Answer;
use batch::{Command, Reply};
use commands::{
    ERASE_REPLY, FIND_REPLY, LOAD_REPLY, RESERVE_REPLY, STORE_REPLY, answered_as, answered_by,
    covered_reply, is_aligned, is_storable, remarked_tag,
};
use model::{Entry, RESERVED, is_reserved};
use words::with_bit;

// The most entries that the slices may have room for.
pub const MAX_ROOM: usize = 4096;

// The highest order of an entry.
const MAX_ORDER: u64 = 63;

// How many marks an entry has.
const MARKS: u64 = 3;

// The filter that any entry passes (R64).
const ANY_MARK: u64 = 3;

// How many entries a find looks at together.
const LOOK: usize = 8;

// Mark 2, which no store hands on (R190), is worth this; marks 0 and 1 are below it.
const MATCHED_BIT: u64 = 4;

// The four slices, lent to read. The number of entries is not in it: `check` has none yet, and each command hands on another.
#[derive(Clone, Copy)]
pub struct Entries<'a> {
    pub index: &'a [u64],
    pub order: &'a [u64],
    pub word: &'a [u64],
    pub marks: &'a [u64],
}

// The four slices, lent to write.
#[derive(Drop)]
pub struct EntriesMut<'a> {
    pub index: &'a mut [u64],
    pub order: &'a mut [u64],
    pub word: &'a mut [u64],
    pub marks: &'a mut [u64],
}

// What a command comes to: its reply, and the number of entries after it.
#[derive(Clone, Copy)]
pub struct Turned {
    pub reply: Reply,
    pub count: usize,
}

// What a store comes to: the entry that covers its index then, and the number of entries.
#[derive(Clone, Copy)]
struct Stored {
    entry: Entry,
    count: usize,
}

// How many of the first n entries start at i or before.
pub fn position(index: &[u64], n: usize, i: u64) -> usize
    requires n_in_bounds { n ≤ length index.now }
    requires rising { Rising index.now n }
    ensures { Splits index.now n i result }
{
    index[..n].partition_point(|x| *x <= i)
}

// Moves the places from p to n - 1 one up. Place by place: slices have no copy_within here, and the library calls no memmove.
fn open(xs: &mut [u64], p: usize, n: usize)
    requires p_le_n { p ≤ n }
    requires n_in_bounds { n < length xs.old }
    ensures { Opened xs.old xs.new p n }
{
    for k in (p..n).rev() {
        xs[k + 1] = xs[k];
    }
}

// Moves the places from q to n - 1 down to a.
fn pull(xs: &mut [u64], a: usize, q: usize, n: usize)
    requires a_le_q { (a ≤ q) × (q ≤ n) }
    requires n_in_bounds { n ≤ length xs.old }
    ensures { Pulled xs.old xs.new a q n }
{
    for k in 0..n - q {
        xs[a + k] = xs[q + k];
    }
}

// Zeros from a to n - 1.
fn clear(xs: &mut [u64], a: usize, n: usize)
    requires a_le_n { a ≤ n }
    requires n_in_bounds { n ≤ length xs.old }
    ensures { Cleared xs.old xs.new a n }
{
    xs[a..n].fill(0);
}

// Puts v for the places from p to q - 1 of n, and zeros after the last.
fn splice(xs: &mut [u64], p: usize, q: usize, n: usize, v: u64)
    requires p_le_q { (p ≤ q) × (q ≤ n) }
    requires n_in_bounds { n ≤ length xs.old }
    requires q_in_bounds { p + 1 + (n - q) ≤ length xs.old }
    ensures { Spliced xs.old xs.new p q n v }
{
    if p == q {
        open(xs, p, n);
        xs[p] = v;
        return;
    }
    pull(xs, p + 1, q, n);
    clear(xs, p + 1 + (n - q), n);
    xs[p] = v;
}

// How many words stand before the first 0.
pub fn count(word: &[u64]) -> usize
    ensures { Counts word.now result }
{
    word.iter().position(|w| *w == 0).unwrap_or(word.len())
}

// Whether its word may stand in an entry: a storable one, or a reservation's, of order 0 and without marks.
fn word_fits(e: Entry) -> bool
    ensures { result ≡ is_word_ok e }
{
    if is_reserved(e) {
        e.order == 0 && e.marks == 0
    } else {
        is_storable(e.word)
    }
}

// Whether an entry is one that a list may hold.
fn fits(e: Entry) -> bool
    ensures { result ≡ fits_entry e }
{
    e.order <= MAX_ORDER && is_aligned(e.base, e.order) && word_fits(e) && e.marks < 8
}

// Whether an entry starts after the last index of the one before it, if there is one.
fn follows(last: Option<u64>, base: u64) -> bool
    ensures { result ≡ leb (low_of last) base }
{
    match last {
        None => true,
        Some(last) => last < base,
    }
}

// Whether zeros stand from a place on.
fn rest_zero(xs: &[u64], a: usize) -> bool
    requires { a ≤ length xs.now }
    ensures { result ≡ rest_zero xs.now a }
{
    xs[a..].iter().all(|x| *x == 0)
}

impl<'a> Entries<'a> {
    // The number of the entry over i: the last that starts at i or before, if it reaches i.
    fn place(self, n: usize, i: u64) -> Option<usize>
        requires { Searchable self.index.now self.order.now n }
        ensures { Placed self.entry.index.now self.entry.order.now n i result }
    {
        let k = position(self.index, n, i).checked_sub(1)?;
        if (i - self.index[k]) >> self.order[k] == 0 {
            Some(k)
        } else {
            None
        }
    }

    // The number of the entry over i, if its order is k or more.
    fn larger(self, n: usize, i: u64, k: u64) -> Option<usize>
        requires { Searchable self.index.now self.order.now n }
        ensures { Larger self.entry.index.now self.entry.order.now n i k result }
    {
        let j = self.place(n, i)?;
        if k <= self.order[j] { Some(j) } else { None }
    }

    fn entry_at(self, k: usize) -> Entry
        requires { Within self k }
        ensures { result ≡ entry_in self.entry k }
    {
        Entry {
            base: self.index[k],
            order: self.order[k],
            word: self.word[k],
            marks: self.marks[k],
        }
    }

    // What covers an index.
    pub fn covering(self, n: usize, i: u64) -> Option<Entry>
        requires { Held self n }
        ensures { (h : Held self.entry n) → result ≡ covered (covering h.list i) }
    {
        let k = self.place(n, i)?;
        Some(self.entry_at(k))
    }

    // The first entry whose run reaches past a - 1, or n.
    fn start(self, n: usize, a: u64) -> usize
        requires { Held self n }
        ensures { Starts self.entry.index.now self.entry.order.now n a result }
    {
        let k = begin(self.index, n, a);
        if k < n && !reaches(a, self.entry_at(k)) {
            k + 1
        } else {
            k
        }
    }

    // Whether a filter accepts none of the eight entries from k on: no reservation, and any mark or the one named. A reservation has no
    // marks (R200), so that a named one needs no look at the word.
    fn none_accepted(self, n: usize, k: usize, f: u64) -> bool
        requires holds { Held self n }
        requires k_in_bounds { k + 8 ≤ n }
        requires f_bound { f < 64 }
        ensures { Decides result ((j : ℕ) → k ≤ j → j < k + 8 → matches f (entry_in self.entry j) ≡ false) }
    {
        if f == ANY_MARK {
            eight_reserved(self.word, k)
        } else {
            eight_unmarked(self.marks, k, f)
        }
    }

    // The first place from k to q - 1 whose entry a filter accepts. Eight of which it accepts none are passed at once.
    fn accepted(self, n: usize, k: usize, q: usize, f: u64) -> Option<usize>
        requires holds { Held self n }
        requires k_le_q { (k ≤ q) × (q ≤ n) }
        requires f_bound { f < 64 }
        ensures { FirstFrom (λ j. matches f (entry_in self.entry j)) k q result }
    {
        if q - k == LOOK && self.none_accepted(n, k, f) {
            return None;
        }
        let r = if f == ANY_MARK {
            unreserved(self.word, k, q)
        } else {
            marked(self.marks, k, q, f)
        };
        Some(k + r?)
    }

    /// The first entry in index order that a filter accepts and whose run meets a to z: eight at a time.
    pub fn find(self, n: usize, a: u64, z: u64, f: u64) -> Option<Entry>
        requires holds { Held self n }
        requires f_bound { f < 64 }
        ensures { (h : Held self.entry n) → result ≡ covered (first_match h.list a z f) }
    {
        let mut k = self.start(n, a);
        while k < n {
            if z < self.index[k] {
                return None;
            }
            let q = k + (n - k).min(LOOK);
            if let Some(j) = self.accepted(n, k, q, f) {
                let e = self.entry_at(j);
                if z < e.base {
                    return None;
                }
                return Some(e);
            }
            k = q;
        }
        None
    }

    // Whether the first n entries are a list.
    fn in_order(self, n: usize) -> bool
        requires order_len { Even self }
        requires counts { Counts self.word.now n }
        ensures { result ≡ in_order 0 (list_in (lent self.entry)) }
    {
        let mut last = None;
        for k in 0..n {
            let e = self.entry_at(k);
            if !follows(last, e.base) {
                return false;
            }
            if !fits(e) {
                return false;
            }
            last = Some(e.base + ((1u64 << e.order) - 1));
        }
        true
    }

    // Whether zeros stand in all four slices from a place on.
    fn all_zero(self, n: usize) -> bool
        requires order_len { Even self }
        requires n_in_bounds { n ≤ length self.index.now }
        ensures { result ≡ all_zero self.entry.index.now self.entry.order.now self.entry.word.now self.entry.marks.now n }
    {
        rest_zero(self.index, n)
            && rest_zero(self.order, n)
            && rest_zero(self.word, n)
            && rest_zero(self.marks, n)
    }

    // Whether four slices of one length hold a list and then zeros.
    fn holds(self) -> bool
        requires { Even self }
        ensures { result ≡ holds_list self.entry.index.now self.entry.order.now self.entry.word.now self.entry.marks.now }
    {
        let n = count(self.word);
        self.in_order(n) && self.all_zero(n)
    }

    // Whether the slices are of one length, at most 4,096.
    fn is_sized(self) -> bool
        ensures { result ≡ is_sized (lent self.entry) }
    {
        let room = self.index.len();
        room <= MAX_ROOM
            && self.order.len() == room
            && self.word.len() == room
            && self.marks.len() == room
    }

    // Whether the slices hold a list: answers 0, 1 or 2.
    pub fn check(self) -> Result<(), Answer>
        ensures { answer_of result ≡ check_answer (lent self.entry) }
    {
        if !self.is_sized() {
            return Err(Answer::PoolLength);
        }
        if self.holds() {
            Ok(())
        } else {
            Err(Answer::NotWellFormed)
        }
    }

    fn run_load(self, n: usize, i: u64) -> Reply
        requires { Held self n }
        ensures { (h : Held self.entry n) →
            result ≡ (execute (length self.entry.index.now) h.list (Command.Load i)).reply }
    {
        let c = seen(self.covering(n, i));
        covered_reply(LOAD_REPLY, c)
    }

    // A find never pauses; all its budget does is not to be 0 (R305).
    fn run_find(self, n: usize, s: Sought) -> Reply
        requires { Held self n }
        ensures { (h : Held self.entry n) →
            result ≡ (execute (length self.entry.index.now) h.list (Command.Find s.first s.last s.filter s.budget)).reply }
    {
        if s.filter > ANY_MARK {
            return answered_as(FIND_REPLY, Answer::BadMark, 0, 0);
        }
        if s.first > s.last {
            return answered_as(FIND_REPLY, Answer::FirstAboveLast, 0, 0);
        }
        if s.budget == 0 {
            return answered_as(FIND_REPLY, Answer::NoBudget, 0, 0);
        }
        found_reply(self.find(n, s.first, s.last, s.filter))
    }
}

// How many of the first n entries start below i.
fn starts_below(index: &[u64], n: usize, i: u64) -> usize
    requires n_in_bounds { n ≤ length index.now }
    requires rising { Rising index.now n }
    ensures { Parts index.now n i result }
{
    index[..n].partition_point(|x| *x < i)
}

// Whether an entry from p to q - 1 has mark m.
fn any_mark(marks: &[u64], p: usize, q: usize, m: u64) -> bool
    requires p_le_q { (p ≤ q) × (q ≤ length marks.now) }
    requires m_bound { m < 64 }
    ensures { result ≡ any_from marks.now m (q - p) p }
{
    marks[p..q].iter().any(|x| (*x >> m) % 2 == 1)
}

// Marks 0 and 1 of the entries from p to q - 1.
fn kept(marks: &[u64], p: usize, q: usize) -> u64
    requires { (p ≤ q) × (q ≤ length marks.now) }
    ensures { result ≡ kept_from marks.now (q - p) p }
{
    u64::from(any_mark(marks, p, q, 0)) + 2 * u64::from(any_mark(marks, p, q, 1))
}

// A command that is refused: the entries stay.
fn refused(tag: u64, answer: Answer, n: usize) -> Turned
    ensures { result ≡ refused_by tag (number_of answer) n }
{
    Turned {
        reply: answered_as(tag, answer, 0, 0),
        count: n,
    }
}

// What a command that stores comes to; n: the number of entries before it.
fn stored_turn(tag: u64, n: usize, s: Option<Stored>) -> Turned
    ensures { result ≡ turned_by tag n s }
{
    match s {
        None => refused(tag, Answer::TooFewNodes, n),
        Some(s) => Turned {
            reply: answered_by(tag, s.entry, 0),
            count: s.count,
        },
    }
}

// Whether an entry's run reaches past a - 1.
fn reaches(a: u64, e: Entry) -> bool
    requires { e.order < 64 }
    ensures { result ≡ ltb a (e.base + 2 ^ e.order) }
{
    a < e.base || (a - e.base) >> e.order == 0
}

// Whether the eight words from k on are reservations'. Each is looked at, so that the compiler takes several at once.
fn eight_reserved(word: &[u64], k: usize) -> bool
    requires { k + 8 ≤ length word.now }
    ensures { Decides result ((j : ℕ) → k ≤ j → j < k + 8 → get_or word.now j 0 ≡ reserved_word) }
{
    let mut other = 0;
    for j in 0..LOOK {
        other |= u64::from(word[k + j] != RESERVED);
    }
    other == 0
}

// Whether none of the eight marks words from k on has mark m.
fn eight_unmarked(marks: &[u64], k: usize, m: u64) -> bool
    requires k_in_bounds { k + 8 ≤ length marks.now }
    requires m_bound { m < 64 }
    ensures { Decides result ((j : ℕ) → k ≤ j → j < k + 8 → bit m (get_or marks.now j 0) ≡ 0) }
{
    let mut marked = 0;
    for j in 0..LOOK {
        marked |= (marks[k + j] >> m) % 2;
    }
    marked == 0
}

// How many words from k to q - 1 stand before the first that is no reservation's, if there is one.
fn unreserved(word: &[u64], k: usize, q: usize) -> Option<usize>
    requires { (k ≤ q) × (q ≤ length word.now) }
    ensures { result ≡ position (λ x. not (eqb x reserved_word)) (take (q - k) (drop k word.now)) }
{
    word[k..q].iter().position(|x| *x != RESERVED)
}

// How many marks words from k to q - 1 stand before the first that has mark m, if there is one.
fn marked(marks: &[u64], k: usize, q: usize, m: u64) -> Option<usize>
    requires k_le_q { (k ≤ q) × (q ≤ length marks.now) }
    requires m_bound { m < 64 }
    ensures { result ≡ position (λ x. eqb (bit m x) 1) (take (q - k) (drop k marks.now)) }
{
    marks[k..q].iter().position(|x| (*x >> m) % 2 == 1)
}

// Where a find from a begins: the last entry that starts at a or before, or the first.
fn begin(index: &[u64], n: usize, a: u64) -> usize
    requires n_in_bounds { n ≤ length index.now }
    requires rising { Rising index.now n }
    ensures { BeginsAt index.now n a result }
{
    position(index, n, a).saturating_sub(1)
}

// COMMANDS

// What a find asks.
#[derive(Clone, Copy)]
pub struct Sought {
    pub first: u64,
    pub last: u64,
    pub filter: u64,
    pub budget: u64,
}

// A reservation is absent to load, mark and unmark (R203).
fn seen(c: Option<Entry>) -> Option<Entry>
    ensures { result ≡ seen c }
{
    c.filter(|e| !is_reserved(*e))
}

fn found_reply(c: Option<Entry>) -> Reply
    ensures { result ≡ found_reply c }
{
    match c {
        None => answered_as(FIND_REPLY, Answer::Ended, 0, 0),
        Some(e) => answered_by(FIND_REPLY, e, 0),
    }
}

// Takes place k out of n.
fn close(xs: &mut [u64], k: usize, n: usize)
    requires { (k < n) × (n ≤ length xs.old) }
    ensures { Closed xs.old xs.new k n }
{
    pull(xs, k, k + 1, n);
    clear(xs, n - 1, n);
}

impl<'a> EntriesMut<'a> {
    // The same slices, to read.
    fn lent(&self) -> Entries
        ensures { Shown result self.now }
    {
        Entries {
            index: &*self.index,
            order: &*self.order,
            word: &*self.word,
            marks: &*self.marks,
        }
    }

    // Four slices of one length become those of the empty list: answers 0, or 1 with nothing written.
    pub fn init(&mut self) -> Result<(), Answer>
        ensures value { answer_of result ≡ init_answer (lent_mut self.old) }
        ensures marks_after { lent_mut self.new ≡ init_slices (lent_mut self.old) }
        ensures kept { Kept self.old self.new }
    {
        if !self.lent().is_sized() {
            return Err(Answer::PoolLength);
        }
        self.index.fill(0);
        self.order.fill(0);
        self.word.fill(0);
        self.marks.fill(0);
        Ok(())
    }

    // One entry for those from p to q - 1, in all four slices.
    fn put(&mut self, p: usize, q: usize, n: usize, e: Entry)
        requires holds { HeldMut self.old n }
        requires p_le_q { (p ≤ q) × (q ≤ n) }
        requires q_in_bounds { p + 1 + (n - q) ≤ length self.old.index.now }
        ensures list_after { (h : HeldMut self.old n) → Listed self.new (room_in self.old) (replaced p q e h.list) }
        ensures kept { Kept self.old self.new }
    {
        splice(self.index, p, q, n, e.base);
        splice(self.order, p, q, n, e.order);
        splice(self.word, p, q, n, e.word);
        splice(self.marks, p, q, n, e.marks);
    }

    // A store that replaces what starts in its range, where no entry over i has its order or more.
    fn store_new(&mut self, n: usize, i: u64, k: u64, w: u64) -> Option<Stored>
        requires holds { HeldMut self.old n }
        requires k_le_max_order { (k ≤ max_order) × (aligned k i ≡ true) }
        requires list_value { (h : HeldMut self.old n) → any (over i k) h.list ≡ false }
        ensures stores { (h : HeldMut self.old n) → StoresIn h i (store_new h.list i k w) result self.new }
        ensures kept { Kept self.old self.new }
    {
        let s = self.lent();
        let p = starts_below(s.index, n, i);
        let last = i + ((1u64 << k) - 1);
        let q = position(s.index, n, last);
        let count = p + 1 + (n - q);
        if s.index.len() < count {
            return None;
        }
        let entry = Entry {
            base: i,
            order: k,
            word: w,
            marks: kept(s.marks, p, q),
        };
        self.put(p, q, n, entry);
        Some(Stored { entry, count })
    }

    // The entry at place j takes a word, and loses mark 2 (R190).
    fn store_over(&mut self, j: usize, w: u64) -> Entry
        requires j_in_bounds { WithinMut self.old j }
        requires j_bound { get_or self.old.marks.now j 0 < 8 }
        ensures value { result ≡ entry_with self.old.index.now self.old.order.now self.old.marks.now j w }
        ensures others { (self.new.index.now ≡ self.old.index.now) × (self.new.order.now ≡ self.old.order.now) }
        ensures word_after { self.new.word.now ≡ set self.old.word.now j w }
        ensures marks_after { self.new.marks.now ≡ set self.old.marks.now j (set_bit matched_mark false (get_or self.old.marks.now j 0)) }
        ensures kept { Kept self.old self.new }
    {
        let m = self.marks[j] % MATCHED_BIT;
        self.word[j] = w;
        self.marks[j] = m;
        Entry {
            base: self.index[j],
            order: self.order[j],
            word: w,
            marks: m,
        }
    }

    // A store: into the larger entry over i if there is one, else in place of what starts in its range.
    fn store(&mut self, n: usize, i: u64, k: u64, w: u64) -> Option<Stored>
        requires holds { HeldMut self.old n }
        requires k_le_max_order { (k ≤ max_order) × (aligned k i ≡ true) }
        ensures stores { (h : HeldMut self.old n) → StoresIn h i (store h.list i k w) result self.new }
        ensures kept { Kept self.old self.new }
    {
        match self.lent().larger(n, i, k) {
            Some(j) => {
                let entry = self.store_over(j, w);
                Some(Stored { entry, count: n })
            }
            None => self.store_new(n, i, k, w),
        }
    }

    // The tests in the order of their numbers, but for 14, between 5 and 6 (R81, R181).
    pub fn run_store(&mut self, n: usize, i: u64, k: u64, w: u64) -> Turned
        requires { HeldMut self.old n }
        ensures executes { (h : HeldMut self.old n) → ExecutesIn h (Command.Store i k w) result self.new }
        ensures kept { Kept self.old self.new }
    {
        if k > MAX_ORDER {
            return refused(STORE_REPLY, Answer::BadOrder, n);
        }
        if !is_aligned(i, k) {
            return refused(STORE_REPLY, Answer::NotAligned, n);
        }
        if !is_storable(w) {
            return refused(STORE_REPLY, Answer::BadEntry, n);
        }
        let s = self.store(n, i, k, w);
        stored_turn(STORE_REPLY, n, s)
    }

    // A reservation is a store of order 0 where nothing covers the index (R204 to R206).
    pub fn run_reserve(&mut self, n: usize, i: u64) -> Turned
        requires { HeldMut self.old n }
        ensures executes { (h : HeldMut self.old n) → ExecutesIn h (Command.Reserve i) result self.new }
        ensures kept { Kept self.old self.new }
    {
        match self.lent().covering(n, i) {
            None => {
                let s = self.store(n, i, 0, RESERVED);
                stored_turn(RESERVE_REPLY, n, s)
            }
            Some(_) => refused(RESERVE_REPLY, Answer::Covered, n),
        }
    }

    // Takes entry k out, in all four slices.
    fn take_out(&mut self, k: usize, n: usize)
        requires holds { HeldMut self.old n }
        requires k_lt_n { k < n }
        ensures list_after { (h : HeldMut self.old n) → Listed self.new (room_in self.old) (removed k h.list) }
        ensures kept { Kept self.old self.new }
    {
        close(self.index, k, n);
        close(self.order, k, n);
        close(self.word, k, n);
        close(self.marks, k, n);
    }

    fn run_erase(&mut self, n: usize, i: u64) -> Turned
        requires { HeldMut self.old n }
        ensures executes { (h : HeldMut self.old n) → ExecutesIn h (Command.Erase i) result self.new }
        ensures kept { Kept self.old self.new }
    {
        let s = self.lent();
        let Some(k) = s.place(n, i) else {
            return refused(ERASE_REPLY, Answer::Absent, n);
        };
        let e = s.entry_at(k);
        self.take_out(k, n);
        Turned {
            reply: answered_by(ERASE_REPLY, e, 0),
            count: n - 1,
        }
    }

    // A mark where the bit is on, an unmark where it is off: one word changes.
    fn run_remark(&mut self, n: usize, i: u64, m: u64, on: bool) -> Turned
        requires { HeldMut self.old n }
        ensures executes { (h : HeldMut self.old n) → ExecutesIn h (remarking i m on) result self.new }
        ensures kept { Kept self.old self.new }
    {
        let tag = remarked_tag(on);
        if m >= MARKS {
            return refused(tag, Answer::BadMark, n);
        }
        let s = self.lent();
        let Some(k) = s.place(n, i) else {
            return refused(tag, Answer::Absent, n);
        };
        let e = s.entry_at(k);
        if is_reserved(e) {
            return refused(tag, Answer::Absent, n);
        }
        let x = with_bit(e.marks, m, on);
        self.marks[k] = x;
        Turned {
            reply: answered_by(tag, Entry { marks: x, ..e }, 0),
            count: n,
        }
    }

    // One command: its reply, and the number of entries after it.
    pub fn execute(&mut self, n: usize, c: Command) -> Turned
        requires { HeldMut self.old n }
        ensures executes { (h : HeldMut self.old n) → ExecutesIn h c result self.new }
        ensures kept { Kept self.old self.new }
    {
        match c {
            Command::Store {
                index: i,
                order: k,
                word: w,
            } => self.run_store(n, i, k, w),
            Command::Load { index: i } => Turned {
                reply: self.lent().run_load(n, i),
                count: n,
            },
            Command::Erase { index: i } => self.run_erase(n, i),
            Command::Mark { index: i, mark: m } => self.run_remark(n, i, m, true),
            Command::Unmark { index: i, mark: m } => self.run_remark(n, i, m, false),
            Command::Find {
                first,
                last,
                filter,
                budget,
            } => Turned {
                reply: self.lent().run_find(
                    n,
                    Sought {
                        first,
                        last,
                        filter,
                        budget,
                    },
                ),
                count: n,
            },
            Command::Reserve { index: i } => self.run_reserve(n, i),
        }
    }
}
