// One command of a batch on a pool: its reply, and the pool's words after it.
//
// pool: the borrowed words, well-formed; map: the map of its free nodes; tag: the reply's.
#![tactic(auto)]

ghost use Rattle.std.specs.Prelude.{◌≡◌, true, false, List, ℕ, None};
ghost use Rattle.std.proofs.Math.Option.{some};
ghost use Rattle.batch.specs.Reply.{store_reply, load_reply, find_reply};
ghost use Rattle.model.specs.Model.{reserved_word, matched_mark, covering, covered, remark};
ghost use Rattle.layout.specs.Places.{render};
ghost use Rattle.layout.specs.WellFormed.{WellFormed};
ghost use Rattle.freenodes.specs.FreeNodes.{FreeMap};
ghost use Rattle.execute.specs.Execute.{finding};
ghost use Rattle.commands.specs.Replies.{covered_reply};
ghost use Rattle.execute.specs.Promised.{loaded_reply, reserved_reply, putting, put_of};
ghost use Rattle.execute.specs.Promised.{remarking, reply_to, Settles, Executes};

use answers::Answer;
use batch::{Command, Reply};
use commands::{
    ERASE_REPLY, FIND_REPLY, LOAD_REPLY, RESERVE_REPLY, STORE_REPLY, answered_as, answered_by,
    covered_reply, is_aligned, is_enterable, remarked_tag,
};
use lookup::{Loaded, Outcome};
use model::Entry;
use store::Refused;

// The highest order of an entry, the number of marks, and the filter that takes any entry.
const MAX_ORDER: u64 = 63;

const MARKS: u64 = 3;

const ANY_MARK: u64 = 3;

// The mark that no store hands on (R190).
const MATCHED: u64 = 2;

// What a store or a reservation asks.
#[derive(Clone, Copy)]
struct Put {
    index: u64,
    order: u64,
    word: u64,
    reserve: bool,
}

fn loaded_reply(x: Loaded) -> Reply
    ensures { result ≡ loaded_reply load_reply x }
{
    match x.entry {
        None => answered_as(LOAD_REPLY, Answer::Absent, 0, x.nodes),
        Some(e) => answered_by(LOAD_REPLY, e, x.nodes),
    }
}

fn found_reply(x: Outcome) -> Reply
    ensures { result ≡ finding find_reply x }
{
    match x {
        Outcome::Found(e, n) => answered_by(FIND_REPLY, e, n),
        Outcome::Ended(n) => answered_as(FIND_REPLY, Answer::Ended, 0, n),
        Outcome::Paused(p, n) => answered_as(FIND_REPLY, Answer::Paused, p, n),
    }
}

// The reply to a reservation by what it came to.
fn reserved_reply(x: Result<Entry, Refused>) -> Reply
    ensures { result ≡ reserved_reply x }
{
    match x {
        Ok(e) => answered_by(RESERVE_REPLY, e, 0),
        Err(Refused::Short) => answered_as(RESERVE_REPLY, Answer::TooFewNodes, 0, 0),
        Err(Refused::Taken) => answered_as(RESERVE_REPLY, Answer::Covered, 0, 0),
    }
}

fn run_load(pool: &[u64], index: u64) -> Reply
    requires { WellFormed pool.now }
    ensures { (s : WellFormed pool.now) → result ≡ reply_to s (Command.Load index) }
{
    loaded_reply(lookup::load(pool, index))
}

fn run_find(pool: &[u64], first: u64, last: u64, filter: u64, budget: u64) -> Reply
    requires { WellFormed pool.now }
    ensures { (s : WellFormed pool.now) → result ≡ reply_to s (Command.Find first last filter budget) }
{
    if filter > ANY_MARK {
        return answered_as(FIND_REPLY, Answer::BadMark, 0, 0);
    }
    if first > last {
        return answered_as(FIND_REPLY, Answer::FirstAboveLast, 0, 0);
    }
    if budget == 0 {
        return answered_as(FIND_REPLY, Answer::NoBudget, 0, 0);
    }
    found_reply(lookup::find::find(pool, first, last, filter, budget))
}

// A mark where the bit is on, an unmark where it is off.
fn run_remark(pool: &mut [u64], index: u64, mark: u64, on: bool) -> Reply
    requires { WellFormed pool.old }
    ensures executes { (s : WellFormed pool.old) → Executes s (remarking index mark on) result pool.new }
    ensures by_index { (ms : List ℕ) → FreeMap pool.old ms → FreeMap pool.new ms }
{
    let tag = remarked_tag(on);
    if mark >= MARKS {
        return answered_as(tag, Answer::BadMark, 0, 0);
    }
    let c = marks::set_mark(pool, index, mark, on);
    covered_reply(tag, c)
}

fn run_erase(pool: &mut [u64], map: &mut [u64], index: u64) -> Reply
    requires well_formed { WellFormed pool.old }
    requires free_map { FreeMap pool.old map.old }
    ensures executes { (s : WellFormed pool.old) → Executes s (Command.Erase index) result pool.new }
    ensures free_map_2 { FreeMap pool.new map.new }
{
    let c = erase::erase(pool, map, index);
    covered_reply(ERASE_REPLY, c)
}

// Clears mark 2 of the entry e that covers the index (R190); the reply of a store that left it. Where e does not have the
// mark, this is one test.
fn unmatch(pool: &mut [u64], index: u64, e: Entry) -> Reply
    requires { WellFormed pool.old }
    ensures value { (s : WellFormed pool.old) → covering s.list index ≡ some e →
        result ≡ covered_reply store_reply (covered (covering (remark s.list index matched_mark false) index)) }
    ensures pool_after { (s : WellFormed pool.old) → covering s.list index ≡ some e →
        pool.new ≡ render (remark s.list index matched_mark false) s.places s.n }
{
    if (e.marks >> MATCHED) % 2 == 1 {
        let r = run_remark(pool, index, MATCHED, false);
        return Reply {
            tag: STORE_REPLY,
            ..r
        };
    }
    answered_by(STORE_REPLY, e, 0)
}

// The reply to a store by what it came to; only a reservation is refused for what covers its index.
fn stored_reply(pool: &mut [u64], index: u64, x: Result<Entry, Refused>) -> Reply
    requires { WellFormed pool.old }
    ensures { (s : WellFormed pool.old) → Settles s index x result pool.new }
{
    match x {
        Ok(e) => unmatch(pool, index, e),
        Err(_) => answered_as(STORE_REPLY, Answer::TooFewNodes, 0, 0),
    }
}

// The reply to a store, or to a reservation, by what it came to.
fn put_reply(pool: &mut [u64], index: u64, x: Result<Entry, Refused>, reserve: bool) -> Reply
    requires { reserve ≡ false → WellFormed pool.old }
    ensures value { reserve ≡ true → (result ≡ reserved_reply x) × (pool.new ≡ pool.old) }
    ensures settles { reserve ≡ false → (s : WellFormed pool.old) → Settles s index x result pool.new }
{
    if reserve {
        return reserved_reply(x);
    }
    stored_reply(pool, index, x)
}

// A store; or a reservation, which is a store of order 0 with its word where nothing covers the index. Both have the one
// call of crate store, so that it is inlined.
fn run_store(
    pool: &mut [u64],
    map: &mut [u64],
    index: u64,
    order: u64,
    word: u64,
    reserve: bool,
) -> Reply
    requires well_formed { WellFormed pool.old }
    requires free_map { FreeMap pool.old map.old }
    requires order_value { reserve ≡ true → (order ≡ 0) × (word ≡ reserved_word) }
    ensures executes { (s : WellFormed pool.old) →
        Executes s (putting index order word reserve) result pool.new }
    ensures free_map_2 { FreeMap pool.new map.new }
{
    if order > MAX_ORDER {
        return answered_as(STORE_REPLY, Answer::BadOrder, 0, 0);
    }
    let aligned = is_aligned(index, order);
    let enterable = is_enterable(word, reserve);
    if !aligned {
        return answered_as(STORE_REPLY, Answer::NotAligned, 0, 0);
    }
    if !enterable {
        return answered_as(STORE_REPLY, Answer::BadEntry, 0, 0);
    }
    let outcome = store::store(pool, map, index, order, word);
    put_reply(pool, index, outcome, reserve)
}

// What a command asks of a store, if it is one or a reservation.
fn as_put(c: Command) -> Option<Put>
    ensures { result ≡ put_of c }
{
    match c {
        Command::Store { index, order, word } => Some(Put {
            index,
            order,
            word,
            reserve: false,
        }),
        Command::Reserve { index } => Some(Put {
            index,
            order: 0,
            word: model::RESERVED,
            reserve: true,
        }),
        _ => None,
    }
}

// Any command but a store and a reservation.
fn run_other(pool: &mut [u64], map: &mut [u64], c: Command) -> Reply
    requires well_formed { WellFormed pool.old }
    requires free_map { FreeMap pool.old map.old }
    requires c_value { put_of c ≡ None }
    ensures executes { (s : WellFormed pool.old) → Executes s c result pool.new }
    ensures free_map_2 { FreeMap pool.new map.new }
{
    match c {
        Command::Load { index } => run_load(pool, index),
        Command::Erase { index } => run_erase(pool, map, index),
        Command::Mark { index, mark } => run_remark(pool, index, mark, true),
        Command::Unmark { index, mark } => run_remark(pool, index, mark, false),
        Command::Find {
            first,
            last,
            filter,
            budget,
        } => run_find(pool, first, last, filter, budget),
        Command::Store { .. } | Command::Reserve { .. } => unreachable!(),
    }
}

// One command: its reply. The map goes on as that of the pool after it.
pub fn execute(pool: &mut [u64], map: &mut [u64], c: Command) -> Reply
    requires well_formed { WellFormed pool.old }
    requires free_map { FreeMap pool.old map.old }
    ensures executes { (s : WellFormed pool.old) → Executes s c result pool.new }
    ensures free_map_2 { FreeMap pool.new map.new }
{
    match as_put(c) {
        Some(p) => run_store(pool, map, p.index, p.order, p.word, p.reserve),
        None => run_other(pool, map, c),
    }
}
