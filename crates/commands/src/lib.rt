// What every engine's commands share: the tests of fields, and the replies.
//
// tag: the reply's.
#![tactic(auto)]

ghost use Rattle.std.specs.Prelude.{◌≡◌, ◌≤◌};
ghost use Rattle.answers.specs.Answers.{number_of};
ghost use Rattle.blocks.specs.Choice.{pick, either};
ghost use Rattle.model.specs.Model.{storable, max_order, aligned};
ghost use Rattle.batch.specs.Reply.{mark_reply, unmark_reply, answered, answered_by};
ghost use Rattle.commands.specs.Replies.{covered_reply};

use answers::{Answer, DONE};
use batch::Reply;
use model::{Entry, shown_word};
use words::pow2;

// The tags of replies: each its command's plus 128.
pub const STORE_REPLY: u64 = 129;

pub const LOAD_REPLY: u64 = 130;

pub const ERASE_REPLY: u64 = 131;

pub const MARK_REPLY: u64 = 132;

pub const UNMARK_REPLY: u64 = 133;

pub const FIND_REPLY: u64 = 134;

pub const RESERVE_REPLY: u64 = 135;

// TESTS

// An entry's word (R6).
pub fn is_storable(word: u64) -> bool
    ensures { result ≡ storable word }
{
    if word == 0 {
        return false;
    }
    word / 4 * 4 + 2 != word
}

// A store's word, or that of a reservation.
pub fn is_enterable(word: u64, reserve: bool) -> bool
    ensures { result ≡ either reserve (storable word) }
{
    if reserve {
        return true;
    }
    is_storable(word)
}

// A store's index is a multiple of 2^order (R180).
pub fn is_aligned(index: u64, order: u64) -> bool
    requires { order ≤ max_order }
    ensures { result ≡ aligned order index }
{
    index % pow2(order) == 0
}

// REPLIES

// The tag of a mark's reply, or of an unmark's.
pub fn remarked_tag(on: bool) -> u64
    ensures { result ≡ pick on mark_reply unmark_reply }
{
    if on { MARK_REPLY } else { UNMARK_REPLY }
}

// An answer by its number, with an index and a count, all else 0.
pub fn answered(tag: u64, answer: u64, index: u64, count: u64) -> Reply
    ensures { result ≡ answered tag answer index count }
{
    Reply {
        tag,
        answer,
        index,
        order: 0,
        word: 0,
        marks: 0,
        count,
    }
}

// The same of an answer that is not done.
pub fn answered_as(tag: u64, answer: Answer, index: u64, count: u64) -> Reply
    ensures { result ≡ answered tag (number_of answer) index count }
{
    answered(tag, answer.number(), index, count)
}

// Done, with an entry or a reservation and a count.
pub fn answered_by(tag: u64, e: Entry, count: u64) -> Reply
    ensures { result ≡ answered_by tag e count }
{
    let word = shown_word(e);
    Reply {
        tag,
        answer: DONE,
        index: e.base,
        order: e.order,
        word,
        marks: e.marks,
        count,
    }
}

pub fn covered_reply(tag: u64, c: Option<Entry>) -> Reply
    ensures { result ≡ covered_reply tag c }
{
    match c {
        None => answered_as(tag, Answer::Absent, 0, 0),
        Some(e) => answered_by(tag, e, 0),
    }
}
