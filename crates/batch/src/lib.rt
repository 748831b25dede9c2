// Batches of commands (document 01: sheets) and their replies, as bytes.
//
// batch: the borrowed bytes; at: a place in them; a record is a tag byte, a length of two bytes and that many bytes of
// fields; reply: the borrowed bytes of the replies.
#![tactic(auto)]

ghost use Rattle.std.specs.Prelude.{◌≡◌, true, ◌≢◌, ◌+◌, ◌<◌, ◌≤◌, length, Some, None};
ghost use Rattle.words.specs.Bytes.{number_at, overwrite};
ghost use Rattle.batch.specs.Batch.{field_bytes, head_bytes, command_at, is_record, next_at, read_at, rest_at, counted, parse};
ghost use Rattle.batch.specs.declared.Read.TheVariants.{Next};
ghost use Rattle.batch.specs.Refusing.{refusal_of};
ghost use Rattle.blocks.specs.Choice.{pick};
ghost use Rattle.batch.specs.Reply.{reply_bytes, encode};

use answers::{Answer, Refusal};
use words::{number1, number2, number8, put1, put2, put8};

// The longest batch, the bytes of a record before its fields, and the bytes of a reply.
pub const MAX_BATCH: usize = 32768;

const HEAD_BYTES: usize = 3;

pub const REPLY_BYTES: usize = 24;

// A command of a batch.
#[derive(Clone, Copy)]
pub enum Command {
    Store {
        index: u64,
        order: u64,
        word: u64,
    },
    Load {
        index: u64,
    },
    Erase {
        index: u64,
    },
    Mark {
        index: u64,
        mark: u64,
    },
    Unmark {
        index: u64,
        mark: u64,
    },
    Find {
        first: u64,
        last: u64,
        filter: u64,
        budget: u64,
    },
    Reserve {
        index: u64,
    },
}

// A position in a batch.
#[derive(Clone, Copy)]
pub struct Cursor {
    pub at: usize,
}

// What reading at a position finds: a command, with the position after its record; a bad record; the batch's end. It has
// three outcomes, and so a name for each: a Result of an Option would be no plainer.
#[derive(Clone, Copy)]
pub enum Read {
    Next(Command, Cursor),
    Bad,
    End,
}

// A command, and the place after its record.
#[derive(Clone, Copy)]
pub struct Step {
    pub command: Command,
    pub at: usize,
}

// Why a batch is refused: the place of its first bad record.
#[derive(Clone, Copy, PartialEq, Eq)]
pub struct BadRecord {
    pub at: u64,
}

// A call refuses such a batch, with that place.
impl From<BadRecord> for Refusal {
    ghost from_gives = { λ bad r. r ≡ refusal_of bad };

    fn from(bad: BadRecord) -> Refusal {
        Refusal {
            answer: Answer::BadBatch,
            number: bad.at,
        }
    }
}

// The fields of a reply.
#[derive(Clone, Copy)]
pub struct Reply {
    pub tag: u64,
    pub answer: u64,
    pub index: u64,
    pub order: u64,
    pub word: u64,
    pub marks: u64,
    pub count: u64,
}

fn store_at(s: &[u8], at: usize) -> Command
    requires { at + 17 ≤ length s.now }
    ensures { result ≡ command_at s.now 1 at }
{
    let index = number8(s, at);
    let order = number1(s, at + 8);
    let word = number8(s, at + 9);
    Command::Store { index, order, word }
}

fn find_at(s: &[u8], at: usize) -> Command
    requires { at + 19 ≤ length s.now }
    ensures { result ≡ command_at s.now 6 at }
{
    let first = number8(s, at);
    let last = number8(s, at + 8);
    let filter = number1(s, at + 16);
    let budget = number2(s, at + 17);
    Command::Find {
        first,
        last,
        filter,
        budget,
    }
}

// The command of a tag whose fields begin at a place.
fn command_at(s: &[u8], tag: u64, at: usize) -> Command
    requires { (field_bytes tag ≢ 0) × (at + field_bytes tag ≤ length s.now) }
    ensures { result ≡ command_at s.now tag at }
{
    match tag {
        1 => store_at(s, at),
        2 => Command::Load {
            index: number8(s, at),
        },
        3 => Command::Erase {
            index: number8(s, at),
        },
        4 => Command::Mark {
            index: number8(s, at),
            mark: number1(s, at + 8),
        },
        5 => Command::Unmark {
            index: number8(s, at),
            mark: number1(s, at + 8),
        },
        6 => find_at(s, at),
        _ => Command::Reserve {
            index: number8(s, at),
        },
    }
}

// The command of a tag other than a store's and a find's. With `step_at` it is left to the tree's loop, where both are inlined: a
// second caller of either would cost each command of the tree some 5 ns.
fn rest_at(s: &[u8], tag: u64, at: usize) -> Command
    requires tag_nonzero { (field_bytes tag ≢ 0) × (at + field_bytes tag ≤ length s.now) }
    requires tag_nonzero_2 { (tag ≢ 1) × (tag ≢ 6) }
    ensures { result ≡ command_at s.now tag at }
{
    match tag {
        2 => Command::Load {
            index: number8(s, at),
        },
        3 => Command::Erase {
            index: number8(s, at),
        },
        4 => Command::Mark {
            index: number8(s, at),
            mark: number1(s, at + 8),
        },
        5 => Command::Unmark {
            index: number8(s, at),
            mark: number1(s, at + 8),
        },
        _ => Command::Reserve {
            index: number8(s, at),
        },
    }
}

// The place after the record at a place, by its tag and length alone, unless the record is bad. Each tag has an arm with
// its own length, and with the head's three bytes: joined, or by a table, every record would wait for the one before it.
fn skip_at(batch: &[u8], at: usize) -> Option<usize>
    requires { at < length batch.now }
    ensures { result ≡ pick (is_record batch.now at) (Some (next_at batch.now at).at) None }
{
    let room = batch.len() - at;
    if room < HEAD_BYTES {
        return None;
    }
    match (number1(batch, at), number2(batch, at + 1)) {
        (1, 17) if 20 <= room => Some(at + 20),
        (2, 8) if 11 <= room => Some(at + 11),
        (3, 8) if 11 <= room => Some(at + 11),
        (4, 9) if 12 <= room => Some(at + 12),
        (5, 9) if 12 <= room => Some(at + 12),
        (6, 19) if 22 <= room => Some(at + 22),
        (7, 8) if 11 <= room => Some(at + 11),
        _ => None,
    }
}

// What stands at a place of a batch.
pub fn read_at(batch: &[u8], at: usize) -> Read
    ensures { result ≡ read_at batch.now at }
{
    if batch.len() <= at {
        return Read::End;
    }
    let Some(next) = skip_at(batch, at) else {
        return Read::Bad;
    };
    let tag = number1(batch, at);
    Read::Next(command_at(batch, tag, at + HEAD_BYTES), Cursor { at: next })
}

// The command at a place where a good record stands: what `count` has looked at is not tested again. It is the tree's alone; others have
// `record_at`.
pub fn step_at(batch: &[u8], at: usize) -> Step
    requires { is_record batch.now at ≡ true }
    ensures { Next result.command (record { at = result.at }) ≡ read_at batch.now at }
{
    let tag = number1(batch, at);
    let start = at + HEAD_BYTES;
    match tag {
        1 => Step {
            command: Command::Store {
                index: number8(batch, start),
                order: number1(batch, start + 8),
                word: number8(batch, start + 9),
            },
            at: start + 17,
        },
        6 => Step {
            command: Command::Find {
                first: number8(batch, start),
                last: number8(batch, start + 8),
                filter: number1(batch, start + 16),
                budget: number2(batch, start + 17),
            },
            at: start + 19,
        },
        _ => Step {
            command: rest_at(batch, tag, start),
            at: start + number2(batch, at + 1) as usize,
        },
    }
}

// The same for any other loop.
pub fn record_at(batch: &[u8], at: usize) -> Step
    requires { is_record batch.now at ≡ true }
    ensures { Next result.command (record { at = result.at }) ≡ read_at batch.now at }
{
    let tag = number1(batch, at);
    let start = at + HEAD_BYTES;
    let command = command_at(batch, tag, start);
    let next = start + number2(batch, at + 1) as usize;
    Step { command, at: next }
}

// The whole batch from its beginning, where it is not too long; no field is decoded.
fn count_records(batch: &[u8]) -> Result<u64, BadRecord>
    ensures { result ≡ counted (rest_at batch.now 0) }
{
    let mut at: usize = 0;
    let mut n: u64 = 0;
    while at < batch.len() {
        let Some(next) = skip_at(batch, at) else {
            return Err(BadRecord { at: at as u64 });
        };
        at = next;
        n += 1;
    }
    Ok(n)
}

// How many commands a batch has, or the place of its first bad record.
pub fn count(batch: &[u8]) -> Result<u64, BadRecord>
    ensures { result ≡ counted (parse batch.now) }
{
    if batch.len() > MAX_BATCH {
        return Err(BadRecord {
            at: MAX_BATCH as u64,
        });
    }
    count_records(batch)
}

// The 24 bytes of a reply, from a place on.
pub fn write_reply(out: &mut [u8], at: usize, r: Reply)
    requires { at + reply_bytes ≤ length out.old }
    ensures { out.new ≡ overwrite out.old at (encode r) }
{
    put1(out, at + 0, r.tag);
    put2(out, at + 1, 21);
    put1(out, at + 3, r.answer);
    put8(out, at + 4, r.index);
    put1(out, at + 12, r.order);
    put8(out, at + 13, r.word);
    put1(out, at + 21, r.marks);
    put2(out, at + 22, r.count);
}
