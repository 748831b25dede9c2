// The calls of the plain engine: init, check and run. None has a `requires`: each refuses what it cannot use, and says what its
// result is and what is in all that it was lent. Crate xapool exports them.
//
// index, order, word, marks: the borrowed slices; n: how many entries they hold; batch: the borrowed bytes of the commands;
// reply: the borrowed bytes for their replies; at: a place in the batch; out: a place in the reply.
#![tactic(auto)]

ghost use Rattle.std.specs.Prelude.{◌≡◌, List, ◌+◌, ◌≤◌, length, Ok};
ghost use Rattle.answers.specs.Answers.{report_of};
ghost use Rattle.batch.specs.Batch.{rest_at, counted, parse};
ghost use Rattle.batch.specs.Batch;
ghost use Rattle.batch.specs.Reply.{reply_bytes};
ghost use Rattle.commands.specs.Batches.{Ahead};
ghost use Rattle.xaplain.specs.Slices.{slices, check_answer, init_slices};
ghost use Rattle.xaplain.specs.Lent.{room_in, HeldMut, Kept};
ghost use Rattle.xaplain_calls.specs.Calls;
ghost use Rattle.xaplain_calls.specs.Calls.{init_result, check_result};
ghost use Rattle.xaplain_calls.specs.Running.{TurnsIn, EndsIn};

use answers::{Answer, Refusal};
use batch::{Command, REPLY_BYTES};
use xaplain::{Entries, EntriesMut};

const REPLY_SIZE: u64 = 24;

// One command, with its reply written at `out`: the number of entries after it.
fn run_one(s: &mut EntriesMut, n: usize, c: Command, reply: &mut [u8], out: usize) -> usize
    requires holds { HeldMut s.old n }
    requires reply_bytes_in_bounds { out + reply_bytes ≤ length reply.old }
    ensures turns { (h : HeldMut s.old n) → TurnsIn h c out reply.old result s.new reply.new }
    ensures kept { Kept s.old s.new }
{
    let t = s.execute(n, c);
    batch::write_reply(reply, out, t.reply);
    t.count
}

// The commands of a batch in order, each on the entries that the last one left.
fn run_all(s: &mut EntriesMut, n: usize, batch: &[u8], reply: &mut [u8])
    requires holds { HeldMut s.old n }
    requires ahead { Ahead batch.now 0 (length reply.old) 0 }
    ensures ends { (h : HeldMut s.old n) (cs : List Command) →
        rest_at batch.now 0 ≡ Batch.Parsed.commands cs →
        EndsIn (room_in s.old) h.list cs 0 reply.old s.new reply.new }
    ensures kept { Kept s.old s.new }
{
    let mut at: usize = 0;
    let mut out: usize = 0;
    let mut entries = n;
    while at < batch.len() {
        let r = batch::record_at(batch, at);
        let c = r.command;
        entries = run_one(s, entries, c, reply, out);
        at = r.at;
        out = out + REPLY_BYTES;
    }
}

// A batch of k commands, on slices that the check passed. Slice by slice: that they hold 64-bit words, which it goes by, is a fact
// of a `&mut [u64]` that a proof can name, and not of one in a struct.
fn run_counted(
    index: &mut [u64],
    order: &mut [u64],
    word: &mut [u64],
    marks: &mut [u64],
    batch: &[u8],
    reply: &mut [u8],
    k: u64,
) -> Result<u64, Refusal>
    requires marks_value { check_answer (slices index.old order.old word.old marks.old) ≡ 0 }
    requires k_value { Ok k ≡ counted (parse batch.now) }
    ensures value { report_of result ≡ (Calls.run (slices index.old order.old word.old marks.old)
        batch.now reply.old).result }
    ensures marks_after { slices index.new order.new word.new marks.new ≡
        (Calls.run (slices index.old order.old word.old marks.old)
        batch.now reply.old).slices }
    ensures reply_after { reply.new ≡ (Calls.run (slices index.old order.old word.old marks.old)
        batch.now reply.old).reply }
{
    let room = reply.len() as u64;
    if room / REPLY_SIZE < k {
        return Err(Refusal {
            answer: Answer::ReplySpace,
            number: k,
        });
    }
    let n = xaplain::count(word);
    let mut s = EntriesMut {
        index,
        order,
        word,
        marks,
    };
    run_all(&mut s, n, batch, reply);
    Ok(k)
}

// Makes the list in the slices empty. Answers 0, or 1 with nothing written.
pub fn init(
    index: &mut [u64],
    order: &mut [u64],
    word: &mut [u64],
    marks: &mut [u64],
) -> Result<u64, Refusal>
    ensures value { report_of result ≡ init_result (slices index.old order.old word.old marks.old) }
    ensures marks_after { slices index.new order.new word.new marks.new ≡
        init_slices (slices index.old order.old word.old marks.old) }
{
    let mut s = EntriesMut {
        index,
        order,
        word,
        marks,
    };
    s.init()?;
    Ok(0)
}

// Whether the slices hold a list and then zeros. Answers 0, 1 or 2; writes nothing.
pub fn check(index: &[u64], order: &[u64], word: &[u64], marks: &[u64]) -> Result<u64, Refusal>
    ensures value { report_of result ≡ check_result (slices index.now order.now word.now marks.now) }
    ensures marks_value { slices index.exit.now order.exit.now word.exit.now marks.exit.now ≡
        slices index.entry.now order.entry.now word.entry.now marks.entry.now }
{
    Entries {
        index,
        order,
        word,
        marks,
    }
    .check()?;
    Ok(0)
}

// Runs a batch of commands on the slices, and writes 24 bytes of reply for each. Answers 0 to 4; 1 to 4 alter nothing.
pub fn run(
    index: &mut [u64],
    order: &mut [u64],
    word: &mut [u64],
    marks: &mut [u64],
    batch: &[u8],
    reply: &mut [u8],
) -> Result<u64, Refusal>
    ensures value { report_of result ≡ (Calls.run (slices index.old order.old word.old marks.old)
        batch.now reply.old).result }
    ensures marks_after { slices index.new order.new word.new marks.new ≡
        (Calls.run (slices index.old order.old word.old marks.old)
        batch.now reply.old).slices }
    ensures reply_after { reply.new ≡ (Calls.run (slices index.old order.old word.old marks.old)
        batch.now reply.old).reply }
    ensures batch_value { batch.exit.now ≡ batch.entry.now }
{
    let s = Entries {
        index,
        order,
        word,
        marks,
    };
    s.check()?; // what is refused is refused before the first write
    let k = reader::count_through(batch)?;
    run_counted(index, order, word, marks, batch, reply, k)
}
