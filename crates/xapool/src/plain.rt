// The calls of the plain engine, for a host: init, check and run. None has a `requires`: each refuses what it cannot use, and
// says what its result is and what is in all that it was lent.
//
// index, order, word, marks: the borrowed slices; batch: the borrowed bytes of the commands; reply: the borrowed bytes for
// their replies.
ghost use Rattle.std.specs.Prelude.{◌≡◌};
ghost use Rattle.xaplain.specs.Slices.{slices, init_slices};
ghost use Rattle.xaplain_calls.specs.Calls;
ghost use Rattle.xaplain_calls.specs.Calls.{init_result, check_result};

use answers::Report;

/// Makes the list in the slices empty. Answers 0, or 1 with nothing written.
#[unsafe(no_mangle)]
pub extern "C" fn xaplain_init(
    index: &mut [u64],
    order: &mut [u64],
    word: &mut [u64],
    marks: &mut [u64],
) -> Report
    ensures value { result ≡ init_result (slices index.old order.old word.old marks.old) }
    ensures marks_after { slices index.new order.new word.new marks.new ≡
        init_slices (slices index.old order.old word.old marks.old) }
{
    Report::from(xaplain_calls::init(index, order, word, marks))
}

/// Whether the slices hold a list and then zeros. Answers 0, 1 or 2; writes nothing.
#[unsafe(no_mangle)]
pub extern "C" fn xaplain_check(index: &[u64], order: &[u64], word: &[u64], marks: &[u64]) -> Report
    ensures value { result ≡ check_result (slices index.now order.now word.now marks.now) }
    ensures marks_value { slices index.exit.now order.exit.now word.exit.now marks.exit.now ≡
        slices index.entry.now order.entry.now word.entry.now marks.entry.now }
{
    Report::from(xaplain_calls::check(index, order, word, marks))
}

/// Runs a batch of commands on the slices, and writes 24 bytes of reply for each. Answers 0 to 4; 1 to 4 alter nothing.
#[unsafe(no_mangle)]
pub extern "C" fn xaplain_run(
    index: &mut [u64],
    order: &mut [u64],
    word: &mut [u64],
    marks: &mut [u64],
    batch: &[u8],
    reply: &mut [u8],
) -> Report
    ensures value { result ≡ (Calls.run (slices index.old order.old word.old marks.old)
        batch.now reply.old).result }
    ensures marks_after { slices index.new order.new word.new marks.new ≡
        (Calls.run (slices index.old order.old word.old marks.old)
        batch.now reply.old).slices }
    ensures reply_after { reply.new ≡ (Calls.run (slices index.old order.old word.old marks.old)
        batch.now reply.old).reply }
    ensures batch_value { batch.exit.now ≡ batch.entry.now }
{
    Report::from(xaplain_calls::run(index, order, word, marks, batch, reply))
}
