// The calls on a pool, for a host: init, check, run and list, and the count of a batch by itself. None has a `requires`: each
// refuses what it cannot use, and says what its result is and what is in all that it was lent (R138).
//
// pool: the borrowed words; batch: the borrowed bytes of the commands; reply: the borrowed bytes for their replies.
ghost use Rattle.std.specs.Prelude.{◌≡◌};
ghost use Rattle.verify.specs.Answers.{init_words};
ghost use Rattle.calls.specs.Calls;
ghost use Rattle.calls.specs.Calls.{init_result, check_result, count_result};

use answers::Report;

/// Makes every node of a pool free and its list empty (document 01: blanking). Answers 0, or 1 with nothing written.
#[unsafe(no_mangle)]
pub extern "C" fn xapool_init(pool: &mut [u64]) -> Report
    ensures value { result ≡ init_result pool.old }
    ensures pool_after { pool.new ≡ init_words pool.old }
{
    Report::from(calls::init(pool))
}

/// Whether a pool is well-formed: whether some list of entries prescribes its words. Answers 0, 1 or 2; writes nothing.
#[unsafe(no_mangle)]
pub extern "C" fn xapool_check(pool: &[u64]) -> Report
    ensures value { result ≡ check_result pool.now }
    ensures pool_value { pool.exit.now ≡ pool.entry.now }
{
    Report::from(calls::check(pool))
}

/// Runs a batch of commands on a pool, and writes 24 bytes of reply for each. Answers 0 to 4; 1 to 4 alter nothing.
#[unsafe(no_mangle)]
pub extern "C" fn xapool_run(pool: &mut [u64], batch: &[u8], reply: &mut [u8]) -> Report
    ensures value { result ≡ (Calls.run pool.old batch.now reply.old).result }
    ensures pool_after { pool.new ≡ (Calls.run pool.old batch.now reply.old).words }
    ensures reply_after { reply.new ≡ (Calls.run pool.old batch.now reply.old).reply }
    ensures batch_value { batch.exit.now ≡ batch.entry.now }
{
    Report::from(calls::run(pool, batch, reply))
}

/// How many commands a batch has, read through the reader that holds it: answer 0 and their number, or answer 3 and the
/// place of its first bad record.
#[unsafe(no_mangle)]
pub extern "C" fn xapool_count(batch: &[u8]) -> Report
    ensures value { result ≡ count_result batch.now }
    ensures batch_value { batch.exit.now ≡ batch.entry.now }
{
    Report::from(calls::count(batch))
}

/// Lists the entries whose run meets first to last, in index order, 21 bytes each. Answers 0, 1, 2, 4 or 8; writes nothing
/// in the pool, and in the buffer only with 0.
#[unsafe(no_mangle)]
pub extern "C" fn xapool_list(pool: &[u64], first: u64, last: u64, buffer: &mut [u8]) -> Report
    ensures value { result ≡ (Calls.list pool.now first last buffer.old).result }
    ensures buffer_after { buffer.new ≡ (Calls.list pool.now first last buffer.old).buffer }
    ensures pool_value { pool.exit.now ≡ pool.entry.now }
{
    Report::from(calls::list(pool, first, last, buffer))
}
