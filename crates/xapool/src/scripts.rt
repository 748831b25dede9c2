// The calls on a pool and an edit script (P11).
ghost use Rattle.std.specs.Prelude.{◌≡◌};
ghost use Rattle.script.specs.Script.{apply_result, apply_words};
ghost use Rattle.preparing.specs.Prepare.{prepare};

use answers::Report;

/// Prepares a command that can change a pool, given by its record alone: writes the script of the words that running it would change.
/// Answers 0 to 7, 10, 11, 14 or 15; writes nothing in the pool, and in the script only with 0. With 0 and 4 the number is the
/// script's length in words.
#[unsafe(no_mangle)]
pub extern "C" fn xapool_prepare(pool: &[u64], record: &[u8], script: &mut [u64]) -> Report
    ensures value { result ≡ (prepare pool.now «record».now script.old).result }
    ensures script_after { script.new ≡ (prepare pool.now «record».now script.old).slice }
    ensures pool_value { pool.exit.now ≡ pool.entry.now }
    ensures record_value { «record».exit.now ≡ «record».entry.now }
{
    Report::from(calls::prepare(pool, record, script))
}

/// Writes each word of a script, pairs of a place and a word, whatever the pool holds. Answers 0, or 1 or 17 with nothing
/// written.
#[unsafe(no_mangle)]
pub extern "C" fn xapool_apply(pool: &mut [u64], script: &[u64]) -> Report
    ensures value { result ≡ apply_result pool.old script.now }
    ensures pool_after { pool.new ≡ apply_words pool.old script.now }
    ensures script_value { script.exit.now ≡ script.entry.now }
{
    Report::from(script::apply(pool, script))
}
