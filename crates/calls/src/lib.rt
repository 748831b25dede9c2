// The calls on a pool: init, check, run, list and prepare, and the count of a batch by itself. None has a `requires`: each refuses what
// it cannot use, and says what its result is and what is in all that it was lent (R138). Crate xapool exports them.
//
// pool: the borrowed words; batch: the borrowed bytes of the commands; reply: the borrowed bytes for their replies;
// at: a place in the batch; out: a place in the reply; map: the map of the pool's free nodes; bytes: those of one command's record;
// script: the borrowed words for the script.
#![tactic(auto)]

ghost use Rattle.std.specs.Prelude.{◌≡◌, true, List, ◌+◌, ◌≤◌, length, Ok};
ghost use Rattle.answers.specs.Answers.{report_of};
ghost use Rattle.layout.specs.WellFormed.{WellFormed};
ghost use Rattle.freenodes.specs.FreeNodes.{FreeMap};
ghost use Rattle.batch.specs.Batch.{rest_at, counted, parse, read_at};
ghost use Rattle.batch.specs.Batch;
ghost use Rattle.batch.specs.Reply.{reply_bytes};
ghost use Rattle.batch.specs.declared.Read.TheVariants.{Next};
ghost use Rattle.commands.specs.Batches.{Ahead};
ghost use Rattle.verify.specs.Answers.{check_answer, init_words};
ghost use Rattle.execute.specs.Part.{changing};
ghost use Rattle.preparing.specs.Prepare;
ghost use Rattle.calls.specs.Calls;
ghost use Rattle.calls.specs.Calls.{init_result, check_result, count_result};
ghost use Rattle.calls.specs.Running.{Turned, Ends};

use answers::{Answer, Refusal};
use batch::{Command, REPLY_BYTES, Read};
use freemap::MAP_WORDS;

const REPLY_SIZE: u64 = 24;

// One command, with its reply written at `out`.
fn run_one(pool: &mut [u64], map: &mut [u64], c: Command, reply: &mut [u8], out: usize)
    requires well_formed { WellFormed pool.old }
    requires free_map { FreeMap pool.old map.old }
    requires reply_bytes_in_bounds { out + reply_bytes ≤ length reply.old }
    ensures turned { (s : WellFormed pool.old) →
        Turned s c out reply.old pool.new reply.new }
    ensures free_map_2 { FreeMap pool.new map.new }
{
    let r = execute::execute(pool, map, c);
    batch::write_reply(reply, out, r);
}

// The commands of a batch in order, each on the pool that the last one left.
fn run_all(pool: &mut [u64], map: &mut [u64], batch: &[u8], reply: &mut [u8])
    requires well_formed { WellFormed pool.old }
    requires free_map { FreeMap pool.old map.old }
    requires ahead { Ahead batch.now 0 (length reply.old) 0 }
    ensures { (s : WellFormed pool.old) (cs : List Command) →
        rest_at batch.now 0 ≡ Batch.Parsed.commands cs →
        Ends s cs 0 reply.old pool.new reply.new }
{
    let mut at: usize = 0;
    let mut out: usize = 0;
    while at < batch.len() {
        let s = batch::step_at(batch, at);
        let c = s.command;
        run_one(pool, map, c, reply, out);
        at = s.at;
        out = out + REPLY_BYTES;
    }
}

// A batch of k commands, on a pool that the check passed.
fn run_counted(
    pool: &mut [u64],
    map: &mut [u64],
    batch: &[u8],
    reply: &mut [u8],
    k: u64,
) -> Result<u64, Refusal>
    requires pool_value { check_answer pool.old ≡ 0 }
    requires free_map { FreeMap pool.old map.old }
    requires k_value { Ok k ≡ counted (parse batch.now) }
    ensures value { report_of result ≡ (Calls.run pool.old batch.now reply.old).result }
    ensures pool_after { pool.new ≡ (Calls.run pool.old batch.now reply.old).words }
    ensures reply_after { reply.new ≡ (Calls.run pool.old batch.now reply.old).reply }
{
    let room = reply.len() as u64;
    if room / REPLY_SIZE < k {
        return Err(Refusal {
            answer: Answer::ReplySpace,
            number: k,
        });
    }
    run_all(pool, map, batch, reply);
    Ok(k)
}

// Makes every node of a pool free and its list empty (document 01: blanking). Answers 0, or 1 with nothing written.
pub fn init(pool: &mut [u64]) -> Result<u64, Refusal>
    ensures value { report_of result ≡ init_result pool.old }
    ensures pool_after { pool.new ≡ init_words pool.old }
{
    verify::init(pool)?;
    Ok(0)
}

// Whether a pool is well-formed: whether some list of entries prescribes its words. Answers 0, 1 or 2; writes nothing.
pub fn check(pool: &[u64]) -> Result<u64, Refusal>
    ensures value { report_of result ≡ check_result pool.now }
    ensures pool_value { pool.exit.now ≡ pool.entry.now }
{
    verify::check(pool)?;
    Ok(0)
}

// Runs a batch of commands on a pool, and writes 24 bytes of reply for each. Answers 0 to 4; 1 to 4 alter nothing.
pub fn run(pool: &mut [u64], batch: &[u8], reply: &mut [u8]) -> Result<u64, Refusal>
    ensures value { report_of result ≡ (Calls.run pool.old batch.now reply.old).result }
    ensures pool_after { pool.new ≡ (Calls.run pool.old batch.now reply.old).words }
    ensures reply_after { reply.new ≡ (Calls.run pool.old batch.now reply.old).reply }
    ensures batch_value { batch.exit.now ≡ batch.entry.now }
{
    let mut map = [0u64; MAP_WORDS];
    verify::check_map(pool, &mut map)?; // what is refused is refused before the first write
    let k = batch::count(batch)?;
    run_counted(pool, &mut map, batch, reply, k)
}

// How many commands a batch has, read through the reader that holds it: answer 0 and their number, or answer 3 and the
// place of its first bad record.
pub fn count(batch: &[u8]) -> Result<u64, Refusal>
    ensures value { report_of result ≡ count_result batch.now }
    ensures batch_value { batch.exit.now ≡ batch.entry.now }
{
    Ok(reader::count_through(batch)?)
}

// Lists the entries whose run meets first to last, in index order, 21 bytes each. Answers 0, 1, 2, 4 or 8; writes nothing
// in the pool, and in the buffer only with 0.
pub fn list(pool: &[u64], first: u64, last: u64, buffer: &mut [u8]) -> Result<u64, Refusal>
    ensures value { report_of result ≡ (Calls.list pool.now first last buffer.old).result }
    ensures buffer_after { buffer.new ≡ (Calls.list pool.now first last buffer.old).buffer }
    ensures pool_value { pool.exit.now ≡ pool.entry.now }
{
    verify::check(pool)?;
    if last < first {
        return Err(Refusal::from(Answer::FirstAboveLast));
    }
    Ok(listing::list(pool, first, last, buffer)?)
}

// Whether a command can change a pool.
fn changes(c: Command) -> bool
    ensures { result ≡ changing c }
{
    !matches!(c, Command::Load { .. } | Command::Find { .. })
}

// The command that was read at the start of the bytes and ends at a place, on a pool that the check passed.
fn prepare_read(
    pool: &[u64],
    map: &mut [u64],
    bytes: &[u8],
    c: Command,
    at: usize,
    script: &mut [u64],
) -> Result<u64, Refusal>
    requires pool_value { check_answer pool.now ≡ 0 }
    requires free_map { FreeMap pool.now map.old }
    requires at_value { Next c (record { at = at }) ≡ read_at bytes.now 0 }
    ensures value { report_of result ≡ (Prepare.prepare pool.now bytes.now script.old).result }
    ensures script_after { script.new ≡ (Prepare.prepare pool.now bytes.now script.old).slice }
{
    if at != bytes.len() {
        return Err(Refusal::from(Answer::BadBatch));
    }
    if !changes(c) {
        return Err(Refusal::from(Answer::BadBatch));
    }
    prepare::prepare_command(pool, map, c, script)
}

// Prepares a command that can change a pool, given by its record alone: writes the script of the words that running it would change.
// Answers 0 to 7, 10, 11, 14 or 15; writes nothing in the pool, and in the slice only with 0.
pub fn prepare(pool: &[u64], bytes: &[u8], script: &mut [u64]) -> Result<u64, Refusal>
    ensures value { report_of result ≡ (Prepare.prepare pool.now bytes.now script.old).result }
    ensures script_after { script.new ≡ (Prepare.prepare pool.now bytes.now script.old).slice }
    ensures pool_value { pool.exit.now ≡ pool.entry.now }
    ensures bytes_value { bytes.exit.now ≡ bytes.entry.now }
{
    let mut map = [0u64; MAP_WORDS];
    verify::check_map(pool, &mut map)?;
    match batch::read_at(bytes, 0) {
        Read::End | Read::Bad => Err(Refusal::from(Answer::BadBatch)),
        Read::Next(c, k) => prepare_read(pool, &mut map, bytes, c, k.at, script),
    }
}
