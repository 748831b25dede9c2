// The program: a pool of 40 nodes just initialised, one batch from standard input, its replies to standard output. A
// refused call is one record of six bytes: tag 255, length 3, the answer, and the place in two bytes (R56).
#![tactic(auto)]

ghost use Rattle.std.specs.Prelude.{◌≤◌, ◌≡◌, length, take};
ghost use Rattle.std.specs.Io.KnownBytes.{Consumes};
ghost use Rattle.tamburish.specs.Program;
ghost use Rattle.tamburish.specs.Program.{ran, refusal_size, refusal_over, input_bytes, output_bytes, written};

use answers::Answer;
use std::io::{Read, Write};

// 4 + 70 * 40 words for 40 nodes.
const POOL_WORDS: usize = 2804;
// The longest batch that the program takes (R230); one byte more is read, so that a longer one is seen to be too long.
const MAX_INPUT: usize = 8192;

const INPUT_BYTES: usize = MAX_INPUT + 1;
// 24 bytes for each of the 744 commands that fit into 8,192 bytes, the shortest having 11.
const OUTPUT_BYTES: usize = 17856;

const REPLY_BYTES: u64 = 24;

const REFUSAL_BYTES: usize = 6;

// The record of a refused call.
fn refusal(reply: &mut [u8], answer: u64, place: u64) -> usize
    requires { refusal_size ≤ length reply.old }
    ensures value { result ≡ refusal_size }
    ensures reply_after { reply.new ≡ refusal_over answer place reply.old }
{
    reply[0] = 255;
    reply[1] = 0;
    reply[2] = 3;
    reply[3] = (answer % 256) as u8;
    reply[4] = (place / 256 % 256) as u8;
    reply[5] = (place % 256) as u8;
    REFUSAL_BYTES
}

// Initialises the pool and runs the batch on it, unless that is too long; how many bytes of `reply` are to be written.
fn respond(pool: &mut [u64], batch: &[u8], reply: &mut [u8]) -> usize
    requires { refusal_size ≤ length reply.old }
    ensures value { result ≡ Program.size (ran pool.old batch.now reply.old) }
    ensures upper_bound { result ≤ length reply.old }
    ensures reply_after { reply.new ≡ Program.space (ran pool.old batch.now reply.old) }
    ensures pool_after { pool.new ≡ (ran pool.old batch.now reply.old).words }
{
    if batch.len() > MAX_INPUT {
        return refusal(reply, Answer::BadBatch.number(), MAX_INPUT as u64);
    }
    let _ = calls::init(pool);
    match calls::run(pool, batch, reply) {
        Ok(n) => (REPLY_BYTES * n) as usize,
        Err(r) => refusal(reply, r.answer.number(), r.number),
    }
}

// What the program does with the n bytes that it read, on a pool of its own: how many bytes of `output` are to be written. The
// input has room for one byte more than the program takes.
fn answer(input: &[u8], n: usize, output: &mut [u8]) -> usize
    requires n_le_input_bytes { (n ≤ input_bytes) × (length input.now ≡ input_bytes) }
    requires output_len { length output.old ≡ output_bytes }
    ensures upper_bound { result ≤ output_bytes }
    ensures output_after { take result output.new ≡ written (take n input.now) }
{
    let mut pool = [0u64; POOL_WORDS];
    respond(&mut pool, &input[..n], output)
}

// Reads until `space` is full, the input ends or a read fails; how many bytes it put at the start of `space`.
fn read_full<R: Read>(input: &mut R, space: &mut [u8]) -> usize
    ensures upper_bound { result ≤ length space.new }
    ensures bytes { Consumes (R.remaining input.old) (R.remaining input.new) (take result space.new) }
{
    let mut done = 0;
    while done < space.len() {
        match input.read(&mut space[done..]) {
            Ok(0) | Err(_) => return done,
            Ok(n) => done += n,
        }
    }
    done
}

// Writes all of `bytes`, or stops at the first write that takes nothing or fails, which is told in no other way. (std's `write_all`
// tries again where a write was interrupted, and read_exact where a read was.)
fn write_all<W: Write>(output: &mut W, bytes: &[u8]) {
    let mut rest = bytes;
    while !rest.is_empty() {
        match output.write(rest) {
            Ok(0) | Err(_) => return,
            Ok(n) => rest = &rest[n..],
        }
    }
}

fn main(rt: HostRuntime) {
    let mut input = [0u8; INPUT_BYTES];
    let mut output = [0u8; OUTPUT_BYTES];
    let n = read_full(&mut rt.stdin(), &mut input);
    let m = answer(&input, n, &mut output);
    write_all(&mut rt.stdout(), &output[..m]);
}
