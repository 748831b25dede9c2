// Words and their bits; numbers as bytes, the highest byte first.
//
// s, out: borrowed words or bytes; at, a: a place in them; w, x: a word or a number; j, o: a bit of a word.
#![tactic(auto)]

ghost use Rattle.std.specs.Prelude.{◌≡◌, [], ◌+◌, ◌<◌, ◌≤◌, ◌^◌, length};
ghost use Rattle.blocks.specs.Choice.{pick};
ghost use Rattle.blocks.specs.Blocks.{NextBit, set_bit};
ghost use Rattle.words.specs.Bits.{word_bits};
ghost use Rattle.words.specs.Counted.{Counted};
ghost use Rattle.words.specs.Fill.{filled};
ghost use Rattle.words.specs.Bytes.{number_at, bytes_then, overwrite};

pub const WORD_BITS: u64 = 64;

// BITS

// 2 to the power j.
pub fn pow2(j: u64) -> u64
    requires { j < word_bits }
    ensures { result ≡ 2 ^ j }
{
    1 << j
}

// 1 if b, else 0.
pub fn one_if(b: bool) -> u64
    ensures { (result ≡ pick b 1 0) × (result ≤ 1) }
{
    u64::from(b)
}

// w with bit j set or cleared.
pub fn with_bit(w: u64, j: u64, on: bool) -> u64
    requires { j < word_bits }
    ensures { result ≡ set_bit j on w }
{
    if on { w | pow2(j) } else { w & !pow2(j) }
}

// The least bit from o on that is set in w; 64 if there is none, as `trailing_zeros` has it: whoever asks compares it with a
// bit of its own.
pub fn next_bit(w: u64, o: u64) -> u64
    requires { o < word_bits }
    ensures { NextBit word_bits w o result }
{
    let x = w >> o;
    let t = u64::from(x.trailing_zeros());
    if WORD_BITS - o <= t {
        return WORD_BITS;
    }
    o + t
}

// WORDS

// x at place a and the next, n in all.
pub fn fill(s: &mut [u64], a: u64, x: u64, n: u64)
    requires { a + n ≤ length s.old }
    ensures { s.new ≡ filled s.old a x n }
{
    s[a as usize..(a + n) as usize].fill(x);
}

// How many records of so many words stand after an anchor, if there is at least one, and no part of another; at most so many.
pub fn records_in(words: u64, anchor: u64, size: u64, most: u64) -> Option<u64>
    requires { 1 ≤ size }
    ensures { Counted words anchor size most result }
{
    let rest = words.checked_sub(anchor)?;
    let n = rest / size;
    if rest % size != 0 || n == 0 || n > most {
        return None;
    }
    Some(n)
}

// NUMBERS AS BYTES

pub fn number1(s: &[u8], at: usize) -> u64
    requires { at + 1 ≤ length s.now }
    ensures { (result ≡ number_at s.now at 1) × (result < 256) }
{
    u64::from(s[at])
}

pub fn number2(s: &[u8], at: usize) -> u64
    requires { at + 2 ≤ length s.now }
    ensures { (result ≡ number_at s.now at 2) × (result < 65536) }
{
    u64::from(u16::from_be_bytes([s[at], s[at + 1]]))
}

pub fn number8(s: &[u8], at: usize) -> u64
    requires { at + 8 ≤ length s.now }
    ensures { result ≡ number_at s.now at 8 }
{
    u64::from_be_bytes([
        s[at],
        s[at + 1],
        s[at + 2],
        s[at + 3],
        s[at + 4],
        s[at + 5],
        s[at + 6],
        s[at + 7],
    ])
}

pub fn put1(out: &mut [u8], at: usize, x: u64)
    requires { at + 1 ≤ length out.old }
    ensures { out.new ≡ overwrite out.old at (bytes_then 1 x []) }
{
    out[at] = (x % 256) as u8;
}

pub fn put2(out: &mut [u8], at: usize, x: u64)
    requires { at + 2 ≤ length out.old }
    ensures { out.new ≡ overwrite out.old at (bytes_then 2 x []) }
{
    let low = (x % 65536) as u16;
    out[at..at + 2].copy_from_slice(&low.to_be_bytes());
}

pub fn put8(out: &mut [u8], at: usize, x: u64)
    requires { at + 8 ≤ length out.old }
    ensures { out.new ≡ overwrite out.old at (bytes_then 8 x []) }
{
    out[at..at + 8].copy_from_slice(&x.to_be_bytes());
}
