// The digest CRC-32C of borrowed bytes (R160 to R164).
//
// t: the table of one byte; f: the seven further tables, one after the other; s: the borrowed bytes; c: the register.
#![tactic(auto)]

mod tables;

ghost use Rattle.std.specs.Prelude.{◌≡◌, List, ℕ, ◌+◌, ◌%◌, ◌≤◌, ◌<◌, length, take, drop};
ghost use Rattle.crc32c.specs.Crc.{byte_step, register, crc32c};
ghost use Rattle.crc32c.specs.Tables.{Table, Further};
ghost use Rattle.crc32c.specs.Words.{after, word};

use tables::{FURTHER, TABLE};

const ALL: u32 = 0xFFFFFFFF;

// From this length on the time for eight bytes at once pays for the copy of their tables.
const LONG: usize = 64;

// The table of one byte, copied for the caller.
fn byte_table() -> [u32; 256]
    ensures { Table result }
{
    TABLE
}

// The seven tables after it.
fn further_tables() -> [u32; 1792]
    ensures { (t : List ℕ) → Table t → Further t result }
{
    FURTHER
}

// The register after one byte.
fn byte_step(t: &[u32], c: u32, b: u8) -> u32
    requires { Table t.now }
    ensures { result ≡ byte_step c b }
{
    let x = c ^ u32::from(b);
    let i = (x % 256) as usize;
    t[i] ^ (x >> 8)
}

// The register after all bytes, one at a time.
fn by_bytes(t: &[u32], mut c: u32, s: &[u8]) -> u32
    requires { Table t.now }
    ensures { result ≡ register c s.now }
{
    for b in s {
        c = byte_step(t, c, *b);
    }
    c
}

// Four bytes from `at` on as one number, the first lowest.
fn word(s: &[u8], at: usize) -> u32
    requires { at + 4 ≤ length s.now }
    ensures { result ≡ word s.now at 4 }
{
    u32::from_le_bytes([s[at], s[at + 1], s[at + 2], s[at + 3]])
}

// The low byte of x, with `level` bytes of zeros after its own, by a look-up.
fn part(t: &[u32], f: &[u32], level: usize, x: u32) -> u32
    requires table { Table t.now }
    requires further { Further t.now f.now }
    requires level_bound { level < 8 }
    ensures { result ≡ after (level + 1) (x % 256) }
{
    let i = (x % 256) as usize;
    if level == 0 {
        return t[i];
    }
    let k = level - 1;
    f[k * 256 + i]
}

// The four bytes of x, with `level` bytes of zeros after the last of them.
fn four(t: &[u32], f: &[u32], level: usize, x: u32) -> u32
    requires table { Table t.now }
    requires further { Further t.now f.now }
    requires level_bound { level < 5 }
    ensures { result ≡ after (level + 4) x }
{
    let y = x / 256;
    let z = y / 256;
    let a = part(t, f, level + 3, x);
    let b = part(t, f, level + 2, y);
    let c = part(t, f, level + 1, z);
    let d = part(t, f, level, z / 256);
    a ^ b ^ c ^ d
}

// The register after eight bytes.
fn eight(t: &[u32], f: &[u32], c: u32, s: &[u8; 8]) -> u32
    requires table { Table t.now }
    requires further { Further t.now f.now }
    ensures { result ≡ register c s.now }
{
    let x = c ^ word(s, 0);
    let y = word(s, 4);
    four(t, f, 4, x) ^ four(t, f, 0, y)
}

// The register after all bytes, eight at a time while there are eight.
fn by_eights(t: &[u32], f: &[u32], mut c: u32, s: &[u8]) -> u32
    requires table { Table t.now }
    requires further { Further t.now f.now }
    ensures { result ≡ register c s.now }
{
    let (eights, rest) = s.as_chunks::<8>();
    for part in eights {
        c = eight(t, f, c, part);
    }
    by_bytes(t, c, rest)
}

/// The digest of a region that goes on from `crc`, 0 to begin.
pub fn crc32c(crc: u32, s: &[u8]) -> u32
    ensures { result ≡ crc32c crc s.now }
{
    let t = byte_table();
    if s.len() < LONG {
        return by_bytes(&t, crc ^ ALL, s) ^ ALL;
    }
    let f = further_tables();
    by_eights(&t, &f, crc ^ ALL, s) ^ ALL
}
