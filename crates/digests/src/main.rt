// The digests of RFC 3720's published vectors (B.4) and of the digits 1 to 9, a line of hex each; then how many cuts of a region of 64 bytes
// into two pieces give the digest of the whole. The file stdout has the published digests, and 65.
#![tactic(auto)]

use std::io::Write;

// One hex digit, of the low four bits.
fn digit(x: u32) -> u8 {
    let d = (x % 16) as u8;
    if d < 10 { b'0' + d } else { b'a' + (d - 10) }
}

// Writes all of `bytes`, or stops at the first write that takes nothing or fails. (As the program tamburish has it: a crate of both would
// serve nothing else. std's `write_all` tries again where a write was interrupted.)
fn write_all<W: Write>(out: &mut W, bytes: &[u8]) {
    let mut rest = bytes;
    while !rest.is_empty() {
        match out.write(rest) {
            Ok(0) | Err(_) => return,
            Ok(n) => rest = &rest[n..],
        }
    }
}

fn put<W: Write>(out: &mut W, x: u32) {
    let high = [
        digit(x >> 28),
        digit(x >> 24),
        digit(x >> 20),
        digit(x >> 16),
    ];
    let low = [
        digit(x >> 12),
        digit(x >> 8),
        digit(x >> 4),
        digit(x),
        b'\n',
    ];
    write_all(out, &high);
    write_all(out, &low);
}

fn put_digest<W: Write>(out: &mut W, s: &[u8]) {
    put(out, crc32c::crc32c(0, s));
}

// Bytes from `first` on, each `by` more than the last, wrapping at 256.
fn progression(s: &mut [u8], first: u8, by: u8) {
    let mut b = first;
    for x in s.iter_mut() {
        *x = b;
        b = b.wrapping_add(by);
    }
}

// RFC 3720's SCSI Read (10) command.
fn read10() -> [u8; 48] {
    let mut s = [0u8; 48];
    s[0] = 1;
    s[1] = 192;
    s[16] = 20;
    s[22] = 4;
    s[27] = 20;
    s[31] = 24;
    s[32] = 40;
    s[40] = 2;
    s
}

// Whether a cut into two pieces gives the digest of the whole.
fn cut_at(s: &[u8], cut: usize) -> bool {
    if s.len() < cut {
        return false;
    }
    crc32c::crc32c(crc32c::crc32c(0, &s[0..cut]), &s[cut..]) == crc32c::crc32c(0, s)
}

// How many cuts, at 0 to 64, do.
fn cuts(s: &[u8]) -> u32 {
    let mut good = 0;
    for cut in 0..=64 {
        good += u32::from(cut_at(s, cut));
    }
    good
}

fn main(rt: HostRuntime) {
    let mut out = rt.stdout();
    let mut s = [0u8; 32];
    put_digest(&mut out, &s);
    progression(&mut s, 255, 0);
    put_digest(&mut out, &s);
    progression(&mut s, 0, 1);
    put_digest(&mut out, &s);
    progression(&mut s, 31, 255);
    put_digest(&mut out, &s);
    let command = read10();
    put_digest(&mut out, &command);
    put_digest(&mut out, b"123456789");
    let mut long = [0u8; 64];
    progression(&mut long, 7, 37);
    put(&mut out, cuts(&long));
}
