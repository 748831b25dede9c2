// The calls on regions of bytes, for a host: the digest of one, and whether two match.
ghost use Rattle.std.specs.Prelude.{◌≡◌};
ghost use Rattle.crc32c.specs.Crc.{crc32c};
ghost use Rattle.xapool.specs.Regions.{compare_result};

// What a comparison gives: its number, and the digest of each region (R168, R169).
#[repr(C)]
#[derive(Clone, Copy)]
pub struct Comparison {
    pub verdict: u64,
    pub old_crc: u64,
    pub new_crc: u64,
}

/// CRC-32C of a region that goes on from `crc`: 0 to begin, the last result to go on.
#[unsafe(no_mangle)]
pub extern "C" fn xapool_crc32c(crc: u32, region: &[u8]) -> u32
    ensures value { result ≡ crc32c crc region.now }
    ensures region_value { region.exit.now ≡ region.entry.now }
{
    crc32c::crc32c(crc, region)
}

/// Whether an old and a new region match, and the digest of each; where either is empty there is nothing to compare.
#[unsafe(no_mangle)]
pub extern "C" fn xapool_compare(old: &[u8], new: &[u8]) -> Comparison
    ensures value { result ≡ compare_result old.now new.now }
    ensures old_value { old.exit.now ≡ old.entry.now }
    ensures new_value { new.exit.now ≡ new.entry.now }
{
    let c = region::compare_digests(old, new);
    let verdict = c.verdict;
    Comparison {
        verdict: region::number(verdict),
        old_crc: c.old_crc as u64,
        new_crc: c.new_crc as u64,
    }
}
