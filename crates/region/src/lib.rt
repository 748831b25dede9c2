// Whether a new region holds what the old one held (R165 to R169).
#![tactic(auto)]

ghost use Rattle.std.specs.Prelude.{◌≡◌};
ghost use Rattle.region.specs.Region.{compare, number, compared};

#[derive(Clone, Copy, PartialEq, Eq)]
pub enum Matching {
    Nothing,
    Matched,
    Different,
}

// A comparison, and the digest of each region.
#[derive(Clone, Copy)]
pub struct Compared {
    pub verdict: Matching,
    pub old_crc: u32,
    pub new_crc: u32,
}

/// Whether two regions match; where either is empty there is nothing to compare.
pub fn compare(old: &[u8], new: &[u8]) -> Matching
    ensures { result ≡ compare old.now new.now }
{
    if old.is_empty() || new.is_empty() {
        return Matching::Nothing;
    }
    if old == new {
        return Matching::Matched;
    }
    Matching::Different
}

/// The comparison's number for a host. No From beside it: the documents know this one by its name.
pub fn number(c: Matching) -> u64
    ensures { result ≡ number c }
{
    match c {
        Matching::Nothing => 0,
        Matching::Matched => 1,
        Matching::Different => 2,
    }
}

/// The comparison with the digests of both regions. Regions that match have one digest.
pub fn compare_digests(old: &[u8], new: &[u8]) -> Compared
    ensures { result ≡ compared old.now new.now }
{
    let verdict = compare(old, new);
    let old_crc = crc32c::crc32c(0, old);
    if verdict == Matching::Matched {
        return Compared {
            verdict,
            old_crc,
            new_crc: old_crc,
        };
    }
    let new_crc = crc32c::crc32c(0, new);
    Compared {
        verdict,
        old_crc,
        new_crc,
    }
}
