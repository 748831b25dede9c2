// The model: the plain list of entries that every promise about a pool speaks of.
//
// base, order: an entry covers the 2^order indices from base on; word: what was stored; marks: mark m is worth 2^m.
#![tactic(auto)]

ghost use Rattle.std.specs.Prelude.{◌≡◌};
ghost use Rattle.model.specs.Model.{reserved, shown};

// The word of a reservation: XArray's zero entry.
pub const RESERVED: u64 = 1030;

// An entry of the list, of a load and of a find; or a reservation.
#[derive(Clone, Copy)]
pub struct Entry {
    pub base: u64,
    pub order: u64,
    pub word: u64,
    pub marks: u64,
}

// Whether it is a reservation (R200).
pub fn is_reserved(e: Entry) -> bool
    ensures { result ≡ reserved e }
{
    e.word == RESERVED
}

// The word that a host is shown of it: 0 for a reservation (R202).
pub fn shown_word(e: Entry) -> u64
    ensures { result ≡ shown e }
{
    let w = e.word;
    if w == RESERVED { 0 } else { w }
}
