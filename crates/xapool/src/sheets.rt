// The call on a base sheet and a supplement (P13).
ghost use Rattle.std.specs.Prelude.{◌≡◌};
ghost use Rattle.evidence.specs.Sheets.{look};
ghost use Rattle.xapool.specs.Sheets.{part_result};

use answers::{Answer, DONE};
use evidence::Found;

// Where a text stands: the sheet (0 base, 1 supplement), its place there and its length; all 0 with answers 3 and 10.
#[repr(C)]
#[derive(Clone, Copy)]
pub struct Part {
    pub answer: u64,
    pub sheet: u64,
    pub place: u64,
    pub length: u64,
}

/// Where the text of an index stands, as a part of the supplement or of the base sheet: answer 0, 3 or 10.
#[unsafe(no_mangle)]
pub extern "C" fn xapool_evidence(base: &[u8], supplement: &[u8], index: u64) -> Part
    ensures value { result ≡ part_result (look base.now supplement.now index) }
    ensures base_value { base.exit.now ≡ base.entry.now }
    ensures supplement_value { supplement.exit.now ≡ supplement.entry.now }
{
    let f = evidence::look(base, supplement, index);
    match f {
        Found::InSupplement { place, size } => Part {
            answer: DONE,
            sheet: 1,
            place: place as u64,
            length: size as u64,
        },
        Found::InBase { place, size } => Part {
            answer: DONE,
            sheet: 0,
            place: place as u64,
            length: size as u64,
        },
        Found::Nowhere => Part {
            answer: Answer::Absent.number(),
            sheet: 0,
            place: 0,
            length: 0,
        },
        Found::BadSheet => Part {
            answer: Answer::BadBatch.number(),
            sheet: 0,
            place: 0,
            length: 0,
        },
    }
}
