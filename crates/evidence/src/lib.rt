// Written evidence (P13): the text of an index, looked up in a supplement and then in a base sheet, and handed back as a part
// of the one that has it (R127).
//
// s, base, supplement: the borrowed bytes of a sheet; at: a place in them; size: the bytes of a record, or of a text.
#![tactic(auto)]

ghost use Rattle.std.specs.Prelude.{◌≡◌, true, ◌+◌, ◌<◌, length};
ghost use Rattle.evidence.specs.Sheets.{body_bytes, is_record, seek, together, look};
ghost use Rattle.evidence.specs.Parts.{IsPart};
ghost use Rattle.evidence.specs.Reading.{SizeAt, named_at};

const TAG: u8 = 48;

// The bytes of a record before its index, those of the index, and all before its text.
const HEAD_BYTES: usize = 3;

const INDEX_BYTES: usize = 8;

const TEXT_AT: usize = 11;

// Where a text stands in its sheet.
#[derive(Clone, Copy)]
pub struct Span {
    pub place: usize,
    pub size: usize,
}

// A sheet that is not records to its end.
#[derive(Clone, Copy)]
pub struct Malformed;

// What a look-up in one sheet comes to.
pub type Sought = Result<Option<Span>, Malformed>;

// What a look-up in both comes to: the answers of R256 to R259, which xapool hands on by these names.
#[derive(Clone, Copy)]
pub enum Found {
    Nowhere,
    InBase { place: usize, size: usize },
    InSupplement { place: usize, size: usize },
    BadSheet,
}

// The bytes of the record at a place, if there is a whole one.
fn size_at(s: &[u8], at: usize) -> Option<usize>
    requires { at < length s.now }
    ensures { SizeAt s.now at result }
{
    if s.len() - at < HEAD_BYTES || s[at] != TAG {
        return None;
    }
    let n = words::number2(s, at + 1) as usize;
    if n < INDEX_BYTES || s.len() - at < HEAD_BYTES + n {
        return None;
    }
    Some(HEAD_BYTES + n)
}

// The text of the record at a place, if it names the index.
fn named_at(s: &[u8], at: usize, size: usize, index: u64) -> Option<Span>
    requires at_value { is_record s.now at ≡ true }
    requires size_value { size ≡ 3 + body_bytes s.now at }
    ensures { result ≡ named_at s.now at index }
{
    if words::number8(s, at + HEAD_BYTES) == index {
        Some(Span {
            place: at + TEXT_AT,
            size: size - TEXT_AT,
        })
    } else {
        None
    }
}

/// The last text of an index in a sheet, which is read to its end: damage anywhere counts.
pub fn seek(s: &[u8], index: u64) -> Sought
    ensures { result ≡ seek s.now index }
{
    let mut at: usize = 0;
    let mut best = None;
    while at < s.len() {
        let Some(size) = size_at(s, at) else {
            return Err(Malformed);
        };
        best = named_at(s, at, size, index).or(best);
        at += size;
    }
    Ok(best)
}

// The supplement goes first; a malformed sheet, either one, before all.
fn together(base: Sought, supplement: Sought) -> Found
    ensures { result ≡ together base supplement }
{
    match (base, supplement) {
        (Err(_), _) => Found::BadSheet,
        (_, Err(_)) => Found::BadSheet,
        (_, Ok(Some(Span { place, size }))) => Found::InSupplement { place, size },
        (Ok(Some(Span { place, size })), Ok(None)) => Found::InBase { place, size },
        (Ok(None), Ok(None)) => Found::Nowhere,
    }
}

/// Where the text of an index stands.
pub fn look(base: &[u8], supplement: &[u8], index: u64) -> Found
    ensures { result ≡ look base.now supplement.now index }
{
    let b = seek(base, index);
    let s = seek(supplement, index);
    together(b, s)
}

/// The text of an index: a part of the supplement or of the base sheet, and an empty part where there is none.
pub fn text<'a>(base: &'a [u8], supplement: &'a [u8], index: u64) -> &'a [u8]
    ensures { IsPart base.entry supplement.entry (look base.now supplement.now index) result }
{
    let f = look(base, supplement, index);
    match f {
        Found::InSupplement { place, size } => &supplement[place..place + size],
        Found::InBase { place, size } => &base[place..place + size],
        Found::Nowhere => &base[0..0],
        Found::BadSheet => &base[0..0],
    }
}
