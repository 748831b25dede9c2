// A batch as a reader that holds its bytes and a position in them, offered beside the slice and cursor of `batch`.
//
// Its methods are thin: reading is left to `batch::read_at`. Whoever calls `read_through` or `count_through` passes a plain
// slice.
#![tactic(auto)]

ghost use Rattle.std.specs.Prelude.{◌≡◌};
ghost use Rattle.batch.specs.Batch.{read_at, counted, parse};

use batch::{BadRecord, Cursor, Read};

#[derive(Clone, Copy)]
pub struct Reader<'a> {
    pub batch: &'a [u8],
    pub at: usize,
}

impl<'a> Reader<'a> {
    // A reader at a batch's beginning.
    pub fn new(batch: &'a [u8]) -> Reader<'a>
        ensures { (result.batch ≡ batch.entry) × (result.at ≡ 0) }
    {
        Reader { batch, at: 0 }
    }

    // What stands at the reader's position.
    pub fn next(self) -> Read
        ensures { result ≡ read_at self.entry.batch.now self.entry.at }
    {
        batch::read_at(self.batch, self.at)
    }

    // The reader at the position that reading handed back.
    pub fn resume(self, c: Cursor) -> Reader<'a>
        ensures { (result.batch ≡ self.entry.batch) × (result.at ≡ c.at) }
    {
        Reader {
            batch: self.batch,
            at: c.at,
        }
    }
}

// What stands at a place of a batch, by a reader made there.
pub fn read_through(batch: &[u8], at: usize) -> Read
    ensures { result ≡ read_at batch.now at }
{
    Reader::new(batch).resume(Cursor { at }).next()
}

// How many commands a batch has, or the place of its first bad record, by a reader.
pub fn count_through(batch: &[u8]) -> Result<u64, BadRecord>
    ensures { result ≡ counted (parse batch.now) }
{
    if batch.len() > batch::MAX_BATCH {
        return Err(BadRecord {
            at: batch::MAX_BATCH as u64,
        });
    }
    let mut at: usize = 0;
    let mut n: u64 = 0;
    loop {
        match read_through(batch, at) {
            Read::End => return Ok(n),
            Read::Bad => return Err(BadRecord { at: at as u64 }),
            Read::Next(_, next) => {
                at = next.at;
                n += 1;
            }
        }
    }
}
