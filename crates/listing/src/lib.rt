// The entries between two indices, in index order, as bytes (P1). The visit of a node and the visit of a slot call each
// other; what falls is the tier, then the slots that are left (R132).
//
// pool: the borrowed words, well-formed; n, m: numbers of nodes; v: the tier of a node's slots; b: the number of a node's
// block; c: a slot by the number of its block; buffer: the borrowed bytes; k: the entries listed so far.
#![tactic(auto)]

ghost use Rattle.std.specs.Prelude.{◌+◌, ◌*◌, ◌/◌, suc, ◌≤◌, ◌<◌, ◌^◌, ◌≡◌, [], ◌∷◌, length};
ghost use Rattle.blocks.specs.Blocks.{block};
ghost use Rattle.model.specs.Model.{max_order};
ghost use Rattle.tree.specs.Tree.{slots, tier_order, top_tier};
ghost use Rattle.layout.specs.WellFormed.{WellFormed, num};
ghost use Rattle.words.specs.Bytes.{overwrite};
ghost use Rattle.listing.specs.Listing.{entry_bytes, encode_entry, listed, outcome, filled_with};
ghost use Rattle.listing.specs.Refusing.{refusal_of};
ghost use Rattle.listing.specs.Visits.{between, Emits, Ready};

use answers::{Answer, Refusal};
use layout::{SLOT_BITS, SLOTS, block_of};
use lookup::{Entered, Sight, enter, entry_at, look};
use model::{Entry, shown_word};
use words::{pow2, put1, put2, put8};

const TAG: u64 = 32;

const LENGTH: u64 = 18;

const ENTRY_BYTES: u64 = 21;

// The indices asked for, and how many of their entries may be written.
#[derive(Clone, Copy)]
pub struct Wanted {
    pub first: u64,
    pub last: u64,
    pub room: u64,
}

// Why a listing is refused: so many entries do not fit, and nothing was written.
#[derive(Clone, Copy, PartialEq, Eq)]
pub struct Short {
    pub entries: u64,
}

// A call refuses it as a reply space too small, with the number of entries.
impl From<Short> for Refusal {
    ghost from_gives = { λ short r. r ≡ refusal_of short };

    fn from(short: Short) -> Refusal {
        Refusal {
            answer: Answer::ReplySpace,
            number: short.entries,
        }
    }
}

// The bytes of an entry, from a place on.
fn write_entry(out: &mut [u8], at: usize, e: Entry)
    requires { at + entry_bytes ≤ length out.old }
    ensures { out.new ≡ overwrite out.old at (encode_entry e) }
{
    let w = shown_word(e);
    put1(out, at + 0, TAG);
    put2(out, at + 1, LENGTH);
    put8(out, at + 3, e.base);
    put1(out, at + 11, e.order);
    put8(out, at + 12, w);
    put1(out, at + 20, e.marks);
}

// An entry as the next of the listing, if its run meets the range: counted, and written where there is room.
fn offer(buffer: &mut [u8], range: Wanted, k: u64, e: Entry) -> u64
    requires room_in_bounds { entry_bytes * range.room ≤ length buffer.old }
    requires k_bound { k + 1 < 2 ^ 64 }
    requires order_le_max_order { e.order ≤ max_order }
    requires order_bound { e.base + 2 ^ e.order ≤ 2 ^ 64 }
    ensures { Emits range.room (listed (e ∷ []) range.first range.last) buffer.old k
        buffer.new result }
{
    if range.last < e.base {
        return k;
    }
    if e.base + (pow2(e.order) - 1) < range.first {
        return k;
    }
    if range.room <= k {
        return k + 1;
    }
    write_entry(buffer, (ENTRY_BYTES * k) as usize, e);
    k + 1
}

// The entries that start in slot c of node n.
#[cycle(visit_node_visit_slot)]
fn visit_slot(pool: &[u64], n: u64, v: u64, c: u64, range: Wanted, buffer: &mut [u8], k: u64) -> u64
    requires well_formed { WellFormed pool.now }
    requires v_lt_top_tier { v < top_tier }
    requires c_bound { c ≤ block (tier_order v) range.last }
    requires last_bound { (range.last < 2 ^ 64) × (entry_bytes * range.room ≤ length buffer.old) }
    requires ready { (s : WellFormed pool.now) →
        Ready s.list (num s) v (c / slots) n (c * 2 ^ tier_order v) k }
    ensures { (s : WellFormed pool.now) → Emits range.room
        (listed (between s.list (c * 2 ^ tier_order v) (suc c * 2 ^ tier_order v)) range.first range.last)
        buffer.old k buffer.new result }
{
    let w = pow2(SLOT_BITS * v);
    let seen = look(pool, n, v, c * w);
    match seen {
        Sight::Gap => k,
        Sight::Shows(d) => {
            if d != c {
                return k;
            }
            offer(buffer, range, k, entry_at(pool, n, v, c))
        }
        Sight::Below(m) => {
            if c * w + (w - 1) < range.first {
                return k;
            }
            visit_node(pool, m, v - 1, c, range, buffer, k)
        }
    }
}

// The entries that start in the block of node n, slot by slot up to the one of the last index.
#[cycle(visit_node_visit_slot)]
fn visit_node(pool: &[u64], n: u64, v: u64, b: u64, range: Wanted, buffer: &mut [u8], k: u64) -> u64
    requires well_formed { WellFormed pool.now }
    requires v_lt_top_tier { v < top_tier }
    requires b_bound { slots * b ≤ block (tier_order v) range.last }
    requires last_bound { (range.last < 2 ^ 64) × (entry_bytes * range.room ≤ length buffer.old) }
    requires ready { (s : WellFormed pool.now) →
        Ready s.list (num s) v b n (b * 2 ^ tier_order (suc v)) k }
    ensures { (s : WellFormed pool.now) → Emits range.room
        (listed (between s.list (b * 2 ^ tier_order (suc v)) (suc b * 2 ^ tier_order (suc v))) range.first
        range.last) buffer.old k buffer.new result }
{
    let z = block_of(v, range.last);
    let mut at = k;
    for o in 0..SLOTS {
        let c = SLOTS * b + o;
        if z < c {
            return at;
        }
        at = visit_slot(pool, n, v, c, range, buffer, at);
    }
    at
}

// All entries that meet the range.
fn visit_head(pool: &[u64], range: Wanted, buffer: &mut [u8]) -> u64
    requires well_formed { WellFormed pool.now }
    requires last_bound { (range.last < 2 ^ 64) × (entry_bytes * range.room ≤ length buffer.old) }
    ensures { (s : WellFormed pool.now) → Emits range.room
        (listed s.list range.first range.last) buffer.old 0 buffer.new result }
{
    let head = enter(pool, 0);
    match head {
        Entered::Outside => 0,
        Entered::HeadEntry(e) => offer(buffer, range, 0, e),
        Entered::Under(n, v) => visit_node(pool, n, v, 0, range, buffer, 0),
    }
}

// The entries between two indices, if all of them fit (R145): counted first, then written; how many they are.
pub fn list(pool: &[u64], first: u64, last: u64, buffer: &mut [u8]) -> Result<u64, Short>
    requires { WellFormed pool.now }
    ensures value { (s : WellFormed pool.now) →
        result ≡ outcome (listed s.list first last) buffer.old }
    ensures buffer_after { (s : WellFormed pool.now) →
        buffer.new ≡ filled_with (listed s.list first last) buffer.old }
{
    let count = Wanted {
        first,
        last,
        room: 0,
    };
    let k = visit_head(pool, count, buffer);
    let bytes = buffer.len() as u64;
    if bytes / ENTRY_BYTES < k {
        return Err(Short { entries: k });
    }
    visit_head(pool, Wanted { room: k, ..count }, buffer);
    Ok(k)
}
