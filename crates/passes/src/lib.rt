// The slots of a node by bytes: a byte for each slot, so that the compiler takes sixteen at once, and no branch for a slot (specs/Bytes).
// A node that passes is as it must be; one that does not is decided step by step (scan).
//
// pool: the borrowed words; n: the number of a node; v: its level (its shift / 6); k: how many of its slots are filled, as it says;
// j, o: offsets of slots; m: marks; a: bytes.
#![tactic(auto)]

ghost use Rattle.std.specs.Prelude.{◌≡◌, true, ◌<◌, ◌≤◌, length, IfSome};
ghost use Rattle.tree.specs.Tree.{slots};
ghost use Rattle.layout.specs.Pool.{pool_of};
ghost use Rattle.local.specs.Local.{HasNode, top_level};
ghost use Rattle.steps.specs.Steps.{SlotsFilled};
ghost use Rattle.passes.specs.Bytes.{short_of, Shorts, byte_by, large_at, Weighs, Framed, BytesFrom, Good};
ghost use Rattle.passes.specs.Bytes.{unfit_of, Chained, ChainedTo, HeldTo, LeadsOk, ChildrenTo};

use layout::{SLOTS, Slot, read_slot, sibling_word, slot_word};
use steps::{TOP_LEVEL, all_marks, child_ok};

// The word of a slot that is reserved.
const RESERVED: u16 = 1030;

// The byte of an internal word that is no sibling's: in a leaf a reservation, above the leaves a node.
const LEAF: u8 = 4;

const UPPER: u8 = 5;

// Half a word has 32 bits.
const HALVES: u64 = 4294967296;

// Fewer slots than these are soonest gone through one by one.
const FEW: u64 = 8;

// The short number for the word w. By halves: SSE2 compares no 64 bits.
fn short_of(w: u64) -> u16
    ensures { result ≡ short_of w }
{
    let hi = (w / HALVES) as u32;
    let lo = (w % HALVES) as u32;
    let x = lo % 4 + 8192;
    if (hi | (lo / 8192)) == 0 {
        lo as u16
    } else {
        x as u16
    }
}

// The short numbers for the words of node n's slots.
fn shorts_of(pool: &[u64], n: u64, s: &mut [u16])
    requires has_node { HasNode n pool.now }
    requires s_len { length s.old ≡ slots }
    ensures { Shorts (pool_of pool.now) n slots s.new }
{
    for (j, y) in s.iter_mut().enumerate() {
        *y = short_of(slot_word(pool, n, j as u64));
    }
}

// The byte for the short number y, with t for an internal word that is no sibling's. Without a branch, which the compiler would keep.
fn byte_by(t: u8, y: u16) -> u8
    ensures { result ≡ byte_by t y }
{
    let i = u16::from(y % 4 == 2);
    let x = y * u16::from(y < 256) + u16::from(t) * u16::from(y > 255);
    let e = u16::from(y != 0);
    (x * i + e * (1 - i)) as u8
}

// Whether an internal word with the short number y that is no sibling's is too large for a leaf or, if T is UPPER, for a node above the
// leaves.
fn is_large<const T: u8>(y: u16) -> bool
    ensures { result ≡ large_at T y }
{
    if T == LEAF { y != RESERVED } else { y < 4096 }
}

// 1 if the slot with the short number y is filled, else 0; more than SLOTS if y is internal and too large.
fn weight_of<const T: u8>(y: u16) -> u16
    ensures { Weighs (large_at T) y result }
{
    u16::from(y != 0)
        + 64 * (u16::from(y % 4 == 2) & u16::from(y > 255) & u16::from(is_large::<T>(y)))
}

// The bytes of a node's slots, whose short numbers are s, from place 1 on. How many are filled, if no word is too large.
fn bytes_of<const T: u8>(s: &[u16], a: &mut [u8]) -> Option<u64>
    requires fact_1 { length s.now ≡ slots }
    requires fact_2 { Framed a.old }
    ensures { IfSome result (λ c. (c ≤ slots) × BytesFrom (byte_by T) (large_at T) s.now slots a.new c) }
{
    let mut c: u16 = 0;
    for (j, y) in s.iter().enumerate() {
        a[j + 1] = byte_by(T, *y);
        c += weight_of::<T>(*y);
    }
    let k = c as u64;
    if k > SLOTS {
        return None;
    }
    Some(k)
}

// 0 only if slots o to j may be a run.
fn unfit(o: u8, j: u8) -> u8
    requires { (o < slots) × (j < slots) }
    ensures { result ≡ unfit_of o j }
{
    let q = (j + 64 - o) % 64;
    ((q + 1) & q) | (o & q) | (q / 32)
}

// 0 only if slot j, where it is a sibling, follows its entry or another sibling, and ends its run only where that fits; y, x, z: the
// bytes of the slot before it, of itself and of the one after it.
fn fault(y: u8, x: u8, z: u8, j: u8) -> u8
    requires { j < slots }
    ensures { result ≡ 0 → Chained y x z j }
{
    let s = u8::from(x / 2 % 2 == 1);
    let g = u8::from(x == y) | (u8::from(y == 1) & u8::from(x / 4 + 1 == j));
    let e = u8::from(z != x) & u8::from(unfit(x / 4, j) != 0);
    s & (u8::from(g == 0) | e)
}

// True only if no slot is at fault.
fn faultless(a: &[u8]) -> bool
    requires { length a.now ≡ 66 }
    ensures { result ≡ true → ChainedTo a.now slots }
{
    let mut bad: u8 = 0;
    for j in 0u8..64 {
        let p = j as usize;
        bad |= fault(a[p], a[p + 1], a[p + 2], j);
    }
    bad == 0
}

// True only if each slot with a mark in m has an entry or leads to a node.
fn all_held(a: &[u8], m: u64) -> bool
    requires { length a.now ≡ 66 }
    ensures { result ≡ true → HeldTo a.now m slots }
{
    let mut f: u64 = 0;
    for j in (0..SLOTS).rev() {
        f = 2 * f + u64::from(a[(j + 1) as usize] % 4 != 1);
    }
    f & m == 0
}

// True only if k slots of node n are filled, none has a word that is too large and none is at fault; a: the bytes of its slots.
fn read<const T: u8>(pool: &[u64], n: u64, k: u64, a: &mut [u8]) -> bool
    requires has_node { HasNode n pool.now }
    requires framed { Framed a.old }
    ensures { result ≡ true → Good (byte_by T) (large_at T) (pool_of pool.now) n a.new k }
{
    let mut s = [0u16; 64];
    shorts_of(pool, n, &mut s);
    let Some(c) = bytes_of::<T>(&s, a) else {
        return false;
    };
    c == k && faultless(a)
}

// True only if the slots of node n, of level 0, are as they must be and k of them filled.
fn leaf_ok(pool: &[u64], n: u64, k: u64) -> bool
    requires { HasNode n pool.now }
    ensures { result ≡ true → SlotsFilled (pool_of pool.now) n 0 k }
{
    let mut a = [0u8; 66];
    if !read::<LEAF>(pool, n, k, &mut a) {
        return false;
    }
    let m = all_marks(pool, n);
    m == 0 || all_held(&a, m)
}

// Whether node n looks like two entries of 32 slots: two steps, so soonest done step by step. A matter of time alone.
fn two_runs(pool: &[u64], n: u64) -> bool
    requires { HasNode n pool.now }
{
    slot_word(pool, n, 31) == sibling_word(0) && slot_word(pool, n, 63) == sibling_word(32)
}

// As leaf_ok, but false where a few steps are sooner done.
pub fn leaf_passes(pool: &[u64], n: u64, k: u64) -> bool
    requires { HasNode n pool.now }
    ensures { result ≡ true → SlotsFilled (pool_of pool.now) n 0 k }
{
    !two_runs(pool, n) && leaf_ok(pool, n, k)
}

// True only if slot j of node n, where it leads to a node, may do so.
fn may_lead(pool: &[u64], n: u64, v: u64, j: u64) -> bool
    requires fact_1 { HasNode n pool.now }
    requires fact_2 { (j < slots) × (v ≤ top_level) }
    ensures { result ≡ true → LeadsOk (pool_of pool.now) n v j }
{
    match read_slot(slot_word(pool, n, j)) {
        Slot::Child(m) => child_ok(pool, n, v, j, m),
        _ => true,
    }
}

// True only if each slot of node n that leads to a node may do so.
fn children_ok(pool: &[u64], n: u64, v: u64) -> bool
    requires fact_1 { HasNode n pool.now }
    requires fact_2 { v ≤ top_level }
    ensures { result ≡ true → ChildrenTo (pool_of pool.now) n v slots }
{
    for j in 0..SLOTS {
        if !may_lead(pool, n, v, j) {
            return false;
        }
    }
    true
}

// True only if the slots of node n, of a level between leaves and top, are as they must be and k of them filled.
fn upper_ok(pool: &[u64], n: u64, v: u64, k: u64) -> bool
    requires fact_1 { HasNode n pool.now }
    requires fact_2 { v < top_level }
    ensures { result ≡ true → SlotsFilled (pool_of pool.now) n v k }
{
    let mut a = [0u8; 66];
    if !read::<UPPER>(pool, n, k, &mut a) {
        return false;
    }
    all_held(&a, all_marks(pool, n)) && (!a.contains(&UPPER) || children_ok(pool, n, v))
}

// Whether w is large and internal, as a node's word is. A matter of time alone.
fn looks_node(w: u64) -> bool {
    w % 4 == 2 && w > 4095
}

// Whether four slots of node n look like nodes.
fn looks_parent(pool: &[u64], n: u64) -> bool
    requires { HasNode n pool.now }
{
    looks_node(slot_word(pool, n, 0))
        && looks_node(slot_word(pool, n, 21))
        && looks_node(slot_word(pool, n, 42))
        && looks_node(slot_word(pool, n, 63))
}

// Whether node n, of level v, is looked at by bytes: runs of lengths that no processor foresees take long step by step. Few filled
// slots do not, and there are few nodes of many children. A matter of time alone, but that the top level is left out.
fn by_bytes(pool: &[u64], n: u64, v: u64, k: u64) -> bool
    requires fact_1 { HasNode n pool.now }
    requires fact_2 { v ≤ top_level }
    ensures { result ≡ true → v < top_level }
{
    v != TOP_LEVEL && k >= FEW && !looks_parent(pool, n)
}

// As upper_ok, but false where a few steps are sooner done.
pub fn upper_passes(pool: &[u64], n: u64, v: u64, k: u64) -> bool
    requires fact_1 { HasNode n pool.now }
    requires fact_2 { v ≤ top_level }
    ensures { result ≡ true → SlotsFilled (pool_of pool.now) n v k }
{
    by_bytes(pool, n, v, k) && upper_ok(pool, n, v, k)
}
