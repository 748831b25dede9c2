// Keys as numbers of five words, lowest word first: a nibble of one, and whether two lie in one block.
//
// w, a, b: borrowed words; at, i, j: where a number begins; v: a tier (16^v numbers).
#![tactic(auto)]

ghost use Rattle.std.specs.Prelude.{◌≡◌, ◌+◌, ◌*◌, ◌%◌, ◌<◌, ◌≤◌, get_or, length};
ghost use Rattle.blocks.specs.Blocks.{block};
ghost use Rattle.blocks.specs.Deciding.{Decides};
ghost use Rattle.assoc_keys.specs.Number.{key_at, key_words, SameFrom, PartAt};

const KEY_WORDS: usize = 5;

// The nibble that picks the slot of tier v.
pub fn nibble(w: &[u64], at: usize, v: u64) -> u64
    requires key_words_in_bounds { at + key_words ≤ length w.now }
    requires v_bound { v < 66 }
    ensures { result ≡ block (4 * v) (key_at w.now at) % 16 }
{
    let q = v / 16;
    let s = 4 * (v % 16);
    (w[at + q as usize] >> s) % 16
}

// Two numbers lie in one block of tier v.
pub fn agree(a: &[u64], i: usize, b: &[u64], j: usize, v: u64) -> bool
    requires key_words_in_bounds { i + key_words ≤ length a.now }
    requires key_words_in_bounds_2 { j + key_words ≤ length b.now }
    requires v_bound { v ≤ 66 }
    ensures { Decides result (block (4 * v) (key_at a.now i) ≡ block (4 * v) (key_at b.now j)) }
{
    let q = v / 16;
    let s = 4 * (v % 16);
    let t = q as usize;
    if (a[i + t] >> s) != (b[j + t] >> s) {
        return false;
    }
    same_from(a, i, b, j, t + 1)
}

// The words from t on are the same.
fn same_from(a: &[u64], i: usize, b: &[u64], j: usize, t: usize) -> bool
    requires key_words_in_bounds { i + key_words ≤ length a.now }
    requires key_words_in_bounds_2 { j + key_words ≤ length b.now }
    requires t_le_key_words { t ≤ key_words }
    ensures { Decides result (SameFrom a.now b.now i j t key_words) }
{
    for p in t..KEY_WORDS {
        if a[i + p] != b[j + p] {
            return false;
        }
    }
    true
}

// The number at i is below that at j.
pub fn less(a: &[u64], i: usize, b: &[u64], j: usize) -> bool
    requires key_words_in_bounds { i + key_words ≤ length a.now }
    requires key_words_in_bounds_2 { j + key_words ≤ length b.now }
    ensures { Decides result (key_at a.now i < key_at b.now j) }
{
    for p in (0..KEY_WORDS).rev() {
        let x = a[i + p];
        let y = b[j + p];
        if x != y {
            return x < y;
        }
    }
    false
}

// The tier from v down at which two numbers that lie in one block of tier v part.
pub fn parting(a: &[u64], i: usize, b: &[u64], j: usize, v: u64) -> u64
    requires key_words_in_bounds { i + key_words ≤ length a.now }
    requires key_words_in_bounds_2 { j + key_words ≤ length b.now }
    requires v_bound { v ≤ 66 }
    requires i_value { block (4 * v) (key_at a.now i) ≡ block (4 * v) (key_at b.now j) }
    ensures { PartAt (key_at a.now i) (key_at b.now j) v result }
{
    for u in (0..v).rev() {
        if !agree(a, i, b, j, u) {
            return u + 1;
        }
    }
    0
}
