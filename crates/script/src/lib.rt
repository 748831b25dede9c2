// Applying an edit script: the words that a command changes, written by themselves (P11).
//
// pool: the borrowed words; script: pairs of a place and a word, one after the other.
#![tactic(auto)]

ghost use Rattle.std.specs.Prelude.{◌≡◌, true, length};
ghost use Rattle.answers.specs.Answers.{report_of};
ghost use Rattle.script.specs.Script.{places_below, applied, apply_words, apply_result};

use answers::{Answer, Refusal};
use verify::nodes_in;

// Every place of a script lies below n.
fn places_below(script: &[u64], n: u64) -> bool
    ensures { result ≡ places_below n script.now }
{
    let (pairs, _) = script.as_chunks::<2>();
    pairs.iter().all(|[p, _]| *p < n)
}

// Writes each word of a script, also one that is there already: what stands before it may be anything.
fn write_all(pool: &mut [u64], script: &[u64])
    requires { places_below (length pool.old) script.now ≡ true }
    ensures { pool.new ≡ applied pool.old script.now }
{
    let (pairs, _) = script.as_chunks::<2>();
    for [p, x] in pairs {
        pool[*p as usize] = *x;
    }
}

/// Applies a script: 1 if the length is not that of a pool, 17 if the script has a place outside the pool or is not in
/// whole pairs, each with nothing written; else 0. The pool need not be well-formed.
pub fn apply(pool: &mut [u64], script: &[u64]) -> Result<u64, Refusal>
    ensures r_value { report_of result ≡ apply_result pool.old script.now }
    ensures pool_after { pool.new ≡ apply_words pool.old script.now }
    ensures script_value { script.exit.now ≡ script.entry.now }
{
    nodes_in(pool).ok_or(Answer::PoolLength)?;
    if script.len() % 2 != 0 {
        return Err(Refusal::from(Answer::BadScript));
    }
    let n = pool.len() as u64;
    if !places_below(script, n) {
        return Err(Refusal::from(Answer::BadScript));
    }
    write_all(pool, script);
    Ok(0)
}
