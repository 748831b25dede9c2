// What each call on a pool of names does: the exports of xapool hand over to these.
//
// pool: the borrowed words; key: the bytes of a key.
#![tactic(auto)]

ghost use Rattle.std.specs.Prelude.{◌≡◌};
ghost use Rattle.answers.specs.Answers.{result_of, report_of};
ghost use Rattle.assoc_check.specs.Answers.{check_answer, clear_answer, clear_words};
ghost use Rattle.assoc_calls.specs.Calls.{lookup};

use answers::{Answer, Refusal};
use assoc_lookup::look_bytes;

const MAX_KEY: usize = 32;

// Blanks the pool.
pub fn clear(pool: &mut [u64]) -> Result<u64, Refusal>
    ensures r_value { report_of result ≡ result_of (clear_answer pool.old) 0 }
    ensures pool_after { pool.new ≡ clear_words pool.old }
{
    assoc_check::clear(pool)?;
    Ok(0)
}

// Whether the words are well-formed.
pub fn check(pool: &[u64]) -> Result<u64, Refusal>
    ensures { report_of result ≡ result_of (check_answer pool.now) 0 }
{
    assoc_check::check(pool)?;
    Ok(0)
}

// The object of a key.
pub fn lookup(pool: &[u64], key: &[u8]) -> Result<u64, Refusal>
    ensures { report_of result ≡ lookup pool.now key.now }
{
    assoc_check::check(pool)?;
    if key.is_empty() || MAX_KEY < key.len() {
        return Err(Refusal::from(Answer::BadKey));
    }
    let w = look_bytes(pool, key).ok_or(Answer::Absent)?;
    Ok(w)
}
