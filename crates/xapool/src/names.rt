// The calls on a pool of names, for a host: clear, check and look-up (P10). None has a `requires`: each refuses what it cannot use, and
// says what its result is and what is in all that it was lent.
//
// pool: the borrowed words; key: the bytes of a key.
ghost use Rattle.std.specs.Prelude.{◌≡◌};
ghost use Rattle.answers.specs.Answers.{result_of};
ghost use Rattle.assoc_check.specs.Answers.{check_answer, clear_answer, clear_words};
ghost use Rattle.assoc_calls.specs.Calls.{lookup};

use answers::Report;

/// Makes every block of a pool of names free and its list empty, whatever stood there. Answers 0, or 1 with nothing written.
#[unsafe(no_mangle)]
pub extern "C" fn assoc_clear(pool: &mut [u64]) -> Report
    ensures r_value { result ≡ result_of (clear_answer pool.old) 0 }
    ensures pool_after { pool.new ≡ clear_words pool.old }
{
    Report::from(assoc_calls::clear(pool))
}

/// Whether a pool of names is well-formed: whether some list of keys prescribes its words. Answers 0, 1 or 2; writes nothing.
#[unsafe(no_mangle)]
pub extern "C" fn assoc_check(pool: &[u64]) -> Report
    ensures r_value { result ≡ result_of (check_answer pool.now) 0 }
    ensures pool_value { pool.exit.now ≡ pool.entry.now }
{
    Report::from(assoc_calls::check(pool))
}

/// The object of a key, as it stands. Answers 0, 1, 2, 10 or 16; writes nothing.
#[unsafe(no_mangle)]
pub extern "C" fn assoc_lookup(pool: &[u64], key: &[u8]) -> Report
    ensures r_value { result ≡ lookup pool.now key.now }
    ensures pool_value { pool.exit.now ≡ pool.entry.now }
    ensures key_value { key.exit.now ≡ key.entry.now }
{
    Report::from(assoc_calls::lookup(pool, key))
}
