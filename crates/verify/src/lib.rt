// The check of a pool, and its init.
//
// pool: the borrowed words, 4 + 70 n of them for n nodes; map: words for the map of the free ones.
#![tactic(auto)]

ghost use Rattle.std.specs.Prelude.{◌≡◌, OnOk};
ghost use Rattle.answers.specs.Answers.{answer_of};
ghost use Rattle.freemap.specs.FreeMap.{BlankMap};
ghost use Rattle.freenodes.specs.FreeNodes.{FreeMap};
ghost use Rattle.verify.specs.Answers.{Counts, check_answer, init_answer, init_words};

use answers::Answer;
use freemap::MAP_WORDS;
use layout::{ANCHOR_WORDS, COUNT_WORD, MAX_NODES, NODE_WORDS, SPARE_WORD};
use scan::{head_ok, nodes_ok};
use words::{fill, records_in};

// The number of nodes, if the length is that of a pool.
pub fn nodes_in(pool: &[u64]) -> Option<u64>
    ensures { Counts pool.now result }
{
    records_in(pool.len() as u64, ANCHOR_WORDS, NODE_WORDS, MAX_NODES)
}

// Whether some list of entries prescribes the words, with its nodes at some numbers; then the map, of none so far, becomes that of the
// free nodes.
pub fn check_map(pool: &[u64], map: &mut [u64]) -> Result<(), Answer>
    requires { BlankMap map.old }
    ensures value { answer_of result ≡ check_answer pool.now }
    ensures free_map { OnOk result (FreeMap pool.now map.new) }
{
    let n = nodes_in(pool).ok_or(Answer::PoolLength)?;
    if pool[COUNT_WORD] != n {
        return Err(Answer::NotWellFormed);
    }
    if pool[SPARE_WORD] != 0 {
        return Err(Answer::NotWellFormed);
    }
    if !nodes_ok(pool, map) {
        return Err(Answer::NotWellFormed);
    }
    if !head_ok(pool) {
        return Err(Answer::NotWellFormed);
    }
    Ok(())
}

// The same for who needs no map.
pub fn check(pool: &[u64]) -> Result<(), Answer>
    ensures { answer_of result ≡ check_answer pool.now }
{
    let mut map = [0u64; MAP_WORDS];
    check_map(pool, &mut map)
}

// Makes every node free and the list empty: word 0 is the number of nodes, every other word 0. If the length is not
// that of a pool, nothing is written.
pub fn init(pool: &mut [u64]) -> Result<(), Answer>
    ensures value { answer_of result ≡ init_answer pool.old }
    ensures pool_after { pool.new ≡ init_words pool.old }
{
    let n = nodes_in(pool).ok_or(Answer::PoolLength)?;
    let len = pool.len() as u64;
    fill(pool, 0, 0, len);
    pool[COUNT_WORD] = n;
    Ok(())
}
