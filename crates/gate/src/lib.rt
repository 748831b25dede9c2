// Gates (P14): the share that a part has of a total, held to limits from 0 to 1.
//
// g: a gate, with the limits a and b; x: a limit or a share; part, total: 32-bit counts, each a float exactly.
#![tactic(auto)]

ghost use Rattle.std.specs.Prelude.{◌≡◌};
ghost use Rattle.answers.specs.Answers.{report_of};
ghost use Rattle.gate.specs.Gate.{share, bad_limit, bad_limits, holds, judge, gate_of, gate_result};

use answers::{Answer, Refusal};

// Each kind has its own limits, and no other is looked at.
#[derive(Clone, Copy)]
pub enum Gate {
    MatchedAtLeast(f64),
    UnreadAtMost(f64),
    MatchedBetween(f64, f64),
}

// A fail is first: it is what memory of zeros reads as, and its number is 0.
#[derive(Clone, Copy, PartialEq, Eq)]
pub enum Verdict {
    Fail,
    Pass,
}

// One division, rounded once.
fn share(part: u32, total: u32) -> f64
    ensures { result ≡ share part total }
{
    part as f64 / total as f64
}

// No number from 0 to 1.
fn bad_limit(x: f64) -> bool
    ensures { result ≡ bad_limit x }
{
    if x != x {
        return true;
    }
    if x < 0.0 {
        return true;
    }
    x > 1.0
}

fn bad_limits(g: Gate) -> bool
    ensures { result ≡ bad_limits g }
{
    match g {
        Gate::MatchedAtLeast(a) => bad_limit(a),
        Gate::UnreadAtMost(b) => bad_limit(b),
        Gate::MatchedBetween(a, b) => {
            if bad_limit(a) {
                return true;
            }
            if bad_limit(b) {
                return true;
            }
            a > b
        }
    }
}

fn holds(g: Gate, x: f64) -> bool
    ensures { result ≡ holds g x }
{
    match g {
        Gate::MatchedAtLeast(a) => x >= a,
        Gate::UnreadAtMost(b) => x <= b,
        Gate::MatchedBetween(a, b) => {
            if x >= a {
                return x <= b;
            }
            false
        }
    }
}

/// What a gate says of a part and a total, where it can say anything.
pub fn judge(g: Gate, part: u32, total: u32) -> Result<Verdict, Answer>
    ensures { result ≡ judge g part total }
{
    if bad_limits(g) {
        return Err(Answer::BadGate);
    }
    if total == 0 {
        return Err(Answer::NoTotal);
    }
    if total < part {
        return Err(Answer::PartAboveTotal);
    }
    if holds(g, share(part, total)) {
        return Ok(Verdict::Pass);
    }
    Ok(Verdict::Fail)
}

// A gate by its kind: 1 at least a is matched, 2 at most b is unread, 3 from a to b is matched; of any other kind there is none.
fn gate_of(kind: u64, a: f64, b: f64) -> Option<Gate>
    ensures { result ≡ gate_of kind a b }
{
    match kind {
        1 => Some(Gate::MatchedAtLeast(a)),
        2 => Some(Gate::UnreadAtMost(b)),
        3 => Some(Gate::MatchedBetween(a, b)),
        _ => None,
    }
}

/// What the gate of a kind says, as a number: 1 pass, 0 fail.
pub fn by_kind(kind: u64, a: f64, b: f64, part: u32, total: u32) -> Result<u64, Refusal>
    ensures { report_of result ≡ gate_result kind a b part total }
{
    let gate = gate_of(kind, a, b).ok_or(Answer::BadGate)?;
    let verdict = judge(gate, part, total)?;
    Ok(verdict as u64)
}
