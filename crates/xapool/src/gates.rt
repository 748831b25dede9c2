// The call on the counts of a job: whether a share of it is within its limits (P14).
ghost use Rattle.std.specs.Prelude.{◌≡◌};
ghost use Rattle.gate.specs.Gate.{gate_result};

use answers::Report;

/// Whether a gate passes: kind 1 at least a is matched, 2 at most b is unread, 3 from a to b is matched. Answers 0 with
/// 1 pass or 0 fail, 18, 19 or 20.
#[unsafe(no_mangle)]
pub extern "C" fn xapool_gate(kind: u64, a: f64, b: f64, part: u32, total: u32) -> Report
    ensures { result ≡ gate_result kind a b part total }
{
    Report::from(gate::by_kind(kind, a, b, part, total))
}
