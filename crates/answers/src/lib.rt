// What calls and commands answer, under the names of include/xapool.h (R68 to R80, R181, R205, R272 to R274, R325, R341), and the report
// that a host gets of a call.
#![tactic(auto)]

ghost use Rattle.std.specs.Prelude.{◌≡◌};
ghost use Rattle.answers.specs.Answers.{number_of, refused, report_of};

// An answer that is not done: a refusal, or how else a command ended.
#[derive(Clone, Copy, PartialEq, Eq)]
pub enum Answer {
    PoolLength = 1,
    NotWellFormed,
    BadBatch,
    ReplySpace,
    BadOrder,
    BadEntry,
    BadMark,
    FirstAboveLast,
    NoBudget,
    Absent,
    TooFewNodes,
    Ended,
    Paused,
    NotAligned,
    Covered,
    BadKey,
    BadScript,
    BadGate,
    NoTotal,
    PartAboveTotal,
}

impl Answer {
    // Its number for a host, and in a reply.
    pub fn number(self) -> u64
        ensures { result ≡ number_of self }
    {
        self as u64
    }
}

// The number of an answer that is done.
pub const DONE: u64 = 0;

// Why a call was refused, and the number that goes with it (R68 to R72).
#[derive(Clone, Copy, PartialEq, Eq)]
pub struct Refusal {
    pub answer: Answer,
    pub number: u64,
}

impl From<Answer> for Refusal {
    ghost from_gives = { λ a r. r ≡ refused a };

    fn from(answer: Answer) -> Refusal {
        Refusal { answer, number: 0 }
    }
}

// What a host gets of a call: the number of the answer, 0 for done, and the number that goes with it.
#[repr(C)]
#[derive(Clone, Copy, PartialEq, Eq)]
pub struct Report {
    pub answer: u64,
    pub number: u64,
}

impl From<Result<u64, Refusal>> for Report {
    ghost from_gives = { λ r x. x ≡ report_of r };

    fn from(outcome: Result<u64, Refusal>) -> Report {
        match outcome {
            Ok(number) => Report {
                answer: DONE,
                number,
            },
            Err(r) => Report {
                answer: r.answer.number(),
                number: r.number,
            },
        }
    }
}
