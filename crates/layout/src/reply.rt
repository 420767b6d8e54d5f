// What the entry answers: numbers, in the format that the project asks for. `Workspace::lay_out` answers a `Result`.
ghost use Rattle.std.specs.Prelude.{◌≡◌};
ghost use Rattle.layout.specs.Entry.{reply_length, reply_lines};

use crate::laid::Laid;
use crate::refusal::Refusal;

// In an answer, lines are counted in this unit, above the length.
pub const LINES_UNIT: u64 = 4_294_967_296;

#[derive(Clone, Copy, Debug, PartialEq, Eq)]
pub enum Reply {
    // How many lines ended, times 2^32, and the layout's length.
    Lines(u64),
    // The number of the refusal.
    Refused(u64),
}

impl Reply {
    // How long the layout is, or 0 where there is none, as this format has it.
    pub fn length(self) -> usize
        ensures { result ≡ reply_length self }
    {
        match self {
            Reply::Lines(n) => (n % LINES_UNIT) as usize,
            Reply::Refused(_) => 0,
        }
    }

    // How many lines ended, or 0 where there is no layout, as this format has it.
    pub fn lines(self) -> u64
        ensures { result ≡ reply_lines self }
    {
        match self {
            Reply::Lines(n) => n / LINES_UNIT,
            Reply::Refused(_) => 0,
        }
    }
}

impl From<Result<Laid, Refusal>> for Reply {
    ghost use Rattle.layout.specs.Entry.{reply_of};

    ghost from_gives = { λ answer r. r ≡ reply_of answer };

    fn from(answer: Result<Laid, Refusal>) -> Reply {
        match answer {
            // By `as`, since `u64` has no `From<usize>`.
            Ok(laid) => Reply::Lines(laid.lines as u64 * LINES_UNIT + laid.length as u64),
            Err(refusal) => Reply::Refused(refusal.number()),
        }
    }
}
