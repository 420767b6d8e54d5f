// Why a document is not laid out.
ghost use Rattle.std.specs.Prelude.{◌≡◌};
ghost use Rattle.layout.specs.Entry.{refusal_number};

use std::error::Error;
use std::fmt;

// The refusals by their numbers, in the order in which they are told.
#[derive(Clone, Copy, Debug, PartialEq, Eq)]
pub enum Refusal {
    // The bytes are no encoded document, or are too many.
    NotDocument = 1,
    // The width is above the widest.
    TooWide = 2,
    // The best layout has more bytes than a layout may have.
    TooLong = 3,
    // The output buffer is shorter than the best layout.
    NoRoom = 4,
}

impl Refusal {
    // The number that it is told by.
    pub fn number(self) -> u64
        ensures { result ≡ refusal_number self }
    {
        self as u64
    }
}

impl fmt::Display for Refusal {
    ghost use Rattle.std.specs.Prelude.{Some};
    ghost use Rattle.layout.specs.Entry.{refusal_text};

    ghost output = { λ e. Some (refusal_text e) };

    fn fmt<W: fmt::Write>(&self, f: &mut fmt::Formatter<W>) -> fmt::Result {
        write!(f, "refused {}", self.number())
    }
}

impl Error for Refusal {}
