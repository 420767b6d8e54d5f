// What can be wrong with a call: its rules, its source, or that there is no memory to read it with.
ghost use Rattle.std.specs.Prelude.{◌≡◌};
ghost use Rattle.calls.specs.declared.error.CallError.TheVariants.{Faulty, NoMemory, Refused};

use layout::refusal::Refusal;
use std::alloc::AllocFailed;
use std::error::Error;
use std::fmt;

// What is wrong with a source. The definitions have faults of their own, as what a source is must not name the code.
#[derive(Clone, Copy, Debug, PartialEq, Eq)]
pub enum FaultKind {
    ClosesNothing,
    LeftOpen,
    NoValue,
    Behind,
}

impl fmt::Display for FaultKind {
    ghost use Rattle.std.specs.Prelude.{Some};
    ghost use Rattle.calls.specs.Words.{fault_words};

    ghost output = { λ kind. Some (fault_words kind) };

    fn fmt<W: fmt::Write>(&self, f: &mut fmt::Formatter<W>) -> fmt::Result {
        f.write_str(match self {
            FaultKind::ClosesNothing => "this bracket closes nothing, or another one than is open",
            FaultKind::LeftOpen => "this bracket is left open",
            FaultKind::NoValue => "a value is missing here",
            FaultKind::Behind => "something stands behind the value",
        })
    }
}

// What is wrong with a source, and at which byte.
#[derive(Clone, Copy, Debug, PartialEq, Eq)]
pub struct Fault {
    pub kind: FaultKind,
    pub at: usize,
}

// Why a call is not laid out.
#[derive(Clone, Copy, Debug, PartialEq, Eq)]
pub enum CallError {
    // Two rules take one byte for different things, or a blank for a bracket.
    Ambiguous,
    Faulty(Fault),
    // There was no memory for so many open brackets.
    NoMemory,
    // The source is a value, but its document is not laid out.
    Refused(Refusal),
}

impl CallError {
    // Something is wrong at a byte.
    pub(crate) fn faulty(kind: FaultKind, at: usize) -> CallError
        ensures { result ≡ Faulty (record { kind = kind; at = at }) }
    {
        CallError::Faulty(Fault { kind, at })
    }
}

impl fmt::Display for CallError {
    ghost use Rattle.std.specs.Prelude.{Some};
    ghost use Rattle.calls.specs.Words.{error_words};

    ghost output = { λ error. Some (error_words error) };

    fn fmt<W: fmt::Write>(&self, f: &mut fmt::Formatter<W>) -> fmt::Result {
        match self {
            CallError::Ambiguous => write!(f, "ambiguous rules"),
            CallError::Faulty(fault) => write!(f, "byte {}: {}", fault.at, fault.kind),
            CallError::NoMemory => write!(f, "no memory"),
            CallError::Refused(refusal) => write!(f, "{refusal}"),
        }
    }
}

impl Error for CallError {}

impl From<Refusal> for CallError {
    ghost from_gives = { λ refusal e. e ≡ Refused refusal };

    fn from(refusal: Refusal) -> Self {
        Self::Refused(refusal)
    }
}

impl<T: Drop> From<AllocFailed<T>> for CallError {
    ghost from_gives = { λ _ e. e ≡ NoMemory };

    fn from(_e: AllocFailed<T>) -> Self {
        Self::NoMemory
    }
}
