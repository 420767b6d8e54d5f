// One node of a document. A document is a row of nodes, each before its parts: the project asks for this form, in memory that is taken once, where boxes would take some for each node.
use std::error::Error;
use std::fmt;

#[derive(Clone, Copy, Debug, PartialEq, Eq)]
pub enum Kind {
    Nil,
    // Where its first byte stands in the encoding, and how many there are; a slice would tie the row, which serves one document after the other, to the first one's bytes.
    Text(u32, u8),
    // Two parts, one behind the other.
    Cat,
    // One part, indented by so much more.
    Nest(u8),
    Line,
    Group,
}

#[derive(Clone, Copy, Debug, PartialEq, Eq)]
pub struct Node {
    pub kind: Kind,
    // The index behind its last part.
    pub end: u32,
}

// What was asked to be read is no encoded document, or is longer than one may be.
#[derive(Clone, Copy, Debug, PartialEq, Eq)]
pub enum ReadError {
    NotDocument,
}

impl fmt::Display for ReadError {
    ghost use Rattle.std.specs.Prelude.{Some, codes};

    ghost output = { λ _. Some (codes "no document is encoded so") };

    fn fmt<W: fmt::Write>(&self, f: &mut fmt::Formatter<W>) -> fmt::Result {
        f.write_str("no document is encoded so")
    }
}

impl Error for ReadError {}
