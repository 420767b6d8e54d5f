// Where a fault is, in words.
use std::fmt;

// Where a byte stands in a source. Lines and columns are counted from 1.
#[derive(Clone, Copy)]
pub(crate) struct Place {
    line: usize,
    column: usize,
}

impl Place {
    // The place of a byte in a source, or of its end.
    pub(crate) fn of(source: &[u8], at: usize) -> Place {
        let before = &source[..at.min(source.len())];
        let lines = before.iter().filter(|byte| **byte == b'\n').count();
        let columns = before
            .iter()
            .rev()
            .take_while(|byte| **byte != b'\n')
            .count();
        Place {
            line: lines.saturating_add(1),
            column: columns.saturating_add(1),
        }
    }
}

impl fmt::Display for Place {
    fn fmt<W: fmt::Write>(&self, f: &mut fmt::Formatter<W>) -> fmt::Result {
        let Place { line, column } = *self;
        write!(f, "line {line}, column {column}")
    }
}
