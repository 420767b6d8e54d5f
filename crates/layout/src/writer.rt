// The layout as it is written, in memory that is taken once for the longest one.
ghost use Rattle.std.specs.Prelude.{◌≤◌, length};

use doc::reserved::Reserved;
use std::alloc::{AllocError, Global};

// A layout has at most so many bytes.
pub const MOST_LAYOUT: usize = 131_072;

#[derive(Drop)]
pub(crate) struct Writer {
    pub(crate) out: Reserved<u8, MOST_LAYOUT>,
    pub(crate) column: usize,
    pub(crate) lines: usize,
    // How many of the notes have not been used yet, from their beginning; a number and no slice of them, which stand in the plan.
    pub(crate) left: usize,
    // As the type of the bytes says, for the lemmas that take a writer.
    ghost short: { length out ≤ 131072 },
    ghost inside: { column ≤ length out },
    ghost fewer: { lines ≤ length out },
}

impl Writer {
    ghost use Rattle.cost.specs.Layout.{empty};
    ghost use Rattle.layout.specs.Writing.{Holds};

    // Nothing written yet, with room for any layout.
    pub(crate) fn new(heap: Global) -> Result<Writer, AllocError> {
        let out = Reserved::new(heap)?;
        Ok(Writer {
            out,
            column: 0,
            lines: 0,
            left: 0,
        })
    }

    // Begins a layout, by so many notes.
    pub(crate) fn begin(&mut self, left: usize)
        ensures { Holds self.new empty left }
    {
        self.column = 0;
        self.lines = 0;
        self.left = left;
        self.out.clear();
    }
}
