// The search as it goes, in memory that is taken once for the largest document and width.
ghost use Rattle.std.specs.Prelude.{◌≡◌, ◌+◌, ◌≤◌, length};

use cost::price::Cost;
use doc::reserved::Reserved;
use std::alloc::{AllocError, Global};

// A row has at most so many costs.
const MOST_COLUMNS: usize = 256;

// At most so many costs are kept, and so many decisions noted.
const MOST_KEPT: usize = 16_777_216;

#[derive(Drop)]
pub(crate) struct Search {
    pub(crate) width: u8,
    // What the rest costs at each column up to the width, if it is read so much further on.
    pub(crate) row: Reserved<Cost, MOST_COLUMNS>,
    pub(crate) offset: usize,
    // How long all that was gone through is on one line.
    pub(crate) flat: usize,
    // The rows behind the groups that are being gone through, one behind the other, since memory is taken once.
    pub(crate) saved: Reserved<Cost, MOST_KEPT>,
    // For each group that was gone through, whether it is broken at each column, one row behind the other, too.
    pub(crate) notes: Reserved<bool, MOST_KEPT>,
    ghost near: { offset ≤ flat },
    ghost long: { length row ≡ width + 1 },
    // As the row's type says, for the lemmas that take a search.
    ghost few: { length row ≤ 256 },
}

impl Search {
    // A search with room for any document at any width.
    pub(crate) fn new(heap: Global) -> Result<Search, AllocError> {
        let mut row = Reserved::new(heap)?;
        row.push(Cost::default());
        let saved = Reserved::new(heap)?;
        let notes = Reserved::new(heap)?;
        Ok(Search {
            width: 0,
            row,
            offset: 0,
            flat: 0,
            saved,
            notes,
        })
    }
}
