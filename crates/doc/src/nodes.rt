// The row of nodes of a document, in memory that is taken once for the longest document.
ghost use Rattle.std.specs.Prelude.{◌≡◌, [], IfOk};

use crate::node::Node;
use crate::reserved::Reserved;
use std::alloc::{AllocError, Global};

// An encoding has at most so many bytes, and so a document at most so many nodes.
pub const MOST_BYTES: usize = 65_536;

#[derive(Drop)]
pub struct Nodes {
    pub(crate) row: Reserved<Node, MOST_BYTES>,
}

impl Nodes {
    // An empty row, with room for any document.
    pub fn new(heap: Global) -> Result<Nodes, AllocError>
        ensures { IfOk result (λ n. n.row ≡ []) }
    {
        let row = Reserved::new(heap)?;
        Ok(Nodes { row })
    }

    // The nodes, in their order.
    pub fn as_slice(&self) -> &[Node]
        ensures { result.now ≡ self.now.row }
    {
        self.row.as_slice()
    }
}
