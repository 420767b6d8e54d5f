// Everything that laying out a document needs, taken once for the largest document and width.
use crate::search::Search;
use crate::writer::Writer;
use doc::nodes::Nodes;
use std::alloc::{AllocError, Global};

#[derive(Drop)]
pub struct Workspace {
    pub(crate) nodes: Nodes,
    pub(crate) search: Search,
    pub(crate) writer: Writer,
}

impl Workspace {
    // The only place where memory can be wanting.
    pub fn new(heap: Global) -> Result<Workspace, AllocError> {
        let nodes = Nodes::new(heap)?;
        let search = Search::new(heap)?;
        let writer = Writer::new(heap)?;
        Ok(Workspace {
            nodes,
            search,
            writer,
        })
    }
}
