// A document's nodes, behind one thin reference, since the recursions keep it in each frame.
use doc::node::Node;

#[derive(Clone, Copy)]
pub(crate) struct Tree<'a> {
    pub(crate) nodes: &'a [Node],
}
