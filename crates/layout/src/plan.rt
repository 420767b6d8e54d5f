// What a layout is written by, behind one thin reference, since the recursion keeps it in each frame.
use doc::node::Node;

#[derive(Clone, Copy)]
pub(crate) struct Plan<'a> {
    pub(crate) nodes: &'a [Node],
    pub(crate) source: &'a [u8],
    // The decisions that the search has noted, a row for each group, the first group's last.
    pub(crate) notes: &'a [bool],
    pub(crate) width: u8,
}
