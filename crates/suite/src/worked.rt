// The worked examples, and the row of a small document.
use crate::desk::Desk;
use crate::sample::{BEHIND, CALL};
use doc::node::{Kind, Node};
use doc::nodes::Nodes;
use std::test::*;

const FLAT: &str = "let x = put( bread, slice( cheese, thin ), salt )\nin x";

const INNER_FLAT: &str = "let x = put(\n  bread,\n  slice( cheese, thin ),\n  salt\n)\nin x";

const BROKEN: &str =
    "let x = put(\n  bread,\n  slice(\n    cheese,\n    thin\n  ),\n  salt\n)\nin x";

// The call of docs/format.md has there a layout for each width.
#[test]
fn call_at_each_width(rt: HostRuntime) -> Result<(), Fail> {
    let mut desk = Desk::new(rt.alloc(), 100)?;
    let cases = [
        (60, FLAT, 1),
        (40, INNER_FLAT, 5),
        (30, INNER_FLAT, 5),
        (20, BROKEN, 8),
        (10, BROKEN, 8),
    ];
    for (width, layout, lines) in cases {
        desk.gives(CALL, width, layout.as_bytes(), lines)?;
    }
    Ok(())
}

// A group that fits by itself breaks where what stands behind it does not fit.
#[test]
fn looks_behind_a_group(rt: HostRuntime) -> Result<(), Fail> {
    let mut desk = Desk::new(rt.alloc(), 100)?;
    desk.gives(BEHIND, 8, b"aaaa\nbcccc", 1)?;
    desk.gives(BEHIND, 10, b"aaaa bcccc", 0)
}

// The nodes of a cat of "ab" and a group of a line, each before its parts, and where each ends.
#[test]
fn row_of_nodes(rt: HostRuntime) -> Result<(), Fail> {
    let mut nodes = Nodes::new(rt.alloc())?;
    nodes.read(b"\x02\x01\x02ab\x05\x04")?;
    let row = [
        (Kind::Cat, 4),
        (Kind::Text(3, 2), 2),
        (Kind::Group, 4),
        (Kind::Line, 4),
    ];
    let row = row.map(|(kind, end)| Node { kind, end });
    assert_eq!(rt; nodes.as_slice(), row.as_slice());
    Ok(())
}
