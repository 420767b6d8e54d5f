// A plain search through all layouts of a document, which shares nothing with the printer but the reader's nodes.
use doc::node::{Kind, Node};
use std::alloc::{AllocError, AllocFailed, Global};

// A document with more groups has too many layouts to go through.
const MOST_GROUPS: usize = 20;

// What a layout costs at a width, the bytes beyond it first: the printer's cost once more, as nothing is shared with it.
#[derive(Clone, Copy, PartialEq, Eq, PartialOrd, Ord)]
pub(crate) struct Price {
    pub(crate) beyond: u64,
    pub(crate) lines: usize,
}

// Whether each group is broken, as they are gone through.
pub(crate) trait Decider {
    // Whether the group is broken that begins at a column and has these nodes in it.
    fn breaks(&mut self, column: u64, inner: &[Node]) -> bool;
}

// A number's bits say which groups are broken, the first group's bit the highest.
#[derive(Drop)]
pub(crate) struct Numbered {
    number: u64,
    // The bit of the group before, twice the next one's.
    bit: u64,
}

impl Decider for Numbered {
    fn breaks(&mut self, _column: u64, _inner: &[Node]) -> bool {
        self.bit >>= 1;
        self.number & self.bit != 0
    }
}

// A printer that goes from the left and looks at the group alone: it is flat where it fits in so many columns.
#[derive(Drop)]
pub(crate) struct Greedy {
    pub(crate) width: u64,
}

impl Decider for Greedy {
    fn breaks(&mut self, column: u64, inner: &[Node]) -> bool {
        column.saturating_add(flat_length(inner)) > self.width
    }
}

// How long a node is on one line, without its parts.
fn width(node: &Node) -> u64 {
    match node.kind {
        Kind::Text(_, len) => u64::from(len),
        Kind::Line => 1,
        _ => 0,
    }
}

// How long some nodes are on one line.
fn flat_length(nodes: &[Node]) -> u64 {
    nodes
        .iter()
        .fold(0u64, |length, node| length.saturating_add(width(node)))
}

// Why no layout is made.
enum Stop {
    OutOfMemory,
    // A group in a flat one is said to be broken.
    NotLayout,
}

impl From<AllocError> for Stop {
    fn from(_: AllocError) -> Stop {
        Stop::OutOfMemory
    }
}

// The library has two errors of want of memory.
impl<T: Drop> From<AllocFailed<T>> for Stop {
    fn from(_: AllocFailed<T>) -> Stop {
        Stop::OutOfMemory
    }
}

// A layout as it is made.
#[derive(Drop)]
pub(crate) struct Layout {
    pub(crate) text: Vec<u8>,
    // How long each line is that has ended.
    ended: Vec<u64>,
    // How long the last line is.
    column: u64,
}

// What is around a part of a document.
#[derive(Clone, Copy)]
struct Around {
    indent: usize,
    // The mode of what is around, flat or broken: a flag and not the printer's `Mode`, as nothing is shared with it.
    flat: bool,
}

impl Around {
    // What is around the part of a group; no layout has a broken group in a flat one.
    fn group(self, broken: bool) -> Result<Around, Stop> {
        if broken && self.flat {
            return Err(Stop::NotLayout);
        }
        let flat = !broken;
        Ok(Around { flat, ..self })
    }
}

impl Layout {
    fn new(heap: Global) -> Layout {
        Layout {
            text: Vec::new(heap),
            ended: Vec::new(heap),
            column: 0,
        }
    }

    // The bytes beyond a width, of all lines together, and how many lines ended.
    pub(crate) fn price(&self, width: u64) -> Price {
        let last = self.column.saturating_sub(width);
        let beyond = self.ended.iter().fold(last, |sum, len| {
            sum.saturating_add(len.saturating_sub(width))
        });
        let lines = self.ended.len();
        Price { beyond, lines }
    }

    fn put(&mut self, text: &[u8]) -> Result<(), AllocError> {
        self.text.extend_from_slice(text)?;
        self.column = self.column.saturating_add(text.len() as u64);
        Ok(())
    }

    fn line(&mut self, around: Around) -> Result<(), AllocError> {
        if around.flat {
            return self.put(b" ");
        }
        self.ended.push(self.column)?;
        self.text.push(b'\n')?;
        let len = self.text.len().saturating_add(around.indent);
        self.text.resize(len, b' ')?;
        self.column = around.indent as u64;
        Ok(())
    }
}

// A document's nodes and encoding, and how many numbers there are of its layouts.
#[derive(Clone, Copy)]
pub(crate) struct Document<'a> {
    nodes: &'a [Node],
    pub(crate) spelled: &'a [u8],
    pub(crate) numbers: u64,
}

impl<'a> Document<'a> {
    // A document, or none where its layouts are too many.
    pub(crate) fn new(nodes: &'a [Node], spelled: &'a [u8]) -> Option<Document<'a>> {
        let groups = nodes.iter().filter(|node| node.kind == Kind::Group).count();
        if groups > MOST_GROUPS {
            return None;
        }
        Some(Document {
            nodes,
            spelled,
            numbers: 1 << groups,
        })
    }

    // The layout of a number, or none where a group in a flat one would be broken.
    pub(crate) fn numbered(&self, heap: Global, number: u64) -> Result<Option<Layout>, AllocError> {
        let bit = self.numbers;
        self.layout(heap, &mut Numbered { number, bit })
    }

    // The layout of some decisions, or none where a group in a flat one would be broken.
    pub(crate) fn layout<D: Decider>(
        &self,
        heap: Global,
        decider: &mut D,
    ) -> Result<Option<Layout>, AllocError> {
        let mut layout = Layout::new(heap);
        let around = Around {
            indent: 0,
            flat: false,
        };
        match self.part(&mut layout, decider, 0, around) {
            Ok(()) => Ok(Some(layout)),
            Err(Stop::NotLayout) => Ok(None),
            Err(Stop::OutOfMemory) => Err(AllocError),
        }
    }

    // Sets the part at an index: the row that is read is gone through as it is, since a tree would take a reader of its own.
    fn part<D: Decider>(
        &self,
        layout: &mut Layout,
        decider: &mut D,
        at: usize,
        around: Around,
    ) -> Result<(), Stop> {
        let Some(node) = self.nodes.get(at) else {
            return Ok(());
        };
        let end = node.end as usize;
        match node.kind {
            Kind::Nil => {}
            Kind::Text(start, len) => {
                let start = start as usize;
                let text = self.spelled.get(start..start + usize::from(len));
                layout.put(text.unwrap_or_default())?;
            }
            Kind::Line => layout.line(around)?,
            Kind::Nest(k) => {
                let indent = around.indent.saturating_add(usize::from(k));
                self.part(layout, decider, at + 1, Around { indent, ..around })?;
            }
            Kind::Group => {
                let inner = self.nodes.get(at..end).unwrap_or_default();
                let broken = decider.breaks(layout.column, inner);
                self.part(layout, decider, at + 1, around.group(broken)?)?;
            }
            Kind::Cat => {
                let second = self
                    .nodes
                    .get(at + 1)
                    .map_or(end, |first| first.end as usize);
                self.part(layout, decider, at + 1, around)?;
                self.part(layout, decider, second.max(at + 1), around)?;
            }
        }
        Ok(())
    }
}
