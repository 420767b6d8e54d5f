// Reading: from the bytes of an encoding to the row of its nodes.
ghost use Rattle.std.specs.Prelude.{◌≡◌, ◌+◌, ◌<◌, ◌≤◌, [], ◌∷◌, ◌++◌, length};
ghost use Rattle.doc.specs.Encoding.{has_newline};
ghost use Rattle.doc.specs.Nodes.{node};
ghost use Rattle.doc.specs.Reading.{ByteAt, TagAt, TextAt, ReadsOn, ReadSays, ReadsWhole, closed};

use crate::node::{Kind, Node, ReadError};
use crate::nodes::{MOST_BYTES, Nodes};
use crate::tag::Tag;

// The byte that ends a line, which no text has.
pub const NEWLINE: u8 = b'\n';

fn has_newline(text: &[u8]) -> bool
    ensures { result ≡ has_newline text.now }
{
    text.contains(&NEWLINE)
}

// The bytes that are read, behind one thin reference, since the recursion keeps it in each frame.
#[derive(Clone, Copy)]
struct Source<'a> {
    bytes: &'a [u8],
    ghost few: { length bytes.now ≤ 65536 },
}

impl Source<'_> {
    fn byte(&self, at: usize) -> Option<u8>
        ensures { ByteAt self.now.bytes.now at result }
    {
        self.bytes.get(at).copied()
    }

    // What the document at a position begins with.
    fn tag(&self, at: usize) -> Option<Tag>
        ensures { TagAt self.now.bytes.now at result }
    {
        Tag::try_from(self.byte(at)?).ok()
    }

    // How long the text is whose length stands at a position.
    fn text(&self, at: usize) -> Option<u8>
        ensures { TextAt self.now.bytes.now at result }
    {
        let len = self.byte(at)?;
        let start = at + 1;
        let end = start + usize::from(len);
        if has_newline(self.bytes.get(start..end)?) {
            return None;
        }
        Some(len)
    }
}

impl Nodes {
    // Adds a node with no parts yet, and answers where it stands.
    fn add(&mut self, kind: Kind) -> usize
        requires { length self.old.row < 65536 }
        ensures place { result ≡ length self.old.row }
        ensures items { self.new.row ≡ self.old.row ++ node kind (length self.old.row + 1) ∷ [] }
    {
        let place = self.row.len();
        let end = (place + 1) as u32;
        self.row.push(Node { kind, end });
        place
    }

    // Adds a node that has no parts, and answers where it ends, as an Option, which `document` answers.
    fn leaf(&mut self, kind: Kind, end: usize) -> Option<usize>
        requires { length self.old.row < 65536 }
        ensures end { result ≡ Some end }
        ensures items { self.new.row ≡ self.old.row ++ node kind (length self.old.row + 1) ∷ [] }
    {
        self.add(kind);
        Some(end)
    }

    // Ends a node behind all that was added after it.
    fn close(&mut self, place: usize)
        requires { place < length self.old.row }
        ensures { self.new.row ≡ closed self.old.row place }
    {
        let end = self.row.len() as u32;
        self.row.as_mut_slice()[place].end = end;
    }

    // Adds the nodes of the document that begins at a position, and answers where it ends.
    fn document(&mut self, source: &Source, at: usize) -> Option<usize>
        requires { length self.old.row ≤ at }
        ensures { ReadsOn source.now.bytes.now at self.old.row self.new.row result }
    {
        match source.tag(at)? {
            Tag::Nil => self.leaf(Kind::Nil, at + 1),
            Tag::Text => {
                let len = source.text(at + 1)?;
                let kind = Kind::Text((at + 2) as u32, len);
                self.leaf(kind, at + 2 + usize::from(len))
            }
            Tag::Cat => {
                let place = self.add(Kind::Cat);
                let middle = self.document(source, at + 1)?;
                let end = self.document(source, middle)?;
                self.close(place);
                Some(end)
            }
            Tag::Nest => {
                let k = source.byte(at + 1)?;
                let place = self.add(Kind::Nest(k));
                let end = self.document(source, at + 2)?;
                self.close(place);
                Some(end)
            }
            Tag::Line => self.leaf(Kind::Line, at + 1),
            Tag::Group => {
                let place = self.add(Kind::Group);
                let end = self.document(source, at + 1)?;
                self.close(place);
                Some(end)
            }
        }
    }

    // Reads an encoding to its end into an empty row, if it is a document.
    fn whole(&mut self, spelled: &[u8]) -> Option<()>
        requires { self.old.row ≡ [] }
        ensures { ReadsWhole spelled.now self.new.row result }
    {
        if spelled.len() > MOST_BYTES {
            return None;
        }
        let source = Source { bytes: spelled };
        let end = self.document(&source, 0)?;
        if end < spelled.len() {
            return None;
        }
        Some(())
    }

    // Reads an encoding to its end. The row is then the document's, and empty where there is none.
    pub fn read(&mut self, spelled: &[u8]) -> Result<(), ReadError>
        ensures { ReadSays spelled.now self.new.row result }
    {
        self.row.clear();
        let read = self.whole(spelled);
        if read.is_none() {
            self.row.clear();
        }
        read.ok_or(ReadError::NotDocument)
    }
}
