// The byte that an encoded document begins with: of each kind of node one, whose kind carries what was read besides.
ghost use Rattle.doc.specs.Tags.{Tells};

#[derive(Clone, Copy, Debug, PartialEq, Eq)]
pub enum Tag {
    Nil = 0,
    Text = 1,
    Cat = 2,
    Nest = 3,
    Line = 4,
    Group = 5,
}

// A byte that no document begins with. It has no words: the reader says that there is no document.
#[derive(Clone, Copy, Debug, PartialEq, Eq)]
pub struct NoTag(pub u8);

impl TryFrom<u8> for Tag {
    type Error = NoTag;

    ghost try_from_gives = { Tells };

    fn try_from(byte: u8) -> Result<Tag, NoTag> {
        match byte {
            0 => Ok(Tag::Nil),
            1 => Ok(Tag::Text),
            2 => Ok(Tag::Cat),
            3 => Ok(Tag::Nest),
            4 => Ok(Tag::Line),
            5 => Ok(Tag::Group),
            _ => Err(NoTag(byte)),
        }
    }
}
