// A workspace and an output buffer, and what one call of the entry `set` has to answer, whose numbers are a format and are tested as such.
use layout::entry::set;
use layout::reply::Reply;
use layout::workspace::Workspace;
use std::alloc::{AllocError, Global};
use std::test::*;

// `compare` has calls like these, which count what is wrong, where a test has to fail.
#[derive(Drop)]
pub struct Desk {
    room: Workspace,
    out: Vec<u8>,
}

// The byte that an output buffer is filled with.
const FILLED: u8 = 7;

// Each byte is still the one that the buffer was filled with.
fn kept(bytes: &[u8]) -> Result<(), Fail> {
    match bytes.iter().find(|byte| **byte != FILLED) {
        Some(byte) => Err(Fail::new(format_args!("{byte} was written where nothing is to be"))),
        None => Ok(()),
    }
}

impl Desk {
    // An output buffer of so many bytes.
    pub fn new(heap: Global, len: usize) -> Result<Desk, AllocError> {
        let room = Workspace::new(heap)?;
        let out = vec![in heap; FILLED; len]?;
        Ok(Desk { room, out })
    }

    // The document and the width are parameters as `set` has them, here and below.
    fn ask(&mut self, spelled: &[u8], width: u64) -> Reply {
        let out = self.out.as_mut_slice();
        out.fill(FILLED);
        set(&mut self.room, spelled, width, out)
    }

    // The layout, its length and its lines; behind it the buffer is as it was.
    pub fn gives(
        &mut self,
        spelled: &[u8],
        width: u64,
        layout: &[u8],
        lines: u64,
    ) -> Result<(), Fail> {
        let reply = self.ask(spelled, width);
        // By its methods and not by `==`, as they are tested, too.
        let told = matches!(reply, Reply::Lines(_))
            && reply.lines() == lines
            && reply.length() == layout.len();
        if !told {
            return Err(Fail::new(format_args!("{reply:?} at width {width}")));
        }
        let Some(behind) = self.out.as_slice().strip_prefix(layout) else {
            return Err(Fail::new(format_args!("another layout at width {width}")));
        };
        kept(behind)
    }

    // A refusal by its number, as the format that is tested here has it; all of the buffer is as it was.
    pub fn refuses(&mut self, spelled: &[u8], width: u64, number: u64) -> Result<(), Fail> {
        let reply = self.ask(spelled, width);
        if reply != Reply::Refused(number) {
            return Err(Fail::new(format_args!("{reply:?}: the bytes {spelled:?}")));
        }
        kept(self.out.as_slice())
    }
}
