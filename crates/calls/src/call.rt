// The memory for laying out calls.
use crate::encoder::Encoder;
use crate::reader::Reader;
use layout::workspace::Workspace;
use std::alloc::{AllocError, Global};

#[derive(Drop)]
pub struct CallRoom {
    pub(crate) reader: Reader,
    pub(crate) encoder: Encoder,
    pub(crate) room: Workspace,
}

impl CallRoom {
    pub fn new(heap: Global) -> Result<CallRoom, AllocError> {
        let reader = Reader::new(heap);
        let encoder = Encoder::new(heap)?;
        let room = Workspace::new(heap)?;
        Ok(CallRoom {
            reader,
            encoder,
            room,
        })
    }
}
