// The encoding as it is made, in memory that is taken once for the longest one.
ghost use Rattle.std.specs.Prelude.{◌≡◌, []};

use doc::nodes::MOST_BYTES;
use doc::reserved::Reserved;
use std::alloc::{AllocError, Global};

#[derive(Drop)]
pub(crate) struct Encoder {
    pub(crate) out: Reserved<u8, MOST_BYTES>,
}

impl Encoder {
    // Nothing encoded yet, with room for any encoding.
    pub(crate) fn new(heap: Global) -> Result<Encoder, AllocError> {
        let out = Reserved::new(heap)?;
        Ok(Encoder { out })
    }

    // Begins an encoding.
    pub(crate) fn begin(&mut self)
        ensures { self.new.out ≡ [] }
    {
        self.out.clear();
    }
}
