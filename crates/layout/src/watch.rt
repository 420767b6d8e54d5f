// What laying out a document tells of its progress, for whoever measures it.

// The parts of the work, in their order.
#[derive(Clone, Copy, Debug, PartialEq, Eq)]
pub enum Stage {
    Reading,
    Searching,
    Writing,
}

// A trait and no closure: a function that calls a closure asks of its callers that it may be called.
pub trait Watch {
    // A stage has come to its end.
    fn ended(&mut self, stage: Stage);
}

// Watches nothing.
#[derive(Drop)]
pub struct Unwatched;

impl Watch for Unwatched {
    fn ended(&mut self, _stage: Stage) {}
}
