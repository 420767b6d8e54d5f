// A watch with a clock: of each stage the least time that any run took.
use layout::watch::{Stage, Watch};
use std::time::{Duration, Instant};

#[derive(Drop)]
pub(crate) struct Timer<'a> {
    rt: &'a HostRuntime,
    // When the stage began, where the clock tells.
    began: Option<Instant>,
    // Nothing for a stage that was never reached.
    pub(crate) reading: Option<Duration>,
    pub(crate) searching: Option<Duration>,
    pub(crate) writing: Option<Duration>,
}

impl Timer<'_> {
    // Nothing measured yet.
    pub(crate) fn new(rt: &HostRuntime) -> Timer<'_> {
        Timer {
            rt,
            began: None,
            reading: None,
            searching: None,
            writing: None,
        }
    }

    // One more run begins.
    pub(crate) fn begin(&mut self) {
        self.began = Instant::now(self.rt).ok();
    }
}

impl Watch for Timer<'_> {
    fn ended(&mut self, stage: Stage) {
        let now = Instant::now(self.rt).ok();
        // Where the clock tells nothing, no time is counted.
        let taken = now
            .zip(self.began)
            .map_or(Duration::ZERO, |(now, began)| now.duration_since(began));
        let least = match stage {
            Stage::Reading => &mut self.reading,
            Stage::Searching => &mut self.searching,
            Stage::Writing => &mut self.writing,
        };
        *least = Some(least.map_or(taken, |before| before.min(taken)));
        self.began = now;
    }
}
