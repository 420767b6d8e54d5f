// What Rust callers are answered: what is known of a layout, or why there is none; and what a watch is told.
use crate::sample::{BEHIND, CALL};
use crate::{edges, sample};
use layout::refusal::Refusal;
use layout::watch::{Stage, Watch};
use layout::workspace::Workspace;
use std::test::*;

// The bytes and the lines of a layout.
#[test]
fn laid(rt: HostRuntime) -> Result<(), Fail> {
    let heap = rt.alloc();
    let mut room = Workspace::new(heap)?;
    let mut out = [7; 12];
    let laid = room.lay_out(BEHIND, 8, &mut out)?;
    assert_eq!(rt; laid.length, 10);
    assert_eq!(rt; laid.lines, 1);
    assert_eq!(rt; &out, b"aaaa\nbcccc\x07\x07");
    Ok(())
}

// Each refusal, and how it is printed.
#[test]
fn refusals(rt: HostRuntime) -> Result<(), Fail> {
    let heap = rt.alloc();
    let mut room = Workspace::new(heap)?;
    let too_long = sample::lines_behind(heap, edges::ONE_MORE)?;
    let cases: [(&[u8], u64, Refusal, &str); 4] = [
        (b"\x06", 8, Refusal::NotDocument, "refused 1"),
        (CALL, 256, Refusal::TooWide, "refused 2"),
        (too_long.as_slice(), 80, Refusal::TooLong, "refused 3"),
        (CALL, 80, Refusal::NoRoom, "refused 4"),
    ];
    for (spelled, width, refusal, printed) in cases {
        let answer = room.lay_out(spelled, width, &mut [7; 9]);
        assert_eq!(rt; answer, Err(refusal));
        assert_eq!(rt; refusal.to_string(heap)?.as_str(), printed);
    }
    Ok(())
}

// Keeps the stages that it is told of.
#[derive(Drop)]
struct Told {
    stages: Vec<Stage>,
}

impl Watch for Told {
    fn ended(&mut self, stage: Stage) {
        // A stage that is lost fails the comparison.
        let _ = self.stages.push(stage);
    }
}

// A watch is told of each stage, in their order, and of none that was not reached.
#[test]
fn stages(rt: HostRuntime) -> Result<(), Fail> {
    let heap = rt.alloc();
    let mut room = Workspace::new(heap)?;
    let mut told = Told {
        stages: Vec::new(heap),
    };
    let laid = room.lay_out_watched(BEHIND, 8, &mut [7; 10], &mut told)?;
    assert_eq!(rt; laid.length, 10);
    let all = [Stage::Reading, Stage::Searching, Stage::Writing];
    assert_eq!(rt; told.stages.as_slice(), all.as_slice());
    told.stages.clear();
    let answer = room.lay_out_watched(BEHIND, 256, &mut [7; 10], &mut told);
    assert_eq!(rt; answer, Err(Refusal::TooWide));
    assert_eq!(rt; told.stages.as_slice(), [Stage::Reading].as_slice());
    Ok(())
}
