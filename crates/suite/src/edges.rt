// The other refusals, each at its edge, and which of several is told.
use crate::desk::Desk;
use crate::sample;
use crate::sample::{BEHIND, CALL};
use layout::entry::MOST_WIDTH;
use std::alloc::{AllocError, Global};
use std::test::*;

// A text of one byte in front of the longest layout makes it one byte too long.
pub const ONE_MORE: &[u8; 4] = b"\x02\x01\x01x";

// The layout of 512 lines nested by 255.
pub fn longest(heap: Global) -> Result<Vec<u8>, AllocError> {
    let mut line = vec![in heap; b'\n'; 1]?;
    line.resize(256, b' ')?;
    line.as_slice().repeat(heap, 512)
}

// Width 255 is not too wide, and 256 is, as numbers and by the constant.
#[test]
fn widest(rt: HostRuntime) -> Result<(), Fail> {
    let mut desk = Desk::new(rt.alloc(), 100)?;
    desk.gives(BEHIND, 255, b"aaaa bcccc", 0)?;
    desk.refuses(BEHIND, 256, 2)?;
    desk.refuses(BEHIND, u64::MAX, 2)?;
    desk.gives(BEHIND, MOST_WIDTH, b"aaaa bcccc", 0)?;
    desk.refuses(BEHIND, MOST_WIDTH + 1, 2)
}

// A layout of 131,072 bytes is not too long, and one of 131,073 is.
#[test]
fn longest_layout(rt: HostRuntime) -> Result<(), Fail> {
    let heap = rt.alloc();
    let mut desk = Desk::new(heap, 131_080)?;
    let layout = longest(heap)?;
    assert_eq!(rt; layout.len(), 131_072);
    desk.gives(
        sample::lines_behind(heap, b"")?.as_slice(),
        80,
        layout.as_slice(),
        512,
    )?;
    desk.refuses(sample::lines_behind(heap, ONE_MORE)?.as_slice(), 80, 3)
}

// A buffer as long as a layout has room for it, and one that is a byte shorter has none.
fn just_enough(heap: Global, spelled: &[u8], layout: &[u8], lines: u64) -> Result<(), Fail> {
    let len = layout.len();
    Desk::new(heap, len)?.gives(spelled, 8, layout, lines)?;
    let Some(less) = len.checked_sub(1) else {
        return Ok(());
    };
    Desk::new(heap, less)?.refuses(spelled, 8, 4)
}

// A buffer may be exactly as long as a layout, of 10 bytes, of none and of 131,072.
#[test]
fn shortest_buffer(rt: HostRuntime) -> Result<(), Fail> {
    let heap = rt.alloc();
    just_enough(heap, BEHIND, b"aaaa\nbcccc", 1)?;
    just_enough(heap, b"\x00", b"", 0)?;
    let spelled = sample::lines_behind(heap, b"")?;
    just_enough(heap, spelled.as_slice(), longest(heap)?.as_slice(), 512)
}

// Of several refusals that apply the first is told.
#[test]
fn first_refusal(rt: HostRuntime) -> Result<(), Fail> {
    let heap = rt.alloc();
    let mut desk = Desk::new(heap, 0)?;
    let too_long = sample::lines_behind(heap, ONE_MORE)?;
    let cases: [(&[u8], u64, u64); 5] = [
        (b"\x06", 256, 1),
        (too_long.as_slice(), 256, 2),
        (CALL, 256, 2),
        (too_long.as_slice(), 80, 3),
        (CALL, 80, 4),
    ];
    for (spelled, width, number) in cases {
        desk.refuses(spelled, width, number)?;
    }
    Ok(())
}
