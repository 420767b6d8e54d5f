// What a call keeps: the bytes that it does not write, and nothing from one call to the next.
use crate::desk::Desk;
use crate::sample::{BEHIND, CALL};
use crate::{edges, sample};
use layout::entry::set;
use layout::reply::Reply;
use layout::workspace::Workspace;
use std::test::*;

// The bytes behind a layout are as they were, and all of them where it is refused.
#[test]
fn rest_of_the_buffer(rt: HostRuntime) -> Result<(), Fail> {
    let mut room = Workspace::new(rt.alloc())?;
    let mut out = [7; 12];
    let reply = set(&mut room, BEHIND, 8, &mut out);
    // one line that ended, and ten bytes
    assert_eq!(rt; reply, Reply::Lines(4_294_967_296 + 10));
    assert_eq!(rt; &out, b"aaaa\nbcccc\x07\x07");
    let mut short = [7; 9];
    let reply = set(&mut room, BEHIND, 8, &mut short);
    assert_eq!(rt; reply, Reply::Refused(4));
    assert_eq!(rt; &short, &[7; 9]);
    Ok(())
}

// A workspace serves one call after the other, each as if it were the first.
#[test]
fn call_after_call(rt: HostRuntime) -> Result<(), Fail> {
    let heap = rt.alloc();
    let mut desk = Desk::new(heap, 131_072)?;
    let spelled = sample::lines_behind(heap, b"")?;
    let layout = edges::longest(heap)?;
    for _ in 0..2 {
        desk.gives(spelled.as_slice(), 80, layout.as_slice(), 512)?;
        desk.gives(BEHIND, 8, b"aaaa\nbcccc", 1)?;
        desk.refuses(b"\x02\x04", 8, 1)?;
        desk.refuses(CALL, 256, 2)?;
    }
    Ok(())
}
