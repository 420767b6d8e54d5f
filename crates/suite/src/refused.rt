// What is no document, and what nearly is none.
use crate::desk::Desk;
use crate::sample;
use doc::node::ReadError;
use doc::nodes::Nodes;
use std::test::*;

// Each way of not being a document is refused with 1.
#[test]
fn no_document(rt: HostRuntime) -> Result<(), Fail> {
    let mut desk = Desk::new(rt.alloc(), 100)?;
    let cases: [&[u8]; 14] = [
        // nothing at all
        b"",
        // a byte that begins no document, at the beginning and in a part
        b"\x06",
        b"\xff",
        b"\x02\x00\x06",
        // a byte that is missing
        b"\x01",
        b"\x02",
        b"\x02\x04",
        b"\x03",
        b"\x03\x02",
        b"\x05",
        // a text that runs past the end, and one with byte 10 in it
        b"\x01\x03ab",
        b"\x01\x03a\nb",
        // bytes that are left over
        b"\x00\x00",
        b"\x01\x02abc",
    ];
    for spelled in cases {
        desk.refuses(spelled, 80, 1)?;
    }
    Ok(())
}

// 10 may be what a nest adds, and how long a text is.
#[test]
fn ten_is_a_number(rt: HostRuntime) -> Result<(), Fail> {
    let mut desk = Desk::new(rt.alloc(), 100)?;
    desk.gives(b"\x03\x0a\x04", 80, b"\n          ", 1)?;
    desk.gives(b"\x01\x0aabcdefghij", 80, b"abcdefghij", 0)
}

// An encoding of 65,536 bytes is a document, and one of 65,537 is none.
#[test]
fn longest_encoding(rt: HostRuntime) -> Result<(), Fail> {
    let heap = rt.alloc();
    let mut desk = Desk::new(heap, 100)?;
    let spelled = sample::groups(heap, 65_535)?;
    assert_eq!(rt; spelled.len(), 65_536);
    desk.gives(spelled.as_slice(), 80, b"", 0)?;
    let spelled = sample::groups(heap, 65_536)?;
    assert_eq!(rt; spelled.len(), 65_537);
    desk.refuses(spelled.as_slice(), 80, 1)
}

// What the reader answers where there is no document, and how it is printed.
#[test]
fn printed(rt: HostRuntime) -> Result<(), Fail> {
    let heap = rt.alloc();
    let mut nodes = Nodes::new(heap)?;
    assert_eq!(rt; nodes.read(b"\x06"), Err(ReadError::NotDocument));
    assert_eq!(rt;
        ReadError::NotDocument.to_string(heap)?.as_str(),
        "no document is encoded so"
    );
    Ok(())
}
