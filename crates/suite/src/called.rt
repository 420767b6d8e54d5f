// Calls: the worked one at each width, and what is wrong with a source, and where.
use calls::call::CallRoom;
use calls::calling::set_call;
use calls::error::{CallError, Fault, FaultKind};
use calls::rule::{DEFAULT, Rule};
use layout::refusal::Refusal;
use std::test::*;

const CALL: &str = "let(x, put(bread,\n\tslice(cheese, thin), salt))\n";

const FLAT: &str = "let( x, put( bread, slice( cheese, thin ), salt ) )";

const INNER_FLAT: &str =
    "let(\n  x,\n  put(\n    bread,\n    slice( cheese, thin ),\n    salt\n  )\n)";

const BROKEN: &str =
    "let(\n  x,\n  put(\n    bread,\n    slice(\n      cheese,\n      thin\n    ),\n    salt\n  )\n)";

fn is_faulty(room: &mut CallRoom, source: &[u8], fault: Fault) -> Result<(), Fail> {
    let mut out = [7u8; 4];
    let answer = set_call(room, &DEFAULT, source, 80, &mut out);
    if answer != Err(CallError::Faulty(fault)) {
        return Err(Fail::new(format_args!("{answer:?}: the bytes {source:?}")));
    }
    if out != [7; 4] {
        return Err(Fail::new(format_args!("written: the bytes {source:?}")));
    }
    Ok(())
}

// The call has a layout for each width, whatever blanks the source has.
#[test]
fn call_at_each_width(rt: HostRuntime) -> Result<(), Fail> {
    let mut room = CallRoom::new(rt.alloc())?;
    let cases = [
        (60, FLAT, 0),
        (40, INNER_FLAT, 7),
        (20, BROKEN, 10),
        (10, BROKEN, 10),
    ];
    for (width, layout, lines) in cases {
        let mut out = [7u8; 120];
        let laid = set_call(&mut room, &DEFAULT, CALL.as_bytes(), width, &mut out)?;
        assert_eq!(rt; laid.length, layout.len());
        assert_eq!(rt; laid.lines, lines);
        assert!(rt; out.starts_with(layout.as_bytes()));
    }
    Ok(())
}

// Each fault is told with its place.
#[test]
fn faults(rt: HostRuntime) -> Result<(), Fail> {
    let mut room = CallRoom::new(rt.alloc())?;
    let cases = [
        ("", FaultKind::NoValue, 0),
        ("   ", FaultKind::NoValue, 3),
        (")", FaultKind::ClosesNothing, 0),
        ("f(a]", FaultKind::ClosesNothing, 3),
        ("f(a))", FaultKind::ClosesNothing, 4),
        ("f(a", FaultKind::LeftOpen, 1),
        ("f(a,(b", FaultKind::LeftOpen, 4),
        ("f(a,)", FaultKind::NoValue, 4),
        ("f(,a)", FaultKind::NoValue, 2),
        ("a b", FaultKind::Behind, 2),
        ("a,", FaultKind::Behind, 1),
        ("f(a b)", FaultKind::Behind, 4),
    ];
    for (source, kind, at) in cases {
        is_faulty(&mut room, source.as_bytes(), Fault { kind, at })?;
    }
    Ok(())
}

// Rules that take one byte for two things are refused.
#[test]
fn ambiguous_rules(rt: HostRuntime) -> Result<(), Fail> {
    let mut room = CallRoom::new(rt.alloc())?;
    let rules = [
        Rule {
            open: b'(',
            close: b')',
            separator: b',',
            indent: 2,
        },
        Rule {
            open: b'(',
            close: b']',
            separator: b',',
            indent: 2,
        },
    ];
    let mut out = [7u8; 4];
    let answer = set_call(&mut room, &rules, b"a", 80, &mut out);
    assert_eq!(rt; answer, Err(CallError::Ambiguous));
    assert_eq!(rt; out, [7; 4]);
    Ok(())
}

// Many brackets: left open, balanced, and more than a document can have.
#[test]
fn deep_sources(rt: HostRuntime) -> Result<(), Fail> {
    let heap = rt.alloc();
    let mut room = CallRoom::new(heap)?;
    let mut source = vec![in heap; b'('; 60_000]?;
    let fault = Fault {
        kind: FaultKind::LeftOpen,
        at: 59_999,
    };
    is_faulty(&mut room, source.as_slice(), fault)?;
    source.resize(120_000, b')')?;
    let mut out = [7u8; 4];
    let answer = set_call(&mut room, &DEFAULT, source.as_slice(), 80, &mut out);
    assert_eq!(rt; answer, Err(CallError::Refused(Refusal::NotDocument)));
    Ok(())
}

// A word that is longer than a text may be is set whole.
#[test]
fn long_word(rt: HostRuntime) -> Result<(), Fail> {
    let heap = rt.alloc();
    let mut room = CallRoom::new(heap)?;
    let source = vec![in heap; b'a'; 600]?;
    let mut out = vec![in heap; 7u8; 601]?;
    let laid = set_call(
        &mut room,
        &DEFAULT,
        source.as_slice(),
        80,
        out.as_mut_slice(),
    )?;
    assert_eq!(rt; laid.length, 600);
    assert!(rt; out.as_slice().starts_with(source.as_slice()));
    Ok(())
}

// What is wrong is printed in words, and where by its byte.
#[test]
fn printed(rt: HostRuntime) -> Result<(), Fail> {
    let heap = rt.alloc();
    let kind = FaultKind::LeftOpen;
    let faulty = CallError::Faulty(Fault { kind, at: 3 });
    assert_eq!(rt;
        faulty.to_string(heap)?.as_str(),
        "byte 3: this bracket is left open"
    );
    let refused = CallError::Refused(Refusal::TooWide);
    assert_eq!(rt; refused.to_string(heap)?.as_str(), "refused 2");
    Ok(())
}
