// setcall: reads a source of brackets, commas and words from standard input, and prints its best layout.
#![tactic(auto)]

mod report;

use crate::report::Place;
use anyhow::anyhow;
use calls::call::CallRoom;
use calls::calling::set_call;
use calls::error::{CallError, Fault};
use calls::rule::DEFAULT;
use layout::entry::MOST_LAYOUT;
use std::env;
use std::io::{Read, Write};

const USAGE: &str =
    "usage: setcall [WIDTH]\nReads a source such as f(a, g(b, c)) from standard input and prints its best layout at the width, 0 to 255, or 60 where none is given.";

// The width where none is given.
const USUAL_WIDTH: u8 = 60;

// Longer sources are not read to their end: their documents would be too long.
const MOST_SOURCE: u64 = 16_777_216;

// Lays out standard input at a width.
fn run(rt: &HostRuntime, width: u8) -> anyhow::Result<()> {
    let heap = rt.alloc();
    let mut room = CallRoom::new(heap)?;
    let mut source = Vec::new(heap);
    rt.stdin().take(MOST_SOURCE).read_to_end(&mut source)?;
    let mut out = vec![in heap; 0u8; MOST_LAYOUT]?;
    let answer = set_call(
        &mut room,
        &DEFAULT,
        source.as_slice(),
        u64::from(width),
        out.as_mut_slice(),
    );
    match answer {
        Ok(laid) => {
            rt.stdout().write_all(&out.as_slice()[..laid.length])?;
            println!(rt; "")?;
            Ok(())
        }
        Err(CallError::Faulty(Fault { kind, at })) => {
            let place = Place::of(source.as_slice(), at);
            eprintln!(rt; "setcall: {place}: {kind}")?;
            Err(anyhow!("no value"))
        }
        Err(CallError::Refused(refusal)) => {
            eprintln!(rt; "{refusal}")?;
            Err(anyhow!("refused"))
        }
        Err(error) => {
            eprintln!(rt; "setcall: {error}")?;
            Err(anyhow!("{error}"))
        }
    }
}

fn main(rt: HostRuntime) -> anyhow::Result<()> {
    let Some(first) = env::args(&rt)?.nth(1) else {
        return run(&rt, USUAL_WIDTH);
    };
    if first.as_str() == "--help" {
        println!(rt; "{USAGE}")?;
        return Ok(());
    }
    let Ok(width) = first.as_str().parse::<u8>() else {
        eprintln!(rt; "setcall: no width from 0 to 255: {first}")?;
        eprintln!(rt; "{USAGE}")?;
        return Err(anyhow!("no width"));
    };
    run(&rt, width)
}
