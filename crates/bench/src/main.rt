// bench: lays a document out many times in one workspace, and prints what each stage takes.
#![tactic(auto)]

mod timer;

use crate::timer::Timer;
use anyhow::anyhow;
use doc::nodes::Nodes;
use layout::entry::MOST_LAYOUT;
use layout::workspace::Workspace;
use std::env::Args;
use std::time::Duration;
use std::{env, fs};

const USAGE: &str =
    "usage: bench DOCUMENT WIDTH TIMES\nLays out the encoded document in a file at a width, so many times, and prints the nanoseconds that reading, searching and writing take, of each the least, and a node's share.";

// What is to be measured: the document in a file at a width, so many times.
#[derive(Drop)]
struct Order {
    path: String,
    width: u64,
    times: u64,
}

impl Order {
    // The program's arguments, or none where one is missing.
    fn read(args: Args) -> anyhow::Result<Option<Order>> {
        let mut args = args.skip(1);
        let (Some(path), Some(width), Some(times)) = (args.next(), args.next(), args.next()) else {
            return Ok(None);
        };
        let width = width.as_str().parse::<u64>()?;
        let times = times.as_str().parse::<u64>()?;
        Ok(Some(Order { path, width, times }))
    }
}

// How many nodes some bytes have, which are none where the bytes are no document.
fn count(nodes: &mut Nodes, spelled: &[u8]) -> u64 {
    nodes
        .read(spelled)
        .map_or(0, |()| nodes.as_slice().len() as u64)
}

// A stage by its nanoseconds, and those of a node. For a stage that was never reached it prints the largest number, since what the program prints stays as it was.
fn report(rt: &HostRuntime, name: &str, least: Option<Duration>, nodes: u64) -> anyhow::Result<()> {
    let nanos = least
        .and_then(|time| u64::try_from(time.as_nanos()).ok())
        .unwrap_or(u64::MAX);
    let tenths = nanos.saturating_mul(10) / nodes.max(1);
    let whole = tenths / 10;
    let tenth = tenths % 10;
    println!(rt; "{name} {nanos} ns, {whole}.{tenth} a node")?;
    Ok(())
}

// Each stage by its name in the program's output, which a stage does not print itself.
fn report_all(rt: &HostRuntime, timer: &Timer<'_>, nodes: u64) -> anyhow::Result<()> {
    let stages = [
        ("reading", timer.reading),
        ("searching", timer.searching),
        ("writing", timer.writing),
    ];
    for (name, least) in stages {
        report(rt, name, least, nodes)?;
    }
    Ok(())
}

fn run(rt: &HostRuntime, order: &Order) -> anyhow::Result<()> {
    let heap = rt.alloc();
    let mut room = Workspace::new(heap)?;
    let spelled = fs::read(rt, order.path.as_str())?;
    let mut out = vec![in heap; 0u8; MOST_LAYOUT]?;
    let mut timer = Timer::new(rt);
    for _ in 0..order.times {
        timer.begin();
        let answer = room.lay_out_watched(
            spelled.as_slice(),
            order.width,
            out.as_mut_slice(),
            &mut timer,
        );
        if let Err(refusal) = answer {
            eprintln!(rt; "{refusal}")?;
            return Err(anyhow!("refused"));
        }
    }
    let mut nodes = Nodes::new(heap)?;
    let nodes = count(&mut nodes, spelled.as_slice());
    println!(rt; "{nodes} nodes")?;
    report_all(rt, &timer, nodes)
}

fn main(rt: HostRuntime) -> anyhow::Result<()> {
    let Some(order) = Order::read(env::args(&rt)?)? else {
        println!(rt; "{USAGE}")?;
        return Ok(());
    };
    run(&rt, &order)
}
