// example: how another crate lays out a document with the library. It prints one document at two widths.
#![tactic(auto)]

use layout::workspace::Workspace;
use std::io::Write;

// "aaaa", a group of a line and "b", and "cccc", as docs/format.md encodes it. The bytes are its own, as a program of another repository would have them.
const DOCUMENT: &[u8; 20] = b"\x02\x01\x04aaaa\x02\x05\x02\x04\x01\x01b\x01\x04cccc";

fn print(rt: &HostRuntime, room: &mut Workspace, width: u64) -> anyhow::Result<()> {
    let mut out = [0u8; 64];
    let laid = room.lay_out(DOCUMENT, width, &mut out)?;
    rt.stdout().write_all(&out[..laid.length])?;
    println!(rt; "")?;
    Ok(())
}

fn main(rt: HostRuntime) -> anyhow::Result<()> {
    // All memory is taken here; the workspace serves any number of documents.
    let mut room = Workspace::new(rt.alloc())?;
    print(&rt, &mut room, 10)?;
    print(&rt, &mut room, 8)
}
