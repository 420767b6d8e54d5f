// setdoc: reads a width and an encoded document from standard input, and prints the best layout.
#![tactic(auto)]

ghost use Rattle.std.specs.Prelude.{◌≤◌, length, IfOk};
ghost use Rattle.setdoc.specs.Input.{InputSays};

use anyhow::anyhow;
use layout::entry::MOST_LAYOUT;
use layout::laid::Laid;
use layout::refusal::Refusal;
use layout::workspace::Workspace;
use std::io::{Read, Write};

// The width's byte, and one byte more than the longest document has: more would not change the answer. The program stands on the crate `layout` alone, and so the number stands here.
const MOST_INPUT: u64 = 65_538;

// Lays out what was read: a byte that is the width, and an encoded document.
fn lay_out(room: &mut Workspace, input: &[u8], out: &mut [u8]) -> Result<Laid, Refusal>
    ensures laid { InputSays input.now out.old result out.new }
    ensures within { IfOk result (λ laid. laid.length ≤ length out.old) }
{
    let (width, spelled) = input.split_first().ok_or(Refusal::NotDocument)?;
    room.lay_out(spelled, u64::from(*width), out)
}

fn main(rt: HostRuntime) -> anyhow::Result<()> {
    let heap = rt.alloc();
    let mut room = Workspace::new(heap)?;
    let mut input = Vec::new(heap);
    rt.stdin().take(MOST_INPUT).read_to_end(&mut input)?;
    let mut out = vec![in heap; 0u8; MOST_LAYOUT]?;
    match lay_out(&mut room, input.as_slice(), out.as_mut_slice()) {
        Ok(laid) => {
            rt.stdout().write_all(&out.as_slice()[..laid.length])?;
            Ok(())
        }
        Err(refusal) => {
            println!(rt; "{refusal}")?;
            Err(anyhow!("refused"))
        }
    }
}
