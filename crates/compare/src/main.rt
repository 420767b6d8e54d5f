// compare: random documents at many widths, laid out by the printer and by a search through all layouts.
#![tactic(auto)]

mod judge;
mod plain;
mod random;

use crate::judge::Judge;
use crate::random::{Maker, Random};
use anyhow::anyhow;
use doc::nodes::Nodes;
use layout::workspace::Workspace;
use std::alloc::{AllocError, Global};

const DOCUMENTS: u64 = 3_000;

const SEED: u64 = 20_261_117;

// Every document is compared as it is, and every eighth with a byte damaged.
fn compare_all(heap: Global, judge: &mut Judge) -> Result<(), AllocError> {
    let mut nodes = Nodes::new(heap)?;
    let mut maker = Maker::new(Random::new(SEED), Vec::new(heap));
    for n in 0..DOCUMENTS {
        let parts = 4 + n % 40;
        maker.make(parts)?;
        if n % 8 == 7 {
            maker.damage();
        }
        let short = maker.random.below(400) as usize;
        judge.document(&mut nodes, maker.spelled.as_slice(), short)?;
    }
    Ok(())
}

fn main(rt: HostRuntime) -> anyhow::Result<()> {
    let heap = rt.alloc();
    let mut judge = Judge::new(heap, Workspace::new(heap)?);
    compare_all(heap, &mut judge)?;
    let tally = judge.tally;
    print!(rt; "{tally}")?;
    if tally.failed > 0 {
        return Err(anyhow!("the printer and the search through all layouts differ"));
    }
    Ok(())
}
