// The report: reads a recording from standard input and prints what it holds.
#![tactic(auto)]

use std::io::Read;
use summary::{Summary, summarize};

fn main(rt: HostRuntime) -> anyhow::Result<()> {
    let mut input = Vec::new(rt.alloc());
    rt.stdin().read_to_end(&mut input)?;
    println!(rt; "{}", Summary(summarize(&input)))?;
    Ok(())
}
