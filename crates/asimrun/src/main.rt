//! Runs a drawing with its run sheet, both from standard input, and prints the trace.
#![tactic(auto)]

use bench::transcript::{Bench, LONGEST_INPUT};
use std::io::{BufWriter, Read, Write};

/// Reads as much of the input as counts.
fn read_input(rt: &HostRuntime) -> anyhow::Result<Vec<u8>> {
    let mut input = Vec::new(rt.alloc());
    rt.stdin()
        .take(LONGEST_INPUT as u64)
        .read_to_end(&mut input)?;
    Ok(input)
}

fn run(rt: &HostRuntime) -> anyhow::Result<()> {
    let input = read_input(rt)?;
    let mut bench = Bench::open(rt.alloc(), input.as_slice())?;
    let mut out = BufWriter::new(rt.alloc(), rt.stdout())?;
    bench.print(&mut out)?;
    out.flush()?;
    Ok(())
}

fn main(rt: HostRuntime) -> anyhow::Result<()> {
    run(&rt)
}
