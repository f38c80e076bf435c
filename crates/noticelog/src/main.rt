// Reads the notices of one day from standard input, and prints for each its place, its refusal and how many notices then wait.
#![tactic(auto)]

mod line;
mod log;
mod logged_day;
#[cfg(test)]
mod tests;
mod text;

use std::io::Read;
use text::report;

// What follows 64 notices of 14 bytes is not read.
const MOST_BYTES: u64 = 64 * 14;

fn run(rt: &HostRuntime) -> anyhow::Result<()> {
    let mut bytes = Vec::new(rt.alloc());
    rt.stdin().take(MOST_BYTES).read_to_end(&mut bytes)?;
    let text = report(rt.alloc(), &bytes)?;
    print!(rt; "{text}")?;
    Ok(())
}

fn main(rt: HostRuntime) -> anyhow::Result<()> {
    run(&rt)
}
