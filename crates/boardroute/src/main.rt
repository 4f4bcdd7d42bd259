// Reads a board file from standard input, and prints what its calls answer.
#![tactic(auto)]

use filerun::run::{LIMIT, run};
use std::io::Read;

fn main(rt: HostRuntime) -> anyhow::Result<()> {
    let heap = rt.alloc();
    let mut file = Vec::new(heap);
    // one byte more than the limit tells a file that is too long
    rt.stdin().take(LIMIT as u64 + 1).read_to_end(&mut file)?;
    let text = run(heap, file.as_slice())?;
    rt.print(text)?;
    Ok(())
}
