// Runs a job file from standard input: a line for each call, or the line of the file's first fault.
#![tactic(auto)]

use jobs::{read_file, run_job};

fn main(rt: HostRuntime) -> anyhow::Result<()> {
    let bytes = read_file(rt.alloc(), rt.stdin())?;
    rt.print(run_job(rt.alloc(), bytes.as_slice())?)?;
    Ok(())
}
