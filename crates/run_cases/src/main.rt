// Runs many job files from standard input, one case after the other.
#![tactic(auto)]

use anyhow::bail;
use cases::{Case, Cases};
use jobs::{Form, run_job};
use std::io::Read;

fn show(rt: &HostRuntime, number: usize, case: Case) -> anyhow::Result<()> {
    let Form::Job = case.form else {
        bail!("case {number} is a grid, and only jobs are run");
    };
    let text = run_job(rt.alloc(), case.file)?;
    print!(rt; "case {number}\n{text}")?;
    Ok(())
}

// As in `file_cases`: a function for both that takes what to show would be as long.
fn main(rt: HostRuntime) -> anyhow::Result<()> {
    let mut input = Vec::new(rt.alloc());
    rt.stdin().read_to_end(&mut input)?;
    for (number, case) in Cases::new(input.as_slice()).enumerate() {
        show(&rt, number, case?)?;
    }
    Ok(())
}
