// Lists, checks and copies many files from standard input: a case is a byte of form (0 job, 1 grid), a length in four bytes and the file.
#![tactic(auto)]

mod ends;
#[cfg(test)]
mod tests;

use cases::{Case, Cases};
use ends::{checked, copied, cut_off};
use jobs::list_file;
use std::io::Read;

fn show(rt: &HostRuntime, number: usize, case: Case) -> anyhow::Result<()> {
    let text = list_file(rt.alloc(), case.form, case.file)?;
    let check = checked(rt.alloc(), case.form, case.file)?;
    let whole = copied(rt.alloc(), case.form, case.file)?;
    let short = cut_off(rt.alloc(), case.form, case.file)?;
    print!(rt; "case {number}\n{text}{check}{whole}{short}")?;
    Ok(())
}

// As in `run_cases`: a function for both that takes what to show would be as long.
fn main(rt: HostRuntime) -> anyhow::Result<()> {
    let mut input = Vec::new(rt.alloc());
    rt.stdin().read_to_end(&mut input)?;
    for (number, case) in Cases::new(input.as_slice()).enumerate() {
        show(&rt, number, case?)?;
    }
    Ok(())
}
