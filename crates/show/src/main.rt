// Lists a job file, a grid file or the network of a job file from standard input, in words.
#![tactic(auto)]

use anyhow::{Context, anyhow};
use jobs::{FileSection, Form, list_file, list_network, read_file};
use std::alloc::{AllocError, Global};
use std::env;
use std::str::FromStr;

const USAGE: &str = "say job, grid or network";

// What to list.
#[derive(Clone, Copy, PartialEq, Eq, Debug)]
enum Listing {
    Records(Form),
    Network,
}

impl FromStr for Listing {
    type Err = anyhow::Error;

    fn from_str(word: &str) -> anyhow::Result<Self> {
        match word {
            "job" => Ok(Listing::Records(Form::Job)),
            "grid" => Ok(Listing::Records(Form::Grid)),
            "network" => Ok(Listing::Network),
            _ => Err(anyhow!(USAGE)),
        }
    }
}

fn text(heap: Global, listing: Listing, bytes: &[u8]) -> Result<String, AllocError> {
    match listing {
        Listing::Records(form) => list_file(heap, form, bytes),
        Listing::Network => list_network(heap, &FileSection::new(bytes)),
    }
}

fn main(rt: HostRuntime) -> anyhow::Result<()> {
    let word = env::args(&rt)?.nth(1).context(USAGE)?;
    let listing = word.parse::<Listing>()?;
    let bytes = read_file(rt.alloc(), rt.stdin())?;
    rt.print(text(rt.alloc(), listing, bytes.as_slice())?)?;
    Ok(())
}
