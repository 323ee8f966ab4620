#![tactic(auto)]

// Many files in one input, for the programs that run cases.
mod case;
mod cases;

pub use case::{Case, first_case};
pub use cases::Cases;
