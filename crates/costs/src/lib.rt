#![tactic(auto)]

mod cost;

pub use cost::{Cost, HEAVIEST, LIGHT};

mod whole;

pub use whole::Whole;

mod pair;

pub use pair::Pair;

#[cfg(test)]
mod tests;
