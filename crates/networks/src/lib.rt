#![tactic(auto)]

mod change;
mod ends;
mod grid;
mod layer;
mod network;
mod part;
mod refusal;
mod sizes;
mod table;
mod way_record;

pub use change::{Change, Redrawing, Shutting};
pub use ends::Ends;
pub use grid::SizeGrid;
pub use layer::{Layer, Redraw, Shut};
pub use network::Network;
pub use refusal::Refusal;
pub use sizes::{Group, Last};
pub use table::WayTable;
pub use way_record::WayRecord;

#[cfg(test)]
mod tests;
