#![tactic(auto)]

mod check;
mod copy;
mod decode;
mod entry;
mod fault;
mod file_section;
mod form;
mod input;
mod job_run;
mod kind;
mod lines;
mod listing;
mod net_listing;
mod network;
mod reader;
mod reading;
mod record;
mod section;
mod stop;
mod write;

pub use check::check_file;
pub use copy::copy_file;
pub use entry::Entry;
pub use fault::Fault;
pub use file_section::FileSection;
pub use form::Form;
pub use input::read_file;
pub use job_run::run_job;
pub use kind::Kind;
pub use lines::Line;
pub use listing::list_file;
pub use net_listing::list_network;
pub use reader::{LONGEST_FILE, Reader};
pub use record::Record;
pub use section::Section;
