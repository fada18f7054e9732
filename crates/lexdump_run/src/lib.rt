//! The program `lexdump`, for any reader and writers: prints the tokens of a Rust source, one per line.
#![tactic(auto)]

mod fault;
mod job;
mod listing;
mod output;
pub mod program;
mod reading;
mod run_job;
mod watched;
mod words;
mod writing;

pub use fault::{Fault, report, status};
pub use job::{Job, read_job};
pub use listing::write_listing;
pub use run_job::run;
pub use watched::Watched;
