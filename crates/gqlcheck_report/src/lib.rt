//! What the program `gqlcheck` does with a reader and a writer: it reads a request, and writes its tree or its first
//! fault.
#![tactic(auto)]

mod lines;
mod report;

pub use report::{RunEnd, run};
pub use streams::Watched;
