//! Readers and writers for programs that read all of their input, and then write their output; and the arguments that such a
//! program has.
#![tactic(auto)]

mod program;
mod question;
mod watched;
mod whole;

pub use program::{ReportEnd, run};
pub use question::Question;
pub use watched::Watched;
pub use whole::{Stop, read_all, write_all};
