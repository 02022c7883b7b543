//! Three scalar types for tests, which read tokens in their own ways, and not as the default one does.
#![tactic(auto)]

mod decimals;
pub mod laws;
mod odd_error;
mod read_by;
mod refuse_all;
mod thousandths;

pub use odd_error::{NoStrings, OddError};
pub use read_by::{ReadBy, TokenReader};
pub use refuse_all::{NoLiterals, RefuseAll};
pub use thousandths::Thousandths;
