//! The nodes of a source, its tokens, its canonical text or its error, as C gets them.
//!
//! `firthnapkin_calls` has the calls from C. Each of them makes one call here, fills the caller's buffers with what it
//! returns, and returns its status.
#![tactic(auto)]

pub mod buffer;
mod builder;
mod byte_table;
pub mod canonical;
pub mod complexities;
pub mod complexity;
pub mod count;
pub mod error;
pub mod excerpt;
pub mod flat;
mod form;
pub mod limits;
pub mod literal;
pub mod message;
pub mod node;
pub mod position;
mod scalar;
pub mod source;
pub mod status;
pub mod token;
pub mod tokens;
