//! The canonical text of a source, for stores of queries, caches and logs: one text for each query, whatever its white space
//! and comments.
#![tactic(auto)]

mod text;

pub use text::canonical_text;
