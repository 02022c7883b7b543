//! The document grammar of GraphQL, as definitions on lists of tokens, and its laws.
//!
//! There is no code here but the types of operations and the empty functions whose contracts are the laws. The definitions
//! hold for every scalar type: they take what it states of a scalar token, an accepted content or an error.
#![tactic(auto)]

pub mod laws;
mod operation;

pub use operation::OperationType;
