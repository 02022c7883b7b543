//! The nodes of a document: its tree as a flat list in which each part comes before the parts in it.
//!
//! There is no code here but the kinds of nodes, with their names, and the empty functions whose contracts are the
//! laws.
#![tactic(auto)]

mod kind;
pub mod laws;

pub use kind::NodeKind;
