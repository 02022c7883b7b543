//! The nodes of a document, part by part.
#![tactic(auto, using(crate::proofs::Growth::grown, crate::proofs::Growth::grown_none, crate::proofs::Growth::grown_in_front))]

mod definition;
mod directives;
mod part;
mod push;
mod selection;
mod value;
mod variables;

pub use definition::{document_nodes, push_definition};
pub use value::value_nodes;
