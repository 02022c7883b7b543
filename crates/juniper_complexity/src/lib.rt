//! The complexity of each operation of a document: how many fields, aliases and directives it has, and how deep it is, with
//! every fragment expanded (GraphQL specification, October 2021, section 2.8).
#![tactic(auto)]

pub mod laws;
mod names;
mod operations;
mod outline_builder;
mod tree_outlines;

pub use juniper_outlines::{
    Complexity, ComplexityFailure, DefinitionOutline, OperationComplexity, have_no_spreads,
};
pub use names::fragment_names;
pub use operations::{gathered_complexities, operation_complexities};
pub use outline_builder::{DefinitionOutlines, OutlineBuilder, PartCount};
