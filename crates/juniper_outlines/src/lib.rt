//! The complexities of a document's operations, found from the outlines of its definitions: of each its numbers with no
//! fragment spread expanded, and its spreads.
#![tactic(auto)]

mod complexity;
pub mod laws;
pub mod names;
mod operations;
mod outline;
mod walk;

pub use complexity::{Complexity, ComplexityFailure};
pub use operations::{
    OperationComplexity, have_no_spreads, outlined_complexities, own_complexities,
};
pub use outline::{DefinitionOutline, NamedSpread};
