//! What a program looks up in a request: the operation that is executed, fragments by their names, the values of
//! variables with their defaults, and the bytes at which characters begin (GraphQL specification, October 2021, sections 2
//! and 6.1).
#![tactic(auto)]

mod bytes;
mod defaults;
mod fragments;
pub mod laws;
mod operations;

pub use bytes::{ByteTable, byte_offset};
pub use defaults::with_defaults;
pub use fragments::Fragments;
pub use operations::{OperationFailure, operation_named};
