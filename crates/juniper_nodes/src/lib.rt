//! Documents for clients that have types of their own: their nodes as a list, and scalars as they are written.
#![tactic(auto)]

pub mod laws;
mod literal;
mod node;
mod nodes;

pub use graphql_nodes::NodeKind;
pub use literal::{IntLiteral, Literal, StringLiteral};
pub use node::{Label, Node};
pub use nodes::{document_nodes, push_definition, value_nodes};
