//! The parser of executable GraphQL documents (GraphQL specification, October 2021, section 2): definitions, and all
//! that is in them. What it builds of them, a `Builder` says.
#![tactic(auto)]

mod parser;

pub use parser::builder::{Builder, Gather, unread};
pub use parser::definition::{parse_definition, parse_definition_tree};
pub use parser::lists::expected_items;
pub use parser::next::next_is;
pub use parser::trees::Trees;
pub use parser::types::{parse_any_type, parse_type};
pub use parser::value::{parse_value, parse_value_literal};
