//! Executable GraphQL documents (GraphQL specification, October 2021, section 2.2): parsed within limits to a tree, to what
//! a `Builder` builds, or definition by definition. Sources that are one value or one type are parsed within the same limits.
#![tactic(auto)]

mod document;
pub mod laws;
mod literals;

pub use document::depth::{DepthFailure, parse_document_source_within};
pub use document::limited::{DEFAULT_DEPTH, LimitFailure, Limits, parse_document_source_limited};
pub use document::parse_document_source;
pub use document::parts::build_document_source;
pub use document::sink::{DefinitionSink, parse_document_source_into};
pub use literals::{build_value_source, parse_type_source, parse_value_source};
