//! The parser: a function for each rule of the document grammar.
pub(crate) mod builder;
pub(crate) mod definition;
pub(crate) mod directives;
pub(crate) mod lists;
pub(crate) mod next;
pub(crate) mod selection;
pub(crate) mod trees;
pub(crate) mod types;
pub(crate) mod value;
pub(crate) mod variables;
