//! The tree of an executable GraphQL document (GraphQL specification, October 2021, section 2).
#![tactic(auto)]

mod ast;
mod items;
pub mod laws;
mod unlocated;
mod variables;

pub use ast::{
    Arguments, Definition, Directive, Field, Fragment, FragmentSpread, InlineFragment, Operation,
    OwnedDocument, Selection, VariableDefinition, VariableDefinitions,
};
