//! A node of a document, and its label.
use graphql_nodes::NodeKind;
use juniper_tokens::{Span, Spanning};
use juniper_values::Type;

/// The label of a node: what names it (GraphQL specification, October 2021, section 2).
#[derive(Clone, Copy, Drop)]
pub enum Label<'t, 'a> {
    /// Nothing.
    Unnamed,
    /// A name that the source writes, with its span.
    Name(&'t Spanning<&'a str>),
    /// A name that is all of its node: an enum, a variable without its `$`, an object's key.
    Text(&'t str),
    /// A fragment's name and its type condition.
    Fragment(&'t Spanning<&'a str>, &'t Spanning<&'a str>),
    /// A variable's type.
    Type(&'t Type<&'a str>),
}

/// A part of a document (GraphQL specification, October 2021, section 2). It borrows from the document's tree.
#[derive(Drop)]
pub struct Node<'t, 'a, S: Drop> {
    pub kind: NodeKind,
    /// The span from the part's first character to the position after its last.
    pub span: &'t Span,
    pub label: Label<'t, 'a>,
    /// The scalar, at a node of that kind alone.
    pub scalar: Option<&'t S>,
    /// The number of descendants, which follow this node: the next node outside it is at its index plus one plus this
    /// number.
    pub descendants: usize,
}
