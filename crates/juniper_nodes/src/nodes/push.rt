//! Appending one node to the list.
ghost use Rattle.std.specs.Prelude.{◌≡◌, ◌∷◌, [], ◌<◌, length, option_map, OnErr, IfOk};
ghost use Rattle.graphql_nodes.specs.Nodes.{Node, over, scalar_node};
ghost use Rattle.juniper_tokens.specs.Spans.{view_span};
ghost use Rattle.juniper_tree.specs.View.{view_word};
ghost use Rattle.juniper_nodes.specs.NodeViews.{view_label, view_nodes, TellsName, Gains, Grows, StandsInFront, CountsInner};

use crate::node::{Label, Node};
use graphql_nodes::NodeKind;
use juniper_tokens::{Span, Spanning};
use juniper_values::ScalarValue;
use std::alloc::AllocError;

/// Appends a node, as if no part were in it, and returns its index.
pub(crate) fn push_open<'t, 'a, S: ScalarValue>(
    nodes: &mut Vec<Node<'t, 'a, S>>,
    kind: NodeKind,
    span: &'t Span,
    label: Label<'t, 'a>,
) -> Result<usize, AllocError>
    ensures opened { IfOk result (λ place. (place ≡ length (view_nodes S.content nodes.old))
        × Gains S.content nodes.old nodes.new
        (over kind (view_span span.now) (view_label (view_span span.now) label.entry) [])) }
    ensures kept { OnErr result (StandsInFront S.content nodes.old nodes.new) }
{
    let place = nodes.len();
    nodes.push(Node {
        kind,
        span,
        label,
        scalar: None,
        descendants: 0,
    })?;
    Ok(place)
}

/// Appends the node of a part that has no part in it.
pub(crate) fn push_leaf<'t, 'a, S: ScalarValue>(
    nodes: &mut Vec<Node<'t, 'a, S>>,
    kind: NodeKind,
    span: &'t Span,
    label: Label<'t, 'a>,
) -> Result<(), AllocError>
    ensures { Grows S.content result nodes.old nodes.new
        (over kind (view_span span.now) (view_label (view_span span.now) label.entry) []) }
{
    push_open(nodes, kind, span, label)?;
    Ok(())
}

/// Appends the node of a scalar.
pub(crate) fn push_scalar<'t, 'a, S: ScalarValue>(
    nodes: &mut Vec<Node<'t, 'a, S>>,
    scalar: &'t S,
    span: &'t Span,
) -> Result<(), AllocError>
    ensures { Grows S.content result nodes.old nodes.new
        (scalar_node (S.content scalar.now) (view_span span.now) ∷ []) }
{
    nodes.push(Node {
        kind: NodeKind::Scalar,
        span,
        label: Label::Unnamed,
        scalar: Some(scalar),
        descendants: 0,
    })?;
    Ok(())
}

/// The label of a part that may have a name.
pub(crate) fn label_of<'t, 'a>(name: &'t Option<Spanning<&'a str>>) -> Label<'t, 'a>
    ensures { TellsName result (option_map view_word name.now) }
{
    match name {
        None => Label::Unnamed,
        Some(name) => Label::Name(name),
    }
}

/// Counts the nodes after the one at this index, all of which are its descendants.
pub(crate) fn close<S: ScalarValue>(nodes: &mut Vec<Node<'_, '_, S>>, place: usize)
    requires { place < length (view_nodes S.content nodes.old) }
    ensures { CountsInner S.content nodes.old nodes.new place }
{
    let count = nodes.len() - place - 1;
    nodes[place].descendants = count;
}
