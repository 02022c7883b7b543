//! The nodes of values.
ghost use Rattle.std.specs.Prelude.{◌≡◌, IfOk, map};
ghost use Rattle.graphql_grammar.specs.Tree.{items_of, fields_of};
ghost use Rattle.graphql_nodes.specs.Nodes.{value_nodes, items_nodes, fields_nodes};
ghost use Rattle.juniper_tree.specs.View.{view_value, view_object_field};
ghost use Rattle.juniper_nodes.specs.NodeViews.{view_nodes, Grows};

use crate::node::{Label, Node};
use crate::nodes::push::{close, push_leaf, push_open, push_scalar};
use graphql_nodes::NodeKind;
use juniper_tokens::Spanning;
use juniper_tree::laws::values_are_seen;
use juniper_values::{InputValue, ScalarValue};
use std::alloc::{AllocError, Global};

/// The nodes of a value (GraphQL specification, October 2021, section 2.9).
///
/// Returns `AllocError` if memory runs out.
pub fn value_nodes<'t, S: ScalarValue>(
    alloc: Global,
    value: &'t Spanning<InputValue<S>>,
) -> Result<Vec<Node<'t, 't, S>>, AllocError>
    ensures { IfOk result (λ nodes. view_nodes S.content nodes ≡ value_nodes (view_value S.content value.now)) }
{
    let mut nodes = Vec::new(alloc);
    push_value(&mut nodes, value)?;
    Ok(nodes)
}

/// Appends the nodes of a value (GraphQL specification, October 2021, section 2.9).
#[cycle(value)]
pub(crate) fn push_value<'t, 'a, S: ScalarValue>(
    nodes: &mut Vec<Node<'t, 'a, S>>,
    value: &'t Spanning<InputValue<S>>,
) -> Result<(), AllocError>
    ensures { Grows S.content result nodes.old nodes.new (value_nodes (view_value S.content value.now)) }
{
    // The law that the proof cites.
    values_are_seen::<S>();
    let span = &value.span;
    match &value.item {
        InputValue::Null => push_leaf(nodes, NodeKind::Null, span, Label::Unnamed),
        InputValue::Scalar(scalar) => push_scalar(nodes, scalar, span),
        InputValue::Enum(name) => push_leaf(
            nodes,
            NodeKind::Enum,
            span,
            Label::Text(name.as_str()),
        ),
        InputValue::Variable(name) => push_leaf(
            nodes,
            NodeKind::Variable,
            span,
            Label::Text(name.as_str()),
        ),
        InputValue::List(items) => {
            let place = push_open(nodes, NodeKind::List, span, Label::Unnamed)?;
            push_items(nodes, items)?;
            close(nodes, place);
            Ok(())
        }
        InputValue::Object(fields) => {
            let place = push_open(nodes, NodeKind::Object, span, Label::Unnamed)?;
            push_fields(nodes, fields)?;
            close(nodes, place);
            Ok(())
        }
    }
}

#[cycle(value)]
fn push_items<'t, 'a, S: ScalarValue>(
    nodes: &mut Vec<Node<'t, 'a, S>>,
    items: &'t [Spanning<InputValue<S>>],
) -> Result<(), AllocError>
    ensures { Grows S.content result nodes.old nodes.new
        (items_nodes (items_of (map (view_value S.content) items.now))) }
{
    for item in items {
        push_value(nodes, item)?;
    }
    Ok(())
}

#[cycle(value)]
fn push_fields<'t, 'a, S: ScalarValue>(
    nodes: &mut Vec<Node<'t, 'a, S>>,
    fields: &'t [(Spanning<String>, Spanning<InputValue<S>>)],
) -> Result<(), AllocError>
    ensures { Grows S.content result nodes.old nodes.new
        (fields_nodes (fields_of (map (view_object_field S.content) fields.now))) }
{
    for (key, value) in fields {
        let name = Label::Text(key.item.as_str());
        let place = push_open(nodes, NodeKind::ObjectField, &key.span, name)?;
        push_value(nodes, value)?;
        close(nodes, place);
    }
    Ok(())
}
