//! The nodes of definitions.
ghost use Rattle.std.specs.Prelude.{◌≡◌, OnOk, OnErr, IfOk, map};
ghost use Rattle.graphql_nodes.specs.Nodes.{definition_nodes, document_nodes, operation_kind};
ghost use Rattle.juniper_tree.specs.View.{view_definition};
ghost use Rattle.juniper_nodes.specs.NodeViews.{view_operation, view_fragment, view_nodes, Gains, Grows, StandsInFront};

use crate::node::{Label, Node};
use crate::nodes::directives::push_directives;
use crate::nodes::push::{close, label_of, push_open};
use crate::nodes::selection::push_selections;
use crate::nodes::variables::push_optional_variables;
use graphql_grammar::OperationType;
use graphql_nodes::NodeKind;
use juniper_tokens::Spanning;
use juniper_tree::{Definition, Fragment, Operation};
use juniper_values::ScalarValue;
use std::alloc::{AllocError, Global};

/// The nodes of a document: each part of its tree before the parts in it, in the order in which the source writes them
/// (GraphQL specification, October 2021, section 2.2).
///
/// Returns `AllocError` if memory runs out. The stack holds the tree's nesting.
///
/// ```
/// for node in &document_nodes(alloc, &document)? {
///     let kind = node.kind.name();
///     let line = node.span.start.line();
/// }
/// ```
pub fn document_nodes<'t, 'a, S: ScalarValue>(
    alloc: Global,
    document: &'t [Definition<'a, S>],
) -> Result<Vec<Node<'t, 'a, S>>, AllocError>
    ensures { IfOk result (λ nodes. view_nodes S.content nodes ≡ document_nodes
        (map (view_definition S.content) document.now)) }
{
    let mut nodes = Vec::new(alloc);
    for definition in document {
        push_definition(&mut nodes, definition)?;
    }
    Ok(nodes)
}

/// Appends the nodes of a definition (GraphQL specification, October 2021, section 2.2).
///
/// Returns `AllocError` if memory runs out: the earlier nodes are still at the front then, and some of the definition's
/// nodes may follow them.
pub fn push_definition<'t, 'a, S: ScalarValue>(
    nodes: &mut Vec<Node<'t, 'a, S>>,
    definition: &'t Definition<'a, S>,
) -> Result<(), AllocError>
    ensures gained { OnOk result (Gains S.content nodes.old nodes.new
        (definition_nodes (view_definition S.content definition.now))) }
    ensures kept { OnErr result (StandsInFront S.content nodes.old nodes.new) }
{
    match definition {
        Definition::Operation(operation) => push_operation(nodes, operation),
        Definition::Fragment(fragment) => push_fragment(nodes, fragment),
    }
}

fn kind_of(operation_type: OperationType) -> NodeKind
    ensures { result ≡ operation_kind operation_type }
{
    match operation_type {
        OperationType::Query => NodeKind::Query,
        OperationType::Mutation => NodeKind::Mutation,
        OperationType::Subscription => NodeKind::Subscription,
    }
}

fn push_operation<'t, 'a, S: ScalarValue>(
    nodes: &mut Vec<Node<'t, 'a, S>>,
    operation: &'t Spanning<Operation<'a, S>>,
) -> Result<(), AllocError>
    ensures { Grows S.content result nodes.old nodes.new (definition_nodes (view_operation S.content operation.now)) }
{
    let kind = kind_of(operation.item.operation_type);
    let name = label_of(&operation.item.name);
    let place = push_open(nodes, kind, &operation.span, name)?;
    push_optional_variables(nodes, &operation.item.variable_definitions)?;
    push_directives(nodes, &operation.item.directives)?;
    push_selections(nodes, &operation.item.selection_set)?;
    close(nodes, place);
    Ok(())
}

fn push_fragment<'t, 'a, S: ScalarValue>(
    nodes: &mut Vec<Node<'t, 'a, S>>,
    fragment: &'t Spanning<Fragment<'a, S>>,
) -> Result<(), AllocError>
    ensures { Grows S.content result nodes.old nodes.new (definition_nodes (view_fragment S.content fragment.now)) }
{
    let name = Label::Fragment(&fragment.item.name, &fragment.item.type_condition);
    let place = push_open(nodes, NodeKind::FragmentDefinition, &fragment.span, name)?;
    push_directives(nodes, &fragment.item.directives)?;
    push_selections(nodes, &fragment.item.selection_set)?;
    close(nodes, place);
    Ok(())
}
