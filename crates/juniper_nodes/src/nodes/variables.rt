//! The nodes of variable definitions.
ghost use Rattle.std.specs.Prelude.{option_map};
ghost use Rattle.graphql_nodes.specs.Nodes.{if_present, value_nodes, variable_nodes, variables_nodes};
ghost use Rattle.juniper_tree.specs.View.{view_value, view_variable, view_variables};
ghost use Rattle.juniper_nodes.specs.NodeViews.{view_node, Grows};

use crate::node::{Label, Node};
use crate::nodes::directives::push_directives;
use crate::nodes::part::{Part, push_each};
use crate::nodes::push::{close, push_leaf, push_open};
use crate::nodes::value::push_value;
use graphql_nodes::NodeKind;
use juniper_tokens::Spanning;
use juniper_tree::{VariableDefinition, VariableDefinitions};
use juniper_values::{InputValue, ScalarValue};
use std::alloc::AllocError;

fn push_default<'t, 'a, S: ScalarValue>(
    nodes: &mut Vec<Node<'t, 'a, S>>,
    value: &'t Option<Spanning<InputValue<S>>>,
) -> Result<(), AllocError>
    ensures { Grows S.content result nodes.old nodes.new
        (if_present value_nodes (option_map (view_value S.content) value.now)) }
{
    match value {
        None => Ok(()),
        Some(value) => push_value(nodes, value),
    }
}

fn push_variable<'t, 'a, S: ScalarValue>(
    nodes: &mut Vec<Node<'t, 'a, S>>,
    variable: &'t (Spanning<&'a str>, VariableDefinition<'a, S>),
) -> Result<(), AllocError>
    ensures { Grows S.content result nodes.old nodes.new (variable_nodes (view_variable S.content variable.now)) }
{
    let name = &variable.0;
    let literal = &variable.1.var_type;
    let place = push_open(
        nodes,
        NodeKind::VariableDefinition,
        &name.span,
        Label::Name(name),
    )?;
    push_leaf(
        nodes,
        NodeKind::Type,
        &literal.span,
        Label::Type(&literal.item),
    )?;
    push_default(nodes, &variable.1.default_value)?;
    push_directives(nodes, &variable.1.directives)?;
    close(nodes, place);
    Ok(())
}

impl<'t, 'a, S: ScalarValue> Part<'t, Node<'t, 'a, S>>
    for (Spanning<&'a str>, VariableDefinition<'a, S>) {
    ghost see = { view_node S.content };

    ghost part_nodes = { λ variable. variable_nodes (view_variable S.content variable) };

    fn push_onto(&'t self, nodes: &mut Vec<Node<'t, 'a, S>>) -> Result<(), AllocError> {
        push_variable(nodes, self)
    }
}

fn push_variables<'t, 'a, S: ScalarValue>(
    nodes: &mut Vec<Node<'t, 'a, S>>,
    variables: &'t Spanning<VariableDefinitions<'a, S>>,
) -> Result<(), AllocError>
    ensures { Grows S.content result nodes.old nodes.new (variables_nodes (view_variables S.content variables.now)) }
{
    let place = push_open(
        nodes,
        NodeKind::VariableDefinitions,
        &variables.span,
        Label::Unnamed,
    )?;
    push_each(nodes, &variables.item.items)?;
    close(nodes, place);
    Ok(())
}

/// Appends the nodes of variable definitions, if there are any (GraphQL specification, October 2021, section 2.10).
pub(crate) fn push_optional_variables<'t, 'a, S: ScalarValue>(
    nodes: &mut Vec<Node<'t, 'a, S>>,
    variables: &'t Option<Spanning<VariableDefinitions<'a, S>>>,
) -> Result<(), AllocError>
    ensures { Grows S.content result nodes.old nodes.new
        (if_present variables_nodes (option_map (view_variables S.content) variables.now)) }
{
    match variables {
        None => Ok(()),
        Some(variables) => push_variables(nodes, variables),
    }
}
