//! The nodes of arguments and directives.
ghost use Rattle.std.specs.Prelude.{option_map};
ghost use Rattle.graphql_nodes.specs.Nodes.{if_present, argument_nodes, arguments_nodes, directive_nodes, directives_nodes};
ghost use Rattle.juniper_tree.specs.View.{view_argument, view_arguments, view_directive, view_directives};
ghost use Rattle.juniper_nodes.specs.NodeViews.{view_node, Grows};

use crate::node::{Label, Node};
use crate::nodes::part::{Part, push_each};
use crate::nodes::push::{close, push_open};
use crate::nodes::value::push_value;
use graphql_nodes::NodeKind;
use juniper_tokens::Spanning;
use juniper_tree::{Arguments, Directive};
use juniper_values::{InputValue, ScalarValue};
use std::alloc::AllocError;

fn push_argument<'t, 'a, S: ScalarValue>(
    nodes: &mut Vec<Node<'t, 'a, S>>,
    argument: &'t (Spanning<&'a str>, Spanning<InputValue<S>>),
) -> Result<(), AllocError>
    ensures { Grows S.content result nodes.old nodes.new (argument_nodes (view_argument S.content argument.now)) }
{
    let name = &argument.0;
    let place = push_open(nodes, NodeKind::Argument, &name.span, Label::Name(name))?;
    push_value(nodes, &argument.1)?;
    close(nodes, place);
    Ok(())
}

impl<'t, 'a, S: ScalarValue> Part<'t, Node<'t, 'a, S>>
    for (Spanning<&'a str>, Spanning<InputValue<S>>) {
    ghost see = { view_node S.content };

    ghost part_nodes = { λ argument. argument_nodes (view_argument S.content argument) };

    fn push_onto(&'t self, nodes: &mut Vec<Node<'t, 'a, S>>) -> Result<(), AllocError> {
        push_argument(nodes, self)
    }
}

fn push_arguments<'t, 'a, S: ScalarValue>(
    nodes: &mut Vec<Node<'t, 'a, S>>,
    arguments: &'t Spanning<Arguments<'a, S>>,
) -> Result<(), AllocError>
    ensures { Grows S.content result nodes.old nodes.new (arguments_nodes (view_arguments S.content arguments.now)) }
{
    let place = push_open(nodes, NodeKind::Arguments, &arguments.span, Label::Unnamed)?;
    push_each(nodes, &arguments.item.items)?;
    close(nodes, place);
    Ok(())
}

/// Appends the nodes of arguments, if there are any (GraphQL specification, October 2021, section 2.6).
pub(crate) fn push_optional_arguments<'t, 'a, S: ScalarValue>(
    nodes: &mut Vec<Node<'t, 'a, S>>,
    arguments: &'t Option<Spanning<Arguments<'a, S>>>,
) -> Result<(), AllocError>
    ensures { Grows S.content result nodes.old nodes.new
        (if_present arguments_nodes (option_map (view_arguments S.content) arguments.now)) }
{
    match arguments {
        None => Ok(()),
        Some(arguments) => push_arguments(nodes, arguments),
    }
}

fn push_directive<'t, 'a, S: ScalarValue>(
    nodes: &mut Vec<Node<'t, 'a, S>>,
    directive: &'t Spanning<Directive<'a, S>>,
) -> Result<(), AllocError>
    ensures { Grows S.content result nodes.old nodes.new (directive_nodes (view_directive S.content directive.now)) }
{
    let name = Label::Name(&directive.item.name);
    let place = push_open(nodes, NodeKind::Directive, &directive.span, name)?;
    push_optional_arguments(nodes, &directive.item.arguments)?;
    close(nodes, place);
    Ok(())
}

impl<'t, 'a, S: ScalarValue> Part<'t, Node<'t, 'a, S>> for Spanning<Directive<'a, S>> {
    ghost see = { view_node S.content };

    ghost part_nodes = { λ directive. directive_nodes (view_directive S.content directive) };

    fn push_onto(&'t self, nodes: &mut Vec<Node<'t, 'a, S>>) -> Result<(), AllocError> {
        push_directive(nodes, self)
    }
}

/// Appends the nodes of directives, if there are any (GraphQL specification, October 2021, section 2.12).
pub(crate) fn push_directives<'t, 'a, S: ScalarValue>(
    nodes: &mut Vec<Node<'t, 'a, S>>,
    directives: &'t Option<Vec<Spanning<Directive<'a, S>>>>,
) -> Result<(), AllocError>
    ensures { Grows S.content result nodes.old nodes.new (directives_nodes (view_directives S.content directives.now)) }
{
    match directives {
        None => Ok(()),
        Some(directives) => push_each(nodes, directives),
    }
}
