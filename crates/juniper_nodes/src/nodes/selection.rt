//! The nodes of selections.
ghost use Rattle.std.specs.Prelude.{option_map};
ghost use Rattle.graphql_nodes.specs.Nodes.{if_present, alias_nodes, selection_nodes, selections_nodes};
ghost use Rattle.juniper_tree.specs.View.{view_word, view_selection, view_selections, view_field, view_inline};
ghost use Rattle.juniper_nodes.specs.NodeViews.{view_spread, Grows};

use crate::node::{Label, Node};
use crate::nodes::directives::{push_directives, push_optional_arguments};
use crate::nodes::push::{close, label_of, push_leaf, push_open};
use graphql_nodes::NodeKind;
use juniper_tokens::Spanning;
use juniper_tree::laws::selections_are_seen;
use juniper_tree::{Field, FragmentSpread, InlineFragment, Selection};
use juniper_values::ScalarValue;
use std::alloc::AllocError;

#[cycle(selection)]
fn push_selection<'t, 'a, S: ScalarValue>(
    nodes: &mut Vec<Node<'t, 'a, S>>,
    selection: &'t Selection<'a, S>,
) -> Result<(), AllocError>
    ensures { Grows S.content result nodes.old nodes.new (selection_nodes (view_selection S.content selection.now)) }
{
    // The law that the proof cites.
    selections_are_seen::<S>();
    match selection {
        Selection::Field(field) => push_field(nodes, field),
        Selection::FragmentSpread(spread) => push_spread(nodes, spread),
        Selection::InlineFragment(fragment) => push_inline(nodes, fragment),
    }
}

fn push_alias<'t, 'a, S: ScalarValue>(
    nodes: &mut Vec<Node<'t, 'a, S>>,
    alias: &'t Option<Spanning<&'a str>>,
) -> Result<(), AllocError>
    ensures { Grows S.content result nodes.old nodes.new (if_present alias_nodes (option_map view_word alias.now)) }
{
    match alias {
        None => Ok(()),
        Some(alias) => push_leaf(nodes, NodeKind::Alias, &alias.span, Label::Name(alias)),
    }
}

#[cycle(selection)]
fn push_field<'t, 'a, S: ScalarValue>(
    nodes: &mut Vec<Node<'t, 'a, S>>,
    field: &'t Spanning<Field<'a, S>>,
) -> Result<(), AllocError>
    ensures { Grows S.content result nodes.old nodes.new (selection_nodes (view_field S.content field.now)) }
{
    let name = Label::Name(&field.item.name);
    let place = push_open(nodes, NodeKind::Field, &field.span, name)?;
    push_alias(nodes, &field.item.alias)?;
    push_optional_arguments(nodes, &field.item.arguments)?;
    push_directives(nodes, &field.item.directives)?;
    match &field.item.selection_set {
        None => {
            close(nodes, place);
            Ok(())
        }
        Some(selections) => {
            push_selections(nodes, selections)?;
            close(nodes, place);
            Ok(())
        }
    }
}

fn push_spread<'t, 'a, S: ScalarValue>(
    nodes: &mut Vec<Node<'t, 'a, S>>,
    spread: &'t Spanning<FragmentSpread<'a, S>>,
) -> Result<(), AllocError>
    ensures { Grows S.content result nodes.old nodes.new (selection_nodes (view_spread S.content spread.now)) }
{
    let name = Label::Name(&spread.item.name);
    let place = push_open(nodes, NodeKind::FragmentSpread, &spread.span, name)?;
    push_directives(nodes, &spread.item.directives)?;
    close(nodes, place);
    Ok(())
}

#[cycle(selection)]
fn push_inline<'t, 'a, S: ScalarValue>(
    nodes: &mut Vec<Node<'t, 'a, S>>,
    fragment: &'t Spanning<InlineFragment<'a, S>>,
) -> Result<(), AllocError>
    ensures { Grows S.content result nodes.old nodes.new (selection_nodes (view_inline S.content fragment.now)) }
{
    let condition = label_of(&fragment.item.type_condition);
    let place = push_open(nodes, NodeKind::InlineFragment, &fragment.span, condition)?;
    push_directives(nodes, &fragment.item.directives)?;
    push_selections(nodes, &fragment.item.selection_set)?;
    close(nodes, place);
    Ok(())
}

/// Appends the nodes of selections (GraphQL specification, October 2021, section 2.4).
#[cycle(selection)]
pub(crate) fn push_selections<'t, 'a, S: ScalarValue>(
    nodes: &mut Vec<Node<'t, 'a, S>>,
    selections: &'t [Selection<'a, S>],
) -> Result<(), AllocError>
    ensures { Grows S.content result nodes.old nodes.new (selections_nodes (view_selections S.content selections.now)) }
{
    for selection in selections {
        push_selection(nodes, selection)?;
    }
    Ok(())
}
