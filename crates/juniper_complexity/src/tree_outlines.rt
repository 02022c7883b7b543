//! The outlines of a tree's definitions, gathered as they are while a document is parsed.
ghost use Rattle.std.specs.Prelude.{◌≡◌, [], OnOk, IfOk, map, option_map};
ghost use Rattle.juniper_tree.specs.View.{view_directives, view_variable, view_variables, view_selection, view_selections, view_field, view_inline, view_definition};
ghost use Rattle.juniper_complexity.specs.Gathered.{AreGathered, Gathers, GathersSelection, IsGathered, counted_directives};
ghost use Rattle.juniper_complexity.specs.Parts.{directives_complexity, directives_of_variables, only_directives, spreads_of_all, variable_directive_count};
ghost use Rattle.juniper_complexity.specs.device.BySpreads.{own_of_all};
ghost use Rattle.juniper_complexity.specs.device.Outlines.{view_spread};

use crate::outline_builder::{OutlineBuilder, PartCount};
use juniper_outlines::DefinitionOutline;
use juniper_tokens::Spanning;
use juniper_tree::laws::selections_are_seen;
use juniper_tree::{
    Definition, Directive, Field, FragmentSpread, InlineFragment, Selection, VariableDefinition,
    VariableDefinitions,
};
use juniper_values::ScalarValue;
use std::alloc::{AllocError, Global};

// The number of directives.
fn count_of<'a, S: ScalarValue>(
    directives: &Option<Vec<Spanning<Directive<'a, S>>>>,
) -> Option<PartCount>
    ensures { counted_directives result ≡ directives_complexity (view_directives S.content directives.now) }
{
    match directives {
        None => None,
        Some(directives) => Some(PartCount {
            count: directives.len(),
        }),
    }
}

#[cycle(selection)]
fn gather_selection<'a, S: ScalarValue>(
    builder: &mut OutlineBuilder<'a>,
    selection: &Selection<'a, S>,
) -> Result<(), AllocError>
    ensures { OnOk result (GathersSelection builder.old builder.new tt (view_selection S.content selection.now)) }
{
    // The law that the proof cites.
    selections_are_seen::<S>();
    match selection {
        Selection::Field(field) => gather_field(builder, field),
        Selection::FragmentSpread(spread) => gather_spread(builder, spread),
        Selection::InlineFragment(fragment) => gather_inline_fragment(builder, fragment),
    }
}

#[cycle(selection)]
fn gather_field<'a, S: ScalarValue>(
    builder: &mut OutlineBuilder<'a>,
    field: &Spanning<Field<'a, S>>,
) -> Result<(), AllocError>
    ensures { OnOk result (GathersSelection builder.old builder.new tt (view_field S.content field.now)) }
{
    let around = builder.enter_field(&field.item.alias);
    match &field.item.selection_set {
        None => {}
        Some(selections) => gather_selections(builder, selections)?,
    }
    builder.leave_field(around, &count_of(&field.item.directives));
    Ok(())
}

fn gather_spread<'a, S: ScalarValue>(
    builder: &mut OutlineBuilder<'a>,
    spread: &Spanning<FragmentSpread<'a, S>>,
) -> Result<(), AllocError>
    ensures { OnOk result (GathersSelection builder.old builder.new tt (view_spread S.content spread.now)) }
{
    builder.begin_spread(&spread.item.name)?;
    builder.end_spread(&count_of(&spread.item.directives), &spread.span);
    Ok(())
}

#[cycle(selection)]
fn gather_inline_fragment<'a, S: ScalarValue>(
    builder: &mut OutlineBuilder<'a>,
    fragment: &Spanning<InlineFragment<'a, S>>,
) -> Result<(), AllocError>
    ensures { OnOk result (GathersSelection builder.old builder.new tt (view_inline S.content fragment.now)) }
{
    gather_selections(builder, &fragment.item.selection_set)?;
    builder.count_directives(&count_of(&fragment.item.directives));
    Ok(())
}

#[cycle(selection)]
fn gather_selections<'a, S: ScalarValue>(
    builder: &mut OutlineBuilder<'a>,
    selections: &[Selection<'a, S>],
) -> Result<(), AllocError>
    ensures { OnOk result (Gathers builder.old builder.new (λ l. own_of_all l (view_selections S.content selections.now)) (λ l. spreads_of_all l (view_selections S.content selections.now))) }
{
    for selection in selections {
        gather_selection(builder, selection)?;
    }
    Ok(())
}

// Counts the directives of variable definitions.
fn gather_variables<'a, S: ScalarValue>(
    builder: &mut OutlineBuilder<'a>,
    variables: &Option<Spanning<VariableDefinitions<'a, S>>>,
)
    ensures { Gathers builder.old builder.new (λ _. only_directives (variable_directive_count (option_map (view_variables S.content) variables.now))) (λ _. []) }
{
    match variables {
        None => {}
        Some(variables) => gather_each_variable(builder, &variables.item.items),
    }
}

fn gather_each_variable<'a, S: ScalarValue>(
    builder: &mut OutlineBuilder<'a>,
    variables: &[(Spanning<&'a str>, VariableDefinition<'a, S>)],
)
    ensures { Gathers builder.old builder.new (λ _. only_directives (directives_of_variables (map (view_variable S.content) variables.now))) (λ _. []) }
{
    for variable in variables {
        builder.count_directives(&count_of(&variable.1.directives));
    }
}

fn gather_definition<'a, S: ScalarValue>(
    builder: &mut OutlineBuilder<'a>,
    definition: &Definition<'a, S>,
) -> Result<DefinitionOutline<'a>, AllocError>
    ensures { IfOk result (λ outline. IsGathered outline (view_definition S.content definition.now)) }
{
    builder.begin();
    match definition {
        Definition::Operation(operation) => {
            gather_variables(builder, &operation.item.variable_definitions);
            gather_selections(builder, &operation.item.selection_set)?;
            Ok(builder.end(None, &count_of(&operation.item.directives), 0))
        }
        Definition::Fragment(fragment) => {
            gather_selections(builder, &fragment.item.selection_set)?;
            let name = Some(fragment.item.name.item);
            Ok(builder.end(name, &count_of(&fragment.item.directives), 0))
        }
    }
}

/// The outlines of a document's definitions, in their order.
pub(crate) fn tree_outlines<'a, S: ScalarValue>(
    alloc: Global,
    document: &[Definition<'a, S>],
) -> Result<Vec<DefinitionOutline<'a>>, AllocError>
    ensures { IfOk result (λ outlines. AreGathered outlines.items (map (view_definition S.content) document.now)) }
{
    let mut builder = OutlineBuilder::new(alloc);
    let mut outlines = Vec::new(alloc);
    for definition in document {
        outlines.push(gather_definition(&mut builder, definition)?)?;
    }
    Ok(outlines)
}
