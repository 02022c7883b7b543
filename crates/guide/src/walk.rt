//! A walk over a whole tree.
ghost use Rattle.std.specs.Prelude.{◌≡◌, ◌++◌, IfOk, OnOk, map};
ghost use Rattle.juniper_tree.specs.View.{view_definition, view_field, view_selection, view_selections};
ghost use Rattle.guide.specs.Fields.{texts, fields_of, fields_among, fields_in, field_names};

use juniper::laws::selections_are_seen;
use juniper::{Definition, Field, ScalarValue, Selection, Spanning};
use std::alloc::{AllocError, Global};

/// The names of all fields of a document, in the order in which they are written.
pub fn field_names<'a, S: ScalarValue>(
    alloc: Global,
    document: &[Definition<'a, S>],
) -> Result<Vec<&'a str>, AllocError>
    ensures { IfOk result (λ names. texts names.items ≡ field_names (map (view_definition S.content) document.now)) }
{
    let mut names = Vec::new(alloc);
    for definition in document {
        note_definition(&mut names, definition)?;
    }
    Ok(names)
}

#[tactic(auto, unfolding(crate::specs::Fields::fields_in))]
fn note_definition<'a, S: ScalarValue>(
    names: &mut Vec<&'a str>,
    definition: &Definition<'a, S>,
) -> Result<(), AllocError>
    ensures { OnOk result (texts names.new.items ≡ texts names.old.items ++ fields_in (view_definition S.content definition.now)) }
{
    match definition {
        Definition::Operation(operation) => note_fields(names, &operation.item.selection_set),
        Definition::Fragment(fragment) => note_fields(names, &fragment.item.selection_set),
    }
}

#[cycle(fields)]
fn note_fields<'a, S: ScalarValue>(
    names: &mut Vec<&'a str>,
    selections: &[Selection<'a, S>],
) -> Result<(), AllocError>
    ensures { OnOk result (texts names.new.items ≡ texts names.old.items ++ fields_among (view_selections S.content selections.now)) }
{
    for selection in selections {
        note_selection(names, selection)?;
    }
    Ok(())
}

#[cycle(fields)]
fn note_selection<'a, S: ScalarValue>(
    names: &mut Vec<&'a str>,
    selection: &Selection<'a, S>,
) -> Result<(), AllocError>
    ensures { OnOk result (texts names.new.items ≡ texts names.old.items ++ fields_of (view_selection S.content selection.now)) }
{
    // The law that the proof cites.
    selections_are_seen::<S>();
    match selection {
        Selection::Field(field) => note_field(names, field),
        Selection::FragmentSpread(_) => Ok(()),
        Selection::InlineFragment(inline) => note_fields(names, &inline.item.selection_set),
    }
}

// The name of a field, and after it those of the fields within.
#[cycle(fields)]
fn note_field<'a, S: ScalarValue>(
    names: &mut Vec<&'a str>,
    field: &Spanning<Field<'a, S>>,
) -> Result<(), AllocError>
    ensures { OnOk result (texts names.new.items ≡ texts names.old.items ++ fields_of (view_field S.content field.now)) }
{
    names.push(field.item.name.item)?;
    match &field.item.selection_set {
        None => Ok(()),
        Some(inner) => note_fields(names, inner),
    }
}
