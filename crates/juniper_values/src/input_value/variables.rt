//! The variables that a value refers to.
ghost use Rattle.std.specs.Prelude.{◌≡◌, ◌++◌, IfOk, map};
ghost use Rattle.std.specs.Str.{chars};
ghost use Rattle.juniper_values.specs.Variables.{variables, item_variables, field_variables};
ghost use Rattle.juniper_values.specs.View.{view, view_items, view_fields};

use crate::input_value::InputValue;
use juniper_tokens::Spanning;
use std::alloc::{AllocError, Global};

impl<S> InputValue<S> {
    /// The names of the variables in the value, from left to right, repeats kept (GraphQL specification, October 2021,
    /// section 2.10).
    ///
    /// Returns `AllocError` if memory runs out. Takes stack in proportion to the value's nesting.
    pub fn referenced_variables(&self, alloc: Global) -> Result<Vec<&str>, AllocError>
        ensures { IfOk result (λ v. map (λ s. chars s.now) v.items ≡ variables (view (λ s. s) self.now)) }
    {
        let mut names = Vec::new(alloc);
        note_variables(self, &mut names)?;
        Ok(names)
    }
}

#[cycle(variables)]
fn note_variables<'a, S>(
    value: &'a InputValue<S>,
    names: &mut Vec<&'a str>,
) -> Result<(), AllocError>
    ensures { IfOk result
        (λ _. map (λ s. chars s.now) names.new.items
        ≡ map (λ s. chars s.now) names.old.items ++ variables (view (λ s. s) value.now)) }
{
    match value {
        InputValue::Variable(name) => {
            names.push(name.as_str())?;
            Ok(())
        }
        InputValue::List(items) => note_item_variables(items, names),
        InputValue::Object(fields) => note_field_variables(fields, names),
        _ => Ok(()),
    }
}

#[cycle(variables)]
fn note_item_variables<'a, S>(
    items: &'a Vec<Spanning<InputValue<S>>>,
    names: &mut Vec<&'a str>,
) -> Result<(), AllocError>
    ensures { IfOk result
        (λ _. map (λ s. chars s.now) names.new.items
        ≡ map (λ s. chars s.now) names.old.items ++ item_variables (view_items (λ s. s) items.now.items)) }
{
    for item in items {
        note_variables(&item.item, names)?;
    }
    Ok(())
}

#[cycle(variables)]
fn note_field_variables<'a, S>(
    fields: &'a Vec<(Spanning<String>, Spanning<InputValue<S>>)>,
    names: &mut Vec<&'a str>,
) -> Result<(), AllocError>
    ensures { IfOk result
        (λ _. map (λ s. chars s.now) names.new.items
        ≡ map (λ s. chars s.now) names.old.items ++ field_variables (view_fields (λ s. s) fields.now.items)) }
{
    for field in fields {
        note_variables(&field.1.item, names)?;
    }
    Ok(())
}
