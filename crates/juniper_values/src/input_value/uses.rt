//! The uses of variables in a value.
ghost use Rattle.std.specs.Prelude.{◌≡◌, ◌++◌, ◌∷◌, [], IfOk, map};
ghost use Rattle.std.specs.Str.{chars};
ghost use Rattle.juniper_tokens.specs.Spans.{view_span};
ghost use Rattle.juniper_values.specs.Variables.{variables, variable_uses, item_uses, field_uses};
ghost use Rattle.juniper_values.specs.View.{view, view_items, view_fields, view_name, name_characters};

use crate::input_value::InputValue;
use juniper_tokens::{Span, Spanning};
use std::alloc::{AllocError, Global};

impl<S> InputValue<S> {
    /// The names that `referenced_variables` returns, each with the span of its use: from its `$` to the end of the
    /// name (GraphQL specification, October 2021, section 2.10). `span` is that of the value itself, which is the use
    /// if the value is a variable.
    ///
    /// Returns `AllocError` if memory runs out. Takes stack in proportion to the value's nesting.
    ///
    /// ```
    /// // of `[$n, {k: $m}]`: n from character 1 to 3, m from character 9 to 11
    /// let uses = argument.item.variable_uses(alloc, argument.span)?;
    /// ```
    pub fn variable_uses(
        &self,
        alloc: Global,
        span: Span,
    ) -> Result<Vec<Spanning<&str>>, AllocError>
        ensures uses { IfOk result
            (λ v. map view_name v.items ≡ variable_uses (view_span span) (view (λ s. s) self.now)) }
        ensures names { IfOk result (λ v. map name_characters v.items ≡ variables (view (λ s. s) self.now)) }
    {
        let mut uses = Vec::new(alloc);
        note_uses(self, &span, &mut uses)?;
        Ok(uses)
    }
}

fn push_use<'a>(
    uses: &mut Vec<Spanning<&'a str>>,
    span: &Span,
    name: &'a str,
) -> Result<(), AllocError>
    ensures { IfOk result
        (λ _. map view_name uses.new.items
        ≡ map view_name uses.old.items ++ record { item = chars name.now; span = view_span span.now } ∷ []) }
{
    push_item(uses, Spanning::new(*span, name))
}

fn push_item<T: Drop>(items: &mut Vec<T>, item: T) -> Result<(), AllocError>
    ensures { IfOk result (λ _. items.new.items ≡ items.old.items ++ item ∷ []) }
{
    items.push(item)?;
    Ok(())
}

#[cycle(uses)]
fn note_uses<'a, S>(
    value: &'a InputValue<S>,
    span: &Span,
    uses: &mut Vec<Spanning<&'a str>>,
) -> Result<(), AllocError>
    ensures { IfOk result
        (λ _. map view_name uses.new.items
        ≡ map view_name uses.old.items ++ variable_uses (view_span span.now) (view (λ s. s) value.now)) }
{
    match value {
        InputValue::Variable(name) => push_use(uses, span, name.as_str()),
        InputValue::List(items) => note_item_uses(items, uses),
        InputValue::Object(fields) => note_field_uses(fields, uses),
        _ => Ok(()),
    }
}

#[cycle(uses)]
fn note_item_uses<'a, S>(
    items: &'a Vec<Spanning<InputValue<S>>>,
    uses: &mut Vec<Spanning<&'a str>>,
) -> Result<(), AllocError>
    ensures { IfOk result
        (λ _. map view_name uses.new.items
        ≡ map view_name uses.old.items ++ item_uses (view_items (λ s. s) items.now.items)) }
{
    for item in items {
        note_uses(&item.item, &item.span, uses)?;
    }
    Ok(())
}

#[cycle(uses)]
fn note_field_uses<'a, S>(
    fields: &'a Vec<(Spanning<String>, Spanning<InputValue<S>>)>,
    uses: &mut Vec<Spanning<&'a str>>,
) -> Result<(), AllocError>
    ensures { IfOk result
        (λ _. map view_name uses.new.items
        ≡ map view_name uses.old.items ++ field_uses (view_fields (λ s. s) fields.now.items)) }
{
    for field in fields {
        note_uses(&field.1.item, &field.1.span, uses)?;
    }
    Ok(())
}
