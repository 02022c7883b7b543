//! Answer values as input values.
ghost use Rattle.std.specs.Prelude.{◌≡◌, IfOk};
ghost use Rattle.juniper_values.specs.View.{view as input_view, view_items, view_fields};
ghost use Rattle.juniper_values.specs.declared.input_value.InputValue.{InputValue};
ghost use Rattle.juniper_answers.specs.Input.{as_input, items_as_input, fields_as_input};
ghost use Rattle.juniper_answers.specs.View.{view, items_view, fields_view, pairs};

use crate::value::{Object, Value};
use juniper_tokens::Spanning;
use juniper_values::{InputValue, ScalarValue};
use std::alloc::{AllocError, Global};

/// A type whose values can be converted to input values with scalars of type `S`.
pub trait ToInputValue<S> {
    // The input value that stands for a value.
    ghost stands_for: { Self → InputValue S → Type 0 };

    /// Converts the value to an input value (GraphQL specification, October 2021, section 2.9). Returns `AllocError` if
    /// memory runs out.
    fn to_input_value(&self, alloc: Global) -> Result<InputValue<S>, AllocError>
        ensures { IfOk result (λ v. stands_for self.now v) };
}

/// The same `null`, an equal scalar, or the items or fields in their order, each with the span `Span::unlocated`.
impl<S: ScalarValue> ToInputValue<S> for Value<S> {
    ghost stands_for = { λ d v. input_view S.content v ≡ as_input (view S.content d) };

    fn to_input_value(&self, alloc: Global) -> Result<InputValue<S>, AllocError> {
        input_of(alloc, self)
    }
}

#[cycle(input)]
fn input_of<S: ScalarValue>(alloc: Global, value: &Value<S>) -> Result<InputValue<S>, AllocError>
    ensures { IfOk result (λ v. input_view S.content v ≡ as_input (view S.content value.now)) }
{
    match value {
        Value::Null => Ok(InputValue::Null),
        Value::Scalar(scalar) => Ok(InputValue::Scalar(scalar.try_clone(alloc)?)),
        Value::List(items) => Ok(InputValue::List(input_items(alloc, items)?)),
        Value::Object(object) => Ok(InputValue::Object(input_fields(alloc, object)?)),
    }
}

#[cycle(input)]
fn input_items<S: ScalarValue>(
    alloc: Global,
    items: &Vec<Value<S>>,
) -> Result<Vec<Spanning<InputValue<S>>>, AllocError>
    ensures { IfOk result (λ v. view_items S.content v.items ≡ items_as_input (items_view S.content items.now.items)) }
{
    let mut made = Vec::with_capacity(alloc, items.len())?;
    for item in items {
        made.push(Spanning::unlocated(input_of(alloc, item)?))?;
    }
    Ok(made)
}

#[cycle(input)]
fn input_fields<S: ScalarValue>(
    alloc: Global,
    object: &Object<S>,
) -> Result<Vec<(Spanning<String>, Spanning<InputValue<S>>)>, AllocError>
    ensures { IfOk result (λ v. view_fields S.content v.items ≡ fields_as_input (fields_view S.content (pairs object.now))) }
{
    let mut made = Vec::with_capacity(alloc, object.field_count())?;
    for (key, value) in object.iter() {
        let name = key.clone()?;
        let input = input_of(alloc, value)?;
        made.push((Spanning::unlocated(name), Spanning::unlocated(input)))?;
    }
    Ok(made)
}
