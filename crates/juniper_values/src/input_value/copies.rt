//! Copies of input values.
ghost use Rattle.std.specs.Prelude.{◌≡◌, IfOk};
ghost use Rattle.juniper_values.specs.View.{view, view_items, view_fields};

use crate::input_value::InputValue;
use crate::scalar::ScalarValue;
use juniper_tokens::Spanning;
use juniper_tokens::text::copied;
use std::alloc::{AllocError, Global};

impl<S: ScalarValue> InputValue<S> {
    /// A copy, which equals the value, its spans included.
    ///
    /// Returns `AllocError` if memory runs out. Takes stack in proportion to the value's nesting.
    pub fn try_clone(&self, alloc: Global) -> Result<Self, AllocError>
        ensures { IfOk result (λ v. view S.content v ≡ view S.content self.now) }
    {
        copy(alloc, self)
    }
}

#[cycle(copy)]
fn copy<S: ScalarValue>(alloc: Global, value: &InputValue<S>) -> Result<InputValue<S>, AllocError>
    ensures { IfOk result (λ v. view S.content v ≡ view S.content value.now) }
{
    match value {
        InputValue::Null => Ok(InputValue::Null),
        InputValue::Scalar(scalar) => Ok(InputValue::Scalar(scalar.try_clone(alloc)?)),
        InputValue::Enum(name) => Ok(InputValue::Enum(copied(alloc, name)?)),
        InputValue::Variable(name) => Ok(InputValue::Variable(copied(alloc, name)?)),
        InputValue::List(items) => Ok(InputValue::List(copy_items(alloc, items)?)),
        InputValue::Object(fields) => Ok(InputValue::Object(copy_fields(alloc, fields)?)),
    }
}

#[cycle(copy)]
fn copy_items<S: ScalarValue>(
    alloc: Global,
    items: &Vec<Spanning<InputValue<S>>>,
) -> Result<Vec<Spanning<InputValue<S>>>, AllocError>
    ensures { IfOk result (λ v. view_items S.content v.items ≡ view_items S.content items.now.items) }
{
    let mut copies = Vec::with_capacity(alloc, items.len())?;
    for item in items {
        copies.push(Spanning::new(item.span, copy(alloc, &item.item)?))?;
    }
    Ok(copies)
}

#[cycle(copy)]
fn copy_fields<S: ScalarValue>(
    alloc: Global,
    fields: &Vec<(Spanning<String>, Spanning<InputValue<S>>)>,
) -> Result<Vec<(Spanning<String>, Spanning<InputValue<S>>)>, AllocError>
    ensures { IfOk result (λ v. view_fields S.content v.items ≡ view_fields S.content fields.now.items) }
{
    let mut copies = Vec::with_capacity(alloc, fields.len())?;
    for field in fields {
        let key = Spanning::new(field.0.span, copied(alloc, &field.0.item)?);
        let value = Spanning::new(field.1.span, copy(alloc, &field.1.item)?);
        copies.push((key, value))?;
    }
    Ok(copies)
}
