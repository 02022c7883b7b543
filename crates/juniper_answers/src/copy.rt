//! Copies of whole values.
ghost use Rattle.std.specs.Prelude.{◌≡◌, IfOk};
ghost use Rattle.juniper_answers.specs.Copies.{Copies, CopiesItems, CopiesFields};
ghost use Rattle.juniper_answers.specs.View.{pairs};

use crate::value::{Object, Value};
use juniper_values::ScalarValue;
use std::alloc::{AllocError, Global};

impl<S: ScalarValue> Value<S> {
    /// A copy: the same lists, the same keys in the same order, and equal scalars.
    ///
    /// Returns `AllocError` if memory runs out.
    pub fn try_clone(&self, alloc: Global) -> Result<Self, AllocError>
        ensures { IfOk result (λ v. Copies (λ s t. S.content t ≡ S.content s) self.now v) }
    {
        copy(alloc, self)
    }
}

#[cycle(copy)]
fn copy<S: ScalarValue>(alloc: Global, value: &Value<S>) -> Result<Value<S>, AllocError>
    ensures { IfOk result (λ v. Copies (λ s t. S.content t ≡ S.content s) value.now v) }
{
    match value {
        Value::Null => Ok(Value::Null),
        Value::Scalar(scalar) => Ok(Value::Scalar(scalar.try_clone(alloc)?)),
        Value::List(items) => Ok(Value::List(copy_items(alloc, items)?)),
        Value::Object(object) => Ok(Value::Object(copy_object(alloc, object)?)),
    }
}

#[cycle(copy)]
fn copy_items<S: ScalarValue>(
    alloc: Global,
    items: &Vec<Value<S>>,
) -> Result<Vec<Value<S>>, AllocError>
    ensures { IfOk result (λ v. CopiesItems (λ s t. S.content t ≡ S.content s) items.now.items v.items) }
{
    let mut copies = Vec::with_capacity(alloc, items.len())?;
    for item in items {
        copies.push(copy(alloc, item)?)?;
    }
    Ok(copies)
}

#[cycle(copy)]
fn copy_object<S: ScalarValue>(alloc: Global, object: &Object<S>) -> Result<Object<S>, AllocError>
    ensures { IfOk result (λ o. CopiesFields (λ s t. S.content t ≡ S.content s) (pairs object.now) (pairs o)) }
{
    let mut copies = Object::with_capacity(alloc, object.field_count())?;
    for (key, value) in object.iter() {
        let name = key.clone()?;
        copies.put(name, copy(alloc, value)?)?;
    }
    Ok(copies)
}
