//! Values of another scalar type.
ghost use Rattle.std.specs.Prelude.{IfOk};
ghost use Rattle.juniper_answers.specs.Another.{IsAnother};
ghost use Rattle.juniper_answers.specs.Copies.{Copies, CopiesItems, CopiesFields};
ghost use Rattle.juniper_answers.specs.View.{pairs};

use crate::value::{Object, Value};
use juniper_values::ScalarValue;
use std::alloc::{AllocError, Global};

impl<S: ScalarValue> Value<S> {
    /// The value with each scalar replaced by what `into_another` makes of it: the same lists, and the same keys in the
    /// same order.
    ///
    /// Returns `AllocError` if memory runs out. The value is dropped then too.
    pub fn map_scalar_value<T: ScalarValue>(self, alloc: Global) -> Result<Value<T>, AllocError>
        ensures { IfOk result (λ v. Copies (IsAnother S.content S.int_in S.bool_in S.own_string_in T.content T.of_int T.of_bool T.of_text) self v) }
    {
        map_value(alloc, self)
    }
}

#[cycle(map)]
fn map_value<S: ScalarValue, T: ScalarValue>(
    alloc: Global,
    value: Value<S>,
) -> Result<Value<T>, AllocError>
    ensures { IfOk result (λ v. Copies (IsAnother S.content S.int_in S.bool_in S.own_string_in T.content T.of_int T.of_bool T.of_text) value v) }
{
    match value {
        Value::Null => Ok(Value::Null),
        Value::Scalar(scalar) => Ok(Value::Scalar(scalar.into_another(alloc)?)),
        Value::List(items) => Ok(Value::List(map_items(alloc, items)?)),
        Value::Object(object) => Ok(Value::Object(map_object(alloc, object)?)),
    }
}

#[cycle(map)]
fn map_items<S: ScalarValue, T: ScalarValue>(
    alloc: Global,
    items: Vec<Value<S>>,
) -> Result<Vec<Value<T>>, AllocError>
    ensures { IfOk result (λ v. CopiesItems (IsAnother S.content S.int_in S.bool_in S.own_string_in T.content T.of_int T.of_bool T.of_text) items.items v.items) }
{
    let mut made = Vec::with_capacity(alloc, items.len())?;
    for item in items {
        made.push(map_value(alloc, item)?)?;
    }
    Ok(made)
}

#[cycle(map)]
fn map_object<S: ScalarValue, T: ScalarValue>(
    alloc: Global,
    object: Object<S>,
) -> Result<Object<T>, AllocError>
    ensures { IfOk result (λ o. CopiesFields (IsAnother S.content S.int_in S.bool_in S.own_string_in T.content T.of_int T.of_bool T.of_text) (pairs object) (pairs o)) }
{
    let mut made = Object::with_capacity(alloc, object.field_count())?;
    for (key, value) in object.into_iter() {
        made.put(key, map_value(alloc, value)?)?;
    }
    Ok(made)
}
