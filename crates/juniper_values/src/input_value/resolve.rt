//! Variables replaced by their values.
ghost use Rattle.std.specs.Prelude.{◌≡◌, IfOk, option_map, true};
ghost use Rattle.std.specs.Option.{option_eq};
ghost use Rattle.juniper_values.specs.Equality.{same_value};
ghost use Rattle.juniper_values.specs.Resolve.{resolve, Becomes, ItemsBecome, FieldsBecome};
ghost use Rattle.juniper_values.specs.View.{view, text_of, view_items, view_fields, values_in};

use crate::input_value::InputValue;
use crate::scalar::ScalarValue;
use juniper_tokens::Spanning;
use std::alloc::{AllocError, Global};
use std::collections::HashMap;

/// The values of variables, by their names.
///
/// The map hashes with a fixed seed: whoever picks the names can make them collide, and a look-up then takes time in
/// proportion to their number. So limit the variables that come from an untrusted sender.
pub type Variables<S> = HashMap<String, InputValue<S>>;

impl<S: ScalarValue> InputValue<S> {
    /// Replaces each variable in the value by a copy of its value, in which no variable is replaced. All else is moved,
    /// its scalars too.
    ///
    /// A variable without a value is removed: a value that is one gives `None`, an item of a list becomes `null`, and a
    /// field of an object is left out (GraphQL specification, October 2021, section 2.10). Returns `AllocError` if
    /// memory runs out; the value is dropped then. Takes stack in proportion to the nesting of the value and of what
    /// replaces a variable.
    ///
    /// Each use of a variable is a copy of its whole value, so time and memory grow with the number of uses times the
    /// size of the value. Whoever takes both from an untrusted sender limits that product: a hundred thousand uses of a
    /// value of a million parts are 10^11 parts.
    ///
    /// ```
    /// // of [1, $n, $m], with n as 2: [1, 2, null]
    /// let value = argument.item.try_clone(alloc)?.into_const(alloc, variables)?;
    /// ```
    pub fn into_const(
        self,
        alloc: Global,
        values: &Variables<S>,
    ) -> Result<Option<Self>, AllocError>
        ensures resolved { IfOk result
            (λ o. option_map (view S.content) o ≡ resolve (values_in S.content values.now) (view S.content self)) }
        ensures moved { IfOk result
            (λ o. Becomes S.eq (values_in (λ s. s) values.now) (view (λ s. s) self) (option_map (view (λ s. s)) o)) }
    {
        constant(self, alloc, values)
    }
}

#[cycle(resolve)]
fn constant<S: ScalarValue>(
    value: InputValue<S>,
    alloc: Global,
    values: &Variables<S>,
) -> Result<Option<InputValue<S>>, AllocError>
    ensures { IfOk result
        (λ o. Becomes S.eq (values_in (λ s. s) values.now) (view (λ s. s) value) (option_map (view (λ s. s)) o)) }
{
    match value {
        InputValue::Null => Ok(Some(InputValue::Null)),
        InputValue::Scalar(scalar) => Ok(Some(InputValue::Scalar(scalar))),
        InputValue::Enum(name) => Ok(Some(InputValue::Enum(name))),
        InputValue::Variable(name) => value_of(name, alloc, values),
        InputValue::List(items) => Ok(Some(InputValue::List(constant_items(
            items, alloc, values,
        )?))),
        InputValue::Object(fields) => Ok(Some(InputValue::Object(constant_fields(
            fields, alloc, values,
        )?))),
    }
}

fn value_of<S: ScalarValue>(
    name: String,
    alloc: Global,
    values: &Variables<S>,
) -> Result<Option<InputValue<S>>, AllocError>
    ensures { IfOk result
        (λ o. option_eq (same_value S.eq) (values_in (λ s. s) values.now (text_of name)) (option_map (view (λ s. s)) o) ≡ true) }
{
    match values.get(name.as_str()) {
        Some(value) => Ok(Some(value.try_clone(alloc)?)),
        None => Ok(None),
    }
}

#[cycle(resolve)]
fn constant_items<S: ScalarValue>(
    items: Vec<Spanning<InputValue<S>>>,
    alloc: Global,
    values: &Variables<S>,
) -> Result<Vec<Spanning<InputValue<S>>>, AllocError>
    ensures { IfOk result
        (λ v. ItemsBecome S.eq (values_in (λ s. s) values.now) (view_items (λ s. s) items.items) (view_items (λ s. s) v.items)) }
{
    let mut done = Vec::with_capacity(alloc, items.len())?;
    for item in items {
        let Spanning { item, span } = item;
        let value = constant(item, alloc, values)?.unwrap_or(InputValue::Null);
        done.push(Spanning::new(span, value))?;
    }
    Ok(done)
}

#[cycle(resolve)]
fn constant_fields<S: ScalarValue>(
    fields: Vec<(Spanning<String>, Spanning<InputValue<S>>)>,
    alloc: Global,
    values: &Variables<S>,
) -> Result<Vec<(Spanning<String>, Spanning<InputValue<S>>)>, AllocError>
    ensures { IfOk result
        (λ v. FieldsBecome S.eq (values_in (λ s. s) values.now) (view_fields (λ s. s) fields.items) (view_fields (λ s. s) v.items)) }
{
    let mut done = Vec::with_capacity(alloc, fields.len())?;
    for field in fields {
        let (key, value) = field;
        let Spanning { item, span } = value;
        if let Some(value) = constant(item, alloc, values)? {
            done.push((key, Spanning::new(span, value)))?;
        }
    }
    Ok(done)
}
