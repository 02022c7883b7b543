//! Making answer values, and reading them.
ghost use Rattle.std.specs.Prelude.{◌≡◌, option_map, Some, None, OnSome};
ghost use Rattle.std.specs.Borrow.{sem, LendsSo};
ghost use Rattle.juniper_answers.specs.Parts.{is_null, object_in, list_in, scalar_in};
ghost use Rattle.juniper_answers.specs.View.{shape, pairs, items_view, fields_view};
ghost use Rattle.juniper_answers.specs.contracts.value.Value.{the_row as value_row};
ghost use Rattle.juniper_answers.specs.contracts.value.Object.{the_row as object_row};

use crate::value::{Object, Value};

impl<S> Value<S> {
    /// The value `null`.
    pub fn null() -> Self
        ensures { result ≡ Value.Null }
    {
        Value::Null
    }

    /// The value of a scalar.
    pub fn scalar(scalar: S) -> Self
        ensures { result ≡ Value.Scalar scalar }
    {
        Value::Scalar(scalar)
    }

    /// The list of these items.
    pub fn list(items: Vec<Self>) -> Self
        ensures { result ≡ Value.List items }
    {
        Value::List(items)
    }

    /// The value of an object.
    pub fn object(object: Object<S>) -> Self
        ensures { result ≡ Value.Object object }
    {
        Value::Object(object)
    }

    /// Whether the value is `null`.
    pub fn is_null(&self) -> bool
        ensures { result ≡ is_null (shape self.now) }
    {
        match self {
            Value::Null => true,
            _ => false,
        }
    }

    /// The object that the value is, if it is one.
    pub fn as_object_value(&self) -> Option<&Object<S>>
        ensures { option_map (λ o. fields_view (λ s. s) (pairs o.now)) result ≡ object_in (shape self.now) }
    {
        match self {
            Value::Object(object) => Some(object),
            _ => None,
        }
    }

    /// The object that the value is, mutable, if it is one. What is written is the object that the value then is.
    pub fn as_mut_object_value(&mut self) -> Option<&mut Object<S>>
        ensures* writes_back { sem 𝓛 (LendsSo (value_row S.row) (object_row S.row) self.entry result (λ n o. OnSome result (n ≡ Value.Object o)) (λ n. n ≡ self.old)) }
        ensures value { option_map (λ o. fields_view (λ s. s) (pairs o.now)) result ≡ object_in (shape self.old) }
    {
        match self {
            Value::Object(object) => Some(object),
            _ => None,
        }
    }

    /// The items of the list that the value is, if it is one.
    pub fn as_list_value(&self) -> Option<&Vec<Self>>
        ensures { option_map (λ items. items_view (λ s. s) items.now.items) result ≡ list_in (shape self.now) }
    {
        match self {
            Value::List(items) => Some(items),
            _ => None,
        }
    }

    /// The scalar that the value is, if it is one.
    pub fn as_scalar(&self) -> Option<&S>
        ensures { option_map (λ s. s.now) result ≡ scalar_in (shape self.now) }
    {
        match self {
            Value::Scalar(scalar) => Some(scalar),
            _ => None,
        }
    }
}

impl<S: Drop> Value<S> {
    /// The object that the value is, if it is one. Any other value is dropped.
    pub fn into_object(self) -> Option<Object<S>>
        ensures { option_map (λ o. fields_view (λ s. s) (pairs o)) result ≡ object_in (shape self) }
    {
        match self {
            Value::Object(object) => Some(object),
            _ => None,
        }
    }
}
