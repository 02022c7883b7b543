//! Making input values.
ghost use Rattle.std.specs.Prelude.{◌≡◌, ◌≤◌, [], IfOk, MatchResult, map, vec_len, vec_capacity};
ghost use Rattle.indexmap.specs.IndexMap.{index_map_len};
ghost use Rattle.std.specs.Str.{chars};
ghost use Rattle.juniper_values.specs.Make.{unlocated_items, unlocated_fields};
ghost use Rattle.graphql_grammar.specs.Tree.{Enum, Variable, ListOf, Object};
ghost use Rattle.juniper_values.specs.View.{view, view_items, view_fields, text_of};

use crate::input_value::InputValue;
use indexmap::IndexMap;
use juniper_tokens::Spanning;
use std::alloc::{AllocError, Global};

impl<S> InputValue<S> {
    /// The value `null`.
    pub fn null() -> Self
        ensures { result ≡ InputValue.Null }
    {
        InputValue::Null
    }

    /// The value of a scalar.
    pub fn scalar(scalar: S) -> Self
        ensures { result ≡ InputValue.Scalar scalar }
    {
        InputValue::Scalar(scalar)
    }

    /// The list of these items, with their spans.
    pub fn parsed_list(items: Vec<Spanning<Self>>) -> Self
        ensures { result ≡ InputValue.List items }
    {
        InputValue::List(items)
    }

    /// The object of these fields, with the spans of their keys and values.
    pub fn parsed_object(fields: Vec<(Spanning<String>, Spanning<Self>)>) -> Self
        ensures { result ≡ InputValue.Object fields }
    {
        InputValue::Object(fields)
    }

    /// The enum value of this name, which is copied. Returns `AllocError` if memory runs out.
    pub fn enum_value(alloc: Global, name: &str) -> Result<Self, AllocError>
        ensures { IfOk result (λ v. view (λ s. s) v ≡ Enum (chars name.now)) }
    {
        Ok(InputValue::Enum(String::from_str(alloc, name)?))
    }

    /// The variable of this name, which is given without its `$` and copied. Returns `AllocError` if memory runs out.
    pub fn variable(alloc: Global, name: &str) -> Result<Self, AllocError>
        ensures { IfOk result (λ v. view (λ s. s) v ≡ Variable (chars name.now)) }
    {
        Ok(InputValue::Variable(String::from_str(alloc, name)?))
    }
}

impl<S: Drop> InputValue<S> {
    /// The list of these items, each with the span `Span::unlocated`.
    ///
    /// If memory runs out, returns the items.
    pub fn list(alloc: Global, items: Vec<Self>) -> Result<Self, Vec<Self>>
        ensures { MatchResult result
            (λ v. view (λ s. s) v ≡ ListOf (unlocated_items (map (view (λ s. s)) items.items)))
            (λ back. back ≡ items) }
    {
        match Vec::with_capacity(alloc, items.len()) {
            Ok(empty) => Ok(InputValue::List(placed_items(empty, items))),
            Err(_) => Err(items),
        }
    }

    /// The object of these fields, each key and value with the span `Span::unlocated`.
    ///
    /// If memory runs out, returns the fields.
    pub fn object(
        alloc: Global,
        fields: IndexMap<String, Self>,
    ) -> Result<Self, IndexMap<String, Self>>
        ensures { MatchResult result
            (λ v. view (λ s. s) v ≡ Object (unlocated_fields (map (λ e. (text_of e.0, view (λ s. s) e.1)) fields.entries)))
            (λ back. back ≡ fields) }
    {
        match Vec::with_capacity(alloc, fields.len()) {
            Ok(empty) => Ok(InputValue::Object(placed_fields(empty, fields))),
            Err(_) => Err(fields),
        }
    }
}

// The items with spans, in a list that has capacity for them.
fn placed_items<S: Drop>(
    empty: Vec<Spanning<InputValue<S>>>,
    items: Vec<InputValue<S>>,
) -> Vec<Spanning<InputValue<S>>>
    requires empty { empty.items ≡ [] }
    requires fits { vec_len items ≤ vec_capacity empty }
    ensures { view_items (λ s. s) result.items ≡ unlocated_items (map (view (λ s. s)) items.items) }
{
    let mut placed = empty;
    for item in items {
        placed.push_reserved(Spanning::unlocated(item));
    }
    placed
}

// The fields with spans, in a list that has capacity for them.
fn placed_fields<S: Drop>(
    empty: Vec<(Spanning<String>, Spanning<InputValue<S>>)>,
    fields: IndexMap<String, InputValue<S>>,
) -> Vec<(Spanning<String>, Spanning<InputValue<S>>)>
    requires empty { empty.items ≡ [] }
    requires fits { index_map_len fields ≤ vec_capacity empty }
    ensures { view_fields (λ s. s) result.items
        ≡ unlocated_fields (map (λ e. (text_of e.0, view (λ s. s) e.1)) fields.entries) }
{
    let mut placed = empty;
    for (key, value) in fields {
        placed.push_reserved((Spanning::unlocated(key), Spanning::unlocated(value)));
    }
    placed
}
