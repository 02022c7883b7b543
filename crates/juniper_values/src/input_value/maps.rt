//! Objects as maps, and lists.
ghost use Rattle.std.specs.Prelude.{◌≡◌, IfOk, map, option_map};
ghost use Rattle.std.specs.Str.{chars};
ghost use Rattle.juniper_values.specs.Maps.{map_of, list_of, as_map, values_of};
ghost use Rattle.juniper_values.specs.View.{view, view_items, view_fields};

use crate::input_value::InputValue;
use indexmap::IndexMap;
use juniper_tokens::Spanning;
use std::alloc::{AllocError, Global};

impl<S> InputValue<S> {
    /// The fields of an object as a map, or None for another value. A repeated key keeps its first place and takes the
    /// last value.
    ///
    /// Returns `AllocError` if memory runs out. The map hashes with a fixed seed: whoever picks the keys can make them
    /// collide, and n of them then take time in proportion to the square of n. So limit the fields of an object that
    /// comes from an untrusted sender.
    pub fn to_object_value(
        &self,
        alloc: Global,
    ) -> Result<Option<IndexMap<&str, &Self>>, AllocError>
        ensures { IfOk result
            (λ o. option_map (λ m. map (λ e. (chars e.0.now, view (λ s. s) e.1.now)) m.entries) o ≡ map_of (view (λ s. s) self.now)) }
    {
        match self {
            InputValue::Object(fields) => Ok(Some(fields_by_key(alloc, fields)?)),
            _ => Ok(None),
        }
    }

    /// The items of a list, or None for another value.
    ///
    /// Returns `AllocError` if memory runs out.
    pub fn to_list_value(&self, alloc: Global) -> Result<Option<Vec<&Self>>, AllocError>
        ensures { IfOk result
            (λ o. option_map (λ v. map (λ x. view (λ s. s) x.now) v.items) o ≡ list_of (view (λ s. s) self.now)) }
    {
        match self {
            InputValue::List(items) => Ok(Some(items_alone(alloc, items)?)),
            _ => Ok(None),
        }
    }
}

fn fields_by_key<'a, S>(
    alloc: Global,
    fields: &'a Vec<(Spanning<String>, Spanning<InputValue<S>>)>,
) -> Result<IndexMap<&'a str, &'a InputValue<S>>, AllocError>
    ensures { IfOk result
        (λ m. map (λ e. (chars e.0.now, view (λ s. s) e.1.now)) m.entries ≡ as_map (view_fields (λ s. s) fields.now.items)) }
{
    let mut by_key = IndexMap::with_capacity(alloc, fields.len())?;
    for field in fields {
        by_key.insert(field.0.item.as_str(), &field.1.item)?;
    }
    Ok(by_key)
}

fn items_alone<'a, S>(
    alloc: Global,
    items: &'a Vec<Spanning<InputValue<S>>>,
) -> Result<Vec<&'a InputValue<S>>, AllocError>
    ensures { IfOk result
        (λ v. map (λ x. view (λ s. s) x.now) v.items ≡ values_of (view_items (λ s. s) items.now.items)) }
{
    let mut values = Vec::with_capacity(alloc, items.len())?;
    for item in items {
        values.push(&item.item)?;
    }
    Ok(values)
}
