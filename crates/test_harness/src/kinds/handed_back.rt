//! Lists and objects that are made of a copy of a value and of null, or returned as they were where memory ran out.

use crate::kinds::input_values::write_map;
use crate::parsing::Input;
use crate::write::{Written, write_items};
use indexmap::IndexMap;
use juniper::InputValue;
use std::alloc::{AllocError, Global};

/// Writes the list of the value and null, or after `Memory` the items that were returned.
pub fn write_list(alloc: Global, out: &mut String, value: &Input) -> Written {
    match InputValue::list(alloc, items_of(alloc, value)?) {
        Ok(list) => write!(out, "{list}"),
        Err(items) => {
            out.push_str("Memory ")?;
            write_items(out, &items)
        }
    }
}

fn items_of(alloc: Global, value: &Input) -> Result<Vec<Input>, AllocError> {
    let mut items = Vec::new(alloc);
    items.push(value.try_clone(alloc)?)?;
    items.push(InputValue::null())?;
    Ok(items)
}

/// Writes the object of the value at the key `k` and null at `l`, or after `Memory` the fields that were returned.
pub fn write_object(alloc: Global, out: &mut String, value: &Input) -> Written {
    match InputValue::object(alloc, fields_of(alloc, value)?) {
        Ok(object) => write!(out, "{object}"),
        Err(fields) => {
            out.push_str("Memory ")?;
            write_map(out, &fields)
        }
    }
}

fn fields_of(alloc: Global, value: &Input) -> Result<IndexMap<String, Input>, AllocError> {
    let mut fields = IndexMap::new(alloc);
    fields.insert(String::from_str(alloc, "k")?, value.try_clone(alloc)?)?;
    fields.insert(String::from_str(alloc, "l")?, InputValue::null())?;
    Ok(fields)
}
