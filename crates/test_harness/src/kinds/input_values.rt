//! Input values.

use crate::kinds::{converted, handed_back, word_of};
use crate::parsing::{Input, literal};
use crate::write::{
    Written, write_both, write_found, write_items, write_made, write_optional, write_optional_text,
    write_separator, write_truth,
};
use indexmap::IndexMap;
use juniper::{
    DefaultScalarValue, InputValue, IntoInputValue, Span, Spanning, Variables, input_value_from_str,
};
use juniper_nodes::value_nodes;
use std::alloc::{AllocError, Global};
use std::collections::HashMap;
use std::fmt;
use std::hash::Hash;

/// `input_value`: a call on the value literal that the text begins with; `into_const`, `list` and `object` on a copy.
pub fn answer(alloc: Global, out: &mut String, text: &str, call: &str) -> Written {
    match literal(alloc, text)? {
        Some(value) => answer_call(alloc, out, &value, call),
        None => out.push_str("no value"),
    }
}

fn answer_call(alloc: Global, out: &mut String, value: &Input, call: &str) -> Written {
    let (word, rest) = word_of(call);
    match word {
        "display" => write!(out, "{value}"),
        "is_null" => write_truth(out, value.is_null()),
        "is_variable" => write_truth(out, value.is_variable()),
        "as_enum_value" => write_optional_text(out, value.as_enum_value()),
        _ => answer_parts(alloc, out, value, word, rest),
    }
}

// A call that gives a part of the value.
fn answer_parts(alloc: Global, out: &mut String, value: &Input, word: &str, rest: &str) -> Written {
    match word {
        "as_scalar" => write_optional(out, value.as_scalar()),
        "to_list_value" => write_list(alloc, out, value),
        "to_object_value" => write_object(alloc, out, value),
        "referenced_variables" => write_variables(alloc, out, value),
        _ => answer_whole(alloc, out, value, word, rest),
    }
}

// A call that makes a value of the whole one.
fn answer_whole(alloc: Global, out: &mut String, value: &Input, word: &str, rest: &str) -> Written {
    match word {
        "made_anew" => write_made_anew(alloc, out, value),
        "try_clone" => write_made(out, is_copied(alloc, value)),
        "list" => handed_back::write_list(alloc, out, value),
        "object" => handed_back::write_object(alloc, out, value),
        "convert" | "from_implicit_null" => converted::answer(alloc, out, word, value),
        "unlocated_eq" if rest.is_empty() => write_both_ways(out, value, value),
        _ => answer_two(alloc, out, value, word, rest),
    }
}

fn is_copied(alloc: Global, value: &Input) -> Result<bool, AllocError> {
    Ok(value.try_clone(alloc)? == *value)
}

// A call on the value and another literal.
fn answer_two(alloc: Global, out: &mut String, value: &Input, word: &str, rest: &str) -> Written {
    let Some(other) = literal(alloc, rest)? else {
        return out.push_str("no value");
    };
    match word {
        "==" => write_truth(out, *value == other),
        "unlocated_eq" => write_both_ways(out, value, &other),
        "into_const" => write_resolved(alloc, out, value, other),
        _ => out.push_str("no such call"),
    }
}

fn write_both_ways(out: &mut String, value: &Input, other: &Input) -> Written {
    write_both(out, value.unlocated_eq(other), other.unlocated_eq(value))
}

fn write_resolved(alloc: Global, out: &mut String, value: &Input, variables: Input) -> Written {
    let variables = variables_of(alloc, variables)?;
    write_found(out, value.try_clone(alloc)?.into_const(alloc, &variables))
}

fn write_list(alloc: Global, out: &mut String, value: &Input) -> Written {
    match value.to_list_value(alloc) {
        Ok(Some(items)) => write_items(out, &items),
        Ok(None) => out.push_str("None"),
        Err(_) => out.push_str("Memory"),
    }
}

fn write_object(alloc: Global, out: &mut String, value: &Input) -> Written {
    match value.to_object_value(alloc) {
        Ok(Some(map)) => write_map(out, &map),
        Ok(None) => out.push_str("None"),
        Err(_) => out.push_str("Memory"),
    }
}

/// Writes keys and their values, with commas between them.
pub(crate) fn write_map<K: fmt::Display + Eq + Hash, V: fmt::Display>(
    out: &mut String,
    map: &IndexMap<K, V>,
) -> Written {
    let before = out.len();
    for (key, value) in map.iter() {
        write_separator(out, before)?;
        write!(out, "{key}: {value}")?;
    }
    Ok(())
}

fn write_variables(alloc: Global, out: &mut String, value: &Input) -> Written {
    match value.referenced_variables(alloc) {
        Ok(names) => write_items(out, &names),
        Err(_) => out.push_str("Memory"),
    }
}

/// The fields of an object as a map of variables; no variables for another value.
pub(crate) fn variables_of(
    alloc: Global,
    value: Input,
) -> Result<Variables<DefaultScalarValue>, AllocError> {
    let mut variables = HashMap::new(alloc);
    if let InputValue::Object(fields) = value {
        for (key, value) in fields {
            variables.insert(key.item, value.item)?;
        }
    }
    Ok(variables)
}

// The display of the value that a constructor makes of its parts, and what of it is as it was.
fn write_made_anew(alloc: Global, out: &mut String, value: &Input) -> Written {
    let made = Spanning::unlocated(made_anew(alloc, value)?);
    let shown = &made.item;
    write!(out, "{shown}")?;
    if shown.unlocated_eq(value) {
        out.push_str(", the same but for places")?;
    }
    if is_unlocated(alloc, &made)? {
        out.push_str(", unlocated")?;
    }
    Ok(())
}

// The same value, made by a constructor or a conversion. Items and fields are copies.
fn made_anew(alloc: Global, value: &Input) -> Result<Input, AllocError> {
    match value {
        InputValue::Null => None::<i32>.into_input_value(alloc),
        InputValue::Scalar(scalar) => made_scalar(alloc, scalar),
        InputValue::Enum(name) => InputValue::enum_value(alloc, name.as_str()),
        InputValue::Variable(name) => InputValue::variable(alloc, name.as_str()),
        InputValue::List(items) => made_list(alloc, items),
        InputValue::Object(fields) => made_object(alloc, fields),
    }
}

fn made_scalar(alloc: Global, scalar: &DefaultScalarValue) -> Result<Input, AllocError> {
    match scalar {
        DefaultScalarValue::Int(number) => Some(*number).into_input_value(alloc),
        DefaultScalarValue::Boolean(truth) => truth.into_input_value(alloc),
        DefaultScalarValue::String(text) => input_value_from_str(alloc, text.as_str()),
    }
}

fn made_list(alloc: Global, items: &[Spanning<Input>]) -> Result<Input, AllocError> {
    let mut made = Vec::new(alloc);
    for item in items {
        made.push(item.item.try_clone(alloc)?)?;
    }
    match InputValue::list(alloc, made) {
        Ok(list) => Ok(list),
        Err(_) => Err(AllocError),
    }
}

fn made_object(
    alloc: Global,
    fields: &[(Spanning<String>, Spanning<Input>)],
) -> Result<Input, AllocError> {
    let mut made = IndexMap::new(alloc);
    for (key, value) in fields {
        made.insert(key.item.clone()?, value.item.try_clone(alloc)?)?;
    }
    match InputValue::object(alloc, made) {
        Ok(object) => Ok(object),
        Err(_) => Err(AllocError),
    }
}

/// Whether neither a value nor any item, key or value in it has a place.
pub(crate) fn is_unlocated(alloc: Global, value: &Spanning<Input>) -> Result<bool, AllocError> {
    for node in &value_nodes(alloc, value)? {
        if *node.span != Span::unlocated() {
            return Ok(false);
        }
    }
    Ok(true)
}
