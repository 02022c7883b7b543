//! Answer values, objects and names.

use crate::kinds::input_values::is_unlocated;
use crate::kinds::{Subject, word_of, write_lines};
use crate::parsing::{Input, fields_of, literal};
use crate::write::{Written, write_both, write_made, write_optional, write_separator, write_truth};
use juniper::{
    DefaultScalarValue, InputValue, IntoValue, Name, NameFailure, Object, ParseError, Spanning,
    ToInputValue, Token, Value, value_from_str,
};
use std::alloc::{AllocError, Global};
use std::borrow::CowStr;

type Answer = Value<DefaultScalarValue>;

/// `answer`: calls, one after another, on the answer value that is made of the text, a value literal: of an enum its
/// text, of a variable null.
pub fn write_calls(alloc: Global, out: &mut String, text: &str, calls: &str) -> Written {
    match answer_in(alloc, text)? {
        Some(mut value) => write_lines(alloc, out, &mut value, calls),
        None => out.push_str("no value\n"),
    }
}

fn answer_in(alloc: Global, text: &str) -> Result<Option<Answer>, AllocError> {
    match literal(alloc, text)? {
        Some(value) => Ok(Some(answer_of(alloc, &value)?)),
        None => Ok(None),
    }
}

// An answer value made by constructors and conversions.
#[cycle(answers)]
fn answer_of(alloc: Global, value: &Input) -> Result<Answer, AllocError> {
    match value {
        InputValue::Null => Ok(Value::null()),
        InputValue::Scalar(scalar) => scalar_of(alloc, scalar),
        InputValue::Enum(name) => CowStr::Borrowed(name.as_str()).into_value(alloc),
        InputValue::Variable(_) => None::<i32>.into_value(alloc),
        InputValue::List(items) => list_of(alloc, items),
        InputValue::Object(fields) => object_from(alloc, pairs_of(alloc, fields)?),
    }
}

fn scalar_of(alloc: Global, scalar: &DefaultScalarValue) -> Result<Answer, AllocError> {
    match scalar {
        DefaultScalarValue::Int(number) => Some(*number).into_value(alloc),
        DefaultScalarValue::Boolean(truth) => truth.into_value(alloc),
        DefaultScalarValue::String(text) => value_from_str(alloc, text.as_str()),
    }
}

#[cycle(answers)]
fn list_of(alloc: Global, items: &[Spanning<Input>]) -> Result<Answer, AllocError> {
    let mut list = Vec::new(alloc);
    for item in items {
        list.push(answer_of(alloc, &item.item)?)?;
    }
    Ok(Value::list(list))
}

#[cycle(answers)]
fn pairs_of(
    alloc: Global,
    fields: &[(Spanning<String>, Spanning<Input>)],
) -> Result<Vec<(String, Answer)>, AllocError> {
    let mut pairs = Vec::new(alloc);
    for (key, value) in fields {
        pairs.push((key.item.clone()?, answer_of(alloc, &value.item)?))?;
    }
    Ok(pairs)
}

fn object_from(alloc: Global, pairs: Vec<(String, Answer)>) -> Result<Answer, AllocError> {
    let object: Object<DefaultScalarValue> = Object::from_iter(alloc, pairs.into_iter())?;
    Ok(Value::object(object))
}

/// `object`: a call that makes an object: `with_capacity` of a number of fields, or `from_iter` of the fields of the
/// value literal that is the text.
pub fn answer_made(alloc: Global, out: &mut String, text: &str, call: &str) -> Written {
    let (word, number) = word_of(call);
    match word {
        "with_capacity" => write_made(out, empty(alloc, number)),
        "from_iter" => write_object_of(alloc, out, text),
        _ => out.push_str("no such call"),
    }
}

fn write_object_of(alloc: Global, out: &mut String, text: &str) -> Written {
    match fields_of(alloc, text)? {
        Some(fields) => write_made(out, object_from(alloc, pairs_of(alloc, &fields)?)),
        None => out.push_str("no object"),
    }
}

// An object with capacity for a number of fields.
fn empty(alloc: Global, number: &str) -> Result<Answer, AllocError> {
    let object: Object<DefaultScalarValue> = Object::with_capacity(
        alloc,
        number.parse::<usize>().unwrap_or(0),
    )?;
    Ok(Value::object(object))
}

impl Subject for Answer {
    fn answer(&mut self, alloc: Global, out: &mut String, call: &str) -> Written {
        let (word, rest) = word_of(call);
        match word {
            "display" => write!(out, "{self}"),
            "to_input_value" => write_input(alloc, out, self),
            "parts" => write_parts(out, self),
            _ => answer_whole(alloc, out, self, word, rest),
        }
    }
}

// A call on a whole answer value, or on the object that it is.
fn answer_whole(
    alloc: Global,
    out: &mut String,
    value: &mut Answer,
    word: &str,
    rest: &str,
) -> Written {
    match word {
        "try_clone" => write_made(out, is_copied(alloc, value)),
        "into_object" => write_taken_apart(out, value.try_clone(alloc)?),
        "map_scalar_value" => write_mapped(alloc, out, value),
        "==" => write_compared(alloc, out, value, rest),
        _ => answer_part(alloc, out, value, word, rest),
    }
}

fn answer_part(
    alloc: Global,
    out: &mut String,
    value: &mut Answer,
    word: &str,
    rest: &str,
) -> Written {
    match value.as_mut_object_value() {
        Some(object) => answer_object(alloc, out, object, word, rest),
        None => out.push_str("no object"),
    }
}

fn is_copied(alloc: Global, value: &Answer) -> Result<bool, AllocError> {
    Ok(value.try_clone(alloc)? == *value)
}

fn write_mapped(alloc: Global, out: &mut String, value: &Answer) -> Written {
    let mapped: Result<Answer, AllocError> = value.try_clone(alloc)?.map_scalar_value(alloc);
    match mapped {
        Ok(mapped) => {
            let is_equal = mapped == *value;
            write!(out, "{mapped} {is_equal}")
        }
        Err(_) => out.push_str("Memory"),
    }
}

// Whether an answer value equals the one that is written, and the other way round.
fn write_compared(alloc: Global, out: &mut String, value: &Answer, other: &str) -> Written {
    match answer_in(alloc, other)? {
        Some(other) => write_both(out, *value == other, other == *value),
        None => out.push_str("no value"),
    }
}

// The input value of an answer value, and whether it has no place.
fn write_input(alloc: Global, out: &mut String, value: &Answer) -> Written {
    match value.to_input_value(alloc) {
        Ok(input) => write_unlocated(alloc, out, &Spanning::unlocated(input)),
        Err(_) => out.push_str("Memory"),
    }
}

fn write_unlocated(alloc: Global, out: &mut String, input: &Spanning<Input>) -> Written {
    let value = &input.item;
    if is_unlocated(alloc, input)? {
        return write!(out, "{value}, unlocated");
    }
    write!(out, "{value}")
}

// Which variant a value is, as its calls report it.
fn write_parts(out: &mut String, value: &Answer) -> Written {
    if value.is_null() {
        return out.push_str("null");
    }
    if let Some(scalar) = value.as_scalar() {
        return write!(out, "scalar {scalar}");
    }
    if let Some(items) = value.as_list_value() {
        let len = items.len();
        return write!(out, "list of {len}");
    }
    let count = match value.as_object_value() {
        Some(object) => object.field_count(),
        None => return Ok(()),
    };
    write!(out, "object of {count}")
}

fn answer_object(
    alloc: Global,
    out: &mut String,
    object: &mut Object<DefaultScalarValue>,
    word: &str,
    rest: &str,
) -> Written {
    let (key, text) = word_of(rest);
    match word {
        "contains_field" => write_truth(out, object.contains_field(key)),
        "get_field_value" => write_optional(out, object.get_field_value(key)),
        "get_mut_field_value" => write_cleared(out, object.get_mut_field_value(key)),
        "add_field" => write_added(alloc, out, object, key, text),
        _ => write_all(out, object, word),
    }
}

// A call on all of an object.
fn write_all(out: &mut String, object: &Object<DefaultScalarValue>, word: &str) -> Written {
    match word {
        "field_count" => {
            let count = object.field_count();
            write!(out, "{count}")
        }
        "iter" => write_pairs(out, object),
        _ => out.push_str("no such call"),
    }
}

// Puts null in the place of the value.
fn write_cleared(out: &mut String, value: Option<&mut Answer>) -> Written {
    match value {
        Some(value) => {
            *value = Value::null();
            out.push_str("null")
        }
        None => out.push_str("None"),
    }
}

fn write_added(
    alloc: Global,
    out: &mut String,
    object: &mut Object<DefaultScalarValue>,
    key: &str,
    text: &str,
) -> Written {
    match answer_in(alloc, text)? {
        Some(value) => write_old(out, &object.add_field(String::from_str(alloc, key)?, value)),
        None => out.push_str("no value"),
    }
}

// Writes the value that was there, or after `Memory` the pair that was returned.
fn write_old(out: &mut String, old: &Result<Option<Answer>, (String, Answer)>) -> Written {
    match old {
        Ok(old) => write_optional(out, old.as_ref()),
        Err((key, value)) => write!(out, "Memory {key}: {value}"),
    }
}

fn write_pairs(out: &mut String, object: &Object<DefaultScalarValue>) -> Written {
    let before = out.len();
    for (key, value) in object.iter() {
        write_pair(out, before, key.as_str(), value)?;
    }
    Ok(())
}

// The pairs of an answer value, which is taken apart.
fn write_taken_apart(out: &mut String, value: Answer) -> Written {
    match value.into_object() {
        Some(object) => write_own_pairs(out, object),
        None => out.push_str("no object"),
    }
}

fn write_own_pairs(out: &mut String, object: Object<DefaultScalarValue>) -> Written {
    let before = out.len();
    for (key, value) in object.into_iter() {
        write_pair(out, before, key.as_str(), &value)?;
    }
    Ok(())
}

// Writes a pair of a list that begins after this many bytes.
fn write_pair(out: &mut String, before: usize, key: &str, value: &Answer) -> Written {
    write_separator(out, before)?;
    write!(out, "{key}: {value}")
}

/// `name`: a call on the text as a name.
pub fn answer_name(alloc: Global, out: &mut String, text: &str, call: &str) -> Written {
    match call {
        "is_valid" => write_truth(out, Name::is_valid(text)),
        "new" => match Name::new(alloc, text) {
            Ok(name) => out.push_str(name.as_str()),
            Err(NameFailure::Invalid(error)) => write!(out, "Invalid {error}"),
            Err(NameFailure::Memory) => out.push_str("Memory"),
        },
        "unexpected_token" => {
            write_made(out, ParseError::unexpected_token(alloc, Token::Name(text)))
        }
        _ => out.push_str("no such call"),
    }
}
