//! What texts, booleans and values themselves become.

use crate::parsing::Input;
use crate::write::{Written, write_made};
use juniper::{
    DefaultScalarValue, InputValue, IntoInputValue, IntoValue, Value, input_value_from_str,
    value_from_str,
};
use std::alloc::{AllocError, Global};
use std::borrow::CowStr;

/// `into`: the answer value and the input value that something becomes which is made of the text; or what a single call
/// makes of the text.
pub fn answer(alloc: Global, out: &mut String, text: &str, call: &str) -> Written {
    match call {
        "bool" => write_truths(alloc, out, text == "true"),
        "String" => write_strings(alloc, out, text),
        "borrowed" => write_borrowed(alloc, out, text),
        "owned" => write_owned(alloc, out, text),
        "values" => write_values(alloc, out, text),
        "value_from_str" => write_made(out, value_from_str::<DefaultScalarValue>(alloc, text)),
        "into_value" => write_lent(alloc, out, text),
        "enum_value" | "variable" | "input_value_from_str" | "into_input_value" => {
            write_made(out, input_of(alloc, text, call))
        }
        _ => out.push_str("no such call"),
    }
}

// The answer value of a text that is borrowed.
fn write_lent(alloc: Global, out: &mut String, text: &str) -> Written {
    let owned = String::from_str(alloc, text)?;
    let lent: Result<Value<DefaultScalarValue>, AllocError> = Some(&owned).into_value(alloc);
    write_made(out, lent)
}

// The input value that a call makes of the text.
fn input_of(alloc: Global, text: &str, call: &str) -> Result<Input, AllocError> {
    match call {
        "enum_value" => InputValue::enum_value(alloc, text),
        "variable" => InputValue::variable(alloc, text),
        "input_value_from_str" => input_value_from_str(alloc, text),
        _ => Some(CowStr::Borrowed(text)).into_input_value(alloc),
    }
}

fn write_truths(alloc: Global, out: &mut String, truth: bool) -> Written {
    write_become(alloc, out, truth, truth)
}

fn write_strings(alloc: Global, out: &mut String, text: &str) -> Written {
    let one = String::from_str(alloc, text)?;
    let other = String::from_str(alloc, text)?;
    write_become(alloc, out, one, other)
}

fn write_borrowed(alloc: Global, out: &mut String, text: &str) -> Written {
    write_become(alloc, out, CowStr::Borrowed(text), CowStr::Borrowed(text))
}

fn write_owned(alloc: Global, out: &mut String, text: &str) -> Written {
    let one = String::from_str(alloc, text)?;
    let other = String::from_str(alloc, text)?;
    write_become(alloc, out, CowStr::Owned(one), CowStr::Owned(other))
}

// The answer value and the input value that are scalars of the text.
fn write_values(alloc: Global, out: &mut String, text: &str) -> Written {
    let answer = value_from_str::<DefaultScalarValue>(alloc, text)?;
    let input = input_value_from_str::<DefaultScalarValue>(alloc, text)?;
    write_become(alloc, out, answer, input)
}

// Writes the answer value that the one becomes, and the input value that the other becomes.
fn write_become<T, U>(alloc: Global, out: &mut String, one: T, other: U) -> Result<(), AllocError>
where
    T: IntoValue<DefaultScalarValue>,
    U: IntoInputValue<DefaultScalarValue> + Drop,
{
    let answer = one.into_value(alloc)?;
    let input = other.into_input_value(alloc)?;
    write!(out, "{answer} {input}")
}
