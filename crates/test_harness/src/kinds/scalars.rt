//! Scalars.

use crate::kinds::word_of;
use crate::write::{
    Written, write_error, write_found, write_made, write_optional, write_optional_text, write_truth,
};
use juniper::{
    DefaultScalarValue, InputValue, IntoInputValue, ParseError, ParseScalarResult,
    ParseScalarValue, ReadFailure, Scalar, ScalarToken, ScalarValue, ToScalarValue,
    WrongInputScalarTypeError, scalar_from_str,
};
use std::alloc::{AllocError, Global};
use std::borrow::CowStr;

/// `scalar`: a call on the scalar that a token is read as. The row's text is the token's kind, a space and its text.
/// After `text` a text stands that is no token: the call is on it, or on the scalar that is made of it.
pub fn answer<S: ScalarValue>(alloc: Global, out: &mut String, text: &str, call: &str) -> Written {
    let (kind, text) = word_of(text);
    if kind == "text" {
        return answer_text::<S>(alloc, out, text, call);
    }
    match read::<S>(alloc, kind, text) {
        Ok(scalar) => answer_call(alloc, out, &scalar, call),
        Err(ReadFailure::Refused(error)) => write_refused(out, &error, call),
        Err(ReadFailure::Memory) if call == "from_str" => out.push_str("Memory"),
        Err(ReadFailure::Memory) => Err(AllocError),
    }
}

fn answer_text<S: ScalarValue>(alloc: Global, out: &mut String, text: &str, call: &str) -> Written {
    match call {
        "scalar_from_str" => write_made(out, scalar_from_str::<S>(alloc, text)),
        "to_scalar_value" => {
            write_made(out, scalar_of::<S>(alloc, &String::from_str(alloc, text)?))
        }
        _ => answer_call(alloc, out, &scalar_from_str::<S>(alloc, text)?, call),
    }
}

fn scalar_of<S: ScalarValue>(alloc: Global, text: &String) -> Result<S, AllocError> {
    text.to_scalar_value(alloc)
}

// Why a token is refused: what the error displays, or its variant.
fn write_refused(out: &mut String, error: &ParseError, call: &str) -> Written {
    if call == "error" {
        return write!(out, "{error}");
    }
    out.push_str("Refused")?;
    write_error(out, error)
}

fn read<S: ScalarValue>(alloc: Global, kind: &str, text: &str) -> ParseScalarResult<S> {
    let token = match kind {
        "Int" => ScalarToken::Int(text),
        "Float" => ScalarToken::Float(text),
        "BlockString" => ScalarToken::BlockString(text),
        _ => ScalarToken::String(text),
    };
    S::from_str(alloc, token)
}

fn answer_call<S: ScalarValue>(alloc: Global, out: &mut String, scalar: &S, call: &str) -> Written {
    let (word, rest) = word_of(call);
    match word {
        "from_str" => write!(out, "{scalar}"),
        "try_to_int" => write_optional(out, scalar.try_to_int()),
        "try_to_bool" => write_optional(out, scalar.try_to_bool()),
        "try_as_str" => write_optional_text(out, scalar.try_as_str()),
        "try_to" => write_lent(out, scalar),
        "wrong_type" => write_wrong_type(out, scalar, rest),
        _ => answer_owned(alloc, out, scalar, word, rest),
    }
}

// A call that takes memory, or a copy of the scalar.
fn answer_owned<S: ScalarValue>(
    alloc: Global,
    out: &mut String,
    scalar: &S,
    word: &str,
    rest: &str,
) -> Written {
    match word {
        "try_to_string" => write_found(out, scalar.try_to_string(alloc)),
        "try_into_string" => write_found(out, scalar.try_clone(alloc)?.try_into_string(alloc)),
        "try_clone" => write_made(out, is_copied(alloc, scalar)),
        "into_another" => write_another(alloc, out, scalar.try_clone(alloc)?),
        "made" => write_all_made(alloc, out, rest),
        _ => out.push_str("no such call"),
    }
}

fn is_copied<S: ScalarValue>(alloc: Global, scalar: &S) -> Result<bool, AllocError> {
    Ok(scalar.try_clone(alloc)? == *scalar)
}

fn write_another<S: ScalarValue>(alloc: Global, out: &mut String, scalar: S) -> Written {
    write_made::<DefaultScalarValue>(out, scalar.into_another(alloc))
}

fn write_wrong_type<S: ScalarValue>(out: &mut String, scalar: &S, type_name: &str) -> Written {
    let error = WrongInputScalarTypeError {
        type_name,
        input: scalar,
    };
    write!(out, "{error}")
}

// What the scalar is as a reference, and as a `Scalar`, which shows a text between quotes.
fn write_lent<S: ScalarValue>(out: &mut String, scalar: &S) -> Written {
    match scalar.try_to::<&S>() {
        Ok(lent) => write!(out, "{lent} ")?,
        Err(never) => match never {},
    }
    match scalar.try_to::<Scalar<'_, S>>() {
        Ok(lent) => write!(out, "{lent}"),
        Err(never) => match never {},
    }
}

// The scalars that are made of a text, of an integer and of a boolean, and the input values of a text.
fn write_all_made(alloc: Global, out: &mut String, text: &str) -> Written {
    write_made(out, scalar_from_str::<DefaultScalarValue>(alloc, text))?;
    out.push(' ')?;
    write_made(
        out,
        scalar_of::<DefaultScalarValue>(alloc, &String::from_str(alloc, text)?),
    )?;
    out.push(' ')?;
    write_constants(alloc, out)?;
    write_truth(out, is_converted(alloc, text)?)
}

// Whether the input values of a text are the one of its scalar.
fn is_converted(alloc: Global, text: &str) -> Result<bool, AllocError> {
    let owned: InputValue<DefaultScalarValue> = String::from_str(alloc, text)?.into_input_value(
        alloc,
    )?;
    let lent = CowStr::Borrowed(text).into_input_value(alloc)?;
    let scalar = InputValue::scalar(scalar_from_str(alloc, text)?);
    Ok(owned == lent && owned == scalar)
}

fn write_constants(alloc: Global, out: &mut String) -> Written {
    let number: DefaultScalarValue = 7.to_scalar_value(alloc)?;
    let truth: DefaultScalarValue = true.to_scalar_value(alloc)?;
    write!(out, "{number} {truth} ")
}
