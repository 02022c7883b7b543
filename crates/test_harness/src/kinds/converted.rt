//! A type of a caller's own, which is made from input values.

use crate::parsing::Input;
use crate::write::{Written, write_made};
use juniper::{DefaultScalarValue, FromInputValue, InputValue};
use std::alloc::{AllocError, Global};
use std::fmt;

/// The text that a value displays.
#[derive(Drop)]
struct Shown(String);

impl FromInputValue<DefaultScalarValue> for Shown {
    type Error = AllocError;

    // Nothing is said of what is made.
    ghost answers = { λ _ _. Unit {0} };

    ghost implicit = { λ _. Unit {0} };

    ghost null_serves = { λ _ said. said };

    fn from_input_value(
        alloc: Global,
        value: &InputValue<DefaultScalarValue>,
    ) -> Result<Shown, AllocError> {
        Ok(Shown(value.to_string(alloc)?))
    }
}

impl fmt::Display for Shown {
    fn fmt<W: fmt::Write>(&self, f: &mut fmt::Formatter<W>) -> fmt::Result {
        let text = self.0.as_str();
        write!(f, "{text}")
    }
}

/// `convert`: what that type makes of the value. Any other word: what it makes of a value that is not given.
pub fn answer(alloc: Global, out: &mut String, call: &str, value: &Input) -> Written {
    match call {
        "convert" => write_made(out, value.convert::<Shown>(alloc)),
        _ => write_made(out, Shown::from_implicit_null(alloc)),
    }
}
