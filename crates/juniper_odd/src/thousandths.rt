//! A scalar type that reads decimal numbers of up to three places.
ghost use Rattle.std.specs.Prelude.{◌≡◌, Some, IfOk, string_bytes};
ghost use Rattle.std.specs.Str.{chars, encode_utf8_all};
ghost use Rattle.juniper_values.specs.Scalar.{MeetsReading};
ghost use Rattle.juniper_odd.specs.Decimals.{milli_text};
ghost use Rattle.juniper_odd.specs.Thousandths.{thousandths_content, thousandths_shown, float_reading};

use crate::decimals::{thousandths_in, write_decimal};
use juniper_tokens::{ParseError, ScalarToken};
use juniper_values::{
    BesideDefault, DefaultScalarValue, Held, ParseScalarResult, ParseScalarValue, ReadFailure,
    ScalarValue,
};
use std::alloc::{AllocError, Global};
use std::fmt;

/// A scalar of the default type, or a number of thousandths.
#[derive(Debug, Drop)]
pub enum Thousandths {
    /// A scalar of the default type.
    Default(DefaultScalarValue),
    /// This number of thousandths.
    Milli(i64),
}

impl PartialEq for Thousandths {
    ghost use Rattle.juniper_values.specs.Scalar.{same_content};
    ghost use Rattle.juniper_values.specs.laws.ScalarLaws.{partial_by_content};

    ghost eq = { λ a b. same_content (thousandths_content a) (thousandths_content b) };

    ghost laws = { partial_by_content thousandths_content };

    fn eq(&self, other: &Thousandths) -> bool {
        match (self, other) {
            (Thousandths::Default(a), Thousandths::Default(b)) => a == b,
            (Thousandths::Milli(a), Thousandths::Milli(b)) => *a == *b,
            _ => false,
        }
    }
}

impl Eq for Thousandths {
    ghost use Rattle.juniper_values.specs.laws.ScalarLaws.{by_content};

    ghost laws = { by_content thousandths_content };
}

/// Displays a number with its three places, as `-0.250`, and anything else as the default type does.
impl fmt::Display for Thousandths {
    ghost output = { λ s. Some (encode_utf8_all (thousandths_shown (thousandths_content s))) };

    fn fmt<W: fmt::Write>(&self, f: &mut fmt::Formatter<W>) -> fmt::Result {
        match self {
            Thousandths::Default(scalar) => scalar.fmt(f),
            Thousandths::Milli(number) => write_decimal(f, *number),
        }
    }
}

/// Reads a Float as a number of thousandths if it has no more than three places, no exponent, and a number of
/// thousandths of 64 bits; any other is refused as `ExpectedScalarError("Not thousandths")`. An Int, a String and a
/// block string are read as the default type reads them.
impl ParseScalarValue<Thousandths> for Thousandths {
    ghost use Rattle.juniper_odd.specs.Thousandths.{thousandths_reading};

    ghost content = { thousandths_content };

    ghost reading = { thousandths_reading };

    fn from_str(alloc: Global, token: ScalarToken<'_>) -> ParseScalarResult<Thousandths> {
        match token {
            ScalarToken::Float(text) => read_float(alloc, text),
            ScalarToken::String(_) | ScalarToken::BlockString(_) | ScalarToken::Int(_) => {
                match DefaultScalarValue::from_str(alloc, token) {
                    Ok(scalar) => Ok(Thousandths::Default(scalar)),
                    Err(failure) => Err(failure),
                }
            }
        }
    }
}

fn read_float(alloc: Global, text: &str) -> ParseScalarResult<Thousandths>
    ensures { MeetsReading thousandths_content (float_reading (chars text.now)) result }
{
    match thousandths_in(alloc, text)? {
        Some(number) => Ok(Thousandths::Milli(number)),
        None => Err(ReadFailure::Refused(ParseError::ExpectedScalarError("Not thousandths"))),
    }
}

// The display of a number of thousandths.
fn milli_string(alloc: Global, number: i64) -> Result<String, AllocError>
    ensures { IfOk result (λ text. chars (string_bytes text) ≡ milli_text number) }
{
    Thousandths::Milli(number).to_string(alloc)
}

impl BesideDefault for Thousandths {
    ghost use Rattle.std.specs.Prelude.{None, refl};
    ghost use Rattle.juniper_values.specs.laws.ScalarLaws.{same_content-Decides};
    ghost use Rattle.juniper_odd.specs.Thousandths.{custom_text};

    ghost own_int = { λ ns. None };

    ghost own_str = { λ ns. None };

    ghost own_text = { custom_text };

    ghost equal_by_content = { λ a b. same_content-Decides (thousandths_content a) (thousandths_content b) };

    ghost shows_itself = { λ a. refl };

    ghost lent_is_text = { λ ns t e. absurd (cc e) };

    fn from_default(scalar: DefaultScalarValue) -> Self {
        Thousandths::Default(scalar)
    }

    fn held(&self) -> Held<'_> {
        match self {
            Thousandths::Default(scalar) => Held::Default(scalar),
            Thousandths::Milli(_) => Held::Own {
                int: None,
                text: None,
            },
        }
    }

    fn to_default(&self, alloc: Global) -> Result<DefaultScalarValue, AllocError> {
        match self {
            Thousandths::Default(scalar) => scalar.try_clone(alloc),
            Thousandths::Milli(number) => Ok(DefaultScalarValue::String(milli_string(
                alloc, *number,
            )?)),
        }
    }

    fn into_default(self, alloc: Global) -> Result<DefaultScalarValue, AllocError> {
        match self {
            Thousandths::Default(scalar) => Ok(scalar),
            Thousandths::Milli(number) => {
                Ok(DefaultScalarValue::String(milli_string(alloc, number)?))
            }
        }
    }

    fn try_copy(&self, alloc: Global) -> Result<Self, AllocError> {
        match self {
            Thousandths::Default(scalar) => Ok(Thousandths::Default(scalar.try_clone(alloc)?)),
            Thousandths::Milli(number) => Ok(Thousandths::Milli(*number)),
        }
    }
}
