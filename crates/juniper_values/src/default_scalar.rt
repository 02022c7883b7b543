//! The default scalar: integers of 32 bits, texts and booleans.
ghost use Rattle.std.specs.Prelude.{◌≡◌, Some, Err};
ghost use Rattle.std.specs.Str.{chars, encode_utf8_all};
ghost use Rattle.juniper_tokens.specs.Errors.{UnexpectedToken};
ghost use Rattle.juniper_tokens.specs.Tokens.{shown_scalar};
ghost use Rattle.juniper_values.specs.Default.{default_content, default_shown, string_reading, int_reading};
ghost use Rattle.juniper_values.specs.Escapes.{unescape};
ghost use Rattle.juniper_values.specs.Scalar.{MeetsReading};

use crate::block_string::block_value;
use crate::escapes::unescape;
use crate::scalar::{ParseScalarResult, ParseScalarValue, ReadFailure, ScalarValue};
use crate::text::write_int;
use juniper_tokens::text::{copied, same_string, write_text};
use juniper_tokens::{ParseError, ScalarToken, Token};
use std::alloc::{AllocError, Global};
use std::fmt;

/// A scalar of the types that GraphQL builds in, except floats (GraphQL specification, October 2021, section 3.5).
#[derive(Debug, Drop)]
pub enum DefaultScalarValue {
    /// An integer.
    Int(i32),
    /// A text, escapes replaced.
    String(String),
    /// A boolean.
    Boolean(bool),
}

impl PartialEq for DefaultScalarValue {
    ghost use Rattle.juniper_values.specs.Scalar.{same_content};
    ghost use Rattle.juniper_values.specs.laws.ScalarLaws.{partial_by_content};

    ghost eq = { λ a b. same_content (default_content a) (default_content b) };

    ghost laws = { partial_by_content default_content };

    fn eq(&self, other: &DefaultScalarValue) -> bool {
        match (self, other) {
            (DefaultScalarValue::Int(a), DefaultScalarValue::Int(b)) => *a == *b,
            (DefaultScalarValue::String(a), DefaultScalarValue::String(b)) => same_string(a, b),
            (DefaultScalarValue::Boolean(a), DefaultScalarValue::Boolean(b)) => *a == *b,
            _ => false,
        }
    }
}

impl Eq for DefaultScalarValue {
    ghost use Rattle.juniper_values.specs.laws.ScalarLaws.{by_content};

    ghost laws = { by_content default_content };
}

/// Displays the decimal number, the text as it is, or `true` or `false`.
impl fmt::Display for DefaultScalarValue {
    ghost output = { λ s. Some (encode_utf8_all (default_shown (default_content s))) };

    fn fmt<W: fmt::Write>(&self, f: &mut fmt::Formatter<W>) -> fmt::Result {
        match self {
            DefaultScalarValue::Int(n) => write_int(f, *n),
            DefaultScalarValue::String(s) => write_text(f, s.as_str()),
            DefaultScalarValue::Boolean(b) => write!(f, "{b}"),
        }
    }
}

/// Reads a String as its text with the escapes replaced, a block string as its value, and an Int as its number if that
/// has 32 bits. Refuses a Float (GraphQL specification, October 2021, sections 2.9.1, 2.9.2 and 2.9.4).
impl ParseScalarValue<DefaultScalarValue> for DefaultScalarValue {
    ghost use Rattle.juniper_values.specs.Default.{default_reading};

    ghost content = { default_content };

    ghost reading = { default_reading };

    fn from_str(alloc: Global, token: ScalarToken<'_>) -> ParseScalarResult<DefaultScalarValue> {
        match token {
            ScalarToken::String(text) => read_string(alloc, text),
            ScalarToken::BlockString(text) => {
                Ok(DefaultScalarValue::String(block_value(alloc, text)?))
            }
            ScalarToken::Float(_) => Err(ReadFailure::Refused(ParseError::ExpectedScalarError(
                "There needs to be a Float type",
            ))),
            ScalarToken::Int(text) => read_int(alloc, text),
        }
    }
}

fn read_string(alloc: Global, text: &str) -> ParseScalarResult<DefaultScalarValue>
    ensures { MeetsReading default_content (string_reading (chars text.now) (unescape (chars text.now))) result }
{
    match unescape(alloc, text)? {
        Some(value) => Ok(DefaultScalarValue::String(value)),
        None => refuse(alloc, ScalarToken::String(text)),
    }
}

fn read_int(alloc: Global, text: &str) -> ParseScalarResult<DefaultScalarValue>
    ensures { MeetsReading default_content (int_reading (chars text.now)) result }
{
    match text.parse::<i32>() {
        Ok(value) => Ok(DefaultScalarValue::Int(value)),
        Err(_) => refuse(alloc, ScalarToken::Int(text)),
    }
}

// The error that the token is unexpected.
fn refuse(alloc: Global, token: ScalarToken<'_>) -> ParseScalarResult<DefaultScalarValue>
    ensures { MeetsReading default_content (Err (UnexpectedToken (shown_scalar token.entry))) result }
{
    let error = ParseError::unexpected_token(alloc, Token::Scalar(token))?;
    Err(ReadFailure::Refused(error))
}

impl ScalarValue for DefaultScalarValue {
    ghost use Rattle.std.specs.Prelude.{refl};
    ghost use Rattle.juniper_values.specs.Scalar.{boolean, integer, text};
    ghost use Rattle.juniper_values.specs.Default.{int_in, bool_in, text_in, default_shown};
    ghost use Rattle.juniper_values.specs.laws.ScalarLaws.{default-has_form, same_content-Decides};

    ghost of_bool = { boolean };

    ghost of_int = { integer };

    ghost of_text = { text };

    ghost bool_in = { bool_in };

    ghost int_in = { int_in };

    ghost str_in = { text_in };

    ghost string_in = { text_in };

    ghost own_string_in = { text_in };

    ghost shown = { default_shown };

    ghost equal_by_content = { λ a b. same_content-Decides (default_content a) (default_content b) };

    ghost has_form = { default-has_form };

    ghost shows_itself = { λ a. refl };

    ghost lent_is_copied = { λ a t e. e };

    ghost lent_is_handed_out = { λ a t e. e };

    fn from_bool(value: bool) -> Self {
        DefaultScalarValue::Boolean(value)
    }

    fn from_int(value: i32) -> Self {
        DefaultScalarValue::Int(value)
    }

    fn from_string(value: String) -> Self {
        DefaultScalarValue::String(value)
    }

    fn try_to_bool(&self) -> Option<bool> {
        match self {
            DefaultScalarValue::Boolean(b) => Some(*b),
            _ => None,
        }
    }

    fn try_to_int(&self) -> Option<i32> {
        match self {
            DefaultScalarValue::Int(n) => Some(*n),
            _ => None,
        }
    }

    fn try_as_str(&self) -> Option<&str> {
        match self {
            DefaultScalarValue::String(s) => Some(s.as_str()),
            _ => None,
        }
    }

    fn try_to_string(&self, alloc: Global) -> Result<Option<String>, AllocError> {
        match self {
            DefaultScalarValue::String(s) => Ok(Some(copied(alloc, s)?)),
            _ => Ok(None),
        }
    }

    fn try_into_string(self, _alloc: Global) -> Result<Option<String>, AllocError> {
        match self {
            DefaultScalarValue::String(s) => Ok(Some(s)),
            _ => Ok(None),
        }
    }

    fn try_clone(&self, alloc: Global) -> Result<Self, AllocError> {
        match self {
            DefaultScalarValue::Int(n) => Ok(DefaultScalarValue::Int(*n)),
            DefaultScalarValue::String(s) => Ok(DefaultScalarValue::String(copied(alloc, s)?)),
            DefaultScalarValue::Boolean(b) => Ok(DefaultScalarValue::Boolean(*b)),
        }
    }
}
