//! A scalar type whose error is a lexical error.
use crate::read_by::{ReadBy, TokenReader};
use juniper_tokens::{LexerError, ParseError, ScalarToken};
use juniper_values::{DefaultScalarValue, ParseScalarResult, ParseScalarValue, ReadFailure};
use std::alloc::Global;

/// Scalars of the default type whose strings are not read from tokens.
///
/// A String and a block string are refused as `LexerError(InvalidNumber)`, which no lexer returns. An Int and a Float
/// are read as the default type reads them.
pub type OddError = ReadBy<NoStrings>;

/// How `OddError` reads tokens.
#[derive(Debug, Drop)]
pub struct NoStrings;

impl TokenReader for NoStrings {
    ghost use Rattle.juniper_odd.specs.OddError.{odd_error_reading};

    ghost reads = { odd_error_reading };

    fn read(alloc: Global, token: ScalarToken<'_>) -> ParseScalarResult<DefaultScalarValue> {
        match token {
            ScalarToken::String(_) | ScalarToken::BlockString(_) => Err(ReadFailure::Refused(
                ParseError::LexerError(LexerError::InvalidNumber),
            )),
            ScalarToken::Float(_) | ScalarToken::Int(_) => {
                DefaultScalarValue::from_str(alloc, token)
            }
        }
    }
}
