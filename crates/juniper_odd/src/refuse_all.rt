//! A scalar type that reads no literal.
use crate::read_by::{ReadBy, TokenReader};
use juniper_tokens::{ParseError, ScalarToken};
use juniper_values::{DefaultScalarValue, ParseScalarResult, ReadFailure};
use std::alloc::Global;

/// Scalars of the default type, none of which is read from a token: a document has `true` and `false` and no other.
///
/// Every scalar token, a block string too, is refused as `ExpectedScalarError("No literals")`.
pub type RefuseAll = ReadBy<NoLiterals>;

/// How `RefuseAll` reads tokens.
#[derive(Debug, Drop)]
pub struct NoLiterals;

impl TokenReader for NoLiterals {
    ghost use Rattle.juniper_odd.specs.RefuseAll.{refuse_all_reading};

    ghost reads = { refuse_all_reading };

    fn read(_alloc: Global, _token: ScalarToken<'_>) -> ParseScalarResult<DefaultScalarValue> {
        Err(ReadFailure::Refused(ParseError::ExpectedScalarError("No literals")))
    }
}
