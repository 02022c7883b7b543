//! A caller that keeps what stands before a fault.
ghost use Rattle.std.specs.Prelude.{IfOk};
ghost use Rattle.std.specs.Str.{chars};
ghost use Rattle.guide.specs.Fronts.{IsKept};

use juniper::{DefaultScalarValue, ParseFailure, Span, parse_document_source};
use std::alloc::{AllocError, Global};

/// Returns the span of a text's error, or None if the text is a document. If the text can be tokenized, the tokens
/// before the error may be kept, whatever is typed next: after a space, some text after them makes a document.
pub fn kept_up_to(alloc: Global, source: &str) -> Result<Option<Span>, AllocError>
    ensures { IfOk result (λ span. IsKept (chars source.now) span) }
{
    match parse_document_source::<DefaultScalarValue>(alloc, source) {
        Ok(_document) => Ok(None),
        Err(ParseFailure::Refused(fault)) => Ok(Some(fault.span)),
        Err(ParseFailure::Memory) => Err(AllocError),
    }
}
