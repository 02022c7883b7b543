//! How a refusal is reported.
ghost use Rattle.std.specs.Prelude.{◌≡◌, IfOk, string_bytes};
ghost use Rattle.std.specs.Str.{chars};
ghost use Rattle.juniper_tokens.specs.Errors.{view_fault};
ghost use Rattle.guide.specs.FaultLines.{IsTold, fault_text};

use juniper::{DefaultScalarValue, ParseError, ParseFailure, Spanning, parse_document_source};
use std::alloc::{AllocError, Global};

/// The line and column of a text's fault, both from 0, and its text. None where the text is a document.
pub fn fault_line(alloc: Global, source: &str) -> Result<Option<String>, AllocError>
    ensures { IfOk result (λ line. IsTold (chars source.now) line) }
{
    match parse_document_source::<DefaultScalarValue>(alloc, source) {
        Ok(_document) => Ok(None),
        Err(ParseFailure::Refused(fault)) => Ok(Some(described(alloc, &fault)?)),
        Err(ParseFailure::Memory) => Err(AllocError),
    }
}

// Where a fault starts, and why.
fn described(alloc: Global, fault: &Spanning<ParseError>) -> Result<String, AllocError>
    ensures { IfOk result (λ text. string_bytes text ≡ fault_text (view_fault fault.now)) }
{
    let line = fault.span.start.line();
    let column = fault.span.start.column();
    let error = &fault.item;
    format!(in alloc; "{line}:{column}: {error}")
}
