//! A caller that stands on the parser's contract alone.
ghost use Rattle.std.specs.Prelude.{IfOk, MatchBool};
ghost use Rattle.std.specs.Str.{chars};
ghost use Rattle.guide.specs.Documents.{IsDocumentText};

use juniper::{DefaultScalarValue, ParseFailure, parse_document_source};
use std::alloc::{AllocError, Global};

/// Whether a text is a document.
#[tactic(auto, using(crate::proofs::Trees::some_tree, crate::proofs::Trees::no_tree))]
pub fn is_document(alloc: Global, source: &str) -> Result<bool, AllocError>
    ensures { IfOk result (λ answer. MatchBool answer (IsDocumentText (chars source.now)) (¬ IsDocumentText (chars source.now))) }
{
    match parse_document_source::<DefaultScalarValue>(alloc, source) {
        Ok(_document) => Ok(true),
        Err(ParseFailure::Refused(_fault)) => Ok(false),
        Err(ParseFailure::Memory) => Err(AllocError),
    }
}
