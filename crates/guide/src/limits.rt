//! A caller with a limit on nesting.
ghost use Rattle.std.specs.Prelude.{IfOk, MatchBool};
ghost use Rattle.std.specs.Str.{chars};
ghost use Rattle.guide.specs.Documents.{IsDocumentWithin};

use juniper::{DefaultScalarValue, DepthFailure, ParseFailure, parse_document_source_within};
use std::alloc::{AllocError, Global};

/// Whether a text is a document whose brackets are nested no deeper than `depth`.
#[tactic(auto, using(crate::proofs::Trees::tree_within, crate::proofs::Trees::no_tree_within, crate::proofs::Trees::too_deep))]
pub fn is_document_within(alloc: Global, source: &str, depth: usize) -> Result<bool, AllocError>
    ensures { IfOk result (λ answer. MatchBool answer (IsDocumentWithin depth (chars source.now)) (¬ IsDocumentWithin depth (chars source.now))) }
{
    match parse_document_source_within::<DefaultScalarValue>(alloc, source, depth) {
        Ok(_document) => Ok(true),
        Err(DepthFailure::TooDeep(_span)) => Ok(false),
        Err(DepthFailure::Parse(ParseFailure::Refused(_fault))) => Ok(false),
        Err(DepthFailure::Parse(ParseFailure::Memory)) => Err(AllocError),
    }
}
