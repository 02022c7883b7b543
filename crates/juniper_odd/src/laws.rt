//! What the parser's contract means for a scalar type that reads no literal.
ghost use Rattle.std.specs.Prelude.{IfOk};
ghost use Rattle.std.specs.Str.{chars};
ghost use Rattle.juniper_tokens.specs.Errors.{view_fault};
ghost use Rattle.juniper_parser.specs.Promise.{HasTree, IfRefused, IsRefusal};
ghost use Rattle.juniper_tree.specs.View.{view_document};
ghost use Rattle.juniper_odd.specs.ReadBy.{held_content};
ghost use Rattle.juniper_odd.specs.WithoutScalars.{AcceptsExactly, IsDocumentWithoutScalars, no_literals};

use crate::refuse_all::RefuseAll;
use juniper_documents::laws::refusals_by_clauses;
use juniper_documents::parse_document_source;
use juniper_tokens::UnlocatedParseResult;
use juniper_tree::OwnedDocument;
use juniper_tree::laws::scalar_tokens;
use std::alloc::Global;

/// Parses a text as a document by `RefuseAll`: it accepts exactly the documents without scalar tokens.
///
/// Any other text is refused as the grammar refuses it: a scalar token where a value may be as `ExpectedScalarError("No
/// literals")`, and elsewhere as `UnexpectedToken`. Returns `ParseFailure::Memory` if memory runs out. Takes stack in
/// proportion to the text's nesting.
pub fn documents_without_scalars<'a>(
    alloc: Global,
    source: &'a str,
) -> UnlocatedParseResult<OwnedDocument<'a, RefuseAll>>
    ensures exactly { AcceptsExactly result (IsDocumentWithoutScalars (chars source.now)) }
    ensures refused { IfRefused result (λ fault. IsRefusal no_literals (chars source.now) (view_fault fault)) }
{
    // The laws that the proof cites.
    scalar_tokens::<RefuseAll>();
    refusals_by_clauses::<RefuseAll>();
    parse(alloc, source)
}

// What is promised of every scalar type, at `RefuseAll`.
fn parse<'a>(alloc: Global, source: &'a str) -> UnlocatedParseResult<OwnedDocument<'a, RefuseAll>>
    ensures accepted { IfOk result (λ tree. HasTree no_literals (chars source.now) (view_document held_content tree)) }
    ensures refused { IfRefused result (λ fault. IsRefusal no_literals (chars source.now) (view_fault fault)) }
{
    parse_document_source::<RefuseAll>(alloc, source)
}
