//! Documents (GraphQL specification, October 2021, section 2.2).
ghost use Rattle.std.specs.Prelude.{IfOk};
ghost use Rattle.std.specs.Str.{chars};
ghost use Rattle.juniper_tokens.specs.Errors.{view_fault};
ghost use Rattle.juniper_tree.specs.View.{view_document};
ghost use Rattle.juniper_tree.specs.Scalars.{stated};
ghost use Rattle.juniper_parser.specs.Promise.{HasTree, IfRefused, IsRefusal};

pub(crate) mod depth;
pub(crate) mod limited;
pub(crate) mod parts;
pub(crate) mod sink;

use crate::document::limited::{LimitFailure, Limits, parse_document_source_limited};
use juniper_tokens::UnlocatedParseResult;
use juniper_tree::OwnedDocument;
use juniper_values::ScalarValue;
use std::alloc::Global;

/// Parses a source text as a document: `Document = Definition+ EndOfFile`
///
/// A tree is returned exactly if the text is a document of the grammar. It is then the text's one tree, in which each
/// span runs from the first character of its part's first token to the position after its last one. A text that can't
/// be cut into tokens is refused as `ParseError::LexerError` at its first lexical error, whatever comes before it. Any
/// other text is refused at the first token that cannot continue a document: at the end as `UnexpectedEndOfFile`, at a
/// scalar that the scalar type refuses with that type's error, and otherwise as `UnexpectedToken`. The text up to the
/// end of the token before, and a space, can be completed to a document's text with the same tokens at the same
/// positions.
///
/// Returns `ParseFailure::Memory` if memory runs out. The call takes stack in proportion to the text's nesting; parse a
/// text from an untrusted sender by `parse_document_source_within`.
///
/// ```
/// match parse_document_source::<DefaultScalarValue>(alloc, "{ a { b } }") {
///     Ok(document) => println!(rt; "{} definitions", document.len()),
///     Err(ParseFailure::Refused(fault)) => println!(rt; "{fault}"),
///     Err(ParseFailure::Memory) => println!(rt; "memory ran out"),
/// }
/// ```
pub fn parse_document_source<'a, S: ScalarValue>(
    alloc: Global,
    s: &'a str,
) -> UnlocatedParseResult<OwnedDocument<'a, S>>
    ensures accepted { IfOk result (λ tree. HasTree (stated S.reading S.of_bool) (chars s.now) (view_document S.content tree)) }
    ensures refused { IfRefused result (λ fault. IsRefusal (stated S.reading S.of_bool) (chars s.now) (view_fault fault)) }
{
    let limits = Limits {
        depth: usize::MAX,
        tokens: usize::MAX,
    };
    match parse_document_source_limited(alloc, s, limits) {
        Ok(tree) => Ok(tree),
        Err(LimitFailure::Parse(failure)) => Err(failure),
        Err(LimitFailure::TooDeep(_)) => unreachable!(),
        Err(LimitFailure::TooMany(_)) => unreachable!(),
    }
}
