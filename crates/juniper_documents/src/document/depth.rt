//! Documents within a limit on nesting.
ghost use Rattle.std.specs.Prelude.{◌≡◌, IfOk};
ghost use Rattle.std.specs.Str.{chars};
ghost use Rattle.juniper_tokens.specs.Errors.{view_fault};
ghost use Rattle.juniper_tokens.specs.Spans.{view_span};
ghost use Rattle.juniper_tree.specs.View.{view_document};
ghost use Rattle.juniper_tree.specs.Scalars.{stated};
ghost use Rattle.juniper_parser.specs.Promise.{HasTree, IsRefusal};
ghost use Rattle.juniper_documents.specs.Within.{IfRefusedWithin, IfTooDeep, IfDecided, HasTooDeep, IsWithin, failure_within};

use crate::document::limited::{LimitFailure, Limits, parse_document_source_limited};
use juniper_tokens::{ParseFailure, Span};
use juniper_tree::OwnedDocument;
use juniper_values::ScalarValue;
use std::alloc::Global;

/// Why a source has no tree within a limit on nesting.
#[derive(Debug, Drop)]
pub enum DepthFailure {
    /// The failure that `parse_document_source` returns.
    Parse(ParseFailure),
    /// The span of the first token that is nested too deep.
    TooDeep(Span),
}

/// Parses a source text as a document whose brackets are nested at most `depth` deep.
///
/// A bracket is `(`, `[` or `{`. The nesting at a token is the number of brackets opened up to and including it, less
/// the number of those closed. `TooDeep` is returned with the span of the first token whose nesting exceeds `depth`,
/// exactly if the text can be cut into tokens and those up to that one begin a document. Otherwise the result is that
/// of `parse_document_source`, so a lexical error anywhere wins, and so does an error of the grammar at or before that
/// token. No token after it is parsed, so the recursion goes no deeper than `depth`. `TooDeep` itself takes no memory;
/// if memory runs out, returns `DepthFailure::Parse` with `ParseFailure::Memory`.
///
/// ```
/// match parse_document_source_within::<DefaultScalarValue>(alloc, source, 200) {
///     Ok(document) => execute(&document),
///     Err(DepthFailure::TooDeep(span)) => refuse(span),
///     Err(DepthFailure::Parse(failure)) => report(failure),
/// }
/// ```
pub fn parse_document_source_within<'a, S: ScalarValue>(
    alloc: Global,
    s: &'a str,
    depth: usize,
) -> Result<OwnedDocument<'a, S>, DepthFailure>
    ensures accepted { IfOk result (λ tree. HasTree (stated S.reading S.of_bool) (chars s.now) (view_document S.content tree)) }
    ensures refused { IfRefusedWithin result (λ fault. IsRefusal (stated S.reading S.of_bool) (chars s.now) (view_fault fault)) }
    ensures within { IfDecided result (IsWithin (stated S.reading S.of_bool) depth (chars s.now)) }
    ensures too_deep { IfTooDeep result (λ span. HasTooDeep (stated S.reading S.of_bool) depth (chars s.now) (view_span span)) }
{
    let limits = Limits {
        depth,
        tokens: usize::MAX,
    };
    match parse_document_source_limited(alloc, s, limits) {
        Ok(tree) => Ok(tree),
        Err(LimitFailure::Parse(failure)) => Err(DepthFailure::Parse(failure)),
        Err(LimitFailure::TooDeep(span)) => Err(DepthFailure::TooDeep(span)),
        Err(LimitFailure::TooMany(_)) => unreachable!(),
    }
}

/// The failure for tokens that were ended after one nested too deep, which has this span: if they are refused at that
/// end, they are too deep. No other token begins where that one ends.
pub(crate) fn depth_failure(deep: Option<Span>, failure: ParseFailure) -> DepthFailure
    ensures { result ≡ failure_within deep failure }
{
    match deep {
        None => DepthFailure::Parse(failure),
        Some(span) => match failure {
            ParseFailure::Refused(fault) => {
                if fault.span.start.index() == span.end.index() {
                    DepthFailure::TooDeep(span)
                } else {
                    DepthFailure::Parse(ParseFailure::Refused(fault))
                }
            }
            ParseFailure::Memory => DepthFailure::Parse(ParseFailure::Memory),
        },
    }
}
