//! Documents within limits on nesting and on tokens.
ghost use Rattle.std.specs.Prelude.{◌≡◌, ◌-◌, ◌<◌, ◌^◌, IfOk};
ghost use Rattle.std.specs.Str.{chars};
ghost use Rattle.juniper_tokens.specs.Errors.{view_fault};
ghost use Rattle.juniper_tokens.specs.Spans.{view_span};
ghost use Rattle.juniper_tree.specs.View.{view_document};
ghost use Rattle.juniper_tree.specs.Scalars.{stated};
ghost use Rattle.juniper_parser.specs.Promise.{HasTree, IsRefusal};
ghost use Rattle.juniper_documents.specs.Within.{HasTooDeep, IsWithin};
ghost use Rattle.juniper_documents.specs.Limited.{HasFewTokens, HasTooManyTokens, IfDecidedLimited, IfParsed, IfRefusedLimited, IfTooDeepLimited, IfTooManyLimited};

use crate::document::depth::DepthFailure;
use crate::document::parts::build_document_source;
use juniper_parser::Trees;
use juniper_tokens::{LimitedLexFailure, ParseFailure, Span, Streamed};
use juniper_tree::OwnedDocument;
use juniper_values::ScalarValue;
use std::alloc::Global;

/// The depth of `Limits::default`: how deep brackets may be nested by default.
pub const DEFAULT_DEPTH: usize = 200;

/// What a source may have at most.
#[derive(Clone, Copy, Debug, PartialEq, Eq)]
pub struct Limits {
    /// How deep its brackets may be nested.
    pub depth: usize,
    /// How many tokens it may have before its end. `usize::MAX` is no limit.
    pub tokens: usize,
}

/// `DEFAULT_DEPTH`, and any number of tokens.
impl Default for Limits {
    fn default() -> Self
        ensures { result ≡ record { depth = 200; tokens = 2 ^ 64 - 1 } }
    {
        Limits {
            depth: DEFAULT_DEPTH,
            tokens: usize::MAX,
        }
    }
}

/// Why a source has no tree within limits.
#[derive(Debug, Drop)]
pub enum LimitFailure {
    /// The failure that `parse_document_source` returns.
    Parse(ParseFailure),
    /// The span of the first token that is nested too deep.
    TooDeep(Span),
    /// The span of the first token past the limit.
    TooMany(Span),
}

/// What fails within a depth fails within limits.
impl From<DepthFailure> for LimitFailure {
    ghost use Rattle.juniper_documents.specs.Limited.{failure_limited};

    ghost from_gives = { λ failure e. e ≡ failure_limited failure };

    fn from(failure: DepthFailure) -> LimitFailure {
        match failure {
            DepthFailure::Parse(failure) => LimitFailure::Parse(failure),
            DepthFailure::TooDeep(span) => LimitFailure::TooDeep(span),
        }
    }
}

/// A source whose tokens can't be listed within the limit has no tree within limits.
impl From<LimitedLexFailure> for LimitFailure {
    ghost use Rattle.juniper_documents.specs.Limited.{tokens_limited};

    ghost from_gives = { λ failure e. e ≡ tokens_limited failure };

    fn from(failure: LimitedLexFailure) -> LimitFailure {
        match failure {
            LimitedLexFailure::Lex(failure) => LimitFailure::Parse(ParseFailure::from(failure)),
            LimitedLexFailure::TooMany(span) => LimitFailure::TooMany(span),
        }
    }
}

/// Parses a source text as a document within limits.
///
/// Returns `TooMany` with the span of the first token past the limit if there are more than `limits.tokens` tokens
/// before the end and before the first lexical error. Otherwise the result is that of `parse_document_source_within`
/// with `limits.depth`. So a lexical error among the first `limits.tokens` tokens comes before a token past the limit,
/// that token before any other lexical error, and this one before a token that is nested too deep and before an error of
/// the grammar. Of the last two, the one at the earlier token comes first. `TooMany` and `TooDeep` themselves take no
/// memory; if memory runs out, returns `LimitFailure::Parse` with `ParseFailure::Memory`.
///
/// Holds no list of tokens: each is read when the one before it is taken, and no token past a limit is parsed. A source
/// without a tree is lexed once more from its beginning, since a lexical error comes before the others.
///
/// ```
/// let limits = Limits { depth: 200, tokens: 10_000 };
/// match parse_document_source_limited::<DefaultScalarValue>(alloc, source, limits) {
///     Ok(document) => execute(&document),
///     Err(LimitFailure::TooDeep(span)) => refuse(span),
///     Err(LimitFailure::TooMany(span)) => refuse(span),
///     Err(LimitFailure::Parse(failure)) => report(failure),
/// }
/// ```
pub fn parse_document_source_limited<'a, S: ScalarValue>(
    alloc: Global,
    s: &'a str,
    limits: Limits,
) -> Result<OwnedDocument<'a, S>, LimitFailure>
    ensures accepted { IfOk result (λ tree. HasTree (stated S.reading S.of_bool) (chars s.now) (view_document S.content tree)) }
    ensures refused { IfRefusedLimited result (λ fault. IsRefusal (stated S.reading S.of_bool) (chars s.now) (view_fault fault)) }
    ensures within { IfDecidedLimited result (IsWithin (stated S.reading S.of_bool) limits.depth (chars s.now)) }
    ensures too_deep { IfTooDeepLimited result (λ span. HasTooDeep (stated S.reading S.of_bool) limits.depth (chars s.now) (view_span span)) }
    ensures few { IfParsed result (HasFewTokens limits.tokens (chars s.now)) }
    ensures too_many { IfTooManyLimited result (λ span. HasTooManyTokens limits.tokens (chars s.now) (view_span span)) }

    // So `usize::MAX` is no limit.
    ensures limited { IfTooManyLimited result (λ _. limits.tokens < 2 ^ 63) }
{
    let mut trees = Trees::<'a, Streamed>::new(alloc);
    build_document_source::<S, Trees<'a, Streamed>, LimitFailure>(alloc, &s, limits, &mut trees)
}
