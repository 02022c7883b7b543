//! A source within limits. No token is kept.
ghost use Rattle.std.specs.Prelude.{◌≡◌, ◌+◌, ◌<◌, ◌≤◌, ◌^◌, [], ◌∷◌, ◌++◌, List, length, IfOk, IfSome, None};
ghost use Rattle.std.specs.Str.{chars};
ghost use Rattle.graphql_lexical.specs.Cutting.{Cut, Lexeme};
ghost use Rattle.juniper_tokens.specs.Counting.{HasFew, HasMore, IfCounted, IfFaultWithin, IfTooMany};
ghost use Rattle.juniper_tokens.specs.Errors.{view_lexer_error};
ghost use Rattle.juniper_tokens.specs.Gathering.{BreaksOff};
ghost use Rattle.juniper_tokens.specs.Lexing.{started};
ghost use Rattle.juniper_tokens.specs.Nesting.{EndsAtNesting};
ghost use Rattle.juniper_tokens.specs.Spans.{view_span};
ghost use Rattle.juniper_tokens.specs.device.Nested.{AreNested, IsOfRange};

use crate::error::LimitedLexFailure;
use crate::lexer::Lexer;
use crate::nesting::{is_closing, is_opening};
use crate::span::Span;
use crate::token_range::TokenRange;
use graphql_lexical::Kind;
use std::alloc::Global;

/// Reads all tokens of a source within limits, and keeps none.
///
/// Returns the error that `Parser::new_within` returns for the source and `most`, or else the span of the first token at
/// which more than `depth` brackets are open, or None. A bracket is `(`, `[` or `{`. Takes memory for the words of
/// an error alone.
pub fn check_tokens(
    alloc: Global,
    source: &str,
    depth: usize,
    most: usize,
) -> Result<Option<Span>, LimitedLexFailure>
    ensures nested { IfOk result (λ deep. (lexemes : List Lexeme) × Cut (chars source.now) lexemes × (length lexemes ≤ most + 1) × ((new : List Lexeme) × EndsAtNesting depth lexemes deep new)) }
    ensures fault { IfFaultWithin result (λ fault. BreaksOff (started (chars source.now)) (view_lexer_error fault.item) fault.span.start) }
    ensures zero_width { IfFaultWithin result (λ fault. fault.span.end ≡ fault.span.start) }
    ensures few { IfCounted result (HasFew [] (chars source.now) most) }
    ensures many { IfTooMany result (λ span. HasMore [] (chars source.now) most (view_span span)) }
    ensures limited { IfTooMany result (λ _. most < 2 ^ 63) }
{
    let mut lexer = Lexer::new(alloc, source);
    let mut count = 0_usize;
    let mut brackets = Brackets {
        opened: 0,
        closed: 0,
        deep: None,
    };
    loop {
        let range = lexer.next_range()?;
        if range.kind == Kind::EndOfFile {
            return Ok(brackets.deep);
        }
        if count >= most {
            let span = lexer.span_from(range.start.characters);
            return Err(LimitedLexFailure::TooMany(span));
        }
        brackets.read(range, &lexer, depth);
        count += 1;
    }
}

/// Returns the span of the first token past a limit of `most` tokens, if it comes before the source's end and before its
/// first lexical error. Otherwise returns None.
///
/// Takes no memory. The source isn't read past that token or that error.
pub fn first_token_past(alloc: Global, source: &str, most: usize) -> Option<Span>
    ensures few { result ≡ None → HasFew [] (chars source.now) most }
    ensures many { IfSome result (λ span. HasMore [] (chars source.now) most (view_span span)) }
{
    let mut lexer = Lexer::new(alloc, source);
    let mut count = 0_usize;
    loop {
        let range = lexer.next_range_or_none()?;
        if range.kind == Kind::EndOfFile {
            return None;
        }
        if count >= most {
            return Some(lexer.span_from(range.start.characters));
        }
        count += 1;
    }
}

// The brackets of tokens that were read, up to the first one that is nested too deep, and the span of that one.
#[derive(Drop)]
struct Brackets {
    opened: usize,
    closed: usize,
    deep: Option<Span>,
}

impl Brackets {
    // Reads the token of a range, at whose end the lexer stands.
    #[inline(always)]
    fn read(&mut self, range: TokenRange, lexer: &Lexer<'_>, depth: usize)
        requires before { range.start.characters ≤ lexer.now.index }
        requires room { self.old.opened + self.old.closed < 2 ^ 63 }
        ensures nested { (before : List Lexeme) (t : Lexeme) → IsOfRange lexer.now range t → AreNested depth before self.old → AreNested depth (before ++ t ∷ []) self.new }
        ensures more { self.new.opened + self.new.closed ≤ self.old.opened + self.old.closed + 1 }
    {
        if self.deep.is_some() {
            return;
        }
        if is_opening(range.kind) {
            self.opened += 1;
            if self.opened.saturating_sub(self.closed) > depth {
                self.deep = Some(lexer.span_from(range.start.characters));
            }
        } else if is_closing(range.kind) {
            self.closed += 1;
        }
    }
}
