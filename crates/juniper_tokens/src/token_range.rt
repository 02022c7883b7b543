//! Tokens as parts of their source.
ghost use Rattle.std.specs.Prelude.{◌≡◌, ◌-◌, ◌<◌, ◌≤◌, ◌^◌, drop, length};
ghost use Rattle.std.specs.Str.{chars};
ghost use Rattle.graphql_lexical.specs.Place.{place};
ghost use Rattle.graphql_lexical.specs.device.Whole.{text_of};
ghost use Rattle.juniper_tokens.specs.LineTables.{lines_of, IsOnLine};
ghost use Rattle.juniper_tokens.specs.Positions.{columns_on};
ghost use Rattle.juniper_tokens.specs.Spans.{view_span};
ghost use Rattle.juniper_tokens.specs.Tokens.{view_token};
ghost use Rattle.juniper_tokens.specs.device.BytePlaces.{byte_place};
ghost use Rattle.juniper_tokens.specs.device.LexingByScan.{IsPlaced};
ghost use Rattle.juniper_tokens.specs.device.LineSteps.{IsLine};
ghost use Rattle.juniper_tokens.specs.device.Scans.{Finds};
ghost use Rattle.juniper_tokens.specs.device.Ranges.{IsRange, range_of, range_slice, range_lexeme};

use crate::byte_position::BytePosition;
use crate::lexer::text::{Offset, text_before, text_from, unquoted};
use crate::lexer::{Found, walk_text};
use crate::line::{Line, line_near, line_of, place_on};
use crate::position::SourcePosition;
use crate::span::{Span, Spanning};
use crate::token::Token;
use graphql_lexical::Kind;

/// A token's kind, and the two ends of the part of the source that it takes.
#[derive(Clone, Copy)]
pub(crate) struct TokenRange {
    pub(crate) kind: Kind,
    /// The offset of the first character.
    pub(crate) start: Offset,
    /// The offset after the last character.
    pub(crate) end: Offset,
}

impl TokenRange {
    /// The range of a token that was found in a source at the position `start`.
    #[inline(always)]
    pub(crate) fn from_found(found: Found, source: &str, start: BytePosition) -> Self
        requires placed { IsPlaced source.now start.byte start.place }
        requires found { Finds (drop start.place.index (chars source.now)) found }
        ensures { result ≡ range_of found start.byte start.place }
    {
        let from = start.offset();
        TokenRange {
            kind: found.kind,
            start: from,
            end: Offset {
                bytes: from.bytes + found.end.bytes,
                characters: from.characters + found.end.characters,
            },
        }
    }

    // The offset after the last character, from the first one.
    fn size(&self) -> Offset
        requires bytes { self.now.start.bytes ≤ self.now.end.bytes }
        requires characters { self.now.start.characters ≤ self.now.end.characters }
        ensures { result ≡ record { bytes = self.now.end.bytes - self.now.start.bytes; characters = self.now.end.characters - self.now.start.characters } }
    {
        Offset {
            bytes: self.end.bytes - self.start.bytes,
            characters: self.end.characters - self.start.characters,
        }
    }

    /// The position after the last character, on the line of the first, which is at the position `start`.
    #[inline(always)]
    pub(crate) fn end_on_line(&self, start: SourcePosition) -> SourcePosition
        requires forward { self.now.start.characters ≤ self.now.end.characters }
        requires start { start.index ≡ self.now.start.characters }
        ensures { result ≡ columns_on (self.now.end.characters - self.now.start.characters) start }
    {
        start.columns_on(self.end.characters - self.start.characters)
    }

    /// The position after the last character, with its byte; the first is at the position `start`. A block string alone
    /// may end on a later line.
    #[inline(always)]
    pub(crate) fn end_position(&self, source: &str, start: BytePosition) -> BytePosition
        requires range { IsRange (chars source.now) self.now }
        requires start { start ≡ byte_place (chars source.now) self.now.start.characters }
        requires fits { length source.now < 2 ^ 64 }
        ensures { result ≡ byte_place (chars source.now) self.now.end.characters }
    {
        if self.kind == Kind::BlockString {
            let end = self.end_by_walk(source, start.position());
            BytePosition::new(self.end.bytes, end)
        } else {
            start.past(self.size())
        }
    }

    // The place after the last character, on whichever line it is.
    #[inline(never)]
    fn end_by_walk(&self, source: &str, start: SourcePosition) -> SourcePosition
        requires range { IsRange (chars source.now) self.now }
        requires start { start ≡ place (chars source.now) self.now.start.characters }
        ensures { result ≡ place (chars source.now) self.now.end.characters }
    {
        let rest = text_from(source, self.start);
        let size = self.size();
        walk_text(text_before(rest, size), start)
    }

    /// The span from the first character, which is on this line, to the position after the last one. `starts` has the
    /// characters at which the source's lines begin.
    #[inline(always)]
    pub(crate) fn span(&self, source: &str, starts: &[usize], line: Line) -> Span
        requires range { IsRange (chars source.now) self.now }
        requires lines { starts.now ≡ (lines_of (chars source.now)).starts }
        requires line { IsLine starts.now line }
        requires on { IsOnLine starts.now self.now.start.characters line.number line.start }
        ensures { view_span result ≡ (range_lexeme (chars source.now) self.now).span }
    {
        let start = place_on(starts, line, self.start.characters);
        Span {
            start,
            end: self.end_from(source, starts, start),
        }
    }

    /// The position after the last character, if the position `start` of the first one is known: the line of a block
    /// string's end alone is searched for.
    #[inline(always)]
    pub(crate) fn end_from(
        &self,
        source: &str,
        starts: &[usize],
        start: SourcePosition,
    ) -> SourcePosition
        requires range { IsRange (chars source.now) self.now }
        requires lines { starts.now ≡ (lines_of (chars source.now)).starts }
        requires start { start ≡ place (chars source.now) self.now.start.characters }
        ensures { result ≡ place (chars source.now) self.now.end.characters }
    {
        if self.kind == Kind::BlockString {
            let index = self.end.characters;
            place_on(starts, line_of(starts, index), index)
        } else {
            self.end_on_line(start)
        }
    }

    /// The part of the source, of a String and of a block string what is between the quotes.
    pub(crate) fn text<'a>(&self, source: &'a str) -> &'a str
        requires { IsRange (chars source.now) self.now }
        ensures { chars result.now ≡ text_of self.now.kind (range_slice (chars source.now) self.now) }
    {
        let rest = text_from(source, self.start);
        let size = self.size();
        if self.kind == Kind::String {
            unquoted(rest, size, 1)
        } else if self.kind == Kind::BlockString {
            unquoted(rest, size, 3)
        } else {
            text_before(rest, size)
        }
    }

    /// The token with its span, which is known.
    #[inline(always)]
    pub(crate) fn located_at<'a>(&self, source: &'a str, span: Span) -> Spanning<Token<'a>>
        requires range { IsRange (chars source.now) self.now }
        requires span { view_span span ≡ (range_lexeme (chars source.now) self.now).span }
        ensures { view_token result ≡ range_lexeme (chars source.now) self.now }
    {
        Spanning::new(span, self.token(source))
    }

    /// The token with its span. `starts` has the characters at which the source's lines begin; the token's line is
    /// looked for from that of the number `near` on.
    #[inline(never)]
    pub(crate) fn located<'a>(
        &self,
        source: &'a str,
        starts: &[usize],
        near: usize,
    ) -> Spanning<Token<'a>>
        requires range { IsRange (chars source.now) self.now }
        requires lines { starts.now ≡ (lines_of (chars source.now)).starts }
        requires near { near < length starts.now }
        ensures { view_token result ≡ range_lexeme (chars source.now) self.now }
    {
        let line = line_near(starts, near, self.start.characters);
        self.located_at(source, self.span(source, starts, line))
    }
}
