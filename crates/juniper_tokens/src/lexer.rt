//! The lexer.
ghost use Rattle.std.specs.Prelude.{◌≡◌, ◌≤◌, true, false, drop, length, IfOk, IfSome, OnOk, Some};
ghost use Rattle.std.specs.Global.{Global as Allocator};
ghost use Rattle.std.specs.Str.{chars};
ghost use Rattle.graphql_lexical.specs.Place.{place};
ghost use Rattle.graphql_lexical.specs.declared.kind.Kind.TheVariants.{EndOfFile};
ghost use Rattle.graphql_lexical.specs.Kinds.{same_kind};
ghost use Rattle.juniper_tokens.specs.Lexing.{started};
ghost use Rattle.juniper_tokens.specs.LineTables.{lines_of};
ghost use Rattle.juniper_tokens.specs.device.BytePlaces.{byte_place};
ghost use Rattle.juniper_tokens.specs.device.LexingByScan.{past_ignored};
ghost use Rattle.juniper_tokens.specs.device.LineSteps.{CountsLines, HasLines};
ghost use Rattle.juniper_tokens.specs.device.Ranges.{TakesRange, TakesItem, TakesPlain, TakesFrequent, IsRange, range_lexeme, range_or_none, range_steps};
ghost use Rattle.juniper_tokens.specs.device.Scans.{Finds, IsPlain};
ghost use Rattle.juniper_tokens.specs.device.Walks.{first_class, never_ignored};
ghost use Rattle.juniper_tokens.specs.Tokens.{view_token};

mod lanes;
mod machine;
mod plain;
pub(crate) mod run;
mod scan;
pub(crate) mod text;
mod walk;

use crate::byte_classes::ByteClass;
use crate::byte_position::BytePosition;
use crate::error::LexFailure;
use crate::lexer::plain::plain_token;
use crate::lexer::scan::{Missed, scan_token};
use crate::lexer::text::text_from;
use crate::lexer::walk::{walk_blanks, walk_ignored};
use crate::line_table::{LineStarts, LineTable};
use crate::position::SourcePosition;
use crate::span::{Span, Spanning};
use crate::token::Token;
use crate::token_range::TokenRange;
use graphql_lexical::Kind;
pub(crate) use scan::Found;
use std::alloc::{AllocError, Global};
use std::marker::Model;
use walk::walk_characters;
pub(crate) use walk::walk_text;

/// A token with its span, or why there is none.
pub type LexerResult<'a> = Result<Spanning<Token<'a>>, LexFailure>;

/// An iterator over the tokens of a source (GraphQL specification, October 2021, section 2.1).
///
/// Ignored tokens are skipped: white space, line ends, commas and comments. Positions count characters, not bytes. The
/// last item is the token `EndOfFile`, the first lexical error, or the error that memory ran out; after it, `next`
/// returns None.
#[derive(Drop)]
pub struct Lexer<'a> {
    alloc: Global,
    source: &'a str,
    // Where the rest begins.
    here: BytePosition,
    ended: bool,
}

impl<'a> Model for Lexer<'a> {
    ghost use Rattle.std.specs.Str.{chars};
    ghost use Rattle.graphql_lexical.specs.Place.{place};
    ghost use Rattle.juniper_tokens.specs.Lexing.{LexerState};
    ghost use Rattle.juniper_tokens.specs.device.LexingByScan.{IsPlaced};

    ghost Value = { LexerState };

    ghost view = { λ l. record { source = chars l.source.now; index = l.here.place.index; ended = l.ended } };

    ghost invariant = { λ l. IsPlaced l.source.now l.here.byte l.here.place };
}

impl<'a> Lexer<'a> {
    /// A lexer at the beginning of a source (GraphQL specification, October 2021, section 2.1). Takes no memory: the
    /// allocator serves the texts of lexical errors alone.
    ///
    /// A lexer is an iterator: each call of `next` returns a token with its span or the source's first lexical error,
    /// and `None` once it has returned the end or an error.
    ///
    /// ```
    /// for token in Lexer::new(alloc, "{ a }") {
    ///     let token = token?;
    ///     let kind = token.item.kind();
    ///     let column = token.span.start.column();
    /// }
    /// ```
    pub fn new(alloc: Global, source: &'a str) -> Self
        ensures { result ≡ started (chars source.now) }
    {
        Lexer {
            alloc,
            source,
            here: BytePosition::origin(),
            ended: false,
        }
    }

    pub(crate) fn allocator(&self) -> Global
        ensures { (given : Allocator) → result ≡ given }
    {
        self.alloc
    }

    pub(crate) fn source(&self) -> &'a str
        ensures { chars result.now ≡ self.now.source }
    {
        self.source
    }

    /// The lexer's position.
    #[inline(always)]
    pub(crate) fn position(&self) -> SourcePosition
        ensures { result ≡ place self.now.source self.now.index }
    {
        self.here.position()
    }

    /// The lexer's position, with its byte.
    #[inline(always)]
    pub(crate) fn here(&self) -> BytePosition
        ensures place { result ≡ byte_place self.now.source self.now.index }
        ensures index { result.place.index ≡ self.now.index }
        ensures within { self.now.index ≤ length self.now.source }
    {
        self.here
    }

    /// How many bytes of the source are left.
    pub(crate) fn bytes_left(&self) -> usize {
        self.source.len().saturating_sub(self.here.bytes())
    }

    /// Whether the last item has been returned.
    pub(crate) fn has_ended(&self) -> bool
        ensures { result ≡ self.now.ended }
    {
        self.ended
    }

    /// Skips ignored tokens, and returns the class of the byte after them.
    #[inline(always)]
    pub(crate) fn skip_ignored(&mut self) -> ByteClass
        ensures passes { self.new ≡ past_ignored self.old }
        ensures class { result ≡ first_class (drop self.new.index self.new.source) }
    {
        let ignored = walk_ignored(self.source, self.here);
        self.here = ignored.end;
        ignored.class
    }

    /// Skips ignored tokens up to the first comment or byte order mark, and returns the class of the byte there.
    #[inline(always)]
    pub(crate) fn skip_blanks(&mut self) -> ByteClass
        ensures source { self.new.source ≡ self.old.source }
        ensures passes { past_ignored self.new ≡ past_ignored self.old }
        ensures ends { never_ignored result ≡ true → self.new ≡ past_ignored self.old }
        ensures class { result ≡ first_class (drop self.new.index self.new.source) }
    {
        let blanks = walk_blanks(self.source, self.here);
        self.here = blanks.end;
        blanks.class
    }

    // Advances past the token that was found here.
    fn advance(&mut self, found: Found) -> TokenRange
        requires { Finds (drop self.old.index self.old.source) found }
        ensures source { self.new.source ≡ self.old.source }
        ensures takes { TakesRange self.old result self.new }
    {
        let start = self.here;
        let range = TokenRange::from_found(found, self.source, start);
        self.here = range.end_position(self.source, start);
        self.ended = range.kind == Kind::EndOfFile;
        range
    }

    // The same, past a plain token, which ends on its line and is not the end.
    #[inline(always)]
    fn advance_on_line(&mut self, found: Found) -> TokenRange
        requires finds { Finds (drop self.old.index self.old.source) found }
        requires plain { IsPlain found.kind }
        ensures source { self.new.source ≡ self.old.source }
        ensures takes { TakesRange self.old result self.new }
        ensures goes_on { self.new.ended ≡ false }
    {
        let start = self.here;
        let range = TokenRange::from_found(found, self.source, start);
        self.here = start.past(found.end);
        self.ended = false;
        range
    }

    /// Reads the beginnings of lines up to the lexer's position.
    #[inline(always)]
    pub(crate) fn count_lines(&self, lines: &mut LineStarts) -> Result<(), AllocError>
        requires counts { CountsLines self.now.source lines.old }
        requires before { lines.old.at.characters ≤ self.now.index }
        ensures { OnOk result (HasLines self.now.source lines.new self.now.index) }
    {
        lines.follow(self.source, self.here.bytes(), self.here.position())
    }

    /// The table of the source's lines, read up to the lexer's position.
    pub(crate) fn line_table(&self, lines: LineStarts) -> Result<LineTable, AllocError>
        requires { HasLines self.now.source lines self.now.index }
        ensures { IfOk result (λ table. table ≡ lines_of self.now.source) }
    {
        lines.into_table(self.source, self.here.bytes(), self.here.position())
    }

    /// A copy of this lexer.
    ///
    /// A call that is not inlined is made on a copy, which then replaces the lexer. So the lexer itself, whose address
    /// no call gets, stays in registers from token to token.
    #[inline(always)]
    pub(crate) fn duplicate(&self) -> Self
        ensures { result ≡ self.now }
    {
        Lexer {
            alloc: self.alloc,
            source: self.source,
            here: self.here,
            ended: self.ended,
        }
    }

    /// Goes to where another lexer of the same source stands. What need not be copied isn't.
    #[inline(always)]
    pub(crate) fn go_to(&mut self, other: &Lexer<'a>)
        requires { other.now.source ≡ self.old.source }
        ensures source { self.new.source ≡ other.now.source }
        ensures index { self.new.index ≡ other.now.index }
        ensures ended { self.new.ended ≡ self.old.ended }
    {
        self.here = other.here;
    }

    /// Takes the token that begins here, with a byte of this class, if it is a plain one. Otherwise a token may begin here,
    /// and `scan` takes it.
    #[inline(always)]
    pub(crate) fn take_plain(&mut self, class: ByteClass) -> Option<TokenRange>
        requires { class ≡ first_class (drop self.old.index self.old.source) }
        ensures source { self.new.source ≡ self.old.source }
        ensures takes { TakesPlain self.old result self.new }
        ensures ended { self.old.ended ≡ false → self.new.ended ≡ false }
        ensures more { IfSome result (λ range. same_kind range.kind EndOfFile ≡ false) }
    {
        let found = plain_token(class, text_from(self.source, self.here.offset()))?;
        Some(self.advance_on_line(found))
    }

    /// Takes what is here, which may be the last item: a token, or why there is none.
    #[inline(always)]
    pub(crate) fn scan(&mut self) -> Result<TokenRange, LexFailure>
        ensures source { self.new.source ≡ self.old.source }
        ensures takes { TakesItem self.old result self.new }
    {
        let mut lexer = self.duplicate();
        let item = lexer.scan_out_of_line(Some(self.alloc));
        *self = lexer;
        item
    }

    /// The same. Most tokens are plain, so the code for all others stands out of the way. Without an allocator it takes no
    /// memory: an unknown escape is then the failure `Memory`.
    #[inline(never)]
    pub(crate) fn scan_out_of_line(
        &mut self,
        alloc: Option<Global>,
    ) -> Result<TokenRange, LexFailure>
        ensures source { self.new.source ≡ self.old.source }
        ensures takes { TakesItem self.old result self.new }
    {
        let rest = text_from(self.source, self.here.offset());
        match scan_token(alloc, rest) {
            Ok(found) => Ok(self.advance(found)),
            Err(Missed::Fault(error, at)) => {
                self.ended = true;
                let place = walk_characters(rest, self.here.position(), at);
                Err(LexFailure::Fault(Spanning::zero_width(&place, error)))
            }
            Err(Missed::Memory) => {
                self.ended = true;
                Err(LexFailure::Memory)
            }
        }
    }

    /// Skips ignored tokens, and takes the token after them if it is a Name or a punctuator, which most are.
    ///
    /// Otherwise some ignored tokens may be left, and `scan_ahead` takes the next token.
    #[inline(always)]
    pub(crate) fn next_frequent(&mut self) -> Option<TokenRange>
        ensures source { self.new.source ≡ self.old.source }
        ensures takes { TakesFrequent self.old result self.new }
        ensures ended { self.old.ended ≡ false → self.new.ended ≡ false }
    {
        let class = self.skip_blanks();
        if class == ByteClass::NameStart || class == ByteClass::Punctuator {
            return self.take_plain(class);
        }
        None
    }

    /// Skips ignored tokens, and takes what is there, which may be the last item: a token, or why there is none. Without an
    /// allocator it takes no memory, as `scan_out_of_line`.
    #[inline(always)]
    pub(crate) fn scan_ahead(&mut self, alloc: Option<Global>) -> Result<TokenRange, LexFailure>
        ensures source { self.new.source ≡ self.old.source }
        ensures takes { TakesItem (past_ignored self.old) result self.new }
    {
        let mut lexer = self.duplicate();
        let item = lexer.next_of_any_class(alloc);
        *self = lexer;
        item
    }

    // The same, out of the way.
    #[inline(never)]
    fn next_of_any_class(&mut self, alloc: Option<Global>) -> Result<TokenRange, LexFailure>
        ensures source { self.new.source ≡ self.old.source }
        ensures takes { TakesItem (past_ignored self.old) result self.new }
    {
        let class = self.skip_ignored();
        match self.take_plain(class) {
            Some(range) => Ok(range),
            None => self.scan_out_of_line(alloc),
        }
    }

    /// Takes the next token, which may be the last item, or returns why there is none.
    #[inline(always)]
    pub(crate) fn next_range(&mut self) -> Result<TokenRange, LexFailure>
        requires { self.old.ended ≡ false }
        ensures { range_steps self.old (Some result) self.new }
    {
        match self.next_frequent() {
            Some(range) => Ok(range),
            None => {
                let alloc = self.alloc;
                self.scan_ahead(Some(alloc))
            }
        }
    }

    /// Takes the next token, which may be the end. Returns None at the first lexical error. Takes no memory.
    #[inline(always)]
    pub(crate) fn next_range_or_none(&mut self) -> Option<TokenRange>
        requires { self.old.ended ≡ false }
        ensures { range_or_none self.old result self.new }
    {
        match self.next_frequent() {
            Some(range) => Some(range),
            None => self.scan_ahead(None).ok(),
        }
    }

    /// The span from a character of what has been read to the lexer's position. Takes no memory: the character's
    /// position is found by a walk from the source's beginning.
    #[cold]
    pub(crate) fn span_from(&self, index: usize) -> Span
        requires { index ≤ self.now.index }
        ensures start { result.start ≡ place self.now.source index }
        ensures end { result.end ≡ place self.now.source self.now.index }
    {
        let origin = SourcePosition::new_origin();
        Span {
            start: walk_characters(self.source, origin, index),
            end: self.here.position(),
        }
    }

    // The token of the range that begins at the place `start`, and at whose end the lexer stands.
    #[inline(always)]
    fn token(&self, range: TokenRange, start: SourcePosition) -> Spanning<Token<'a>>
        requires range { IsRange self.now.source range }
        requires start { start ≡ place self.now.source range.start.characters }
        requires end { self.now.index ≡ range.end.characters }
        ensures { view_token result ≡ range_lexeme self.now.source range }
    {
        let span = Span {
            start,
            end: self.here.position(),
        };
        range.located_at(self.source, span)
    }
}

impl<'a> Iterator for Lexer<'a> {
    type Item = LexerResult<'a>;

    ghost use Rattle.std.specs.Iterator.{at_most};
    ghost use Rattle.juniper_tokens.specs.Lexing.{lexer_steps, items_left};

    ghost next_gives = { lexer_steps };

    ghost remaining = { λ s. at_most (items_left s) };

    /// Returns the next token with its span. A lexical error has an empty span, at the character that is wrong or at
    /// the end. Memory is needed only for the text of an unknown escape.
    #[inline(always)]
    fn next(&mut self) -> Option<LexerResult<'a>> {
        if self.has_ended() {
            return None;
        }
        let class = self.skip_ignored();
        let start = self.here.position();
        match self.take_plain(class) {
            Some(range) => Some(Ok(self.token(range, start))),
            None => match self.scan() {
                Ok(range) => Some(Ok(self.token(range, start))),
                Err(failure) => Some(Err(failure)),
            },
        }
    }
}
