//! The cursor that the parse functions call: it makes a token's text and positions on request.
ghost use Rattle.std.specs.Prelude.{◌≡◌, ◌+◌, ◌<◌, ◌≤◌, [], List, Option, drop, get_or, false, true, length, IfOk, IsTrue, Ok, OnOk};
ghost use Rattle.std.specs.Global.{Global as Allocator};
ghost use Rattle.std.specs.Str.{chars};
ghost use Rattle.graphql_lexical.specs.Cutting.{Cut, Lexeme};
ghost use Rattle.graphql_lexical.specs.declared.kind.Kind.TheVariants.{EndOfFile, Name};
ghost use Rattle.graphql_lexical.specs.Kinds.{same_kind};
ghost use Rattle.juniper_tokens.specs.Cursor.{Fails, Gives, RefusesEnd, OnMemory, Unmoved, EndsOnce, first_of, kind_at, has_text, next_at, refused_at, expect_name_at};
ghost use Rattle.juniper_tokens.specs.Taking.{left, next_taken, last_end, GoesOn};
ghost use Rattle.juniper_tokens.specs.Counting.{HasFew};
ghost use Rattle.juniper_tokens.specs.Nesting.{EndsAtNesting, IsShallow};
ghost use Rattle.juniper_tokens.specs.Spans.{view_span};
ghost use Rattle.juniper_tokens.specs.declared.span.Span.{Span};
ghost use Rattle.juniper_tokens.specs.declared.error.ParseFailure.TheVariants.{Memory};
ghost use Rattle.juniper_tokens.specs.device.Feeds.{taking_of};
ghost use Rattle.juniper_tokens.specs.device.Ranges.{range_lexemes, AreLeft};
ghost use Rattle.juniper_tokens.specs.device.Streams.{range_to, streamed};
ghost use Rattle.juniper_tokens.specs.device.LineSteps.{IsLine};
ghost use Rattle.juniper_tokens.specs.LineTables.{IsOnLine};
ghost use Rattle.juniper_tokens.specs.declared.token_range.TokenRange.{TokenRange};
ghost use Rattle.juniper_tokens.specs.Tokens.{name_of, view_token};

use crate::byte_position::BytePosition;
use crate::error::{ParseError, ParseFailure, ParseResult};
use crate::feed::{Feed, Listed};
use crate::line::{Line, NearLines, place_on};
use crate::position::SourcePosition;
use crate::records::TokenRecords;
use crate::source_text::SourceText;
use crate::span::{Span, Spanning};
use crate::stream::{Placed, TokenStream};
use crate::token::Token;
use crate::token_range::TokenRange;
use graphql_lexical::Kind;
use std::alloc::Global;
use std::marker::{Model, PhantomData};

/// A cursor over tokens: those that a `Parser` has left, which it borrows, or, if its `Feed` is `Streamed`, those of a source,
/// each of which is read when the one before it is taken.
///
/// A token's span and text are made on request. The last token, and no other, is the end, which is never taken.
/// `Parser::take_until` makes a parser follow its cursor.
#[derive(Drop)]
pub struct Cursor<'p, W: SourceText, M: Feed = Listed> {
    feed: PhantomData<M>,
    alloc: Global,
    source: W,
    // The tokens are those of the stream, or else of the records. The other of the two is empty.
    records: TokenRecords<'p>,
    stream: TokenStream<'p>,
    // The number of tokens that have been taken.
    taken: usize,
    // Of a stream: the next token, and where the token that was taken last ends.
    next: Placed,
    last_end: BytePosition,
}

impl<'p, W: SourceText, M: Feed> Model for Cursor<'p, W, M> {
    ghost use Rattle.juniper_tokens.specs.Taking.{Taking};
    ghost use Rattle.juniper_tokens.specs.device.Feeds.{seen, StandsAt};

    ghost Value = { Taking };

    ghost view = { λ c. seen (W.characters c.source) M.IS_STREAM c.records c.stream c.taken };

    ghost invariant = { λ c. StandsAt (W.characters c.source) M.IS_STREAM c.records c.stream c.taken c.next c.last_end };
}

impl<'p, W: SourceText> Cursor<'p, W, Listed> {
    // A cursor over what is left of these ranges once so many have been taken. `starts` has the characters at which the
    // source's lines begin.
    pub(crate) fn from_ranges(
        alloc: Global,
        source: W,
        ranges: &'p [TokenRange],
        starts: &'p [usize],
        taken: usize,
        line: Line,
    ) -> Self
        requires left { AreLeft (W.characters source) ranges.now starts.now taken }
        requires line { IsLine starts.now line }
        requires on { (r : TokenRange) → IsOnLine starts.now (get_or ranges.now taken r).start.characters line.number line.start }
        ensures { result ≡ record { tokens = range_lexemes (W.characters source) ranges.now; taken = taken; whole = true } }
    {
        Cursor {
            feed: PhantomData,
            alloc,
            source,
            records: TokenRecords {
                ranges,
                starts,
                lines: NearLines {
                    line,
                    earlier: Line::new(starts, 0),
                },
            },
            stream: TokenStream::new(alloc, "", 0, 0),
            taken,
            next: Placed::at_origin(),
            last_end: BytePosition::origin(),
        }
    }

    /// The number of tokens that are left, the end among them.
    pub fn count(&self) -> usize
        ensures is { result ≡ length (left self.now) }
        ensures some { 0 < result }
    {
        self.records.ranges.len() - self.taken
    }
}

impl<'p, W: SourceText, M: Feed> Cursor<'p, W, M> {
    /// A cursor over the tokens of a source, each of which is read when the one before it is taken.
    ///
    /// They end where the source does, or before that: after the first token at which more than `depth` brackets are open,
    /// and in the place of the first lexical error, or of the first token after `most` ones.
    pub fn of_source(alloc: Global, source: &'p W, depth: usize, most: usize) -> Self
        requires { M.IS_STREAM ≡ true }
        ensures is { result ≡ taking_of (streamed (W.characters source.now) depth most) 0 }

        // If they are whole, they are those of the source, are few, and none is nested deeper.
        ensures whole { result.whole ≡ true → Cut (W.characters source.now) (left result) × HasFew [] (W.characters source.now) most × IsShallow depth (left result) }

        // Of a source that can be cut into few tokens they are these, ended after the first that is nested deeper.
        ensures nested { (lexemes : List Lexeme) (deep : Option Span) (new : List Lexeme) → Cut (W.characters source.now) lexemes → length lexemes ≤ most + 1 → EndsAtNesting depth lexemes deep new → left result ≡ new }
    {
        let mut stream = TokenStream::new(alloc, source.as_str(), depth, most);
        let mut next = Placed::at_origin();
        stream.next(&mut next);
        Cursor {
            feed: PhantomData,
            alloc,
            source: *source,
            records: TokenRecords::none(),
            stream,
            taken: 0,
            next,
            last_end: BytePosition::origin(),
        }
    }

    /// Whether the next token is an end, and the source's.
    pub fn is_whole(&self) -> bool
        requires { M.IS_STREAM ≡ true }
        ensures whole { result ≡ true → self.now.whole ≡ true }
        ensures short { same_kind (kind_at (left self.now)) EndOfFile ≡ true → result ≡ self.now.whole }
    {
        self.next.kind == Kind::EndOfFile && !self.stream.is_short()
    }

    /// The allocator of the lexer that gave the tokens. A `Global` is a handle without data; there is only one.
    pub fn allocator(&self) -> Global
        ensures { (given : Allocator) → result ≡ given }
    {
        self.alloc
    }

    /// How many tokens may be left: a hint, for capacities.
    pub fn expected(&self) -> usize {
        if M::IS_STREAM {
            self.stream.expected()
        } else {
            self.records.expected(self.taken)
        }
    }

    /// The kind of the next token, which is not taken.
    #[inline(always)]
    pub fn kind(&self) -> Kind
        ensures is { result ≡ kind_at (left self.now) }
        ensures ended { EndsOnce (left self.now) }
    {
        next_range::<M>(&self.records, self.taken, &self.stream, &self.next).kind
    }

    /// The text of the next token: for a String or block string what is between its quotes, as it is written. For
    /// punctuators and the end, the text is unspecified.
    pub fn text(&self) -> &str
        ensures { IsTrue (has_text (kind_at (left self.now))) → chars result.now ≡ (first_of (left self.now)).text }
    {
        next_range::<M>(&self.records, self.taken, &self.stream, &self.next).text(
            self.source.as_str(),
        )
    }

    /// The text of the next token, which must be a Name, as a part of the source.
    #[inline(always)]
    pub fn name(&self) -> W
        requires { same_kind (kind_at (left self.now)) Name ≡ true }
        ensures { W.characters result ≡ (first_of (left self.now)).text }
    {
        let range = next_range::<M>(&self.records, self.taken, &self.stream, &self.next);
        self.source.part(range.start, range.end)
    }

    /// The position at which the next token begins, for a later `span_from`.
    ///
    /// ```
    /// let start = cursor.mark();
    /// let name = cursor.expect_name()?;
    /// let span = cursor.span_from(start);
    /// ```
    #[inline(always)]
    pub fn mark(&self) -> SourcePosition
        ensures { result ≡ (first_of (left self.now)).span.start }
    {
        if M::IS_STREAM {
            self.next.start.position()
        } else {
            let index = self.records.ranges[self.taken].start.characters;
            place_on(self.records.starts, self.records.lines.line, index)
        }
    }

    /// The span from a position to the end of the token that was taken last.
    #[inline(always)]
    pub fn span_from(&self, start: SourcePosition) -> Span
        requires { 0 < self.now.taken }
        ensures span { view_span result ≡ record { start = start; end = last_end self.now } }
        ensures within { self.now.taken < length self.now.tokens }
    {
        if M::IS_STREAM {
            let end = self.last_end.position();
            Span { start, end }
        } else {
            let index = self.records.ranges[self.taken - 1].end.characters;
            let end = self.records.lines.place_back(self.records.starts, index);
            Span { start, end }
        }
    }

    /// The next token's span.
    #[inline(always)]
    pub fn span(&self) -> Span
        ensures { view_span result ≡ (first_of (left self.now)).span }
    {
        if M::IS_STREAM {
            let end = self.stream.position();
            Span {
                start: self.next.start.position(),
                end,
            }
        } else {
            let line = self.records.lines.line;
            self.records.ranges[self.taken].span(self.source.as_str(), self.records.starts, line)
        }
    }

    // The next token, with its span.
    fn located(&self) -> Spanning<Token<'_>>
        ensures { view_token result ≡ first_of (left self.now) }
    {
        let range = next_range::<M>(&self.records, self.taken, &self.stream, &self.next);
        range.located_at(self.source.as_str(), self.span())
    }

    /// Takes the next token, which must not be the end.
    #[inline(always)]
    pub fn advance(&mut self)
        requires { same_kind (kind_at (left self.old)) EndOfFile ≡ false }
        ensures taken { self.new ≡ next_taken self.old }
        ensures left { left self.new ≡ drop 1 (left self.old) }
        ensures takes { next_at (left self.old) ≡ Ok (first_of (left self.old), left self.new) }
        ensures ended { EndsOnce (left self.old) }
        ensures shorter { length (left self.new) < length (left self.old) }
        ensures on { GoesOn self.old self.new }
    {
        if M::IS_STREAM {
            self.read();
        } else {
            self.taken += 1;
            let index = self.records.ranges[self.taken].start.characters;
            let starts = self.records.starts;
            self.records.lines.follow(starts, index);
        }
    }

    // Takes the next token, and reads the one after it.
    #[inline(never)]
    fn read(&mut self)
        requires stream { M.IS_STREAM ≡ true }
        requires more { same_kind (kind_at (left self.old)) EndOfFile ≡ false }
        ensures taken { self.new ≡ next_taken self.old }
        ensures ended { EndsOnce (left self.old) }
    {
        self.last_end = self.stream.here();
        self.stream.next(&mut self.next);
        self.taken += 1;
    }

    /// The error at the end. Nothing is taken.
    #[cold]
    pub(crate) fn refuse_end<T: Drop>(&self) -> Result<T, ParseFailure>
        requires { same_kind (kind_at (left self.now)) EndOfFile ≡ true }
        ensures { RefusesEnd result (left self.now) }
    {
        Err(ParseFailure::Refused(Spanning::new(self.span(), ParseError::UnexpectedEndOfFile)))
    }

    /// Takes the next token, and returns the error that it is unexpected. At the end returns `UnexpectedEndOfFile`, and
    /// nothing is taken. If there is no memory for the error's text, nothing changes.
    #[inline(always)]
    pub fn refuse<T: Drop>(&mut self) -> Result<T, ParseFailure>
        ensures gives { Gives (λ x. x) result (left self.new) (refused_at (left self.old)) }
        ensures never { OnOk result ⊥ }
        ensures memory { OnMemory result (Unmoved {A = Lexeme} (left self.old) (left self.new) (refused_at (left self.old))) }
        ensures on { GoesOn self.old self.new }
    {
        Err(self.refusal())
    }

    // The error of `refuse`. It is made out of line; its caller makes the place on the stack that it is written to.
    #[tactic(auto, using(crate::proofs::Taking::stays))]
    #[cold]
    fn refusal(&mut self) -> ParseFailure
        ensures gives { Fails {Y = Lexeme} result (left self.new) (refused_at (left self.old)) }
        ensures memory { result ≡ Memory → Unmoved {A = Lexeme} (left self.old) (left self.new) (refused_at (left self.old)) }
        ensures on { GoesOn self.old self.new }
    {
        if self.kind() == Kind::EndOfFile {
            let end = Spanning::new(self.span(), ParseError::UnexpectedEndOfFile);
            return ParseFailure::Refused(end);
        }
        let span = self.span();
        match ParseError::unexpected_token(self.alloc, self.located().item) {
            Ok(error) => {
                self.advance();
                ParseFailure::Refused(Spanning::new(span, error))
            }
            Err(_) => ParseFailure::Memory,
        }
    }

    /// Takes the next token if it is a Name, and returns its text and its span. Otherwise returns the error of
    /// `refuse`.
    #[inline(always)]
    pub fn expect_name(&mut self) -> ParseResult<W>
        ensures gives { Gives (name_of W.characters) result (left self.new) (expect_name_at (left self.old)) }
        ensures shorter { OnOk result (length (left self.new) < length (left self.old)) }
        ensures memory { OnMemory result (Unmoved (left self.old) (left self.new) (expect_name_at (left self.old))) }
        ensures on { GoesOn self.old self.new }
        ensures ends { IfOk result (λ name. last_end self.new ≡ (view_span name.span).end) }
    {
        if self.kind() != Kind::Name {
            return self.refuse();
        }
        let name = self.name();
        let span = self.span();
        self.advance();
        Ok(Spanning::new(span, name))
    }
}

impl<'p, 'a, M: Feed> Cursor<'p, &'a str, M> {
    /// The next token, with its span.
    pub fn token(&self) -> Spanning<Token<'a>>
        ensures { view_token result ≡ first_of (left self.now) }
    {
        let range = next_range::<M>(&self.records, self.taken, &self.stream, &self.next);
        range.located_at(self.source, self.span())
    }

    /// Takes the next token. At the end returns `UnexpectedEndOfFile`, and nothing is taken. Takes no memory.
    #[tactic(auto, using(crate::proofs::Taking::stays))]
    pub fn next_token(&mut self) -> ParseResult<Token<'a>>
        ensures gives { Gives view_token result (left self.new) (next_at (left self.old)) }
        ensures shorter { OnOk result (length (left self.new) < length (left self.old)) }
        ensures memory { OnMemory result ⊥ }
        ensures on { GoesOn self.old self.new }
    {
        if self.kind() == Kind::EndOfFile {
            return self.refuse_end();
        }
        let token = self.token();
        self.advance();
        Ok(token)
    }
}

// The range of the next token: of a stream the one that was read last, or else the record after those that were taken.
#[inline(always)]
fn next_range<M: Feed>(
    records: &TokenRecords<'_>,
    taken: usize,
    stream: &TokenStream<'_>,
    next: &Placed,
) -> TokenRange
    requires { M.IS_STREAM ≡ false → taken < length records.now.ranges.now }
    ensures stream { M.IS_STREAM ≡ true → result ≡ range_to stream.now next.now }
    ensures listed { M.IS_STREAM ≡ false → (r : TokenRange) → result ≡ get_or records.now.ranges.now taken r }
{
    if M::IS_STREAM {
        stream.range(next)
    } else {
        records.ranges[taken]
    }
}
