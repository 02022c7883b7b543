//! The cursor over the tokens of a source.
ghost use Rattle.std.specs.Prelude.{◌≡◌, ◌-◌, ◌^◌, ◌<◌, ◌≤◌, [], drop, false, true, length, option_map, OnOk, IfOk, IfErr};
ghost use Rattle.std.specs.List.{All};
ghost use Rattle.std.specs.Global.{Global as Allocator};
ghost use Rattle.std.specs.Str.{chars};
ghost use Rattle.graphql_lexical.specs.declared.kind.Kind.TheVariants.{EndOfFile};
ghost use Rattle.graphql_lexical.specs.Kinds.{same_kind};
ghost use Rattle.graphql_lexical.specs.Cutting.{Lexeme};
ghost use Rattle.juniper_tokens.specs.Errors.{view_lexer_error};
ghost use Rattle.juniper_tokens.specs.Counting.{HasFew, HasMore, IfCounted, IfFaultWithin, IfStopped, IfTooMany};
ghost use Rattle.juniper_tokens.specs.Gathering.{IfFault, IfMemory, HasLeft, BreaksOff, StandsLaterOrEnded};
ghost use Rattle.juniper_tokens.specs.LineTables.{lines_of};
ghost use Rattle.juniper_tokens.specs.declared.error.LexFailure.TheVariants.{Memory};
ghost use Rattle.juniper_tokens.specs.device.LineSteps.{HasLines};
ghost use Rattle.juniper_tokens.specs.device.Ranges.{InOrder, IsRange, range_lexemes};
ghost use Rattle.juniper_tokens.specs.Lexing.{passed, ahead};
ghost use Rattle.juniper_tokens.specs.Spans.{view_span};
ghost use Rattle.juniper_tokens.specs.Tokens.{token_kind, token_text, view_token, view_name};
ghost use Rattle.juniper_tokens.specs.Delimited.{IsRest};
ghost use Rattle.juniper_tokens.specs.Taking.{left};
ghost use Rattle.juniper_tokens.specs.Cursor.{Gives, RefusesEnd, OnMemory, Unmoved, EndsOnce, first_of, kind_at, is_wanted, next_at, refused_at, expect_at, expect_name_at, skip_at};

use crate::cursor::Cursor;
use crate::error::{LexFailure, LimitedLexFailure, OptionParseResult, ParseFailure, ParseResult};
use crate::lexer::Lexer;
use crate::line::Line;
use crate::line_table::{LineStarts, LineTable};
use crate::lists::list_with_capacity;
use crate::span::Spanning;
use crate::text::same_text;
use crate::token::Token;
use crate::token_range::TokenRange;
use graphql_lexical::Kind;
use std::alloc::Global;
use std::marker::Model;

/// A cursor over the tokens of a source that are left. The last of them, and no other, is the end.
///
/// The end is never taken: at the end each call that takes a token returns `UnexpectedEndOfFile` with the end's span.
#[derive(Drop)]
pub struct Parser<'a> {
    alloc: Global,
    source: &'a str,
    // All tokens that the lexer had left. A token's text and places are found when it comes next.
    ranges: Vec<TokenRange>,
    lines: LineTable,
    // The number of tokens that have been taken.
    taken: usize,
    // The next token.
    current: Spanning<Token<'a>>,
}

impl<'a> Model for Parser<'a> {
    ghost use Rattle.std.specs.Prelude.{List, drop};
    ghost use Rattle.std.specs.Str.{chars};
    ghost use Rattle.graphql_lexical.specs.Cutting.{Lexeme};
    ghost use Rattle.juniper_tokens.specs.device.Ranges.{range_lexemes, IsCursor};

    ghost Value = { List Lexeme };

    ghost view = { λ p. range_lexemes (chars p.source.now) (drop p.taken p.ranges.items) };

    ghost invariant = { λ p. IsCursor (chars p.source.now) p.ranges.items p.lines.starts p.taken p.current };
}

impl<'a> Parser<'a> {
    /// A parser at the first of the tokens that a lexer has left, all of which are lexed at once.
    ///
    /// So the lexer's first lexical error is returned, whatever tokens come before it. Returns `Memory` if the list of
    /// tokens or the table of lines can't grow, or the text of an error can't be made. Unless memory ran out, the lexer
    /// has ended. The parser keeps the lexer's allocator.
    ///
    /// ```
    /// let mut lexer = Lexer::new(alloc, "{ a }");
    /// let mut parser = Parser::new(&mut lexer)?;
    /// let name = parser.peek().item.text();
    /// ```
    pub fn new(lexer: &mut Lexer<'a>) -> Result<Self, LexFailure>
        requires { lexer.old.ended ≡ false }
        ensures tokens { IfOk result (λ tokens. HasLeft lexer.old tokens) }
        ensures fault { IfFault result (λ fault. BreaksOff lexer.old (view_lexer_error fault.item) fault.span.start) }
        ensures zero_width { IfFault result (λ fault. fault.span.end ≡ fault.span.start) }
        ensures source { lexer.new.source ≡ lexer.old.source }
        ensures lexer { IfMemory result (StandsLaterOrEnded lexer.old lexer.new) (lexer.new.ended ≡ true) }
    {
        match Parser::new_within(lexer, usize::MAX) {
            Ok(parser) => Ok(parser),
            Err(LimitedLexFailure::Lex(failure)) => Err(failure),
            Err(LimitedLexFailure::TooMany(_)) => unreachable!(),
        }
    }

    /// A parser at the first of the tokens that a lexer has left, at most `most` of them, the end not counted.
    /// `usize::MAX` is no limit.
    ///
    /// Stops at the first token past the limit and returns `TooMany` with its span, if it comes before the end and
    /// before the first lexical error. `TooMany` takes no memory. Otherwise the result is that of `new`.
    ///
    /// ```
    /// let mut lexer = Lexer::new(alloc, "{ a }");
    /// let parser = Parser::new_within(&mut lexer, 3)?;
    /// ```
    pub fn new_within(lexer: &mut Lexer<'a>, most: usize) -> Result<Self, LimitedLexFailure>
        requires { lexer.old.ended ≡ false }
        ensures tokens { IfOk result (λ tokens. HasLeft lexer.old tokens) }
        ensures fault { IfFaultWithin result (λ fault. BreaksOff lexer.old (view_lexer_error fault.item) fault.span.start) }
        ensures zero_width { IfFaultWithin result (λ fault. fault.span.end ≡ fault.span.start) }
        ensures few { IfCounted result (HasFew (passed lexer.old.source lexer.old.index) (ahead lexer.old.source lexer.old.index) most) }
        ensures many { IfTooMany result (λ span. HasMore (passed lexer.old.source lexer.old.index) (ahead lexer.old.source lexer.old.index) most (view_span span)) }

        // So there is a limit that no source exceeds.
        ensures limited { IfTooMany result (λ _. most < 2 ^ 63) }
        ensures source { lexer.new.source ≡ lexer.old.source }
        ensures lexer { IfStopped result (StandsLaterOrEnded lexer.old lexer.new) (lexer.new.ended ≡ true) }
    {
        let alloc = lexer.allocator();
        let source = lexer.source();
        let mut rest = lexer.duplicate();
        let mut ranges = list_with_capacity(alloc, expected_ranges(source, most));
        let gathered = gather(&mut rest, &mut ranges, most);
        *lexer = rest;
        let lines = gathered?;
        Ok(Parser::from_ranges(alloc, source, ranges, lines))
    }

    // A cursor at the first of these tokens of a source, whose lines are in the table.
    fn from_ranges(
        alloc: Global,
        source: &'a str,
        ranges: Vec<TokenRange>,
        lines: LineTable,
    ) -> Self
        requires ranges { All (IsRange (chars source.now)) ranges.items }
        requires order { InOrder 0 ranges.items }
        requires lines { lines ≡ lines_of (chars source.now) }
        requires ends { EndsOnce (range_lexemes (chars source.now) ranges.items) }
        ensures { result ≡ range_lexemes (chars source.now) ranges.items }
    {
        let current = ranges[0].located(source, lines.starts(), 0);
        Parser {
            alloc,
            source,
            ranges,
            lines,
            taken: 0,
            current,
        }
    }

    /// The allocator of the lexer that gave the tokens. A `Global` is a handle without data; there is only one.
    pub fn allocator(&self) -> Global
        ensures { (given : Allocator) → result ≡ given }
    {
        self.alloc
    }

    /// A cursor over the tokens that are left. It makes a token's text and positions on request. The parser stays as it
    /// is, until `take_until` makes it follow.
    pub fn cursor(&self) -> Cursor<'_, &'a str>
        ensures { left result ≡ self.now }
    {
        let starts = self.lines.starts();
        let line = Line::new(starts, self.current.span.start.line());
        Cursor::from_ranges(
            self.alloc,
            self.source,
            &self.ranges,
            starts,
            self.taken,
            line,
        )
    }

    /// Takes tokens until `left` of them are left, the end among them.
    ///
    /// ```
    /// let mut cursor = parser.cursor();
    /// let name = cursor.expect_name();
    /// let left = cursor.count();
    /// parser.take_until(left);
    /// ```
    pub fn take_until(&mut self, left: usize)
        requires some { 0 < left }
        requires fewer { left ≤ length self.old }
        ensures { self.new ≡ drop (length self.old - left) self.old }
    {
        self.taken = self.ranges.len() - left;
        let near = self.current.span.start.line();
        self.current = self.ranges[self.taken].located(self.source, self.lines.starts(), near);
    }

    /// The next token, which is not taken.
    pub fn peek(&self) -> &Spanning<Token<'a>>
        ensures first { view_token result.now ≡ first_of self.now }
        ensures ended { EndsOnce self.now }
    {
        &self.current
    }

    /// The kind of the next token, which is not taken.
    #[inline(always)]
    pub fn kind(&self) -> Kind
        ensures is { result ≡ kind_at self.now }
        ensures ended { EndsOnce self.now }
    {
        self.ranges[self.taken].kind
    }

    fn is_at_end(&self) -> bool
        ensures { result ≡ same_kind (kind_at self.now) EndOfFile }
    {
        self.kind() == Kind::EndOfFile
    }

    /// Advances past the next token, which must not be the end.
    pub fn advance(&mut self)
        requires { same_kind (kind_at self.old) EndOfFile ≡ false }
        ensures { self.new ≡ drop 1 self.old }
    {
        self.taken += 1;
        let near = self.current.span.start.line();
        self.current = self.ranges[self.taken].located(self.source, self.lines.starts(), near);
    }

    // Takes the next token, which is not the end.
    fn take(&mut self) -> Spanning<Token<'a>>
        requires { same_kind (kind_at self.old) EndOfFile ≡ false }
        ensures takes { next_at self.old ≡ Ok (view_token result, self.new) }
        ensures shorter { length self.new < length self.old }
        ensures rest { IsRest self.old self.new }
    {
        let token = Spanning::new(self.current.span, self.current.item);
        self.advance();
        token
    }

    // The error at the end.
    #[cold]
    fn refuse_end<T: Drop>(&self) -> Result<T, ParseFailure>
        requires { same_kind (kind_at self.now) EndOfFile ≡ true }
        ensures { RefusesEnd result self.now }
    {
        let mut cursor = self.cursor();
        cursor.refuse_end()
    }

    /// Takes the next token. At the end returns `UnexpectedEndOfFile`, and nothing is taken. Takes no memory.
    #[tactic(auto, using(crate::proofs::Rests::none_taken, crate::proofs::Rests::one_taken))]
    pub fn next_token(&mut self) -> ParseResult<Token<'a>>
        ensures gives { Gives view_token result self.new (next_at self.old) }
        ensures shorter { OnOk result (length self.new < length self.old) }
        ensures memory { OnMemory result ⊥ }
        ensures rest { IsRest self.old self.new }
    {
        if self.is_at_end() {
            return self.refuse_end();
        }
        Ok(self.take())
    }

    /// Takes the next token, and returns the error that it is unexpected. At the end returns `UnexpectedEndOfFile`, and
    /// nothing is taken. If there is no memory for the error's text, nothing changes.
    #[tactic(auto, using(crate::proofs::Rests::rest_is, crate::proofs::Taking::rest_of, crate::proofs::Taking::not_longer))]
    #[cold]
    pub fn refuse<T: Drop>(&mut self) -> Result<T, ParseFailure>
        ensures gives { Gives (λ x. x) result self.new (refused_at self.old) }
        ensures never { OnOk result ⊥ }
        ensures memory { OnMemory result (Unmoved {A = Lexeme} self.old self.new (refused_at self.old)) }
        ensures rest { IsRest self.old self.new }
    {
        let mut cursor = self.cursor();
        let refused = cursor.refuse();
        let left = cursor.count();
        self.take_until(left);
        refused
    }

    /// Takes the next token if it equals `wanted` in kind and text, else returns an error.
    ///
    /// Another token is taken too, and reported as `UnexpectedToken`. At the end, whatever was wanted, returns
    /// `UnexpectedEndOfFile`, and nothing is taken. If there is no memory for the error's text, nothing changes.
    #[tactic(auto, unfolding(crate::specs::Cursor::expect_at))]
    pub fn expect(&mut self, wanted: &Token<'_>) -> ParseResult<Token<'a>>
        ensures gives { Gives view_token result self.new (expect_at wanted.now self.old) }
        ensures shorter { OnOk result (length self.new < length self.old) }
        ensures memory { OnMemory result (Unmoved self.old self.new (expect_at wanted.now self.old)) }
        ensures rest { IsRest self.old self.new }
    {
        if self.is_next(wanted) && !self.is_at_end() {
            Ok(self.take())
        } else {
            self.refuse()
        }
    }

    // Whether the next token equals `wanted` in kind and text.
    fn is_next(&self, wanted: &Token<'_>) -> bool
        ensures { result ≡ is_wanted (token_kind wanted.now) (token_text wanted.now) (first_of self.now) }
    {
        let kind = self.kind();
        if kind != wanted.kind() {
            return false;
        }
        kind.spelling().is_some() || same_text(self.current.item.text(), wanted.text())
    }

    /// Takes the next token if it equals `wanted`, else returns None and takes nothing.
    ///
    /// At the end, whatever was wanted, returns `UnexpectedEndOfFile`, and nothing is taken. Takes no memory.
    #[tactic(auto, using(crate::proofs::Rests::none_taken), unfolding(crate::specs::Cursor::skip_at))]
    pub fn skip(&mut self, wanted: &Token<'_>) -> OptionParseResult<Token<'a>>
        ensures gives { Gives (option_map view_token) result self.new (skip_at wanted.now self.old) }
        ensures not_longer { OnOk result (length self.new ≤ length self.old) }
        ensures memory { OnMemory result ⊥ }
        ensures rest { IsRest self.old self.new }
    {
        if self.is_at_end() {
            return self.refuse_end();
        }
        if self.is_next(wanted) {
            return Ok(Some(self.take()));
        }
        Ok(None)
    }

    /// Takes the next token if it is a Name, and returns its text, else returns an error. Errors, and the state after
    /// them, are as for `expect`.
    #[tactic(auto, using(crate::proofs::Rests::one_taken))]
    pub fn expect_name(&mut self) -> ParseResult<&'a str>
        ensures gives { Gives view_name result self.new (expect_name_at self.old) }
        ensures shorter { OnOk result (length self.new < length self.old) }
        ensures memory { OnMemory result (Unmoved self.old self.new (expect_name_at self.old)) }
        ensures rest { IsRest self.old self.new }
    {
        match self.current.item {
            Token::Name(name) => {
                let span = self.current.span;
                self.advance();
                Ok(Spanning::new(span, name))
            }
            _ => self.refuse(),
        }
    }
}

// Appends the ranges of all tokens that a lexer has left to an empty list, if they are no more than `most` besides the end,
// and returns the lines of its source.
#[inline(always)]
fn gather(
    lexer: &mut Lexer<'_>,
    ranges: &mut Vec<TokenRange>,
    most: usize,
) -> Result<LineTable, LimitedLexFailure>
    requires going { lexer.old.ended ≡ false }
    requires none { ranges.old.items ≡ [] }
    ensures ranges { OnOk result (All (IsRange lexer.old.source) ranges.new.items) }
    ensures order { OnOk result (InOrder 0 ranges.new.items) }
    ensures tokens { OnOk result (HasLeft lexer.old (range_lexemes lexer.old.source ranges.new.items)) }
    ensures lines { IfOk result (λ lines. lines ≡ lines_of lexer.old.source) }
    ensures fault { IfFaultWithin result (λ fault. BreaksOff lexer.old (view_lexer_error fault.item) fault.span.start) }
    ensures zero_width { IfFaultWithin result (λ fault. fault.span.end ≡ fault.span.start) }
    ensures few { IfCounted result (HasFew (passed lexer.old.source lexer.old.index) (ahead lexer.old.source lexer.old.index) most) }
    ensures many { IfTooMany result (λ span. HasMore (passed lexer.old.source lexer.old.index) (ahead lexer.old.source lexer.old.index) most (view_span span)) }
    ensures limited { IfTooMany result (λ _. most < 2 ^ 63) }
    ensures source { lexer.new.source ≡ lexer.old.source }
    ensures lexer { IfStopped result (StandsLaterOrEnded lexer.old lexer.new) (lexer.new.ended ≡ true) }
{
    let start = lexer.duplicate();
    let mut lines = first_lines(&start)?;
    loop {
        let pushed = match lexer.next_frequent() {
            Some(range) => {
                if ranges.len() >= most {
                    let span = lexer.duplicate().span_from(range.start.characters);
                    return Err(LimitedLexFailure::TooMany(span));
                }
                ranges.push(range)
            }
            None => {
                let alloc = lexer.allocator();
                let range = lexer.scan_ahead(Some(alloc))?;
                if range.kind == Kind::EndOfFile {
                    if ranges.push(range).is_err() || lexer.count_lines(&mut lines).is_err() {
                        return Err(LimitedLexFailure::Lex(LexFailure::Memory));
                    }
                    break;
                }
                if ranges.len() >= most {
                    let span = lexer.duplicate().span_from(range.start.characters);
                    return Err(LimitedLexFailure::TooMany(span));
                }
                ranges.push(range)
            }
        };
        if pushed.is_err() || lexer.count_lines(&mut lines).is_err() {
            return Err(LimitedLexFailure::Lex(LexFailure::Memory));
        }
    }
    let end = lexer.duplicate();
    match end.line_table(lines) {
        Ok(table) => Ok(table),
        Err(_) => Err(LimitedLexFailure::Lex(LexFailure::Memory)),
    }
}

// The beginnings of lines up to a lexer's position.
fn first_lines(lexer: &Lexer<'_>) -> Result<LineStarts, LexFailure>
    ensures lines { IfOk result (λ lines. HasLines lexer.now.source lines lexer.now.index) }
    ensures memory { IfErr result (λ e. e ≡ Memory) }
{
    match LineStarts::new(lexer.allocator(), lexer.source()) {
        Ok(lines) => {
            let mut lines = lines;
            match lexer.count_lines(&mut lines) {
                Ok(()) => Ok(lines),
                Err(_) => Err(LexFailure::Memory),
            }
        }
        Err(_) => Err(LexFailure::Memory),
    }
}

// How many ranges a list should have capacity for: one every four bytes of a source and some more, since few sources have
// more tokens, but no more than `most` and the end.
fn expected_ranges(source: &str, most: usize) -> usize {
    let expected = source.len() / 4 + 16;
    if most < expected { most + 1 } else { expected }
}
