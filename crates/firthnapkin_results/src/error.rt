//! Why a source has no tree, as C gets it.
ghost use Rattle.std.specs.Prelude.{◌≡◌, ◌<◌, ◌^◌, ℕ, List};
ghost use Rattle.juniper_tokens.specs.Errors.{view_error, view_fault, view_lexer_error};
ghost use Rattle.juniper_tokens.specs.Spans.{view_span};
ghost use Rattle.firthnapkin_results.specs.ByteTables.{IsTableOf};
ghost use Rattle.juniper_parser.specs.Promise.{lexical_fault};
ghost use Rattle.firthnapkin_results.specs.Fits.{PositionFits, SpanFits};
ghost use Rattle.firthnapkin_results.specs.Errors.{lexical_reason, error_reason, shown_of_error, shown_of_lexical, error_at, written_error, too_deep_error, too_many_tokens_error, unknown_fragment_error, fragment_cycle_error};

use crate::byte_table::ByteTable;
use crate::position::{Position, position_at};
use juniper_tokens::{LexerError, ParseError, SourcePosition, Span, Spanning};

/// The kinds of errors.
pub const UNEXPECTED_TOKEN: u32 = 0;

pub const UNEXPECTED_END: u32 = 1;

pub const LEXICAL: u32 = 2;

pub const TOO_DEEP: u32 = 3;

pub const TOO_MANY_TOKENS: u32 = 4;

pub const INVALID_SCALAR: u32 = 5;

pub const UNKNOWN_FRAGMENT: u32 = 6;

pub const FRAGMENT_CYCLE: u32 = 7;

/// Which lexical error it is.
pub const NO_DETAIL: u32 = 0;

pub const UNKNOWN_CHARACTER: u32 = 1;

pub const UNEXPECTED_CHARACTER: u32 = 2;

pub const UNTERMINATED_STRING: u32 = 3;

pub const UNKNOWN_CHARACTER_IN_STRING: u32 = 4;

pub const UNKNOWN_ESCAPE: u32 = 5;

pub const UNEXPECTED_END_IN_TOKEN: u32 = 6;

pub const INVALID_NUMBER: u32 = 7;

/// Why a source has no tree, and where.
#[repr(C)]
#[derive(Clone, Copy)]
pub struct Error {
    /// One of the kinds of errors.
    pub kind: u32,
    /// Which lexical error it is; `NO_DETAIL` if the error isn't lexical.
    pub detail: u32,
    /// The character that the lexical error names, or 0.
    pub character: u32,
    pub start: Position,
    pub end: Position,
    /// The bytes of the source that its words show: of an unexpected token all of it, of an escape that is unknown the
    /// escape. Of any other error both are the start's byte.
    pub text_start: u32,
    pub text_end: u32,
}

// The first three of them.
#[derive(Clone, Copy)]
struct Reason {
    kind: u32,
    detail: u32,
    character: u32,
}

// The characters of the source that an error's words show, by their indexes.
#[derive(Clone, Copy)]
struct Shown {
    start: usize,
    end: usize,
}

/// The error of a source that is refused.
pub(crate) fn written_error(table: &ByteTable, error: &Spanning<ParseError>) -> Error
    ensures { (source : List ℕ) → IsTableOf source table.now → SpanFits (view_fault error.now).span
        → result ≡ written_error source (view_fault error.now) }
{
    error_at(
        table,
        error_reason(&error.item),
        &error.span,
        shown_of_error(&error.item, &error.span),
    )
}

/// The error of a source with a token that is nested too deep.
pub(crate) fn too_deep_error(table: &ByteTable, span: Span) -> Error
    ensures { (source : List ℕ) → IsTableOf source table.now → SpanFits (view_span span)
        → result ≡ too_deep_error source (view_span span) }
{
    error_at(
        table,
        because(TOO_DEEP, NO_DETAIL, 0),
        &span,
        nothing_at(span.start.index()),
    )
}

/// The error of a source with too many tokens, at the first token past the limit.
pub(crate) fn too_many_tokens_error(table: &ByteTable, span: Span) -> Error
    ensures { (source : List ℕ) → IsTableOf source table.now → SpanFits (view_span span)
        → result ≡ too_many_tokens_error source (view_span span) }
{
    error_at(
        table,
        because(TOO_MANY_TOKENS, NO_DETAIL, 0),
        &span,
        nothing_at(span.start.index()),
    )
}

/// The error of a document with a spread that names no fragment.
pub(crate) fn unknown_fragment_error(table: &ByteTable, span: Span) -> Error
    ensures { (source : List ℕ) → IsTableOf source table.now → SpanFits (view_span span)
        → result ≡ unknown_fragment_error source (view_span span) }
{
    error_at(
        table,
        because(UNKNOWN_FRAGMENT, NO_DETAIL, 0),
        &span,
        nothing_at(span.start.index()),
    )
}

/// The error of a document with a spread of a fragment in which it stands.
pub(crate) fn fragment_cycle_error(table: &ByteTable, span: Span) -> Error
    ensures { (source : List ℕ) → IsTableOf source table.now → SpanFits (view_span span)
        → result ≡ fragment_cycle_error source (view_span span) }
{
    error_at(
        table,
        because(FRAGMENT_CYCLE, NO_DETAIL, 0),
        &span,
        nothing_at(span.start.index()),
    )
}

/// The error of a source with this lexical error there.
pub(crate) fn lexical_error(table: &ByteTable, error: &LexerError, at: SourcePosition) -> Error
    ensures { (source : List ℕ) → IsTableOf source table.now → PositionFits at
        → result ≡ written_error source (lexical_fault (view_lexer_error error.now) at) }
{
    error_at(
        table,
        lexical_reason(error),
        &Span::zero_width(at),
        shown_of_lexical(error, at.index()),
    )
}

fn error_at(table: &ByteTable, reason: Reason, span: &Span, shown: Shown) -> Error
    ensures { (source : List ℕ) → IsTableOf source table.now → SpanFits (view_span span.now)
        → result ≡ error_at source reason (view_span span.now) shown }
{
    Error {
        kind: reason.kind,
        detail: reason.detail,
        character: reason.character,
        start: position_at(table, span.start),
        end: position_at(table, span.end),
        text_start: table.byte(shown.start),
        text_end: table.byte(shown.end),
    }
}

fn shown_of_error(error: &ParseError, span: &Span) -> Shown
    ensures { SpanFits (view_span span.now) → result ≡ shown_of_error (view_error error.now) (view_span span.now) }
{
    match error {
        ParseError::UnexpectedToken(_) => Shown {
            start: span.start.index(),
            end: span.end.index(),
        },
        ParseError::LexerError(error) => shown_of_lexical(error, span.start.index()),
        ParseError::UnexpectedEndOfFile => nothing_at(span.start.index()),
        ParseError::ExpectedScalarError(_) => nothing_at(span.start.index()),
    }
}

// An unknown escape is reported after its backslash.
fn shown_of_lexical(error: &LexerError, at: usize) -> Shown
    ensures { at < 2 ^ 32 → result ≡ shown_of_lexical (view_lexer_error error.now) at }
{
    match error {
        LexerError::UnknownEscapeSequence(escape) => {
            let start = at.saturating_sub(1);
            Shown {
                start,
                end: start.saturating_add(escape.as_str().chars().count()),
            }
        }
        _ => nothing_at(at),
    }
}

fn nothing_at(index: usize) -> Shown
    ensures { result ≡ record { start = index; end = index } }
{
    Shown {
        start: index,
        end: index,
    }
}

fn error_reason(error: &ParseError) -> Reason
    ensures { result ≡ error_reason (view_error error.now) }
{
    match error {
        ParseError::UnexpectedToken(_) => because(UNEXPECTED_TOKEN, NO_DETAIL, 0),
        ParseError::UnexpectedEndOfFile => because(UNEXPECTED_END, NO_DETAIL, 0),
        ParseError::LexerError(error) => lexical_reason(error),
        ParseError::ExpectedScalarError(_) => because(INVALID_SCALAR, NO_DETAIL, 0),
    }
}

fn lexical_reason(error: &LexerError) -> Reason
    ensures { result ≡ lexical_reason (view_lexer_error error.now) }
{
    match error {
        LexerError::UnknownCharacter(c) => because(LEXICAL, UNKNOWN_CHARACTER, *c as u32),
        LexerError::UnexpectedCharacter(c) => because(LEXICAL, UNEXPECTED_CHARACTER, *c as u32),
        LexerError::UnterminatedString => because(LEXICAL, UNTERMINATED_STRING, 0),
        LexerError::UnknownCharacterInString(c) => because(
            LEXICAL,
            UNKNOWN_CHARACTER_IN_STRING,
            *c as u32,
        ),
        LexerError::UnknownEscapeSequence(_) => because(LEXICAL, UNKNOWN_ESCAPE, 0),
        LexerError::UnexpectedEndOfFile => because(LEXICAL, UNEXPECTED_END_IN_TOKEN, 0),
        LexerError::InvalidNumber => because(LEXICAL, INVALID_NUMBER, 0),
    }
}

fn because(kind: u32, detail: u32, character: u32) -> Reason
    ensures { result ≡ record { kind = kind; detail = detail; character = character } }
{
    Reason {
        kind,
        detail,
        character,
    }
}
