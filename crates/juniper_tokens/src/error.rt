//! Why a text is refused.
ghost use Rattle.std.specs.Prelude.{◌≡◌, Some, IfOk};
ghost use Rattle.std.specs.Str.{encode_utf8_all};

use crate::span::{Span, Spanning};
use crate::text::{same_text, write_text};
use crate::token::Token;
use std::alloc::{AllocError, AllocFailed, Global};
use std::fmt;

/// A lexical error: why a text isn't a token.
#[derive(Debug, Drop, PartialEq, Eq)]
pub enum LexerError {
    /// The character begins no token.
    UnknownCharacter(char),
    /// The text before this character begins a token that this character does not continue.
    UnexpectedCharacter(char),
    /// The source or the line ends within a string.
    UnterminatedString,
    /// The character may not be in a string.
    UnknownCharacterInString(char),
    /// This text, which begins with a backslash, isn't an escape.
    UnknownEscapeSequence(String),
    /// The source ends within a token.
    UnexpectedEndOfFile,
    /// Kept from juniper. The lexer never returns it.
    InvalidNumber,
}

/// Why a text is refused.
#[derive(Debug, Drop)]
pub enum ParseError {
    /// No document continues with this token, which is given as it is displayed.
    UnexpectedToken(String),
    /// The source ends within a document.
    UnexpectedEndOfFile,
    /// A lexical error: the source has no token here.
    LexerError(LexerError),
    /// The scalar type does not read this literal.
    ExpectedScalarError(&'static str),
}

impl PartialEq for ParseError {
    ghost use Rattle.juniper_tokens.specs.Errors.{view_error, same_error};
    ghost use Rattle.juniper_tokens.specs.laws.ErrorLaws.{same_error-laws};

    ghost eq = { λ a b. same_error (view_error a) (view_error b) };

    ghost laws = { same_error-laws };

    fn eq(&self, other: &ParseError) -> bool {
        match (self, other) {
            (ParseError::UnexpectedToken(a), ParseError::UnexpectedToken(b)) => {
                same_text(a.as_str(), b.as_str())
            }
            (ParseError::UnexpectedEndOfFile, ParseError::UnexpectedEndOfFile) => true,
            (ParseError::LexerError(a), ParseError::LexerError(b)) => a == b,
            (ParseError::ExpectedScalarError(a), ParseError::ExpectedScalarError(b)) => {
                same_text(a, b)
            }
            _ => false,
        }
    }
}

impl Eq for ParseError {
    ghost use Rattle.juniper_tokens.specs.laws.ErrorLaws.{same_error-equiv};

    ghost laws = { same_error-equiv };
}

/// Why a lexer returned no token.
#[derive(Debug, Drop)]
pub enum LexFailure {
    /// A lexical error: the text isn't a token. Its span is empty.
    Fault(Spanning<LexerError>),
    /// Memory ran out.
    Memory,
}

/// Why a source's tokens can't be listed within a limit.
#[derive(Debug, Drop)]
pub enum LimitedLexFailure {
    /// The lexer's failure.
    Lex(LexFailure),
    /// The span of the first token past the limit.
    TooMany(Span),
}

impl From<LexFailure> for LimitedLexFailure {
    ghost use Rattle.juniper_tokens.specs.declared.error.LimitedLexFailure.TheVariants.{Lex};

    ghost from_gives = { λ failure e. e ≡ Lex failure };

    fn from(failure: LexFailure) -> LimitedLexFailure {
        LimitedLexFailure::Lex(failure)
    }
}

/// Why a parser returned nothing.
#[derive(Debug, Drop)]
pub enum ParseFailure {
    /// The text is refused.
    Refused(Spanning<ParseError>),
    /// Memory ran out.
    Memory,
}

/// An item with its span, or why there is none.
pub type ParseResult<T> = Result<Spanning<T>, ParseFailure>;

/// An item without a span, or why there is none.
pub type UnlocatedParseResult<T> = Result<T, ParseFailure>;

/// An item with its span, or None if it is absent, or why the text is refused.
pub type OptionParseResult<T> = Result<Option<Spanning<T>>, ParseFailure>;

impl From<AllocError> for ParseFailure {
    ghost use Rattle.juniper_tokens.specs.declared.error.ParseFailure.TheVariants.{Memory};

    ghost from_gives = { λ _ e. e ≡ Memory };

    fn from(_error: AllocError) -> ParseFailure {
        ParseFailure::Memory
    }
}

impl<T: Drop> From<AllocFailed<T>> for ParseFailure {
    ghost use Rattle.juniper_tokens.specs.declared.error.ParseFailure.TheVariants.{Memory};

    ghost from_gives = { λ _ e. e ≡ Memory };

    fn from(_error: AllocFailed<T>) -> ParseFailure {
        ParseFailure::Memory
    }
}

/// A lexical error becomes a refusal with the same span. `Memory` stays `Memory`.
impl From<LexFailure> for ParseFailure {
    ghost use Rattle.juniper_tokens.specs.Errors.{failure_of};

    ghost from_gives = { λ failure e. e ≡ failure_of failure };

    fn from(failure: LexFailure) -> ParseFailure {
        match failure {
            LexFailure::Fault(fault) => ParseFailure::Refused(Spanning::new(
                fault.span,
                ParseError::LexerError(fault.item),
            )),
            LexFailure::Memory => ParseFailure::Memory,
        }
    }
}

impl fmt::Display for LexerError {
    ghost use Rattle.graphql_lexical.specs.Display.{error_text};
    ghost use Rattle.juniper_tokens.specs.Errors.{view_lexer_error};

    ghost output = { λ e. Some (encode_utf8_all (error_text (view_lexer_error e))) };

    fn fmt<W: fmt::Write>(&self, f: &mut fmt::Formatter<W>) -> fmt::Result {
        match self {
            LexerError::UnknownCharacter(c) => write!(f, "Unknown character \"{c}\""),
            LexerError::UnexpectedCharacter(c) => write!(f, "Unexpected character \"{c}\""),
            LexerError::UnterminatedString => write!(f, "Unterminated string literal"),
            LexerError::UnknownCharacterInString(c) => {
                write!(f, "Unknown character \"{c}\" in string literal")
            }
            LexerError::UnknownEscapeSequence(s) => {
                write!(f, "Unknown escape sequence \"{s}\" in string")
            }
            LexerError::UnexpectedEndOfFile => write!(f, "Unexpected end of input"),
            LexerError::InvalidNumber => write!(f, "Invalid number literal"),
        }
    }
}

impl fmt::Display for ParseError {
    ghost use Rattle.juniper_tokens.specs.Errors.{view_error, error_text};

    ghost output = { λ e. Some (encode_utf8_all (error_text (view_error e))) };

    fn fmt<W: fmt::Write>(&self, f: &mut fmt::Formatter<W>) -> fmt::Result {
        match self {
            ParseError::UnexpectedToken(text) => write!(f, "Unexpected \"{text}\""),
            ParseError::UnexpectedEndOfFile => write!(f, "Unexpected end of input"),
            ParseError::LexerError(error) => fmt::Display::fmt(error, f),
            ParseError::ExpectedScalarError(text) => write_text(f, text),
        }
    }
}

impl ParseError {
    ghost use Rattle.juniper_tokens.specs.Tokens.{shown_token};
    ghost use Rattle.juniper_tokens.specs.Errors.{view_error, UnexpectedToken};

    /// The error `UnexpectedToken` with the token's display.
    ///
    /// Returns `AllocError` if memory runs out.
    pub fn unexpected_token(alloc: Global, token: Token<'_>) -> Result<Self, AllocError>
        ensures { IfOk result (λ e. view_error e ≡ UnexpectedToken (shown_token token.entry)) }
    {
        Ok(ParseError::UnexpectedToken(token.to_string(alloc)?))
    }
}
