//! How places, tokens, errors and what calls make are written in a row's result.

use juniper::{LexerError, LimitFailure, ParseError, ParseFailure, Span, Spanning, Token};
use juniper_complexity::ComplexityFailure;
use std::alloc::AllocError;
use std::fmt;

/// The result of writing.
pub type Written = Result<(), AllocError>;

/// A span, shown as the index, line and column of its start and end.
#[derive(Clone, Copy)]
pub struct At<'s>(pub &'s Span);

impl fmt::Display for At<'_> {
    fn fmt<W: fmt::Write>(&self, f: &mut fmt::Formatter<W>) -> fmt::Result {
        let start = self.0.start;
        let end = self.0.end;
        let first = start.index();
        let last = end.index();
        write!(f, "{first}:{start}-{last}:{end}")
    }
}

/// Writes a span.
pub fn write_span(out: &mut String, span: &Span) -> Written {
    let at = At(span);
    write!(out, "{at}")
}

/// Writes a token's span, its kind, and its text if that isn't empty.
pub fn write_token(out: &mut String, token: &Spanning<Token<'_>>) -> Written {
    let at = At(&token.span);
    let kind = token.item.kind();
    let text = token.item.text();
    if text.is_empty() {
        return write!(out, "{at} {kind:?}");
    }
    write!(out, "{at} {kind:?} {text}")
}

fn write_lexer_error(out: &mut String, error: &LexerError) -> Written {
    match error {
        LexerError::UnknownCharacter(c) => write!(out, " UnknownCharacter {c}"),
        LexerError::UnexpectedCharacter(c) => write!(out, " UnexpectedCharacter {c}"),
        LexerError::UnterminatedString => out.push_str(" UnterminatedString"),
        LexerError::UnknownCharacterInString(c) => write!(out, " UnknownCharacterInString {c}"),
        LexerError::UnknownEscapeSequence(text) => write!(out, " UnknownEscapeSequence {text}"),
        LexerError::UnexpectedEndOfFile => out.push_str(" UnexpectedEndOfFile"),
        LexerError::InvalidNumber => out.push_str(" InvalidNumber"),
    }
}

/// Writes a lexical error: its span, its variant and what that holds.
pub fn write_fault(out: &mut String, fault: &Spanning<LexerError>) -> Written {
    write_span(out, &fault.span)?;
    write_lexer_error(out, &fault.item)
}

/// Writes a space, a parser's error by its variant, and what that holds.
pub fn write_error(out: &mut String, error: &ParseError) -> Written {
    match error {
        ParseError::UnexpectedToken(text) => write!(out, " UnexpectedToken {text}"),
        ParseError::UnexpectedEndOfFile => out.push_str(" UnexpectedEndOfFile"),
        ParseError::LexerError(error) => {
            out.push_str(" LexerError")?;
            write_lexer_error(out, error)
        }
        ParseError::ExpectedScalarError(text) => write!(out, " ExpectedScalarError {text}"),
    }
}

/// Writes why a parser returned nothing: a refusal's span and error, or that memory ran out.
pub fn write_failure(out: &mut String, failure: ParseFailure) -> Written {
    match &failure {
        ParseFailure::Refused(fault) => {
            write_span(out, &fault.span)?;
            write_error(out, &fault.item)
        }
        ParseFailure::Memory => out.push_str("Memory"),
    }
}

/// Writes why a text has no tree within limits: what the parser says, or where a limit was passed, and which.
pub fn write_limit(out: &mut String, failure: LimitFailure) -> Written {
    match failure {
        LimitFailure::Parse(failure) => write_failure(out, failure),
        LimitFailure::TooDeep(span) => write_word_at(out, &span, "TooDeep"),
        LimitFailure::TooMany(span) => write_word_at(out, &span, "TooMany"),
    }
}

/// Writes the first spread that can't be expanded, and why.
pub fn write_spread(out: &mut String, failure: ComplexityFailure) -> Written {
    match failure {
        ComplexityFailure::Cycle(span) => write_word_at(out, &span, "Cycle"),
        ComplexityFailure::Unknown(span) => write_word_at(out, &span, "Unknown"),
        ComplexityFailure::Memory => out.push_str("Memory"),
    }
}

/// Writes a span and a word.
pub fn write_word_at(out: &mut String, span: &Span, word: &str) -> Written {
    let at = At(span);
    write!(out, "{at} {word}")
}

/// Writes what was made, or `Memory`.
pub fn write_made<T: fmt::Display + Drop>(
    out: &mut String,
    made: Result<T, AllocError>,
) -> Written {
    match made {
        Ok(made) => write!(out, "{made}"),
        Err(_) => out.push_str("Memory"),
    }
}

/// Writes what was made, `None` where nothing was, or `Memory`.
pub fn write_found<T: fmt::Display + Drop>(
    out: &mut String,
    made: Result<Option<T>, AllocError>,
) -> Written {
    match made {
        Ok(Some(made)) => write!(out, "{made}"),
        Ok(None) => out.push_str("None"),
        Err(_) => out.push_str("Memory"),
    }
}

/// Writes what there is, or `None`.
pub fn write_optional<T: fmt::Display + Drop>(out: &mut String, found: Option<T>) -> Written {
    match found {
        Some(found) => write!(out, "{found}"),
        None => out.push_str("None"),
    }
}

/// Writes items with commas between them.
pub fn write_items<T: fmt::Display>(out: &mut String, items: &[T]) -> Written {
    let before = out.len();
    for item in items {
        write_separator(out, before)?;
        write!(out, "{item}")?;
    }
    Ok(())
}

/// Writes a comma and a space, unless nothing was written after this many bytes.
pub fn write_separator(out: &mut String, before: usize) -> Written {
    if out.len() > before {
        out.push_str(", ")?;
    }
    Ok(())
}

/// Writes what names a span, with commas between: each span and its text.
pub fn write_placed(out: &mut String, items: &[Spanning<&str>]) -> Written {
    let before = out.len();
    for item in items {
        write_separator(out, before)?;
        write_word_at(out, &item.span, item.item)?;
    }
    Ok(())
}

/// Writes `true` or `false`.
pub fn write_truth(out: &mut String, truth: bool) -> Written {
    write!(out, "{truth}")
}

/// Writes what a comparison returns, and what it returns the other way round.
pub fn write_both(out: &mut String, there: bool, back: bool) -> Written {
    write!(out, "{there} {back}")
}

/// Writes a text, or `None`.
pub fn write_optional_text(out: &mut String, text: Option<&str>) -> Written {
    match text {
        Some(text) => out.push_str(text),
        None => out.push_str("None"),
    }
}

/// Writes a line that says why a parser returned nothing.
pub fn write_refusal(out: &mut String, failure: ParseFailure) -> Written {
    write_failure(out, failure)?;
    out.push('\n')
}
