//! An error of a source, in words.
ghost use Rattle.std.specs.Prelude.{◌≡◌, ◌≢◌, ◌<◌, ◌≤◌, ◌^◌, true, false, get_or, length, IfErr, IfOk, MatchOption, SomeIff, string_bytes, encode_utf8_all};
ghost use Rattle.std.specs.Char.{IsScalar};
ghost use Rattle.std.specs.Str.{chars, IsUtf8};
ghost use Rattle.graphql_lexical.specs.Characters.{Text};
ghost use Rattle.graphql_lexical.specs.Display.{shown};
ghost use Rattle.graphql_lexical.specs.Cutting.{Breaks};
ghost use Rattle.graphql_lexical.specs.Kinds as kinds;
ghost use Rattle.graphql_lexical.specs.Place.{Place};
ghost use Rattle.graphql_lexical.specs.Tokens.{Spells};
ghost use Rattle.graphql_lexical.specs.declared.kind.Kind as kind;
ghost use Rattle.juniper_tokens.specs.Errors as errors;
ghost use Rattle.juniper_tokens.specs.Errors.{view_error, view_lexer_error};
ghost use Rattle.juniper_parser.specs.Promise.{lexical_fault};
ghost use Rattle.firthnapkin_results.specs.Errors.{written_error};
ghost use Rattle.firthnapkin_results.specs.Messages.{HasLexicalWords, HasWords, IsRefused, ReturnsMessage, ReturnsItsWords, IsOfGrammar, ShowsText, shown_bytes, IsQuoted};

use crate::error::{
    Error, FRAGMENT_CYCLE, INVALID_NUMBER, LEXICAL, TOO_DEEP, TOO_MANY_TOKENS,
    UNEXPECTED_CHARACTER, UNEXPECTED_END, UNEXPECTED_END_IN_TOKEN, UNEXPECTED_TOKEN,
    UNKNOWN_CHARACTER, UNKNOWN_CHARACTER_IN_STRING, UNKNOWN_ESCAPE, UNKNOWN_FRAGMENT,
    UNTERMINATED_STRING,
};
use crate::source::{Unread, text_of};
use juniper_tokens::{LexerError, ParseError, ScalarToken};
use std::alloc::{AllocError, Global};

/// Returns an error of a source in words, or `None` if there are none for such an error: it has a number that no error
/// has, or the bytes that it shows aren't UTF-8 or aren't in the source. Nothing is known if the bytes of the source
/// aren't UTF-8 or are 4 GiB or more, or if memory runs out. The source isn't parsed.
pub fn message_of(alloc: Global, source: &[u8], error: &Error) -> Result<Option<String>, Unread>
    ensures message { ReturnsMessage source.now error.now result }
    ensures exact { ReturnsItsWords source.now error.now result }
{
    message_of_text(alloc, text_of(source)?, error)
}

fn message_of_text(alloc: Global, text: &str, error: &Error) -> Result<Option<String>, Unread>
    requires { length text.now < 2 ^ 32 }
    ensures message { ReturnsMessage text.now error.now result }
    ensures exact { ReturnsItsWords text.now error.now result }
{
    if error.kind == TOO_DEEP {
        return Ok(Some(String::from_str(alloc, "Too deeply nested")?));
    }
    if error.kind == TOO_MANY_TOKENS {
        return Ok(Some(String::from_str(alloc, "Too many tokens")?));
    }
    if error.kind == UNKNOWN_FRAGMENT {
        return Ok(Some(String::from_str(alloc, "Unknown fragment")?));
    }
    if error.kind == FRAGMENT_CYCLE {
        return Ok(Some(String::from_str(alloc, "Fragment spread within itself")?));
    }
    match parse_error_of(alloc, text, error)? {
        Some(parse_error) => Ok(Some(format!(in alloc; "{parse_error}")?)),
        None => Ok(None),
    }
}

// The `ParseError` that an error of this source was made of.
fn parse_error_of(
    alloc: Global,
    source: &str,
    error: &Error,
) -> Result<Option<ParseError>, AllocError>
    ensures exact { (found : errors.Fault) → IsRefused (chars source.now) found
        → error.now ≡ written_error (chars source.now) found
        → IfOk result (λ made. MatchOption made ⊥ (λ it. view_error it ≡ found.error)) }
    ensures own { IfOk result (λ made. MatchOption made (Unit {0}) (λ it. IsOfGrammar (view_error it))) }
    ensures words { IfOk result (λ made. MatchOption made (error.now.kind ≤ 2 → ¬ HasWords source.now error.now)
        (λ _. HasWords source.now error.now)) }
    ensures memory { IfErr result (λ _. HasWords source.now error.now) }
{
    if error.kind == UNEXPECTED_TOKEN {
        match text_shown(source, error) {
            Some(written) => Ok(Some(ParseError::UnexpectedToken(shown_token(alloc, written)?))),
            None => Ok(None),
        }
    } else if error.kind == UNEXPECTED_END {
        Ok(Some(ParseError::UnexpectedEndOfFile))
    } else if error.kind == LEXICAL {
        match lexical_error_of(alloc, source, error)? {
            Some(lexer_error) => Ok(Some(ParseError::LexerError(lexer_error))),
            None => Ok(None),
        }
    } else {
        Ok(None)
    }
}

fn lexical_error_of(
    alloc: Global,
    source: &str,
    error: &Error,
) -> Result<Option<LexerError>, AllocError>
    ensures exact { (lexical : kinds.LexicalError) (at : Place) → Breaks (chars source.now) lexical at
        → error.now ≡ written_error (chars source.now) (lexical_fault lexical at)
        → IfOk result (λ made. MatchOption made ⊥ (λ it. view_lexer_error it ≡ lexical)) }
    ensures words { IfOk result (λ made. MatchOption made (¬ HasLexicalWords source.now error.now)
        (λ _. HasLexicalWords source.now error.now)) }
    ensures memory { IfErr result (λ _. HasLexicalWords source.now error.now) }
{
    match error.detail {
        UNKNOWN_CHARACTER => Ok(named(error).map(LexerError::UnknownCharacter)),
        UNEXPECTED_CHARACTER => Ok(named(error).map(LexerError::UnexpectedCharacter)),
        UNTERMINATED_STRING => Ok(Some(LexerError::UnterminatedString)),
        UNKNOWN_CHARACTER_IN_STRING => Ok(named(error).map(LexerError::UnknownCharacterInString)),
        UNKNOWN_ESCAPE => match text_shown(source, error) {
            Some(escape) => Ok(Some(LexerError::UnknownEscapeSequence(String::from_str(
                alloc, escape,
            )?))),
            None => Ok(None),
        },
        UNEXPECTED_END_IN_TOKEN => Ok(Some(LexerError::UnexpectedEndOfFile)),
        INVALID_NUMBER => Ok(Some(LexerError::InvalidNumber)),
        _ => Ok(None),
    }
}

// The character that an error names.
fn named(error: &Error) -> Option<char>
    ensures { SomeIff result (IsScalar error.now.character) error.now.character }
{
    char::from_u32(error.character)
}

// The text of the source that an error shows, where its bytes are one.
fn text_shown<'s>(source: &'s str, error: &Error) -> Option<&'s str>
    ensures { MatchOption result (¬ ShowsText source.now error.now)
        (λ text. ShowsText source.now error.now × (text.now ≡ shown_bytes source.now error.now)) }
{
    let (start, end) = (error.text_start as usize, error.text_end as usize);
    if end < start || source.len() < end {
        return None;
    }
    match std::str::from_utf8(&source.as_bytes()[start..end]) {
        Ok(text) => Some(text),
        Err(_) => None,
    }
}

// What is shown of a token that is written so: a quote and a backslash within a String have a backslash before them.
fn shown_token(alloc: Global, written: &str) -> Result<String, AllocError>
    ensures { (k : kind.Kind) (text : Text) → Spells (chars written.now) k text
        → IfOk result (λ made. string_bytes made ≡ encode_utf8_all (shown k text)) }
{
    match within_quotes(written) {
        Some(text) => format!(in alloc; "{}", ScalarToken::String(text)),
        None => String::from_str(alloc, written),
    }
}

// The text between the quotes of a String; None of any other token.
fn within_quotes(written: &str) -> Option<&str>
    ensures { MatchOption result ((text : Text) → IsQuoted (chars written.now) text → ⊥)
        (λ text. IsQuoted (chars written.now) (chars text.now)) }
{
    let text = written.strip_prefix('"')?.strip_suffix('"')?;
    if begins_with_quote(text) {
        None
    } else {
        Some(text)
    }
}

fn begins_with_quote(text: &str) -> bool
    ensures yes { result ≡ true → get_or text.now 0 0 ≡ 34 }
    ensures no { result ≡ false → get_or text.now 0 0 ≢ 34 }
    ensures utf8 { IsUtf8 text.now }
{
    text.starts_with('"')
}
