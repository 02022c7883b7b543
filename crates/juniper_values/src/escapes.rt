//! The text that the slice of a String token means (GraphQL specification, October 2021, section 2.9.4).
ghost use Rattle.std.specs.Prelude.{◌≡◌, ◌<◌, length, IfOk, OnOk, IfSome, MatchOption, option_map, is_some, Some, None, IsTrue};
ghost use Rattle.std.specs.Char.{IsScalar};
ghost use Rattle.std.specs.Fmt.{WritesInCalls, WritesText};
ghost use Rattle.std.specs.Str.{chars, encode_utf8_all, IsUtf8};
ghost use Rattle.graphql_lexical.specs.Characters.{is_hex};
ghost use Rattle.juniper_values.specs.View.{text_of};
ghost use Rattle.juniper_values.specs.Escapes.{unescape, unescape_backslash, unescape_u, in_front, unicode_escape, hex_value};

use crate::text::split_char;
use juniper_tokens::text::short_escape;
use std::alloc::{AllocError, Global};
use std::fmt;

// The text with each escape replaced, or None if a backslash begins no escape. The result is never longer than the text,
// so memory is asked for once.
pub(crate) fn unescape(alloc: Global, text: &str) -> Result<Option<String>, AllocError>
    ensures { IfOk result (λ o. option_map text_of o ≡ unescape (chars text.now)) }
{
    let mut value = String::with_capacity(alloc, text.len())?;
    match write_string_value(&mut value, text) {
        Ok(true) => Ok(Some(value)),
        Ok(false) => Ok(None),
        Err(fmt::Error) => Err(AllocError),
    }
}

/// Writes the text that the slice of a String token means: the slice with each escape replaced (GraphQL specification,
/// October 2021, section 2.9.4). What stands between two escapes is written at once.
///
/// Returns whether each backslash begins an escape. If one doesn't, what stands before it was written, and is of no
/// use. Returns `fmt::Error` if `out` does, after the text's beginning that `out` took.
pub fn write_string_value<W: fmt::Write>(out: &mut W, text: &str) -> Result<bool, fmt::Error>
    ensures whole { IfOk result (λ whole. whole ≡ is_some (unescape (chars text.now))) }
    ensures text { OnOk result (WritesText W.write_str_gives out.old
        (option_map encode_utf8_all (unescape (chars text.now))) out.new) }
{
    let mut rest = text;
    while let Some((plain, after)) = rest.split_once('\\') {
        write_part(out, plain)?;
        match escaped(after) {
            Some((c, left)) => {
                out.write_char(c)?;
                rest = left;
            }
            None => return Ok(false),
        }
    }
    write_part(out, rest)?;
    Ok(true)
}

// Writes what stands between two escapes, which often is nothing.
#[inline(always)]
fn write_part<W: fmt::Write>(out: &mut W, text: &str) -> fmt::Result
    ensures { OnOk result (WritesInCalls W.write_str_gives out.old text.now out.new) }
{
    if text.is_empty() {
        return Ok(());
    }
    out.write_str(text)
}

// The character that the escape after a backslash means, and the text after it; None if there is no escape.
fn escaped(text: &str) -> Option<(char, &str)>
    ensures value { MatchOption result (unescape_backslash (chars text.now) ≡ None)
        (λ p. unescape_backslash (chars text.now) ≡ in_front (Some p.0) (unescape (chars p.1.now))) }
    ensures scalar { IfSome result (λ p. IsScalar p.0) }
    ensures shorter { IfSome result (λ p. length p.1.now < length text.now) }
    ensures utf8 { IfSome result (λ p. IsUtf8 p.1.now) }
{
    let (c, rest) = split_char(text)?;
    if c == 'u' {
        numbered(rest)
    } else {
        Some((short_escape(c)?, rest))
    }
}

// The same after `\u`.
fn numbered(text: &str) -> Option<(char, &str)>
    ensures value { MatchOption result (unescape_u (chars text.now) ≡ None)
        (λ p. unescape_u (chars text.now) ≡ in_front (Some p.0) (unescape (chars p.1.now))) }
    ensures scalar { IfSome result (λ p. IsScalar p.0) }
    ensures shorter { IfSome result (λ p. length p.1.now < length text.now) }
    ensures utf8 { IfSome result (λ p. IsUtf8 p.1.now) }
{
    let (h, rest) = split_char(text)?;
    let (i, rest) = split_char(rest)?;
    let (j, rest) = split_char(rest)?;
    let (k, rest) = split_char(rest)?;
    Some((unicode(h, i, j, k)?, rest))
}

// The character that `\u` and these four stand for, or None.
fn unicode(h: char, i: char, j: char, k: char) -> Option<char>
    ensures value { result ≡ unicode_escape h i j k }
    ensures scalar { IfSome result IsScalar }
{
    if is_hex(h) && is_hex(i) && is_hex(j) && is_hex(k) {
        char::from_u32(
            4096 * hex_value(h) + (256 * hex_value(i) + (16 * hex_value(j) + hex_value(k))),
        )
    } else {
        None
    }
}

fn is_hex(c: char) -> bool
    ensures { result ≡ is_hex c }
{
    matches!(c, '0'..='9' | 'A'..='F' | 'a'..='f')
}

// The value of a hexadecimal digit.
fn hex_value(c: char) -> u32
    requires { IsTrue (is_hex c) }
    ensures value { result ≡ hex_value c }
    ensures small { result < 16 }
{
    let n = c as u32;
    if n <= 57 {
        n - 48
    } else if n <= 70 {
        n - 55
    } else {
        n - 87
    }
}
