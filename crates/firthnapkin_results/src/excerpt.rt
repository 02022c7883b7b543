//! The lines of a source around an error.
ghost use Rattle.std.specs.Prelude.{◌≡◌, ◌<◌, ◌^◌, ◌+◌, ◌++◌, ◌≤◌, length, take, drop, IfOk, MatchOption, string_bytes, encode_utf8_all};
ghost use Rattle.std.specs.Str.{chars};
ghost use Rattle.graphql_lexical.specs.Place.{position_after};
ghost use Rattle.firthnapkin_results.specs.Excerpts.{IsBorder, ReturnsExcerpt, around, excerpt, without_return};
ghost use Rattle.firthnapkin_results.specs.device.Excerpts.{BeginsWithLine, EndsWithLine, IsLineAbove, IsLineBelow, line_before, line_of, text_in, view_excerpt};

mod rows;

use crate::excerpt::rows::written;
use crate::source::{Unread, text_of};
use std::alloc::{AllocError, Global};

/// The lines around a position of a text.
#[derive(Clone, Copy)]
pub(crate) struct Excerpt<'t> {
    // The line's number, from 1, and the number of its characters before the position.
    number: usize,
    column: usize,
    above: Option<&'t str>,
    line: Line<'t>,
    below: Option<&'t str>,
}

/// A line in two parts.
#[derive(Clone, Copy)]
pub(crate) struct Line<'t> {
    front: &'t str,
    back: &'t str,
}

/// Returns the lines of a source around the character that begins at this byte, with a caret below it, or around the
/// end. Returns `None` if the byte is within a character or after the end. Nothing is known if the bytes aren't UTF-8
/// or are 4 GiB or more, or if memory runs out.
pub fn excerpt_of(alloc: Global, source: &[u8], byte: u32) -> Result<Option<String>, Unread>
    ensures { ReturnsExcerpt source.now byte result }
{
    match parted(text_of(source)?, byte as usize) {
        Some((before, after)) => Ok(Some(excerpt_between(alloc, before, after)?)),
        None => Ok(None),
    }
}

// The text before a byte and the text from it on, or `None` if it is within a character or after the end.
fn parted(text: &str, byte: usize) -> Option<(&str, &str)>
    ensures { MatchOption result (¬ IsBorder text.now byte)
        (λ parts. IsBorder text.now byte × ((parts.0.now ≡ take byte text.now) × (parts.1.now ≡ drop byte text.now))) }
{
    let bytes = text.as_bytes();
    if bytes.len() < byte {
        return None;
    }
    match (
        std::str::from_utf8(&bytes[..byte]),
        std::str::from_utf8(&bytes[byte..]),
    ) {
        (Ok(before), Ok(after)) => Some((before, after)),
        _ => None,
    }
}

fn excerpt_between(alloc: Global, before: &str, after: &str) -> Result<String, AllocError>
    requires { length before.now < 2 ^ 32 }
    ensures { IfOk result (λ out. string_bytes out ≡ encode_utf8_all (excerpt (chars before.now) (chars after.now))) }
{
    written(alloc, &lines_between(before, after))
}

fn lines_between<'t>(before: &'t str, after: &'t str) -> Excerpt<'t>
    requires { length before.now < 2 ^ 32 }
    ensures around { view_excerpt result ≡ around (chars before.now) (chars after.now) }
    ensures small { result.number ≤ 2 ^ 32 }
{
    let (number, column) = line_and_column(before);
    let (earlier, front) = last_line(before);
    let (back, later) = first_line(after);
    Excerpt {
        number,
        column,
        above: line_above(earlier),
        line: joined(front, back, later),
        below: line_below(later),
    }
}

// The number, from 1, of the line that a text ends in, and the number of the characters in it.
fn line_and_column(before: &str) -> (usize, usize)
    requires { length before.now < 2 ^ 32 }
    ensures line { result.0 ≡ (position_after (chars before.now)).line + 1 }
    ensures column { result.1 ≡ (position_after (chars before.now)).column }
    ensures small { result.0 ≤ 2 ^ 32 }
{
    let mut number = 1;
    let mut column = 0;
    for c in before.chars() {
        if c == '\n' {
            number += 1;
            column = 0;
        } else {
            column += 1;
        }
    }
    (number, column)
}

// The last line of a text, and the text before the line feed before it.
fn last_line(text: &str) -> (Option<&str>, &str)
    ensures { EndsWithLine (chars text.now) (text_in result.0) (chars result.1.now) }
{
    match text.rsplit_once('\n') {
        Some((earlier, line)) => (Some(earlier), line),
        None => (None, text),
    }
}

// The first line of a text, and the text after the line feed after it.
fn first_line(text: &str) -> (&str, Option<&str>)
    ensures { BeginsWithLine (chars text.now) (chars result.0.now) (text_in result.1) }
{
    match text.split_once('\n') {
        Some((line, later)) => (line, Some(later)),
        None => (text, None),
    }
}

// The last line of a text that a line feed follows.
fn line_above(earlier: Option<&str>) -> Option<&str>
    ensures { IsLineAbove (text_in earlier.entry) (text_in result) }
{
    match earlier {
        Some(text) => Some(without_return(last_line(text).1)),
        None => None,
    }
}

// The first line of a text that a line feed is before.
fn line_below(later: Option<&str>) -> Option<&str>
    ensures { IsLineBelow (text_in later.entry) (text_in result) }
{
    match later {
        Some(text) => match first_line(text) {
            (line, Some(_)) => Some(without_return(line)),
            (line, None) => Some(line),
        },
        None => None,
    }
}

// A line in two parts, with what follows the line feed that ends it, if one does.
fn joined<'t>(front: &'t str, back: &'t str, later: Option<&str>) -> Line<'t>
    ensures { line_of result ≡ line_before (chars front.now ++ chars back.now) (text_in later.entry) }
{
    match later {
        None => Line { front, back },
        Some(_) => {
            if back.is_empty() {
                Line {
                    front: without_return(front),
                    back,
                }
            } else {
                Line {
                    front,
                    back: without_return(back),
                }
            }
        }
    }
}

fn without_return(line: &str) -> &str
    ensures { chars result.now ≡ without_return (chars line.now) }
{
    match line.strip_suffix('\r') {
        Some(rest) => rest,
        None => line,
    }
}
