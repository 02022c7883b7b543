//! The text that a block string means (GraphQL specification, October 2021, section 2.9.4).
ghost use Rattle.std.specs.Prelude.{◌≡◌, ◌+◌, ◌-◌, ◌<◌, ◌^◌, drop, length, [], IfOk, OnOk, IfSome, MatchOption, if◌then◌else◌};
ghost use Rattle.std.specs.Fmt.{WritesInCalls};
ghost use Rattle.std.specs.Str.{chars, encode_utf8_all, IsUtf8};
ghost use Rattle.juniper_values.specs.View.{text_of};
ghost use Rattle.graphql_lexical.specs.Characters.{is_line_end};
ghost use Rattle.juniper_values.specs.BlockStrings.{block_value, common_indent, drop_blank_front, drop_blank_end, is_indent};
ghost use Rattle.juniper_values.specs.device.BlockSteps.{lines_of, begins_blank, left_text, is_in_indent, is_left_out, white_before, place_after, least_after};

mod run;

use crate::block_string::run::split_run;
use crate::text::split_char;
use std::alloc::{AllocError, Global};
use std::fmt;

// The place in a line at which the common indent is looked for.
#[derive(Clone, Copy)]
pub(crate) enum Place {
    // In the first line, whose indent does not count.
    First,
    // After this number of tabs and spaces.
    Indent(usize),
    // After another character.
    AfterIndent,
}

// What the text of a block string is like, from a line on.
#[derive(Clone, Copy)]
pub(crate) struct Measured {
    // The common indent.
    indent: usize,
    // The number of line ends before the last line that is not blank, 0 if there is none.
    feeds: usize,
}

// The value of the block string that has this text between its triple quotes. It is never longer than the text, so
// memory is asked for once.
pub(crate) fn block_value(alloc: Global, text: &str) -> Result<String, AllocError>
    ensures { IfOk result (λ s. text_of s ≡ block_value (chars text.now)) }
{
    let mut value = String::with_capacity(alloc, text.len())?;
    match write_block_string_value(&mut value, text) {
        Ok(()) => Ok(value),
        Err(fmt::Error) => Err(AllocError),
    }
}

/// Writes the value of the block string that has this text between its triple quotes (GraphQL specification, October
/// 2021, section 2.9.4). A run of characters that stand for themselves is written at once.
///
/// Returns `fmt::Error` if `out` does, after the value's beginning that `out` took.
pub fn write_block_string_value<W: fmt::Write>(out: &mut W, text: &str) -> fmt::Result
    ensures { OnOk result (WritesInCalls W.write_str_gives out.old (encode_utf8_all (block_value (chars text.now))) out.new) }
{
    let Some((skipped, rest)) = skip_blank_lines(text) else {
        return Ok(());
    };
    let measured = measure(rest, skipped);
    let removed = if skipped { measured.indent } else { 0 };
    write_lines(out, rest, removed, measured)
}

// Whether blank lines are at the beginning, and the text after them, or None if all lines are blank.
fn skip_blank_lines(text: &str) -> Option<(bool, &str)>
    ensures lines { MatchOption result (drop_blank_front (lines_of (chars text.now)) ≡ [])
        (λ p. drop_blank_front (lines_of (chars text.now)) ≡ lines_of (chars p.1.now)) }
    ensures skipped { IfSome result (λ p. p.0 ≡ begins_blank (lines_of (chars text.now))) }
    ensures utf8 { IfSome result (λ p. IsUtf8 p.1.now) }
{
    let mut skipped = false;
    let mut start = text;
    let mut rest = text;
    while let Some((c, after)) = split_char(rest) {
        rest = after;
        if is_left_out(c, rest) {
            continue;
        }
        if is_line_end(c) {
            skipped = true;
            start = rest;
        } else if !is_indent(c) {
            return Some((skipped, start));
        }
    }
    None
}

// Writes the lines from here on, with as many line feeds between them as were counted. Of the first line so many characters
// are removed, of each other line the common indent.
fn write_lines<W: fmt::Write>(
    out: &mut W,
    text: &str,
    removed: usize,
    measured: Measured,
) -> fmt::Result
    ensures { OnOk result (WritesInCalls W.write_str_gives out.old
        (encode_utf8_all (left_text measured.indent removed measured.feeds (lines_of (chars text.now)))) out.new) }
{
    let mut removed = removed;
    let mut feeds = measured.feeds;
    let mut rest = text;
    while let Some((c, after)) = split_char(rest) {
        if is_left_out(c, after) {
            rest = after;
        } else if is_line_end(c) {
            if feeds == 0 {
                return Ok(());
            }
            feeds -= 1;
            out.write_char('\n')?;
            removed = measured.indent;
            rest = after;
        } else if removed > 0 {
            removed -= 1;
            rest = after;
        } else if c == '\\' {
            // It stands for itself, but ends a run.
            out.write_char(c)?;
            rest = after;
        } else {
            let (run, after_run) = split_run(rest);
            out.write_str(run)?;
            rest = after_run;
        }
    }
    Ok(())
}

// Measures the lines from here on. The indent of the text's first line does not count, so if no line was skipped, that
// of the first one here does not.
fn measure(text: &str, skipped: bool) -> Measured
    ensures indent { result.indent ≡ common_indent (if skipped then lines_of (chars text.now) else drop 1 (lines_of (chars text.now))) }
    ensures feeds { result.feeds ≡ length (drop_blank_end (lines_of (chars text.now))) - 1 }
{
    let mut least = None;
    let mut place = if skipped {
        Place::Indent(0)
    } else {
        Place::First
    };
    let mut ends = 0;
    let mut feeds = 0;
    let mut rest = text;
    while let Some((c, after)) = split_char(rest) {
        rest = after;
        if is_left_out(c, rest) {
            continue;
        }
        least = least_after(least, place, c);
        place = place_after(place, c);
        if is_line_end(c) {
            ends += 1;
        } else if !is_in_indent(place) {
            feeds = ends;
            let (_, after_run) = split_run(rest);
            rest = after_run;
        }
    }
    Measured {
        indent: least.unwrap_or(0),
        feeds,
    }
}

// The least indent that is known after the character.
fn least_after(least: Option<usize>, place: Place, c: char) -> Option<usize>
    ensures { result ≡ least_after least place c }
{
    match place {
        Place::Indent(n) if !is_line_end(c) && !is_indent(c) => match least {
            Some(m) => Some(m.min(n)),
            None => Some(n),
        },
        _ => least,
    }
}

// The place after the character.
fn place_after(place: Place, c: char) -> Place
    requires { white_before place + 1 < 2 ^ 64 }
    ensures { result ≡ place_after place c }
{
    if is_line_end(c) {
        return Place::Indent(0);
    }
    match place {
        Place::Indent(n) if is_indent(c) => Place::Indent(n + 1),
        Place::First => Place::First,
        _ => Place::AfterIndent,
    }
}

// Whether nothing but tabs and spaces came in the line so far, and its indent counts.
fn is_in_indent(place: Place) -> bool
    ensures { result ≡ is_in_indent place }
{
    match place {
        Place::Indent(_) => true,
        Place::First | Place::AfterIndent => false,
    }
}

// Whether the character is left out: a backslash before a triple quote, or a CR before LF.
fn is_left_out(c: char, rest: &str) -> bool
    ensures { result ≡ is_left_out c (chars rest.now) }
{
    match c {
        '\\' => rest.starts_with("\"\"\""),
        '\r' => rest.starts_with("\n"),
        _ => false,
    }
}

fn is_line_end(c: char) -> bool
    ensures { result ≡ is_line_end c }
{
    c == '\n' || c == '\r'
}

fn is_indent(c: char) -> bool
    ensures { result ≡ is_indent c }
{
    c == '\t' || c == ' '
}
