//! The rows of an excerpt: numbered lines, and a caret.
ghost use Rattle.std.specs.Prelude.{◌≡◌, ◌^◌, ◌-◌, ◌++◌, ◌≤◌, length, take, drop, map, nat_lt, if◌then◌else◌, IfOk, OnOk, string_bytes, encode_utf8_all};
ghost use Rattle.std.specs.Str.{chars};
ghost use Rattle.std.specs.Fmt.{decimal};
ghost use Rattle.firthnapkin_results.specs.Excerpts.{after_bar, aligned, caret_row, last_number, line_row, part_shown, row_above, row_below, shown, spaces, visible};
ghost use Rattle.firthnapkin_results.specs.device.Excerpts.{line_of, text_in, view_excerpt};

use crate::excerpt::{Excerpt, Line};
use std::alloc::{AllocError, Global};

// Of a line of more characters so many are shown, and so many of these before the error's column.
const LONG: usize = 120;

const SHOWN: usize = 80;

const SHOWN_BEFORE: usize = 40;

/// An excerpt as it is shown. Fails if memory runs out.
pub(crate) fn written(alloc: Global, excerpt: &Excerpt<'_>) -> Result<String, AllocError>
    requires { excerpt.now.number ≤ 2 ^ 32 }
    ensures { IfOk result (λ out. string_bytes out ≡ encode_utf8_all
        (shown (length (decimal (last_number (view_excerpt excerpt.now)))) (view_excerpt excerpt.now))) }
{
    let width = digits(alloc, last_number(excerpt))?.len();
    let mut out = String::new(alloc);
    push_above(alloc, &mut out, width, excerpt)?;
    push_line(
        alloc,
        &mut out,
        width,
        excerpt.column,
        excerpt.number,
        excerpt.line,
    )?;
    out.push('\n')?;
    push_caret(&mut out, width, excerpt.column, excerpt.line)?;
    push_below(alloc, &mut out, width, excerpt)?;
    Ok(out)
}

fn last_number(excerpt: &Excerpt<'_>) -> usize
    requires { excerpt.now.number ≤ 2 ^ 32 }
    ensures { result ≡ last_number (view_excerpt excerpt.now) }
{
    match excerpt.below {
        Some(_) => excerpt.number + 1,
        None => excerpt.number,
    }
}

fn digits(alloc: Global, number: usize) -> Result<String, AllocError>
    ensures { IfOk result (λ out. string_bytes out ≡ decimal number) }
{
    format!(in alloc; "{number}")
}

// Appends the line above, if there is one, and a line feed.
fn push_above(
    alloc: Global,
    out: &mut String,
    width: usize,
    excerpt: &Excerpt<'_>,
) -> Result<(), AllocError>
    ensures { OnOk result (string_bytes out.new ≡ string_bytes out.old ++ encode_utf8_all
        (row_above width (view_excerpt excerpt.now) (text_in excerpt.now.above))) }
{
    match excerpt.above {
        None => Ok(()),
        Some(above) => {
            let number = excerpt.number.saturating_sub(1);
            push_line(alloc, out, width, excerpt.column, number, whole(above))?;
            out.push('\n')
        }
    }
}

// Appends a line feed and the line below, if there is one.
fn push_below(
    alloc: Global,
    out: &mut String,
    width: usize,
    excerpt: &Excerpt<'_>,
) -> Result<(), AllocError>
    requires { excerpt.now.number ≤ 2 ^ 32 }
    ensures { OnOk result (string_bytes out.new ≡ string_bytes out.old ++ encode_utf8_all
        (row_below width (view_excerpt excerpt.now) (text_in excerpt.now.below))) }
{
    match excerpt.below {
        None => Ok(()),
        Some(below) => {
            out.push('\n')?;
            push_line(
                alloc,
                out,
                width,
                excerpt.column,
                excerpt.number + 1,
                whole(below),
            )
        }
    }
}

fn whole(line: &str) -> Line<'_>
    ensures { line_of result ≡ chars line.now }
{
    Line {
        front: "",
        back: line,
    }
}

// Appends a line after its number.
fn push_line(
    alloc: Global,
    out: &mut String,
    width: usize,
    column: usize,
    number: usize,
    line: Line<'_>,
) -> Result<(), AllocError>
    ensures { OnOk result (string_bytes out.new ≡ string_bytes out.old ++ encode_utf8_all
        (line_row width column number (line_of line.entry))) }
{
    let label = digits(alloc, number)?;
    push_label(out, width, label.as_str())?;
    push_text(out, column, line)
}

// Appends a label, aligned to the right, and a bar.
fn push_label(out: &mut String, width: usize, label: &str) -> Result<(), AllocError>
    ensures { OnOk result (string_bytes out.new ≡ string_bytes out.old ++ encode_utf8_all
        (aligned width (chars label.now))) }
{
    push_spaces(out, width.saturating_sub(character_count(label)))?;
    out.push_str(label)?;
    out.push_str(" |")
}

// Appends what is shown of a line, after a space, unless that is nothing.
fn push_text(out: &mut String, column: usize, line: Line<'_>) -> Result<(), AllocError>
    ensures { OnOk result (string_bytes out.new ≡ string_bytes out.old ++ encode_utf8_all
        (after_bar (map visible (part_shown column (line_of line.entry))))) }
{
    let length = line_length(line);
    let first = first_shown(length, column);
    if length <= first {
        return Ok(());
    }
    out.push(' ')?;
    push_part(out, line.front, line.back, first, most_shown(length))
}

// Appends so many characters of two texts after the first ones.
fn push_part(
    out: &mut String,
    front: &str,
    back: &str,
    first: usize,
    most: usize,
) -> Result<(), AllocError>
    ensures { OnOk result (string_bytes out.new ≡ string_bytes out.old ++ encode_utf8_all
        (map visible (take most (drop first (chars front.now ++ chars back.now))))) }
{
    for c in front.chars().chain(back.chars()).skip(first).take(most) {
        out.push(visible(c))?;
    }
    Ok(())
}

fn visible(c: char) -> char
    ensures { result ≡ visible c }
{
    if c == '\r' { ' ' } else { c }
}

// Appends a caret below a column of a line.
fn push_caret(
    out: &mut String,
    width: usize,
    column: usize,
    line: Line<'_>,
) -> Result<(), AllocError>
    ensures { OnOk result (string_bytes out.new ≡ string_bytes out.old ++ encode_utf8_all
        (caret_row width column (line_of line.entry))) }
{
    let first = first_shown(line_length(line), column);
    push_label(out, width, "")?;
    out.push(' ')?;
    push_spaces(out, column.saturating_sub(first))?;
    out.push('^')
}

fn push_spaces(out: &mut String, count: usize) -> Result<(), AllocError>
    ensures { OnOk result (string_bytes out.new ≡ string_bytes out.old ++ encode_utf8_all (spaces count)) }
{
    for _ in 0..count {
        out.push(' ')?;
    }
    Ok(())
}

fn line_length(line: Line<'_>) -> usize
    ensures { result ≡ length (line_of line.entry) }
{
    character_count(line.front) + character_count(line.back)
}

fn character_count(text: &str) -> usize
    ensures count { result ≡ length (chars text.now) }
    ensures few { result ≤ length text.now }
{
    text.chars().count()
}

// The first character that is shown of a line of so many.
fn first_shown(length: usize, column: usize) -> usize
    ensures { result ≡ (if nat_lt 120 length then column - 40 else 0) }
{
    if LONG < length {
        column.saturating_sub(SHOWN_BEFORE)
    } else {
        0
    }
}

// The most characters that are shown of such a line.
fn most_shown(length: usize) -> usize
    ensures { result ≡ (if nat_lt 120 length then 80 else length) }
{
    if LONG < length { SHOWN } else { length }
}
