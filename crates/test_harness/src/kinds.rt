//! The results of calls of each kind.
//!
//! Where memory ran out in a call, `Memory` is written, and then what was returned with it, if anything. The error that
//! memory ran out is returned where what the call is made on could not be made.

mod answers;
mod complexities;
mod conversions;
mod converted;
mod cursor;
mod devices;
mod documents;
mod guide_calls;
mod handed_back;
mod input_values;
mod lexing;
mod literals;
mod odd;
mod requests;
mod scalars;
mod sources;
mod tree;
mod types;

use crate::write::Written;
use juniper::DefaultScalarValue;
use std::alloc::Global;

/// Writes what calls of this kind on the text return. A kind that has several is given those that are made, a line
/// each.
pub fn write_answer(
    alloc: Global,
    out: &mut String,
    kind: &str,
    text: &str,
    calls: &str,
) -> Written {
    match kind {
        "lexer" => lexing::write_items(alloc, out, text),
        "line_table" => lexing::write_places(alloc, out, text),
        "value" => literals::write_value_in(alloc, out, text, false),
        "const" => literals::write_value_in(alloc, out, text, true),
        "document" | "within" | "limited" => documents::write_tree(alloc, out, kind, text),
        "value_source" => sources::write_value_source(alloc, out, text, false),
        "const_source" => sources::write_value_source(alloc, out, text, true),
        "type_source" => sources::write_type_source(alloc, out, text),
        "equal" => documents::write_equal(alloc, out, text),
        "odd_document" => odd::write_arguments_of(alloc, out, text),
        "pushed" => documents::write_counts(alloc, out, text),
        "parser" => cursor::write_tokens(alloc, out, text),
        "cursor" => cursor::write_calls(alloc, out, text, calls),
        "arguments" => documents::write_calls(alloc, out, text, calls),
        "requests" => requests::write_calls(alloc, out, text, calls),
        "bytes" | "byte_table" => requests::write_bytes(alloc, out, kind, text),
        "complexities" => complexities::write_complexities(alloc, out, text),
        "answer" => answers::write_calls(alloc, out, text, calls),
        _ => write_lines(alloc, out, &mut Anew { kind, text }, calls),
    }
}

/// What calls are made on, one after another.
pub(crate) trait Subject {
    /// Writes what a call returns.
    fn answer(&mut self, alloc: Global, out: &mut String, call: &str) -> Written;
}

/// Writes a line for each call: the call, and what it returns.
pub(crate) fn write_lines<T: Subject>(
    alloc: Global,
    out: &mut String,
    subject: &mut T,
    calls: &str,
) -> Written {
    for call in calls.lines() {
        write!(out, "{call} -> ")?;
        subject.answer(alloc, out, call)?;
        out.push('\n')?;
    }
    Ok(())
}

// Calls of a kind, each of which begins with the text anew.
#[derive(Drop)]
struct Anew<'a> {
    kind: &'a str,
    text: &'a str,
}

impl Subject for Anew<'_> {
    fn answer(&mut self, alloc: Global, out: &mut String, call: &str) -> Written {
        let text = self.text;
        match self.kind {
            "devices" => devices::answer(alloc, out, text, call),
            "input_value" => input_values::answer(alloc, out, text, call),
            "scalar" => scalars::answer::<DefaultScalarValue>(alloc, out, text, call),
            "odd_scalar" => odd::answer(alloc, out, text, call),
            "type_literal" => types::answer(alloc, out, text, call),
            "object" => answers::answer_made(alloc, out, text, call),
            "name" => answers::answer_name(alloc, out, text, call),
            "into" => conversions::answer(alloc, out, text, call),
            "guide" => guide_calls::answer(alloc, out, text, call),
            _ => out.push_str("no such kind"),
        }
    }
}

/// The first word of a call, and what stands after the space.
pub(crate) fn word_of(call: &str) -> (&str, &str) {
    call.split_once(' ').unwrap_or((call, ""))
}

/// The number that a word is, or 0.
pub(crate) fn number_of(word: &str) -> usize {
    word.parse::<usize>().unwrap_or(0)
}
