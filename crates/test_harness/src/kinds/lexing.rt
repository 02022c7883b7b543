//! The lexer, and the table of lines.

use crate::write::{At, Written, write_fault, write_token};
use juniper::{LexFailure, Lexer, LexerResult, LineTable, Span};
use std::alloc::Global;

/// `lexer`: a line for each item: a token or a lexical error, and `None` after the last one.
pub fn write_items(alloc: Global, out: &mut String, text: &str) -> Written {
    write_left(out, &mut Lexer::new(alloc, text), text.len())
}

/// Writes a line for each item that a lexer of a text of so many bytes has left, and `None` after the last one.
pub fn write_left(out: &mut String, lexer: &mut Lexer<'_>, len: usize) -> Written {
    for _ in 0..len.saturating_add(3) {
        let Some(item) = lexer.next() else {
            return out.push_str("None\n");
        };
        write_item(out, item)?;
        out.push('\n')?;
    }
    Ok(())
}

fn write_item(out: &mut String, item: LexerResult<'_>) -> Written {
    match item {
        Ok(token) => write_token(out, &token),
        Err(LexFailure::Fault(fault)) => write_fault(out, &fault),
        Err(LexFailure::Memory) => out.push_str("Memory"),
    }
}

/// `line_table`: a line for each index up to the first that has no place.
pub fn write_places(alloc: Global, out: &mut String, text: &str) -> Written {
    let Ok(table) = LineTable::new(alloc, text) else {
        return out.push_str("Memory\n");
    };
    for index in 0..text.len().saturating_add(2) {
        let Some(place) = table.position(index) else {
            return out.push_str("None\n");
        };
        let span = Span::zero_width(place);
        let at = At(&span);
        writeln!(out, "{at}")?;
    }
    Ok(())
}
