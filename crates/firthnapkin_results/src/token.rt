//! Tokens, as C gets them.
ghost use Rattle.std.specs.Prelude.{◌≡◌, ℕ, List};
ghost use Rattle.juniper_tokens.specs.Spans.{view_span};
ghost use Rattle.firthnapkin_results.specs.ByteTables.{IsTableOf};
ghost use Rattle.firthnapkin_results.specs.Fits.{SpanFits};
ghost use Rattle.firthnapkin_results.specs.Tokens.{kind_number, quote_count, token_at};

use crate::byte_table::ByteTable;
use crate::position::{Position, position_at};
use juniper_tokens::{Kind, Span};

/// A token of a source.
#[repr(C)]
#[derive(Clone, Copy)]
pub struct Token {
    /// A number for each `Kind`: 0 for the end, then those of the others in their order.
    pub kind: u32,
    /// The number of quotes on each side of its text.
    pub quotes: u32,
    pub start: Position,
    pub end: Position,
}

/// The token of this kind with this span.
pub(crate) fn token_at(table: &ByteTable, kind: Kind, span: &Span) -> Token
    ensures { (source : List ℕ) → IsTableOf source table.now → SpanFits (view_span span.now)
        → result ≡ token_at source kind (view_span span.now) }
{
    Token {
        kind: kind_number(kind),
        quotes: quote_count(kind),
        start: position_at(table, span.start),
        end: position_at(table, span.end),
    }
}

fn kind_number(kind: Kind) -> u32
    ensures { result ≡ kind_number kind }
{
    match kind {
        Kind::EndOfFile => 0,
        _ => kind as u32 + 1,
    }
}

fn quote_count(kind: Kind) -> u32
    ensures { result ≡ quote_count kind }
{
    match kind {
        Kind::String => 1,
        Kind::BlockString => 3,
        _ => 0,
    }
}
