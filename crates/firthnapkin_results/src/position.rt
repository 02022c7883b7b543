//! Positions of a source, as C gets them.
ghost use Rattle.std.specs.Prelude.{◌≡◌, ℕ, ◌<◌, ◌^◌, List};
ghost use Rattle.firthnapkin_results.specs.Positions.{written_position};
ghost use Rattle.firthnapkin_results.specs.Fits.{PositionFits};
ghost use Rattle.firthnapkin_results.specs.ByteTables.{IsTableOf};

use crate::byte_table::ByteTable;
use crate::status::TOO_LONG_FROM;
use juniper_tokens::SourcePosition;

/// A position of the source: the number of characters, line feeds, characters of its line and bytes before it.
#[repr(C)]
#[derive(Clone, Copy)]
pub struct Position {
    pub index: u32,
    pub line: u32,
    pub column: u32,
    pub byte: u32,
}

#[inline(always)]
pub(crate) fn position_at(table: &ByteTable, position: SourcePosition) -> Position
    ensures { (source : List ℕ) → IsTableOf source table.now → PositionFits position
        → result ≡ written_position source position }
{
    let index = in_word(position.index());
    Position {
        index,
        line: in_word(position.line()),
        column: in_word(position.column()),
        byte: table.byte(index as usize),
    }
}

/// The lowest 32 bits of a number. No number of a source of less than 4 GiB is larger.
#[inline(always)]
pub(crate) fn in_word(number: usize) -> u32
    ensures { number < 2 ^ 32 → result ≡ number }
{
    (number % TOO_LONG_FROM) as u32
}
