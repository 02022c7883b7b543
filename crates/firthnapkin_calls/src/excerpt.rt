//! The lines of a source around an error, in the caller's memory.
ghost use Rattle.std.specs.Prelude.{◌≡◌, ◌≢◌, ◌<◌, ◌≤◌, ◌^◌, ◌↔◌, length, IsUtf8};
ghost use Rattle.firthnapkin_results.specs.Answers.{Begins};
ghost use Rattle.firthnapkin_results.specs.Excerpts.{IsBorder, excerpt_bytes};
ghost use Rattle.firthnapkin_results.specs.Messages.{IsWordsStatus};

use firthnapkin_results::buffer::fill;
use firthnapkin_results::error::Error;
use firthnapkin_results::excerpt::excerpt_of;
use firthnapkin_results::status::{
    BUFFER_TOO_SMALL, INVALID_ERROR, NOT_UTF8, OK, OUT_OF_MEMORY, SOURCE_TOO_LONG,
};
use std::alloc::Global;

/// Writes the lines around an error into the caller's buffer, with a caret below its first character.
#[unsafe(no_mangle)]
pub extern "C" fn firthnapkin_excerpt(
    alloc: Global,
    source: &[u8],
    error: &Error,
    buffer: &mut [u8],
    buffer_length: &mut usize,
) -> u32
    // header: Its statuses are those of firthnapkin_message.
    ensures statuses { IsWordsStatus result }

    // header: Writes the lines around the beginning of an error, and a caret below its character, in UTF-8, with no
    // byte 0 at its end: They are the line before, if there is one, the line, the caret, and the line after, if there
    // is one, with a line feed between two of them. Lines are numbered from 1 and end at line feeds. A carriage return
    // before a line feed isn't shown, and any other is shown as a space. Of a line of more than 120 characters the 80
    // from 40 before the error's column are shown. A row ends at its bar if nothing of its line is shown. Only
    // error->start.byte is read of the error: the line and the column are those of that byte of the source.
    ensures lines { result ≡ OK → IsUtf8 source.now × (IsBorder source.now error.now.start.byte
        × (Begins (excerpt_bytes source.now error.now.start.byte) buffer.old buffer.new
        × (buffer_length.new ≡ length (excerpt_bytes source.now error.now.start.byte)))) }

    // header: After each of them `buffer` and `buffer_length` are as after that call, with the lines in place of the
    // words.
    ensures too_small { result ≡ BUFFER_TOO_SMALL → IsUtf8 source.now × (IsBorder source.now error.now.start.byte
        × ((length buffer.old < length (excerpt_bytes source.now error.now.start.byte))
        × (buffer_length.new ≡ length (excerpt_bytes source.now error.now.start.byte)))) }

    // header: FIRTHNAPKIN_INVALID_ERROR: that byte is within a character of the source, or after its end.
    ensures invalid { result ≡ INVALID_ERROR → IsUtf8 source.now × ¬ IsBorder source.now error.now.start.byte }

    // There are lines, but there was no memory for them.
    // header: FIRTHNAPKIN_OUT_OF_MEMORY may be returned in place of lines 5 to 10.
    ensures memory { result ≡ OUT_OF_MEMORY → IsUtf8 source.now × IsBorder source.now error.now.start.byte }

    // header: FIRTHNAPKIN_NOT_UTF8: the source is not UTF-8.
    ensures not_utf8 { result ≡ NOT_UTF8 → ¬ IsUtf8 source.now }

    // header: FIRTHNAPKIN_SOURCE_TOO_LONG: the source has 4 GiB or more.
    ensures too_long { result ≡ SOURCE_TOO_LONG ↔ 2 ^ 32 ≤ length source.now }

    // header: After each of them `buffer` and `buffer_length` are as after that call, with the lines in place of the
    // words.
    ensures buffer_kept { result ≢ OK → buffer.new ≡ buffer.old }

    // header: After each of them `buffer` and `buffer_length` are as after that call, with the lines in place of the
    // words.
    ensures no_lines { result ≢ OK → result ≢ BUFFER_TOO_SMALL → buffer_length.new ≡ 0 }
{
    *buffer_length = 0;
    match excerpt_of(alloc, source, error.start.byte) {
        Ok(Some(lines)) => fill(buffer, buffer_length, lines.as_bytes(), OK),
        Ok(None) => INVALID_ERROR,
        Err(unread) => unread.status(),
    }
}
