//! An error of a source in words, in the caller's memory.
ghost use Rattle.std.specs.Prelude.{◌≡◌, ◌≢◌, ◌<◌, ◌≤◌, ◌^◌, ◌↔◌, List, ℕ, length, IsUtf8};
ghost use Rattle.firthnapkin_results.specs.Answers.{Begins};
ghost use Rattle.firthnapkin_results.specs.Messages.{AreWords, HasWords, IsNoErrorOf, IsWordsStatus};

use firthnapkin_results::buffer::fill;
use firthnapkin_results::error::Error;
use firthnapkin_results::message::message_of;
use firthnapkin_results::status::{
    BUFFER_TOO_SMALL, INVALID_ERROR, NOT_UTF8, OK, OUT_OF_MEMORY, SOURCE_TOO_LONG,
};
use std::alloc::Global;

/// Writes an error of a source in words into the caller's buffer.
#[unsafe(no_mangle)]
pub extern "C" fn firthnapkin_message(
    alloc: Global,
    source: &[u8],
    error: &Error,
    buffer: &mut [u8],
    buffer_length: &mut usize,
) -> u32
    // header: It also returns FIRTHNAPKIN_NOT_UTF8, FIRTHNAPKIN_OUT_OF_MEMORY and FIRTHNAPKIN_SOURCE_TOO_LONG.
    ensures statuses { IsWordsStatus result }

    // header: Writes an error in words, as `Unexpected "}"`, in UTF-8, with no byte 0 at its end. The source is the
    // one that another call found the error in. Neither the position nor the line is in the words: an excerpt shows
    // these. FIRTHNAPKIN_OK: the words are at the beginning of `buffer`, the rest of which is as it was, and
    // `buffer_length` is the number of their bytes.
    ensures words { result ≡ OK → IsUtf8 source.now
        × ((message : List ℕ) × (0 < length message) × AreWords source.now error.now message
        × Begins message buffer.old buffer.new × (buffer_length.new ≡ length message)) }

    // header: FIRTHNAPKIN_BUFFER_TOO_SMALL: they have `buffer_length` bytes, more than `buffer_capacity`.
    ensures too_small { result ≡ BUFFER_TOO_SMALL → IsUtf8 source.now
        × ((message : List ℕ) × AreWords source.now error.now message
        × (length buffer.old < length message) × (buffer_length.new ≡ length message)) }

    // No call on the source gives the error, and it has no words.
    // header: FIRTHNAPKIN_INVALID_ERROR: there are no words for this error in this source. Any other error has some,
    // even if it is of another source. FIRTHNAPKIN_INVALID_ERROR: the error that was given has no words, or no lines,
    // in this source.
    ensures invalid { result ≡ INVALID_ERROR → IsUtf8 source.now
        × (IsNoErrorOf source.now error.now × ¬ HasWords source.now error.now) }

    // It has words, but there was no memory for them.
    // header: FIRTHNAPKIN_OUT_OF_MEMORY may be returned in place of lines 5 to 10.
    ensures memory { result ≡ OUT_OF_MEMORY → IsUtf8 source.now × HasWords source.now error.now }

    // header: FIRTHNAPKIN_NOT_UTF8: the source is not UTF-8.
    ensures not_utf8 { result ≡ NOT_UTF8 → ¬ IsUtf8 source.now }

    // header: FIRTHNAPKIN_SOURCE_TOO_LONG: the source has 4 GiB or more.
    ensures too_long { result ≡ SOURCE_TOO_LONG ↔ 2 ^ 32 ≤ length source.now }

    // header: All statuses but FIRTHNAPKIN_OK leave `buffer` as it was.
    ensures buffer_kept { result ≢ OK → buffer.new ≡ buffer.old }

    // header: All but FIRTHNAPKIN_OK and FIRTHNAPKIN_BUFFER_TOO_SMALL set `buffer_length` to 0.
    ensures no_message { result ≢ OK → result ≢ BUFFER_TOO_SMALL → buffer_length.new ≡ 0 }
{
    *buffer_length = 0;
    match message_of(alloc, source, error) {
        Ok(Some(words)) => fill(buffer, buffer_length, words.as_bytes(), OK),
        Ok(None) => INVALID_ERROR,
        Err(unread) => unread.status(),
    }
}
