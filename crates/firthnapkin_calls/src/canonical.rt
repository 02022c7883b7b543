//! A source's canonical text, in the caller's memory.
ghost use Rattle.std.specs.Prelude.{◌≡◌, ◌≢◌, ◌<◌, ◌≤◌, ◌*◌, ◌^◌, ◌↔◌, List, length, IsUtf8, encode_utf8_all};
ghost use Rattle.std.specs.Str.{chars};
ghost use Rattle.graphql_lexical.specs.Place as places;
ghost use Rattle.graphql_lexical.specs.Kinds.{LexicalError};
ghost use Rattle.graphql_lexical.specs.Canonical.{canonical};
ghost use Rattle.graphql_lexical.specs.Cutting.{Lexeme, Breaks};
ghost use Rattle.juniper_parser.specs.Promise.{lexical_fault};
ghost use Rattle.firthnapkin_results.specs.Errors.{written_error};
ghost use Rattle.firthnapkin_results.specs.Answers.{Begins};
ghost use Rattle.firthnapkin_results.specs.Tokens.{HasTokens};
ghost use Rattle.firthnapkin_results.specs.CanonicalTexts.{IsCanonicalStatus};

use firthnapkin_results::buffer::fill;
use firthnapkin_results::canonical::{Canonical, canonical_of};
use firthnapkin_results::error::Error;
use firthnapkin_results::status::{
    BUFFER_TOO_SMALL, NOT_UTF8, OK, OUT_OF_MEMORY, SOURCE_TOO_LONG, SYNTAX_ERROR,
};
use std::alloc::Global;

/// Writes the canonical text of a source into the caller's buffer, or its first lexical error.
#[unsafe(no_mangle)]
pub extern "C" fn firthnapkin_canonical(
    alloc: Global,
    source: &[u8],
    buffer: &mut [u8],
    buffer_length: &mut usize,
    error: &mut Error,
) -> u32
    // header: It also returns FIRTHNAPKIN_NOT_UTF8, FIRTHNAPKIN_OUT_OF_MEMORY and FIRTHNAPKIN_SOURCE_TOO_LONG.
    ensures statuses { IsCanonicalStatus result }

    // header: It has the tokens as they are written, with one space between two neighbours of which neither is a
    // punctuator, and before `...` after a token that is no punctuator. It is UTF-8, with no line feed and no byte 0
    // at its end. Whether the source is a document is not checked. FIRTHNAPKIN_OK: the text is at the beginning of
    // `buffer`, the rest of which is as it was, and `buffer_length` is the number of its bytes.
    ensures canonical { result ≡ OK → (lexemes : List Lexeme) × HasTokens source.now lexemes
        × Begins (encode_utf8_all (canonical lexemes)) buffer.old buffer.new
        × (buffer_length.new ≡ length (encode_utf8_all (canonical lexemes))) }

    // header: FIRTHNAPKIN_BUFFER_TOO_SMALL: it has `buffer_length` bytes, more than `buffer_capacity`.
    ensures too_small { result ≡ BUFFER_TOO_SMALL → (lexemes : List Lexeme) × HasTokens source.now lexemes
        × (length buffer.old < length (encode_utf8_all (canonical lexemes)))
        × (buffer_length.new ≡ length (encode_utf8_all (canonical lexemes))) }

    // header: A buffer of 2 * length bytes always suffices.
    ensures bounds { buffer_length.new ≤ 2 * length source.now }

    // header: FIRTHNAPKIN_SYNTAX_ERROR: the source can't be tokenized, and the error is its first lexical error, of
    // the kind FIRTHNAPKIN_ERROR_LEXICAL. FIRTHNAPKIN_SYNTAX_ERROR: the source is UTF-8, and has a syntax error.
    ensures refused { result ≡ SYNTAX_ERROR → IsUtf8 source.now × ((lexical : LexicalError) × (at : places.Place)
        × Breaks (chars source.now) lexical at
        × (error.new ≡ written_error (chars source.now) (lexical_fault lexical at))) }

    // header: FIRTHNAPKIN_OUT_OF_MEMORY may be returned in place of lines 5 to 10.
    ensures memory { result ≡ OUT_OF_MEMORY → IsUtf8 source.now }

    // header: FIRTHNAPKIN_NOT_UTF8: the source is not UTF-8.
    ensures not_utf8 { result ≡ NOT_UTF8 → ¬ IsUtf8 source.now }

    // header: FIRTHNAPKIN_SOURCE_TOO_LONG: the source has 4 GiB or more.
    ensures too_long { result ≡ SOURCE_TOO_LONG ↔ 2 ^ 32 ≤ length source.now }

    // header: All statuses but FIRTHNAPKIN_OK leave `buffer` as it was.
    ensures buffer_kept { result ≢ OK → buffer.new ≡ buffer.old }

    // header: With any other status there is none, and `buffer_length` is 0.
    ensures no_count { result ≢ OK → result ≢ BUFFER_TOO_SMALL → buffer_length.new ≡ 0 }

    // header: All but FIRTHNAPKIN_SYNTAX_ERROR leave the error as it was.
    ensures error_kept { result ≢ SYNTAX_ERROR → error.new ≡ error.old }
{
    *buffer_length = 0;
    match canonical_of(alloc, source) {
        Ok(Canonical::Text(text)) => fill(buffer, buffer_length, text.as_bytes(), OK),
        Ok(Canonical::Refused(found)) => {
            *error = found;
            SYNTAX_ERROR
        }
        Err(unread) => unread.status(),
    }
}
