//! A limit on the number of tokens.
ghost use Rattle.std.specs.Prelude.{◌≡◌, ◌≢◌, ◌≤◌, ◌^◌, ◌↔◌, [], length, IsUtf8};
ghost use Rattle.std.specs.Str.{chars};
ghost use Rattle.graphql_lexical.specs.Place as places;
ghost use Rattle.firthnapkin_results.specs.Errors.{too_many_tokens_error};
ghost use Rattle.juniper_tokens.specs.Counting.{HasFew, HasMore};
ghost use Rattle.firthnapkin_results.specs.TokenCounts.{IsCountStatus};

use firthnapkin_results::count::{Counted, count_of};
use firthnapkin_results::error::Error;
use firthnapkin_results::status::{NOT_UTF8, OK, OUT_OF_MEMORY, SOURCE_TOO_LONG, TOO_MANY_TOKENS};
use std::alloc::Global;

/// Reports whether a source has more tokens than the limit, its end not counted, and where the first token past the
/// limit is.
#[unsafe(no_mangle)]
pub extern "C" fn firthnapkin_count(
    alloc: Global,
    source: &[u8],
    max_tokens: u32,
    error: &mut Error,
) -> u32
    // header: It also returns FIRTHNAPKIN_NOT_UTF8 and FIRTHNAPKIN_SOURCE_TOO_LONG.
    ensures statuses { IsCountStatus result }

    // header: Says whether a source has more tokens than `max_tokens`, its end not counted. The whole source is
    // checked as UTF-8. FIRTHNAPKIN_OK: there are no more before the end, or before the first lexical error.
    ensures few { result ≡ OK → IsUtf8 source.now × HasFew [] (chars source.now) max_tokens }

    // header: Says whether a source has more tokens than `max_tokens`, its end not counted. The whole source is
    // checked as UTF-8. FIRTHNAPKIN_TOO_MANY_TOKENS: there are more before either, and the error is at the first token
    // past the limit; what is after it is UTF-8, and may have lexical errors.
    ensures many { result ≡ TOO_MANY_TOKENS → IsUtf8 source.now
        × ((span : places.Span) × HasMore [] (chars source.now) max_tokens span
        × (error.new ≡ too_many_tokens_error (chars source.now) span)) }

    // header: The whole source is checked as UTF-8. FIRTHNAPKIN_OUT_OF_MEMORY: there are more, and there was no memory
    // for the error's positions.
    ensures memory { result ≡ OUT_OF_MEMORY → IsUtf8 source.now
        × ((span : places.Span) × HasMore [] (chars source.now) max_tokens span) }

    // header: FIRTHNAPKIN_NOT_UTF8: the source is not UTF-8.
    ensures not_utf8 { result ≡ NOT_UTF8 → ¬ IsUtf8 source.now }

    // header: FIRTHNAPKIN_SOURCE_TOO_LONG: the source has 4 GiB or more.
    ensures too_long { result ≡ SOURCE_TOO_LONG ↔ 2 ^ 32 ≤ length source.now }

    // header: All statuses but FIRTHNAPKIN_TOO_MANY_TOKENS leave the error as it was.
    ensures error_kept { result ≢ TOO_MANY_TOKENS → error.new ≡ error.old }
{
    match count_of(alloc, source, max_tokens) {
        Ok(Counted::Few) => OK,
        Ok(Counted::Many(found)) => {
            *error = found;
            TOO_MANY_TOKENS
        }
        Err(unread) => unread.status(),
    }
}
