//! A limit on the number of tokens.
ghost use Rattle.std.specs.Prelude.{◌≡◌, ◌<◌, ◌^◌, length, IfOk};
ghost use Rattle.std.specs.Str.{chars};
ghost use Rattle.juniper_tokens.specs.Spans.{view_span};
ghost use Rattle.firthnapkin_results.specs.Errors.{too_many_tokens_error};
ghost use Rattle.firthnapkin_results.specs.Fits.{SpanFits};
ghost use Rattle.firthnapkin_results.specs.TokenCounts.{ReturnsCounted};

use crate::byte_table::ByteTable;
use crate::error::{Error, too_many_tokens_error};
use crate::source::{Unread, text_of};
use juniper_tokens::{Span, first_token_past};
use std::alloc::{AllocError, Global};

/// Whether a source has more tokens than a limit.
#[derive(Clone, Copy)]
pub enum Counted {
    /// No more than the limit are before the source's end, or before its first lexical error.
    Few,
    /// There are more; the error is at the first token past the limit.
    Many(Error),
}

/// Returns whether a source has more tokens than the limit, besides its end. The source is read up to the first token
/// past the limit, or to its first lexical error. Nothing is known if the bytes aren't UTF-8 or are 4 GiB or more.
/// Memory is taken for the position of the error alone, and if it runs out, nothing is known.
pub fn count_of(alloc: Global, source: &[u8], most: u32) -> Result<Counted, Unread>
    ensures { ReturnsCounted source.now most result }
{
    count_of_text(alloc, text_of(source)?, most)
}

fn count_of_text(alloc: Global, text: &str, most: u32) -> Result<Counted, Unread>
    requires { length text.now < 2 ^ 32 }
    ensures { ReturnsCounted text.now most result }
{
    match first_token_past(alloc, text, most as usize) {
        None => Ok(Counted::Few),
        Some(span) => Ok(Counted::Many(reported(alloc, text, span)?)),
    }
}

// The error of a text that has too many tokens, the first of which has this span.
fn reported(alloc: Global, text: &str, span: Span) -> Result<Error, AllocError>
    requires { length text.now < 2 ^ 32 }
    ensures { IfOk result (λ error. SpanFits (view_span span)
        → error ≡ too_many_tokens_error (chars text.now) (view_span span)) }
{
    let table = ByteTable::new(alloc, text)?;
    Ok(too_many_tokens_error(&table, span))
}
