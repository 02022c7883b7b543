//! A source's canonical text.
ghost use Rattle.std.specs.Prelude.{◌≡◌, ◌<◌, ◌^◌, length, IfOk};
ghost use Rattle.std.specs.Str.{chars};
ghost use Rattle.juniper_tokens.specs.Errors.{view_lexer_error};
ghost use Rattle.juniper_parser.specs.Promise.{lexical_fault};
ghost use Rattle.firthnapkin_results.specs.CanonicalTexts.{ReturnsCanonical};
ghost use Rattle.firthnapkin_results.specs.Errors.{written_error};
ghost use Rattle.firthnapkin_results.specs.Fits.{PositionFits};

use crate::byte_table::ByteTable;
use crate::error::{Error, lexical_error};
use crate::source::{Unread, text_of};
use juniper_canonical::canonical_text;
use juniper_tokens::{LexFailure, LexerError, SourcePosition};
use std::alloc::{AllocError, Global};

/// A source's canonical text, or why there is none.
#[derive(Drop)]
pub enum Canonical {
    /// The source's tokens as they are written, with the spaces that keep them apart.
    Text(String),
    /// The source has a lexical error, and this is the first.
    Refused(Error),
}

/// Returns the canonical text of a source, or its first lexical error. Nothing is known if the bytes aren't UTF-8 or
/// are 4 GiB or more, or if memory runs out.
pub fn canonical_of(alloc: Global, source: &[u8]) -> Result<Canonical, Unread>
    ensures { ReturnsCanonical source.now result }
{
    canonical_of_text(alloc, text_of(source)?)
}

fn canonical_of_text(alloc: Global, text: &str) -> Result<Canonical, Unread>
    requires { length text.now < 2 ^ 32 }
    ensures { ReturnsCanonical text.now result }
{
    match canonical_text(alloc, text) {
        Ok(written) => Ok(Canonical::Text(written)),
        Err(LexFailure::Fault(error)) => {
            let found = reported(alloc, text, &error.item, error.span.start)?;
            Ok(Canonical::Refused(found))
        }
        Err(LexFailure::Memory) => Err(Unread::OutOfMemory),
    }
}

// The error of a text with this lexical error there.
fn reported(
    alloc: Global,
    text: &str,
    error: &LexerError,
    at: SourcePosition,
) -> Result<Error, AllocError>
    requires { length text.now < 2 ^ 32 }
    ensures { IfOk result (λ found. PositionFits at
        → found ≡ written_error (chars text.now) (lexical_fault (view_lexer_error error.now) at)) }
{
    let table = ByteTable::new(alloc, text)?;
    Ok(lexical_error(&table, error, at))
}
