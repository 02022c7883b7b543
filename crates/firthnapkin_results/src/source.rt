//! Bytes that a caller gives as a source, and why nothing is known of them.
ghost use Rattle.std.specs.Prelude.{◌≡◌, ◌≢◌, ◌<◌, ◌^◌, length, IfErr, IfOk};
ghost use Rattle.firthnapkin_results.specs.Sources.{IsUnread, unread_status};
ghost use Rattle.firthnapkin_results.specs.declared.source.Unread.TheVariants.{OutOfMemory};

use crate::status::{NOT_UTF8, OUT_OF_MEMORY, SOURCE_TOO_LONG, TOO_LONG_FROM};
use std::alloc::AllocError;

/// Why nothing is known of a source.
#[derive(Clone, Copy)]
pub enum Unread {
    /// The bytes are not UTF-8.
    NotUtf8,
    /// There are 4 GiB or more, and they were not looked at.
    TooLong,
    /// Memory ran out. The bytes are UTF-8.
    OutOfMemory,
}

impl Unread {
    /// The status that a call returns then.
    pub fn status(self) -> u32
        ensures { result ≡ unread_status self }
    {
        match self {
            Unread::NotUtf8 => NOT_UTF8,
            Unread::TooLong => SOURCE_TOO_LONG,
            Unread::OutOfMemory => OUT_OF_MEMORY,
        }
    }
}

impl From<AllocError> for Unread {
    ghost use Rattle.firthnapkin_results.specs.declared.source.Unread.TheVariants.{OutOfMemory};

    ghost from_gives = { λ _ e. e ≡ OutOfMemory };

    fn from(_error: AllocError) -> Unread {
        Unread::OutOfMemory
    }
}

/// The bytes as a text, or why they are not read as one. Takes no memory.
pub(crate) fn text_of(source: &[u8]) -> Result<&str, Unread>
    ensures text { IfOk result (λ text. (text.now ≡ source.now) × (length source.now < 2 ^ 32)) }
    ensures unread { IfErr result (IsUnread source.now) }
    ensures memory { IfErr result (λ unread. unread ≢ OutOfMemory) }
{
    if source.len() >= TOO_LONG_FROM {
        return Err(Unread::TooLong);
    }
    match std::str::from_utf8(source) {
        Ok(text) => Ok(text),
        Err(_) => Err(Unread::NotUtf8),
    }
}
