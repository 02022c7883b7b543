//! What a cursor cuts names from.
ghost use Rattle.std.specs.Prelude.{◌≡◌, ◌-◌, ◌≤◌, List, ℕ, drop, take, length};
ghost use Rattle.std.specs.Str.{chars};
ghost use Rattle.juniper_tokens.specs.device.Offsets.{IsOffset};

use crate::lexer::text::{Offset, text_before, text_from};

/// A source text, of which a part is one too: a `&str`, or a type that keeps more of where a part begins and ends.
pub trait SourceText: Copy {
    // Its characters.
    ghost characters: { Self → List ℕ };

    /// Its characters as a text.
    fn as_str(&self) -> &str
        ensures { chars result.now ≡ characters self.now };

    /// The part from one offset to another.
    fn part(self, start: Offset, end: Offset) -> Self
        requires start { IsOffset start (characters self) }
        requires end { IsOffset end (characters self) }
        requires forward { start.characters ≤ end.characters }
        requires within { end.characters ≤ length (characters self) }
        ensures { characters result ≡ take (end.characters - start.characters) (drop start.characters (characters self)) };
}

impl<'a> SourceText for &'a str {
    ghost use Rattle.std.specs.Str.{chars};

    ghost characters = { λ text. chars text.now };

    fn as_str(&self) -> &str {
        self
    }

    #[inline(always)]
    fn part(self, start: Offset, end: Offset) -> &'a str {
        let size = Offset {
            bytes: end.bytes - start.bytes,
            characters: end.characters - start.characters,
        };
        text_before(text_from(self, start), size)
    }
}
