//! Positions in a source, with their bytes.
ghost use Rattle.std.specs.Prelude.{◌≡◌, ◌+◌, ◌<◌, ◌≤◌, ◌^◌};
ghost use Rattle.graphql_lexical.specs.Place.{origin, next_column, next_line};
ghost use Rattle.juniper_tokens.specs.Positions.{columns_on};

use crate::lexer::text::Offset;
use crate::position::SourcePosition;
use std::marker::Model;

/// A position in a source, and how many bytes are before it.
///
/// On a line of ASCII, only the number of bytes changes from one position to the next. The index and the column are
/// differences.
#[derive(Clone, Copy)]
pub(crate) struct BytePosition {
    bytes: usize,
    // How many of these bytes continue a character.
    inner: usize,
    line: usize,
    // The index at which the line begins.
    line_start: usize,
}

impl Model for BytePosition {
    ghost use Rattle.std.specs.Prelude.{◌-◌};
    ghost use Rattle.juniper_tokens.specs.device.BytePlaces.{BytePlace, IsBytePlace};

    ghost Value = { BytePlace };

    ghost view = { λ p. record { byte = p.bytes; place = record { index = p.bytes - p.inner; line = p.line; column = (p.bytes - p.inner) - p.line_start } } };

    ghost invariant = { λ p. IsBytePlace p.bytes p.inner p.line p.line_start };

    ghost inverse = { λ v. record { bytes = v.byte; inner = v.byte - v.place.index; line = v.place.line; line_start = v.place.index - v.place.column } };
}

impl BytePosition {
    /// The beginning of a source.
    pub(crate) fn origin() -> Self
        ensures { result ≡ record { byte = 0; place = origin } }
    {
        BytePosition {
            bytes: 0,
            inner: 0,
            line: 0,
            line_start: 0,
        }
    }

    /// A position, if this many bytes are before it.
    pub(crate) fn new(bytes: usize, position: SourcePosition) -> Self
        requires { position.index ≤ bytes }
        ensures { result ≡ record { byte = bytes; place = position } }
    {
        BytePosition {
            bytes,
            inner: bytes - position.index(),
            line: position.line(),
            line_start: position.line_start(),
        }
    }

    /// How many bytes are before it.
    #[inline(always)]
    pub(crate) fn bytes(&self) -> usize
        ensures { result ≡ self.now.byte }
    {
        self.bytes
    }

    /// How many bytes and how many characters are before it.
    #[inline(always)]
    pub(crate) fn offset(&self) -> Offset
        ensures { result ≡ record { bytes = self.now.byte; characters = self.now.place.index } }
    {
        Offset {
            bytes: self.bytes,
            characters: self.bytes - self.inner,
        }
    }

    /// The position alone.
    #[inline(always)]
    pub(crate) fn position(&self) -> SourcePosition
        ensures { result ≡ self.now.place }
    {
        let index = self.bytes - self.inner;
        SourcePosition::new(index, self.line, index - self.line_start)
    }

    /// The position after one more ASCII character, which is no line feed.
    #[inline(always)]
    pub(crate) fn past_column(self) -> Self
        requires { self.byte + 1 < 2 ^ 64 }
        ensures { result ≡ record { byte = self.byte + 1; place = next_column self.place } }
    {
        BytePosition {
            bytes: self.bytes + 1,
            inner: self.inner,
            line: self.line,
            line_start: self.line_start,
        }
    }

    /// The position after a line feed.
    #[inline(always)]
    pub(crate) fn past_line_feed(self) -> Self
        requires { self.byte + 1 < 2 ^ 64 }
        ensures { result ≡ record { byte = self.byte + 1; place = next_line self.place } }
    {
        let bytes = self.bytes + 1;
        BytePosition {
            bytes,
            inner: self.inner,
            line: self.line + 1,
            line_start: bytes - self.inner,
        }
    }

    /// The position after more of its line.
    #[inline(always)]
    pub(crate) fn past(self, run: Offset) -> Self
        requires fewer { run.characters ≤ run.bytes }
        requires fits { self.byte + run.bytes < 2 ^ 64 }
        ensures { result ≡ record { byte = self.byte + run.bytes; place = columns_on run.characters self.place } }
    {
        BytePosition {
            bytes: self.bytes + run.bytes,
            inner: self.inner + (run.bytes - run.characters),
            line: self.line,
            line_start: self.line_start,
        }
    }
}
