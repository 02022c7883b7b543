//! The bytes at which the characters of a source begin.
ghost use Rattle.std.specs.Prelude.{◌≡◌, ◌<◌, ◌≤◌, ◌∷◌, [], ℕ, List, IfOk, IfSome, MatchOption, length};
ghost use Rattle.std.specs.Str.{chars, IsUtf8};
ghost use Rattle.juniper_requests.specs.Bytes.{byte_offset};
ghost use Rattle.juniper_requests.specs.device.Offsets.{IsWithin, AreWithin, BeginsFirst};

use juniper_tokens::Offset;
use std::alloc::{AllocError, Global};
use std::marker::Model;

/// The byte at which the character of this index begins, or the number of all bytes if `index` is the number of all
/// characters. None if the source has fewer. So with those of a span's start and end, the span's text is
/// `&source[start..end]`.
///
/// Goes over the characters before it; `ByteTable::byte_offset` goes over those of one line.
pub fn byte_offset(source: &str, index: usize) -> Option<usize>
    ensures { result ≡ byte_offset (chars source.now) index }
{
    let mut rest = source;
    for _i in 0..index {
        let (_, after) = first_and_rest(rest)?;
        rest = after;
    }
    Some(source.len() - rest.len())
}

// The first character, and the text after it, or None.
fn first_and_rest(text: &str) -> Option<(char, &str)>
    ensures parts { MatchOption result (chars text.now ≡ []) (λ p. chars text.now ≡ p.0 ∷ chars p.1.now) }
    ensures shorter { IfSome result (λ p. length p.1.now < length text.now) }
    ensures utf8 { IfSome result (λ p. IsUtf8 p.1.now) }
{
    let mut rest = text.chars();
    let first = rest.next()?;
    Some((first, rest.as_str()))
}

/// A table of the bytes and the characters at which a source's lines begin.
#[derive(Drop)]
pub struct ByteTable<'a> {
    source: &'a str,
    // Where each line begins.
    lines: Vec<Offset>,
}

impl<'a> Model for ByteTable<'a> {
    ghost use Rattle.std.specs.Prelude.{List, ℕ};
    ghost use Rattle.std.specs.Str.{chars};
    ghost use Rattle.juniper_requests.specs.device.Offsets.{AreWithin, BeginsFirst};

    ghost Value = { List ℕ };

    ghost view = { λ t. chars t.source.now };

    ghost invariant = { λ t. BeginsFirst t.lines.items × AreWithin (chars t.source.now) t.lines.items };
}

impl<'a> ByteTable<'a> {
    /// The table of a source. Returns `AllocError` if memory runs out: the table takes sixteen bytes a line.
    pub fn new(alloc: Global, source: &'a str) -> Result<Self, AllocError>
        ensures { IfOk result (λ table. table ≡ chars source.now) }
    {
        let mut here = Offset {
            bytes: 0,
            characters: 0,
        };
        let mut lines = Vec::new(alloc);
        lines.push(here)?;
        let mut rest = source;
        while let Some((c, after)) = first_and_rest(rest) {
            rest = after;
            here.bytes = source.len() - rest.len();
            here.characters += 1;
            if c == '\n' {
                lines.push(here)?;
            }
        }
        Ok(ByteTable { source, lines })
    }

    /// What the function `byte_offset` returns of the table's source, in the time of a binary search for the line and
    /// of going over the line.
    pub fn byte_offset(&self, index: usize) -> Option<usize>
        ensures { result ≡ byte_offset self.now index }
    {
        offset_from(self.source, line_before(&self.lines, index), index)
    }
}

// What `byte_offset` returns, if this offset is before the character.
fn offset_from(source: &str, before: Offset, index: usize) -> Option<usize>
    requires within { IsWithin (chars source.now) before }
    requires forward { before.characters ≤ index }
    ensures { result ≡ byte_offset (chars source.now) index }
{
    let rest = &source[before.bytes..];
    let further = byte_offset(rest, index - before.characters)?;
    Some(before.bytes + further)
}

// Where the last line begins that begins at this character or before it.
fn line_before(lines: &[Offset], index: usize) -> Offset
    requires { BeginsFirst lines.now }
    ensures within { (source : List ℕ) → AreWithin source lines.now → IsWithin source result }
    ensures before { result.characters ≤ index }
{
    let mut low = 0;
    let mut high = lines.len();
    while high - low > 1 {
        let middle = low + (high - low) / 2;
        if lines[middle].characters <= index {
            low = middle;
        } else {
            high = middle;
        }
    }
    lines[low]
}
