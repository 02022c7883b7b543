//! Byte offsets of characters.
ghost use Rattle.std.specs.Prelude.{◌≡◌, ◌+◌, ◌<◌, ◌≤◌, ◌^◌, ◌↔◌, not, length, IfOk, IsTrue};
ghost use Rattle.std.specs.Str.{chars};
ghost use Rattle.juniper_tokens.specs.device.ByteRuns.{is_inner};
ghost use Rattle.firthnapkin_results.specs.ByteTables.{byte_in, IsTableOf, AreAscii, HasStarts};

use std::alloc::{AllocError, Global};
use std::simd::prelude::*;

// So many bytes are looked at together.
const STRETCH: usize = 16;

/// A table of the bytes at which the characters of a text begin.
#[derive(Drop)]
pub(crate) struct ByteTable {
    // The first byte of each character; None where each character is one byte.
    starts: Option<Vec<u32>>,
    // The number of bytes of the text.
    length: u32,
}

impl ByteTable {
    /// The table of a text. Takes no memory if the text is ASCII.
    pub(crate) fn new(alloc: Global, source: &str) -> Result<Self, AllocError>
        requires { length source.now < 2 ^ 32 }
        ensures { IfOk result (λ table. IsTableOf (chars source.now) table) }
    {
        let length = source.len() as u32;
        if source.is_ascii() {
            return Ok(ByteTable {
                starts: None,
                length,
            });
        }
        let mut starts = Vec::with_capacity(alloc, source.len())?;
        let bytes = source.as_bytes();
        let rest = push_stretches(&mut starts, bytes);
        push_starts(&mut starts, bytes, rest, bytes.len());
        Ok(ByteTable {
            starts: Some(starts),
            length,
        })
    }

    /// The number of bytes before the character of this index, or of all bytes if there is none.
    #[inline(always)]
    pub(crate) fn byte(&self, index: usize) -> u32
        ensures { result ≡ byte_in self.now index }
    {
        match &self.starts {
            None => index.min(self.length as usize) as u32,
            Some(starts) => match starts.get(index) {
                Some(start) => *start,
                None => self.length,
            },
        }
    }
}

// Appends where the characters of all whole stretches begin, and returns the place after these.
#[inline(always)]
fn push_stretches(starts: &mut Vec<u32>, bytes: &[u8]) -> usize
    requires short { length bytes.now < 2 ^ 32 }
    requires begun { HasStarts bytes.now 0 starts.old }
    ensures within { result ≤ length bytes.now }
    ensures rest { length bytes.now < result + STRETCH }
    ensures begun { HasStarts bytes.now result starts.new }
{
    let mut at = 0;
    while bytes.len() - at >= STRETCH {
        if are_ascii(bytes, at) {
            push_all(starts, bytes, at);
        } else {
            push_starts(starts, bytes, at, at + STRETCH);
        }
        at += STRETCH;
    }
    at
}

// Whether the bytes of a stretch are ASCII.
#[inline(always)]
fn are_ascii(bytes: &[u8], at: usize) -> bool
    requires { at + STRETCH ≤ length bytes.now }
    ensures { IsTrue result ↔ AreAscii bytes.now at (at + STRETCH) }
{
    let high = u8x16::from_slice(&bytes[at..]).simd_ge(u8x16::splat(0x80));
    high.to_bitmask() == 0
}

// Appends each place of a stretch that is ASCII.
#[inline(always)]
fn push_all(starts: &mut Vec<u32>, bytes: &[u8], from: usize)
    requires within { from + STRETCH ≤ length bytes.now }
    requires short { length bytes.now < 2 ^ 32 }
    requires ascii { AreAscii bytes.now from (from + STRETCH) }
    requires begun { HasStarts bytes.now from starts.old }
    ensures { HasStarts bytes.now (from + STRETCH) starts.new }
{
    for more in 0..STRETCH {
        starts.push_reserved((from + more) as u32);
    }
}

// Appends those places at which a character begins.
#[inline(always)]
fn push_starts(starts: &mut Vec<u32>, bytes: &[u8], from: usize, to: usize)
    requires forward { from ≤ to }
    requires within { to ≤ length bytes.now }
    requires short { length bytes.now < 2 ^ 32 }
    requires begun { HasStarts bytes.now from starts.old }
    ensures { HasStarts bytes.now to starts.new }
{
    for at in from..to {
        if begins_character(bytes[at]) {
            starts.push_reserved(at as u32);
        }
    }
}

// Whether a byte of a text is the first one of a character.
fn begins_character(byte: u8) -> bool
    ensures { result ≡ not (is_inner byte) }
{
    byte < 0x80 || 0xc0 <= byte
}
