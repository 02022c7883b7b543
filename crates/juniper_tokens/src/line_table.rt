//! Positions found by the beginnings of lines.
ghost use Rattle.std.specs.Prelude.{◌≡◌, ◌+◌, ◌<◌, ◌≤◌, ◌^◌, List, ℕ, length, IfOk, OnOk};
ghost use Rattle.std.specs.List.{fold};
ghost use Rattle.std.specs.Str.{chars};
ghost use Rattle.graphql_lexical.specs.Place.{place};
ghost use Rattle.juniper_tokens.specs.LineTables.{Lines, lines_of, IsTable, place_within};
ghost use Rattle.juniper_tokens.specs.device.Offsets.{IsOffset};
ghost use Rattle.juniper_tokens.specs.device.LexingByScan.{IsPlaced};
ghost use Rattle.juniper_tokens.specs.device.LineSteps.{made_table, past, AreStarts, CountsLines, HasLines};

use crate::byte_classes::{ByteClass, byte_class};
use crate::lexer::run::{Run, run_over};
use crate::lexer::text::{Offset, text_before, text_from};
use crate::line::{line_of, place_on};
use crate::lists::list_with_capacity;
use crate::position::SourcePosition;
use std::alloc::{AllocError, Global};
use std::marker::Model;

/// The beginnings of a source's lines, as far as it has been read.
#[derive(Drop)]
pub(crate) struct LineStarts {
    // The index of the character at which each line begins.
    starts: Vec<usize>,
    // The offset up to which the characters were looked at. No line begins between it and what has been read.
    at: Offset,
}

impl LineStarts {
    /// The beginning of the first line, when no character of a text has been read.
    pub(crate) fn new(alloc: Global, text: &str) -> Result<Self, AllocError>
        ensures { IfOk result (λ lines. (source : List ℕ) → HasLines source lines 0) }
    {
        // Most texts have fewer lines than one every eight bytes.
        let mut starts = list_with_capacity(alloc, text.len() / 8 + 1);
        starts.push(0)?;
        Ok(LineStarts {
            starts,
            at: Offset::start(),
        })
    }

    /// Reads on to a position of the source, before which there are `at` bytes.
    #[inline(always)]
    pub(crate) fn follow(
        &mut self,
        source: &str,
        at: usize,
        place: SourcePosition,
    ) -> Result<(), AllocError>
        requires placed { IsPlaced source.now at place }
        requires counts { CountsLines (chars source.now) self.old }
        requires before { self.old.at.characters ≤ place.index }
        ensures { OnOk result (HasLines (chars source.now) self.new place.index) }
    {
        let line = place.line();
        let count = self.starts.len();
        if line < count {
            return Ok(());
        }
        if line > count {
            return self.add(source, at, place);
        }
        let here = place.index();
        self.starts.push(here - place.column())?;
        self.at = Offset {
            bytes: at,
            characters: here,
        };
        Ok(())
    }

    // `follow`, if several lines begin.
    #[inline(never)]
    fn add(&mut self, source: &str, at: usize, place: SourcePosition) -> Result<(), AllocError>
        requires placed { IsPlaced source.now at place }
        requires counts { CountsLines (chars source.now) self.old }
        requires before { self.old.at.characters ≤ place.index }
        ensures { OnOk result (HasLines (chars source.now) self.new place.index) }
    {
        push_up_to(&mut self.starts, self.at, source, at, place)?;
        self.at = Offset {
            bytes: at,
            characters: place.index(),
        };
        Ok(())
    }

    /// The table of the source, which has been read up to this position, before which there are `at` bytes.
    pub(crate) fn into_table(
        self,
        source: &str,
        at: usize,
        place: SourcePosition,
    ) -> Result<LineTable, AllocError>
        requires placed { IsPlaced source.now at place }
        requires lines { HasLines (chars source.now) self place.index }
        ensures { IfOk result (λ table. table ≡ lines_of (chars source.now)) }
    {
        let here = Offset {
            bytes: at,
            characters: place.index(),
        };
        let mut lines = self;
        let rest = text_from(source, here);
        lines.at.characters = push_lines(&mut lines.starts, rest, here.characters)?;
        Ok(LineTable { lines })
    }
}

// Adds the beginnings of lines up to a place of the source, before which `at` bytes stand. Those up to `from` are there.
fn push_up_to(
    starts: &mut Vec<usize>,
    from: Offset,
    source: &str,
    at: usize,
    place: SourcePosition,
) -> Result<(), AllocError>
    requires placed { IsPlaced source.now at place }
    requires offset { IsOffset from (chars source.now) }
    requires counted { AreStarts starts.old.items (chars source.now) from.characters }
    requires before { from.characters ≤ place.index }
    ensures { OnOk result (AreStarts starts.new.items (chars source.now) place.index) }
{
    let rest = text_from(source, from);
    let size = Offset {
        bytes: at - from.bytes,
        characters: place.index() - from.characters,
    };
    push_lines(starts, text_before(rest, size), from.characters)?;
    Ok(())
}

// Adds the beginnings of lines in a text, before which `count` characters stand. Returns how many stand after it.
fn push_lines(starts: &mut Vec<usize>, text: &str, count: usize) -> Result<usize, AllocError>
    requires { count + length text.now < 2 ^ 64 }
    ensures { IfOk result (λ after. made_table starts.new.items after ≡ fold past (made_table starts.old.items count) (chars text.now)) }
{
    let bytes = text.as_bytes();
    let first = run_over(Run::Line, bytes);
    let mut after = count + first.characters;
    let mut i = first.bytes;
    while i < bytes.len() {
        match byte_class(bytes[i]) {
            ByteClass::LineFeed => {
                starts.push(after + 1)?;
                let line = run_over(Run::Line, &bytes[i + 1..]);
                after += 1 + line.characters;
                i += 1 + line.bytes;
            }
            ByteClass::Inner => i += 1,
            _ => {
                after += 1;
                i += 1;
            }
        }
    }
    Ok(after)
}

/// A table of the characters at which a source's lines begin. Positions are found by binary search.
#[derive(Drop)]
pub struct LineTable {
    // The lines of the whole source.
    lines: LineStarts,
}

impl Model for LineTable {
    ghost use Rattle.juniper_tokens.specs.LineTables.{Lines, IsTable};

    ghost Value = { Lines };

    ghost view = { λ t. record { starts = t.lines.starts.items; count = t.lines.at.characters } };

    ghost invariant = { λ t. IsTable (record { starts = t.lines.starts.items; count = t.lines.at.characters }) };
}

impl LineTable {
    /// The table of a source. A line ends at a line feed alone.
    ///
    /// Returns `AllocError` if memory runs out: the table takes eight bytes a line.
    pub fn new(alloc: Global, source: &str) -> Result<Self, AllocError>
        ensures { IfOk result (λ table. table ≡ lines_of (chars source.now)) }
    {
        let mut lines = LineStarts::new(alloc, source)?;
        lines.at.characters = push_lines(&mut lines.starts, source, 0)?;
        Ok(LineTable { lines })
    }

    /// The position after `index` characters of the table's source, or None if it has fewer.
    pub fn position(&self, index: usize) -> Option<SourcePosition>
        ensures table { IsTable self.now }
        ensures place { (source : List ℕ) → self.now ≡ lines_of source → result ≡ place_within source index }
    {
        if index > self.lines.at.characters {
            return None;
        }
        Some(self.place(index))
    }

    /// The position after `index` characters of a source that has as many.
    pub(crate) fn place(&self, index: usize) -> SourcePosition
        ensures { (source : List ℕ) → self.now ≡ lines_of source → index ≤ length source → result ≡ place source index }
    {
        let starts: &[usize] = &self.lines.starts;
        place_on(starts, line_of(starts, index), index)
    }

    /// The characters at which the lines begin.
    pub(crate) fn starts(&self) -> &[usize]
        ensures { result.now ≡ self.now.starts }
    {
        &self.lines.starts
    }
}
