//! Positions in a source text.
ghost use Rattle.std.specs.Prelude.{◌≡◌, ◌+◌, ◌-◌, ◌<◌, ◌≤◌, ◌^◌, Some};
ghost use Rattle.graphql_lexical.specs.Place.{Place, origin, next_column, next_line};
ghost use Rattle.juniper_tokens.specs.Positions.{columns_on, position_text};

use std::fmt;
use std::marker::Model;

/// A position in a source text, counted in characters and not in bytes.
///
/// A line ends at a line feed alone. All three numbers count from 0. The line plus the column is at most the index.
#[derive(Clone, Copy, Debug, PartialEq, Eq, PartialOrd, Ord, Hash)]
pub struct SourcePosition {
    index: usize,
    line: usize,
    col: usize,
}

impl Model for SourcePosition {
    ghost Value = { Place };

    ghost view = { λ p. record { index = p.index; line = p.line; column = p.col } };

    ghost invariant = { λ p. p.line + p.col ≤ p.index };

    ghost inverse = { λ p. record { index = p.index; line = p.line; col = p.column } };
}

impl SourcePosition {
    /// The position after `index` characters, at column `col` of line `line`.
    pub fn new(index: usize, line: usize, col: usize) -> Self
        requires { line + col ≤ index }
        ensures { result ≡ record { index = index; line = line; column = col } }
    {
        SourcePosition { index, line, col }
    }

    /// The position at which a source begins.
    pub fn new_origin() -> Self
        ensures { result ≡ origin }
    {
        SourcePosition {
            index: 0,
            line: 0,
            col: 0,
        }
    }

    /// Advances past a character that is not a line feed.
    pub fn advance_col(&mut self)
        requires { self.old.index < usize.MAX }
        ensures { self.new ≡ next_column self.old }
    {
        self.index += 1;
        self.col += 1;
    }

    /// Advances past a line feed.
    pub fn advance_line(&mut self)
        requires { self.old.index < usize.MAX }
        ensures { self.new ≡ next_line self.old }
    {
        self.index += 1;
        self.line += 1;
        self.col = 0;
    }

    /// The position `count` characters further on the same line.
    pub(crate) fn columns_on(self, count: usize) -> Self
        requires { self.index + count < 2 ^ 64 }
        ensures { result ≡ columns_on count self }
    {
        SourcePosition {
            index: self.index + count,
            line: self.line,
            col: self.col + count,
        }
    }

    /// The index at which the line of this position begins.
    pub(crate) fn line_start(&self) -> usize
        ensures is { result ≡ self.now.index - self.now.column }
        ensures fits { self.now.line + self.now.column ≤ self.now.index }
    {
        self.index - self.col
    }

    /// The number of characters before this position.
    pub fn index(&self) -> usize
        ensures { result ≡ self.now.index }
    {
        self.index
    }

    /// The number of line feeds before this position.
    pub fn line(&self) -> usize
        ensures { result ≡ self.now.line }
    {
        self.line
    }

    /// The number of characters between the last line feed and this position.
    pub fn column(&self) -> usize
        ensures { result ≡ self.now.column }
    {
        self.col
    }
}

/// Displays the line, a colon and the column, as `2:7`.
impl fmt::Display for SourcePosition {
    ghost output = { λ p. Some (position_text p) };

    fn fmt<W: fmt::Write>(&self, f: &mut fmt::Formatter<W>) -> fmt::Result {
        let line = self.line;
        let col = self.col;
        write!(f, "{line}:{col}")
    }
}
