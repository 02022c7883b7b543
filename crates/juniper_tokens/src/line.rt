//! A line of a source, and the line that a character is on.
ghost use Rattle.std.specs.Prelude.{◌≡◌, ◌+◌, ◌<◌, ◌≤◌, List, ℕ, length};
ghost use Rattle.graphql_lexical.specs.Place.{place};
ghost use Rattle.juniper_tokens.specs.LineTables.{lines_of, StartLines, IsOnLine};
ghost use Rattle.juniper_tokens.specs.device.LineSteps.{IsLine, IsBefore};

use crate::position::SourcePosition;

/// A line of a source: its number, the character at which it begins, and the one at which the next line begins. The last line
/// has no end, and the greatest number in its place.
#[derive(Clone, Copy)]
pub(crate) struct Line {
    pub(crate) number: usize,
    pub(crate) start: usize,
    pub(crate) end: usize,
}

impl Line {
    /// The line of this number, of those that begin at these characters.
    #[inline(always)]
    pub(crate) fn new(starts: &[usize], number: usize) -> Self
        requires { number < length starts.now }
        ensures line { IsLine starts.now result }
        ensures number { result.number ≡ number }
    {
        let end = match starts.get(number + 1) {
            Some(next) => *next,
            None => usize::MAX,
        };
        Line {
            number,
            start: starts[number],
            end,
        }
    }

    /// Goes on to the line of a character that isn't before the end of this line: to the next one, or beyond by
    /// halving.
    #[inline(always)]
    pub(crate) fn follow(&mut self, starts: &[usize], index: usize)
        requires starts { StartLines starts.now }
        requires line { IsLine starts.now self.old }
        requires after { self.old.end ≤ index }
        ensures line { IsLine starts.now self.new }
        ensures on { IsOnLine starts.now index self.new.number self.new.start }
    {
        if self.number + 1 < starts.len() {
            *self = Line::new(starts, self.number + 1);
        }
        if index >= self.end {
            self.find(starts, index);
        }
    }

    // Goes to the line of a character. It is out of line, as few tokens stand several lines after the one before.
    #[cold]
    #[inline(never)]
    fn find(&mut self, starts: &[usize], index: usize)
        requires { StartLines starts.now }
        ensures line { IsLine starts.now self.new }
        ensures on { IsOnLine starts.now index self.new.number self.new.start }
    {
        *self = line_of(starts, index);
    }
}

/// The line on which the next token begins, and an earlier line, or the same: the one on which a token began before
/// that line was reached.
#[derive(Clone, Copy)]
pub(crate) struct NearLines {
    pub(crate) line: Line,
    pub(crate) earlier: Line,
}

impl NearLines {
    /// Goes on to the line of a character that isn't before this line.
    #[inline(always)]
    pub(crate) fn follow(&mut self, starts: &[usize], index: usize)
        requires starts { StartLines starts.now }
        requires line { IsLine starts.now self.old.line }
        requires earlier { IsLine starts.now self.old.earlier }
        requires from { self.old.line.start ≤ index }
        ensures line { IsLine starts.now self.new.line }
        ensures on { IsOnLine starts.now index self.new.line.number self.new.line.start }
        ensures earlier { IsLine starts.now self.new.earlier }
        ensures not_after { (k : ℕ) → self.old.line.start ≤ k → self.old.earlier.start ≤ k → self.new.earlier.start ≤ k }
    {
        if index >= self.line.end {
            self.earlier = self.line;
            self.line.follow(starts, index);
        }
    }

    /// The position after `index` characters of a source, before the end of this line and not before the earlier one:
    /// on one of the two, or on a line between them, which is searched for.
    #[inline(always)]
    pub(crate) fn place_back(self, starts: &[usize], index: usize) -> SourcePosition
        requires starts { StartLines starts.now }
        requires line { IsLine starts.now self.line }
        requires before { IsBefore starts.now index (self.line.number + 1) }
        requires earlier { IsLine starts.now self.earlier }
        requires from { self.earlier.start ≤ index }
        ensures { (source : List ℕ) → starts.now ≡ (lines_of source).starts → index ≤ length source → result ≡ place source index }
    {
        if index >= self.line.start {
            place_on(starts, self.line, index)
        } else if index < self.earlier.end {
            place_on(starts, self.earlier, index)
        } else {
            place_on(starts, line_of(starts, index), index)
        }
    }
}

/// The line that a character is on, looked for from the line of this number on.
pub(crate) fn line_near(starts: &[usize], number: usize, index: usize) -> Line
    requires starts { StartLines starts.now }
    requires number { number < length starts.now }
    ensures line { IsLine starts.now result }
    ensures on { IsOnLine starts.now index result.number result.start }
{
    let mut line = Line::new(starts, number);
    if index < line.start {
        return line_of(starts, index);
    }
    if index >= line.end {
        line.follow(starts, index);
    }
    line
}

/// The line that a character is on, found by binary search.
pub(crate) fn line_of(starts: &[usize], index: usize) -> Line
    requires { StartLines starts.now }
    ensures line { IsLine starts.now result }
    ensures on { IsOnLine starts.now index result.number result.start }
{
    let mut low = 0;
    let mut high = starts.len();
    while high - low > 1 {
        let middle = low + (high - low) / 2;
        if starts[middle] <= index {
            low = middle;
        } else {
            high = middle;
        }
    }
    Line::new(starts, low)
}

/// The position after `index` characters of a source, on this line. `starts` has the characters at which the source's
/// lines begin.
#[inline(always)]
pub(crate) fn place_on(starts: &[usize], line: Line, index: usize) -> SourcePosition
    requires starts { StartLines starts.now }
    requires line { IsOnLine starts.now index line.number line.start }
    ensures { (source : List ℕ) → starts.now ≡ (lines_of source).starts → index ≤ length source → result ≡ place source index }
{
    SourcePosition::new(index, line.number, index - line.start)
}
