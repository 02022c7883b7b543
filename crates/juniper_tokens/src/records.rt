//! The tokens of a parser, and where a cursor over them stands.
use crate::line::{Line, NearLines};
use crate::token_range::TokenRange;

/// The tokens of a parser, in order.
#[derive(Drop)]
pub(crate) struct TokenRecords<'p> {
    pub(crate) ranges: &'p [TokenRange],
    // The characters at which the lines of the source begin.
    pub(crate) starts: &'p [usize],
    // The line on which the next token begins, and one before the end of the token that was taken last.
    pub(crate) lines: NearLines,
}

impl<'p> TokenRecords<'p> {
    /// No tokens.
    pub(crate) fn none() -> Self {
        let line = Line {
            number: 0,
            start: 0,
            end: 0,
        };
        TokenRecords {
            ranges: &[],
            starts: &[],
            lines: NearLines {
                line,
                earlier: line,
            },
        }
    }

    /// How many tokens there are after the first `taken` ones.
    pub(crate) fn expected(&self, taken: usize) -> usize {
        self.ranges.len().saturating_sub(taken)
    }
}
