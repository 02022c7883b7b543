//! Items with the part of the source that they take up.
ghost use Rattle.std.specs.Prelude.{◌≡◌, ◌+◌, ◌<◌, Some, None, MatchOption, IfSome, option_map};
ghost use Rattle.graphql_lexical.specs.Place.{next_column};
ghost use Rattle.juniper_tokens.specs.Spans.{origin_span, covering_span};

use crate::position::SourcePosition;
use std::fmt;

/// The part of a source from `start` to `end`.
#[derive(Clone, Copy, Debug, PartialEq, Eq, Hash)]
pub struct Span {
    /// The position before the first character.
    pub start: SourcePosition,
    /// The position after the last character.
    pub end: SourcePosition,
}

impl Span {
    /// An empty span at `pos`.
    pub fn zero_width(pos: SourcePosition) -> Self
        ensures { result ≡ record { start = pos; end = pos } }
    {
        Span {
            start: pos,
            end: pos,
        }
    }

    /// The span of one character at `pos` that is not a line feed.
    pub fn single_width(pos: SourcePosition) -> Self
        requires { pos.index < usize.MAX }
        ensures { result ≡ record { start = pos; end = next_column pos } }
    {
        let mut end = pos;
        end.advance_col();
        Span { start: pos, end }
    }

    /// An empty span at the beginning of a source, for what is in no source.
    pub fn unlocated() -> Self
        ensures { result ≡ origin_span }
    {
        let origin = SourcePosition::new_origin();
        Span {
            start: origin,
            end: origin,
        }
    }
}

/// An item and the part of the source that it takes up.
#[derive(Clone, Copy, Debug, Drop, PartialEq, Eq, Hash)]
pub struct Spanning<T> {
    pub item: T,
    pub span: Span,
}

impl<T> Spanning<T> {
    /// An item with its span.
    pub fn new(span: Span, item: T) -> Spanning<T>
        ensures { result ≡ record { item = item; span = span } }
    {
        Spanning { item, span }
    }

    /// An item with an empty span at `pos`.
    pub fn zero_width(pos: &SourcePosition, item: T) -> Spanning<T>
        ensures { result ≡ record { item = item; span = record { start = pos.now; end = pos.now } } }
    {
        Spanning {
            item,
            span: Span::zero_width(*pos),
        }
    }

    /// An item with the span of one character at `pos` that is not a line feed.
    pub fn single_width(pos: &SourcePosition, item: T) -> Spanning<T>
        requires { pos.now.index < usize.MAX }
        ensures { result ≡ record { item = item; span = record { start = pos.now; end = next_column pos.now } } }
    {
        Spanning {
            item,
            span: Span::single_width(*pos),
        }
    }

    /// An item with the span from `start` to `end`.
    pub fn start_end(start: &SourcePosition, end: &SourcePosition, item: T) -> Spanning<T>
        ensures { result ≡ record { item = item; span = record { start = start.now; end = end.now } } }
    {
        Spanning {
            item,
            span: Span {
                start: *start,
                end: *end,
            },
        }
    }

    /// An item that is in no source, with the span `Span::unlocated`.
    pub fn unlocated(item: T) -> Spanning<T>
        ensures { result ≡ record { item = item; span = origin_span } }
    {
        Spanning {
            item,
            span: Span::unlocated(),
        }
    }

    /// The items, with the span from the first one's start to the last one's end, or None if there are no items.
    pub fn spanning(v: Vec<Spanning<T>>) -> Option<Spanning<Vec<Spanning<T>>>>
    where
        T: Drop,
        ensures span { option_map (λ s. s.span) result ≡ covering_span v.items }
        ensures items { IfSome result (λ s. s.item ≡ v) }
    {
        let (start, end) = match (v.first(), v.last()) {
            (Some(first), Some(last)) => (first.span.start, last.span.end),
            _ => return None,
        };
        Some(Spanning {
            item: v,
            span: Span { start, end },
        })
    }

    /// The position at which the item starts.
    pub fn start(&self) -> SourcePosition
        ensures { result ≡ self.now.span.start }
    {
        self.span.start
    }

    /// The position at which the item ends: after its last character.
    pub fn end(&self) -> SourcePosition
        ensures { result ≡ self.now.span.end }
    {
        self.span.end
    }

    /// Applies `f` to the item, and keeps the span.
    pub fn map<O, F: Fn(T) -> O>(self, f: F) -> Spanning<O>
        requires { F.pre f self.item }
        ensures item { F.post f self.item result.item }
        ensures span { result.span ≡ self.span }
    {
        Spanning {
            item: f(self.item),
            span: self.span,
        }
    }

    /// Applies `f` to the item, and keeps the span. Returns None if `f` does.
    pub fn and_then<O, F: Fn(T) -> Option<O>>(self, f: F) -> Option<Spanning<O>>
        requires { F.pre f self.item }
        ensures { MatchOption result (F.post f self.item None) (λ s. F.post f self.item (Some s.item) × (s.span ≡ self.span)) }
    {
        let item = f(self.item)?;
        Some(Spanning {
            item,
            span: self.span,
        })
    }
}

/// Displays the item, `. At ` and the start's line and column from 0, as `Unexpected "}". At 0:2`.
impl<T: fmt::Display + Drop> fmt::Display for Spanning<T> {
    ghost use Rattle.juniper_tokens.specs.SpanningText.{spanning_text};

    ghost output = { λ s. spanning_text (T.output s.item) s.span.start };

    fn fmt<W: fmt::Write>(&self, f: &mut fmt::Formatter<W>) -> fmt::Result {
        let item = &self.item;
        let start = self.span.start;
        write!(f, "{item}. At {start}")
    }
}
