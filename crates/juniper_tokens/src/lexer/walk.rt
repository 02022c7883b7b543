//! The loops over a text.
ghost use Rattle.std.specs.Prelude.{◌≡◌, ◌+◌, ◌<◌, ◌≤◌, ◌^◌, length, take, drop, true};
ghost use Rattle.std.specs.List.{fold};
ghost use Rattle.std.specs.Str.{chars};
ghost use Rattle.graphql_lexical.specs.declared.state.State.TheVariants.{Start};
ghost use Rattle.graphql_lexical.specs.device.Machines.{reach};
ghost use Rattle.graphql_lexical.specs.Place.{past_character};
ghost use Rattle.graphql_lexical.specs.device.Scan.{ignored_size, step as next_state};
ghost use Rattle.juniper_tokens.specs.device.Offsets.{IsOffset};
ghost use Rattle.juniper_tokens.specs.device.LexingByScan.{IsPlaced, begins_with_mark};
ghost use Rattle.juniper_tokens.specs.declared.lexer.run.Run.TheVariants.{Comment};
ghost use Rattle.juniper_tokens.specs.device.Walks.{EndsIgnored, IsInIgnored, PassesSpaces, RunsTo, StaysOver, WalkedToken, first_class, never_ignored};

use crate::byte_classes::{ByteClass, byte_class};
use crate::byte_position::BytePosition;
use crate::lexer::machine::step;
use crate::lexer::run::{Run, run_over};
use crate::lexer::text::{Offset, begins_with_mark, first_characters, text_from};
use crate::position::SourcePosition;
use graphql_lexical::{Block, State};

/// The end of ignored tokens.
#[derive(Clone, Copy)]
pub(crate) struct IgnoredEnd {
    pub(crate) end: BytePosition,
    /// The class of the byte there, or of a zero byte at the end.
    pub(crate) class: ByteClass,
}

/// The offset at which the steps of a token stop, and their state there.
#[derive(Clone, Copy)]
pub(crate) struct Reached {
    pub(crate) state: State,
    pub(crate) end: Offset,
}

/// Skips the ignored tokens at a position of a source.
#[inline(always)]
pub(crate) fn walk_ignored(source: &str, start: BytePosition) -> IgnoredEnd
    requires { IsPlaced source.now start.byte start.place }
    ensures { EndsIgnored source.now start.place.index result.end result.class }
{
    let bytes = source.as_bytes();
    let mut here = start;
    while here.bytes() < bytes.len() {
        let class = byte_class(bytes[here.bytes()]);
        match class {
            ByteClass::White => here = here.past_column(),
            ByteClass::LineFeed => here = past_line_feed(bytes, here),
            ByteClass::Hash => {
                let comment = over_comment(&bytes[here.bytes() + 1..]);
                here = here.past_column().past(comment);
            }
            ByteClass::Lead => {
                if !is_mark_at(source, here.offset()) {
                    return IgnoredEnd { end: here, class };
                }
                here = here.past(Offset {
                    bytes: 3,
                    characters: 1,
                });
            }
            _ => {
                return IgnoredEnd { end: here, class };
            }
        }
    }
    IgnoredEnd {
        end: here,
        class: ByteClass::Control,
    }
}

/// Skips white space, commas and line ends, which most ignored tokens are.
///
/// It is a loop of its own, so that the code for the most frequent tokens stays small.
#[inline(always)]
pub(crate) fn walk_blanks(source: &str, start: BytePosition) -> IgnoredEnd
    requires { IsPlaced source.now start.byte start.place }
    ensures ignored { IsInIgnored source.now start.place.index result.end }
    ensures class { result.class ≡ first_class (drop result.end.place.index (chars source.now)) }
    ensures ends { never_ignored result.class ≡ true → ignored_size (drop result.end.place.index (chars source.now)) ≡ 0 }
{
    let bytes = source.as_bytes();
    let mut here = start;
    while here.bytes() < bytes.len() {
        let class = byte_class(bytes[here.bytes()]);
        match class {
            ByteClass::White => here = here.past_column(),
            ByteClass::LineFeed => here = past_line_feed(bytes, here),
            _ => {
                return IgnoredEnd { end: here, class };
            }
        }
    }
    IgnoredEnd {
        end: here,
        class: ByteClass::Control,
    }
}

// The position after a line feed and the spaces that follow it.
#[inline(always)]
fn past_line_feed(bytes: &[u8], here: BytePosition) -> BytePosition
    requires { here.byte < length bytes.now }
    ensures { PassesSpaces (drop (here.byte + 1) bytes.now) here result }
{
    let spaces = run_over(Run::Spaces, &bytes[here.bytes() + 1..]);
    here.past_line_feed().past(spaces)
}

// The size of the rest of a comment, with which these bytes begin. Few requests have comments, so the code for them
// stands out of the way.
#[inline]
fn over_comment(bytes: &[u8]) -> Offset
    ensures runs { RunsTo Comment bytes.now result }
    ensures within { result.bytes ≤ length bytes.now }
    ensures fewer { result.characters ≤ result.bytes }
{
    run_over(Run::Comment, bytes)
}

// Whether a byte order mark stands at this offset.
#[cold]
fn is_mark_at(source: &str, here: Offset) -> bool
    requires { IsOffset here (chars source.now) }
    ensures { result ≡ begins_with_mark (drop here.characters (chars source.now)) }
{
    begins_with_mark(text_from(source, here))
}

// The offset after the characters that stand for themselves in a string or in a block string.
#[inline(always)]
fn walk_run(state: State, bytes: &[u8]) -> Offset
    ensures stays { StaysOver state bytes.now result }
    ensures within { result.bytes ≤ length bytes.now }
    ensures fewer { result.characters ≤ result.bytes }
{
    match state {
        State::InString => run_over(Run::Plain, bytes),
        State::InBlock(part) => match part {
            Block::Inside => run_over(Run::Block, bytes),
            _ => Offset::start(),
        },
        _ => Offset::start(),
    }
}

/// Follows the steps of a token as far as they go.
pub(crate) fn walk_token(text: &str) -> Reached
    ensures reached { reach next_state Start (chars text.now) ≡ (result.end.characters, result.state) }
    ensures offset { IsOffset result.end (chars text.now) }
    ensures within { result.end.characters ≤ length text.now }
{
    walk_on(text, State::Start, Offset::start())
}

/// Follows the steps of a token as far as they go, from an offset on up to which they were followed, to this state.
pub(crate) fn walk_on(text: &str, from: State, start: Offset) -> Reached
    requires walked { WalkedToken text.now start.bytes from start.characters }
    requires fewer { start.characters ≤ start.bytes }
    ensures reached { reach next_state Start (chars text.now) ≡ (result.end.characters, result.state) }
    ensures offset { IsOffset result.end (chars text.now) }
    ensures within { result.end.characters ≤ length text.now }
{
    let bytes = text.as_bytes();
    let mut state = from;
    let mut characters = start.characters;
    let mut i = start.bytes;
    while i < bytes.len() {
        if byte_class(bytes[i]).is_inner() {
            i += 1;
            continue;
        }
        match step(state, bytes[i]) {
            Some(next) => {
                let run = walk_run(next, &bytes[i + 1..]);
                state = next;
                characters += 1 + run.characters;
                i += 1 + run.bytes;
            }
            None => {
                return Reached {
                    state,
                    end: Offset {
                        bytes: i,
                        characters,
                    },
                };
            }
        }
    }
    Reached {
        state,
        end: Offset {
            bytes: i,
            characters,
        },
    }
}

/// The position at the end of a text that begins at `start`.
pub(crate) fn walk_text(text: &str, start: SourcePosition) -> SourcePosition
    requires { start.index + length text.now < 2 ^ 64 }
    ensures { result ≡ fold past_character start (chars text.now) }
{
    let bytes = text.as_bytes();
    let first = run_over(Run::Line, bytes);
    let mut position = start.columns_on(first.characters);
    let mut i = first.bytes;
    while i < bytes.len() {
        match byte_class(bytes[i]) {
            ByteClass::LineFeed => {
                position.advance_line();
                let line = run_over(Run::Line, &bytes[i + 1..]);
                position = position.columns_on(line.characters);
                i += 1 + line.bytes;
            }
            ByteClass::Inner => i += 1,
            _ => {
                position.advance_col();
                i += 1;
            }
        }
    }
    position
}

/// The position `count` characters after `start`, or at the end of the text.
pub(crate) fn walk_characters(text: &str, start: SourcePosition, count: usize) -> SourcePosition
    requires { start.index + length text.now < 2 ^ 64 }
    ensures { result ≡ fold past_character start (take count (chars text.now)) }
{
    walk_text(first_characters(text, count), start)
}
