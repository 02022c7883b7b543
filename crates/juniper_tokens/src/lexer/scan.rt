//! The token at the front of a text, or the lexical error there, from the state in which the steps stop.
ghost use Rattle.std.specs.Prelude.{◌≡◌, ◌+◌, ◌-◌, ◌<◌, ◌≤◌, ◌^◌, ◌++◌, drop, length, Ok};
ghost use Rattle.std.specs.Str.{chars};
ghost use Rattle.graphql_lexical.specs.Kinds.{UnknownEscapeSequence};
ghost use Rattle.graphql_lexical.specs.declared.state.State.TheVariants.{Start};
ghost use Rattle.graphql_lexical.specs.device.Scan.{missed, stopped, after_dots, after_units, after_block, after_backslash, after_u, after_zero, answer, answer_in_block, scan};
ghost use Rattle.juniper_tokens.specs.device.Offsets.{IsOffset};
ghost use Rattle.juniper_tokens.specs.device.Scans.{MeetsScan, Misses};

use crate::error::LexerError;
use crate::lexer::text::{
    Offset, count_alphanumerics, first_character, first_characters, joined, text_after, text_from,
};
use crate::lexer::walk::{Reached, walk_token};
use graphql_lexical::{Block, Kind, State};
use std::alloc::Global;

/// A token's kind and its end.
#[derive(Clone, Copy)]
pub(crate) struct Found {
    pub(crate) kind: Kind,
    /// The offset of the end, from the token's beginning.
    pub(crate) end: Offset,
}

/// Why there is no token.
#[derive(Drop)]
pub(crate) enum Missed {
    /// A lexical error, and the number of characters before it.
    Fault(LexerError, usize),
    /// An unknown escape, for whose text there is no memory or no allocator.
    Memory,
}

// The error if what begins like a number isn't one.
fn number_fault(rest: &str, at: usize) -> Missed
    ensures { Misses result (stopped at (chars rest.now)) }
{
    match first_character(rest) {
        Some(c) => Missed::Fault(LexerError::UnexpectedCharacter(c), at),
        None => Missed::Fault(LexerError::UnexpectedEndOfFile, at),
    }
}

// The error after one or two dots.
fn dots_fault(rest: &str, at: usize) -> Missed
    ensures { Misses result (after_dots at (chars rest.now)) }
{
    if rest.is_empty() {
        Missed::Fault(LexerError::UnexpectedEndOfFile, at)
    } else {
        Missed::Fault(LexerError::UnexpectedCharacter('.'), 0)
    }
}

// The error if a string continues neither with a character that stands for itself nor with an escape.
fn string_fault(rest: &str, at: usize) -> Missed
    ensures { Misses result (after_units at (chars rest.now)) }
{
    match first_character(rest) {
        Some(c) => {
            if c == '\n' || c == '\r' {
                Missed::Fault(LexerError::UnterminatedString, at)
            } else {
                Missed::Fault(LexerError::UnknownCharacterInString(c), at)
            }
        }
        None => Missed::Fault(LexerError::UnterminatedString, at),
    }
}

// The error if a block string has no end.
fn block_fault(rest: &str, at: usize) -> Missed
    ensures { Misses result (after_block at (chars rest.now)) }
{
    match first_character(rest) {
        Some(c) => Missed::Fault(LexerError::UnknownCharacterInString(c), at),
        None => Missed::Fault(LexerError::UnterminatedString, at),
    }
}

// The error if the text after `marks`, a backslash or a backslash and `u`, makes no escape with them.
fn escape_fault(alloc: Option<Global>, marks: &str, rest: &str, at: usize) -> Missed
    ensures { Misses result (missed at (UnknownEscapeSequence (chars marks.now ++ chars rest.now))) }
{
    let Some(alloc) = alloc else {
        return Missed::Memory;
    };
    match joined(alloc, marks, rest) {
        Ok(text) => Missed::Fault(LexerError::UnknownEscapeSequence(text), at),
        Err(_) => Missed::Memory,
    }
}

// The error after a backslash.
fn backslash_fault(alloc: Option<Global>, rest: &str, at: usize) -> Missed
    ensures { Misses result (after_backslash at (chars rest.now)) }
{
    if rest.is_empty() {
        Missed::Fault(LexerError::UnterminatedString, at)
    } else {
        escape_fault(alloc, "\\", first_characters(rest, 1), at)
    }
}

// The error after a backslash and the `u` that stands at a place.
fn unicode_fault(alloc: Option<Global>, rest: &str, at: usize) -> Missed
    requires { at + 1 + length rest.now < 2 ^ 64 }
    ensures { Misses result (after_u at (chars rest.now)) }
{
    let count = count_alphanumerics(rest);
    if count < 4 && text_after(rest, count).is_empty() {
        Missed::Fault(LexerError::UnterminatedString, at + 1 + count)
    } else {
        escape_fault(alloc, "\\u", first_characters(rest, count.max(1)), at)
    }
}

// The same, if `end` characters of the text have been read, `digits` digits after the `u` among them.
fn digits_fault(alloc: Option<Global>, text: &str, end: usize, digits: usize) -> Missed
    requires end { end ≤ length text.now }
    requires digits { digits < 4 }
    ensures { Misses result (after_u (end - (digits + 1)) (drop (end - digits) (chars text.now))) }
{
    let rest = text_after(text, end.saturating_sub(digits));
    unicode_fault(alloc, rest, end.saturating_sub(digits + 1))
}

// The token of this kind that ends there.
fn token_of(kind: Kind, end: Offset) -> Result<Found, Missed>
    ensures { result ≡ Ok (record { kind = kind; end = end }) }
{
    Ok(Found { kind, end })
}

// After `0` or `-0`, which no digit may follow.
fn scan_zero(text: &str, end: Offset) -> Result<Found, Missed>
    requires { IsOffset end (chars text.now) }
    ensures { MeetsScan result (chars text.now) (after_zero end.characters (chars text.now) (drop end.characters (chars text.now))) }
{
    let bytes = text_from(text, end).as_bytes();
    if !bytes.is_empty() && bytes[0].is_ascii_digit() {
        let error = LexerError::UnexpectedCharacter(bytes[0] as char);
        return Err(Missed::Fault(error, end.characters));
    }
    token_of(Kind::Int, end)
}

// If no token begins: at the end, or at a character.
fn scan_unknown(text: &str) -> Result<Found, Missed>
    ensures { MeetsScan result (chars text.now) (answer Start 0 (chars text.now)) }
{
    match first_character(text) {
        Some(c) => Err(Missed::Fault(LexerError::UnknownCharacter(c), 0)),
        None => Ok(Found {
            kind: Kind::EndOfFile,
            end: Offset::start(),
        }),
    }
}

// The token or the lexical error at which the steps have stopped.
fn scan_reached(alloc: Option<Global>, text: &str, reached: Reached) -> Result<Found, Missed>
    requires offset { IsOffset reached.end (chars text.now) }
    requires within { reached.end.characters ≤ length text.now }
    ensures { MeetsScan result (chars text.now) (answer reached.state reached.end.characters (chars text.now)) }
{
    let end = reached.end;
    match reached.state {
        State::Start => scan_unknown(text),
        State::Zero => scan_zero(text, end),
        State::OneDot | State::TwoDots => Err(dots_fault(text_from(text, end), end.characters)),
        State::Minus | State::Point | State::ExponentMark | State::ExponentSign => {
            Err(number_fault(text_from(text, end), end.characters))
        }
        State::Quote | State::InString => {
            Err(string_fault(text_from(text, end), end.characters))
        }
        State::Backslash => Err(backslash_fault(alloc, text_from(text, end), end.characters)),
        State::NoHexDigit => Err(digits_fault(alloc, text, end.characters, 0)),
        State::OneHexDigit | State::HexDigitD => {
            Err(digits_fault(alloc, text, end.characters, 1))
        }
        State::TwoHexDigits => Err(digits_fault(alloc, text, end.characters, 2)),
        State::ThreeHexDigits => Err(digits_fault(alloc, text, end.characters, 3)),
        State::InBlock(part) => scan_block(text, part, end),
        State::Done(kind) => token_of(kind, end),
        State::InName => token_of(Kind::Name, end),
        State::Digits => token_of(Kind::Int, end),
        State::Fraction | State::Exponent => token_of(Kind::Float, end),
        State::EmptyString => token_of(Kind::String, end),
    }
}

// The same, if they have stopped in a block string or after it.
fn scan_block(text: &str, part: Block, end: Offset) -> Result<Found, Missed>
    requires { IsOffset end (chars text.now) }
    ensures { MeetsScan result (chars text.now) (answer_in_block part end.characters (chars text.now)) }
{
    match part {
        Block::Closed => token_of(Kind::BlockString, end),
        _ => Err(block_fault(text_from(text, end), end.characters)),
    }
}

/// The token at the front of a text, or the lexical error there. Without an allocator an unknown escape is `Memory`.
pub(crate) fn scan_token(alloc: Option<Global>, text: &str) -> Result<Found, Missed>
    ensures { MeetsScan result (chars text.now) (scan (chars text.now)) }
{
    scan_reached(alloc, text, walk_token(text))
}
