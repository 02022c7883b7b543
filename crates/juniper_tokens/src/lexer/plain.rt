//! Tokens that a run finds: Names, Ints, Strings; and punctuators.
ghost use Rattle.std.specs.Prelude.{◌≡◌, ◌==◌, ◌≤◌, false, get_or, IfSome};
ghost use Rattle.std.specs.Str.{chars};
ghost use Rattle.juniper_tokens.specs.declared.byte_classes.ByteClass.TheVariants.{Digit, Dot, Quote};
ghost use Rattle.juniper_tokens.specs.ByteClasses.{class_of};
ghost use Rattle.juniper_tokens.specs.device.Scans.{Finds, IsPlain};
ghost use Rattle.juniper_tokens.specs.device.Walks.{is_in_float, first_class, WalkedToken};
ghost use Rattle.graphql_lexical.specs.declared.kind.Kind.TheVariants as kinds;
ghost use Rattle.graphql_lexical.specs.declared.state.State.TheVariants.{InString};

use crate::byte_classes::ByteClass;
use crate::lexer::machine::step_after_integer;
use crate::lexer::run::{Run, run_over};
use crate::lexer::scan::Found;
use crate::lexer::text::{Offset, text_from};
use crate::lexer::walk::walk_on;
use graphql_lexical::{Kind, State};

/// The token at the front of a text, if it is a Name, an Int that does not begin with `-` or `0`, a punctuator, or a String
/// that does not begin with its end or with an escape. The class is that of the text's first byte.
#[inline(always)]
pub(crate) fn plain_token(class: ByteClass, text: &str) -> Option<Found>
    requires { class ≡ first_class (chars text.now) }
    ensures finds { IfSome result (Finds (chars text.now)) }
    ensures plain { IfSome result (λ found. IsPlain found.kind) }
{
    let bytes = text.as_bytes();
    match class {
        ByteClass::NameStart => Some(Found {
            kind: Kind::Name,
            end: run_over(Run::Name, bytes),
        }),
        ByteClass::Punctuator => Some(Found {
            kind: Kind::punctuator(bytes[0])?,
            end: Offset {
                bytes: 1,
                characters: 1,
            },
        }),
        ByteClass::Digit => {
            if bytes[0] == b'0' {
                return None;
            }
            plain_int(text)
        }
        ByteClass::Dot => plain_dots(text),
        ByteClass::Quote => plain_string(text),
        _ => None,
    }
}

// The punctuator `...` whose first dot stands first, unless one of the others is missing.
#[inline(always)]
fn plain_dots(text: &str) -> Option<Found>
    requires { class_of (get_or text.now 0 0) ≡ Dot }
    ensures finds { IfSome result (Finds (chars text.now)) }
    ensures plain { IfSome result (λ found. IsPlain found.kind) }
{
    let bytes = text.as_bytes();
    if bytes.len() < 3 || bytes[1] != b'.' || bytes[2] != b'.' {
        return None;
    }
    Some(Found {
        kind: Kind::Ellipsis,
        end: Offset {
            bytes: 3,
            characters: 3,
        },
    })
}

// The Int whose first digit stands first, unless it continues as a Float.
#[inline(always)]
fn plain_int(text: &str) -> Option<Found>
    requires digit { class_of (get_or text.now 0 0) ≡ Digit }
    requires nonzero { (get_or text.now 0 0 == 48) ≡ false }
    ensures finds { IfSome result (Finds (chars text.now)) }
    ensures plain { IfSome result (λ found. IsPlain found.kind) }
{
    let end = run_over(Run::Digits, text.as_bytes());
    if is_in_float(text_from(text, end)) {
        return None;
    }
    Some(Found {
        kind: Kind::Int,
        end,
    })
}

// Whether a fraction or an exponent follows the digits here.
fn is_in_float(rest: &str) -> bool
    ensures { result ≡ is_in_float (chars rest.now) }
{
    let bytes = rest.as_bytes();
    !bytes.is_empty() && step_after_integer(bytes[0]).is_some()
}

// The String whose first quote stands first. One that begins with its end or with an escape is left out.
#[inline(always)]
fn plain_string(text: &str) -> Option<Found>
    requires { class_of (get_or text.now 0 0) ≡ Quote }
    ensures finds { IfSome result (Finds (chars text.now)) }
    ensures plain { IfSome result (λ found. IsPlain found.kind) }
{
    let bytes = text.as_bytes();
    let units = run_over(Run::Plain, &bytes[1..]);
    let last = 1 + units.bytes;
    if units.characters == 0 || last >= bytes.len() {
        return None;
    }
    if bytes[last] == b'"' {
        let end = Offset {
            bytes: last + 1,
            characters: 2 + units.characters,
        };
        return Some(Found {
            kind: Kind::String,
            end,
        });
    }
    let stopped = Offset {
        bytes: last,
        characters: 1 + units.characters,
    };
    let end = escaped_end(text, stopped);
    if end.bytes == stopped.bytes {
        return None;
    }
    Some(Found {
        kind: Kind::String,
        end,
    })
}

// The end of the String that goes on at an offset with an escape, or that offset if it has no end. It is an offset, and no
// Option, as two words are returned in registers.
#[inline(never)]
fn escaped_end(text: &str, from: Offset) -> Offset
    requires walked { WalkedToken text.now from.bytes InString from.characters }
    requires fewer { from.characters ≤ from.bytes }
    ensures { (result.bytes ≡ from.bytes → ⊥) → Finds (chars text.now) (record { kind = kinds.String; end = result }) }
{
    let reached = walk_on(text, State::InString, from);
    match reached.state {
        State::Done(kind) if kind == Kind::String => reached.end,
        _ => from,
    }
}
