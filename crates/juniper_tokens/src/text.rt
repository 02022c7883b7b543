//! Comparing, copying and writing texts, and the escapes of Strings, for this crate and those above it.
ghost use Rattle.std.specs.Prelude.{◌≡◌, ◌++◌, Some, OnOk, IfOk, IfSome, nat_eq};
ghost use Rattle.std.specs.Char.{IsScalar};
ghost use Rattle.std.specs.Cmp.Lexicographic.{pointwise};
ghost use Rattle.std.specs.Fmt.{DisplaysOnOk};
ghost use Rattle.std.specs.Str.{chars, encode_utf8_all};
ghost use Rattle.std.specs.String.{string_bytes};
ghost use Rattle.juniper_tokens.specs.Escapes as escapes;

use std::alloc::{AllocError, Global};
use std::fmt;

/// Whether two texts have the same characters.
pub fn same_text(a: &str, b: &str) -> bool
    ensures { result ≡ pointwise nat_eq (chars a.now) (chars b.now) }
{
    a == b
}

/// Whether two strings have the same characters.
pub fn same_string(a: &String, b: &String) -> bool
    ensures { result ≡ pointwise nat_eq (chars (string_bytes a.now)) (chars (string_bytes b.now)) }
{
    same_text(a.as_str(), b.as_str())
}

/// A copy of a text. Returns `AllocError` if memory runs out.
pub fn copied(alloc: Global, text: &String) -> Result<String, AllocError>
    ensures { IfOk result (λ copy. chars (string_bytes copy) ≡ chars (string_bytes text.now)) }
{
    String::from_str(alloc, text.as_str())
}

/// Writes `text` as it is. Returns the formatter's error if that fails. The contract speaks of characters, std's of
/// bytes.
pub fn write_text<W: fmt::Write>(f: &mut fmt::Formatter<W>, text: &str) -> fmt::Result
    ensures { DisplaysOnOk W.write_str_gives f.old result (Some (encode_utf8_all (chars text.now))) f.new }
{
    f.write_str(text)
}

/// Appends `text` to `out`. Returns `AllocError` if memory runs out. The contract speaks of characters, std's of bytes.
pub fn push_text(out: &mut String, text: &str) -> Result<(), AllocError>
    ensures { OnOk result (string_bytes out.new ≡ string_bytes out.old ++ encode_utf8_all (chars text.now)) }
{
    out.push_str(text)
}

/// The character that a backslash and `c` mean in a String, or None if they aren't an escape (GraphQL specification,
/// October 2021, section 2.9.4). `\u` isn't among them.
#[inline(always)]
pub fn short_escape(c: char) -> Option<char>
    ensures value { result ≡ escapes.short_escape c }
    ensures scalar { IfSome result IsScalar }
{
    match c {
        '"' => Some('"'),
        '\\' => Some('\\'),
        '/' => Some('/'),
        'b' => Some('\u{8}'),
        'f' => Some('\u{c}'),
        'n' => Some('\n'),
        'r' => Some('\r'),
        't' => Some('\t'),
        _ => None,
    }
}
