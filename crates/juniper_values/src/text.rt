//! Cutting and writing texts.
ghost use Rattle.std.specs.Prelude.{◌≡◌, ◌<◌, [], ◌∷◌, length, Some, IfSome, MatchOption};
ghost use Rattle.std.specs.Char.{IsScalar};
ghost use Rattle.std.specs.Fmt.{DisplaysOnOk, signed_decimal};
ghost use Rattle.std.specs.Str.{chars, encode_utf8_all, IsUtf8};
ghost use Rattle.graphql_lexical.specs.Display.{quoted};

use std::fmt;

// The text's first character, and the text after it, or None.
pub(crate) fn split_char(text: &str) -> Option<(char, &str)>
    ensures parts { MatchOption result (chars text.now ≡ []) (λ p. chars text.now ≡ p.0 ∷ chars p.1.now) }
    ensures scalar { IfSome result (λ p. IsScalar p.0) }
    ensures shorter { IfSome result (λ p. length p.1.now < length text.now) }
    ensures utf8 { IfSome result (λ p. IsUtf8 p.1.now) }
{
    let mut rest = text.chars();
    let c = rest.next()?;
    Some((c, rest.as_str()))
}

// Writes the text as it stands, between quotes.
pub(crate) fn write_quoted<W: fmt::Write>(f: &mut fmt::Formatter<W>, text: &str) -> fmt::Result
    ensures { DisplaysOnOk W.write_str_gives f.old result (Some (encode_utf8_all (quoted (chars text.now)))) f.new }
{
    write!(f, "\"{text}\"")
}

// Writes the decimal number.
pub(crate) fn write_int<W: fmt::Write>(f: &mut fmt::Formatter<W>, number: i32) -> fmt::Result
    ensures { DisplaysOnOk W.write_str_gives f.old result (Some (encode_utf8_all (signed_decimal number))) f.new }
{
    write!(f, "{number}")
}
