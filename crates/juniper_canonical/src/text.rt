//! The canonical text of a source.
#![tactic(auto, using(crate::proofs::Growth::grown, crate::proofs::Growth::grown_none, crate::proofs::Growth::grown_text))]

ghost use Rattle.std.specs.Prelude.{◌≡◌, ◌++◌, List, [], OnOk, IfOk, true, false, not, string_bytes, encode_utf8_all};
ghost use Rattle.std.specs.Str.{chars};
ghost use Rattle.graphql_lexical.specs.Kinds.{is_fixed};
ghost use Rattle.graphql_lexical.specs.Tokens.{written};
ghost use Rattle.graphql_lexical.specs.Cutting.{Lexeme, Cut, Breaks};
ghost use Rattle.graphql_lexical.specs.Canonical.{space_if, canonical};
ghost use Rattle.juniper_tokens.specs.Errors.{view_lexer_error};
ghost use Rattle.juniper_tokens.specs.Gathering.{IfFault};
ghost use Rattle.juniper_tokens.specs.Tokens.{kind_text, token_kind, token_text, scalar_kind, scalar_text};
ghost use Rattle.juniper_canonical.specs.device.Parting.{is_after_space};

use juniper_tokens::text::push_text;
use juniper_tokens::{Kind, LexFailure, Lexer, ScalarToken, Token};
use std::alloc::{AllocError, Global};

/// The canonical text of a source: its tokens as they are written, one after another, with a space between two
/// non-punctuators, and between a non-punctuator and `...`.
///
/// Ignored tokens are left out: white space, line ends, commas, comments and byte order marks (GraphQL specification,
/// October 2021, section 2.1.7). Strings and block strings stay as they are written. So two sources have the same
/// canonical text exactly if their tokens are alike, and are the same document then, or are refused alike. A canonical
/// text is its own canonical text, and never more than twice as long as its source.
///
/// Returns `LexFailure::Fault` with the source's first lexical error, which has an empty span, if the source can't be
/// tokenized. Whether the tokens are a document isn't checked. Returns `LexFailure::Memory` if memory runs out:
/// capacity for the number of bytes of the source is requested at once.
///
/// ```
/// let text = canonical_text(alloc, "{ a, b(c: \"d\") } # all")?;
/// assert_eq!(text, "{a b(c:\"d\")}");
/// ```
pub fn canonical_text(alloc: Global, source: &str) -> Result<String, LexFailure>
    ensures text { IfOk result (λ text. (tokens : List Lexeme) × Cut (chars source.now) tokens
        × (string_bytes text ≡ encode_utf8_all (canonical tokens))) }
    ensures fault { IfFault result (λ fault. Breaks (chars source.now) (view_lexer_error fault.item) fault.span.start) }
    ensures zero_width { IfFault result (λ fault. fault.span.end ≡ fault.span.start) }
{
    let Ok(mut text) = String::with_capacity(alloc, source.len()) else {
        return Err(LexFailure::Memory);
    };
    let mut is_bare = false;
    let mut lexer = Lexer::new(alloc, source);
    while let Some(item) = lexer.next() {
        let token = item?.item;
        match write_token(&mut text, is_bare, token) {
            Ok(is_next_bare) => is_bare = is_next_bare,
            Err(_) => return Err(LexFailure::Memory),
        }
    }
    Ok(text)
}

// Writes a token after one that is bare or isn't, and returns whether it is bare: neither a punctuator nor the end.
fn write_token(out: &mut String, is_bare: bool, token: Token<'_>) -> Result<bool, AllocError>
    ensures bare { IfOk result (λ next. next ≡ not (is_fixed (token_kind token.entry))) }
    ensures text { IfOk result (λ next. string_bytes out.new ≡ string_bytes out.old
        ++ encode_utf8_all (space_if (is_after_space is_bare (token_kind token.entry)) ++ written (token_kind token.entry) (token_text token.entry))) }
{
    match token {
        Token::Name(text) => write_word(out, is_bare, text),
        Token::Scalar(scalar) => write_scalar(out, is_bare, scalar),
        _ => write_fixed(out, is_bare, token.kind()),
    }
}

// Writes a punctuator, or nothing for the end, after a token that is bare or isn't.
fn write_fixed(out: &mut String, is_bare: bool, kind: Kind) -> Result<bool, AllocError>
    requires { is_fixed kind ≡ true }
    ensures bare { IfOk result (λ next. next ≡ false) }
    ensures text { IfOk result (λ next. string_bytes out.new ≡ string_bytes out.old
        ++ encode_utf8_all (space_if (is_after_space is_bare kind) ++ kind_text kind [])) }
{
    write_space(out, is_bare && kind == Kind::Ellipsis)?;
    write_short(out, kind.spelling().unwrap_or(""))?;
    Ok(false)
}

// Writes a text as it stands. A single byte is pushed, which takes less than a copy.
#[tactic(auto, using(crate::proofs::Growth::grown_byte))]
fn write_short(out: &mut String, text: &str) -> Result<(), AllocError>
    ensures { OnOk result (string_bytes out.new ≡ string_bytes out.old ++ encode_utf8_all (chars text.now)) }
{
    let bytes = text.as_bytes();
    if bytes.len() == 1 {
        return out.push(bytes[0] as char);
    }
    push_text(out, text)
}

// Writes a String, a block string or a number after a token that is bare or isn't. It is out of line, so that the loop
// over the tokens keeps more in registers.
#[inline(never)]
#[tactic(auto, using(crate::proofs::Marks::chars_quote, crate::proofs::Marks::chars_mark))]
fn write_scalar(
    out: &mut String,
    is_bare: bool,
    scalar: ScalarToken<'_>,
) -> Result<bool, AllocError>
    ensures bare { IfOk result (λ next. next ≡ true) }
    ensures text { IfOk result (λ next. string_bytes out.new ≡ string_bytes out.old
        ++ encode_utf8_all (space_if is_bare ++ written (scalar_kind scalar.entry) (scalar_text scalar.entry))) }
{
    match scalar {
        ScalarToken::String(text) => write_quoted(out, is_bare, "\"", text),
        ScalarToken::BlockString(text) => write_quoted(out, is_bare, "\"\"\"", text),
        ScalarToken::Float(text) | ScalarToken::Int(text) => write_word(out, is_bare, text),
    }
}

// Writes a text after a token that is bare or isn't.
fn write_word(out: &mut String, is_bare: bool, text: &str) -> Result<bool, AllocError>
    ensures bare { IfOk result (λ next. next ≡ true) }
    ensures text { IfOk result (λ next. string_bytes out.new ≡ string_bytes out.old
        ++ encode_utf8_all (space_if is_bare ++ chars text.now)) }
{
    write_space(out, is_bare)?;
    push_text(out, text)?;
    Ok(true)
}

// Writes a text between the same quotes, after a token that is bare or isn't.
fn write_quoted(
    out: &mut String,
    is_bare: bool,
    marks: &str,
    text: &str,
) -> Result<bool, AllocError>
    ensures bare { IfOk result (λ next. next ≡ true) }
    ensures text { IfOk result (λ next. string_bytes out.new ≡ string_bytes out.old
        ++ encode_utf8_all (space_if is_bare ++ (chars marks.now ++ (chars text.now ++ chars marks.now)))) }
{
    write_space(out, is_bare)?;
    push_text(out, marks)?;
    push_text(out, text)?;
    push_text(out, marks)?;
    Ok(true)
}

// Writes a space, or nothing.
fn write_space(out: &mut String, is_bare: bool) -> Result<(), AllocError>
    ensures { OnOk result (string_bytes out.new ≡ string_bytes out.old ++ encode_utf8_all (space_if is_bare)) }
{
    if is_bare {
        return out.push(' ');
    }
    Ok(())
}
