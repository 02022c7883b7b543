//! The states of the steps by which the definitions compute tokens.
use crate::kind::Kind;

/// What has been read of a token.
#[derive(Clone, Copy)]
pub enum State {
    Start,
    /// A whole token, which no character continues.
    Done(Kind),
    OneDot,
    TwoDots,
    InName,
    /// The `-` of a number.
    Minus,
    /// `0` or `-0`.
    Zero,
    /// The digits of another integer part.
    Digits,
    /// The point after an integer part.
    Point,
    /// The digits after a point.
    Fraction,
    /// The exponent letter, `e` or `E`.
    ExponentMark,
    ExponentSign,
    /// The digits of an exponent.
    Exponent,
    Quote,
    /// Two quotes, which are an empty string unless a third begins a block string.
    EmptyString,
    /// A quote, and characters and escapes after it.
    InString,
    /// The backslash of an escape.
    Backslash,
    /// `\u`.
    NoHexDigit,
    /// `\u` and a digit that is not `D`.
    OneHexDigit,
    /// `\uD`, after which the number may be one from D800 to DFFF.
    HexDigitD,
    /// `\u` and two digits, with which no such number begins.
    TwoHexDigits,
    ThreeHexDigits,
    InBlock(Block),
}

/// What has been read of a block string's end.
#[derive(Clone, Copy)]
pub enum Block {
    Inside,
    OneQuote,
    TwoQuotes,
    /// A backslash, with which a triple quote stands for itself.
    Escaping,
    EscapedQuote,
    EscapedQuotes,
    /// The whole triple quote.
    Closed,
}
