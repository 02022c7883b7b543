//! Tokens.
ghost use Rattle.std.specs.Prelude.{◌≡◌, ◌++◌, Some};
ghost use Rattle.std.specs.Fmt.{DisplaysOnOk};
ghost use Rattle.std.specs.Str.{chars, encode_utf8_all};
ghost use Rattle.graphql_lexical.specs.Display.{quoted, escaped, escape, shown};
ghost use Rattle.graphql_lexical.specs.Tokens.{mark};

use crate::text::{same_text, write_text};
use crate::token_range::TokenRange;
use graphql_lexical::Kind;
use std::fmt;

/// A scalar token, with its text as it is written in the source.
///
/// The text of a String is what is between its quotes, escapes not replaced. That of a block string is what is between
/// its triple quotes, with the lines as they are.
#[derive(Clone, Copy, Debug)]
pub enum ScalarToken<'a> {
    /// A text between quotes (GraphQL specification, October 2021, section 2.9.4).
    String(&'a str),
    /// A text between triple quotes (section 2.9.4).
    BlockString(&'a str),
    /// A number with a fraction or an exponent (section 2.9.2).
    Float(&'a str),
    /// A number without either (section 2.9.1).
    Int(&'a str),
}

/// A token of the language (GraphQL specification, October 2021, section 2.1).
#[derive(Clone, Copy, Debug)]
pub enum Token<'a> {
    /// A name or a keyword, with its text.
    Name(&'a str),
    /// A String, a block string, a Float or an Int.
    Scalar(ScalarToken<'a>),
    /// `!`
    ExclamationMark,
    /// `$`
    Dollar,
    /// `(`
    ParenOpen,
    /// `)`
    ParenClose,
    /// `[`
    BracketOpen,
    /// `]`
    BracketClose,
    /// `{`
    CurlyOpen,
    /// `}`
    CurlyClose,
    /// `...`
    Ellipsis,
    /// `:`
    Colon,
    /// `=`
    Equals,
    /// `@`
    At,
    /// `|`
    Pipe,
    /// The end of the source.
    EndOfFile,
}

impl<'a> ScalarToken<'a> {
    ghost use Rattle.juniper_tokens.specs.Tokens.{scalar_kind, scalar_text};

    // The token's kind and its text.
    fn parts(&self) -> (Kind, &'a str)
        ensures kind { result.0 ≡ scalar_kind self.now }
        ensures text { chars result.1.now ≡ scalar_text self.now }
    {
        match self {
            ScalarToken::String(text) => (Kind::String, text),
            ScalarToken::BlockString(text) => (Kind::BlockString, text),
            ScalarToken::Float(text) => (Kind::Float, text),
            ScalarToken::Int(text) => (Kind::Int, text),
        }
    }

    /// The token's kind.
    pub fn kind(&self) -> Kind
        ensures { result ≡ scalar_kind self.now }
    {
        self.parts().0
    }

    /// The token's text.
    pub fn text(&self) -> &'a str
        ensures { chars result.now ≡ scalar_text self.now }
    {
        self.parts().1
    }
}

impl TokenRange {
    ghost use Rattle.graphql_lexical.specs.device.Whole.{text_of};
    ghost use Rattle.juniper_tokens.specs.Tokens.{kind_text, token_kind, token_text};
    ghost use Rattle.juniper_tokens.specs.device.Ranges.{IsRange, range_slice};

    /// The token, with its text.
    pub(crate) fn token<'a>(&self, source: &'a str) -> Token<'a>
        requires { IsRange (chars source.now) self.now }
        ensures kind { token_kind result ≡ self.now.kind }
        ensures text { token_text result ≡ kind_text self.now.kind (text_of self.now.kind (range_slice (chars source.now) self.now)) }
    {
        match self.kind {
            Kind::Name => Token::Name(self.text(source)),
            Kind::String => Token::Scalar(ScalarToken::String(self.text(source))),
            Kind::BlockString => Token::Scalar(ScalarToken::BlockString(self.text(source))),
            Kind::Float => Token::Scalar(ScalarToken::Float(self.text(source))),
            Kind::Int => Token::Scalar(ScalarToken::Int(self.text(source))),
            Kind::ExclamationMark => Token::ExclamationMark,
            Kind::Dollar => Token::Dollar,
            Kind::ParenOpen => Token::ParenOpen,
            Kind::ParenClose => Token::ParenClose,
            Kind::BracketOpen => Token::BracketOpen,
            Kind::BracketClose => Token::BracketClose,
            Kind::CurlyOpen => Token::CurlyOpen,
            Kind::CurlyClose => Token::CurlyClose,
            Kind::Ellipsis => Token::Ellipsis,
            Kind::Colon => Token::Colon,
            Kind::Equals => Token::Equals,
            Kind::At => Token::At,
            Kind::Pipe => Token::Pipe,
            Kind::EndOfFile => Token::EndOfFile,
        }
    }
}

impl<'a> Token<'a> {
    ghost use Rattle.juniper_tokens.specs.Tokens.{kind_text, token_kind, token_text};
    ghost use Rattle.graphql_lexical.specs.declared.kind.Kind.TheVariants.{EndOfFile};
    ghost use Rattle.graphql_lexical.specs.Kinds.{same_kind};

    // The token's kind, and its text if the kind leaves it open.
    fn parts(&self) -> (Kind, &'a str)
        ensures kind { result.0 ≡ token_kind self.now }
        ensures text { kind_text result.0 (chars result.1.now) ≡ token_text self.now }
    {
        match self {
            Token::Name(text) => (Kind::Name, text),
            Token::Scalar(scalar) => scalar.parts(),
            Token::ExclamationMark => (Kind::ExclamationMark, ""),
            Token::Dollar => (Kind::Dollar, ""),
            Token::ParenOpen => (Kind::ParenOpen, ""),
            Token::ParenClose => (Kind::ParenClose, ""),
            Token::BracketOpen => (Kind::BracketOpen, ""),
            Token::BracketClose => (Kind::BracketClose, ""),
            Token::CurlyOpen => (Kind::CurlyOpen, ""),
            Token::CurlyClose => (Kind::CurlyClose, ""),
            Token::Ellipsis => (Kind::Ellipsis, ""),
            Token::Colon => (Kind::Colon, ""),
            Token::Equals => (Kind::Equals, ""),
            Token::At => (Kind::At, ""),
            Token::Pipe => (Kind::Pipe, ""),
            Token::EndOfFile => (Kind::EndOfFile, ""),
        }
    }

    /// The token's kind.
    pub fn kind(&self) -> Kind
        ensures { result ≡ token_kind self.now }
    {
        self.parts().0
    }

    /// The token's text: of a String and of a block string what is between its quotes, of the end nothing, otherwise
    /// the whole token.
    pub fn text(&self) -> &'a str
        ensures { chars result.now ≡ token_text self.now }
    {
        let (kind, text) = self.parts();
        kind.spelling().unwrap_or(text)
    }

    pub(crate) fn is_end(&self) -> bool
        ensures { result ≡ same_kind (token_kind self.now) EndOfFile }
    {
        self.kind() == Kind::EndOfFile
    }
}

impl<'a> PartialEq for Token<'a> {
    ghost use Rattle.juniper_tokens.specs.Tokens.{same_token};
    ghost use Rattle.juniper_tokens.specs.laws.TokenLaws.{same_token-laws};

    ghost eq = { same_token };

    ghost laws = { same_token-laws };

    fn eq(&self, other: &Token<'a>) -> bool {
        self.kind() == other.kind() && same_text(self.text(), other.text())
    }
}

impl<'a> Eq for Token<'a> {
    ghost use Rattle.juniper_tokens.specs.laws.TokenLaws.{same_token-equiv};

    ghost laws = { same_token-equiv };
}

impl<'a> PartialEq for ScalarToken<'a> {
    ghost use Rattle.juniper_tokens.specs.Tokens.{same_scalar};
    ghost use Rattle.juniper_tokens.specs.laws.TokenLaws.{same_scalar-laws};

    ghost eq = { same_scalar };

    ghost laws = { same_scalar-laws };

    fn eq(&self, other: &ScalarToken<'a>) -> bool {
        self.kind() == other.kind() && same_text(self.text(), other.text())
    }
}

impl<'a> Eq for ScalarToken<'a> {
    ghost use Rattle.juniper_tokens.specs.laws.TokenLaws.{same_scalar-equiv};

    ghost laws = { same_scalar-equiv };
}

// Writes the text between quotes, with a backslash before each quote and each backslash.
fn write_string<W: fmt::Write>(f: &mut fmt::Formatter<W>, text: &str) -> fmt::Result
    ensures { DisplaysOnOk W.write_str_gives f.old result (Some (encode_utf8_all (quoted (escaped (chars text.now))))) f.new }
{
    f.write_str("\"")?;
    write_escaped(f, text)?;
    f.write_str("\"")
}

// Writes the text as it stands, between triple quotes.
fn write_block<W: fmt::Write>(f: &mut fmt::Formatter<W>, text: &str) -> fmt::Result
    ensures { DisplaysOnOk W.write_str_gives f.old result (Some (encode_utf8_all (mark ++ (chars text.now ++ mark)))) f.new }
{
    f.write_str("\"\"\"")?;
    write_text(f, text)?;
    f.write_str("\"\"\"")
}

fn write_escaped<W: fmt::Write>(f: &mut fmt::Formatter<W>, text: &str) -> fmt::Result
    ensures { DisplaysOnOk W.write_str_gives f.old result (Some (encode_utf8_all (escaped (chars text.now)))) f.new }
{
    for c in text.chars() {
        write_escaped_char(f, c)?;
    }
    Ok(())
}

fn write_escaped_char<W: fmt::Write>(f: &mut fmt::Formatter<W>, c: char) -> fmt::Result
    ensures { DisplaysOnOk W.write_str_gives f.old result (Some (encode_utf8_all (escape c))) f.new }
{
    if c == '"' || c == '\\' {
        f.write_str("\\")?;
    }
    f.write_char(c)
}

// Writes a token of this kind and text.
fn write_token<W: fmt::Write>(f: &mut fmt::Formatter<W>, kind: Kind, text: &str) -> fmt::Result
    ensures { DisplaysOnOk W.write_str_gives f.old result (Some (encode_utf8_all (shown kind (chars text.now)))) f.new }
{
    if kind == Kind::String {
        write_string(f, text)
    } else if kind == Kind::BlockString {
        write_block(f, text)
    } else if kind == Kind::EndOfFile {
        f.write_str("End of file")
    } else {
        write_text(f, text)
    }
}

impl<'a> fmt::Display for ScalarToken<'a> {
    ghost use Rattle.juniper_tokens.specs.Tokens.{shown_scalar};

    ghost output = { λ t. Some (encode_utf8_all (shown_scalar t)) };

    fn fmt<W: fmt::Write>(&self, f: &mut fmt::Formatter<W>) -> fmt::Result {
        write_token(f, self.kind(), self.text())
    }
}

impl<'a> fmt::Display for Token<'a> {
    ghost use Rattle.juniper_tokens.specs.Tokens.{shown_token};

    ghost output = { λ t. Some (encode_utf8_all (shown_token t)) };

    fn fmt<W: fmt::Write>(&self, f: &mut fmt::Formatter<W>) -> fmt::Result {
        write_token(f, self.kind(), self.text())
    }
}
