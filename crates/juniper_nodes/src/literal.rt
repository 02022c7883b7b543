//! A scalar type that keeps each token as it is written.
ghost use Rattle.std.specs.Prelude.{◌≡◌, ◌&&◌, Some, IfOk};
ghost use Rattle.std.specs.Ordering.{int_eq};
ghost use Rattle.std.specs.Str.{chars, encode_utf8_all};
ghost use Rattle.graphql_lexical.specs.declared.kind.Kind.TheVariants.{Int, String as Quoted, BlockString as Block};
ghost use Rattle.juniper_values.specs.Default.{default_reading};
ghost use Rattle.juniper_values.specs.Scalar.{MeetsReading};
ghost use Rattle.juniper_values.specs.Text.{same_text};
ghost use Rattle.juniper_values.specs.View.{text_of};
ghost use Rattle.juniper_nodes.specs.Literal.{literal_content, literal_shown, int_reading, string_reading, of_string, of_block};

use juniper_tokens::ScalarToken;
use juniper_tokens::text::{copied, same_string, write_text};
use juniper_values::{
    BesideDefault, DefaultScalarValue, Held, ParseScalarResult, ParseScalarValue, ReadFailure,
    ScalarValue,
};
use std::alloc::{AllocError, Global};
use std::fmt;

/// An Int as it is written, with the number of 32 bits that it means.
#[derive(Debug, Drop)]
pub struct IntLiteral {
    pub written: String,
    pub value: i32,
}

/// A String or a block string as it is written between its quotes, and the text that it means.
#[derive(Debug, Drop)]
pub struct StringLiteral {
    pub written: String,
    pub value: String,
}

/// A scalar as a token writes it (GraphQL specification, October 2021, section 2.9).
#[derive(Debug, Drop)]
pub enum Literal {
    /// A scalar that wasn't read from a token: `true`, `false`, and what a program makes.
    Default(DefaultScalarValue),
    /// An Int of 32 bits.
    Int(IntLiteral),
    /// An Int beyond 32 bits.
    LargeInt(String),
    /// A Float.
    Float(String),
    /// A String.
    String(StringLiteral),
    /// A block string.
    BlockString(StringLiteral),
}

impl PartialEq for Literal {
    ghost use Rattle.juniper_values.specs.Scalar.{same_content};
    ghost use Rattle.juniper_values.specs.laws.ScalarLaws.{partial_by_content};

    ghost eq = { λ a b. same_content (literal_content a) (literal_content b) };

    ghost laws = { partial_by_content literal_content };

    #[tactic(auto, using(crate::proofs::Literals::same_texts, crate::proofs::Literals::same_meant, crate::proofs::Literals::no_custom, crate::proofs::Literals::custom_no))]
    fn eq(&self, other: &Literal) -> bool {
        match (self, other) {
            (Literal::Default(a), Literal::Default(b)) => a == b,
            (Literal::Int(a), Literal::Int(b)) => same_int(a, b),
            (Literal::LargeInt(a), Literal::LargeInt(b)) => same_string(a, b),
            (Literal::Float(a), Literal::Float(b)) => same_string(a, b),
            (Literal::String(a), Literal::String(b)) => same_literal(a, b),
            (Literal::BlockString(a), Literal::BlockString(b)) => same_literal(a, b),
            _ => false,
        }
    }
}

fn same_number(a: i32, b: i32) -> bool
    ensures { result ≡ int_eq a b }
{
    a == b
}

fn same_int(a: &IntLiteral, b: &IntLiteral) -> bool
    ensures { result ≡ (int_eq a.now.value b.now.value && same_text (text_of a.now.written) (text_of b.now.written)) }
{
    same_number(a.value, b.value) && same_string(&a.written, &b.written)
}

fn same_literal(a: &StringLiteral, b: &StringLiteral) -> bool
    ensures { result ≡ (same_text (text_of a.now.written) (text_of b.now.written) && same_text (text_of a.now.value)
        (text_of b.now.value)) }
{
    same_string(&a.written, &b.written) && same_string(&a.value, &b.value)
}

impl Eq for Literal {
    ghost use Rattle.juniper_values.specs.laws.ScalarLaws.{by_content};

    ghost laws = { by_content literal_content };
}

/// Displays a number as it is written, a string as the text that it means, and anything else as the default type does.
impl fmt::Display for Literal {
    ghost output = { λ s. Some (encode_utf8_all (literal_shown (literal_content s))) };

    #[tactic(auto, using(crate::proofs::Literals::shown_back, crate::proofs::Literals::shown_after))]
    fn fmt<W: fmt::Write>(&self, f: &mut fmt::Formatter<W>) -> fmt::Result {
        match self {
            Literal::Default(scalar) => scalar.fmt(f),
            Literal::Int(number) => write_text(f, number.written.as_str()),
            Literal::LargeInt(text) | Literal::Float(text) => write_text(f, text.as_str()),
            Literal::String(string) | Literal::BlockString(string) => write_text(
                f,
                string.value.as_str(),
            ),
        }
    }
}

/// A Float is kept as it is written, and so is an Int beyond 32 bits. An Int of 32 bits, a String and a block string
/// are kept with what the default type reads them as; a String that it refuses is refused.
impl ParseScalarValue<Literal> for Literal {
    ghost use Rattle.juniper_nodes.specs.Literal.{literal_reading};

    ghost content = { literal_content };

    ghost reading = { literal_reading };

    fn from_str(alloc: Global, token: ScalarToken<'_>) -> ParseScalarResult<Literal> {
        match token {
            ScalarToken::Float(text) => Ok(Literal::Float(String::from_str(alloc, text)?)),
            ScalarToken::Int(text) => read_int(alloc, text),
            ScalarToken::String(text) => read_string(alloc, text),
            ScalarToken::BlockString(text) => read_block(alloc, text),
        }
    }
}

fn read_int(alloc: Global, text: &str) -> ParseScalarResult<Literal>
    ensures { MeetsReading literal_content (int_reading (chars text.now) (default_reading Int (chars text.now)))
        result }
{
    match DefaultScalarValue::from_str(alloc, ScalarToken::Int(text)) {
        Ok(DefaultScalarValue::Int(value)) => Ok(Literal::Int(IntLiteral {
            written: String::from_str(alloc, text)?,
            value,
        })),
        Ok(scalar) => Ok(Literal::Default(scalar)),
        Err(ReadFailure::Refused(_)) => Ok(Literal::LargeInt(String::from_str(alloc, text)?)),
        Err(ReadFailure::Memory) => Err(ReadFailure::Memory),
    }
}

fn read_string(alloc: Global, text: &str) -> ParseScalarResult<Literal>
    ensures { MeetsReading literal_content
        (string_reading (of_string (chars text.now)) (default_reading Quoted (chars text.now))) result }
{
    match DefaultScalarValue::from_str(alloc, ScalarToken::String(text)) {
        Ok(DefaultScalarValue::String(value)) => Ok(Literal::String(StringLiteral {
            written: String::from_str(alloc, text)?,
            value,
        })),
        Ok(scalar) => Ok(Literal::Default(scalar)),
        Err(failure) => Err(failure),
    }
}

fn read_block(alloc: Global, text: &str) -> ParseScalarResult<Literal>
    ensures { MeetsReading literal_content
        (string_reading (of_block (chars text.now)) (default_reading Block (chars text.now))) result }
{
    match DefaultScalarValue::from_str(alloc, ScalarToken::BlockString(text)) {
        Ok(DefaultScalarValue::String(value)) => Ok(Literal::BlockString(StringLiteral {
            written: String::from_str(alloc, text)?,
            value,
        })),
        Ok(scalar) => Ok(Literal::Default(scalar)),
        Err(failure) => Err(failure),
    }
}

fn copied_string(alloc: Global, string: &StringLiteral) -> Result<StringLiteral, AllocError>
    ensures { IfOk result (λ s. (text_of s.written ≡ text_of string.now.written)
        × (text_of s.value ≡ text_of string.now.value)) }
{
    Ok(StringLiteral {
        written: copied(alloc, &string.written)?,
        value: copied(alloc, &string.value)?,
    })
}

impl BesideDefault for Literal {
    ghost use Rattle.std.specs.Prelude.{refl};
    ghost use Rattle.juniper_values.specs.laws.ScalarLaws.{same_content-Decides};
    ghost use Rattle.juniper_nodes.specs.Literal.{number_of, meaning_of, own_text};
    ghost use Rattle.juniper_nodes.specs.laws.LiteralLaws.{meaning-is_text};

    ghost own_int = { number_of };

    ghost own_str = { meaning_of };

    ghost own_text = { own_text };

    ghost equal_by_content = { λ a b. same_content-Decides (literal_content a) (literal_content b) };

    ghost shows_itself = { λ a. refl };

    ghost lent_is_text = { meaning-is_text };

    fn from_default(scalar: DefaultScalarValue) -> Self {
        Literal::Default(scalar)
    }

    #[tactic(auto, using(crate::proofs::Literals::shown_back, crate::proofs::Literals::shown_after))]
    fn held(&self) -> Held<'_> {
        match self {
            Literal::Default(scalar) => Held::Default(scalar),
            Literal::Int(number) => Held::Own {
                int: Some(number.value),
                text: None,
            },
            Literal::LargeInt(_) | Literal::Float(_) => Held::Own {
                int: None,
                text: None,
            },
            Literal::String(string) | Literal::BlockString(string) => Held::Own {
                int: None,
                text: Some(string.value.as_str()),
            },
        }
    }

    #[tactic(auto, using(crate::proofs::Literals::shown_back, crate::proofs::Literals::shown_after))]
    fn to_default(&self, alloc: Global) -> Result<DefaultScalarValue, AllocError> {
        let text = match self {
            Literal::Default(scalar) => return scalar.try_clone(alloc),
            Literal::Int(number) => &number.written,
            Literal::LargeInt(text) | Literal::Float(text) => text,
            Literal::String(string) | Literal::BlockString(string) => &string.value,
        };
        Ok(DefaultScalarValue::String(copied(alloc, text)?))
    }

    #[tactic(auto, using(crate::proofs::Literals::shown_back, crate::proofs::Literals::shown_after))]
    fn into_default(self, _alloc: Global) -> Result<DefaultScalarValue, AllocError> {
        match self {
            Literal::Default(scalar) => Ok(scalar),
            Literal::Int(number) => Ok(DefaultScalarValue::String(number.written)),
            Literal::LargeInt(text) | Literal::Float(text) => Ok(DefaultScalarValue::String(text)),
            Literal::String(string) | Literal::BlockString(string) => {
                Ok(DefaultScalarValue::String(string.value))
            }
        }
    }

    fn try_copy(&self, alloc: Global) -> Result<Self, AllocError> {
        match self {
            Literal::Default(scalar) => Ok(Literal::Default(scalar.try_clone(alloc)?)),
            Literal::Int(number) => Ok(Literal::Int(IntLiteral {
                written: copied(alloc, &number.written)?,
                value: number.value,
            })),
            Literal::LargeInt(text) => Ok(Literal::LargeInt(copied(alloc, text)?)),
            Literal::Float(text) => Ok(Literal::Float(copied(alloc, text)?)),
            Literal::String(string) => Ok(Literal::String(copied_string(alloc, string)?)),
            Literal::BlockString(string) => {
                Ok(Literal::BlockString(copied_string(alloc, string)?))
            }
        }
    }
}
