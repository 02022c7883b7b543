//! A scalar type that keeps what a token means, and not how it is written.
ghost use Rattle.std.specs.Prelude.{◌≡◌, [], Ok, Some, None};
ghost use Rattle.std.specs.Str.{chars, encode_utf8_all};
ghost use Rattle.graphql_lexical.specs.declared.kind.Kind.TheVariants.{Int, BlockString as Block};
ghost use Rattle.juniper_values.specs.Default.{default_reading};
ghost use Rattle.juniper_values.specs.Scalar.{MeetsReading, same_content};
ghost use Rattle.juniper_nodes.specs.Literal.{literal_shown, str_in, string_reading, of_block};
ghost use Rattle.firthnapkin_results.specs.Scalars.{scalar_content, int_reading};

use juniper_tokens::ScalarToken;
use juniper_tokens::text::{copied, same_text, write_text};
use juniper_values::{
    BesideDefault, DefaultScalarValue, Held, ParseScalarResult, ParseScalarValue, ScalarValue,
};
use std::alloc::{AllocError, Global};
use std::fmt;

/// A scalar as C gets it: what it means; of a number beyond the default type, its kind alone, since its text is in the
/// source.
#[derive(Drop)]
pub(crate) enum SourceScalar {
    /// What the default type reads, except block strings.
    Default(DefaultScalarValue),
    /// An Int beyond 32 bits.
    LargeInt,
    /// A Float.
    Float,
    /// What a block string means.
    BlockString(String),
}

impl PartialEq for SourceScalar {
    ghost use Rattle.juniper_values.specs.laws.ScalarLaws.{partial_by_content};

    ghost eq = { λ a b. same_content (scalar_content a) (scalar_content b) };

    ghost laws = { partial_by_content scalar_content };

    #[tactic(auto, using(juniper_nodes::proofs::Public::no_custom, juniper_nodes::proofs::Public::custom_no))]
    fn eq(&self, other: &SourceScalar) -> bool {
        match (self, other) {
            (SourceScalar::Default(a), SourceScalar::Default(b)) => a == b,
            (SourceScalar::LargeInt, SourceScalar::LargeInt)
            | (SourceScalar::Float, SourceScalar::Float) => true,
            (SourceScalar::BlockString(a), SourceScalar::BlockString(b)) => same_block(
                a.as_str(),
                b.as_str(),
            ),
            _ => false,
        }
    }
}

// Whether two block strings mean the same.
fn same_block(a: &str, b: &str) -> bool
    ensures { result ≡ same_content (of_block [] (chars a.now)) (of_block [] (chars b.now)) }
{
    same_text(a, b)
}

impl Eq for SourceScalar {
    ghost use Rattle.juniper_values.specs.laws.ScalarLaws.{by_content};

    ghost laws = { by_content scalar_content };
}

/// Displays what the scalar means; nothing of a number beyond the default type.
impl fmt::Display for SourceScalar {
    ghost output = { λ s. Some (encode_utf8_all (literal_shown (scalar_content s))) };

    #[tactic(auto, using(juniper_nodes::proofs::Public::shown_back))]
    fn fmt<W: fmt::Write>(&self, f: &mut fmt::Formatter<W>) -> fmt::Result {
        match self {
            SourceScalar::Default(scalar) => scalar.fmt(f),
            SourceScalar::LargeInt | SourceScalar::Float => Ok(()),
            SourceScalar::BlockString(text) => write_text(f, text.as_str()),
        }
    }
}

/// A number beyond the default type takes no memory.
impl ParseScalarValue<SourceScalar> for SourceScalar {
    ghost use Rattle.firthnapkin_results.specs.Scalars.{scalar_reading};

    ghost content = { scalar_content };

    ghost reading = { scalar_reading };

    fn from_str(alloc: Global, token: ScalarToken<'_>) -> ParseScalarResult<SourceScalar> {
        match token {
            ScalarToken::Float(_) => Ok(SourceScalar::Float),
            ScalarToken::Int(text) => Ok(read_int(text)),
            ScalarToken::String(text) => Ok(SourceScalar::Default(DefaultScalarValue::from_str(
                alloc,
                ScalarToken::String(text),
            )?)),
            ScalarToken::BlockString(text) => read_block(alloc, text),
        }
    }
}

// An Int, by its number or as one beyond 32 bits.
pub(crate) fn read_int(text: &str) -> SourceScalar
    ensures reads { int_reading (default_reading Int (chars text.now)) ≡ Ok (scalar_content result) }
    ensures no_text { str_in (scalar_content result) ≡ None }
{
    match text.parse::<i32>() {
        Ok(value) => SourceScalar::Default(DefaultScalarValue::Int(value)),
        Err(_) => SourceScalar::LargeInt,
    }
}

fn read_block(alloc: Global, text: &str) -> ParseScalarResult<SourceScalar>
    ensures { let reading = string_reading (of_block []) (default_reading Block (chars text.now)) in
        MeetsReading scalar_content reading result }
{
    match DefaultScalarValue::from_str(alloc, ScalarToken::BlockString(text))? {
        DefaultScalarValue::String(value) => Ok(SourceScalar::BlockString(value)),
        scalar => Ok(SourceScalar::Default(scalar)),
    }
}

impl BesideDefault for SourceScalar {
    ghost use Rattle.std.specs.Prelude.{refl};
    ghost use Rattle.juniper_values.specs.laws.ScalarLaws.{same_content-Decides};
    ghost use Rattle.juniper_nodes.specs.Literal.{number_of, meaning_of, own_text};
    ghost use Rattle.juniper_nodes.specs.laws.LiteralLaws.{meaning-is_text};

    ghost own_int = { number_of };

    ghost own_str = { meaning_of };

    ghost own_text = { own_text };

    ghost equal_by_content = { λ a b. same_content-Decides (scalar_content a) (scalar_content b) };

    ghost shows_itself = { λ a. refl };

    ghost lent_is_text = { meaning-is_text };

    fn from_default(scalar: DefaultScalarValue) -> Self {
        SourceScalar::Default(scalar)
    }

    #[tactic(auto, using(juniper_nodes::proofs::Public::shown_back))]
    fn held(&self) -> Held<'_> {
        match self {
            SourceScalar::Default(scalar) => Held::Default(scalar),
            SourceScalar::LargeInt | SourceScalar::Float => Held::Own {
                int: None,
                text: None,
            },
            SourceScalar::BlockString(text) => Held::Own {
                int: None,
                text: Some(text.as_str()),
            },
        }
    }

    #[tactic(auto, using(crate::proofs::Scalars::texts))]
    fn to_default(&self, alloc: Global) -> Result<DefaultScalarValue, AllocError> {
        match self {
            SourceScalar::Default(scalar) => scalar.try_clone(alloc),
            SourceScalar::LargeInt | SourceScalar::Float => {
                Ok(DefaultScalarValue::String(String::new(alloc)))
            }
            SourceScalar::BlockString(text) => Ok(DefaultScalarValue::String(copied(alloc, text)?)),
        }
    }

    #[tactic(auto, using(crate::proofs::Scalars::texts))]
    fn into_default(self, alloc: Global) -> Result<DefaultScalarValue, AllocError> {
        match self {
            SourceScalar::Default(scalar) => Ok(scalar),
            SourceScalar::LargeInt | SourceScalar::Float => {
                Ok(DefaultScalarValue::String(String::new(alloc)))
            }
            SourceScalar::BlockString(text) => Ok(DefaultScalarValue::String(text)),
        }
    }

    fn try_copy(&self, alloc: Global) -> Result<Self, AllocError> {
        match self {
            SourceScalar::Default(scalar) => Ok(SourceScalar::Default(scalar.try_clone(alloc)?)),
            SourceScalar::LargeInt => Ok(SourceScalar::LargeInt),
            SourceScalar::Float => Ok(SourceScalar::Float),
            SourceScalar::BlockString(text) => Ok(SourceScalar::BlockString(copied(alloc, text)?)),
        }
    }
}
