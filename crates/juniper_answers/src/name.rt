//! Names of types, fields and arguments.
ghost use Rattle.std.specs.Prelude.{◌≡◌, false, true, IfOk, OnOk, IfErr, string_bytes, Some};
ghost use Rattle.std.specs.List.{list_all};
ghost use Rattle.std.specs.Str.{chars};
ghost use Rattle.graphql_lexical.specs.Characters.{is_name_start, is_name_character};
ghost use Rattle.juniper_answers.specs.Names.{is_name};
ghost use Rattle.juniper_answers.specs.NameFailures.{IsRefusalOf};

use std::alloc::{AllocError, Global};
use std::error::Error;
use std::fmt;

/// A name: an ASCII letter or `_`, and then ASCII letters, digits and `_` (GraphQL specification, October 2021, section
/// 2.1.9). The text of every `Name` has this form. Names are compared and ordered by their texts.
#[derive(PartialEq, Eq, PartialOrd, Ord, Hash, Debug, Drop)]
pub struct Name {
    text: String,
    pub ghost valid: { is_name (chars (string_bytes text)) ≡ true },
}

/// The error that a text isn't a name, as a text. Two are compared and ordered by their texts.
#[derive(PartialEq, Eq, PartialOrd, Ord, Debug, Drop)]
pub struct NameParseError(String);

/// Why no name was made.
#[derive(Debug, Drop)]
pub enum NameFailure {
    /// The text isn't a name.
    Invalid(NameParseError),
    /// Memory ran out.
    Memory,
}

impl fmt::Display for NameParseError {
    ghost output = { λ e. Some (string_bytes e.0) };

    fn fmt<W: fmt::Write>(&self, f: &mut fmt::Formatter<W>) -> fmt::Result {
        f.write_str(self.0.as_str())
    }
}

impl Error for NameParseError {}

fn starts_name(c: char) -> bool
    ensures { result ≡ is_name_start c }
{
    matches!(c, 'a'..='z' | 'A'..='Z' | '_')
}

fn continues_name(c: char) -> bool
    ensures { result ≡ is_name_character c }
{
    starts_name(c) || matches!(c, '0'..='9')
}

fn all_continue(text: &str) -> bool
    ensures { result ≡ list_all is_name_character (chars text.now) }
{
    text.chars().all(|c| continues_name(c))
}

impl Name {
    ghost use Rattle.juniper_answers.specs.NameTexts.{text_of_name};

    /// Whether the text is a name.
    pub fn is_valid(input: &str) -> bool
        ensures { result ≡ is_name (chars input.now) }
    {
        match input.chars().next() {
            Some(first) => starts_name(first) && all_continue(input),
            None => false,
        }
    }

    /// The name with this text.
    ///
    /// Fails with `Invalid`, which shows the text, if it isn't a name, and with `Memory` if memory runs out.
    pub fn new(alloc: Global, input: &str) -> Result<Name, NameFailure>
        ensures named { IfOk result (λ name. text_of_name name ≡ input.now) }
        ensures valid { OnOk result (is_name (chars input.now) ≡ true) }
        ensures refused { IfErr result (IsRefusalOf input.now) }
    {
        if !Name::is_valid(input) {
            return Err(refusal(alloc, input));
        }
        match String::from_str(alloc, input) {
            Ok(text) => Ok(Name { text }),
            Err(AllocError) => Err(NameFailure::Memory),
        }
    }

    /// The name's text, which is a name.
    pub fn as_str(&self) -> &str
        ensures text { result.now ≡ text_of_name self.now }
        ensures valid { is_name (chars result.now) ≡ true }
    {
        self.text.as_str()
    }
}

// The error that a text is no name.
fn refusal(alloc: Global, input: &str) -> NameFailure
    requires { is_name (chars input.now) ≡ false }
    ensures { IsRefusalOf input.now result }
{
    let text = format!(in alloc;
        "`Name` must match /^[_a-zA-Z][_a-zA-Z0-9]*$/ but \"{input}\" does not"
    );
    match text {
        Ok(text) => NameFailure::Invalid(NameParseError(text)),
        Err(_) => NameFailure::Memory,
    }
}
