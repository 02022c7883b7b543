//! Scalar types: what one states of itself, and what it returns.
ghost use Rattle.std.specs.Prelude.{◌≡◌, ◌↔◌, ◌⊎◌, ℤ, Bool, Option, Some, None, true, IsSome, IfSome, IfOk, Result, option_map, string_bytes};
ghost use Rattle.std.specs.Fmt.{DisplaysOnOk};
ghost use Rattle.std.specs.Str.{chars, encode_utf8_all};
ghost use Rattle.graphql_lexical.specs.declared.kind.Kind.{Kind};
ghost use Rattle.juniper_tokens.specs.Tokens.{scalar_kind, scalar_text};
ghost use Rattle.juniper_values.specs.Text.{Text};
ghost use Rattle.juniper_values.specs.Scalar.{Content, Reading, MeetsReading, other_content};
ghost use Rattle.juniper_values.specs.ScalarDisplay.{scalar_display, wrong_type_text, wanted_text};

use crate::text::write_quoted;
use juniper_tokens::{ParseError, ScalarToken};
use std::alloc::{AllocError, Global};
use std::convert::Infallible;
use std::fmt;
use std::marker::Model;

/// Why a scalar type returned no scalar for a token.
#[derive(Debug, Drop)]
pub enum ReadFailure {
    /// The type does not read this token.
    Refused(ParseError),
    /// Memory ran out.
    Memory,
}

impl From<AllocError> for ReadFailure {
    ghost use Rattle.juniper_values.specs.declared.scalar.ReadFailure.TheVariants.{Memory};

    ghost from_gives = { λ _ e. e ≡ Memory };

    fn from(_error: AllocError) -> ReadFailure {
        ReadFailure::Memory
    }
}

/// A scalar that was read from a token, or why there is none.
pub type ParseScalarResult<S> = Result<S, ReadFailure>;

/// A type that reads scalars from tokens.
///
/// It states its reading of a token as a function of the token's kind and text: a scalar, by its content, or an error.
pub trait ParseScalarValue<S> {
    // What a scalar is known by.
    ghost content: { S → Content };

    // What this type states of a token of that kind and text.
    ghost reading: { Kind → Text → Reading };

    /// Reads the scalar of the token (GraphQL specification, October 2021, section 2.9).
    ///
    /// Fails with `Refused` and the error that the type's reading states, or with `Memory` if memory runs out.
    fn from_str(alloc: Global, token: ScalarToken<'_>) -> ParseScalarResult<S>
        ensures { MeetsReading content (reading (scalar_kind token.entry) (scalar_text token.entry)) result };
}

/// A type of scalars (GraphQL specification, October 2021, section 3.5).
///
/// A scalar is known by its content, and equal scalars are those of equal contents.
pub trait ScalarValue: Sized + Drop + fmt::Display + Eq + ParseScalarValue<Self> {
    // The content of a scalar that is made of a boolean, of an integer and of a text.
    ghost of_bool: { Bool → Content };

    ghost of_int: { ℤ → Content };

    ghost of_text: { Text → Content };

    // What the calls that look into a scalar find in its content.
    ghost bool_in: { Content → Option Bool };

    ghost int_in: { Content → Option ℤ };

    ghost str_in: { Content → Option Text };

    ghost string_in: { Content → Option Text };

    ghost own_string_in: { Content → Option Text };

    // The text that a scalar displays.
    ghost shown: { Content → Text };

    /// The scalar of a boolean.
    fn from_bool(value: bool) -> Self
        ensures { Self.content result ≡ of_bool value };

    /// The scalar of an integer.
    fn from_int(value: i32) -> Self
        ensures { Self.content result ≡ of_int value };

    /// The scalar of a text.
    fn from_string(value: String) -> Self
        ensures { Self.content result ≡ of_text (chars (string_bytes value)) };

    /// The boolean that the scalar is, if it is one.
    fn try_to_bool(&self) -> Option<bool>
        ensures { result ≡ bool_in (Self.content self.now) };

    /// The integer that the scalar is, if it is one.
    fn try_to_int(&self) -> Option<i32>
        ensures { result ≡ int_in (Self.content self.now) };

    /// The scalar's text, if it has one that can be borrowed.
    fn try_as_str(&self) -> Option<&str>
        ensures { option_map (λ s. chars s.now) result ≡ str_in (Self.content self.now) };

    /// A copy of the scalar's text, if it has one. Returns `AllocError` if memory runs out.
    fn try_to_string(&self, alloc: Global) -> Result<Option<String>, AllocError>
        ensures { IfOk result
            (λ o. option_map (λ s. chars (string_bytes s)) o ≡ string_in (Self.content self.now)) };

    /// The scalar's text, if it has one. The scalar is dropped, also if memory runs out.
    fn try_into_string(self, alloc: Global) -> Result<Option<String>, AllocError>
        ensures { IfOk result
            (λ o. option_map (λ s. chars (string_bytes s)) o ≡ own_string_in (Self.content self)) };

    /// A copy, which equals the scalar. Returns `AllocError` if memory runs out.
    fn try_clone(&self, alloc: Global) -> Result<Self, AllocError>
        ensures { IfOk result (λ s. Self.content s ≡ Self.content self.now) };

    /// Converts the scalar to the type `T`.
    final fn try_to<'a, T: FromScalarValue<'a, Self>>(&'a self) -> Result<T, T::Error>
        ensures { T.answers self.now result }
    {
        T::from_scalar_value(self)
    }

    /// Converts the scalar to another scalar type: by its integer, else by its boolean, else by its text.
    ///
    /// The scalar is dropped, also if memory runs out.
    final fn into_another<S2: ScalarValue>(self, alloc: Global) -> Result<S2, AllocError>
        ensures { IfOk result
            (λ s. Some (S2.content s)
            ≡ other_content (int_in (Self.content self)) (bool_in (Self.content self)) (own_string_in (Self.content self)) S2.of_int S2.of_bool S2.of_text) }
    {
        if let Some(n) = self.try_to_int() {
            return Ok(S2::from_int(n));
        }
        if let Some(b) = self.try_to_bool() {
            return Ok(S2::from_bool(b));
        }
        match self.try_into_string(alloc)? {
            Some(s) => Ok(S2::from_string(s)),
            None => unreachable!(),
        }
    }

    // Equality is equality of contents.
    ghost equal_by_content: { (a b : Self) → Self.Eq.eq a b ≡ true ↔ Self.content a ≡ Self.content b };

    // A scalar is an integer, a boolean or a text.
    ghost has_form: { (a : Self) → IsSome (int_in (Self.content a)) ⊎ IsSome (bool_in (Self.content a)) ⊎ IsSome (own_string_in (Self.content a)) };

    // The display is the one stated.
    ghost shows_itself: { (a : Self) → Self.Display.output a ≡ Some (encode_utf8_all (shown (Self.content a))) };

    // A text that is borrowed is also the one that is copied, and the one that is moved out.
    ghost lent_is_copied: { (a : Self) (t : Text) → str_in (Self.content a) ≡ Some t → string_in (Self.content a) ≡ Some t };

    ghost lent_is_handed_out: { (a : Self) (t : Text) → str_in (Self.content a) ≡ Some t → own_string_in (Self.content a) ≡ Some t };
}

/// A type that can be made from a scalar of type `S` that lives for `'s`.
pub trait FromScalarValue<'s, S>: Sized {
    /// The error for a scalar that is refused.
    type Error;

    // What the conversion may return for a scalar.
    ghost answers: { S → Result Self Self.Error → Type 0 };

    /// Converts the scalar to this type.
    fn from_scalar_value(value: &'s S) -> Result<Self, Self::Error>
        ensures { answers value.now result };
}

/// The reference itself.
impl<'s, S> FromScalarValue<'s, S> for &'s S {
    type Error = Infallible;

    ghost answers = { λ v r. IfOk r (λ x. x.now ≡ v) };

    fn from_scalar_value(value: &'s S) -> Result<&'s S, Infallible> {
        Ok(value)
    }
}

/// A scalar as it is displayed within a value: a text between quotes, anything else by its own display.
#[derive(Debug, Drop)]
pub struct Scalar<'a, S> {
    scalar: &'a S,
}

impl<'a, S> Model for Scalar<'a, S> {
    ghost Value = { S };

    ghost view = { λ s. s.scalar.now };
}

impl<'a, S> Scalar<'a, S> {
    /// The scalar.
    pub fn get(&self) -> &'a S
        ensures { result.now ≡ self.now }
    {
        self.scalar
    }
}

impl<'a, S> From<&'a S> for Scalar<'a, S> {
    ghost from_gives = { λ v r. r ≡ v.now };

    fn from(value: &'a S) -> Self {
        Scalar { scalar: value }
    }
}

impl<'s, S> FromScalarValue<'s, S> for Scalar<'s, S> {
    type Error = Infallible;

    ghost answers = { λ v r. IfOk r (λ x. x ≡ v) };

    fn from_scalar_value(value: &'s S) -> Result<Scalar<'s, S>, Infallible> {
        Ok(Scalar::from(value))
    }
}

/// A text is between quotes, without escaping.
impl<'a, S: ScalarValue> fmt::Display for Scalar<'a, S> {
    ghost output = { λ s. Some (encode_utf8_all (scalar_display S.content S.str_in S.shown s)) };

    fn fmt<W: fmt::Write>(&self, f: &mut fmt::Formatter<W>) -> fmt::Result {
        write_scalar(f, self.scalar)
    }
}

// Writes a text between quotes, without escaping, and anything else by its own display.
pub(crate) fn write_scalar<S: ScalarValue, W: fmt::Write>(
    f: &mut fmt::Formatter<W>,
    scalar: &S,
) -> fmt::Result
    ensures { DisplaysOnOk W.write_str_gives f.old result
        (Some (encode_utf8_all (scalar_display S.content S.str_in S.shown scalar.now))) f.new }
{
    match scalar.try_as_str() {
        Some(text) => write_quoted(f, text),
        None => write!(f, "{scalar}"),
    }
}

/// The error that a scalar is not of the expected type.
#[derive(Debug, Drop)]
pub struct WrongInputScalarTypeError<'a, S> {
    /// The name of the expected type.
    pub type_name: &'a str,
    /// The scalar that was found.
    pub input: &'a S,
}

/// Displays both, as ``Expected `Int`, found: "x"``.
impl<'a, S: ScalarValue> fmt::Display for WrongInputScalarTypeError<'a, S> {
    ghost output = { λ e. Some (encode_utf8_all (wrong_type_text (chars e.type_name.now) (scalar_display S.content S.str_in S.shown e.input.now))) };

    fn fmt<W: fmt::Write>(&self, f: &mut fmt::Formatter<W>) -> fmt::Result {
        write_wanted(f, self.type_name)?;
        write_scalar(f, self.input)
    }
}

fn write_wanted<W: fmt::Write>(f: &mut fmt::Formatter<W>, name: &str) -> fmt::Result
    ensures { DisplaysOnOk W.write_str_gives f.old result (Some (encode_utf8_all (wanted_text (chars name.now)))) f.new }
{
    write!(f, "Expected `{name}`, found: ")
}

/// A type whose values can be converted to scalars of type `S`.
pub trait ToScalarValue<S> {
    // What the scalar of a value is.
    ghost gives: { Self → S → Type 0 };

    /// Converts the value to a scalar. Returns `AllocError` if memory runs out, for the copy of a text.
    fn to_scalar_value(&self, alloc: Global) -> Result<S, AllocError>
        ensures { IfOk result (λ s. gives self.now s) };
}

impl<S: ScalarValue> ToScalarValue<S> for i32 {
    ghost gives = { λ n s. S.content s ≡ S.of_int n };

    fn to_scalar_value(&self, _alloc: Global) -> Result<S, AllocError> {
        Ok(S::from_int(*self))
    }
}

impl<S: ScalarValue> ToScalarValue<S> for bool {
    ghost gives = { λ b s. S.content s ≡ S.of_bool b };

    fn to_scalar_value(&self, _alloc: Global) -> Result<S, AllocError> {
        Ok(S::from_bool(*self))
    }
}

impl<S: ScalarValue> ToScalarValue<S> for String {
    ghost gives = { λ t s. S.content s ≡ S.of_text (chars (string_bytes t)) };

    fn to_scalar_value(&self, alloc: Global) -> Result<S, AllocError> {
        scalar_from_str(alloc, self.as_str())
    }
}

/// The scalar of a text, which is copied. Returns `AllocError` if memory runs out.
pub fn scalar_from_str<S: ScalarValue>(alloc: Global, text: &str) -> Result<S, AllocError>
    ensures { IfOk result (λ s. S.content s ≡ S.of_text (chars text.now)) }
{
    Ok(S::from_string(String::from_str(alloc, text)?))
}
