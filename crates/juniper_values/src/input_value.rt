//! Input values: what a request passes to arguments and variables.
ghost use Rattle.std.specs.Prelude.{◌≡◌, option_map};
ghost use Rattle.std.specs.Str.{chars};
ghost use Rattle.juniper_values.specs.Kinds.{is_null, is_variable, enum_in, scalar_in};
ghost use Rattle.juniper_values.specs.View.{view};

mod compare;
mod convert;
mod copies;
mod display;
mod equal;
mod make;
mod maps;
mod resolve;
mod uses;
mod variables;

pub use convert::FromInputValue;
use juniper_tokens::Spanning;
pub use resolve::Variables;

/// An input value (GraphQL specification, October 2021, section 2.9), with the spans of the items of its lists and of
/// the keys and values of its objects.
#[derive(Debug, Drop)]
pub enum InputValue<S> {
    /// `null`
    Null,
    /// A scalar.
    Scalar(S),
    /// An enum value, by its name.
    Enum(String),
    /// A variable, by its name.
    Variable(String),
    /// A list.
    List(Vec<Spanning<InputValue<S>>>),
    /// The fields of an object, in their order, repeated keys kept.
    Object(Vec<(Spanning<String>, Spanning<InputValue<S>>)>),
}

impl<S> InputValue<S> {
    /// Whether the value is `null`.
    pub fn is_null(&self) -> bool
        ensures { result ≡ is_null (view (λ s. s) self.now) }
    {
        match self {
            InputValue::Null => true,
            _ => false,
        }
    }

    /// Whether the value is a variable.
    pub fn is_variable(&self) -> bool
        ensures { result ≡ is_variable (view (λ s. s) self.now) }
    {
        match self {
            InputValue::Variable(_) => true,
            _ => false,
        }
    }

    /// The name of an enum value, or None for another value.
    pub fn as_enum_value(&self) -> Option<&str>
        ensures { option_map (λ s. chars s.now) result ≡ enum_in (view (λ s. s) self.now) }
    {
        match self {
            InputValue::Enum(name) => Some(name.as_str()),
            _ => None,
        }
    }

    /// The scalar that the value is, if it is one.
    pub fn as_scalar(&self) -> Option<&S>
        ensures { option_map (λ s. s.now) result ≡ scalar_in (view (λ s. s) self.now) }
    {
        match self {
            InputValue::Scalar(scalar) => Some(scalar),
            _ => None,
        }
    }
}
