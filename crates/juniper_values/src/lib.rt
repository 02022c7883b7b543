//! Scalars, type literals and input values of GraphQL.
#![tactic(auto)]

mod beside_default;
mod block_string;
mod default_scalar;
mod escapes;
mod input_value;
pub mod laws;
mod scalar;
mod text;
mod type_literal;

pub use beside_default::{BesideDefault, Held};
pub use block_string::write_block_string_value;
pub use default_scalar::DefaultScalarValue;
pub use escapes::write_string_value;
pub use input_value::{FromInputValue, InputValue, Variables};
pub use scalar::{
    FromScalarValue, ParseScalarResult, ParseScalarValue, ReadFailure, Scalar, ScalarValue,
    ToScalarValue, WrongInputScalarTypeError, scalar_from_str,
};
pub use type_literal::{NameText, Type, TypeLiteral, TypeModifier, TypeModifiers};
