//! Conversions to input values and answer values.
ghost use Rattle.std.specs.Prelude.{◌≡◌, IfOk, MatchOption, string_bytes};
ghost use Rattle.std.specs.Cow.{cow_str_bytes};
ghost use Rattle.std.specs.Str.{chars};
ghost use Rattle.graphql_grammar.specs.Tree.{Null as input_null, Scalar as input_scalar};
ghost use Rattle.juniper_values.specs.View.{view as input_view};
ghost use Rattle.juniper_values.specs.declared.input_value.InputValue.{InputValue};
ghost use Rattle.juniper_answers.specs.Data.{null, scalar};
ghost use Rattle.juniper_answers.specs.View.{view};
ghost use Rattle.juniper_answers.specs.declared.value.Value.{Value};

use crate::value::Value;
use juniper_values::{InputValue, ScalarValue, ToScalarValue, scalar_from_str};
use std::alloc::{AllocError, Global};
use std::borrow::CowStr;

/// A type whose values become input values with scalars of type `S`.
pub trait IntoInputValue<S> {
    // The input value that a value becomes.
    ghost becomes: { Self → InputValue S → Type 0 };

    /// Converts the value to an input value. Returns `AllocError` if memory runs out; the value is dropped then.
    fn into_input_value(self, alloc: Global) -> Result<InputValue<S>, AllocError>
        ensures { IfOk result (λ v. becomes self v) };
}

/// A type whose values become answer values with scalars of type `S`.
pub trait IntoValue<S> {
    // The answer value that a value becomes.
    ghost becomes: { Self → Value S → Type 0 };

    /// Converts the value to an answer value. Returns `AllocError` if memory runs out; the value is dropped then.
    fn into_value(self, alloc: Global) -> Result<Value<S>, AllocError>
        ensures { IfOk result (λ v. becomes self v) };
}

/// The value itself.
impl<S> IntoInputValue<S> for InputValue<S> {
    ghost becomes = { λ w v. v ≡ w };

    fn into_input_value(self, _alloc: Global) -> Result<InputValue<S>, AllocError> {
        Ok(self)
    }
}

/// `None` becomes `null`.
impl<S, T: IntoInputValue<S>> IntoInputValue<S> for Option<T> {
    ghost becomes = { λ o v. MatchOption o (input_view (λ s. s) v ≡ input_null) (λ t. T.becomes t v) };

    fn into_input_value(self, alloc: Global) -> Result<InputValue<S>, AllocError> {
        match self {
            Some(value) => value.into_input_value(alloc),
            None => Ok(InputValue::Null),
        }
    }
}

/// The scalar that `to_scalar_value` makes.
impl<'a, S, T: ToScalarValue<S>> IntoInputValue<S> for &'a T {
    ghost becomes = { λ t v. (s : S) × (input_view (λ s. s) v ≡ input_scalar s) × T.gives t.now s };

    fn into_input_value(self, alloc: Global) -> Result<InputValue<S>, AllocError> {
        Ok(InputValue::Scalar(self.to_scalar_value(alloc)?))
    }
}

/// The scalar of the text.
impl<S: ScalarValue> IntoInputValue<S> for String {
    ghost becomes = { λ t v. input_view S.content v ≡ input_scalar (S.of_text (chars (string_bytes t))) };

    fn into_input_value(self, _alloc: Global) -> Result<InputValue<S>, AllocError> {
        Ok(InputValue::Scalar(S::from_string(self)))
    }
}

/// The scalar of the text.
impl<'a, S: ScalarValue> IntoInputValue<S> for CowStr<'a> {
    ghost becomes = { λ t v. input_view S.content v ≡ input_scalar (S.of_text (chars (cow_str_bytes t))) };

    fn into_input_value(self, alloc: Global) -> Result<InputValue<S>, AllocError> {
        Ok(InputValue::Scalar(S::from_string(self.into_owned(alloc)?)))
    }
}

/// The scalar of the integer.
impl<S: ScalarValue> IntoInputValue<S> for i32 {
    ghost becomes = { λ n v. input_view S.content v ≡ input_scalar (S.of_int n) };

    fn into_input_value(self, _alloc: Global) -> Result<InputValue<S>, AllocError> {
        Ok(InputValue::Scalar(S::from_int(self)))
    }
}

/// The scalar of the boolean.
impl<S: ScalarValue> IntoInputValue<S> for bool {
    ghost becomes = { λ b v. input_view S.content v ≡ input_scalar (S.of_bool b) };

    fn into_input_value(self, _alloc: Global) -> Result<InputValue<S>, AllocError> {
        Ok(InputValue::Scalar(S::from_bool(self)))
    }
}

/// The value itself.
impl<S> IntoValue<S> for Value<S> {
    ghost becomes = { λ w v. v ≡ w };

    fn into_value(self, _alloc: Global) -> Result<Value<S>, AllocError> {
        Ok(self)
    }
}

/// `None` becomes `null`.
impl<S, T: IntoValue<S>> IntoValue<S> for Option<T> {
    ghost becomes = { λ o v. MatchOption o (view (λ s. s) v ≡ null) (λ t. T.becomes t v) };

    fn into_value(self, alloc: Global) -> Result<Value<S>, AllocError> {
        match self {
            Some(value) => value.into_value(alloc),
            None => Ok(Value::Null),
        }
    }
}

/// The scalar that `to_scalar_value` makes.
impl<'a, S, T: ToScalarValue<S>> IntoValue<S> for &'a T {
    ghost becomes = { λ t v. (s : S) × (view (λ s. s) v ≡ scalar s) × T.gives t.now s };

    fn into_value(self, alloc: Global) -> Result<Value<S>, AllocError> {
        Ok(Value::Scalar(self.to_scalar_value(alloc)?))
    }
}

/// The scalar of the text.
impl<S: ScalarValue> IntoValue<S> for String {
    ghost becomes = { λ t v. view S.content v ≡ scalar (S.of_text (chars (string_bytes t))) };

    fn into_value(self, _alloc: Global) -> Result<Value<S>, AllocError> {
        Ok(Value::Scalar(S::from_string(self)))
    }
}

/// The scalar of the text.
impl<'a, S: ScalarValue> IntoValue<S> for CowStr<'a> {
    ghost becomes = { λ t v. view S.content v ≡ scalar (S.of_text (chars (cow_str_bytes t))) };

    fn into_value(self, alloc: Global) -> Result<Value<S>, AllocError> {
        Ok(Value::Scalar(S::from_string(self.into_owned(alloc)?)))
    }
}

/// The scalar of the integer.
impl<S: ScalarValue> IntoValue<S> for i32 {
    ghost becomes = { λ n v. view S.content v ≡ scalar (S.of_int n) };

    fn into_value(self, _alloc: Global) -> Result<Value<S>, AllocError> {
        Ok(Value::Scalar(S::from_int(self)))
    }
}

/// The scalar of the boolean.
impl<S: ScalarValue> IntoValue<S> for bool {
    ghost becomes = { λ b v. view S.content v ≡ scalar (S.of_bool b) };

    fn into_value(self, _alloc: Global) -> Result<Value<S>, AllocError> {
        Ok(Value::Scalar(S::from_bool(self)))
    }
}

/// The input value of a text's scalar. Returns `AllocError` if memory runs out.
pub fn input_value_from_str<S: ScalarValue>(
    alloc: Global,
    text: &str,
) -> Result<InputValue<S>, AllocError>
    ensures { IfOk result (λ v. input_view S.content v ≡ input_scalar (S.of_text (chars text.now))) }
{
    Ok(InputValue::Scalar(scalar_from_str(alloc, text)?))
}

/// The answer value of a text's scalar. Returns `AllocError` if memory runs out.
pub fn value_from_str<S: ScalarValue>(alloc: Global, text: &str) -> Result<Value<S>, AllocError>
    ensures { IfOk result (λ v. view S.content v ≡ scalar (S.of_text (chars text.now))) }
{
    Ok(Value::Scalar(scalar_from_str(alloc, text)?))
}
