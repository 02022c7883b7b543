//! Conversions of input values.
ghost use Rattle.std.specs.Prelude.{◌≡◌, Result};
ghost use Rattle.graphql_grammar.specs.Tree.{Value, Null};
ghost use Rattle.juniper_values.specs.View.{view};

use crate::input_value::InputValue;
use std::alloc::Global;

/// A type that can be made from an input value with scalars of type `S`.
pub trait FromInputValue<S: Drop>: Sized {
    /// The error for a value that is refused.
    type Error;

    // What the conversion may return for a value.
    ghost answers: { Value S → Result Self Self.Error → Type 0 };

    // What it may return if no value is given.
    ghost implicit: { Result Self Self.Error → Type 0 };

    /// Converts the value to this type. Running out of memory is an error of the type's own.
    fn from_input_value(alloc: Global, value: &InputValue<S>) -> Result<Self, Self::Error>
        ensures { answers (view (λ s. s) value.now) result };

    /// Converts an absent value: as `null`, unless the type says otherwise. Running out of memory is an error of the
    /// type's own.
    fn from_implicit_null(alloc: Global) -> Result<Self, Self::Error>
        ensures { implicit result }
    {
        Self::from_input_value(alloc, &InputValue::Null)
    }

    // The result for `null` may stand for a value that is not given.
    ghost null_serves: { (r : Result Self Self.Error) → answers Null r → implicit r };
}

impl<S: Drop> InputValue<S> {
    /// Converts the value to the type `T`. This promises what `T` itself states, and no more. The error is that of `T`,
    /// also if memory runs out.
    pub fn convert<T: FromInputValue<S>>(&self, alloc: Global) -> Result<T, T::Error>
        ensures { T.answers (view (λ s. s) self.now) result }
    {
        T::from_input_value(alloc, self)
    }
}
