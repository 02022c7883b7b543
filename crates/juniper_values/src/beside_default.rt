//! Scalar types that have the default type's scalars, and their own beside them.
ghost use Rattle.std.specs.Prelude.{◌≡◌, ◌↔◌, ℤ, true, List, Option, Some, IfOk};
ghost use Rattle.std.specs.Str.{encode_utf8_all};
ghost use Rattle.juniper_values.specs.Text.{Text};
ghost use Rattle.juniper_values.specs.Default.{default_content};
ghost use Rattle.juniper_values.specs.BesideDefault.{IsHeldAs, as_default, shown_beside};

use crate::default_scalar::DefaultScalarValue;
use crate::scalar::{ParseScalarValue, ScalarValue};
use std::alloc::{AllocError, Global};
use std::fmt;

/// What a scalar is to a type that has the default type's scalars, and its own beside them.
#[derive(Debug, Drop)]
pub enum Held<'a> {
    /// A scalar of the default type.
    Default(&'a DefaultScalarValue),
    /// A scalar of the type's own, which the default type doesn't have.
    Own {
        /// The integer that it is, if it is one.
        int: Option<i32>,
        /// Its text, if it has one that can be borrowed.
        text: Option<&'a str>,
    },
}

/// A type of scalars that has those of the default type, and its own beside them (GraphQL specification, October 2021,
/// section 3.5).
///
/// A scalar of its own has the content `custom`, and a text, which it displays. By these functions the type is a
/// `ScalarValue`, in which a scalar of the default type is what it is there.
pub trait BesideDefault: Sized + Drop + fmt::Display + Eq + ParseScalarValue<Self> {
    // What is found in the content of a scalar of its own: an integer, a text that can be borrowed, and its text.
    ghost own_int: { List ℤ → Option ℤ };

    ghost own_str: { List ℤ → Option Text };

    ghost own_text: { List ℤ → Text };

    /// The scalar of the default type, as one of this type.
    fn from_default(scalar: DefaultScalarValue) -> Self
        ensures { Self.content result ≡ default_content scalar };

    /// The scalar as one of the default type, or what can be seen in one of its own.
    fn held(&self) -> Held<'_>
        ensures { IsHeldAs own_int own_str (Self.content self.now) result };

    /// A copy of the scalar in the default type, where a scalar of its own becomes its text. Returns `AllocError` if
    /// memory runs out.
    fn to_default(&self, alloc: Global) -> Result<DefaultScalarValue, AllocError>
        ensures { IfOk result (λ s. default_content s ≡ as_default own_text (Self.content self.now)) };

    /// The scalar in the default type, where a scalar of its own becomes its text. The scalar is dropped, also if
    /// memory runs out.
    fn into_default(self, alloc: Global) -> Result<DefaultScalarValue, AllocError>
        ensures { IfOk result (λ s. default_content s ≡ as_default own_text (Self.content self)) };

    /// A copy, which equals the scalar. Returns `AllocError` if memory runs out.
    fn try_copy(&self, alloc: Global) -> Result<Self, AllocError>
        ensures { IfOk result (λ s. Self.content s ≡ Self.content self.now) };

    // Equality is equality of contents.
    ghost equal_by_content: { (a b : Self) → Self.Eq.eq a b ≡ true ↔ Self.content a ≡ Self.content b };

    // The display is the default type's, and of a scalar of its own its text.
    ghost shows_itself: { (a : Self) → Self.Display.output a ≡ Some (encode_utf8_all (shown_beside own_text (Self.content a))) };

    // A text that is borrowed is the scalar's text.
    ghost lent_is_text: { (ns : List ℤ) (t : Text) → own_str ns ≡ Some t → own_text ns ≡ t };
}

/// A scalar of the default type returns what it does there, and one of its own what is found in its content.
impl<T: BesideDefault> ScalarValue for T {
    ghost use Rattle.juniper_values.specs.Scalar.{boolean, integer, text};
    ghost use Rattle.juniper_values.specs.Default.{bool_in};
    ghost use Rattle.juniper_values.specs.BesideDefault.{int_beside, str_beside, string_beside, shown_beside};
    ghost use Rattle.juniper_values.specs.laws.BesideLaws.{beside-has_form, lent-is_string};

    ghost of_bool = { boolean };

    ghost of_int = { integer };

    ghost of_text = { text };

    ghost bool_in = { bool_in };

    ghost int_in = { int_beside T.own_int };

    ghost str_in = { str_beside T.own_str };

    ghost string_in = { string_beside T.own_text };

    ghost own_string_in = { string_beside T.own_text };

    ghost shown = { shown_beside T.own_text };

    ghost equal_by_content = { T.equal_by_content };

    ghost has_form = { λ a. beside-has_form T.own_text T.own_int (T.content a) };

    ghost shows_itself = { T.shows_itself };

    ghost lent_is_copied = { λ a. lent-is_string T.own_text T.own_str T.lent_is_text (T.content a) };

    ghost lent_is_handed_out = { λ a. lent-is_string T.own_text T.own_str T.lent_is_text (T.content a) };

    fn from_bool(value: bool) -> Self {
        T::from_default(DefaultScalarValue::from_bool(value))
    }

    fn from_int(value: i32) -> Self {
        T::from_default(DefaultScalarValue::from_int(value))
    }

    fn from_string(value: String) -> Self {
        T::from_default(DefaultScalarValue::from_string(value))
    }

    fn try_to_bool(&self) -> Option<bool> {
        match self.held() {
            Held::Default(scalar) => scalar.try_to_bool(),
            Held::Own { .. } => None,
        }
    }

    fn try_to_int(&self) -> Option<i32> {
        match self.held() {
            Held::Default(scalar) => scalar.try_to_int(),
            Held::Own { int, .. } => int,
        }
    }

    fn try_as_str(&self) -> Option<&str> {
        match self.held() {
            Held::Default(scalar) => scalar.try_as_str(),
            Held::Own { text, .. } => text,
        }
    }

    fn try_to_string(&self, alloc: Global) -> Result<Option<String>, AllocError> {
        self.to_default(alloc)?.try_into_string(alloc)
    }

    fn try_into_string(self, alloc: Global) -> Result<Option<String>, AllocError> {
        self.into_default(alloc)?.try_into_string(alloc)
    }

    fn try_clone(&self, alloc: Global) -> Result<Self, AllocError> {
        self.try_copy(alloc)
    }
}
