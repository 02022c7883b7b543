//! Laws of answer values, objects and names.
ghost use Rattle.std.specs.Hash as fed;
ghost use Rattle.std.specs.Prelude.{◌≡◌, ◌↔◌, ℕ, List, Some, String, true, IsTrue};
ghost use Rattle.std.specs.Ordering.{is_eq};
ghost use Rattle.std.specs.String.{string_cmp};
ghost use Rattle.std.specs.Map.Iter.{deref_pair};
ghost use Rattle.std.specs.declared.alloc.Global.{Global};
ghost use Rattle.juniper_values.specs.laws.ValueLaws.{IsEqualityLike};
ghost use Rattle.juniper_answers.specs.Copies.{Copies};
ghost use Rattle.juniper_answers.specs.Input.{as_input};
ghost use Rattle.juniper_answers.specs.laws.AnswerLaws.{IsOneName, IsPlainInput, ComparesParts, HasKindsApart, ShowsAll};
ghost use Rattle.juniper_answers.specs.Names.{is_name};
ghost use Rattle.juniper_answers.specs.NameTexts.{text_of_name};
ghost use Rattle.juniper_answers.specs.Same.{same_entries};
ghost use Rattle.juniper_answers.specs.View.{view, pairs};
ghost use Rattle.juniper_answers.specs.declared.name.Name.{Name};
ghost use Rattle.juniper_answers.specs.declared.name.NameParseError.{NameParseError};
ghost use Rattle.juniper_answers.specs.declared.value.Object.{Object};
ghost use Rattle.juniper_answers.specs.declared.value.Value.{Value};

use crate::name::{Name, NameParseError};
use crate::value::{Fields, IntoFields, Object, Value};
use juniper_values::ScalarValue;
use std::hash::Hash;

/// A text is a name exactly if it is one token, a Name with this very text.
pub fn names_are_tokens()
    ensures { (text : List ℕ) → (is_name text ≡ true) ↔ IsOneName text }
{}

/// Equality of values is reflexive, symmetric and transitive, as equality of their scalars is.
pub fn values_are_compared<S: Eq>()
    ensures { IsEqualityLike ⟦<Value<S> as PartialEq>⟧.eq }
{}

/// Equality of objects is reflexive, symmetric and transitive, as equality of their scalars is.
pub fn objects_are_compared<S: Eq>()
    ensures { IsEqualityLike ⟦<Object<S> as PartialEq>⟧.eq }
{}

/// Values are equal if they are of one kind and hold equal parts, the fields of objects in any order.
pub fn values_are_compared_by_parts<S: Eq>()
    ensures parts { ComparesParts S.eq ⟦<Value<S> as PartialEq>⟧.eq }
    ensures kinds { HasKindsApart ⟦<Value<S> as PartialEq>⟧.eq }
{}

/// Objects are equal if they have the same keys, in any order, with equal values.
pub fn objects_are_compared_by_fields<S: Eq>()
    ensures { (a b : Object S) → ⟦<Object<S> as PartialEq>⟧.eq a b ≡ same_entries ⟦<Value<S> as PartialEq>⟧.eq (pairs a) (pairs b) }
{}

/// Values of the same data, with scalars by their contents, are equal. So a copy of a value equals its source.
pub fn equal_data_are_equal<S: ScalarValue>()
    ensures data { (a b : Value S) → view S.content a ≡ view S.content b → ⟦<Value<S> as PartialEq>⟧.eq a b ≡ true }
    ensures copies { (a b : Value S) → Copies (λ s t. S.content t ≡ S.content s) a b → ⟦<Value<S> as PartialEq>⟧.eq a b ≡ true }
{
    values_are_compared_by_parts::<S>();
}

/// The input value of an answer value has no enum, no variable, and unlocated spans only.
pub fn input_values_are_plain<S: ScalarValue>()
    ensures { (value : Value S) → IsPlainInput (as_input (view S.content value)) }
{}

/// The orders of names agree with equality, and with one another: names are compared by their texts.
pub fn names_agree()
    ensures equal { (a b : Name) → ⟦<Name as PartialEq>⟧.eq a b ≡ is_eq (⟦<Name as Ord>⟧.cmp a b) }
    ensures partial { (a b : Name) → ⟦<Name as PartialOrd>⟧.partial_cmp a b ≡ Some (⟦<Name as Ord>⟧.cmp a b) }
    ensures texts { (a b : Name) → IsTrue (⟦<Name as PartialEq>⟧.eq a b) ↔ (text_of_name a ≡ text_of_name b) }
    ensures order { (a b : Name) → ⟦<Name as Ord>⟧.cmp a b ≡ string_cmp a.text b.text }
{}

/// The orders of refusals of names agree with equality, and with one another: they are compared by their texts.
pub fn refusals_agree()
    ensures equal { (a b : NameParseError) → ⟦<NameParseError as PartialEq>⟧.eq a b ≡ is_eq (⟦<NameParseError as Ord>⟧.cmp a b) }
    ensures partial { (a b : NameParseError) → ⟦<NameParseError as PartialOrd>⟧.partial_cmp a b ≡ Some (⟦<NameParseError as Ord>⟧.cmp a b) }
    ensures order { (a b : NameParseError) → ⟦<NameParseError as Ord>⟧.cmp a b ≡ string_cmp a.0 b.0 }
{}

/// Equal names hash alike.
pub fn equal_names_hash_alike()
    ensures { (a b : Name) → IsTrue (⟦<Name as PartialEq>⟧.eq a b) → ⟦<Name as Hash>⟧.hash_input a ≡ ⟦<Name as Hash>⟧.hash_input b }
{}

/// A name is hashed as its text.
pub fn names_are_hashed_as_texts()
    ensures { (a : Name) → ⟦<Name as Hash>⟧.hash_input a ≡ fed.str (text_of_name a) }
{}

/// The iterators of an object show its fields in order, and end.
pub fn fields_come_in_order<'a, S: Drop + 'a>()
    ensures lent { (fields : List (String Global × Value S)) → ShowsAll deref_pair ⟦<Fields<'a, S> as Iterator>⟧.next_gives ⟦<Fields<'a, S> as Iterator>⟧.remaining fields }
    ensures given { (fields : List (String Global × Value S)) → ShowsAll (λ p. p) ⟦<IntoFields<S> as Iterator>⟧.next_gives ⟦<IntoFields<S> as Iterator>⟧.remaining fields }
{}
