//! Laws of scalars, types and input values.
ghost use Rattle.std.specs.Prelude.{◌≡◌, ◌≢◌, ◌↔◌, ℕ, true, List, [], All, Some, codes};
ghost use Rattle.graphql_lexical.specs.Tokens.{Pieces, IsUnit, IsName};
ghost use Rattle.graphql_lexical.specs.laws.Written.{IsCutInto};
ghost use Rattle.juniper_values.specs.Text.{Text};
ghost use Rattle.juniper_values.specs.laws.BlockLaws.{HasNoBlankEnds, IsIndented};
ghost use Rattle.juniper_values.specs.BlockStrings.{block_value};
ghost use Rattle.juniper_values.specs.Equality.{same_value};
ghost use Rattle.juniper_values.specs.laws.ValueLaws.{IsExactlyUnescaped, HaveNoVariables, RemovesVariables, IsEmptyWithoutVariables, IsEqualityLike, AreSameFields, WrapsOnce};
ghost use Rattle.juniper_values.specs.ReadBack.{type_tokens, value_tokens, IsPlain};
ghost use Rattle.juniper_values.specs.Resolve.{Values, resolve};
ghost use Rattle.juniper_values.specs.Same.{same_but_place};
ghost use Rattle.juniper_values.specs.Default.{plain_shown};
ghost use Rattle.juniper_values.specs.Display.{value_text};
ghost use Rattle.juniper_values.specs.Scalar.{Content};
ghost use Rattle.juniper_values.specs.TypeLiteral.{TypeShape, same_type, type_text};
ghost use Rattle.juniper_values.specs.Units.{StandsFor};
ghost use Rattle.graphql_grammar.specs.Tree.{Value, ObjectFields, Object};
ghost use Rattle.juniper_values.specs.Variables.{HasNoVariable};
ghost use Rattle.juniper_values.specs.View.{view};
ghost use Rattle.juniper_values.specs.declared.input_value.InputValue.{InputValue};
ghost use Rattle.juniper_values.specs.declared.type_literal.TypeModifier.{TypeModifier};

use crate::scalar::ScalarValue;
use crate::type_literal::NameText;

/// The default scalar reads a String as what its text means, unit by unit.
pub fn strings_are_unescaped()
    ensures { (t : Text) → IsExactlyUnescaped t }
{}

/// Each String that a source can hold means a text.
pub fn units_stand_for_a_text()
    ensures { (t : Text) → Pieces IsUnit t → (u : Text) × StandsFor t u }
{}

/// The value of a block string has no carriage return.
pub fn block_strings_have_no_carriage_return()
    ensures { (t : Text) → All (λ c. c ≢ 13) (block_value t) }
{}

/// The first and the last line of a block string's value are not blank, if it has a character.
pub fn block_strings_have_no_blank_ends()
    ensures { (t : Text) → block_value t ≢ [] → HasNoBlankEnds (block_value t) }
{}

/// A block string has the same value if every line but the first is indented by the same number of tabs and spaces
/// more.
pub fn indented_block_strings_are_alike()
    ensures { (n : ℕ) (t u : Text) → IsIndented n t u → block_value u ≡ block_value t }
{}

/// Three texts between the triple quotes of block strings, and their values.
pub fn block_strings_stand_for_texts()
    ensures indented { block_value (codes "\n    a\n      b\n  ") ≡ codes "a\n  b" }
    ensures empty { block_value (codes "\n") ≡ [] }
    ensures quotes { block_value (codes "a\\\"\"\"b") ≡ codes "a\"\"\"b" }
{}

/// Equality of scalars is reflexive, symmetric and transitive.
pub fn scalars_are_compared<S: ScalarValue>()
    ensures { IsEqualityLike S.eq }
{}

/// Scalars of the same content are equal. So a copy equals its source.
pub fn scalar_copies_are_equal<S: ScalarValue>()
    ensures { (a b : S) → S.content a ≡ S.content b → S.eq a b ≡ true }
{}

/// Values are equal exactly if their scalars have the same contents and all else is the same. So a copy of a value
/// equals its source.
pub fn value_copies_are_equal<S: ScalarValue>()
    ensures { (a b : InputValue S) → (view S.content a ≡ view S.content b) ↔ (same_value S.eq (view (λ s. s) a) (view (λ s. s) b) ≡ true) }
{}

/// If no variable's value has a variable, resolving leaves no variable, and returns None only for a variable without a
/// value.
pub fn resolving_removes_variables<S: ScalarValue>()
    ensures { (m : Values Content) → HaveNoVariables m → (v : InputValue S) → RemovesVariables m (view S.content v) }
{}

/// Resolving leaves a value without variables unchanged.
pub fn resolving_keeps_values_without_variables<S: ScalarValue>()
    ensures { (m : Values Content) (v : InputValue S) → HasNoVariable (view S.content v) → resolve m (view S.content v) ≡ Some (view S.content v) }
{}

/// A value refers to no variable exactly if it has none.
pub fn no_variables<S: ScalarValue>()
    ensures by_scalar { (v : InputValue S) → IsEmptyWithoutVariables (view (λ s. s) v) }
    ensures by_content { (v : InputValue S) → IsEmptyWithoutVariables (view S.content v) }
{}

/// Equality of values regardless of their spans is reflexive, symmetric and transitive, as equality of their scalars
/// is.
pub fn values_are_compared_whatever_their_places<S: Eq>()
    ensures { IsEqualityLike (same_but_place S.eq) }
{}

/// Equal values are equal regardless of their spans.
pub fn equal_values_are_so_whatever_their_places<S: Eq>()
    ensures { (v w : Value S) → same_value S.eq v w ≡ true → same_but_place S.eq v w ≡ true }
{}

/// Two objects are equal regardless of their spans exactly if they have the same number of fields, and for each field
/// of either the other has one with the same key and an equal value.
pub fn objects_are_compared_both_ways<S: Eq>()
    ensures { (fs gs : ObjectFields S) → (same_but_place S.eq (Object fs) (Object gs) ≡ true) ↔ AreSameFields S.eq fs gs }
{}

/// The effect of wrapping a type once more.
pub fn wrapping()
    ensures { (name : Text) (ms : List TypeModifier) (m : TypeModifier) → WrapsOnce name ms m }
{}

/// Types are equal exactly if their names' texts and their modifiers are.
pub fn types_are_compared<N: NameText>()
    ensures { (a b : TypeShape N) → (same_type N.name_text a b ≡ true) ↔ ((N.name_text a.name ≡ N.name_text b.name) × (a.modifiers ≡ b.modifiers)) }
{}

/// The text of a type whose name is a Name is cut into the type's tokens.
pub fn type_texts_are_cut()
    ensures { (name : Text) (ms : List TypeModifier) → IsName name → IsCutInto (type_text name ms) (type_tokens name ms) }
{}

/// The text of a plain value of default scalars is cut into the value's tokens.
pub fn value_texts_are_cut()
    ensures { (v : Value Content) → IsPlain v → IsCutInto (value_text plain_shown v) (value_tokens v) }
{}
