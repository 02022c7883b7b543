//! Laws of the tree, of displays and of scalar types: the contracts of functions that do nothing. A function whose proof needs
//! one calls it.
ghost use Rattle.std.specs.Prelude.{◌≡◌, List};
ghost use Rattle.std.specs.List.{AllByRecursion};
ghost use Rattle.graphql_lexical.specs.Tokens.{IsName};
ghost use Rattle.graphql_lexical.specs.Cutting.{Lexeme};
ghost use Rattle.graphql_grammar.specs.Grammar.{IsDocument};
ghost use Rattle.graphql_grammar.specs.ScalarTokens.{IsRead, IsReadAlso};
ghost use Rattle.graphql_grammar.specs.Tree.{Definition, Scalars};
ghost use Rattle.juniper_tokens.specs.Errors.{Error};
ghost use Rattle.juniper_values.specs.Default.{default_content};
ghost use Rattle.juniper_values.specs.ReadBack.{IsPlain};
ghost use Rattle.juniper_values.specs.Scalar.{Content};
ghost use Rattle.juniper_values.specs.Text.{Text};
ghost use Rattle.juniper_values.specs.TypeLiteral.{type_text};
ghost use Rattle.juniper_values.specs.View.{view};
ghost use Rattle.juniper_values.specs.declared.default_scalar.DefaultScalarValue.{DefaultScalarValue};
ghost use Rattle.juniper_values.specs.declared.input_value.InputValue.{InputValue};
ghost use Rattle.juniper_values.specs.declared.type_literal.TypeModifier.{TypeModifier};
ghost use Rattle.juniper_tree.specs.ReadBack.{AreWritable, IsReadAsType, IsReadBack, type_of};
ghost use Rattle.juniper_tree.specs.Cases.{SeesValues, SeesSelections};
ghost use Rattle.juniper_tree.specs.Scalars.{stated};

mod equality;

pub use equality::{
    arguments_are_compared_whatever_their_places, kinds_are_compared_apart,
    parts_are_compared_whole,
};
use juniper_values::ScalarValue;

/// Each scalar token of a document is one that the scalar type reads. A document of another scalar type is the same
/// document of this one, if this type reads its scalar tokens as the other does, and has the same `true` and `false`.
pub fn scalar_tokens<S: ScalarValue>()
    ensures read { (ts : List Lexeme) (tree : List (Definition Content)) → IsDocument (stated S.reading S.of_bool) tree ts → AllByRecursion (IsRead (stated S.reading S.of_bool)) ts }
    ensures of_others { (T : Scalars Content Error) (ts : List Lexeme) (tree : List (Definition Content)) → T.of_bool ≡ S.of_bool
        → AllByRecursion (IsReadAlso T (stated S.reading S.of_bool)) ts → IsDocument T tree ts → IsDocument (stated S.reading S.of_bool) tree ts }
{}

/// The display of a type is read back as that type, if its name is a Name, no `!` is directly after another, and no
/// list has a size.
pub fn type_display_is_read_back()
    ensures { (name : Text) (ms : List TypeModifier) → IsName name → AreWritable ms → IsReadAsType (type_text name ms) (type_of name ms) }
{}

/// The display of a plain value of default scalars is read back as that value, apart from its spans.
pub fn value_display_is_read_back()
    ensures { (v : InputValue DefaultScalarValue) → IsPlain (view default_content v) → IsReadBack v }
{}

/// The view of a value of a tree, variant by variant: of a scalar its content.
pub fn values_are_seen<S: ScalarValue>()
    ensures { SeesValues S.content }
{}

/// The view of a selection, variant by variant.
pub fn selections_are_seen<S: ScalarValue>()
    ensures { SeesSelections S.content }
{}
