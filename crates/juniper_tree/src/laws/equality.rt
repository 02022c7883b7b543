//! How the parts of a tree are compared: `PartialEq` of each is derived.
ghost use Rattle.std.specs.Prelude.{◌≡◌, ◌&&◌, ◌↔◌, false, IsTrue};
ghost use Rattle.graphql_grammar.specs.declared.operation.OperationType.{OperationType};
ghost use Rattle.juniper_tokens.specs.declared.span.Spanning.{Spanning};
ghost use Rattle.juniper_values.specs.laws.ValueLaws.{IsEqualityLike};
ghost use Rattle.juniper_tree.specs.SameArguments.{same_arguments};
ghost use Rattle.juniper_tree.specs.declared.ast.Arguments.{Arguments};
ghost use Rattle.juniper_tree.specs.declared.ast.Definition.{Definition};
ghost use Rattle.juniper_tree.specs.declared.ast.Directive.{Directive};
ghost use Rattle.juniper_tree.specs.declared.ast.Field.{Field};
ghost use Rattle.juniper_tree.specs.declared.ast.Fragment.{Fragment};
ghost use Rattle.juniper_tree.specs.declared.ast.FragmentSpread.{FragmentSpread};
ghost use Rattle.juniper_tree.specs.declared.ast.InlineFragment.{InlineFragment};
ghost use Rattle.juniper_tree.specs.declared.ast.Operation.{Operation};
ghost use Rattle.juniper_tree.specs.declared.ast.Selection.{Selection};
ghost use Rattle.juniper_tree.specs.declared.ast.VariableDefinition.{VariableDefinition};
ghost use Rattle.juniper_tree.specs.declared.ast.VariableDefinitions.{VariableDefinitions};

use crate::ast::{
    Arguments, Definition, Directive, Field, Fragment, FragmentSpread, InlineFragment, Operation,
    Selection, VariableDefinition, VariableDefinitions,
};
use graphql_grammar::OperationType;
use juniper_tokens::Spanning;
use juniper_values::laws::values_are_compared_whatever_their_places;
use juniper_values::{InputValue, Type};

// What several parts hold.
type Word<'a> = Spanning<&'a str>;

type Given<'a, S> = Option<Spanning<Arguments<'a, S>>>;

type Directives<'a, S> = Option<Vec<Spanning<Directive<'a, S>>>>;

type Selections<'a, S> = Vec<Selection<'a, S>>;

type Variable<'a, S> = (Word<'a>, VariableDefinition<'a, S>);

/// Equality of arguments regardless of their order and spans is reflexive, symmetric and transitive, as equality of their
/// scalars is.
pub fn arguments_are_compared_whatever_their_places<S: Eq>()
    ensures { IsEqualityLike (same_arguments S.eq) }
{
    // The law that the proof cites.
    values_are_compared_whatever_their_places::<S>();
}

/// Two parts of a tree are equal exactly if all their fields are, spans included.
pub fn parts_are_compared_whole<'a, S: PartialEq + Drop>()
    ensures arguments { (a b : Arguments S) → ⟦<Arguments<'a, S> as PartialEq>⟧.eq a b
        ≡ ⟦<Vec<(Word<'a>, Spanning<InputValue<S>>)> as PartialEq>⟧.eq a.items b.items }
    ensures directive { (a b : Directive S) → ⟦<Directive<'a, S> as PartialEq>⟧.eq a b
        ≡ (⟦<Word<'a> as PartialEq>⟧.eq a.name b.name
        && ⟦<Given<'a, S> as PartialEq>⟧.eq a.arguments b.arguments) }
    ensures variable { (a b : VariableDefinition S) → ⟦<VariableDefinition<'a, S> as PartialEq>⟧.eq a b
        ≡ (⟦<Spanning<Type<&'a str>> as PartialEq>⟧.eq a.var_type b.var_type
        && (⟦<Option<Spanning<InputValue<S>>> as PartialEq>⟧.eq a.default_value b.default_value
        && ⟦<Directives<'a, S> as PartialEq>⟧.eq a.directives b.directives)) }
    ensures variables { (a b : VariableDefinitions S) → ⟦<VariableDefinitions<'a, S> as PartialEq>⟧.eq a b
        ≡ ⟦<Vec<Variable<'a, S>> as PartialEq>⟧.eq a.items b.items }
    ensures field { (a b : Field S) → ⟦<Field<'a, S> as PartialEq>⟧.eq a b
        ≡ (⟦<Option<Word<'a>> as PartialEq>⟧.eq a.alias b.alias
        && (⟦<Word<'a> as PartialEq>⟧.eq a.name b.name
        && (⟦<Given<'a, S> as PartialEq>⟧.eq a.arguments b.arguments
        && (⟦<Directives<'a, S> as PartialEq>⟧.eq a.directives b.directives
        && ⟦<Option<Selections<'a, S>> as PartialEq>⟧.eq a.selection_set b.selection_set)))) }
    ensures spread { (a b : FragmentSpread S) → ⟦<FragmentSpread<'a, S> as PartialEq>⟧.eq a b
        ≡ (⟦<Word<'a> as PartialEq>⟧.eq a.name b.name
        && ⟦<Directives<'a, S> as PartialEq>⟧.eq a.directives b.directives) }
    ensures inline { (a b : InlineFragment S) → ⟦<InlineFragment<'a, S> as PartialEq>⟧.eq a b
        ≡ (⟦<Option<Word<'a>> as PartialEq>⟧.eq a.type_condition b.type_condition
        && (⟦<Directives<'a, S> as PartialEq>⟧.eq a.directives b.directives
        && ⟦<Selections<'a, S> as PartialEq>⟧.eq a.selection_set b.selection_set)) }
    ensures operation { (a b : Operation S) → ⟦<Operation<'a, S> as PartialEq>⟧.eq a b
        ≡ (⟦<OperationType as PartialEq>⟧.eq a.operation_type b.operation_type
        && (⟦<Option<Word<'a>> as PartialEq>⟧.eq a.name b.name
        && (⟦<Option<Spanning<VariableDefinitions<'a, S>>> as PartialEq>⟧.eq a.variable_definitions b.variable_definitions
        && (⟦<Directives<'a, S> as PartialEq>⟧.eq a.directives b.directives
        && ⟦<Selections<'a, S> as PartialEq>⟧.eq a.selection_set b.selection_set)))) }
    ensures fragment { (a b : Fragment S) → ⟦<Fragment<'a, S> as PartialEq>⟧.eq a b
        ≡ (⟦<Word<'a> as PartialEq>⟧.eq a.name b.name
        && (⟦<Word<'a> as PartialEq>⟧.eq a.type_condition b.type_condition
        && (⟦<Directives<'a, S> as PartialEq>⟧.eq a.directives b.directives
        && ⟦<Selections<'a, S> as PartialEq>⟧.eq a.selection_set b.selection_set))) }
{}

/// Operation types are equal if they are the same; selections and definitions if they are of one kind and what they
/// hold is equal, spans included.
pub fn kinds_are_compared_apart<'a, S: PartialEq + Drop>()
    ensures operation_type { (a b : OperationType) → IsTrue (⟦<OperationType as PartialEq>⟧.eq a b) ↔ (a ≡ b) }
    ensures fields { (a b : Spanning (Field S)) → ⟦<Selection<'a, S> as PartialEq>⟧.eq (Selection.Field a) (Selection.Field b)
        ≡ ⟦<Spanning<Field<'a, S>> as PartialEq>⟧.eq a b }
    ensures spreads { (a b : Spanning (FragmentSpread S)) → ⟦<Selection<'a, S> as PartialEq>⟧.eq (Selection.FragmentSpread a) (Selection.FragmentSpread b)
        ≡ ⟦<Spanning<FragmentSpread<'a, S>> as PartialEq>⟧.eq a b }
    ensures inlines { (a b : Spanning (InlineFragment S)) → ⟦<Selection<'a, S> as PartialEq>⟧.eq (Selection.InlineFragment a) (Selection.InlineFragment b)
        ≡ ⟦<Spanning<InlineFragment<'a, S>> as PartialEq>⟧.eq a b }
    ensures field_and_spread { (a : Spanning (Field S)) (b : Spanning (FragmentSpread S))
        → ⟦<Selection<'a, S> as PartialEq>⟧.eq (Selection.Field a) (Selection.FragmentSpread b) ≡ false }
    ensures field_and_inline { (a : Spanning (Field S)) (b : Spanning (InlineFragment S))
        → ⟦<Selection<'a, S> as PartialEq>⟧.eq (Selection.Field a) (Selection.InlineFragment b) ≡ false }
    ensures spread_and_inline { (a : Spanning (FragmentSpread S)) (b : Spanning (InlineFragment S))
        → ⟦<Selection<'a, S> as PartialEq>⟧.eq (Selection.FragmentSpread a) (Selection.InlineFragment b) ≡ false }
    ensures operations { (a b : Spanning (Operation S)) → ⟦<Definition<'a, S> as PartialEq>⟧.eq (Definition.Operation a) (Definition.Operation b)
        ≡ ⟦<Spanning<Operation<'a, S>> as PartialEq>⟧.eq a b }
    ensures fragments { (a b : Spanning (Fragment S)) → ⟦<Definition<'a, S> as PartialEq>⟧.eq (Definition.Fragment a) (Definition.Fragment b)
        ≡ ⟦<Spanning<Fragment<'a, S>> as PartialEq>⟧.eq a b }
    ensures operation_and_fragment { (a : Spanning (Operation S)) (b : Spanning (Fragment S))
        → ⟦<Definition<'a, S> as PartialEq>⟧.eq (Definition.Operation a) (Definition.Fragment b) ≡ false }
{}
