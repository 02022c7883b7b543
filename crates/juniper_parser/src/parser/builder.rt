//! What the parse functions build of a document.
ghost use Rattle.std.specs.Prelude.{◌≡◌, ◌++◌, ◌∷◌, [], List, Option, option_map, IfOk, OnOk};
ghost use Rattle.graphql_grammar.specs.Tokens.{Located, Word};
ghost use Rattle.graphql_grammar.specs.Tree as tree;
ghost use Rattle.graphql_grammar.specs.Tree.{Value as Seen, Null, Scalar as SeenScalar, Enum, Variable, ListOf, Object, items_of, fields_of};
ghost use Rattle.juniper_tokens.specs.declared.error.ParseFailure.TheVariants as parses;
ghost use Rattle.juniper_tokens.specs.Spans.{view_span};
ghost use Rattle.juniper_tokens.specs.Tokens.{scalar_kind, scalar_text};
ghost use Rattle.juniper_values.specs.Scalar.{Content, Reading};
ghost use Rattle.juniper_values.specs.View.{view_located};
ghost use Rattle.juniper_values.specs.declared.scalar.ReadFailure.TheVariants as reads;
ghost use Rattle.juniper_parser.specs.Building.{Opened, a_list, an_object, an_object_field, some_arguments, an_argument, a_directive, a_field, a_spread, an_inline_fragment, some_variables, a_variable, an_operation, a_fragment, BuildsEach, BuildsList, BuildsOptional, BuildsOptionalSet, BuildsRead, BuildsSet, FailsReading, IsUnread};
ghost use Rattle.juniper_tree.specs.View.{type_of};

use crate::parser::lists::push_item;
use graphql_grammar::OperationType;
use juniper_tokens::{Feed, ParseFailure, ScalarToken, SourceText, Span, Spanning};
use juniper_values::{NameText, ParseScalarValue, ReadFailure, Type};
use std::alloc::{AllocError, Global};

/// A list that gathers parts.
pub trait Gather<X: Drop> {
    ghost gathered: { Self → List X };

    /// An empty list.
    fn none(alloc: Global) -> Self
        ensures { gathered result ≡ [] };

    /// Appends a part. The first one of a list requests capacity for as many as are expected.
    ///
    /// Returns `AllocError` if memory runs out.
    fn gather(&mut self, part: X, expected: usize) -> Result<(), AllocError>
        ensures { OnOk result (gathered self.new ≡ gathered self.old ++ part ∷ []) };
}

impl<X: Drop> Gather<X> for Vec<X> {
    ghost gathered = { λ parts. parts.items };

    #[inline(always)]
    fn none(alloc: Global) -> Vec<X> {
        Vec::new(alloc)
    }

    #[inline(always)]
    fn gather(&mut self, part: X, expected: usize) -> Result<(), AllocError> {
        push_item(self, part, expected)
    }
}

/// What a builder returns for a token with this span of which its scalar type made no scalar.
pub fn unread(failure: ReadFailure, span: Span) -> ParseFailure
    ensures gives { (reading : Reading) → FailsReading reading failure → IsUnread reading (view_span span) result }
    ensures memory { result ≡ parses.Memory → failure ≡ reads.Memory }
{
    match failure {
        ReadFailure::Refused(error) => ParseFailure::Refused(Spanning::new(span, error)),
        ReadFailure::Memory => ParseFailure::Memory,
    }
}

/// Builds something of each part of a document, in the order in which the parts end.
///
/// A part that has others in it is opened before them. A call that returns a `Result` returns `AllocError` if memory runs
/// out, and what was built is of no use then.
///
/// The calls that end a part return it as it is, and can't fail. Those are `list`, `object`, `arguments`, `argument`,
/// `directive`, `field`, `fragment_spread`, `inline_fragment`, `variables`, `variable_definition`, `operation` and
/// `fragment`. A builder that needs memory for such a part, for a `Box` of it or its place in a list, takes it when the part
/// is opened, or when the part is gathered.
pub trait Builder<S: ParseScalarValue<S>> {
    /// A name of the source.
    type Name: SourceText + NameText + Drop;

    /// Where its tokens come from: `Listed` from a parser, `Streamed` from a source.
    type Feed: Feed;

    /// A part that is opened.
    type Open: Drop;

    type Value: Drop;

    type Items: Gather<Self::Value> + Drop;

    type ObjectField: Drop;

    type Fields: Gather<Self::ObjectField> + Drop;

    type Argument: Drop;

    type ArgumentList: Gather<Self::Argument> + Drop;

    /// Arguments with their parentheses.
    type Arguments: Drop;

    type Directive: Drop;

    type Directives: Gather<Self::Directive> + Drop;

    type Selection: Drop;

    type Selections: Gather<Self::Selection> + Drop;

    type VariableDefinition: Drop;

    type VariableList: Gather<Self::VariableDefinition> + Drop;

    /// Variable definitions with their parentheses.
    type Variables: Drop;

    type Definition: Drop;

    type Definitions: Gather<Self::Definition> + Drop;

    // Going from one state to another it opened this part, or built that of this part.
    ghost opens: { Self → Self → Self.Open → Opened → Type 0 };

    ghost builds_value: { Self → Self → Self.Value → Located (Seen Content) → Type 0 };

    ghost builds_field: { Self → Self → Self.ObjectField → Word × Located (Seen Content) → Type 0 };

    ghost builds_argument: { Self → Self → Self.Argument → tree.Argument Content → Type 0 };

    ghost builds_arguments: { Self → Self → Self.Arguments → tree.Arguments Content → Type 0 };

    ghost builds_directive: { Self → Self → Self.Directive → Located (tree.Directive Content) → Type 0 };

    ghost builds_selection: { Self → Self → Self.Selection → tree.Selection Content → Type 0 };

    ghost builds_variable: { Self → Self → Self.VariableDefinition → tree.VariableDefinition Content → Type 0 };

    ghost builds_variables: { Self → Self → Self.Variables → tree.Variables Content → Type 0 };

    ghost builds_definition: { Self → Self → Self.Definition → tree.Definition Content → Type 0 };

    /// Builds null.
    fn null(&mut self, span: Span) -> Result<Self::Value, AllocError>
        ensures { IfOk result (λ value. builds_value self.old self.new value (record { item = Null; span = view_span span })) };

    /// Builds a scalar that no token is read for.
    fn scalar(&mut self, scalar: S, span: Span) -> Result<Self::Value, AllocError>
        ensures { IfOk result (λ value. builds_value self.old self.new value (record { item = SeenScalar (S.content scalar); span = view_span span })) };

    /// Builds what a scalar token means to the scalar type (GraphQL specification, October 2021, section 2.9).
    ///
    /// If the type refuses it, returns `Refused` with the type's error and the token's span. If memory runs out, it returns
    /// `Memory` in place of `AllocError`. `unread` makes either of what the type's `from_str` returned.
    fn scalar_token(
        &mut self,
        alloc: Global,
        token: ScalarToken<'_>,
        span: Span,
    ) -> Result<Self::Value, ParseFailure>
        ensures { BuildsRead (builds_value self.old self.new) (S.reading (scalar_kind token.entry) (scalar_text token.entry)) (view_span span) result };

    /// Builds an enum value.
    fn enum_value(&mut self, name: Self::Name, span: Span) -> Result<Self::Value, AllocError>
        ensures { IfOk result (λ value. builds_value self.old self.new value (record { item = Enum (Self.Name.characters name); span = view_span span })) };

    /// Builds a variable of this name. The span has its `$`, too.
    fn variable(&mut self, name: Self::Name, span: Span) -> Result<Self::Value, AllocError>
        ensures { IfOk result (λ value. builds_value self.old self.new value (record { item = Variable (Self.Name.characters name); span = view_span span })) };

    /// Opens a list value.
    fn open_list(&mut self) -> Result<Self::Open, AllocError>
        ensures { IfOk result (λ part. opens self.old self.new part a_list) };

    /// Builds a list of these items.
    fn list(&mut self, part: Self::Open, items: Self::Items, span: Span) -> Self::Value
        ensures { (first opened : Self) (vs : List (Located (Seen Content))) → opens first opened part a_list → BuildsEach builds_value opened self.old (Self.Items.gathered items) vs → builds_value first self.new result (record { item = ListOf (items_of vs); span = view_span span }) };

    /// Opens an object.
    fn open_object(&mut self) -> Result<Self::Open, AllocError>
        ensures { IfOk result (λ part. opens self.old self.new part an_object) };

    /// Builds an object of these fields.
    fn object(&mut self, part: Self::Open, fields: Self::Fields, span: Span) -> Self::Value
        ensures { (first opened : Self) (fs : List (Word × Located (Seen Content))) → opens first opened part an_object → BuildsEach builds_field opened self.old (Self.Fields.gathered fields) fs → builds_value first self.new result (record { item = Object (fields_of fs); span = view_span span }) };

    /// Opens a field of an object.
    fn open_object_field(&mut self, key: &Spanning<Self::Name>) -> Result<Self::Open, AllocError>
        ensures { IfOk result (λ part. opens self.old self.new part (an_object_field (view_located Self.Name.characters key.now))) };

    /// Builds a field of an object, of its key and its value.
    fn object_field(
        &mut self,
        part: Self::Open,
        key: &Spanning<Self::Name>,
        value: Self::Value,
    ) -> Result<Self::ObjectField, AllocError>
        ensures { IfOk result (λ field. (first opened : Self) (v : Located (Seen Content)) → opens first opened part (an_object_field (view_located Self.Name.characters key.now)) → builds_value opened self.old value v → builds_field first self.new field (view_located Self.Name.characters key.now, v)) };

    /// Opens arguments.
    fn open_arguments(&mut self) -> Result<Self::Open, AllocError>
        ensures { IfOk result (λ part. opens self.old self.new part some_arguments) };

    /// Builds arguments with their parentheses.
    fn arguments(
        &mut self,
        part: Self::Open,
        items: Self::ArgumentList,
        span: Span,
    ) -> Self::Arguments
        ensures { (first opened : Self) (xs : List (tree.Argument Content)) → opens first opened part some_arguments → BuildsEach builds_argument opened self.old (Self.ArgumentList.gathered items) xs → builds_arguments first self.new result (record { item = xs; span = view_span span }) };

    /// Opens an argument.
    fn open_argument(&mut self, name: &Spanning<Self::Name>) -> Result<Self::Open, AllocError>
        ensures { IfOk result (λ part. opens self.old self.new part (an_argument (view_located Self.Name.characters name.now))) };

    /// Builds an argument of its name and its value.
    fn argument(
        &mut self,
        part: Self::Open,
        name: &Spanning<Self::Name>,
        value: Self::Value,
    ) -> Self::Argument
        ensures { (first opened : Self) (v : Located (Seen Content)) → opens first opened part (an_argument (view_located Self.Name.characters name.now)) → builds_value opened self.old value v → builds_argument first self.new result (record { name = view_located Self.Name.characters name.now; value = v }) };

    /// Opens a directive.
    fn open_directive(&mut self, name: &Spanning<Self::Name>) -> Result<Self::Open, AllocError>
        ensures { IfOk result (λ part. opens self.old self.new part (a_directive (view_located Self.Name.characters name.now))) };

    /// Builds a directive.
    fn directive(
        &mut self,
        part: Self::Open,
        name: &Spanning<Self::Name>,
        arguments: Option<Self::Arguments>,
        span: Span,
    ) -> Self::Directive
        ensures { (first opened : Self) (xs : Option (tree.Arguments Content)) → opens first opened part (a_directive (view_located Self.Name.characters name.now)) → BuildsOptional builds_arguments opened self.old arguments xs → builds_directive first self.new result (record { item = record { name = view_located Self.Name.characters name.now; arguments = xs }; span = view_span span }) };

    /// Opens a field.
    fn open_field(
        &mut self,
        alias: &Option<Spanning<Self::Name>>,
        name: &Spanning<Self::Name>,
    ) -> Result<Self::Open, AllocError>
        ensures { IfOk result (λ part. opens self.old self.new part (a_field (option_map (view_located Self.Name.characters) alias.now) (view_located Self.Name.characters name.now))) };

    /// Builds a field.
    fn field(
        &mut self,
        part: Self::Open,
        alias: &Option<Spanning<Self::Name>>,
        name: &Spanning<Self::Name>,
        arguments: Option<Self::Arguments>,
        directives: Option<Self::Directives>,
        selection_set: Option<Self::Selections>,
        span: Span,
    ) -> Self::Selection
        ensures { (first opened with_arguments with_directives : Self) (xs : Option (tree.Arguments Content)) (ds : tree.Directives Content) (set : tree.OptionalSelections Content) → opens first opened part (a_field (option_map (view_located Self.Name.characters) alias.now) (view_located Self.Name.characters name.now)) → BuildsOptional builds_arguments opened with_arguments arguments xs → BuildsOptional (BuildsList builds_directive Self.Directives.gathered) with_arguments with_directives directives ds → BuildsOptionalSet builds_selection Self.Selections.gathered with_directives self.old selection_set set → builds_selection first self.new result (tree.Field (option_map (view_located Self.Name.characters) alias.now) (view_located Self.Name.characters name.now) xs ds set (view_span span)) };

    /// Opens the spread of a fragment.
    fn open_fragment_spread(
        &mut self,
        name: &Spanning<Self::Name>,
    ) -> Result<Self::Open, AllocError>
        ensures { IfOk result (λ part. opens self.old self.new part (a_spread (view_located Self.Name.characters name.now))) };

    /// Builds the spread of a fragment.
    fn fragment_spread(
        &mut self,
        part: Self::Open,
        name: &Spanning<Self::Name>,
        directives: Option<Self::Directives>,
        span: Span,
    ) -> Self::Selection
        ensures { (first opened : Self) (ds : tree.Directives Content) → opens first opened part (a_spread (view_located Self.Name.characters name.now)) → BuildsOptional (BuildsList builds_directive Self.Directives.gathered) opened self.old directives ds → builds_selection first self.new result (tree.FragmentSpread (view_located Self.Name.characters name.now) ds (view_span span)) };

    /// Opens an inline fragment.
    fn open_inline_fragment(
        &mut self,
        type_condition: &Option<Spanning<Self::Name>>,
    ) -> Result<Self::Open, AllocError>
        ensures { IfOk result (λ part. opens self.old self.new part (an_inline_fragment (option_map (view_located Self.Name.characters) type_condition.now))) };

    /// Builds an inline fragment.
    fn inline_fragment(
        &mut self,
        part: Self::Open,
        type_condition: &Option<Spanning<Self::Name>>,
        directives: Option<Self::Directives>,
        selection_set: Self::Selections,
        span: Span,
    ) -> Self::Selection
        ensures { (first opened with_directives : Self) (ds : tree.Directives Content) (set : tree.Selections Content) → opens first opened part (an_inline_fragment (option_map (view_located Self.Name.characters) type_condition.now)) → BuildsOptional (BuildsList builds_directive Self.Directives.gathered) opened with_directives directives ds → BuildsSet builds_selection Self.Selections.gathered with_directives self.old selection_set set → builds_selection first self.new result (tree.InlineFragment (option_map (view_located Self.Name.characters) type_condition.now) ds set (view_span span)) };

    /// Opens variable definitions.
    fn open_variables(&mut self) -> Result<Self::Open, AllocError>
        ensures { IfOk result (λ part. opens self.old self.new part some_variables) };

    /// Builds variable definitions with their parentheses.
    fn variables(
        &mut self,
        part: Self::Open,
        items: Self::VariableList,
        span: Span,
    ) -> Self::Variables
        ensures { (first opened : Self) (vs : List (tree.VariableDefinition Content)) → opens first opened part some_variables → BuildsEach builds_variable opened self.old (Self.VariableList.gathered items) vs → builds_variables first self.new result (record { item = vs; span = view_span span }) };

    /// Opens the definition of a variable. The name's span has its `$`, too.
    fn open_variable_definition(
        &mut self,
        name: &Spanning<Self::Name>,
        var_type: &Spanning<Type<Self::Name>>,
    ) -> Result<Self::Open, AllocError>
        ensures { IfOk result (λ part. opens self.old self.new part (a_variable (view_located Self.Name.characters name.now) (view_located (type_of Self.Name.characters) var_type.now))) };

    /// Builds the definition of a variable.
    fn variable_definition(
        &mut self,
        part: Self::Open,
        name: &Spanning<Self::Name>,
        var_type: Spanning<Type<Self::Name>>,
        default_value: Option<Self::Value>,
        directives: Option<Self::Directives>,
    ) -> Self::VariableDefinition
        ensures { (first opened with_default : Self) (v : Option (Located (Seen Content))) (ds : tree.Directives Content) → opens first opened part (a_variable (view_located Self.Name.characters name.now) (view_located (type_of Self.Name.characters) var_type)) → BuildsOptional builds_value opened with_default default_value v → BuildsOptional (BuildsList builds_directive Self.Directives.gathered) with_default self.old directives ds → builds_variable first self.new result (record { name = view_located Self.Name.characters name.now; of_type = view_located (type_of Self.Name.characters) var_type; default = v; directives = ds }) };

    /// Opens an operation.
    fn open_operation(
        &mut self,
        operation_type: OperationType,
        name: &Option<Spanning<Self::Name>>,
    ) -> Result<Self::Open, AllocError>
        ensures { IfOk result (λ part. opens self.old self.new part (an_operation operation_type (option_map (view_located Self.Name.characters) name.now))) };

    /// Builds an operation.
    fn operation(
        &mut self,
        part: Self::Open,
        operation_type: OperationType,
        name: &Option<Spanning<Self::Name>>,
        variable_definitions: Option<Self::Variables>,
        directives: Option<Self::Directives>,
        selection_set: Self::Selections,
        span: Span,
    ) -> Self::Definition
        ensures { (first opened with_variables with_directives : Self) (vs : Option (tree.Variables Content)) (ds : tree.Directives Content) (set : tree.Selections Content) → opens first opened part (an_operation operation_type (option_map (view_located Self.Name.characters) name.now)) → BuildsOptional builds_variables opened with_variables variable_definitions vs → BuildsOptional (BuildsList builds_directive Self.Directives.gathered) with_variables with_directives directives ds → BuildsSet builds_selection Self.Selections.gathered with_directives self.old selection_set set → builds_definition first self.new result (tree.Operation operation_type (option_map (view_located Self.Name.characters) name.now) vs ds set (view_span span)) };

    /// Opens the definition of a fragment.
    fn open_fragment(
        &mut self,
        name: &Spanning<Self::Name>,
        type_condition: &Spanning<Self::Name>,
    ) -> Result<Self::Open, AllocError>
        ensures { IfOk result (λ part. opens self.old self.new part (a_fragment (view_located Self.Name.characters name.now) (view_located Self.Name.characters type_condition.now))) };

    /// Builds the definition of a fragment.
    fn fragment(
        &mut self,
        part: Self::Open,
        name: &Spanning<Self::Name>,
        type_condition: &Spanning<Self::Name>,
        directives: Option<Self::Directives>,
        selection_set: Self::Selections,
        span: Span,
    ) -> Self::Definition
        ensures { (first opened with_directives : Self) (ds : tree.Directives Content) (set : tree.Selections Content) → opens first opened part (a_fragment (view_located Self.Name.characters name.now) (view_located Self.Name.characters type_condition.now)) → BuildsOptional (BuildsList builds_directive Self.Directives.gathered) opened with_directives directives ds → BuildsSet builds_selection Self.Selections.gathered with_directives self.old selection_set set → builds_definition first self.new result (tree.Fragment (view_located Self.Name.characters name.now) (view_located Self.Name.characters type_condition.now) ds set (view_span span)) };
}
