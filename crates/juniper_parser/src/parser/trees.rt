//! Juniper's tree, as what the parse functions build.
ghost use Rattle.std.specs.Prelude.{◌≡◌, ◌++◌, ◌∷◌, [], List, Option, option_map, IfOk, OnOk};
ghost use Rattle.graphql_grammar.specs.Tokens.{Located};
ghost use Rattle.graphql_grammar.specs.Tree as tree;
ghost use Rattle.graphql_grammar.specs.Tree.{Value as Seen};
ghost use Rattle.juniper_tokens.specs.Spans.{view_span};
ghost use Rattle.juniper_values.specs.Scalar.{Content};
ghost use Rattle.juniper_parser.specs.Building.{BuildsList, BuildsOptional};
ghost use Rattle.juniper_parser.specs.Trees.{Shows, ShowsEach, ShowsDirectives, ShowsOptionalSet, ShowsSet};
ghost use Rattle.juniper_parser.specs.NamedVariables.{gathered_variables, view_named};
ghost use Rattle.juniper_tree.specs.View.{view_value, view_object_field, view_word, view_spanned_type, view_argument, view_arguments, view_directive, view_selection, view_variables, view_definition};
ghost use Rattle.juniper_parser.specs.declared.parser.trees.Trees.{Trees};

use crate::parser::builder::{Builder, Gather, unread};
use crate::parser::lists::push_item;
use graphql_grammar::OperationType;
use juniper_tokens::{Feed, ParseResult, ScalarToken, Span, Spanning};
use juniper_tree::{
    Arguments, Definition, Directive, Field, Fragment, FragmentSpread, InlineFragment, Operation,
    Selection, VariableDefinition, VariableDefinitions,
};
use juniper_values::{InputValue, ScalarValue, Type};
use std::alloc::{AllocError, Global};
use std::marker::PhantomData;

/// Builds juniper's tree, whose names are borrowed from the source.
#[derive(Drop)]
pub struct Trees<'a, M: Feed> {
    alloc: Global,
    source: PhantomData<&'a str>,
    feed: PhantomData<M>,
}

impl<'a, M: Feed> Trees<'a, M> {
    /// A builder of trees. Takes no memory yet.
    pub fn new(alloc: Global) -> Self {
        Trees {
            alloc,
            source: PhantomData,
            feed: PhantomData,
        }
    }
}

/// The definition of a variable with its name.
#[derive(Drop)]
pub struct NamedVariable<'a, S: Drop> {
    name: Spanning<&'a str>,
    definition: VariableDefinition<'a, S>,
}

impl<'a, S: Drop> Gather<NamedVariable<'a, S>> for VariableDefinitions<'a, S> {
    ghost gathered = { gathered_variables };

    #[inline(always)]
    fn none(alloc: Global) -> VariableDefinitions<'a, S>
        ensures { gathered_variables result ≡ [] }
    {
        VariableDefinitions {
            items: Vec::new(alloc),
        }
    }

    #[inline(always)]
    fn gather(&mut self, part: NamedVariable<'a, S>, expected: usize) -> Result<(), AllocError>
        ensures { OnOk result (gathered_variables self.new ≡ gathered_variables self.old ++ part.entry ∷ []) }
    {
        let name = copied(&part.name);
        push_item(&mut self.items, (name, part.definition), expected)
    }
}

/// A name, copied.
fn copied<'a>(name: &Spanning<&'a str>) -> Spanning<&'a str>
    ensures { result ≡ name.now }
{
    Spanning::new(name.span, name.item)
}

/// A name, copied, if there is one.
fn copied_option<'a>(name: &Option<Spanning<&'a str>>) -> Option<Spanning<&'a str>>
    ensures { result ≡ name.now }
{
    match name {
        Some(name) => Some(copied(name)),
        None => None,
    }
}

impl<'a, M: Feed, S: ScalarValue> Builder<S> for Trees<'a, M> {
    type Name = &'a str;

    type Feed = M;

    type Open = ();

    type Value = Spanning<InputValue<S>>;

    type Items = Vec<Spanning<InputValue<S>>>;

    type ObjectField = (Spanning<String>, Spanning<InputValue<S>>);

    type Fields = Vec<(Spanning<String>, Spanning<InputValue<S>>)>;

    type Argument = (Spanning<&'a str>, Spanning<InputValue<S>>);

    type ArgumentList = Vec<(Spanning<&'a str>, Spanning<InputValue<S>>)>;

    type Arguments = Spanning<Arguments<'a, S>>;

    type Directive = Spanning<Directive<'a, S>>;

    type Directives = Vec<Spanning<Directive<'a, S>>>;

    type Selection = Selection<'a, S>;

    type Selections = Vec<Selection<'a, S>>;

    type VariableDefinition = NamedVariable<'a, S>;

    type VariableList = VariableDefinitions<'a, S>;

    type Variables = Spanning<VariableDefinitions<'a, S>>;

    type Definition = Definition<'a, S>;

    type Definitions = Vec<Definition<'a, S>>;

    ghost opens = { λ old new part what. Unit {0} };

    ghost builds_value = { Shows (view_value S.content) };

    ghost builds_field = { Shows (view_object_field S.content) };

    ghost builds_argument = { Shows (view_argument S.content) };

    ghost builds_arguments = { Shows (view_arguments S.content) };

    ghost builds_directive = { Shows (view_directive S.content) };

    ghost builds_selection = { Shows (view_selection S.content) };

    ghost builds_variable = { Shows (view_named S.content) };

    ghost builds_variables = { Shows (view_variables S.content) };

    ghost builds_definition = { Shows (view_definition S.content) };

    #[inline(always)]
    fn null(&mut self, span: Span) -> Result<Spanning<InputValue<S>>, AllocError> {
        Ok(Spanning::new(span, InputValue::Null))
    }

    #[inline(always)]
    fn scalar(&mut self, scalar: S, span: Span) -> Result<Spanning<InputValue<S>>, AllocError> {
        Ok(Spanning::new(span, InputValue::Scalar(scalar)))
    }

    #[inline(always)]
    fn scalar_token(
        &mut self,
        alloc: Global,
        token: ScalarToken<'_>,
        span: Span,
    ) -> ParseResult<InputValue<S>> {
        match S::from_str(alloc, token) {
            Ok(scalar) => Ok(Spanning::new(span, InputValue::Scalar(scalar))),
            Err(failure) => Err(unread(failure, span)),
        }
    }

    #[inline(always)]
    fn enum_value(
        &mut self,
        name: &'a str,
        span: Span,
    ) -> Result<Spanning<InputValue<S>>, AllocError> {
        let text = String::from_str(self.alloc, name)?;
        Ok(Spanning::new(span, InputValue::Enum(text)))
    }

    #[inline(always)]
    fn variable(
        &mut self,
        name: &'a str,
        span: Span,
    ) -> Result<Spanning<InputValue<S>>, AllocError> {
        let text = String::from_str(self.alloc, name)?;
        Ok(Spanning::new(span, InputValue::Variable(text)))
    }

    #[inline(always)]
    fn open_list(&mut self) -> Result<(), AllocError> {
        Ok(())
    }

    #[inline(always)]
    fn list(
        &mut self,
        part: (),
        items: Vec<Spanning<InputValue<S>>>,
        span: Span,
    ) -> Spanning<InputValue<S>> {
        Spanning::new(span, InputValue::List(items))
    }

    #[inline(always)]
    fn open_object(&mut self) -> Result<(), AllocError> {
        Ok(())
    }

    #[inline(always)]
    fn object(
        &mut self,
        part: (),
        fields: Vec<(Spanning<String>, Spanning<InputValue<S>>)>,
        span: Span,
    ) -> Spanning<InputValue<S>> {
        Spanning::new(span, InputValue::Object(fields))
    }

    #[inline(always)]
    fn open_object_field(&mut self, key: &Spanning<&'a str>) -> Result<(), AllocError> {
        Ok(())
    }

    #[inline(always)]
    fn object_field(
        &mut self,
        part: (),
        key: &Spanning<&'a str>,
        value: Spanning<InputValue<S>>,
    ) -> Result<(Spanning<String>, Spanning<InputValue<S>>), AllocError>
        ensures { IfOk result (λ field. (first opened : Trees M) (v : Located (Seen Content)) → Unit {0} → view_value S.content value ≡ v → view_object_field S.content field ≡ (view_word key.now, v)) }
    {
        let text = String::from_str(self.alloc, key.item)?;
        Ok((Spanning::new(key.span, text), value))
    }

    #[inline(always)]
    fn open_arguments(&mut self) -> Result<(), AllocError> {
        Ok(())
    }

    #[inline(always)]
    fn arguments(
        &mut self,
        part: (),
        items: Vec<(Spanning<&'a str>, Spanning<InputValue<S>>)>,
        span: Span,
    ) -> Spanning<Arguments<'a, S>>
        ensures { (first opened : Trees M) (xs : List (tree.Argument Content)) → Unit {0} → ShowsEach (view_argument S.content) opened self.old items.entry xs → view_arguments S.content result ≡ record { item = xs; span = view_span span } }
    {
        Spanning::new(span, Arguments { items })
    }

    #[inline(always)]
    fn open_argument(&mut self, name: &Spanning<&'a str>) -> Result<(), AllocError> {
        Ok(())
    }

    #[inline(always)]
    fn argument(
        &mut self,
        part: (),
        name: &Spanning<&'a str>,
        value: Spanning<InputValue<S>>,
    ) -> (Spanning<&'a str>, Spanning<InputValue<S>>)
        ensures { (first opened : Trees M) (v : Located (Seen Content)) → Unit {0} → view_value S.content value ≡ v → view_argument S.content result ≡ record { name = view_word name.now; value = v } }
    {
        (copied(name), value)
    }

    #[inline(always)]
    fn open_directive(&mut self, name: &Spanning<&'a str>) -> Result<(), AllocError> {
        Ok(())
    }

    #[inline(always)]
    fn directive(
        &mut self,
        part: (),
        name: &Spanning<&'a str>,
        arguments: Option<Spanning<Arguments<'a, S>>>,
        span: Span,
    ) -> Spanning<Directive<'a, S>>
        ensures { (first opened : Trees M) (xs : Option (tree.Arguments Content)) → Unit {0} → BuildsOptional (Shows (view_arguments S.content)) opened self.old arguments.entry xs → view_directive S.content result ≡ record { item = record { name = view_word name.now; arguments = xs }; span = view_span span } }
    {
        let directive = Directive {
            name: copied(name),
            arguments,
        };
        Spanning::new(span, directive)
    }

    #[inline(always)]
    fn open_field(
        &mut self,
        alias: &Option<Spanning<&'a str>>,
        name: &Spanning<&'a str>,
    ) -> Result<(), AllocError> {
        Ok(())
    }

    #[inline(always)]
    fn field(
        &mut self,
        part: (),
        alias: &Option<Spanning<&'a str>>,
        name: &Spanning<&'a str>,
        arguments: Option<Spanning<Arguments<'a, S>>>,
        directives: Option<Vec<Spanning<Directive<'a, S>>>>,
        selection_set: Option<Vec<Selection<'a, S>>>,
        span: Span,
    ) -> Selection<'a, S>
        ensures { (first opened with_arguments with_directives : Trees M) (xs : Option (tree.Arguments Content)) (ds : tree.Directives Content) (set : tree.OptionalSelections Content) → Unit {0} → BuildsOptional (Shows (view_arguments S.content)) opened with_arguments arguments.entry xs → ShowsDirectives S.content with_arguments with_directives directives.entry ds → ShowsOptionalSet S.content with_directives self.old selection_set.entry set → view_selection S.content result ≡ tree.Field (option_map view_word alias.now) (view_word name.now) xs ds set (view_span span) }
    {
        let field = Field {
            alias: copied_option(alias),
            name: copied(name),
            arguments,
            directives,
            selection_set,
        };
        Selection::Field(Spanning::new(span, field))
    }

    #[inline(always)]
    fn open_fragment_spread(&mut self, name: &Spanning<&'a str>) -> Result<(), AllocError> {
        Ok(())
    }

    #[inline(always)]
    fn fragment_spread(
        &mut self,
        part: (),
        name: &Spanning<&'a str>,
        directives: Option<Vec<Spanning<Directive<'a, S>>>>,
        span: Span,
    ) -> Selection<'a, S>
        ensures { (first opened : Trees M) (ds : tree.Directives Content) → Unit {0} → ShowsDirectives S.content opened self.old directives.entry ds → view_selection S.content result ≡ tree.FragmentSpread (view_word name.now) ds (view_span span) }
    {
        let spread = FragmentSpread {
            name: copied(name),
            directives,
        };
        Selection::FragmentSpread(Spanning::new(span, spread))
    }

    #[inline(always)]
    fn open_inline_fragment(
        &mut self,
        type_condition: &Option<Spanning<&'a str>>,
    ) -> Result<(), AllocError> {
        Ok(())
    }

    #[inline(always)]
    fn inline_fragment(
        &mut self,
        part: (),
        type_condition: &Option<Spanning<&'a str>>,
        directives: Option<Vec<Spanning<Directive<'a, S>>>>,
        selection_set: Vec<Selection<'a, S>>,
        span: Span,
    ) -> Selection<'a, S>
        ensures { (first opened with_directives : Trees M) (ds : tree.Directives Content) (set : tree.Selections Content) → Unit {0} → ShowsDirectives S.content opened with_directives directives.entry ds → ShowsSet S.content with_directives self.old selection_set.entry set → view_selection S.content result ≡ tree.InlineFragment (option_map view_word type_condition.now) ds set (view_span span) }
    {
        let fragment = InlineFragment {
            type_condition: copied_option(type_condition),
            directives,
            selection_set,
        };
        Selection::InlineFragment(Spanning::new(span, fragment))
    }

    #[inline(always)]
    fn open_variables(&mut self) -> Result<(), AllocError> {
        Ok(())
    }

    #[inline(always)]
    fn variables(
        &mut self,
        part: (),
        items: VariableDefinitions<'a, S>,
        span: Span,
    ) -> Spanning<VariableDefinitions<'a, S>>
        ensures { (first opened : Trees M) (vs : List (tree.VariableDefinition Content)) → Unit {0} → BuildsList (Shows (view_named S.content)) gathered_variables opened self.old items.entry vs → view_variables S.content result ≡ record { item = vs; span = view_span span } }
    {
        Spanning::new(span, items)
    }

    #[inline(always)]
    fn open_variable_definition(
        &mut self,
        name: &Spanning<&'a str>,
        var_type: &Spanning<Type<&'a str>>,
    ) -> Result<(), AllocError> {
        Ok(())
    }

    #[inline(always)]
    fn variable_definition(
        &mut self,
        part: (),
        name: &Spanning<&'a str>,
        var_type: Spanning<Type<&'a str>>,
        default_value: Option<Spanning<InputValue<S>>>,
        directives: Option<Vec<Spanning<Directive<'a, S>>>>,
    ) -> NamedVariable<'a, S>
        ensures { (first opened with_default : Trees M) (v : Option (Located (Seen Content))) (ds : tree.Directives Content) → Unit {0} → BuildsOptional (Shows (view_value S.content)) opened with_default default_value v → ShowsDirectives S.content with_default self.old directives.entry ds → view_named S.content result ≡ record { name = view_word name.now; of_type = view_spanned_type var_type.entry; default = v; directives = ds } }
    {
        NamedVariable {
            name: copied(name),
            definition: VariableDefinition {
                var_type,
                default_value,
                directives,
            },
        }
    }

    #[inline(always)]
    fn open_operation(
        &mut self,
        operation_type: OperationType,
        name: &Option<Spanning<&'a str>>,
    ) -> Result<(), AllocError> {
        Ok(())
    }

    #[inline(always)]
    fn operation(
        &mut self,
        part: (),
        operation_type: OperationType,
        name: &Option<Spanning<&'a str>>,
        variable_definitions: Option<Spanning<VariableDefinitions<'a, S>>>,
        directives: Option<Vec<Spanning<Directive<'a, S>>>>,
        selection_set: Vec<Selection<'a, S>>,
        span: Span,
    ) -> Definition<'a, S>
        ensures { (first opened with_variables with_directives : Trees M) (vs : Option (tree.Variables Content)) (ds : tree.Directives Content) (set : tree.Selections Content) → Unit {0} → BuildsOptional (Shows (view_variables S.content)) opened with_variables variable_definitions.entry vs → ShowsDirectives S.content with_variables with_directives directives.entry ds → ShowsSet S.content with_directives self.old selection_set.entry set → view_definition S.content result ≡ tree.Operation operation_type (option_map view_word name.now) vs ds set (view_span span) }
    {
        let operation = Operation {
            operation_type,
            name: copied_option(name),
            variable_definitions,
            directives,
            selection_set,
        };
        Definition::Operation(Spanning::new(span, operation))
    }

    #[inline(always)]
    fn open_fragment(
        &mut self,
        name: &Spanning<&'a str>,
        type_condition: &Spanning<&'a str>,
    ) -> Result<(), AllocError> {
        Ok(())
    }

    #[inline(always)]
    fn fragment(
        &mut self,
        part: (),
        name: &Spanning<&'a str>,
        type_condition: &Spanning<&'a str>,
        directives: Option<Vec<Spanning<Directive<'a, S>>>>,
        selection_set: Vec<Selection<'a, S>>,
        span: Span,
    ) -> Definition<'a, S>
        ensures { (first opened with_directives : Trees M) (ds : tree.Directives Content) (set : tree.Selections Content) → Unit {0} → ShowsDirectives S.content opened with_directives directives.entry ds → ShowsSet S.content with_directives self.old selection_set.entry set → view_definition S.content result ≡ tree.Fragment (view_word name.now) (view_word type_condition.now) ds set (view_span span) }
    {
        let fragment = Fragment {
            name: copied(name),
            type_condition: copied(type_condition),
            directives,
            selection_set,
        };
        Definition::Fragment(Spanning::new(span, fragment))
    }
}
