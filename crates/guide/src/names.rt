//! The names of a request's definitions, by a builder that makes no tree.
ghost use Rattle.std.specs.Prelude.{Option, option_map, IfErr, IfOk};
ghost use Rattle.std.specs.Str.{chars};
ghost use Rattle.graphql_grammar.specs.Tokens.{Located};
ghost use Rattle.graphql_grammar.specs.Tree as tree;
ghost use Rattle.graphql_grammar.specs.Tree.{Value};
ghost use Rattle.juniper_parser.specs.Building.{a_directive, a_field, a_spread, an_inline_fragment, a_variable, an_operation, a_fragment};
ghost use Rattle.juniper_tree.specs.View.{view_spanned_type, view_word};
ghost use Rattle.juniper_tokens.specs.Spans.{view_span};
ghost use Rattle.juniper_values.specs.Scalar.{Content};
ghost use Rattle.juniper_documents.specs.Limited.{FailsLimited};
ghost use Rattle.juniper_tree.specs.Scalars.{default_scalars};
ghost use Rattle.guide.specs.Names.{AreNames, IsNameOf, OptionalArguments, OptionalSet, OptionalValue, OptionalVariables, SelectionSet, SomeDirectives, Unbound};
ghost use Rattle.guide.specs.declared.names.DefinitionNames.{DefinitionNames as Naming};

use juniper::{
    Builder, DefaultScalarValue, LimitFailure, Limits, OperationType, ParseFailure,
    ParseScalarValue, ScalarToken, Span, Spanning, Streamed, Type, build_document_source, unread,
};
use std::alloc::{AllocError, Global};
use std::marker::PhantomData;

/// The name of each definition of a source, in their order, or None of an operation without one. No tree is made.
pub fn definition_names<'a>(
    alloc: Global,
    source: &'a str,
    limits: Limits,
) -> Result<Vec<Option<&'a str>>, LimitFailure>
    ensures names { IfOk result (λ names. AreNames (chars source.now) names.items) }
    ensures failed { IfErr result (FailsLimited default_scalars limits.depth limits.tokens (chars source.now)) }
{
    let mut names = DefinitionNames {
        source: PhantomData,
    };
    build_document_source::<DefaultScalarValue, DefinitionNames<'a>, LimitFailure>(
        alloc, &source, limits, &mut names,
    )
}

// Builds the name of a definition, and of all other parts nothing.
#[derive(Drop)]
struct DefinitionNames<'a> {
    source: PhantomData<&'a str>,
}

impl<'a> Builder<DefaultScalarValue> for DefinitionNames<'a> {
    ghost use Rattle.guide.specs.Names.{IsNameOf, Unbound};

    type Name = &'a str;

    type Feed = Streamed;

    type Open = ();

    type Value = ();

    type Items = Vec<()>;

    type ObjectField = ();

    type Fields = Vec<()>;

    type Argument = ();

    type ArgumentList = Vec<()>;

    type Arguments = ();

    type Directive = ();

    type Directives = Vec<()>;

    type Selection = ();

    type Selections = Vec<()>;

    type VariableDefinition = ();

    type VariableList = Vec<()>;

    type Variables = ();

    type Definition = Option<&'a str>;

    type Definitions = Vec<Option<&'a str>>;

    ghost opens = { Unbound };

    ghost builds_value = { Unbound };

    ghost builds_field = { Unbound };

    ghost builds_argument = { Unbound };

    ghost builds_arguments = { Unbound };

    ghost builds_directive = { Unbound };

    ghost builds_selection = { Unbound };

    ghost builds_variable = { Unbound };

    ghost builds_variables = { Unbound };

    ghost builds_definition = { λ old new name definition. IsNameOf name definition };

    fn null(&mut self, span: Span) -> Result<(), AllocError> {
        Ok(())
    }

    fn scalar(&mut self, scalar: DefaultScalarValue, span: Span) -> Result<(), AllocError> {
        Ok(())
    }

    // The scalar type is asked, since it may refuse the token.
    fn scalar_token(
        &mut self,
        alloc: Global,
        token: ScalarToken<'_>,
        span: Span,
    ) -> Result<(), ParseFailure> {
        match DefaultScalarValue::from_str(alloc, token) {
            Ok(_) => Ok(()),
            Err(failure) => Err(unread(failure, span)),
        }
    }

    fn enum_value(&mut self, name: &'a str, span: Span) -> Result<(), AllocError> {
        Ok(())
    }

    fn variable(&mut self, name: &'a str, span: Span) -> Result<(), AllocError> {
        Ok(())
    }

    fn open_list(&mut self) -> Result<(), AllocError> {
        Ok(())
    }

    fn list(&mut self, part: (), items: Vec<()>, span: Span) {}

    fn open_object(&mut self) -> Result<(), AllocError> {
        Ok(())
    }

    fn object(&mut self, part: (), fields: Vec<()>, span: Span) {}

    fn open_object_field(&mut self, key: &Spanning<&'a str>) -> Result<(), AllocError> {
        Ok(())
    }

    fn object_field(
        &mut self,
        part: (),
        key: &Spanning<&'a str>,
        value: (),
    ) -> Result<(), AllocError> {
        Ok(())
    }

    fn open_arguments(&mut self) -> Result<(), AllocError> {
        Ok(())
    }

    fn arguments(&mut self, part: (), items: Vec<()>, span: Span) {}

    fn open_argument(&mut self, name: &Spanning<&'a str>) -> Result<(), AllocError> {
        Ok(())
    }

    fn argument(&mut self, part: (), name: &Spanning<&'a str>, value: ()) {}

    fn open_directive(&mut self, name: &Spanning<&'a str>) -> Result<(), AllocError> {
        Ok(())
    }

    fn directive(&mut self, part: (), name: &Spanning<&'a str>, arguments: Option<()>, span: Span)
        ensures { (first opened : Naming) (xs : Option (tree.Arguments Content)) → Unbound first opened part (a_directive (view_word name.now)) → OptionalArguments opened self.old arguments xs → Unit {0} }
    {}

    fn open_field(
        &mut self,
        alias: &Option<Spanning<&'a str>>,
        name: &Spanning<&'a str>,
    ) -> Result<(), AllocError> {
        Ok(())
    }

    fn field(
        &mut self,
        part: (),
        alias: &Option<Spanning<&'a str>>,
        name: &Spanning<&'a str>,
        arguments: Option<()>,
        directives: Option<Vec<()>>,
        selection_set: Option<Vec<()>>,
        span: Span,
    )
        ensures { (first opened with_arguments with_directives : Naming) (xs : Option (tree.Arguments Content)) (ds : tree.Directives Content) (set : tree.OptionalSelections Content) → Unbound first opened part (a_field (option_map view_word alias.now) (view_word name.now)) → OptionalArguments opened with_arguments arguments xs → SomeDirectives with_arguments with_directives directives ds → OptionalSet with_directives self.old selection_set set → Unit {0} }
    {}

    fn open_fragment_spread(&mut self, name: &Spanning<&'a str>) -> Result<(), AllocError> {
        Ok(())
    }

    fn fragment_spread(
        &mut self,
        part: (),
        name: &Spanning<&'a str>,
        directives: Option<Vec<()>>,
        span: Span,
    )
        ensures { (first opened : Naming) (ds : tree.Directives Content) → Unbound first opened part (a_spread (view_word name.now)) → SomeDirectives opened self.old directives ds → Unit {0} }
    {}

    fn open_inline_fragment(
        &mut self,
        type_condition: &Option<Spanning<&'a str>>,
    ) -> Result<(), AllocError> {
        Ok(())
    }

    fn inline_fragment(
        &mut self,
        part: (),
        type_condition: &Option<Spanning<&'a str>>,
        directives: Option<Vec<()>>,
        selection_set: Vec<()>,
        span: Span,
    )
        ensures { (first opened with_directives : Naming) (ds : tree.Directives Content) (set : tree.Selections Content) → Unbound first opened part (an_inline_fragment (option_map view_word type_condition.now)) → SomeDirectives opened with_directives directives ds → SelectionSet with_directives self.old selection_set set → Unit {0} }
    {}

    fn open_variables(&mut self) -> Result<(), AllocError> {
        Ok(())
    }

    fn variables(&mut self, part: (), items: Vec<()>, span: Span) {}

    fn open_variable_definition(
        &mut self,
        name: &Spanning<&'a str>,
        var_type: &Spanning<Type<&'a str>>,
    ) -> Result<(), AllocError> {
        Ok(())
    }

    fn variable_definition(
        &mut self,
        part: (),
        name: &Spanning<&'a str>,
        var_type: Spanning<Type<&'a str>>,
        default_value: Option<()>,
        directives: Option<Vec<()>>,
    )
        ensures { (first opened with_default : Naming) (v : Option (Located (Value Content))) (ds : tree.Directives Content) → Unbound first opened part (a_variable (view_word name.now) (view_spanned_type var_type.entry)) → OptionalValue opened with_default default_value v → SomeDirectives with_default self.old directives ds → Unit {0} }
    {}

    fn open_operation(
        &mut self,
        operation_type: OperationType,
        name: &Option<Spanning<&'a str>>,
    ) -> Result<(), AllocError> {
        Ok(())
    }

    fn operation(
        &mut self,
        part: (),
        operation_type: OperationType,
        name: &Option<Spanning<&'a str>>,
        variable_definitions: Option<()>,
        directives: Option<Vec<()>>,
        selection_set: Vec<()>,
        span: Span,
    ) -> Option<&'a str>
        ensures { (first opened with_variables with_directives : Naming) (vs : Option (tree.Variables Content)) (ds : tree.Directives Content) (set : tree.Selections Content) → Unbound first opened part (an_operation operation_type (option_map view_word name.now)) → OptionalVariables opened with_variables variable_definitions vs → SomeDirectives with_variables with_directives directives ds → SelectionSet with_directives self.old selection_set set → IsNameOf result (tree.Operation operation_type (option_map view_word name.now) vs ds set (view_span span)) }
    {
        match name {
            Some(name) => Some(name.item),
            None => None,
        }
    }

    fn open_fragment(
        &mut self,
        name: &Spanning<&'a str>,
        type_condition: &Spanning<&'a str>,
    ) -> Result<(), AllocError> {
        Ok(())
    }

    fn fragment(
        &mut self,
        part: (),
        name: &Spanning<&'a str>,
        type_condition: &Spanning<&'a str>,
        directives: Option<Vec<()>>,
        selection_set: Vec<()>,
        span: Span,
    ) -> Option<&'a str>
        ensures { (first opened with_directives : Naming) (ds : tree.Directives Content) (set : tree.Selections Content) → Unbound first opened part (a_fragment (view_word name.now) (view_word type_condition.now)) → SomeDirectives opened with_directives directives ds → SelectionSet with_directives self.old selection_set set → IsNameOf result (tree.Fragment (view_word name.now) (view_word type_condition.now) ds set (view_span span)) }
    {
        Some(name.item)
    }
}
