//! How the parts of a document become nodes, and which of them an outliner gathers.
ghost use Rattle.std.specs.Prelude.{◌≡◌, [], Option, option_map};
ghost use Rattle.graphql_grammar.specs.Tokens.{Located};
ghost use Rattle.graphql_grammar.specs.Tree as tree;
ghost use Rattle.graphql_grammar.specs.Tree.{Value as Seen};
ghost use Rattle.graphql_nodes.specs.Nodes.{operation_kind, directive_nodes};
ghost use Rattle.juniper_parser.specs.Building.{a_directive, a_field, a_spread, an_inline_fragment, a_variable, an_operation, a_fragment};
ghost use Rattle.juniper_tree.specs.View.{view_spanned_type, view_word};
ghost use Rattle.juniper_nodes.specs.NodeViews.{TellsName};
ghost use Rattle.juniper_tokens.specs.Spans.{view_span};
ghost use Rattle.juniper_values.specs.Scalar.{Content};
ghost use Rattle.firthnapkin_results.specs.Buildings.{OpensPart, AddsArguments, AddsDefinition, AddsDirectives, AddsOptionalSet, AddsSelection, AddsSet, AddsValue, AddsVariable, AddsVariables};
ghost use Rattle.firthnapkin_results.specs.Builders.{Adds, counted};
ghost use Rattle.firthnapkin_results.specs.declared.builder.building.Building.{Building as State};

use crate::builder::NodeBuilder;
use crate::builder::outliner::{Outliner, VariableOutliner};
use crate::form::form_of;
use crate::scalar::SourceScalar;
use graphql_grammar::OperationType;
use juniper_complexity::PartCount;
use juniper_nodes::{Label, NodeKind};
use juniper_parser::{Builder, unread};
use juniper_tokens::{ParseFailure, ScalarToken, Span, Spanning, Streamed};
use juniper_values::Type;
use std::alloc::{AllocError, Global};
use std::marker::PhantomData;

// The label of a part that may have a name.
#[inline(always)]
fn label_of<'t, 'a>(name: &'t Option<Spanning<&'a str>>) -> Label<'t, 'a>
    ensures { TellsName result (option_map view_word name.now) }
{
    match name {
        Some(name) => Label::Name(name),
        None => Label::Unnamed,
    }
}

fn operation_kind(operation_type: OperationType) -> NodeKind
    ensures { result ≡ operation_kind operation_type }
{
    match operation_type {
        OperationType::Query => NodeKind::Query,
        OperationType::Mutation => NodeKind::Mutation,
        OperationType::Subscription => NodeKind::Subscription,
    }
}

/// A part that is opened: the index of its node, and the number of fields around it.
#[derive(Clone, Copy)]
pub(crate) struct Part {
    node: usize,
    around: u64,
}

/// Writes the nodes of a document, and reports its parts to an outliner. The mark of a definition is its node's index.
#[derive(Drop)]
pub(crate) struct Building<'n, 'b, O: Drop> {
    pub nodes: NodeBuilder<'n>,
    pub outlines: O,
    // The source's names are borrowed for longer than the buffers.
    pub names: PhantomData<&'b str>,
}

impl<O: Drop> Building<'_, '_, O> {
    // Opens a part that isn't a field. The outliner isn't changed.
    #[inline(always)]
    fn open(&mut self) -> Part
        ensures index { result.node ≡ self.old.nodes.nodes_length }
        ensures adds { Adds (counted self.old.nodes) self.new.nodes [] }
        ensures kept { self.old.outlines ≡ self.new.outlines }
    {
        let node = self.nodes.open();
        Part { node, around: 0 }
    }
}

impl<'b, O: Outliner<'b>> Builder<SourceScalar> for Building<'_, 'b, O> {
    ghost use Rattle.graphql_nodes.specs.Nodes.{value_nodes, argument_nodes, arguments_nodes, directive_nodes};
    ghost use Rattle.firthnapkin_results.specs.Buildings.{OpensPart, AddsPart, AddsVariable, AddsVariableList, AddsSelection, AddsDefinition};
    ghost use Rattle.firthnapkin_results.specs.Builders.{field_nodes};

    type Name = &'b str;

    type Feed = Streamed;

    type Open = Part;

    type Value = ();

    type Items = PartCount;

    type ObjectField = ();

    type Fields = PartCount;

    type Argument = ();

    type ArgumentList = PartCount;

    type Arguments = ();

    type Directive = ();

    type Directives = PartCount;

    type Selection = ();

    type Selections = PartCount;

    type VariableDefinition = ();

    type VariableList = PartCount;

    type Variables = ();

    type Definition = O::Definition;

    type Definitions = O::Definitions;

    ghost opens = { OpensPart O.enters O.spreads O.begins };

    ghost builds_value = { AddsPart value_nodes };

    ghost builds_field = { AddsPart field_nodes };

    ghost builds_argument = { AddsPart argument_nodes };

    ghost builds_arguments = { AddsPart arguments_nodes };

    ghost builds_directive = { AddsPart directive_nodes };

    ghost builds_selection = { AddsSelection O.gathers_selection };

    ghost builds_variable = { AddsVariable O.gathers_variable };

    ghost builds_variables = { AddsVariableList O.gathers_variable };

    ghost builds_definition = { AddsDefinition O.outlines };

    #[inline(always)]
    fn null(&mut self, span: Span) -> Result<(), AllocError> {
        let part = self.nodes.open();
        self.nodes.close_unnamed(part, NodeKind::Null, &span);
        Ok(())
    }

    #[inline(always)]
    fn scalar(&mut self, scalar: SourceScalar, span: Span) -> Result<(), AllocError> {
        let at = self.nodes.texts_length;
        self.nodes.push_scalar(&scalar);
        let form = form_of(&scalar);
        self.nodes
            .push_with_text(NodeKind::Scalar, &span, Label::Unnamed, Some(&form), at);
        Ok(())
    }

    #[inline(always)]
    fn scalar_token(
        &mut self,
        alloc: Global,
        token: ScalarToken<'_>,
        span: Span,
    ) -> Result<(), ParseFailure> {
        let at = self.nodes.texts_length;
        match self.nodes.push_token(alloc, token) {
            Ok(form) => {
                self.nodes
                    .push_with_text(NodeKind::Scalar, &span, Label::Unnamed, Some(&form), at);
                Ok(())
            }
            Err(failure) => Err(unread(failure, span)),
        }
    }

    #[inline(always)]
    fn enum_value(&mut self, name: &'b str, span: Span) -> Result<(), AllocError> {
        self.nodes.push(NodeKind::Enum, &span, Label::Text(name));
        Ok(())
    }

    #[inline(always)]
    fn variable(&mut self, name: &'b str, span: Span) -> Result<(), AllocError> {
        self.nodes
            .push(NodeKind::Variable, &span, Label::Text(name));
        Ok(())
    }

    #[inline(always)]
    fn open_list(&mut self) -> Result<Part, AllocError> {
        Ok(self.open())
    }

    #[inline(always)]
    fn list(&mut self, part: Part, items: PartCount, span: Span) {
        self.nodes.close_unnamed(part.node, NodeKind::List, &span);
    }

    #[inline(always)]
    fn open_object(&mut self) -> Result<Part, AllocError> {
        Ok(self.open())
    }

    #[inline(always)]
    fn object(&mut self, part: Part, fields: PartCount, span: Span) {
        self.nodes.close_unnamed(part.node, NodeKind::Object, &span);
    }

    #[inline(always)]
    fn open_object_field(&mut self, key: &Spanning<&'b str>) -> Result<Part, AllocError> {
        Ok(self.open())
    }

    #[inline(always)]
    fn object_field(
        &mut self,
        part: Part,
        key: &Spanning<&'b str>,
        value: (),
    ) -> Result<(), AllocError> {
        self.nodes.close(
            part.node,
            NodeKind::ObjectField,
            &key.span,
            Label::Name(key),
        );
        Ok(())
    }

    #[inline(always)]
    fn open_arguments(&mut self) -> Result<Part, AllocError> {
        Ok(self.open())
    }

    #[inline(always)]
    fn arguments(&mut self, part: Part, items: PartCount, span: Span) {
        self.nodes
            .close_unnamed(part.node, NodeKind::Arguments, &span);
    }

    #[inline(always)]
    fn open_argument(&mut self, name: &Spanning<&'b str>) -> Result<Part, AllocError> {
        Ok(self.open())
    }

    #[inline(always)]
    fn argument(&mut self, part: Part, name: &Spanning<&'b str>, value: ()) {
        self.nodes.close(part.node, NodeKind::Argument, &name.span, Label::Name(name));
    }

    #[inline(always)]
    fn open_directive(&mut self, name: &Spanning<&'b str>) -> Result<Part, AllocError> {
        Ok(self.open())
    }

    #[inline(always)]
    fn directive(&mut self, part: Part, name: &Spanning<&'b str>, arguments: Option<()>, span: Span)
        ensures { (first opened : State O) (xs : Option (tree.Arguments Content))
            → OpensPart O.enters O.spreads O.begins first opened part (a_directive (view_word name.now))
            → AddsArguments opened self.old arguments xs
            → Adds first.nodes self.new.nodes
            (directive_nodes (record {
              item = record { name = view_word name.now; arguments = xs };
              span = view_span span;
            })) × (first.outlines ≡ self.new.outlines) }
    {
        self.nodes
            .close(part.node, NodeKind::Directive, &span, Label::Name(name));
    }

    #[inline(always)]
    fn open_field(
        &mut self,
        alias: &Option<Spanning<&'b str>>,
        name: &Spanning<&'b str>,
    ) -> Result<Part, AllocError> {
        let node = self.nodes.open();
        self.nodes.push_alias(alias);
        let around = self.outlines.enter_field(alias);
        Ok(Part { node, around })
    }

    #[inline(always)]
    fn field(
        &mut self,
        part: Part,
        alias: &Option<Spanning<&'b str>>,
        name: &Spanning<&'b str>,
        arguments: Option<()>,
        directives: Option<PartCount>,
        selection_set: Option<PartCount>,
        span: Span,
    )
        ensures { (first opened with_arguments with_directives : State O) (xs : Option (tree.Arguments Content))
            (ds : tree.Directives Content) (set : tree.OptionalSelections Content)
            → OpensPart O.enters O.spreads O.begins first opened part
            (a_field (option_map view_word alias.now) (view_word name.now))
            → AddsArguments opened with_arguments arguments xs
            → AddsDirectives with_arguments with_directives directives ds
            → AddsOptionalSet O.gathers_selection with_directives self.old selection_set set
            → AddsSelection O.gathers_selection first self.new tt
            (tree.Field (option_map view_word alias.now) (view_word name.now) xs ds set (view_span span)) }
    {
        self.nodes
            .close(part.node, NodeKind::Field, &span, Label::Name(name));
        self.outlines.leave_field(part.around, &directives);
    }

    #[inline(always)]
    fn open_fragment_spread(&mut self, name: &Spanning<&'b str>) -> Result<Part, AllocError> {
        let part = self.open();
        self.outlines.begin_spread(name)?;
        Ok(part)
    }

    #[inline(always)]
    fn fragment_spread(
        &mut self,
        part: Part,
        name: &Spanning<&'b str>,
        directives: Option<PartCount>,
        span: Span,
    )
        ensures { (first opened : State O) (ds : tree.Directives Content)
            → OpensPart O.enters O.spreads O.begins first opened part (a_spread (view_word name.now))
            → AddsDirectives opened self.old directives ds
            → AddsSelection O.gathers_selection first self.new tt
            (tree.FragmentSpread (view_word name.now) ds (view_span span)) }
    {
        self.outlines.end_spread(&directives, &span);
        self.nodes.close(
            part.node,
            NodeKind::FragmentSpread,
            &span,
            Label::Name(name),
        );
    }

    #[inline(always)]
    fn open_inline_fragment(
        &mut self,
        type_condition: &Option<Spanning<&'b str>>,
    ) -> Result<Part, AllocError> {
        Ok(self.open())
    }

    #[inline(always)]
    fn inline_fragment(
        &mut self,
        part: Part,
        type_condition: &Option<Spanning<&'b str>>,
        directives: Option<PartCount>,
        selection_set: PartCount,
        span: Span,
    )
        ensures { (first opened with_directives : State O) (ds : tree.Directives Content)
            (set : tree.Selections Content)
            → OpensPart O.enters O.spreads O.begins first opened part
            (an_inline_fragment (option_map view_word type_condition.now))
            → AddsDirectives opened with_directives directives ds
            → AddsSet O.gathers_selection with_directives self.old selection_set set
            → AddsSelection O.gathers_selection first self.new tt
            (tree.InlineFragment (option_map view_word type_condition.now) ds set (view_span span)) }
    {
        self.nodes.close(
            part.node,
            NodeKind::InlineFragment,
            &span,
            label_of(type_condition),
        );
        self.outlines.end_inline_fragment(&directives);
    }

    #[inline(always)]
    fn open_variables(&mut self) -> Result<Part, AllocError> {
        Ok(self.open())
    }

    #[inline(always)]
    fn variables(&mut self, part: Part, items: PartCount, span: Span) {
        self.nodes
            .close_unnamed(part.node, NodeKind::VariableDefinitions, &span);
    }

    #[inline(always)]
    fn open_variable_definition(
        &mut self,
        name: &Spanning<&'b str>,
        var_type: &Spanning<Type<&'b str>>,
    ) -> Result<Part, AllocError> {
        let part = self.open();
        self.nodes.push_type_node(var_type)?;
        Ok(part)
    }

    #[inline(always)]
    fn variable_definition(
        &mut self,
        part: Part,
        name: &Spanning<&'b str>,
        var_type: Spanning<Type<&'b str>>,
        default_value: Option<()>,
        directives: Option<PartCount>,
    )
        ensures { (first opened with_default : State O) (v : Option (Located (Seen Content)))
            (ds : tree.Directives Content) → OpensPart O.enters O.spreads O.begins first opened part
            (a_variable (view_word name.now) (view_spanned_type var_type.entry))
            → AddsValue opened with_default default_value v → AddsDirectives with_default self.old directives ds
            → AddsVariable O.gathers_variable first self.new tt
            (record {
              name = view_word name.now;
              of_type = view_spanned_type var_type.entry;
              default = v;
              directives =
                  ds;
            }) }
    {
        self.nodes.close(
            part.node,
            NodeKind::VariableDefinition,
            &name.span,
            Label::Name(name),
        );
        self.outlines.end_variable(&directives);
    }

    #[inline(always)]
    fn open_operation(
        &mut self,
        operation_type: OperationType,
        name: &Option<Spanning<&'b str>>,
    ) -> Result<Part, AllocError> {
        let part = self.open();
        self.outlines.begin();
        Ok(part)
    }

    #[inline(always)]
    fn operation(
        &mut self,
        part: Part,
        operation_type: OperationType,
        name: &Option<Spanning<&'b str>>,
        variable_definitions: Option<()>,
        directives: Option<PartCount>,
        selection_set: PartCount,
        span: Span,
    ) -> O::Definition
        ensures { (first opened with_variables with_directives : State O) (vs : Option (tree.Variables Content))
            (ds : tree.Directives Content) (set : tree.Selections Content)
            → OpensPart O.enters O.spreads O.begins first opened part
            (an_operation operation_type (option_map view_word name.now))
            → AddsVariables O.gathers_variable opened with_variables variable_definitions vs
            → AddsDirectives with_variables with_directives directives ds
            → AddsSet O.gathers_selection with_directives self.old selection_set set
            → AddsDefinition O.outlines first self.new result
            (tree.Operation operation_type (option_map view_word name.now) vs ds set (view_span span)) }
    {
        self.nodes.close(
            part.node,
            operation_kind(operation_type),
            &span,
            label_of(name),
        );
        self.outlines.end_operation(&directives, part.node)
    }

    #[inline(always)]
    fn open_fragment(
        &mut self,
        name: &Spanning<&'b str>,
        type_condition: &Spanning<&'b str>,
    ) -> Result<Part, AllocError> {
        let part = self.open();
        self.outlines.begin();
        Ok(part)
    }

    #[inline(always)]
    fn fragment(
        &mut self,
        part: Part,
        name: &Spanning<&'b str>,
        type_condition: &Spanning<&'b str>,
        directives: Option<PartCount>,
        selection_set: PartCount,
        span: Span,
    ) -> O::Definition
        ensures { (first opened with_directives : State O) (ds : tree.Directives Content)
            (set : tree.Selections Content)
            → OpensPart O.enters O.spreads O.begins first opened part
            (a_fragment (view_word name.now) (view_word type_condition.now))
            → AddsDirectives opened with_directives directives ds
            → AddsSet O.gathers_selection with_directives self.old selection_set set
            → AddsDefinition O.outlines first self.new result
            (tree.Fragment (view_word name.now) (view_word type_condition.now) ds set (view_span span)) }
    {
        self.nodes.close(
            part.node,
            NodeKind::FragmentDefinition,
            &span,
            Label::Fragment(name, type_condition),
        );
        self.outlines.end_fragment(name, &directives, part.node)
    }
}
