//! What is gathered of the parts of a document while their nodes are written.
ghost use Rattle.std.specs.Prelude.{ℕ, Option, option_map, OnOk};
ghost use Rattle.graphql_lexical.specs.Place.{Span as Stretch};
ghost use Rattle.graphql_grammar.specs.Tokens.{Word, Located};
ghost use Rattle.graphql_grammar.specs.Tree as tree;
ghost use Rattle.graphql_grammar.specs.Tree.{TypeRef, Value as Seen};
ghost use Rattle.graphql_grammar.specs.declared.operation.OperationType.{OperationType};
ghost use Rattle.juniper_parser.specs.Building.{BuildsOptional, BuildsOptionalSet, BuildsSet};
ghost use Rattle.juniper_tree.specs.View.{view_word};
ghost use Rattle.juniper_complexity.specs.Gathered.{GathersVariables, KeepsDirectives, gathered};
ghost use Rattle.juniper_complexity.specs.declared.outline_builder.PartCount.{PartCount as Parts};
ghost use Rattle.juniper_tokens.specs.Spans.{view_span};
ghost use Rattle.juniper_values.specs.Scalar.{Content};

use juniper_complexity::{DefinitionOutline, DefinitionOutlines, OutlineBuilder, PartCount};
use juniper_parser::Gather;
use juniper_tokens::{Span, Spanning};
use std::alloc::AllocError;

/// Gathers variable definitions. A trait of its own, since the type of a variable has a `'static` in it: the borrow
/// checker takes no call by a bound with another lifetime in a function with such a parameter.
pub(crate) trait VariableOutliner: Sized + Drop {
    // Going from one state to another it gathered this variable definition.
    ghost gathers_variable: { Self → Self → Unit {0} → tree.VariableDefinition Content → Type 0 };

    /// Ends the definition of a variable.
    fn end_variable(&mut self, directives: &Option<PartCount>)
        ensures { (opened : Self) (name : Word) (of_type : Located TypeRef) (value : Option (Located (Seen Content)))
            (ds : tree.Directives Content) → KeepsDirectives opened self.old directives.now ds
            → gathers_variable opened self.new tt
            (record { name = name; of_type = of_type; default = value; directives = ds }) };
}

/// Gathers an outline of each definition. A builder reports where a definition, a field and a spread begin, and where
/// they and an inline fragment end. Nothing else changes an outliner.
pub(crate) trait Outliner<'b>: VariableOutliner {
    /// What it gathers of a definition.
    type Definition: Drop;

    type Definitions: Gather<Self::Definition> + Drop;

    // Going from one state to another it entered a field with this alias, with so many fields around it, or began a
    // spread of this name.
    ghost enters: { Self → Self → ℕ → Option Word → Type 0 };

    ghost spreads: { Self → Self → Word → Type 0 };

    // It began a definition.
    ghost begins: { Self → Type 0 };

    // Going from one state to another it gathered this selection.
    ghost gathers_selection: { Self → Self → Unit {0} → tree.Selection Content → Type 0 };

    // The outline is that of this definition, and has this mark.
    ghost outlines: { Self.Definition → ℕ → tree.Definition Content → Type 0 };

    /// Begins a definition.
    fn begin(&mut self)
        ensures { begins self.new };

    /// Enters a field. Returns the number of fields around it, which `leave_field` takes.
    fn enter_field(&mut self, alias: &Option<Spanning<&'b str>>) -> u64
        ensures { enters self.old self.new result (option_map view_word alias.now) };

    /// Leaves the field that this many fields are around, and which has these directives.
    fn leave_field(&mut self, around: u64, directives: &Option<PartCount>)
        ensures { (first opened with_directives : Self) (alias : Option Word) (name : Word)
            (xs : Option (tree.Arguments Content)) (ds : tree.Directives Content) (parts : Option Parts)
            (set : tree.OptionalSelections Content) (span : Stretch) → enters first opened around alias
            → KeepsDirectives opened with_directives directives.now ds
            → BuildsOptionalSet gathers_selection gathered with_directives self.old parts set
            → gathers_selection first self.new tt (tree.Field alias name xs ds set span) };

    /// Begins a fragment spread.
    fn begin_spread(&mut self, name: &Spanning<&'b str>) -> Result<(), AllocError>
        ensures { OnOk result (spreads self.old self.new (view_word name.now)) };

    /// Ends the fragment spread that was begun last.
    fn end_spread(&mut self, directives: &Option<PartCount>, span: &Span)
        ensures { (first opened : Self) (name : Word) (ds : tree.Directives Content) → spreads first opened name
            → KeepsDirectives opened self.old directives.now ds
            → gathers_selection first self.new tt (tree.FragmentSpread name ds (view_span span.now)) };

    /// Ends an inline fragment.
    fn end_inline_fragment(&mut self, directives: &Option<PartCount>)
        ensures { (opened with_directives : Self) (condition : Option Word) (ds : tree.Directives Content)
            (parts : Parts) (set : tree.Selections Content) (span : Stretch)
            → KeepsDirectives opened with_directives directives.now ds
            → BuildsSet gathers_selection gathered with_directives self.old parts set
            → gathers_selection opened self.new tt (tree.InlineFragment condition ds set span) };

    /// Ends an operation, with a mark of the caller's.
    fn end_operation(&mut self, directives: &Option<PartCount>, mark: usize) -> Self::Definition
        ensures { (opened with_variables with_directives : Self) (kind : OperationType) (name : Option Word)
            (variables : Option (Unit {0})) (vs : Option (tree.Variables Content)) (ds : tree.Directives Content)
            (parts : Parts) (set : tree.Selections Content) (span : Stretch) → begins opened
            → BuildsOptional (GathersVariables Self.gathers_variable) opened with_variables variables vs
            → KeepsDirectives with_variables with_directives directives.now ds
            → BuildsSet gathers_selection gathered with_directives self.old parts set
            → outlines result mark (tree.Operation kind name vs ds set span) };

    /// Ends the definition of a fragment, with a mark of the caller's.
    fn end_fragment(
        &mut self,
        name: &Spanning<&'b str>,
        directives: &Option<PartCount>,
        mark: usize,
    ) -> Self::Definition
        ensures { (opened with_directives : Self) (condition : Word) (ds : tree.Directives Content) (parts : Parts)
            (set : tree.Selections Content) (span : Stretch) → begins opened
            → KeepsDirectives opened with_directives directives.now ds
            → BuildsSet gathers_selection gathered with_directives self.old parts set
            → outlines result mark (tree.Fragment (view_word name.now) condition ds set span) };
}

/// Gathers nothing.
#[derive(Drop)]
pub(crate) struct NoOutlines;

impl VariableOutliner for NoOutlines {
    ghost gathers_variable = { λ old new x v. Unit {0} };

    #[inline(always)]
    fn end_variable(&mut self, directives: &Option<PartCount>) {}
}

impl<'b> Outliner<'b> for NoOutlines {
    type Definition = ();

    type Definitions = PartCount;

    ghost enters = { λ old new around alias. Unit {0} };

    ghost spreads = { λ old new name. Unit {0} };

    ghost begins = { λ it. Unit {0} };

    ghost gathers_selection = { λ old new x s. Unit {0} };

    ghost outlines = { λ outline mark d. Unit {0} };

    #[inline(always)]
    fn begin(&mut self) {}

    #[inline(always)]
    fn enter_field(&mut self, alias: &Option<Spanning<&'b str>>) -> u64 {
        0
    }

    #[inline(always)]
    fn leave_field(&mut self, around: u64, directives: &Option<PartCount>) {}

    #[inline(always)]
    fn begin_spread(&mut self, name: &Spanning<&'b str>) -> Result<(), AllocError> {
        Ok(())
    }

    #[inline(always)]
    fn end_spread(&mut self, directives: &Option<PartCount>, span: &Span) {}

    #[inline(always)]
    fn end_inline_fragment(&mut self, directives: &Option<PartCount>) {}

    #[inline(always)]
    fn end_operation(&mut self, directives: &Option<PartCount>, mark: usize) {}

    #[inline(always)]
    fn end_fragment(
        &mut self,
        name: &Spanning<&'b str>,
        directives: &Option<PartCount>,
        mark: usize,
    ) {}
}

impl<'b> VariableOutliner for OutlineBuilder<'b> {
    ghost use Rattle.juniper_complexity.specs.Gathered.{GathersVariable};

    ghost gathers_variable = { GathersVariable };

    #[inline(always)]
    fn end_variable(&mut self, directives: &Option<PartCount>) {
        self.count_directives(directives)
    }
}

impl<'b> Outliner<'b> for OutlineBuilder<'b> {
    ghost use Rattle.std.specs.Prelude.{◌≡◌};
    ghost use Rattle.juniper_complexity.specs.Gathered.{Begins, OpensField, OpensSpread, GathersSelection};
    ghost use Rattle.firthnapkin_results.specs.Outliners.{IsMarked};

    type Definition = DefinitionOutline<'b>;

    type Definitions = DefinitionOutlines<'b>;

    ghost enters = { λ old new around alias. (around ≡ old.level) × OpensField old new alias };

    ghost spreads = { OpensSpread };

    ghost begins = { Begins };

    ghost gathers_selection = { GathersSelection };

    ghost outlines = { IsMarked };

    #[inline(always)]
    fn begin(&mut self) {
        OutlineBuilder::begin(self)
    }

    #[inline(always)]
    fn enter_field(&mut self, alias: &Option<Spanning<&'b str>>) -> u64 {
        OutlineBuilder::enter_field(self, alias)
    }

    #[inline(always)]
    fn leave_field(&mut self, around: u64, directives: &Option<PartCount>) {
        OutlineBuilder::leave_field(self, around, directives)
    }

    #[inline(always)]
    fn begin_spread(&mut self, name: &Spanning<&'b str>) -> Result<(), AllocError> {
        OutlineBuilder::begin_spread(self, name)
    }

    #[inline(always)]
    fn end_spread(&mut self, directives: &Option<PartCount>, span: &Span) {
        OutlineBuilder::end_spread(self, directives, span)
    }

    #[inline(always)]
    fn end_inline_fragment(&mut self, directives: &Option<PartCount>) {
        self.count_directives(directives)
    }

    #[inline(always)]
    fn end_operation(
        &mut self,
        directives: &Option<PartCount>,
        mark: usize,
    ) -> DefinitionOutline<'b> {
        self.end(None, directives, mark)
    }

    #[inline(always)]
    fn end_fragment(
        &mut self,
        name: &Spanning<&'b str>,
        directives: &Option<PartCount>,
        mark: usize,
    ) -> DefinitionOutline<'b> {
        self.end(Some(name.item), directives, mark)
    }
}
