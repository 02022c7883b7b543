//! The outlines of a document's definitions, gathered while it is parsed.
ghost use Rattle.std.specs.Prelude.{◌≡◌, ◌++◌, ◌∷◌, [], List, OnOk, option_map};
ghost use Rattle.juniper_tree.specs.View.{view_word};
ghost use Rattle.juniper_outlines.specs.Complexities.{capped_complexity};
ghost use Rattle.juniper_outlines.specs.Sums.{plus_capped};
ghost use Rattle.juniper_outlines.specs.declared.outline.NamedSpread.{NamedSpread as Spread};
ghost use Rattle.juniper_complexity.specs.Gathered.{Begins, OpensField, OpensSpread, counted_directives, outlines_in};

use juniper_outlines::{Complexity, DefinitionOutline, NamedSpread};
use juniper_parser::Gather;
use juniper_tokens::{Span, Spanning};
use std::alloc::{AllocError, Global};
use std::mem;

/// Parts that are read: how many.
#[derive(Clone, Copy, Debug)]
pub struct PartCount {
    pub count: usize,
}

impl Gather<()> for PartCount {
    ghost use Rattle.std.specs.Prelude.{replicate};

    ghost gathered = { λ parts. replicate parts.count tt };

    #[inline(always)]
    fn none(alloc: Global) -> PartCount {
        PartCount { count: 0 }
    }

    #[inline(always)]
    fn gather(&mut self, part: (), expected: usize) -> Result<(), AllocError> {
        match self.count.checked_add(1) {
            Some(count) => {
                self.count = count;
                Ok(())
            }
            None => Err(AllocError),
        }
    }
}

/// The outlines of definitions.
#[derive(Drop)]
pub struct DefinitionOutlines<'a> {
    pub items: Vec<DefinitionOutline<'a>>,
}

impl<'a> Gather<DefinitionOutline<'a>> for DefinitionOutlines<'a> {
    ghost use Rattle.juniper_complexity.specs.Gathered.{outlines_in};

    ghost gathered = { outlines_in };

    #[inline(always)]
    fn none(alloc: Global) -> DefinitionOutlines<'a>
        ensures { outlines_in result ≡ [] }
    {
        DefinitionOutlines {
            items: Vec::new(alloc),
        }
    }

    #[inline(always)]
    fn gather(&mut self, part: DefinitionOutline<'a>, expected: usize) -> Result<(), AllocError>
        ensures { OnOk result (outlines_in self.new ≡ outlines_in self.old ++ part.entry ∷ []) }
    {
        push(&mut self.items, part)
    }
}

/// Gathers the outlines of a document's definitions, one after another, while a builder builds something else of it.
///
/// The builder reports the beginning of a definition, each field, spread and inline fragment in it as it begins and ends, and
/// the definition's end, which gives its outline. What it gathers is that of the parts that were reported.
#[derive(Drop)]
pub struct OutlineBuilder<'a> {
    alloc: Global,
    // Of the definition that is being read, as far as it has been.
    own: Complexity,
    spreads: Vec<NamedSpread<'a>>,
    // The number of fields around what is read next.
    level: u64,
}

// The complexity of so many directives.
fn counted_directives(directives: &Option<PartCount>) -> Complexity
    ensures { result ≡ capped_complexity (counted_directives directives.now) }
{
    Complexity {
        fields: 0,
        aliases: 0,
        directives: match directives {
            None => 0,
            Some(directives) => directives.count as u64,
        },
        root_fields: 0,
        depth: 0,
    }
}

// Adds so many directives to a complexity.
#[inline(always)]
fn add_directives(own: &mut Complexity, directives: &Option<PartCount>)
    ensures { own.new ≡ plus_capped own.old (capped_complexity (counted_directives directives.now)) }
{
    // None of its numbers is above the largest.
    let Complexity {
        fields: _fields,
        aliases: _aliases,
        directives: _directives,
        root_fields: _root_fields,
        depth: _depth,
    } = *own;
    match directives {
        None => {}
        Some(_) => *own = own.plus(counted_directives(directives)),
    }
}

impl<'a> OutlineBuilder<'a> {
    /// A builder that has gathered nothing.
    pub fn new(alloc: Global) -> Self
        ensures { Begins result }
    {
        OutlineBuilder {
            alloc,
            own: Complexity::nothing(),
            spreads: Vec::new(alloc),
            level: 0,
        }
    }

    /// Begins a definition.
    #[inline(always)]
    pub fn begin(&mut self)
        ensures { Begins self.new }
    {
        self.own = Complexity::nothing();
        self.spreads = Vec::new(self.alloc);
        self.level = 0;
    }

    /// Counts a field and enters it. Returns the number of fields around it, which `leave_field` takes.
    #[inline(always)]
    pub fn enter_field(&mut self, alias: &Option<Spanning<&'a str>>) -> u64
        ensures around { result ≡ self.old.level }
        ensures opens { OpensField self.old self.new (option_map view_word alias.now) }
    {
        let around = self.level;
        self.own.fields = self.own.fields.saturating_add(1);
        match alias {
            None => {}
            Some(_) => self.own.aliases = self.own.aliases.saturating_add(1),
        }
        if around == 0 {
            self.own.root_fields = self.own.root_fields.saturating_add(1);
        }
        let level = around.saturating_add(1);
        if self.own.depth < level {
            self.own.depth = level;
        }
        self.level = level;
        around
    }

    /// Leaves the field that this many fields are around, and counts its directives.
    #[inline(always)]
    pub fn leave_field(&mut self, around: u64, directives: &Option<PartCount>)
        ensures own { self.new.own ≡ plus_capped self.old.own (capped_complexity (counted_directives directives.now)) }
        ensures spreads { self.new.spreads ≡ self.old.spreads }
        ensures level { self.new.level ≡ around }
    {
        add_directives(&mut self.own, directives);
        self.level = around;
    }

    /// Begins a fragment spread.
    #[inline(always)]
    pub fn begin_spread(&mut self, name: &Spanning<&'a str>) -> Result<(), AllocError>
        ensures { OnOk result (OpensSpread self.old self.new (view_word name.now)) }
    {
        let spread = NamedSpread {
            name: name.item,
            fields_around: self.level,
            span: name.span,
        };
        push(&mut self.spreads, spread)
    }

    /// Ends the fragment spread that was begun last, and counts its directives.
    #[inline(always)]
    pub fn end_spread(&mut self, directives: &Option<PartCount>, span: &Span)
        ensures own { self.new.own ≡ plus_capped self.old.own (capped_complexity (counted_directives directives.now)) }
        ensures level { self.new.level ≡ self.old.level }
        ensures spreads { (others : List Spread) (spread : Spread) → self.old.spreads.items ≡ others ++ spread ∷ [] → self.new.spreads.items ≡ others ++ record spread { span = span.now } ∷ [] }
    {
        add_directives(&mut self.own, directives);
        let last = self.spreads.len().saturating_sub(1);
        if last < self.spreads.len() {
            self.spreads[last].span = *span;
        }
    }

    /// Counts the directives of an inline fragment, at its end, or of a variable definition.
    #[inline(always)]
    pub fn count_directives(&mut self, directives: &Option<PartCount>)
        ensures own { self.new.own ≡ plus_capped self.old.own (capped_complexity (counted_directives directives.now)) }
        ensures spreads { self.new.spreads ≡ self.old.spreads }
        ensures level { self.new.level ≡ self.old.level }
    {
        add_directives(&mut self.own, directives);
    }

    /// Ends a definition, which is a fragment of this name, or an operation, and counts its directives.
    pub fn end(
        &mut self,
        fragment: Option<&'a str>,
        directives: &Option<PartCount>,
        mark: usize,
    ) -> DefinitionOutline<'a>
        ensures fragment { result.fragment ≡ fragment.entry }
        ensures own { result.own ≡ plus_capped self.old.own (capped_complexity (counted_directives directives.now)) }
        ensures spreads { result.spreads.items ≡ self.old.spreads.items }
        ensures mark { result.mark ≡ mark }
    {
        add_directives(&mut self.own, directives);
        DefinitionOutline {
            fragment,
            own: self.own,
            spreads: mem::replace(&mut self.spreads, Vec::new(self.alloc)),
            mark,
        }
    }
}

// Appends to a list.
fn push<T: Drop>(items: &mut Vec<T>, item: T) -> Result<(), AllocError>
    ensures { OnOk result (items.new.items ≡ items.old.items ++ item ∷ []) }
{
    items.push(item)?;
    Ok(())
}
