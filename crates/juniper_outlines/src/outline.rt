//! The outline of a definition.
ghost use Rattle.std.specs.Prelude.{◌≡◌};
ghost use Rattle.juniper_outlines.specs.Definitions.{own_complexity};

use crate::complexity::Complexity;
use juniper_tokens::Span;

/// A fragment spread in a definition.
#[derive(Clone, Copy)]
pub struct NamedSpread<'a> {
    /// The name of the fragment.
    pub name: &'a str,
    /// The number of fields around it.
    pub fields_around: u64,
    /// In characters, from the first of its three dots to the end of its name or of its directives.
    pub span: Span,
}

/// A definition of a document with its numbers and its spreads, none of them expanded.
#[derive(Drop)]
pub struct DefinitionOutline<'a> {
    /// The name of a fragment; None of an operation.
    pub fragment: Option<&'a str>,
    /// The complexity of what stands in the definition itself.
    pub own: Complexity,
    /// In the order of the text.
    pub spreads: Vec<NamedSpread<'a>>,
    /// A number for the caller to keep.
    pub mark: usize,
}

impl DefinitionOutline<'_> {
    /// The complexity of an operation with no spread expanded, or None of a fragment.
    pub fn own_complexity(&self) -> Option<Complexity>
        ensures { result ≡ own_complexity self.now }
    {
        if self.fragment.is_none() {
            Some(self.own)
        } else {
            None
        }
    }
}
