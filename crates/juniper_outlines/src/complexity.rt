//! Complexities, and sums of them.
ghost use Rattle.std.specs.Prelude.{◌≡◌};
ghost use Rattle.juniper_outlines.specs.Complexities.{nothing};
ghost use Rattle.juniper_outlines.specs.Sums.{plus_capped, at_level_capped};

use juniper_tokens::Span;
use std::alloc::{AllocError, AllocFailed};

/// How large an operation is with every fragment spread expanded (GraphQL specification, October 2021, section 2.8). Each
/// number saturates: past `u64::MAX` it is `u64::MAX`.
///
/// Depends on the text alone: no schema gives a field a weight, equal fields aren't merged, so `{ a a }` has two, and
/// `@skip` and `@include` leave nothing out.
#[derive(Clone, Copy, Debug, PartialEq, Eq)]
pub struct Complexity {
    /// The number of fields, at every depth.
    pub fields: u64,
    /// The number of fields with an alias.
    pub aliases: u64,
    /// The number of directives of the operation and of its variable definitions, of fields, of spreads and of inline
    /// fragments, and of a fragment's definition each time that it is spread.
    pub directives: u64,
    /// The number of fields that are in no other field.
    pub root_fields: u64,
    /// The largest number of fields nested in one another: 1 in `{ a }`, 2 in `{ a { b } }`.
    pub depth: u64,
}

/// Why a document's operations have no complexities. Both spans are those of a spread, in characters, from the first of its
/// three dots to the end of its name or of its directives.
#[derive(Clone, Copy, Debug, PartialEq, Eq)]
pub enum ComplexityFailure {
    /// A spread of a fragment that is being expanded: the spread is in the fragment, or in one that it spreads,
    /// directly or through others (GraphQL specification, October 2021, section 5.5.2.2).
    Cycle(Span),
    /// A spread that names no fragment of the document (GraphQL specification, October 2021, section 5.5.2.1).
    Unknown(Span),
    /// Memory ran out.
    Memory,
}

impl From<AllocError> for ComplexityFailure {
    ghost use Rattle.juniper_outlines.specs.declared.complexity.ComplexityFailure.TheVariants.{Memory};

    ghost from_gives = { λ _ e. e ≡ Memory };

    fn from(_error: AllocError) -> Self {
        ComplexityFailure::Memory
    }
}

impl<T: Drop> From<AllocFailed<T>> for ComplexityFailure {
    ghost use Rattle.juniper_outlines.specs.declared.complexity.ComplexityFailure.TheVariants.{Memory};

    ghost from_gives = { λ _ e. e ≡ Memory };

    fn from(_failed: AllocFailed<T>) -> Self {
        ComplexityFailure::Memory
    }
}

impl Complexity {
    /// The complexity of no selection.
    pub fn nothing() -> Complexity
        ensures { result ≡ nothing }
    {
        Complexity {
            fields: 0,
            aliases: 0,
            directives: 0,
            root_fields: 0,
            depth: 0,
        }
    }

    /// The complexity of two parts side by side.
    pub fn plus(self, other: Complexity) -> Complexity
        ensures { result ≡ plus_capped self other }
    {
        let depth = if self.depth < other.depth {
            other.depth
        } else {
            self.depth
        };
        Complexity {
            fields: self.fields.saturating_add(other.fields),
            aliases: self.aliases.saturating_add(other.aliases),
            directives: self.directives.saturating_add(other.directives),
            root_fields: self.root_fields.saturating_add(other.root_fields),
            depth,
        }
    }

    /// The complexity of the same part inside so many fields.
    pub fn at_level(self, level: u64) -> Complexity
        ensures { result ≡ at_level_capped level self }
    {
        if level == 0 {
            return self;
        }
        Complexity {
            fields: self.fields,
            aliases: self.aliases,
            directives: self.directives,
            root_fields: 0,
            depth: level.saturating_add(self.depth),
        }
    }
}
