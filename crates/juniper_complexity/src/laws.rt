//! Laws of complexities.
ghost use Rattle.std.specs.Prelude.{◌≡◌, ◌⊎◌, ℕ, List, ◌∷◌, [], slice_get, Some};
ghost use Rattle.graphql_grammar.specs.Tree.{Definition};
ghost use Rattle.juniper_complexity.specs.Expansion.{DefinitionHas};
ghost use Rattle.juniper_complexity.specs.Faults.{CannotExpand, SpreadFault};
ghost use Rattle.juniper_complexity.specs.Parts.{spreads_of_definition};
ghost use Rattle.juniper_outlines.specs.declared.complexity.Complexity.{Complexity};

/// A definition of a document has at most one complexity.
pub fn one_complexity<C>()
    ensures { (document : List (Definition C)) (i : ℕ) (d : Definition C) (a b : Complexity) → slice_get document i ≡ Some d → DefinitionHas document d a → DefinitionHas document d b → a ≡ b }
{}

/// A definition of a document has at most one first spread that can't be expanded.
pub fn one_fault<C>()
    ensures { (document : List (Definition C)) (i : ℕ) (d : Definition C) (f g : SpreadFault) → slice_get document i ≡ Some d → CannotExpand document (i ∷ []) (spreads_of_definition d) f → CannotExpand document (i ∷ []) (spreads_of_definition d) g → f ≡ g }
{}

/// A definition of a document has a complexity, or a first spread that can't be expanded, never both.
pub fn complexity_or_fault<C>()
    ensures one_of_both { (document : List (Definition C)) (i : ℕ) (d : Definition C) → slice_get document i ≡ Some d → ((a : Complexity) × DefinitionHas document d a) ⊎ ((f : SpreadFault) × CannotExpand document (i ∷ []) (spreads_of_definition d) f) }
    ensures not_both { (document : List (Definition C)) (i : ℕ) (d : Definition C) (a : Complexity) (f : SpreadFault) → slice_get document i ≡ Some d → DefinitionHas document d a → CannotExpand document (i ∷ []) (spreads_of_definition d) f → ⊥ }
{}
