//! Laws of complexities: the contracts of functions that do nothing. A function whose proof needs one calls it.
ghost use Rattle.std.specs.Prelude.{◌≡◌, ◌↔◌, IsTrue};
ghost use Rattle.juniper_outlines.specs.declared.complexity.Complexity.{Complexity};
ghost use Rattle.juniper_outlines.specs.declared.complexity.ComplexityFailure.{ComplexityFailure};
ghost use Rattle.juniper_outlines.specs.declared.operations.OperationComplexity.{OperationComplexity};

use crate::complexity::{Complexity, ComplexityFailure};
use crate::operations::OperationComplexity;

/// Complexities are equal exactly if each of their numbers is, those of operations if also these are the same operation,
/// and failures if they are of one kind, with one span.
pub fn complexities_are_compared_whole()
    ensures complexities { (a b : Complexity) → IsTrue (⟦<Complexity as PartialEq>⟧.eq a b) ↔ (a ≡ b) }
    ensures of_operations { (a b : OperationComplexity) → IsTrue (⟦<OperationComplexity as PartialEq>⟧.eq a b) ↔ (a ≡ b) }
    ensures failures { (a b : ComplexityFailure) → IsTrue (⟦<ComplexityFailure as PartialEq>⟧.eq a b) ↔ (a ≡ b) }
{}
