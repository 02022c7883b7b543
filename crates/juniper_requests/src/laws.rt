//! Laws of requests: the contracts of functions that do nothing. A function whose proof needs one calls it.
ghost use Rattle.std.specs.Prelude.{◌≡◌, ◌↔◌, IsTrue};
ghost use Rattle.juniper_requests.specs.declared.operations.OperationFailure.{OperationFailure};

use crate::operations::OperationFailure;

/// Failures are equal exactly if they are of one kind.
pub fn operation_failures_are_compared_whole()
    ensures { (a b : OperationFailure) → IsTrue (⟦<OperationFailure as PartialEq>⟧.eq a b) ↔ (a ≡ b) }
{}
