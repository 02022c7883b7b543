//! The complexities of the operations among definitions.
ghost use Rattle.std.specs.Prelude.{◌≡◌, IfOk, map, true, false};
ghost use Rattle.juniper_outlines.specs.Definitions.{AreNamed, outlines_of, HaveNoSpreads, own_complexities};
ghost use Rattle.juniper_outlines.specs.Outlines.{OutlinesHave, FailsWithFirstBreak};
ghost use Rattle.juniper_outlines.specs.device.Walk.{first_state};

use crate::complexity::{Complexity, ComplexityFailure};
use crate::names::names_of;
use crate::outline::DefinitionOutline;
use crate::walk::{State, complexity_of};
use std::alloc::{AllocError, Global};
use std::collections::BTreeMap;

/// The complexity of one operation of a document.
#[derive(Clone, Copy, Debug, PartialEq, Eq)]
pub struct OperationComplexity {
    /// The index of the operation among the document's definitions, from 0.
    pub definition: usize,
    pub complexity: Complexity,
}

/// How far the walk is with a definition where it begins: a definition without spreads is done.
fn first_state(definition: &DefinitionOutline<'_>) -> State
    ensures { result ≡ first_state definition.now }
{
    if definition.spreads.is_empty() {
        State::Done(definition.own)
    } else {
        State::Unvisited
    }
}

fn first_states(
    alloc: Global,
    definitions: &[DefinitionOutline<'_>],
) -> Result<Vec<State>, AllocError>
    ensures { IfOk result (λ states. states.items ≡ map first_state definitions.now) }
{
    let mut states = Vec::with_capacity(alloc, definitions.len())?;
    for i in 0..definitions.len() {
        states.push(first_state(&definitions[i]))?;
    }
    Ok(states)
}

/// The complexity of each operation among definitions, whose names these are.
fn walked_complexities<'a>(
    alloc: Global,
    definitions: &[DefinitionOutline<'a>],
    names: &BTreeMap<&'a str, usize>,
) -> Result<Vec<OperationComplexity>, ComplexityFailure>
    requires { AreNamed definitions.now names.now }
    ensures complexities { IfOk result (λ complexities. OutlinesHave (outlines_of definitions.now) 0 (outlines_of definitions.now) complexities.items) }
    ensures failure { FailsWithFirstBreak (outlines_of definitions.now) result }
{
    let mut states = first_states(alloc, definitions)?;
    let mut complexities = Vec::new(alloc);
    for i in 0..definitions.len() {
        if definitions[i].fragment.is_none() {
            let complexity = complexity_of(alloc, definitions, names, &mut states, i)?;
            complexities.push(OperationComplexity {
                definition: i,
                complexity,
            })?;
        }
    }
    Ok(complexities)
}

/// Whether no operation among these definitions has a spread. Then the complexity of each is the one that
/// `own_complexity` returns.
pub fn have_no_spreads(definitions: &[DefinitionOutline<'_>]) -> bool
    ensures yes { result ≡ true → HaveNoSpreads definitions.now }
    ensures no { result ≡ false → ¬ HaveNoSpreads definitions.now }
{
    for i in 0..definitions.len() {
        match definitions[i].fragment {
            Some(_) => {}
            None => {
                if !definitions[i].spreads.is_empty() {
                    return false;
                }
            }
        }
    }
    true
}

/// The complexities of the operations among definitions with no spread expanded, in their order. Returns `AllocError` if
/// memory runs out.
pub fn own_complexities(
    alloc: Global,
    definitions: &[DefinitionOutline<'_>],
) -> Result<Vec<OperationComplexity>, AllocError>
    ensures { IfOk result (λ complexities. complexities.items ≡ own_complexities 0 definitions.now) }
{
    let mut complexities = Vec::new(alloc);
    for i in 0..definitions.len() {
        match definitions[i].own_complexity() {
            None => {}
            Some(complexity) => complexities.push(OperationComplexity {
                definition: i,
                complexity,
            })?,
        }
    }
    Ok(complexities)
}

/// Returns the complexity of each operation among a document's definitions, in their order, with every fragment spread
/// expanded (GraphQL specification, October 2021, section 2.8). A spread stands for the first fragment of its name.
///
/// If a spread can't be expanded, returns `ComplexityFailure::Unknown` or `ComplexityFailure::Cycle` with its span. It
/// is the first such spread for a reader who begins with the first operation, and goes through each spread's fragment
/// before going on after the spread. If memory runs out, returns `ComplexityFailure::Memory`.
///
/// No fragment is expanded twice: time and memory grow with the definitions and their spreads, except that the name of
/// each fragment and each spread is looked up in an ordered map.
pub fn outlined_complexities(
    alloc: Global,
    definitions: &[DefinitionOutline<'_>],
) -> Result<Vec<OperationComplexity>, ComplexityFailure>
    ensures complexities { IfOk result (λ complexities. OutlinesHave (outlines_of definitions.now) 0 (outlines_of definitions.now) complexities.items) }
    ensures failure { FailsWithFirstBreak (outlines_of definitions.now) result }
{
    let names = names_of(alloc, definitions)?;
    walked_complexities(alloc, definitions, &names)
}
