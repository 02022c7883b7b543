//! The walk over definitions by the spreads in them, which finds the complexity of each. A chain of fragments takes
//! memory and no stack, since the walk is a loop.
ghost use Rattle.std.specs.Prelude.{◌≡◌, ◌<◌, Some, length, IfOk, OnOk};
ghost use Rattle.std.specs.Str.{chars};
ghost use Rattle.juniper_outlines.specs.Definitions.{AreNamed, outlines_of, place_of, resolved};
ghost use Rattle.juniper_outlines.specs.Outlines.{OutlineHas};
ghost use Rattle.juniper_outlines.specs.device.Walk.{HasNext, AreRight, IsOpen, IsStep, IsBroken, Begins, Waits};
ghost use Rattle.juniper_outlines.specs.declared.walk.Step.TheVariants.{NextSpread};

use crate::complexity::{Complexity, ComplexityFailure};
use crate::names::find_named;
use crate::outline::{DefinitionOutline, NamedSpread};
use juniper_tokens::Span;
use std::alloc::Global;
use std::collections::BTreeMap;

/// How far the walk has come with a definition.
#[derive(Clone, Copy)]
pub(crate) enum State {
    Unvisited,
    /// The number of its spreads that are counted, and the complexity with these.
    Open(usize, Complexity),
    Done(Complexity),
}

/// What the walk does next.
#[derive(Clone, Copy)]
enum Step {
    /// On to the next spread of the same definition.
    NextSpread,
    /// Into this definition.
    Enter(usize),
    /// Back, since the definition is done, with this complexity.
    Done(Complexity),
    Unknown(Span),
    Cycle(Span),
}

/// Counts the next spread of an open definition, if its fragment is done; else returns what comes first.
fn follow(
    outlines: &[DefinitionOutline<'_>],
    states: &mut [State],
    at: usize,
    next: usize,
    complexity: Complexity,
    spread: &NamedSpread<'_>,
    target: usize,
) -> Step
    requires places { (at < length outlines.now) × (length states.old ≡ length outlines.now) × (target < length outlines.now) }
    requires next { HasNext (outlines_of outlines.now) states.old at next complexity (resolved (place_of outlines.now) spread.now) }
    requires named { place_of outlines.now (chars spread.now.name.now) ≡ Some target }
    requires few { next < usize.MAX }
    ensures { IsStep (outlines_of outlines.now) states.old states.new at result }
{
    match states[target] {
        State::Unvisited => {
            states[target] = State::Open(0, outlines[target].own);
            Step::Enter(target)
        }
        State::Open(_, _) => Step::Cycle(spread.span),
        State::Done(inner) => {
            states[at] = State::Open(
                next + 1,
                complexity.plus(inner.at_level(spread.fields_around)),
            );
            Step::NextSpread
        }
    }
}

/// Counts the spread at which an open definition waits, since its fragment is done.
fn count_spread(
    outlines: &[DefinitionOutline<'_>],
    states: &mut [State],
    at: usize,
    inner: Complexity,
)
    requires places { (at < length outlines.now) × (length states.old ≡ length outlines.now) }
    requires waits { Waits (outlines_of outlines.now) states.old at inner }
    ensures { IsStep (outlines_of outlines.now) states.old states.new at NextSpread }
{
    let (next, complexity) = match states[at] {
        State::Open(next, complexity) => (next, complexity),
        _ => return,
    };
    let around = outlines[at].spreads[next].fields_around;
    states[at] = State::Open(next + 1, complexity.plus(inner.at_level(around)));
}

/// Takes one step in an open definition.
fn advance<'a>(
    outlines: &[DefinitionOutline<'a>],
    names: &BTreeMap<&'a str, usize>,
    states: &mut [State],
    at: usize,
) -> Step
    requires places { (at < length outlines.now) × (length states.old ≡ length outlines.now) }
    requires names { AreNamed outlines.now names.now }
    requires open { IsOpen states.old at }
    ensures { IsStep (outlines_of outlines.now) states.old states.new at result }
{
    let (next, complexity) = match states[at] {
        State::Open(next, complexity) => (next, complexity),
        _ => return Step::NextSpread,
    };
    let outline = &outlines[at];
    if next >= outline.spreads.len() {
        states[at] = State::Done(complexity);
        return Step::Done(complexity);
    }
    let spread = &outline.spreads[next];
    match find_named(outlines, names, spread.name) {
        None => Step::Unknown(spread.span),
        Some(target) => follow(outlines, states, at, next, complexity, spread, target),
    }
}

/// Finds the complexity of a definition.
pub(crate) fn complexity_of<'a>(
    alloc: Global,
    outlines: &[DefinitionOutline<'a>],
    names: &BTreeMap<&'a str, usize>,
    states: &mut [State],
    root: usize,
) -> Result<Complexity, ComplexityFailure>
    requires places { (root < length outlines.now) × (length states.old ≡ length outlines.now) }
    requires names { AreNamed outlines.now names.now }
    requires right { AreRight (outlines_of outlines.now) states.old }
    ensures complexity { IfOk result (λ complexity. OutlineHas (outlines_of outlines.now) root complexity) }
    ensures right { OnOk result (AreRight (outlines_of outlines.now) states.new) }
    ensures broken { IsBroken (outlines_of outlines.now) root result }
{
    match states[root] {
        State::Done(complexity) => Ok(complexity),
        State::Open(_, complexity) => Ok(complexity),
        State::Unvisited => {
            states[root] = State::Open(0, outlines[root].own);
            walk(alloc, outlines, names, states, root)
        }
    }
}

/// Walks on from the one definition that is open.
fn walk<'a>(
    alloc: Global,
    outlines: &[DefinitionOutline<'a>],
    names: &BTreeMap<&'a str, usize>,
    states: &mut [State],
    root: usize,
) -> Result<Complexity, ComplexityFailure>
    requires places { (root < length outlines.now) × (length states.old ≡ length outlines.now) }
    requires names { AreNamed outlines.now names.now }
    requires begun { Begins (outlines_of outlines.now) states.old root }
    ensures complexity { IfOk result (λ complexity. OutlineHas (outlines_of outlines.now) root complexity) }
    ensures right { OnOk result (AreRight (outlines_of outlines.now) states.new) }
    ensures broken { IsBroken (outlines_of outlines.now) root result }
{
    let mut path = Vec::new(alloc);
    let mut at = root;
    loop {
        match advance(outlines, names, states, at) {
            Step::NextSpread => {}
            Step::Enter(target) => {
                path.push(at)?;
                at = target;
            }
            Step::Done(complexity) => match path.pop() {
                None => return Ok(complexity),
                Some(above) => {
                    count_spread(outlines, states, above, complexity);
                    at = above;
                }
            },
            Step::Unknown(span) => return Err(ComplexityFailure::Unknown(span)),
            Step::Cycle(span) => return Err(ComplexityFailure::Cycle(span)),
        }
    }
}
