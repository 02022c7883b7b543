//! The nodes of a source in the caller's buffers, with the complexities of its operations.
ghost use Rattle.std.specs.Prelude.{◌<◌, ◌≤◌, ◌^◌, ℕ, List, length};
ghost use Rattle.std.specs.Str.{chars};
ghost use Rattle.graphql_grammar.specs.Tree.{Definition};
ghost use Rattle.juniper_complexity.specs.Gathered.{AreGathered};
ghost use Rattle.juniper_values.specs.Scalar.{Content};
ghost use Rattle.firthnapkin_results.specs.Answers.{HasNodes};
ghost use Rattle.firthnapkin_results.specs.Buildings.{AreMarked};
ghost use Rattle.firthnapkin_results.specs.ByteTables.{IsTableOf};
ghost use Rattle.firthnapkin_results.specs.Complexities.{IfNodes, ReturnsMeasured};
ghost use Rattle.firthnapkin_results.specs.declared.limits.Limits.{Limits as Bounds};
ghost use Rattle.firthnapkin_results.specs.declared.node.Node.{Node as Written};

use crate::byte_table::ByteTable;
use crate::complexity::{Complexity, write_complexities, write_own_complexities};
use crate::error::{Error, fragment_cycle_error, unknown_fragment_error};
use crate::flat::{Failure, Lengths, write_with};
use crate::limits::Limits;
use crate::node::Node;
use crate::source::{Unread, text_of};
use juniper_complexity::{
    ComplexityFailure, DefinitionOutline, OutlineBuilder, gathered_complexities, have_no_spreads,
};
use std::alloc::Global;

/// What is known of a source and of its operations.
#[derive(Clone, Copy)]
pub enum Measured {
    /// The source is a document within the limits, and has so many operations.
    Tree(Lengths, usize),
    /// The same, but an operation has a spread that names no fragment, itself or through others.
    Unknown(Lengths, Error),
    /// The same, but an operation has a spread of a fragment in which it stands, itself or through others.
    Cycle(Lengths, Error),
    /// The source isn't a document.
    Refused(Error),
    /// A token is nested too deep, and those up to it begin a document.
    TooDeep(Error),
    /// There is a token past the limit, before the first lexical error.
    TooMany(Error),
}

/// Writes the nodes of a source's tree and their texts as `write_nodes` does, and the complexity of each of its
/// operations, as far as the buffers reach.
pub fn write_nodes_and_complexities(
    alloc: Global,
    source: &[u8],
    limits: &Limits,
    nodes: &mut [Node],
    texts: &mut [u8],
    complexities: &mut [Complexity],
) -> Result<Measured, Unread>
    ensures answer { ReturnsMeasured source.now limits.now nodes.old nodes.new texts.old texts.new complexities.old
        complexities.new result }
    ensures bounds { IfNodes result
        (λ lengths count. (lengths.nodes ≤ length source.now) × (lengths.texts ≤ length source.now)
        × (count ≤ length source.now)) }
{
    measure_text(alloc, text_of(source)?, limits, nodes, texts, complexities)
}

fn measure_text(
    alloc: Global,
    text: &str,
    limits: &Limits,
    nodes: &mut [Node],
    texts: &mut [u8],
    complexities: &mut [Complexity],
) -> Result<Measured, Unread>
    requires { length text.now < 2 ^ 32 }
    ensures { ReturnsMeasured text.now limits.now nodes.old nodes.new texts.old texts.new complexities.old
        complexities.new result }
{
    let table = ByteTable::new(alloc, text)?;
    let outlines = OutlineBuilder::new(alloc);
    match write_with(alloc, &table, text, limits, outlines, nodes, texts) {
        Ok((lengths, definitions)) => {
            measure(alloc, &table, &definitions.items, lengths, complexities)
        }
        Err(Failure::Refused(error)) => Ok(Measured::Refused(error)),
        Err(Failure::TooDeep(error)) => Ok(Measured::TooDeep(error)),
        Err(Failure::TooMany(error)) => Ok(Measured::TooMany(error)),
        Err(Failure::OutOfMemory) => Err(Unread::OutOfMemory),
    }
}

// Writes the complexities of the operations of a document.
fn measure(
    alloc: Global,
    table: &ByteTable,
    definitions: &[DefinitionOutline<'_>],
    lengths: Lengths,
    complexities: &mut [Complexity],
) -> Result<Measured, Unread>
    ensures { (text : List ℕ) (limits : Bounds) (tree : List (Definition Content)) (old_nodes new_nodes : List Written)
        (old_texts new_texts : List ℕ) → length text < 2 ^ 32 → IsTableOf (chars text) table.now
        → HasNodes text limits tree old_nodes new_nodes old_texts new_texts lengths → AreGathered definitions.now tree
        → AreMarked 0 definitions.now tree
        → ReturnsMeasured text limits old_nodes new_nodes old_texts new_texts complexities.old complexities.new result }
{
    if have_no_spreads(definitions) {
        let count = write_own_complexities(definitions, complexities);
        return Ok(Measured::Tree(lengths, count));
    }
    match gathered_complexities(alloc, definitions) {
        Ok(found) => {
            write_complexities(definitions, &found, complexities);
            Ok(Measured::Tree(lengths, found.len()))
        }
        Err(ComplexityFailure::Unknown(span)) => {
            Ok(Measured::Unknown(lengths, unknown_fragment_error(table, span)))
        }
        Err(ComplexityFailure::Cycle(span)) => {
            Ok(Measured::Cycle(lengths, fragment_cycle_error(table, span)))
        }
        Err(ComplexityFailure::Memory) => Err(Unread::OutOfMemory),
    }
}
