//! The complexities of operations, as C gets them.
ghost use Rattle.std.specs.Prelude.{◌≡◌, ◌<◌, ◌^◌, List, length, map, set};
ghost use Rattle.graphql_grammar.specs.Tree.{Definition};
ghost use Rattle.graphql_nodes.specs.Nodes.{document_nodes};
ghost use Rattle.juniper_complexity.specs.Faults.{OperationsHave};
ghost use Rattle.juniper_outlines.specs.Definitions.{own_complexities};
ghost use Rattle.juniper_values.specs.Scalar.{Content};
ghost use Rattle.firthnapkin_results.specs.Builders.{with_written};
ghost use Rattle.firthnapkin_results.specs.Buildings.{AreMarked};
ghost use Rattle.firthnapkin_results.specs.Complexities.{node_at, complexity_of, saturated};

use crate::position::in_word;
use juniper_complexity::{DefinitionOutline, OperationComplexity};

/// The complexity of an operation. Each number saturates: past the largest word it is that.
#[repr(C)]
#[derive(Clone, Copy)]
pub struct Complexity {
    /// The index of the operation's node.
    pub definition: u32,
    pub fields: u32,
    pub aliases: u32,
    pub directives: u32,
    pub root_fields: u32,
    pub depth: u32,
}

/// Writes complexities from the buffer's beginning on, as far as they fit.
pub(crate) fn write_complexities(
    definitions: &[DefinitionOutline<'_>],
    found: &[OperationComplexity],
    buffer: &mut [Complexity],
)
    ensures { (tree : List (Definition Content)) → AreMarked 0 definitions.now tree
        → length (document_nodes tree) < 2 ^ 32 → OperationsHave tree 0 tree found.now
        → buffer.new ≡ with_written buffer.old 0 (map (complexity_of tree) found.now) }
{
    for i in 0..found.len() {
        put(buffer, i, complexity_of(definitions, &found[i]));
    }
}

/// Writes the complexities of operations none of which has a spread, as `write_complexities` does. Returns how many
/// they are.
pub(crate) fn write_own_complexities(
    definitions: &[DefinitionOutline<'_>],
    buffer: &mut [Complexity],
) -> usize
    ensures written { (tree : List (Definition Content)) → AreMarked 0 definitions.now tree
        → length (document_nodes tree) < 2 ^ 32
        → buffer.new ≡ with_written buffer.old 0 (map (complexity_of tree) (own_complexities 0 definitions.now)) }
    ensures count { result ≡ length (own_complexities 0 definitions.now) }
{
    let mut count = 0;
    for i in 0..definitions.len() {
        match definitions[i].own_complexity() {
            None => {}
            Some(complexity) => {
                let own = OperationComplexity {
                    definition: i,
                    complexity,
                };
                put(buffer, count, complexity_of(definitions, &own));
                count += 1;
            }
        }
    }
    count
}

fn put(buffer: &mut [Complexity], index: usize, complexity: Complexity)
    ensures { buffer.new ≡ set buffer.old index complexity }
{
    if index < buffer.len() {
        buffer[index] = complexity;
    }
}

fn complexity_of(definitions: &[DefinitionOutline<'_>], found: &OperationComplexity) -> Complexity
    ensures { (tree : List (Definition Content)) → AreMarked 0 definitions.now tree
        → length (document_nodes tree) < 2 ^ 32 → found.now.definition < length tree
        → result ≡ complexity_of tree found.now }
{
    let complexity = found.complexity;
    Complexity {
        definition: node_at(definitions, found.definition),
        fields: saturated(complexity.fields),
        aliases: saturated(complexity.aliases),
        directives: saturated(complexity.directives),
        root_fields: saturated(complexity.root_fields),
        depth: saturated(complexity.depth),
    }
}

// The index of the node of the definition at this index.
fn node_at(definitions: &[DefinitionOutline<'_>], at: usize) -> u32
    ensures { (tree : List (Definition Content)) → AreMarked 0 definitions.now tree
        → length (document_nodes tree) < 2 ^ 32 → at < length tree → result ≡ node_at tree at }
{
    if at < definitions.len() {
        in_word(definitions[at].mark)
    } else {
        0
    }
}

fn saturated(number: u64) -> u32
    ensures { result ≡ saturated number }
{
    if number < 4_294_967_295 {
        number as u32
    } else {
        4_294_967_295
    }
}
