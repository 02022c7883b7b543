//! A source's nodes and the complexities of its operations, in the caller's memory.
ghost use Rattle.std.specs.Prelude.{◌≡◌, ◌≢◌, ◌<◌, ◌≤◌, ◌⊎◌, List, length};
ghost use Rattle.std.specs.Str.{chars};
ghost use Rattle.graphql_lexical.specs.Place as places;
ghost use Rattle.graphql_grammar.specs.Tree.{Definition};
ghost use Rattle.juniper_values.specs.Scalar.{Content};
ghost use Rattle.firthnapkin_results.specs.Answers.{HasDocument, ReportsFailure, Begins, Fills, nodes_of, texts_of};
ghost use Rattle.firthnapkin_results.specs.Errors.{unknown_fragment_error, fragment_cycle_error};
ghost use Rattle.firthnapkin_results.specs.Complexities.{HasUnknown, HasCycle, HaveComplexities, IsComplexitiesStatus};
ghost use Rattle.firthnapkin_results.specs.declared.complexity.Complexity.{Complexity as Measure};

use firthnapkin_results::complexities::{Measured, write_nodes_and_complexities};
use firthnapkin_results::complexity::Complexity;
use firthnapkin_results::error::Error;
use firthnapkin_results::limits::{Limits, are_refused};
use firthnapkin_results::node::Node;
use firthnapkin_results::status::{
    BUFFER_TOO_SMALL, FRAGMENT_CYCLE, INVALID_LIMIT, NOT_UTF8, OK, OUT_OF_MEMORY, SOURCE_TOO_LONG,
    SYNTAX_ERROR, TOO_DEEP, TOO_MANY_TOKENS, UNKNOWN_FRAGMENT,
};
use std::alloc::Global;

/// Writes the nodes of a source's tree, their texts and the complexity of each operation into the caller's buffers, as
/// far as they fit, or its error.
#[unsafe(no_mangle)]
pub extern "C" fn firthnapkin_parse_complexities(
    alloc: Global,
    source: &[u8],
    limits: &Limits,
    nodes: &mut [Node],
    nodes_length: &mut usize,
    texts: &mut [u8],
    texts_length: &mut usize,
    complexities: &mut [Complexity],
    complexities_length: &mut usize,
    error: &mut Error,
) -> u32
    // header: It also returns the other statuses of firthnapkin_parse.
    ensures statuses { IsComplexitiesStatus result }

    // header: Parses a source within limits as firthnapkin_parse does, and finds how large each of its operations is.
    // FIRTHNAPKIN_OK: as there, and the operations' numbers are at the beginning of `complexities`, in the order of
    // the source; the rest of it is as it was. Of two fragments of one name the first is expanded. Both set
    // `complexities_length` to the number of operations.
    ensures tree { result ≡ OK → (tree : List (Definition Content)) × HasDocument source.now limits.now tree
        × Begins (nodes_of source.now tree) nodes.old nodes.new × Begins (texts_of tree) texts.old texts.new
        × (nodes_length.new ≡ length (nodes_of source.now tree)) × (texts_length.new ≡ length (texts_of tree))
        × ((found : List Measure) × HaveComplexities tree found × Begins found complexities.old complexities.new
        × (complexities_length.new ≡ length found)) }

    // header: FIRTHNAPKIN_BUFFER_TOO_SMALL: as there, and it may be this array that is too small. Both set
    // `complexities_length` to the number of operations. If `complexities_length` is at most the capacity, the array
    // has the numbers of all operations, to be compared with limits of the caller's. Otherwise it has those of the
    // first operations, and a call with room for `complexities_length` has all.
    ensures too_small { result ≡ BUFFER_TOO_SMALL → (tree : List (Definition Content))
        × HasDocument source.now limits.now tree
        × Fills (nodes_of source.now tree) nodes.old nodes.new × Fills (texts_of tree) texts.old texts.new
        × (nodes_length.new ≡ length (nodes_of source.now tree)) × (texts_length.new ≡ length (texts_of tree))
        × ((found : List Measure) × HaveComplexities tree found × Fills found complexities.old complexities.new
        × (complexities_length.new ≡ length found)
        × ((length nodes.old < length (nodes_of source.now tree))
        ⊎ ((length texts.old < length (texts_of tree)) ⊎ (length complexities.old < length found)))) }

    // header: An array of `length` complexities always suffices.
    ensures bounds { (nodes_length.new ≤ length source.now) × (texts_length.new ≤ length source.now)
        × (complexities_length.new ≤ length source.now) }

    // header: FIRTHNAPKIN_UNKNOWN_FRAGMENT and FIRTHNAPKIN_FRAGMENT_CYCLE: the source is a document, and an operation
    // can't be expanded. FIRTHNAPKIN_UNKNOWN_FRAGMENT: the source is a document, and a spread names no fragment of it.
    // The error is at the first spread that can't be, from its dots to its end, for a reader who begins with the first
    // operation and goes through each spread's fragment before what is after the spread. What no operation reaches
    // isn't looked at. The nodes and texts are in the buffers as far as they fit, and their lengths are set to the
    // number of all.
    ensures unknown { result ≡ UNKNOWN_FRAGMENT → (tree : List (Definition Content))
        × HasDocument source.now limits.now tree
        × Fills (nodes_of source.now tree) nodes.old nodes.new × Fills (texts_of tree) texts.old texts.new
        × (nodes_length.new ≡ length (nodes_of source.now tree)) × (texts_length.new ≡ length (texts_of tree))
        × ((span : places.Span) × HasUnknown tree span × (error.new ≡ unknown_fragment_error (chars source.now) span)) }

    // header: FIRTHNAPKIN_UNKNOWN_FRAGMENT and FIRTHNAPKIN_FRAGMENT_CYCLE: the source is a document, and an operation
    // can't be expanded. FIRTHNAPKIN_FRAGMENT_CYCLE: the source is a document, and a spread is within the fragment
    // that it names.
    ensures cycle { result ≡ FRAGMENT_CYCLE → (tree : List (Definition Content))
        × HasDocument source.now limits.now tree
        × Fills (nodes_of source.now tree) nodes.old nodes.new × Fills (texts_of tree) texts.old texts.new
        × (nodes_length.new ≡ length (nodes_of source.now tree)) × (texts_length.new ≡ length (texts_of tree))
        × ((span : places.Span) × HasCycle tree span × (error.new ≡ fragment_cycle_error (chars source.now) span)) }

    // header: After these the nodes, the texts, their lengths and the error are as after that call.
    ensures failures { ReportsFailure source.now limits.now nodes.old nodes.new texts.old texts.new error.new result }

    // header: All others set it to 0, and leave the array as it was.
    ensures complexities_kept { result ≢ OK → result ≢ BUFFER_TOO_SMALL → (complexities.new ≡ complexities.old)
        × (complexities_length.new ≡ 0) }

    // header: After these the nodes, the texts, their lengths and the error are as after that call.
    ensures no_counts { result ≢ OK → result ≢ BUFFER_TOO_SMALL → result ≢ UNKNOWN_FRAGMENT → result ≢ FRAGMENT_CYCLE
        → (nodes_length.new ≡ 0) × (texts_length.new ≡ 0) }

    // header: After these the nodes, the texts, their lengths and the error are as after that call.
    ensures error_kept { (result ≡ OK)
        ⊎ ((result ≡ BUFFER_TOO_SMALL) ⊎ ((result ≡ NOT_UTF8)
        ⊎ ((result ≡ OUT_OF_MEMORY) ⊎ ((result ≡ SOURCE_TOO_LONG) ⊎ (result ≡ INVALID_LIMIT)))))
        → error.new ≡ error.old }
{
    *nodes_length = 0;
    *texts_length = 0;
    *complexities_length = 0;
    if are_refused(source, limits) {
        return INVALID_LIMIT;
    }
    match write_nodes_and_complexities(alloc, source, limits, nodes, texts, complexities) {
        Ok(Measured::Tree(lengths, count)) => {
            *nodes_length = lengths.nodes;
            *texts_length = lengths.texts;
            *complexities_length = count;
            if lengths.nodes <= nodes.len()
                && lengths.texts <= texts.len()
                && count <= complexities.len()
            {
                OK
            } else {
                BUFFER_TOO_SMALL
            }
        }
        Ok(Measured::Unknown(lengths, found)) => {
            *nodes_length = lengths.nodes;
            *texts_length = lengths.texts;
            *error = found;
            UNKNOWN_FRAGMENT
        }
        Ok(Measured::Cycle(lengths, found)) => {
            *nodes_length = lengths.nodes;
            *texts_length = lengths.texts;
            *error = found;
            FRAGMENT_CYCLE
        }
        Ok(Measured::Refused(found)) => {
            *error = found;
            SYNTAX_ERROR
        }
        Ok(Measured::TooDeep(found)) => {
            *error = found;
            TOO_DEEP
        }
        Ok(Measured::TooMany(found)) => {
            *error = found;
            TOO_MANY_TOKENS
        }
        Err(unread) => unread.status(),
    }
}
