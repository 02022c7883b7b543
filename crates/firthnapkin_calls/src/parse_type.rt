//! The node of a source that is one type, in the caller's memory.
ghost use Rattle.std.specs.Prelude.{◌≡◌, ◌≢◌, ◌<◌, ◌≤◌, ◌⊎◌, length};
ghost use Rattle.graphql_grammar.specs.Tokens.{Located};
ghost use Rattle.graphql_grammar.specs.Tree.{TypeRef};
ghost use Rattle.firthnapkin_results.specs.Answers.{Begins, Fills, IsStatus};
ghost use Rattle.firthnapkin_results.specs.Literals.{IsOneType, ReportsNoType, nodes_of_type, texts_of_type};

use crate::reported::reported;
use firthnapkin_results::error::Error;
use firthnapkin_results::limits::Limits;
use firthnapkin_results::literal::write_type_nodes;
use firthnapkin_results::node::Node;
use firthnapkin_results::status::{BUFFER_TOO_SMALL, OK, SYNTAX_ERROR, TOO_DEEP, TOO_MANY_TOKENS};
use std::alloc::Global;

/// Writes the node of a source that is one type, and how it is written without spaces, into the caller's buffers, as
/// far as they fit, or its error.
#[unsafe(no_mangle)]
pub extern "C" fn firthnapkin_parse_type(
    alloc: Global,
    source: &[u8],
    limits: &Limits,
    nodes: &mut [Node],
    nodes_length: &mut usize,
    texts: &mut [u8],
    texts_length: &mut usize,
    error: &mut Error,
) -> u32
    // header: Its statuses are those of firthnapkin_parse.
    ensures statuses { IsStatus result }

    // header: Parses a source that is one type, as `[ID!]!`, and no more, within limits (section 2.11). FIRTHNAPKIN_OK:
    // the source is a type. Its one node, of the kind FIRTHNAPKIN_TYPE, is at the beginning of `nodes`, and the type
    // without spaces at the beginning of `texts`; the rest of both is as it was.
    ensures found { result ≡ OK → (found : Located TypeRef) × IsOneType source.now limits.now found
        × Begins (nodes_of_type source.now found) nodes.old nodes.new × Begins (texts_of_type found) texts.old texts.new
        × (nodes_length.new ≡ length (nodes_of_type source.now found))
        × (texts_length.new ≡ length (texts_of_type found)) }

    // header: FIRTHNAPKIN_BUFFER_TOO_SMALL: it is a type, and one of the two is too small; both begin with what fits.
    // Both statuses set the lengths to the number of nodes and of bytes of texts.
    ensures too_small { result ≡ BUFFER_TOO_SMALL → (found : Located TypeRef) × IsOneType source.now limits.now found
        × ((length nodes.old < length (nodes_of_type source.now found))
        ⊎ (length texts.old < length (texts_of_type found)))
        × Fills (nodes_of_type source.now found) nodes.old nodes.new × Fills (texts_of_type found) texts.old texts.new
        × (nodes_length.new ≡ length (nodes_of_type source.now found))
        × (texts_length.new ≡ length (texts_of_type found)) }

    // header: Buffers of `length` nodes and `length` bytes always suffice.
    ensures bounds { (nodes_length.new ≤ length source.now) × (texts_length.new ≤ length source.now) }

    // header: FIRTHNAPKIN_SYNTAX_ERROR, FIRTHNAPKIN_TOO_DEEP and FIRTHNAPKIN_TOO_MANY_TOKENS mean what they do there,
    // with 'type' for 'document', and so does the error. After all statuses but the first two the buffers, the lengths
    // and the error are as after that call.
    ensures failures { ReportsNoType source.now limits.now nodes.old nodes.new texts.old texts.new error.new result }

    // header: After all statuses but the first two the buffers, the lengths and the error are as after that call.
    ensures no_counts { result ≢ OK → result ≢ BUFFER_TOO_SMALL → (nodes_length.new ≡ 0) × (texts_length.new ≡ 0) }

    // header: After all statuses but the first two the buffers, the lengths and the error are as after that call.
    ensures error_kept { result ≢ SYNTAX_ERROR → result ≢ TOO_DEEP → result ≢ TOO_MANY_TOKENS → error.new ≡ error.old }
{
    reported!(
        write_type_nodes(alloc, source, limits, nodes, texts),
        source,
        limits,
        nodes,
        nodes_length,
        texts,
        texts_length,
        error
    )
}
