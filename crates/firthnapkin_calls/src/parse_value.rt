//! The nodes of a source that is one value, in the caller's memory.
ghost use Rattle.std.specs.Prelude.{◌≡◌, ◌≢◌, ◌==◌, ◌<◌, ◌≤◌, ◌⊎◌, length};
ghost use Rattle.graphql_grammar.specs.Tokens.{Located};
ghost use Rattle.graphql_grammar.specs.Tree.{Value};
ghost use Rattle.juniper_values.specs.Scalar.{Content};
ghost use Rattle.firthnapkin_results.specs.Answers.{Begins, Fills, IsStatus};
ghost use Rattle.firthnapkin_results.specs.Literals.{IsOneValue, ReportsNoValue, nodes_of_value, texts_of_value};

use crate::reported::reported;
use firthnapkin_results::error::Error;
use firthnapkin_results::limits::Limits;
use firthnapkin_results::literal::write_value_nodes;
use firthnapkin_results::node::Node;
use firthnapkin_results::status::{BUFFER_TOO_SMALL, OK, SYNTAX_ERROR, TOO_DEEP, TOO_MANY_TOKENS};
use std::alloc::Global;

/// Writes the nodes of a source that is one value, and their texts, into the caller's buffers, as far as they fit, or
/// its error. The value is constant, and has no variables, if `constant` isn't 0.
#[unsafe(no_mangle)]
pub extern "C" fn firthnapkin_parse_value(
    alloc: Global,
    source: &[u8],
    constant: u32,
    limits: &Limits,
    nodes: &mut [Node],
    nodes_length: &mut usize,
    texts: &mut [u8],
    texts_length: &mut usize,
    error: &mut Error,
) -> u32
    // header: Its statuses are those of firthnapkin_parse.
    ensures statuses { IsStatus result }

    // header: Parses a source that is one value, and no more, within limits (GraphQL specification, October 2021,
    // section 2.9). If `constant` isn't 0, the value is constant: it has no variables. FIRTHNAPKIN_OK: the source is a
    // value. Its nodes are at the beginning of `nodes`, the first of them its own, and their texts at the beginning of
    // `texts`; the rest of both is as it was.
    ensures value { result ≡ OK → (value : Located (Value Content))
        × IsOneValue (constant == 0) source.now limits.now value
        × Begins (nodes_of_value source.now value) nodes.old nodes.new
        × Begins (texts_of_value value) texts.old texts.new
        × (nodes_length.new ≡ length (nodes_of_value source.now value))
        × (texts_length.new ≡ length (texts_of_value value)) }

    // header: FIRTHNAPKIN_BUFFER_TOO_SMALL: it is a value, and one of the two is too small; both begin with what fits.
    // Both statuses set the lengths to the number of nodes and of bytes of texts.
    ensures too_small { result ≡ BUFFER_TOO_SMALL → (value : Located (Value Content))
        × IsOneValue (constant == 0) source.now limits.now value
        × ((length nodes.old < length (nodes_of_value source.now value))
        ⊎ (length texts.old < length (texts_of_value value)))
        × Fills (nodes_of_value source.now value) nodes.old nodes.new × Fills (texts_of_value value) texts.old texts.new
        × (nodes_length.new ≡ length (nodes_of_value source.now value))
        × (texts_length.new ≡ length (texts_of_value value)) }

    // header: Buffers of `length` nodes and `length` bytes always suffice.
    ensures bounds { (nodes_length.new ≤ length source.now) × (texts_length.new ≤ length source.now) }

    // header: FIRTHNAPKIN_SYNTAX_ERROR, FIRTHNAPKIN_TOO_DEEP and FIRTHNAPKIN_TOO_MANY_TOKENS mean what they do there,
    // with 'value' for 'document', and so does the error. After all statuses but the first two the buffers, the lengths
    // and the error are as after that call.
    ensures failures { ReportsNoValue (constant == 0) source.now limits.now nodes.old nodes.new texts.old texts.new
        error.new result }

    // header: After all statuses but the first two the buffers, the lengths and the error are as after that call.
    ensures no_counts { result ≢ OK → result ≢ BUFFER_TOO_SMALL → (nodes_length.new ≡ 0) × (texts_length.new ≡ 0) }

    // header: After all statuses but the first two the buffers, the lengths and the error are as after that call.
    ensures error_kept { result ≢ SYNTAX_ERROR → result ≢ TOO_DEEP → result ≢ TOO_MANY_TOKENS → error.new ≡ error.old }
{
    reported!(
        write_value_nodes(alloc, source, constant != 0, limits, nodes, texts),
        source,
        limits,
        nodes,
        nodes_length,
        texts,
        texts_length,
        error
    )
}
