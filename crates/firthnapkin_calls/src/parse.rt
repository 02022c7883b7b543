//! A source's nodes, in the caller's memory.
ghost use Rattle.std.specs.Prelude.{◌≡◌, ◌≢◌, ◌<◌, ◌≤◌, ◌⊎◌, List, length};
ghost use Rattle.graphql_grammar.specs.Tree.{Definition};
ghost use Rattle.juniper_values.specs.Scalar.{Content};
ghost use Rattle.firthnapkin_results.specs.Answers.{HasDocument, ReportsFailure, nodes_of, texts_of, Begins, Fills, IsStatus};

use crate::reported::reported;
use firthnapkin_results::error::Error;
use firthnapkin_results::flat::write_nodes;
use firthnapkin_results::limits::Limits;
use firthnapkin_results::node::Node;
use firthnapkin_results::status::{BUFFER_TOO_SMALL, OK, SYNTAX_ERROR, TOO_DEEP, TOO_MANY_TOKENS};
use std::alloc::Global;

/// Writes the nodes of a source's tree and their texts into the caller's buffers, as far as they fit, or its error.
#[unsafe(no_mangle)]
pub extern "C" fn firthnapkin_parse(
    alloc: Global,
    source: &[u8],
    limits: &Limits,
    nodes: &mut [Node],
    nodes_length: &mut usize,
    texts: &mut [u8],
    texts_length: &mut usize,
    error: &mut Error,
) -> u32
    // header: It also returns FIRTHNAPKIN_NOT_UTF8, FIRTHNAPKIN_OUT_OF_MEMORY, FIRTHNAPKIN_SOURCE_TOO_LONG and
    // FIRTHNAPKIN_INVALID_LIMIT.
    ensures statuses { IsStatus result }

    // header: Parses a source within limits. FIRTHNAPKIN_OK: the source is a document. Its nodes are at the beginning
    // of `nodes`, and their texts, one after the other, at the beginning of `texts`; the rest of both is as it was.
    // Both statuses set the lengths to the number of nodes and of bytes of texts.
    ensures tree { result ≡ OK → (tree : List (Definition Content)) × HasDocument source.now limits.now tree
        × Begins (nodes_of source.now tree) nodes.old nodes.new × Begins (texts_of tree) texts.old texts.new
        × (nodes_length.new ≡ length (nodes_of source.now tree)) × (texts_length.new ≡ length (texts_of tree)) }

    // header: FIRTHNAPKIN_BUFFER_TOO_SMALL: it is a document, and one of the two is too small; both begin with what
    // fits. Both statuses set the lengths to the number of nodes and of bytes of texts. FIRTHNAPKIN_BUFFER_TOO_SMALL:
    // a buffer or an array is too small.
    ensures too_small { result ≡ BUFFER_TOO_SMALL → (tree : List (Definition Content))
        × HasDocument source.now limits.now tree
        × ((length nodes.old < length (nodes_of source.now tree)) ⊎ (length texts.old < length (texts_of tree)))
        × Fills (nodes_of source.now tree) nodes.old nodes.new × Fills (texts_of tree) texts.old texts.new
        × (nodes_length.new ≡ length (nodes_of source.now tree)) × (texts_length.new ≡ length (texts_of tree)) }

    // header: Buffers of `length` nodes and `length` bytes always suffice.
    ensures bounds { (nodes_length.new ≤ length source.now) × (texts_length.new ≤ length source.now) }

    // header: FIRTHNAPKIN_SYNTAX_ERROR: the source is UTF-8, and isn't a document. The error is its first lexical
    // error, wherever that is; without one it is at the first token that no document could have there.
    // FIRTHNAPKIN_TOO_DEEP: the source has no lexical error, not even after the token that is nested too deep. That
    // token is the error, and those up to it begin a document. FIRTHNAPKIN_TOO_MANY_TOKENS: the source has more tokens
    // than limits->tokens, before its end or its first lexical error. The first token past the limit is the error,
    // whether those before it begin a document or not. These three statuses write the error. FIRTHNAPKIN_NOT_UTF8,
    // FIRTHNAPKIN_SOURCE_TOO_LONG and FIRTHNAPKIN_INVALID_LIMIT leave both buffers as they were. FIRTHNAPKIN_TOO_DEEP:
    // a token is nested too deep. FIRTHNAPKIN_TOO_MANY_TOKENS: the source has more tokens than the limit, before its
    // first lexical error. FIRTHNAPKIN_NOT_UTF8: the source is not UTF-8. FIRTHNAPKIN_SOURCE_TOO_LONG: the source has
    // 4 GiB or more. FIRTHNAPKIN_INVALID_LIMIT: the depth is above FIRTHNAPKIN_MAX_DEPTH, or a reserved word isn't 0.
    // FIRTHNAPKIN_OUT_OF_MEMORY may be returned in place of lines 5 to 10.
    ensures failures { ReportsFailure source.now limits.now nodes.old nodes.new texts.old texts.new error.new result }

    // header: All others set both lengths to 0.
    ensures no_counts { result ≢ OK → result ≢ BUFFER_TOO_SMALL → (nodes_length.new ≡ 0) × (texts_length.new ≡ 0) }

    // header: The others leave it as it was.
    ensures error_kept { result ≢ SYNTAX_ERROR → result ≢ TOO_DEEP → result ≢ TOO_MANY_TOKENS → error.new ≡ error.old }
{
    reported!(
        write_nodes(alloc, source, limits, nodes, texts),
        source,
        limits,
        nodes,
        nodes_length,
        texts,
        texts_length,
        error
    )
}
