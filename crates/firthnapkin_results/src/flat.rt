//! The nodes of a source, in the caller's buffers.
ghost use Rattle.std.specs.Prelude.{◌≡◌, ◌<◌, ◌≤◌, ◌^◌, ℕ, Bool, List, length, IfErr, IfOk};
ghost use Rattle.std.specs.Str.{chars, IsUtf8};
ghost use Rattle.graphql_grammar.specs.Tree.{Definition};
ghost use Rattle.juniper_documents.specs.Limited.{FailsLimited};
ghost use Rattle.juniper_documents.specs.Literals.{FailsType, FailsValue};
ghost use Rattle.juniper_values.specs.Scalar.{Content};
ghost use Rattle.firthnapkin_results.specs.Answers.{HasNodes, IsFailure, ReturnsParsed, IfTree, scalars, unparsed};
ghost use Rattle.firthnapkin_results.specs.Buildings.{AreOutlined, BuildsNodes};
ghost use Rattle.firthnapkin_results.specs.ByteTables.{IsTableOf};
ghost use Rattle.firthnapkin_results.specs.Literals.{IsTypeFailure, IsValueFailure};
ghost use Rattle.firthnapkin_results.specs.declared.limits.Limits.{Limits as Bounds};

use crate::builder::NodeBuilder;
use crate::builder::building::Building;
use crate::builder::outliner::{NoOutlines, Outliner};
use crate::byte_table::ByteTable;
use crate::error::{Error, too_deep_error, too_many_tokens_error, written_error};
use crate::limits::Limits;
use crate::node::Node;
use crate::scalar::SourceScalar;
use crate::source::{Unread, text_of};
use juniper_documents::{LimitFailure, Limits as Within, build_document_source};
use juniper_tokens::ParseFailure;
use std::alloc::Global;
use std::marker::PhantomData;
use std::mem;

/// How many nodes a document has, and how many bytes their texts have one after another.
#[derive(Clone, Copy)]
pub struct Lengths {
    pub nodes: usize,
    pub texts: usize,
}

/// What is known of a source.
#[derive(Clone, Copy)]
pub enum Parsed {
    /// The source is a document within the limits.
    Tree(Lengths),
    /// The source isn't a document.
    Refused(Error),
    /// A token is nested too deep, and those up to it begin a document.
    TooDeep(Error),
    /// There is a token past the limit, before the first lexical error.
    TooMany(Error),
}

/// Why a source has no tree within the limits.
#[derive(Clone, Copy)]
pub(crate) enum Failure {
    Refused(Error),
    TooDeep(Error),
    TooMany(Error),
    OutOfMemory,
}

/// Writes the nodes of a source's tree, each before those of the parts in it, and their texts one after another, as far
/// as the buffers reach, and returns how many there are; or returns that the source isn't a document, or the first
/// token that is nested too deep or past the limit.
///
/// Nothing is known if the bytes aren't UTF-8 or are 4 GiB or more, or if memory runs out. What the buffers hold after
/// an error is unspecified; if the bytes aren't read, they are unchanged. A depth above `MAX_DEPTH` may need more stack
/// than there is.
pub fn write_nodes(
    alloc: Global,
    source: &[u8],
    limits: &Limits,
    nodes: &mut [Node],
    texts: &mut [u8],
) -> Result<Parsed, Unread>
    ensures answer { ReturnsParsed source.now limits.now nodes.old nodes.new texts.old texts.new result }
    ensures bounds { IfTree result (λ lengths. (lengths.nodes ≤ length source.now)
        × (lengths.texts ≤ length source.now)) }
{
    write_nodes_of_text(alloc, text_of(source)?, limits, nodes, texts)
}

fn write_nodes_of_text(
    alloc: Global,
    text: &str,
    limits: &Limits,
    nodes: &mut [Node],
    texts: &mut [u8],
) -> Result<Parsed, Unread>
    requires { length text.now < 2 ^ 32 }
    ensures { ReturnsParsed text.now limits.now nodes.old nodes.new texts.old texts.new result }
{
    let table = ByteTable::new(alloc, text)?;
    match write_with(alloc, &table, text, limits, NoOutlines, nodes, texts) {
        Ok((lengths, _)) => Ok(Parsed::Tree(lengths)),
        Err(failure) => unparsed(failure),
    }
}

pub(crate) fn unparsed(failure: Failure) -> Result<Parsed, Unread>
    ensures { result ≡ unparsed failure }
{
    match failure {
        Failure::Refused(error) => Ok(Parsed::Refused(error)),
        Failure::TooDeep(error) => Ok(Parsed::TooDeep(error)),
        Failure::TooMany(error) => Ok(Parsed::TooMany(error)),
        Failure::OutOfMemory => Err(Unread::OutOfMemory),
    }
}

/// Writes the nodes of a text within limits, and their texts, as far as the buffers reach. Returns how many there are,
/// and what an outliner gathered of the definitions; or why there is no tree.
pub(crate) fn write_with<'b, O: Outliner<'b>>(
    alloc: Global,
    table: &ByteTable,
    text: &'b str,
    limits: &Limits,
    outlines: O,
    nodes: &mut [Node],
    texts: &mut [u8],
) -> Result<(Lengths, O::Definitions), Failure>
    requires short { length text.now < 2 ^ 32 }
    requires table { IsTableOf (chars text.now) table.now }
    ensures written { IfOk result (λ written. (tree : List (Definition Content))
        × HasNodes text.now limits.now tree nodes.old nodes.new texts.old texts.new written.0
        × AreOutlined O.outlines 0 (O.Definitions.gathered written.1) tree) }
    ensures failed { IfErr result (IsFailure text.now limits.now) }
{
    let mut builder = NodeBuilder::new(table, nodes, texts);
    let definitions = build_with(alloc, table, text, limits, outlines, &mut builder)?;
    Ok((builder.lengths(), definitions))
}

// Builds the nodes of a text, and gathers of its definitions what an outliner does.
fn build_with<'n, 'b, O: Outliner<'b>>(
    alloc: Global,
    table: &'n ByteTable,
    text: &'b str,
    limits: &Limits,
    outlines: O,
    builder: &mut NodeBuilder<'n>,
) -> Result<O::Definitions, Failure>
    requires short { length text.now < 2 ^ 32 }
    requires table { IsTableOf (chars text.now) table.now }
    ensures built { IfOk result (λ definitions. BuildsNodes O.outlines text.now limits.now builder.old builder.new
        (O.Definitions.gathered definitions)) }
    ensures failed { IfErr result (IsFailure text.now limits.now) }
{
    // An empty builder takes its place meanwhile.
    let nodes = mem::replace(builder, NodeBuilder::new(table, &mut [], &mut []));
    let mut building = Building {
        nodes,
        outlines,
        names: PhantomData,
    };
    let built = build_nodes(alloc, table, text, limits, &mut building);
    let Building {
        nodes: written,
        outlines: _outlines,
        names: _names,
    } = building;
    *builder = written;
    built
}

fn build_nodes<'b, O: Outliner<'b>>(
    alloc: Global,
    table: &ByteTable,
    text: &'b str,
    limits: &Limits,
    building: &mut Building<'_, 'b, O>,
) -> Result<O::Definitions, Failure>
    requires short { length text.now < 2 ^ 32 }
    requires table { IsTableOf (chars text.now) table.now }
    ensures built { IfOk result (λ definitions. BuildsNodes O.outlines text.now limits.now building.old.nodes
        building.new.nodes (O.Definitions.gathered definitions)) }
    ensures failed { IfErr result (IsFailure text.now limits.now) }
{
    let within = Within {
        depth: limits.depth as usize,
        tokens: limits.tokens as usize,
    };
    match build_document_source::<SourceScalar, Building<'_, 'b, O>, LimitFailure>(
        alloc, &text, within, building,
    ) {
        Ok(definitions) => Ok(definitions),
        Err(failure) => Err(failure_of(table, failure)),
    }
}

pub(crate) fn failure_of(table: &ByteTable, failure: LimitFailure) -> Failure
    ensures document { (text : List ℕ) (limits : Bounds) → IsUtf8 text → length text < 2 ^ 32
        → IsTableOf (chars text) table.now → FailsLimited scalars limits.depth limits.tokens (chars text) failure
        → IsFailure text limits result }
    ensures value { (free : Bool) (text : List ℕ) (limits : Bounds) → IsUtf8 text → length text < 2 ^ 32
        → IsTableOf (chars text) table.now → FailsValue scalars free limits.depth limits.tokens (chars text) failure
        → IsValueFailure free text limits result }
    ensures of_type { (text : List ℕ) (limits : Bounds) → IsUtf8 text → length text < 2 ^ 32
        → IsTableOf (chars text) table.now → FailsType limits.depth limits.tokens (chars text) failure
        → IsTypeFailure text limits result }
{
    match failure {
        LimitFailure::Parse(ParseFailure::Refused(found)) => {
            Failure::Refused(written_error(table, &found))
        }
        LimitFailure::TooDeep(span) => Failure::TooDeep(too_deep_error(table, span)),
        LimitFailure::TooMany(span) => Failure::TooMany(too_many_tokens_error(table, span)),
        LimitFailure::Parse(ParseFailure::Memory) => Failure::OutOfMemory,
    }
}
