//! The nodes of a source that is one value or one type, in the caller's buffers.
ghost use Rattle.std.specs.Prelude.{◌<◌, ◌≤◌, ◌^◌, not, length, IfErr, IfOk, OnOk};
ghost use Rattle.std.specs.Str.{chars};
ghost use Rattle.graphql_grammar.specs.Tokens.{Located};
ghost use Rattle.graphql_grammar.specs.Tree.{TypeRef, Value as Seen};
ghost use Rattle.graphql_nodes.specs.Nodes.{type_nodes, value_nodes};
ghost use Rattle.juniper_values.specs.Scalar.{Content};
ghost use Rattle.firthnapkin_results.specs.Answers.{AreWritten, IfTree};
ghost use Rattle.firthnapkin_results.specs.Builders.{Adds};
ghost use Rattle.firthnapkin_results.specs.ByteTables.{IsTableOf};
ghost use Rattle.firthnapkin_results.specs.Literals.{IsOneType, IsOneValue, IsTypeFailure, IsValueFailure, ReturnsType, ReturnsValue};

use crate::builder::NodeBuilder;
use crate::builder::building::Building;
use crate::builder::outliner::NoOutlines;
use crate::byte_table::ByteTable;
use crate::flat::{Failure, Lengths, Parsed, failure_of, unparsed};
use crate::limits::Limits;
use crate::node::Node;
use crate::scalar::SourceScalar;
use crate::source::{Unread, text_of};
use juniper_documents::{LimitFailure, Limits as Within, build_value_source, parse_type_source};
use std::alloc::Global;
use std::marker::PhantomData;
use std::mem;

/// Writes the nodes of a source that is one value, as `write_nodes` does those of a document. The value is constant,
/// and has no variables, if `is_const`.
pub fn write_value_nodes(
    alloc: Global,
    source: &[u8],
    is_const: bool,
    limits: &Limits,
    nodes: &mut [Node],
    texts: &mut [u8],
) -> Result<Parsed, Unread>
    ensures answer { ReturnsValue (not is_const) source.now limits.now nodes.old nodes.new texts.old texts.new result }
    ensures bounds { IfTree result (λ lengths. (lengths.nodes ≤ length source.now)
        × (lengths.texts ≤ length source.now)) }
{
    write_value_of_text(alloc, text_of(source)?, is_const, limits, nodes, texts)
}

fn write_value_of_text(
    alloc: Global,
    text: &str,
    is_const: bool,
    limits: &Limits,
    nodes: &mut [Node],
    texts: &mut [u8],
) -> Result<Parsed, Unread>
    requires { length text.now < 2 ^ 32 }
    ensures { ReturnsValue (not is_const) text.now limits.now nodes.old nodes.new texts.old texts.new result }
{
    let table = ByteTable::new(alloc, text)?;
    match write_value(alloc, &table, text, is_const, limits, nodes, texts) {
        Ok(lengths) => Ok(Parsed::Tree(lengths)),
        Err(failure) => unparsed(failure),
    }
}

fn write_value(
    alloc: Global,
    table: &ByteTable,
    text: &str,
    is_const: bool,
    limits: &Limits,
    nodes: &mut [Node],
    texts: &mut [u8],
) -> Result<Lengths, Failure>
    requires short { length text.now < 2 ^ 32 }
    requires table { IsTableOf (chars text.now) table.now }
    ensures written { IfOk result (λ lengths. (value : Located (Seen Content))
        × IsOneValue (not is_const) text.now limits.now value
        × AreWritten text.now (value_nodes value) nodes.old nodes.new texts.old texts.new lengths) }
    ensures failed { IfErr result (IsValueFailure (not is_const) text.now limits.now) }
{
    let mut builder = NodeBuilder::new(table, nodes, texts);
    build_value(alloc, table, text, is_const, limits, &mut builder)?;
    Ok(builder.lengths())
}

fn build_value<'n>(
    alloc: Global,
    table: &'n ByteTable,
    text: &str,
    is_const: bool,
    limits: &Limits,
    builder: &mut NodeBuilder<'n>,
) -> Result<(), Failure>
    requires short { length text.now < 2 ^ 32 }
    requires table { IsTableOf (chars text.now) table.now }
    ensures built { OnOk result ((value : Located (Seen Content)) × IsOneValue (not is_const) text.now limits.now value
        × Adds builder.old builder.new (value_nodes value)) }
    ensures failed { IfErr result (IsValueFailure (not is_const) text.now limits.now) }
{
    // An empty builder takes its place meanwhile.
    let nodes = mem::replace(builder, NodeBuilder::new(table, &mut [], &mut []));
    let mut building = Building {
        nodes,
        outlines: NoOutlines,
        names: PhantomData,
    };
    let built = build_value_nodes(alloc, table, text, is_const, limits, &mut building);
    let Building {
        nodes: written,
        outlines: _outlines,
        names: _names,
    } = building;
    *builder = written;
    built
}

fn build_value_nodes<'b>(
    alloc: Global,
    table: &ByteTable,
    text: &'b str,
    is_const: bool,
    limits: &Limits,
    building: &mut Building<'_, 'b, NoOutlines>,
) -> Result<(), Failure>
    requires short { length text.now < 2 ^ 32 }
    requires table { IsTableOf (chars text.now) table.now }
    ensures built { OnOk result ((value : Located (Seen Content)) × IsOneValue (not is_const) text.now limits.now value
        × Adds building.old.nodes building.new.nodes (value_nodes value)) }
    ensures failed { IfErr result (IsValueFailure (not is_const) text.now limits.now) }
{
    let within = Within {
        depth: limits.depth as usize,
        tokens: limits.tokens as usize,
    };
    match build_value_source::<SourceScalar, Building<'_, 'b, NoOutlines>, LimitFailure>(
        alloc, &text, is_const, within, building,
    ) {
        Ok(()) => Ok(()),
        Err(failure) => Err(failure_of(table, failure)),
    }
}

/// Writes the node of a source that is one type, as `write_nodes` does those of a document.
pub fn write_type_nodes(
    alloc: Global,
    source: &[u8],
    limits: &Limits,
    nodes: &mut [Node],
    texts: &mut [u8],
) -> Result<Parsed, Unread>
    ensures answer { ReturnsType source.now limits.now nodes.old nodes.new texts.old texts.new result }
    ensures bounds { IfTree result (λ lengths. (lengths.nodes ≤ length source.now)
        × (lengths.texts ≤ length source.now)) }
{
    write_type_of_text(alloc, text_of(source)?, limits, nodes, texts)
}

fn write_type_of_text(
    alloc: Global,
    text: &str,
    limits: &Limits,
    nodes: &mut [Node],
    texts: &mut [u8],
) -> Result<Parsed, Unread>
    requires { length text.now < 2 ^ 32 }
    ensures { ReturnsType text.now limits.now nodes.old nodes.new texts.old texts.new result }
{
    let table = ByteTable::new(alloc, text)?;
    match write_type(alloc, &table, text, limits, nodes, texts) {
        Ok(lengths) => Ok(Parsed::Tree(lengths)),
        Err(failure) => unparsed(failure),
    }
}

fn write_type(
    alloc: Global,
    table: &ByteTable,
    text: &str,
    limits: &Limits,
    nodes: &mut [Node],
    texts: &mut [u8],
) -> Result<Lengths, Failure>
    requires short { length text.now < 2 ^ 32 }
    requires table { IsTableOf (chars text.now) table.now }
    ensures written { IfOk result (λ lengths. (of_type : Located TypeRef) × IsOneType text.now limits.now of_type
        × AreWritten text.now (type_nodes of_type) nodes.old nodes.new texts.old texts.new lengths) }
    ensures failed { IfErr result (IsTypeFailure text.now limits.now) }
{
    let within = Within {
        depth: limits.depth as usize,
        tokens: limits.tokens as usize,
    };
    match parse_type_source(alloc, text, within) {
        Ok(of_type) => {
            let mut builder = NodeBuilder::new(table, nodes, texts);
            match builder.push_type_node(&of_type) {
                Ok(()) => Ok(builder.lengths()),
                Err(_) => Err(Failure::OutOfMemory),
            }
        }
        Err(failure) => Err(failure_of(table, failure)),
    }
}
