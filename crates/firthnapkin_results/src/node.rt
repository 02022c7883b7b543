//! Nodes, as C gets them.
ghost use Rattle.std.specs.Prelude.{◌≡◌, ◌-◌, ◌+◌, ◌^◌, ◌<◌, ℕ, List, [], pos, option_map, option_and_then};
ghost use Rattle.std.specs.Option.{unwrap_or};
ghost use Rattle.std.specs.Str.{chars};
ghost use Rattle.graphql_lexical.specs.Place as places;
ghost use Rattle.juniper_tokens.specs.Spans.{view_span};
ghost use Rattle.juniper_tree.specs.View.{view_word};
ghost use Rattle.juniper_nodes.specs.Literal.{str_in};
ghost use Rattle.juniper_nodes.specs.NodeTexts.{text_of_node};
ghost use Rattle.juniper_nodes.specs.NodeViews.{view_label, view_node};
ghost use Rattle.firthnapkin_results.specs.Fits.{NodeFits};
ghost use Rattle.firthnapkin_results.specs.ByteTables.{IsTableOf};
ghost use Rattle.firthnapkin_results.specs.Positions.{bytes_before};
ghost use Rattle.firthnapkin_results.specs.Nodes.{kind_number, node_number, content_number, byte_count, word_extent, span_extent, no_extent, unnamed_extent, node_extent, scalar_value, condition_value, node_value, written_node};
ghost use Rattle.firthnapkin_results.specs.Scalars.{content_of};

use crate::byte_table::ByteTable;
use crate::form::ScalarForm;
use crate::position::{Position, in_word, position_at};
use juniper_nodes::{Label, NodeKind};
use juniper_tokens::Spanning;

/// A part of a document.
#[repr(C)]
#[derive(Clone, Copy)]
pub struct Node {
    /// Its kind: a number for each `NodeKind` but that of scalars, in their order, and after these one for each kind of
    /// literal.
    pub kind: u32,
    /// The number of its descendants, which follow it.
    pub descendants: u32,
    pub start: Position,
    pub end: Position,
    /// The first byte of the source that names it, and the one after the last.
    pub name_start: u32,
    pub name_end: u32,
    /// An Int's number, a Boolean's 0 or 1, the byte of the texts where a string's meaning or a type begins, the byte
    /// of the source where a fragment's type condition begins.
    pub value: i64,
    /// The number of bytes of the text or the type condition.
    pub value_length: u32,
}

// Two offsets in bytes.
#[derive(Clone, Copy)]
struct Extent {
    start: u32,
    end: u32,
}

#[derive(Clone, Copy)]
struct Value {
    number: i64,
    length: u32,
}

const NO_VALUE: Value = Value {
    number: 0,
    length: 0,
};

/// The node of a part whose text begins at the byte `at` of the texts and has `length` bytes.
#[inline(always)]
pub(crate) fn written_node(
    table: &ByteTable,
    node: &juniper_nodes::Node<'_, '_, ScalarForm>,
    at: usize,
    length: usize,
) -> Node
    ensures { (source text : List ℕ) → let seen = view_node (content_of text) node.now in IsTableOf source table.now
        → NodeFits at seen → length ≡ byte_count (text_of_node seen) → result ≡ written_node source at seen }
{
    let start = position_at(table, node.span.start);
    let end = position_at(table, node.span.end);
    let name = extent_of(
        table,
        node,
        Extent {
            start: start.byte,
            end: end.byte,
        },
    );
    let value = value_of(table, node, at, length);
    Node {
        kind: node_number(node.kind, node.scalar),
        descendants: in_word(node.descendants),
        start,
        end,
        name_start: name.start,
        name_end: name.end,
        value: value.number,
        value_length: value.length,
    }
}

// ---- kinds

#[inline(always)]
fn node_number(kind: NodeKind, form: Option<&ScalarForm>) -> u32
    ensures { (text : List ℕ) → result ≡ node_number kind (option_map (λ form. content_of text form.now) form.entry) }
{
    match form {
        None => kind_number(kind),
        Some(form) => form_number(form),
    }
}

#[inline(always)]
fn kind_number(kind: NodeKind) -> u32
    ensures { result ≡ kind_number kind }
{
    match kind {
        NodeKind::Query => 0,
        NodeKind::Mutation => 1,
        NodeKind::Subscription => 2,
        NodeKind::FragmentDefinition => 3,
        NodeKind::VariableDefinitions => 4,
        NodeKind::VariableDefinition => 5,
        NodeKind::Type => 6,
        NodeKind::Field => 7,
        NodeKind::Alias => 8,
        NodeKind::FragmentSpread => 9,
        NodeKind::InlineFragment => 10,
        NodeKind::Directive => 11,
        NodeKind::Arguments => 12,
        NodeKind::Argument => 13,
        NodeKind::Null => 14,
        NodeKind::Enum => 15,
        NodeKind::Variable => 16,
        NodeKind::List => 17,
        NodeKind::Object => 18,
        NodeKind::ObjectField => 19,
        // No node has this number: a literal's is its scalar's.
        NodeKind::Scalar => 26,
    }
}

fn form_number(form: &ScalarForm) -> u32
    ensures { (text : List ℕ) → result ≡ content_number (content_of text form.now) }
{
    match form {
        ScalarForm::Int(_) => 20,
        ScalarForm::LargeInt => 21,
        ScalarForm::Float => 22,
        ScalarForm::String => 23,
        ScalarForm::BlockString => 24,
        ScalarForm::Boolean(_) => 25,
    }
}

// ---- names

// `whole` has the bytes from the node's first to its last.
#[inline(always)]
fn extent_of(
    table: &ByteTable,
    node: &juniper_nodes::Node<'_, '_, ScalarForm>,
    whole: Extent,
) -> Extent
    ensures { (source : List ℕ) → IsTableOf source table.now → whole ≡ span_extent source (view_span node.now.span.now)
        → result ≡ node_extent source node.now.kind (view_span node.now.span.now)
        (view_label (view_span node.now.span.now) node.now.label) }
{
    match node.label {
        Label::Unnamed => unnamed_extent(node.kind, whole),
        Label::Name(name) => word_extent(table, name),
        Label::Text(text) => text_extent(whole.end, text),
        Label::Fragment(name, _) => word_extent(table, name),
        Label::Type(_) => whole,
    }
}

#[inline(always)]
fn unnamed_extent(kind: NodeKind, whole: Extent) -> Extent
    ensures { (source : List ℕ) (span : places.Span) → whole ≡ span_extent source span
        → result ≡ unnamed_extent kind source span }
{
    match kind {
        NodeKind::Scalar | NodeKind::Null => whole,
        NodeKind::Query
        | NodeKind::Mutation
        | NodeKind::Subscription
        | NodeKind::FragmentDefinition
        | NodeKind::VariableDefinitions
        | NodeKind::VariableDefinition
        | NodeKind::Type
        | NodeKind::Field
        | NodeKind::Alias
        | NodeKind::FragmentSpread
        | NodeKind::InlineFragment
        | NodeKind::Directive
        | NodeKind::Arguments
        | NodeKind::Argument
        | NodeKind::Enum
        | NodeKind::Variable
        | NodeKind::List
        | NodeKind::Object
        | NodeKind::ObjectField => no_extent(whole.start),
    }
}

#[inline(always)]
fn no_extent(start: u32) -> Extent
    ensures { (source : List ℕ) (span : places.Span) → start ≡ bytes_before source span.start.index
        → result ≡ no_extent source span }
{
    Extent { start, end: start }
}

#[inline(always)]
fn word_extent(table: &ByteTable, word: &Spanning<&str>) -> Extent
    ensures { (source : List ℕ) → IsTableOf source table.now → result ≡ word_extent source (view_word word.now) }
{
    text_extent(table.byte(word.span.end.index()), word.item)
}

// The bytes of a text that ends there.
#[inline(always)]
fn text_extent(end: u32, text: &str) -> Extent
    ensures { result ≡ record { start = end - byte_count (chars text.now); end = end } }
{
    Extent {
        start: (end as usize).saturating_sub(text.len()) as u32,
        end,
    }
}

// ---- values

#[inline(always)]
fn value_of(
    table: &ByteTable,
    node: &juniper_nodes::Node<'_, '_, ScalarForm>,
    at: usize,
    length: usize,
) -> Value
    ensures { (source text : List ℕ) → IsTableOf source table.now
        → let seen = view_node (content_of text) node.now in at + length < 2 ^ 32
        → length ≡ byte_count (text_of_node seen) → result ≡ node_value source at seen.content seen.label }
{
    match node.label {
        Label::Fragment(_, condition) => condition_value(word_extent(table, condition)),
        Label::Type(_) => text_value(at, length),
        Label::Unnamed | Label::Name(_) | Label::Text(_) => scalar_value(node.scalar, at, length),
    }
}

#[inline(always)]
fn scalar_value(form: Option<&ScalarForm>, at: usize, length: usize) -> Value
    ensures { (text : List ℕ) → let content = option_map (λ form. content_of text form.now) form.entry in at + length <
        2 ^ 32 → length ≡ byte_count (unwrap_or (option_and_then str_in content) [])
        → result ≡ scalar_value at content }
{
    match form {
        Some(ScalarForm::Int(number)) => Value {
            number: i64::from(*number),
            length: 0,
        },
        Some(ScalarForm::Boolean(truth)) => Value {
            number: if *truth { 1 } else { 0 },
            length: 0,
        },
        Some(ScalarForm::String | ScalarForm::BlockString) => text_value(at, length),
        Some(ScalarForm::LargeInt | ScalarForm::Float) | None => NO_VALUE,
    }
}

#[inline(always)]
fn condition_value(extent: Extent) -> Value
    ensures { result ≡ condition_value extent }
{
    Value {
        number: i64::from(extent.start),
        length: extent.end.saturating_sub(extent.start),
    }
}

#[inline(always)]
fn text_value(at: usize, length: usize) -> Value
    ensures { at + length < 2 ^ 32 → result ≡ record { number = pos at; length = length } }
{
    Value {
        number: i64::from(in_word(at)),
        length: in_word(length),
    }
}
