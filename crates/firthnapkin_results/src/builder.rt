//! The nodes of a source, written into buffers while it is parsed.
ghost use Rattle.std.specs.Prelude.{◌≡◌, ◌∷◌, [], ℕ, List, OnOk, option_map, set, encode_utf8_all};
ghost use Rattle.graphql_nodes.specs.Nodes.{Unnamed, alias_nodes, if_present, over, type_nodes};
ghost use Rattle.juniper_tree.specs.View.{view_spanned_type, view_type, view_word};
ghost use Rattle.juniper_tokens.specs.Spans.{view_span};
ghost use Rattle.juniper_tokens.specs.Tokens.{scalar_kind, scalar_text};
ghost use Rattle.juniper_nodes.specs.Literal.{str_in};
ghost use Rattle.juniper_nodes.specs.NodeTexts.{text_of_node};
ghost use Rattle.std.specs.Option.{unwrap_or};
ghost use Rattle.std.specs.Str.{chars};
ghost use Rattle.graphql_nodes.specs.Types.{type_text};
ghost use Rattle.juniper_nodes.specs.NodeViews.{view_label};
ghost use Rattle.firthnapkin_results.specs.Builders.{Adds, AddsRead, AddsText, Closes, HasNoText, PutsNode, counted, leaf};
ghost use Rattle.firthnapkin_results.specs.Scalars.{content_of, scalar_content, scalar_reading};
ghost use Rattle.firthnapkin_results.specs.declared.builder.NodeBuilder.{NodeBuilder as Writer};

pub(crate) mod building;
pub(crate) mod outliner;

use crate::buffer::write_bytes;
use crate::byte_table::ByteTable;
use crate::flat::Lengths;
use crate::form::{ScalarForm, form_of};
use crate::node::{Node, written_node};
use crate::scalar::{SourceScalar, read_int};
use juniper_nodes::{Label, NodeKind};
use juniper_tokens::{ScalarToken, Span, Spanning};
use juniper_values::{
    ParseScalarValue, ReadFailure, ScalarValue, Type, write_block_string_value, write_string_value,
};
use std::alloc::{AllocError, Global};
use std::fmt;
use std::fmt::Write;

/// Writes the nodes of a document and their texts into buffers as far as they fit, and counts all of them.
#[derive(Drop)]
pub(crate) struct NodeBuilder<'b> {
    table: &'b ByteTable,
    nodes: &'b mut [Node],
    // The number of nodes so far, with those that don't fit and those that are opened.
    nodes_length: usize,
    texts: &'b mut [u8],
    // The number of bytes of the texts so far, with those that don't fit.
    texts_length: usize,
}

impl<'b> NodeBuilder<'b> {
    /// A builder that has built nothing.
    pub(crate) fn new(table: &'b ByteTable, nodes: &'b mut [Node], texts: &'b mut [u8]) -> Self
        ensures table { result.table ≡ table.entry }
        ensures same_nodes { result.nodes.ghost_name ≡ nodes.entry.ghost_name }
        ensures same_texts { result.texts.ghost_name ≡ texts.entry.ghost_name }
        ensures nodes { (result.nodes.now ≡ nodes.old) × (result.nodes_length ≡ 0) }
        ensures texts { (result.texts.now ≡ texts.old) × (result.texts_length ≡ 0) }
    {
        NodeBuilder {
            table,
            nodes,
            nodes_length: 0,
            texts,
            texts_length: 0,
        }
    }

    /// How many nodes there are, and how many bytes their texts have.
    pub(crate) fn lengths(&self) -> Lengths
        ensures { result ≡ record { nodes = self.now.nodes_length; texts = self.now.texts_length } }
    {
        Lengths {
            nodes: self.nodes_length,
            texts: self.texts_length,
        }
    }
}

/// Appends to the texts.
impl fmt::Write for NodeBuilder<'_> {
    ghost use Rattle.firthnapkin_results.specs.Builders.{AddsText};

    ghost write_str_gives = { λ old bytes new. AddsText old new bytes };

    fn write_str(&mut self, text: &str) -> fmt::Result {
        self.push_bytes(text.as_bytes());
        Ok(())
    }
}

impl NodeBuilder<'_> {
    // Counts a node, which is written when it is closed, and returns its index.
    #[inline(always)]
    fn open(&mut self) -> usize
        ensures index { result ≡ self.old.nodes_length }
        ensures adds { Adds (counted self.old) self.new [] }
    {
        let part = self.nodes_length;
        self.nodes_length = part.saturating_add(1);
        part
    }

    // Writes a node that was opened. All nodes after it are its descendants.
    #[inline(always)]
    fn close<'t>(&mut self, part: usize, kind: NodeKind, span: &'t Span, label: Label<'t, '_>)
        ensures { Closes self.old self.new part kind (view_span span.now)
            (view_label (view_span span.now) label.entry) }
    {
        let descendants = self.nodes_length.saturating_sub(part).saturating_sub(1);
        let node = juniper_nodes::Node {
            kind,
            span,
            label,
            scalar: None,
            descendants,
        };
        self.put(part, written_node(self.table, &node, 0, 0));
    }

    // The same of a node without a name.
    #[inline(always)]
    fn close_unnamed<'t>(&mut self, part: usize, kind: NodeKind, span: &'t Span)
        ensures { Closes self.old self.new part kind (view_span span.now) Unnamed }
    {
        let label: Label<'t, 't> = Label::Unnamed;
        self.close(part, kind, span, label);
    }

    // Writes a node without descendants.
    #[inline(always)]
    fn push<'t>(&mut self, kind: NodeKind, span: &'t Span, label: Label<'t, '_>)
        ensures { HasNoText (view_label (view_span span.now) label.entry)
            → Adds self.old self.new (over kind (view_span span.now) (view_label (view_span span.now) label.entry) []) }
    {
        let part = self.open();
        self.close(part, kind, span, label);
    }

    // Writes the node of an alias, if there is one.
    #[inline(always)]
    fn push_alias(&mut self, alias: &Option<Spanning<&str>>)
        ensures { Adds self.old self.new (if_present alias_nodes (option_map view_word alias.now)) }
    {
        match alias {
            None => {}
            Some(alias) => self.push(NodeKind::Alias, &alias.span, Label::Name(alias)),
        }
    }

    // Writes a node without descendants whose text is the end of the texts, from the byte `at` on.
    #[inline(always)]
    fn push_with_text<'t>(
        &mut self,
        kind: NodeKind,
        span: &'t Span,
        label: Label<'t, '_>,
        form: Option<&'t ScalarForm>,
        at: usize,
    )
        ensures { (before : Writer) (text : List ℕ)
            → let node = leaf kind (view_span span.now) (view_label (view_span span.now) label.entry)
            (option_map (λ form. content_of text form.now) form.entry) in AddsText before self.old
            (encode_utf8_all (text_of_node node)) → at ≡ before.texts_length → Adds before self.new (node ∷ []) }
    {
        let node = juniper_nodes::Node {
            kind,
            span,
            label,
            scalar: form,
            descendants: 0,
        };
        let length = self.texts_length.saturating_sub(at);
        let part = self.open();
        self.put(part, written_node(self.table, &node, at, length));
    }

    /// Writes the node of a type, and how the type is written.
    #[inline(always)]
    pub(crate) fn push_type_node(
        &mut self,
        of_type: &Spanning<Type<&str>>,
    ) -> Result<(), AllocError>
        ensures { OnOk result (Adds self.old self.new (type_nodes (view_spanned_type of_type.now))) }
    {
        let at = self.texts_length;
        self.push_type(&of_type.item)?;
        self.push_with_text(
            NodeKind::Type,
            &of_type.span,
            Label::Type(&of_type.item),
            None,
            at,
        );
        Ok(())
    }

    // Puts a node at this index, if the buffer has capacity for it.
    #[inline(always)]
    fn put(&mut self, index: usize, node: Node)
        ensures puts { PutsNode self.old self.new }
        ensures node { self.new.nodes.now ≡ set self.old.nodes.now index node }
    {
        if index < self.nodes.len() {
            self.nodes[index] = node;
        }
    }

    // Appends to the texts as many bytes as the buffer has capacity for, and counts all of them.
    fn push_bytes(&mut self, bytes: &[u8])
        ensures { AddsText self.old self.new bytes.now }
    {
        write_bytes(self.texts, self.texts_length, bytes);
        self.texts_length = self.texts_length.saturating_add(bytes.len());
    }

    // The same of a text.
    fn push_text(&mut self, text: &str)
        ensures { AddsText self.old self.new (encode_utf8_all (chars text.now)) }
    {
        self.push_bytes(text.as_bytes());
    }

    // Appends to the texts what a String or a block string means, and of another scalar nothing.
    fn push_scalar(&mut self, scalar: &SourceScalar)
        ensures { AddsText self.old self.new (encode_utf8_all (unwrap_or (str_in (scalar_content scalar.now)) [])) }
    {
        match scalar.try_as_str() {
            Some(text) => self.push_text(text),
            None => {}
        }
    }

    // Appends to the texts what a token means that is a String or a block string, and returns the form of its scalar;
    // or returns why the scalar type refuses the token. Writing there never fails.
    fn push_token(
        &mut self,
        alloc: Global,
        token: ScalarToken<'_>,
    ) -> Result<ScalarForm, ReadFailure>
        ensures { AddsRead (scalar_reading (scalar_kind token.entry) (scalar_text token.entry)) self.old self.new
            result }
    {
        match token {
            ScalarToken::String(text) => match write_string_value(self, text) {
                Ok(true) => Ok(ScalarForm::String),
                // The scalar type has the error.
                Ok(false) => Ok(form_of(&SourceScalar::from_str(alloc, token)?)),
                Err(_) => Err(ReadFailure::Memory),
            },
            ScalarToken::BlockString(text) => match write_block_string_value(self, text) {
                Ok(()) => Ok(ScalarForm::BlockString),
                Err(_) => Err(ReadFailure::Memory),
            },
            ScalarToken::Int(text) => Ok(form_of(&read_int(text))),
            ScalarToken::Float(_) => Ok(ScalarForm::Float),
        }
    }

    // Appends to the texts how a type is written. Writing there never fails.
    fn push_type(&mut self, literal: &Type<&str>) -> Result<(), AllocError>
        ensures { OnOk result (AddsText self.old self.new (encode_utf8_all (type_text (view_type literal.now)))) }
    {
        match write!(self, "{literal}") {
            Ok(()) => Ok(()),
            Err(_) => Err(AllocError),
        }
    }
}
