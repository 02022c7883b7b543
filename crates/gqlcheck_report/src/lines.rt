//! The lines that are written for a tree.
#![tactic(auto, using(crate::proofs::Growth::grown, crate::proofs::Growth::grown_none))]

ghost use Rattle.std.specs.Prelude.{◌≡◌, ◌∷◌, ◌++◌, OnOk, IfOk, map, chars, string_bytes, encode_utf8_all};
ghost use Rattle.graphql_nodes.specs.Types.{type_text};
ghost use Rattle.juniper_tree.specs.View.{view_definition, view_type};
ghost use Rattle.juniper_nodes.specs.NodeViews.{view_node};
ghost use Rattle.gqlcheck_report.specs.Lines.{place_text, label_text, node_line, document_lines};

use juniper_nodes::{Label, Node, NodeKind, document_nodes};
use juniper_tree::Definition;
use juniper_values::{ScalarValue, Type};
use std::alloc::{AllocError, Global};

/// The lines of a document.
pub(crate) fn document_text<S: ScalarValue>(
    alloc: Global,
    document: &[Definition<'_, S>],
) -> Result<String, AllocError>
    ensures { IfOk result (λ text. string_bytes text ≡ encode_utf8_all
        (document_lines (map (view_definition S.content) document.now))) }
{
    let nodes = document_nodes(alloc, document)?;
    let mut text = String::new(alloc);
    for node in &nodes {
        write_node(&mut text, node)?;
    }
    Ok(text)
}

// Writes the line of a node.
fn write_node<S: ScalarValue>(out: &mut String, node: &Node<'_, '_, S>) -> Result<(), AllocError>
    ensures { OnOk result (string_bytes out.new ≡ string_bytes out.old ++ encode_utf8_all
        (node_line (view_node S.content node.now))) }
{
    write_place(
        out,
        node.kind,
        node.span.start.index(),
        node.span.end.index(),
    )?;
    write_label(out, node)?;
    writeln!(out)
}

// Writes the kind of a node and its span.
fn write_place(out: &mut String, kind: NodeKind, start: usize, end: usize) -> Result<(), AllocError>
    ensures { OnOk result (string_bytes out.new ≡ string_bytes out.old ++ encode_utf8_all (place_text kind start end)) }
{
    let word = kind.name();
    write!(out, "{word} {start} {end}")
}

// Writes the label of the node, if it has one.
fn write_label<S: ScalarValue>(out: &mut String, node: &Node<'_, '_, S>) -> Result<(), AllocError>
    ensures { OnOk result (string_bytes out.new ≡ string_bytes out.old ++ encode_utf8_all
        (label_text (view_node S.content node.now).label)) }
{
    match &node.label {
        Label::Unnamed => Ok(()),
        Label::Name(name) => write_name(out, name.item),
        Label::Text(name) => write_name(out, name),
        Label::Fragment(name, condition) => {
            write_name(out, name.item)?;
            write_name(out, condition.item)
        }
        Label::Type(literal) => write_type(out, literal),
    }
}

fn write_name(out: &mut String, name: &str) -> Result<(), AllocError>
    ensures { OnOk result (string_bytes out.new ≡ string_bytes out.old ++ encode_utf8_all (32 ∷ chars name.now)) }
{
    write!(out, " {name}")
}

fn write_type(out: &mut String, literal: &Type<&str>) -> Result<(), AllocError>
    ensures { OnOk result (string_bytes out.new ≡ string_bytes out.old ++ encode_utf8_all
        (32 ∷ type_text (view_type literal.now))) }
{
    write!(out, " {literal}")
}
