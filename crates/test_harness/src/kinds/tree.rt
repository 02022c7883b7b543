//! The lines of nodes: a span, the kind or the scalar, and what names the node, with its span where that is another
//! one.

use crate::write::{At, Written};
use juniper::{DefaultScalarValue, Definition, InputValue, OwnedDocument, Span, Spanning};
use juniper_nodes::{Label, Node, document_nodes, push_definition, value_nodes};
use std::alloc::Global;

type Scalars = DefaultScalarValue;

/// Writes the lines of a document.
pub fn write_document(
    alloc: Global,
    out: &mut String,
    document: OwnedDocument<'_, Scalars>,
) -> Written {
    write_nodes(out, &document_nodes(alloc, &document)?)
}

/// Writes the lines of a value.
pub fn write_value(
    alloc: Global,
    out: &mut String,
    value: &Spanning<InputValue<Scalars>>,
) -> Written {
    match value_nodes(alloc, value) {
        Ok(nodes) => write_nodes(out, &nodes),
        Err(_) => out.push_str("Memory\n"),
    }
}

/// Writes how many nodes there are after each definition was appended, up to the first for which memory ran out.
pub fn write_pushed<'t, 'a>(
    alloc: Global,
    out: &mut String,
    document: &'t [Definition<'a, Scalars>],
) -> Written {
    let mut nodes: Vec<Node<'t, 'a, Scalars>> = Vec::new(alloc);
    for definition in document {
        let is_pushed = push_definition(&mut nodes, definition).is_ok();
        let count = nodes.len();
        writeln!(out, "{count} nodes")?;
        if !is_pushed {
            return out.push_str("Memory\n");
        }
    }
    Ok(())
}

fn write_nodes(out: &mut String, nodes: &[Node<'_, '_, Scalars>]) -> Written {
    for node in nodes {
        write_node(out, node)?;
        out.push('\n')?;
    }
    Ok(())
}

fn write_node(out: &mut String, node: &Node<'_, '_, Scalars>) -> Written {
    let at = At(node.span);
    match node.scalar {
        Some(scalar) => write_scalar(out, at, scalar)?,
        None => {
            let kind = node.kind.name();
            write!(out, "{at} {kind}")?
        }
    }
    write_label(out, node.span, &node.label)
}

fn write_scalar(out: &mut String, at: At<'_>, scalar: &Scalars) -> Written {
    match scalar {
        DefaultScalarValue::Int(number) => write!(out, "{at} int {number}"),
        DefaultScalarValue::String(text) => write!(out, "{at} string {text}"),
        DefaultScalarValue::Boolean(truth) => write!(out, "{at} boolean {truth}"),
    }
}

fn write_label(out: &mut String, span: &Span, label: &Label<'_, '_>) -> Written {
    match label {
        Label::Unnamed => Ok(()),
        Label::Name(name) => write_name(out, span, name),
        Label::Text(text) => write!(out, " {text}"),
        Label::Fragment(name, condition) => {
            write_name(out, span, name)?;
            write_name(out, span, condition)
        }
        Label::Type(literal) => write!(out, " {literal}"),
    }
}

fn write_name(out: &mut String, span: &Span, name: &Spanning<&str>) -> Written {
    let at = At(&name.span);
    let text = name.item;
    if name.span == *span {
        return write!(out, " {text}");
    }
    write!(out, " {at} {text}")
}
