//! Three rules of validation, over the nodes of a document.
ghost use Rattle.std.specs.Prelude.{◌<◌, length, IfOk};
ghost use Rattle.std.specs.Str.{chars};
ghost use Rattle.juniper_tokens.specs.Errors.{view_fault};
ghost use Rattle.juniper_parser.specs.Promise.{IfRefused, IsRefusal};
ghost use Rattle.juniper_tree.specs.Scalars.{default_scalars};
ghost use Rattle.guide.specs.Documents.{IsDocumentText};

use juniper::{DefaultScalarValue, ParseFailure, Span, parse_document_source};
use juniper_nodes::{Label, Node, NodeKind, document_nodes};
use std::alloc::{AllocError, Global};
use std::collections::BTreeSet;

type Part<'t, 'a> = Node<'t, 'a, DefaultScalarValue>;

// What is wrong, and where.
type Breach<'t> = (&'static str, &'t Span);

/// Where a document breaks one of three rules (GraphQL specification, October 2021, sections 5.4.2, 5.5.2.1 and 5.8.3):
/// the line and the column, from 0, what is wrong, and the text of the line. Of variables it looks at those in an operation
/// itself.
///
/// Returns the error of a text that is no document, or `Memory` if memory runs out.
pub fn broken_rules(alloc: Global, source: &str) -> Result<Vec<String>, ParseFailure>
    ensures document { IfOk result (λ _. IsDocumentText (chars source.now)) }
    ensures refused { IfRefused result (λ fault. IsRefusal default_scalars (chars source.now) (view_fault fault)) }
{
    let document = parse_document_source::<DefaultScalarValue>(alloc, source)?;
    let nodes = document_nodes(alloc, &document)?;
    let mut found = Vec::new(alloc);
    for i in 0..nodes.len() {
        let parts = below(&nodes, i);
        match nodes[i].kind {
            NodeKind::Arguments => note_repeated(alloc, parts, &mut found)?,
            NodeKind::Query | NodeKind::Mutation | NodeKind::Subscription => {
                let names = names_of(alloc, parts, NodeKind::VariableDefinition)?;
                note_unknown(
                    parts,
                    NodeKind::Variable,
                    &names,
                    "undefined variable",
                    &mut found,
                )?;
            }
            _ => {}
        }
    }
    let names = names_of(alloc, &nodes, NodeKind::FragmentDefinition)?;
    note_unknown(
        &nodes,
        NodeKind::FragmentSpread,
        &names,
        "unknown fragment",
        &mut found,
    )?;
    Ok(described(alloc, source, &found)?)
}

// The descendants of the node at an index.
fn below<'n, 't, 'a>(nodes: &'n [Part<'t, 'a>], index: usize) -> &'n [Part<'t, 'a>]
    requires { index < length nodes.now }
{
    let later = &nodes[index + 1..];
    &later[..nodes[index].descendants.min(later.len())]
}

fn name_of<'t>(node: &Part<'t, '_>) -> &'t str {
    match node.label {
        Label::Name(name) | Label::Fragment(name, _) => name.item,
        Label::Text(text) => text,
        Label::Unnamed | Label::Type(_) => "",
    }
}

// The names of the nodes of a kind.
fn names_of<'t>(
    alloc: Global,
    nodes: &[Part<'t, '_>],
    kind: NodeKind,
) -> Result<BTreeSet<&'t str>, AllocError> {
    let mut names = BTreeSet::new(alloc);
    for node in nodes {
        if node.kind == kind {
            names.insert(name_of(node))?;
        }
    }
    Ok(names)
}

// Nodes of a kind with other names than these (specification, sections 5.5.2.1 and 5.8.3).
fn note_unknown<'t>(
    nodes: &[Part<'t, '_>],
    kind: NodeKind,
    names: &BTreeSet<&'t str>,
    what: &'static str,
    found: &mut Vec<Breach<'t>>,
) -> Result<(), AllocError> {
    for node in nodes {
        if node.kind == kind && !names.contains(name_of(node)) {
            found.push((what, node.span))?;
        }
    }
    Ok(())
}

// Arguments whose name an earlier one has (section 5.4.2).
fn note_repeated<'t>(
    alloc: Global,
    arguments: &[Part<'t, '_>],
    found: &mut Vec<Breach<'t>>,
) -> Result<(), AllocError> {
    let mut names = BTreeSet::new(alloc);
    for node in arguments {
        if node.kind == NodeKind::Argument && !names.insert(name_of(node))? {
            found.push(("repeated argument", node.span))?;
        }
    }
    Ok(())
}

fn described(alloc: Global, source: &str, found: &[Breach<'_>]) -> Result<Vec<String>, AllocError> {
    let mut texts = Vec::new(alloc);
    for (what, span) in found {
        let line = span.start.line();
        let column = span.start.column();
        let text = source.split('\n').nth(line).unwrap_or("");
        texts.push(format!(in alloc; "{line}:{column}: {what}: {text}")?)?;
    }
    Ok(texts)
}
