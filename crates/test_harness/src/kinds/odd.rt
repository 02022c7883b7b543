//! A scalar type by choice: the text begins with its name.

use crate::kinds::{scalars, word_of};
use crate::write::{Written, write_refusal};
use juniper::{
    Definition, Field, OwnedDocument, ScalarValue, Selection, UnlocatedParseResult,
    parse_document_source,
};
use juniper_nodes::Literal;
use juniper_odd::laws::documents_without_scalars;
use juniper_odd::{OddError, RefuseAll, Thousandths};
use std::alloc::Global;

/// `odd_scalar`: a call on the scalar that a token is read as, as rows of `scalar` have them.
pub fn answer(alloc: Global, out: &mut String, text: &str, call: &str) -> Written {
    let (name, token) = word_of(text);
    match name {
        "RefuseAll" => scalars::answer::<RefuseAll>(alloc, out, token, call),
        "Thousandths" => scalars::answer::<Thousandths>(alloc, out, token, call),
        "OddError" => scalars::answer::<OddError>(alloc, out, token, call),
        "Literal" => scalars::answer::<Literal>(alloc, out, token, call),
        _ => out.push_str("no such type"),
    }
}

/// `odd_document`: the arguments of a document's fields and their values, a line for each, or the refusal.
pub fn write_arguments_of(alloc: Global, out: &mut String, text: &str) -> Written {
    let (name, source) = word_of(text);
    match name {
        "RefuseAll" => write_told(out, documents_without_scalars(alloc, source)),
        "Thousandths" => write_arguments_at::<Thousandths>(alloc, out, source),
        "OddError" => write_arguments_at::<OddError>(alloc, out, source),
        "Literal" => write_arguments_at::<Literal>(alloc, out, source),
        _ => out.push_str("no such type\n"),
    }
}

fn write_arguments_at<S: ScalarValue>(alloc: Global, out: &mut String, source: &str) -> Written {
    write_told::<S>(out, parse_document_source(alloc, source))
}

fn write_told<S: ScalarValue>(
    out: &mut String,
    parsed: UnlocatedParseResult<OwnedDocument<'_, S>>,
) -> Written {
    match parsed {
        Ok(document) => write_definitions(out, &document),
        Err(failure) => write_refusal(out, failure),
    }
}

fn write_definitions<S: ScalarValue>(out: &mut String, document: &[Definition<'_, S>]) -> Written {
    for definition in document {
        let selections = match definition {
            Definition::Operation(operation) => &operation.item.selection_set,
            Definition::Fragment(fragment) => &fragment.item.selection_set,
        };
        write_fields(out, selections)?;
    }
    Ok(())
}

// The arguments of the fields of a selection set, not of those within.
fn write_fields<S: ScalarValue>(out: &mut String, selections: &[Selection<'_, S>]) -> Written {
    for selection in selections {
        if let Selection::Field(field) = selection {
            write_arguments(out, &field.item)?;
        }
    }
    Ok(())
}

fn write_arguments<S: ScalarValue>(out: &mut String, field: &Field<'_, S>) -> Written {
    let Some(arguments) = &field.arguments else {
        return Ok(());
    };
    for (name, value) in arguments.item.iter() {
        let name = name.item;
        let value = &value.item;
        writeln!(out, "{name}: {value}")?;
    }
    Ok(())
}
