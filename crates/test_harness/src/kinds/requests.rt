//! What is looked up in a request: its operation, fragments by their names, variables with their defaults; and the
//! bytes at which characters begin.

use crate::kinds::input_values::variables_of;
use crate::kinds::{Subject, word_of, write_lines};
use crate::parsing::{Document, document, literal};
use crate::write::{Written, write_found, write_optional, write_refusal, write_span};
use juniper::{DefaultScalarValue, Definition, InputValue, VariableDefinitions, Variables};
use juniper_requests::{ByteTable, Fragments, byte_offset, operation_named, with_defaults};
use std::alloc::{AllocError, Global};

/// `requests`: calls on the document that the text is.
pub fn write_calls(alloc: Global, out: &mut String, text: &str, calls: &str) -> Written {
    match document(alloc, text) {
        Ok(mut document) => write_lines(alloc, out, &mut document, calls),
        Err(failure) => write_refusal(out, failure),
    }
}

impl Subject for Document<'_> {
    fn answer(&mut self, alloc: Global, out: &mut String, call: &str) -> Written {
        let (word, rest) = word_of(call);
        match word {
            "operation_named" => write_operation(out, self, rest),
            "fragment" => write_fragment(alloc, out, self, rest),
            "variable" => write_variable(out, self, rest),
            "with_defaults" => write_with_defaults(alloc, out, self, rest),
            _ => out.push_str("no such call"),
        }
    }
}

// The span of the operation of this name, or without a name of the only one.
fn write_operation(out: &mut String, document: &Document<'_>, name: &str) -> Written {
    let name = if name.is_empty() { None } else { Some(name) };
    match operation_named(document, name) {
        Ok(operation) => write_span(out, &operation.span),
        Err(failure) => write!(out, "{failure:?}"),
    }
}

fn write_fragment(alloc: Global, out: &mut String, document: &Document<'_>, name: &str) -> Written {
    match Fragments::new(alloc, document) {
        Ok(fragments) => match fragments.get(name) {
            Some(fragment) => write_span(out, &fragment.span),
            None => out.push_str("None"),
        },
        Err(_) => out.push_str("Memory"),
    }
}

// The variable definitions of the only operation.
fn variables_in<'t, 'a>(
    document: &'t [Definition<'a, DefaultScalarValue>],
) -> Option<&'t VariableDefinitions<'a, DefaultScalarValue>> {
    match operation_named(document, None) {
        Ok(operation) => match &operation.item.variable_definitions {
            Some(definitions) => Some(&definitions.item),
            None => None,
        },
        Err(_) => None,
    }
}

// The type of the variable of this name.
fn write_variable(out: &mut String, document: &Document<'_>, name: &str) -> Written {
    let Some(definitions) = variables_in(document) else {
        return out.push_str("no variables");
    };
    match definitions.get(name) {
        Some(definition) => {
            let shown = &definition.var_type.item;
            write!(out, "{shown}")
        }
        None => out.push_str("None"),
    }
}

// A value, resolved by the variables that are given after ` with `, and by defaults.
fn write_with_defaults(
    alloc: Global,
    out: &mut String,
    document: &Document<'_>,
    rest: &str,
) -> Written {
    let Some(definitions) = variables_in(document) else {
        return out.push_str("no variables");
    };
    let Some((value, given)) = rest.split_once(" with ") else {
        return out.push_str("no values");
    };
    let (Some(value), Some(given)) = (literal(alloc, value)?, literal(alloc, given)?) else {
        return out.push_str("no value");
    };
    let given = variables_of(alloc, given)?;
    write_found(out, resolved(alloc, definitions, value, given))
}

fn resolved(
    alloc: Global,
    definitions: &VariableDefinitions<'_, DefaultScalarValue>,
    value: InputValue<DefaultScalarValue>,
    given: Variables<DefaultScalarValue>,
) -> Result<Option<InputValue<DefaultScalarValue>>, AllocError> {
    let variables = with_defaults(alloc, definitions, given)?;
    value.into_const(alloc, &variables)
}

/// `bytes` and `byte_table`: the byte at which each character of the text begins, and the end, by a `ByteTable`, and of
/// `bytes` by `byte_offset` before it.
pub fn write_bytes(alloc: Global, out: &mut String, kind: &str, text: &str) -> Written {
    let Ok(table) = ByteTable::new(alloc, text) else {
        return out.push_str("Memory\n");
    };
    for index in 0..text.len().saturating_add(2) {
        if kind == "bytes" {
            write_optional(out, byte_offset(text, index))?;
            out.push(' ')?;
        }
        let found = table.byte_offset(index);
        write_optional(out, found)?;
        out.push('\n')?;
        if found.is_none() {
            return Ok(());
        }
    }
    Ok(())
}
