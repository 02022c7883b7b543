//! The functions of the guide.

use crate::kinds::input_values::variables_of;
use crate::kinds::word_of;
use crate::parsing::{Document, Input, document, literal};
use crate::write::{
    Written, write_failure, write_items, write_limit, write_optional, write_separator, write_span,
    write_spread, write_truth, write_word_at,
};
use guide::{
    AnswerFailure, CostFailure, Store, answer_json, argument_value, broken_rules, definition_names,
    fault_line, field_names, is_document, is_document_within, kept_up_to, parse_affordable,
    same_literal, store_query, stored_query,
};
use juniper::{
    DefaultScalarValue, Definition, Field, LexFailure, LimitFailure, Limits, ParseFailure,
    Selection, Span,
};
use std::alloc::Global;
use std::collections::BTreeMap;

/// `guide`: calls on the text. `is_document_within` takes a limit, `same_literal` another text, `argument_value` the
/// name of an argument of the first field of the first operation, and the variables as the fields of an object.
/// `stored` takes another text, which is looked for in a store of the text, `parse_affordable` the largest number of
/// fields, as `definition_names` within a depth of 3 and 20 tokens, `answer_json` the name of an operation, or `-` for
/// none, and the variables as the fields of an object.
pub fn answer(alloc: Global, out: &mut String, text: &str, call: &str) -> Written {
    let (word, rest) = word_of(call);
    match word {
        "is_document" => write_truth(out, is_document(alloc, text)?),
        "is_document_within" => {
            let limit = rest.parse::<usize>().unwrap_or(0);
            write_truth(out, is_document_within(alloc, text, limit)?)
        }
        "fault_line" => write_optional(out, fault_line(alloc, text)?),
        "kept_up_to" => write_place(out, kept_up_to(alloc, text)?),
        "same_literal" => write_same(out, same_literal::<DefaultScalarValue>(alloc, text, rest)),
        "stored" => write_stored(out, stored(alloc, text, rest)),
        "definition_names" => write_definition_names(out, definition_names(alloc, text, LIMITS)),
        "parse_affordable" => write_affordable(alloc, out, text, rest),
        "broken_rules" => write_broken(out, broken_rules(alloc, text)),
        "answer_json" => write_answer(alloc, out, text, rest),
        _ => answer_tree(alloc, out, text, word, rest),
    }
}

const LIMITS: Limits = Limits {
    depth: 3,
    tokens: 20,
};

fn write_definition_names(
    out: &mut String,
    names: Result<Vec<Option<&str>>, LimitFailure>,
) -> Written {
    match names {
        Ok(names) => {
            let before = out.len();
            for name in &names {
                write_separator(out, before)?;
                out.push_str(name.unwrap_or("None"))?;
            }
            Ok(())
        }
        Err(failure) => write_limit(out, failure),
    }
}

fn write_place(out: &mut String, span: Option<Span>) -> Written {
    match span {
        Some(span) => write_span(out, &span),
        None => out.push_str("None"),
    }
}

fn write_same(out: &mut String, same: Result<bool, ParseFailure>) -> Written {
    match same {
        Ok(same) => write_truth(out, same),
        Err(failure) => write_failure(out, failure),
    }
}

// The number of the one text in a store of the other, which has the number 1.
fn stored(alloc: Global, text: &str, other: &str) -> Result<Option<usize>, LexFailure> {
    let mut store: Store = BTreeMap::new(alloc);
    store_query(alloc, &mut store, text, 1)?;
    stored_query(alloc, &store, other)
}

fn write_stored(out: &mut String, number: Result<Option<usize>, LexFailure>) -> Written {
    match number {
        Ok(number) => write_optional(out, number),
        Err(failure) => write_failure(out, ParseFailure::from(failure)),
    }
}

fn write_affordable(alloc: Global, out: &mut String, text: &str, most: &str) -> Written {
    match parse_affordable(alloc, text, LIMITS, most.parse::<u64>().unwrap_or(0)) {
        Ok(document) => write!(out, "{} definitions", document.len()),
        Err(CostFailure::Text(failure)) => write_limit(out, failure),
        Err(CostFailure::Spread(failure)) => write_spread(out, failure),
        Err(CostFailure::Operation(at)) => write!(out, "Operation {at}"),
    }
}

fn write_broken(out: &mut String, broken: Result<Vec<String>, ParseFailure>) -> Written {
    match broken {
        Ok(broken) if broken.is_empty() => out.push_str("None"),
        Ok(broken) => write_items(out, &broken),
        Err(failure) => write_failure(out, failure),
    }
}

// The answer to a request, of the operation of a name, with variables.
fn write_answer(alloc: Global, out: &mut String, text: &str, call: &str) -> Written {
    let (name, variables) = word_of(call);
    let name = if name == "-" { None } else { Some(name) };
    let Some(variables) = literal(alloc, variables)? else {
        return out.push_str("no variables");
    };
    match answer_json(alloc, text, name, variables_of(alloc, variables)?) {
        Ok(answer) => out.push_str(answer.as_str()),
        Err(AnswerFailure::Parse(failure)) => write_failure(out, failure),
        Err(AnswerFailure::Operation(failure)) => write!(out, "{failure:?}"),
        Err(AnswerFailure::Fragment(span)) => write_word_at(out, &span, "Fragment"),
        Err(AnswerFailure::Memory) => out.push_str("Memory"),
    }
}

// A call on the text's tree.
fn answer_tree(alloc: Global, out: &mut String, text: &str, word: &str, rest: &str) -> Written {
    match document(alloc, text) {
        Ok(document) => answer_document(alloc, out, &document, word, rest),
        Err(failure) => write_failure(out, failure),
    }
}

fn answer_document(
    alloc: Global,
    out: &mut String,
    document: &Document<'_>,
    word: &str,
    rest: &str,
) -> Written {
    match word {
        "field_names" => write_items(out, &field_names(alloc, document)?),
        "argument_value" => write_argument(alloc, out, document, rest),
        _ => out.push_str("no such call"),
    }
}

// The value of an argument of the first field.
fn write_argument(alloc: Global, out: &mut String, document: &Document<'_>, call: &str) -> Written {
    let (name, variables) = word_of(call);
    let Some(field) = first_field(document) else {
        return out.push_str("no field, or no variables");
    };
    match literal(alloc, variables)? {
        Some(variables) => write_worth(alloc, out, field, name, variables),
        None => out.push_str("no field, or no variables"),
    }
}

// The first field of the first operation.
fn first_field<'a, 'b>(document: &'b Document<'a>) -> Option<&'b Field<'a, DefaultScalarValue>> {
    match document.first()? {
        Definition::Operation(operation) => match operation.item.selection_set.first()? {
            Selection::Field(field) => Some(&field.item),
            _ => None,
        },
        Definition::Fragment(_) => None,
    }
}

fn write_worth(
    alloc: Global,
    out: &mut String,
    field: &Field<'_, DefaultScalarValue>,
    name: &str,
    variables: Input,
) -> Written {
    let variables = variables_of(alloc, variables)?;
    write_optional(out, argument_value(alloc, field, name, &variables)?)
}
