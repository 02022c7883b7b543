//! Documents, their equality, and arguments.

use crate::kinds::tree::{write_document, write_pushed, write_value};
use crate::kinds::{Subject, number_of, word_of, write_lines};
use crate::parsing::{Document, Input, document, document_within, fields_of};
use crate::write::{
    Written, write_both, write_limit, write_placed, write_refusal, write_separator,
};
use juniper::{Arguments, DefaultScalarValue, InputValue, LimitFailure, ParseFailure, Spanning};
use std::alloc::{AllocError, Global};

/// `document`, `within` and `limited`: the lines of the tree, or the refusal. Of `within` the text's first word is the
/// limit on nesting, of `limited` the first two are those on nesting and on tokens.
pub fn write_tree(alloc: Global, out: &mut String, kind: &str, text: &str) -> Written {
    match parsed(alloc, kind, text) {
        Ok(document) => write_document(alloc, out, document),
        Err(failure) => {
            write_limit(out, failure)?;
            out.push('\n')
        }
    }
}

fn parsed<'a>(alloc: Global, kind: &str, text: &'a str) -> Result<Document<'a>, LimitFailure> {
    let (depth, rest) = word_of(text);
    let (tokens, source) = word_of(rest);
    match kind {
        "within" => document_within(alloc, rest, Some(number_of(depth)), None),
        "limited" => {
            let tokens = Some(number_of(tokens));
            document_within(alloc, source, Some(number_of(depth)), tokens)
        }
        _ => document_within(alloc, text, None, None),
    }
}

/// `pushed`: how many nodes there are after each definition of the document was appended by `push_definition`.
pub fn write_counts(alloc: Global, out: &mut String, text: &str) -> Written {
    match document(alloc, text) {
        Ok(document) => write_pushed(alloc, out, &document),
        Err(ParseFailure::Memory) => Err(AllocError),
        Err(failure) => write_refusal(out, failure),
    }
}

/// `equal`: whether the trees of two texts, between which ` == ` stands, are equal, both ways.
pub fn write_equal(alloc: Global, out: &mut String, text: &str) -> Written {
    let Some((one, other)) = text.split_once(" == ") else {
        return out.push_str("no two texts\n");
    };
    match compared(alloc, one, other) {
        Ok((there, back)) => writeln!(out, "{there} {back}"),
        Err(_) => out.push_str("refused\n"),
    }
}

fn compared(alloc: Global, one: &str, other: &str) -> Result<(bool, bool), ParseFailure> {
    let one = document(alloc, one)?;
    let other = document(alloc, other)?;
    Ok((one == other, other == one))
}

type Given<'a> = Arguments<'a, DefaultScalarValue>;

/// `arguments`: calls on the arguments that are written as the fields of an object.
pub fn write_calls(alloc: Global, out: &mut String, text: &str, calls: &str) -> Written {
    match fields_of(alloc, text)? {
        Some(fields) => {
            let given = given_of(alloc, &fields)?;
            write_lines(
                alloc,
                out,
                &mut ObjectArguments {
                    given,
                    fields: &fields,
                },
                calls,
            )
        }
        None => out.push_str("no object\n"),
    }
}

fn given_of(
    alloc: Global,
    fields: &[(Spanning<String>, Spanning<Input>)],
) -> Result<Given<'_>, AllocError> {
    let mut items = Vec::new(alloc);
    for (name, value) in fields {
        let value = Spanning::new(value.span, value.item.try_clone(alloc)?);
        items.push((Spanning::new(name.span, name.item.as_str()), value))?;
    }
    Ok(Arguments { items })
}

// Arguments, and the fields of the object that they are written as.
#[derive(Drop)]
struct ObjectArguments<'a> {
    given: Given<'a>,
    fields: &'a [(Spanning<String>, Spanning<Input>)],
}

impl Subject for ObjectArguments<'_> {
    fn answer(&mut self, alloc: Global, out: &mut String, call: &str) -> Written {
        let (word, name) = word_of(call);
        match word {
            "len" => {
                let len = self.given.len();
                write!(out, "{len}")
            }
            "iter" => write_names(out, &self.given),
            "get" => match self.given.get(name) {
                Some(value) => write_line_of(alloc, out, value),
                None => out.push_str("None"),
            },
            "get_mut" => write_cleared(out, self.given.get_mut(name)),
            "unlocated_eq" => write_compared(alloc, out, self.fields, name),
            "variable_uses" => write_uses(alloc, out, &self.given, name),
            _ => out.push_str("no such call"),
        }
    }
}

// Puts null in the place of the value.
fn write_cleared(out: &mut String, value: Option<&mut Spanning<Input>>) -> Written {
    match value {
        Some(value) => {
            value.item = InputValue::null();
            out.push_str("null")
        }
        None => out.push_str("None"),
    }
}

// Whether other arguments, the fields of this object, are equal regardless of places, both ways.
fn write_compared(
    alloc: Global,
    out: &mut String,
    fields: &[(Spanning<String>, Spanning<Input>)],
    other: &str,
) -> Written {
    let Some(others) = fields_of(alloc, other)? else {
        return out.push_str("no object");
    };
    write_compared_fields(alloc, out, fields, &others)
}

fn write_compared_fields<'a>(
    alloc: Global,
    out: &mut String,
    fields: &'a [(Spanning<String>, Spanning<Input>)],
    others: &'a [(Spanning<String>, Spanning<Input>)],
) -> Written {
    let given = given_of(alloc, fields)?;
    let other = given_of(alloc, others)?;
    write_both(out, given.unlocated_eq(&other), other.unlocated_eq(&given))
}

// The variables in the value of the argument of this name, each with the span of its use.
fn write_uses(alloc: Global, out: &mut String, given: &Given<'_>, name: &str) -> Written {
    let Some(value) = given.get(name) else {
        return out.push_str("None");
    };
    let Ok(uses) = value.item.variable_uses(alloc, value.span) else {
        return out.push_str("Memory");
    };
    write_placed(out, &uses)
}

fn write_names(out: &mut String, given: &Given<'_>) -> Written {
    let before = out.len();
    for (name, value) in given.iter() {
        let name = name.item;
        let value = &value.item;
        write_separator(out, before)?;
        write!(out, "{name}: {value}")?;
    }
    Ok(())
}

// The lines of a value on one line.
fn write_line_of(
    alloc: Global,
    out: &mut String,
    value: &Spanning<InputValue<DefaultScalarValue>>,
) -> Written {
    let before = out.len();
    write_value(alloc, out, value)?;
    if out.len() > before {
        out.pop();
    }
    Ok(())
}
