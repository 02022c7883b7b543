//! Type literals that are made by their calls.

use crate::kinds::word_of;
use crate::write::{Written, write_optional_text, write_truth};
use juniper::{Type, TypeModifier};
use std::alloc::{AllocError, Global};

fn made(alloc: Global, text: &str) -> Result<Type<String>, AllocError> {
    let (name, modifiers) = word_of(text);
    let mut literal = Type::nullable(String::from_str(alloc, name)?);
    for word in modifiers.split_whitespace() {
        let wrapped = match word.split_once('=') {
            Some((_list, size)) => literal.wrap_list(alloc, size.parse::<usize>().ok()),
            None if word == "list" => literal.wrap_list(alloc, None),
            None => literal.wrap_non_null(alloc),
        };
        literal = match wrapped {
            Ok(literal) => literal,
            Err(_) => return Err(AllocError),
        };
    }
    Ok(literal)
}

/// `type_literal`: a call on the type that the row's words make: a name, then from the innermost on `non_null`, `list`
/// or `list=N` of a size.
pub fn answer(alloc: Global, out: &mut String, text: &str, call: &str) -> Written {
    let literal = made(alloc, text)?;
    let (word, rest) = word_of(call);
    match word {
        "==" => write_truth(out, literal == made(alloc, rest)?),
        "wrap_list" => write_wrapped(out, literal.wrap_list(alloc, Some(3))),
        "wrap_non_null" => write_wrapped(out, literal.wrap_non_null(alloc)),
        _ => answer_lent(out, &literal, word),
    }
}

// A call that takes the type by reference.
fn answer_lent(out: &mut String, literal: &Type<String>, word: &str) -> Written {
    match word {
        "display" => write!(out, "{literal}"),
        "name" => write_optional_text(out, literal.name()),
        "innermost_name" => out.push_str(literal.innermost_name()),
        "modifier" => match literal.modifier() {
            Some(modifier) => write_modifier(out, modifier),
            None => out.push_str("None"),
        },
        "modifiers" => write_modifiers(out, literal.modifiers()),
        "is_list" => write_truth(out, literal.is_list()),
        "is_non_null" => write_truth(out, literal.is_non_null()),
        _ => out.push_str("no such call"),
    }
}

// Writes the type, or after `Memory` the one that was returned.
fn write_wrapped(out: &mut String, wrapped: Result<Type<String>, Type<String>>) -> Written {
    match wrapped {
        Ok(literal) => write!(out, "{literal}"),
        Err(literal) => write!(out, "Memory {literal}"),
    }
}

fn write_modifier(out: &mut String, modifier: &TypeModifier) -> Written {
    match modifier {
        TypeModifier::NonNull => out.push_str("non_null"),
        TypeModifier::List(None) => out.push_str("list"),
        TypeModifier::List(Some(size)) => write!(out, "list={size}"),
    }
}

fn write_modifiers(out: &mut String, modifiers: &[TypeModifier]) -> Written {
    let before = out.len();
    for modifier in modifiers {
        if out.len() > before {
            out.push(' ')?;
        }
        write_modifier(out, modifier)?;
    }
    Ok(())
}
