//! Sources that are one value or one type: the lines of it, or why there is none. The text's first two words are the
//! limits on nesting and on tokens.

use crate::kinds::tree::write_value;
use crate::kinds::{number_of, word_of};
use crate::write::{Written, write_limit, write_span};
use juniper::{
    DefaultScalarValue, LimitFailure, Limits, Spanning, Type, parse_type_source, parse_value_source,
};
use std::alloc::Global;

/// `value_source` and `const_source`: what `parse_value_source` returns, const or not.
pub fn write_value_source(alloc: Global, out: &mut String, text: &str, is_const: bool) -> Written {
    let (depth, rest) = word_of(text);
    let (tokens, source) = word_of(rest);
    let limits = limits_of(depth, tokens);
    match parse_value_source::<DefaultScalarValue>(alloc, source, is_const, limits) {
        Ok(value) => write_value(alloc, out, &value),
        Err(failure) => write_line(out, failure),
    }
}

/// `type_source`: what `parse_type_source` returns.
pub fn write_type_source(alloc: Global, out: &mut String, text: &str) -> Written {
    write_type_read(out, type_in(alloc, text))
}

fn type_in<'a>(alloc: Global, text: &'a str) -> Result<Spanning<Type<&'a str>>, LimitFailure> {
    let (depth, rest) = word_of(text);
    let (tokens, source) = word_of(rest);
    parse_type_source(alloc, source, limits_of(depth, tokens))
}

fn write_type_read(
    out: &mut String,
    literal: Result<Spanning<Type<&str>>, LimitFailure>,
) -> Written {
    match literal {
        Ok(literal) => write_type(out, &literal),
        Err(failure) => write_line(out, failure),
    }
}

fn write_type(out: &mut String, literal: &Spanning<Type<&str>>) -> Written {
    write_span(out, &literal.span)?;
    let shown = &literal.item;
    writeln!(out, " type {shown}")
}

fn limits_of(depth: &str, tokens: &str) -> Limits {
    Limits {
        depth: number_of(depth),
        tokens: number_of(tokens),
    }
}

fn write_line(out: &mut String, failure: LimitFailure) -> Written {
    write_limit(out, failure)?;
    out.push('\n')
}
