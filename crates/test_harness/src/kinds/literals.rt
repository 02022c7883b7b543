//! Value literals: the lines of what is read, or the refusal, and what `peek` shows then.

use crate::kinds::tree::write_value;
use crate::parsing::{Input, value_in};
use crate::write::{Written, write_refusal, write_token};
use juniper::{Lexer, ParseFailure, ParseResult, Parser};
use std::alloc::Global;

/// `value` and `const`: what `parse_value_literal` returns, const or not.
pub fn write_value_in(alloc: Global, out: &mut String, text: &str, is_const: bool) -> Written {
    let mut lexer = Lexer::new(alloc, text);
    match Parser::new(&mut lexer) {
        Ok(mut parser) => {
            write_value_read(alloc, out, value_in(&mut parser, is_const))?;
            write_next(out, &parser)
        }
        Err(failure) => write_refusal(out, ParseFailure::from(failure)),
    }
}

fn write_value_read(alloc: Global, out: &mut String, literal: ParseResult<Input>) -> Written {
    match literal {
        Ok(literal) => write_value(alloc, out, &literal),
        Err(failure) => write_refusal(out, failure),
    }
}

fn write_next(out: &mut String, parser: &Parser<'_>) -> Written {
    out.push_str("peek ")?;
    write_token(out, parser.peek())?;
    out.push('\n')
}
