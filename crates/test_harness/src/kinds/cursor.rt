//! The cursor.

use crate::kinds::lexing::write_left;
use crate::kinds::{Subject, word_of, write_lines};
use crate::parsing::{names, some_names, some_texts, type_in, value_in};
use crate::write::{
    At, Written, write_failure, write_placed, write_refusal, write_span, write_token,
};
use juniper::{
    LexFailure, Lexer, OptionParseResult, ParseFailure, ParseResult, Parser, Span, Spanning, Token,
};
use std::alloc::{AllocError, Global};
use std::fmt;

/// `parser`: the tokens of a parser of the text, or why there is none and the items that are left to the lexer then.
pub fn write_tokens(alloc: Global, out: &mut String, text: &str) -> Written {
    let mut lexer = Lexer::new(alloc, text);
    match Parser::new(&mut lexer) {
        Ok(mut parser) => {
            write_rest(out, &mut parser)?;
            out.push('\n')
        }
        Err(failure) => {
            write_refusal(out, ParseFailure::from(failure))?;
            write_left(out, &mut lexer, text.len())
        }
    }
}

/// `cursor`: calls on a parser of the text, one after another. `expect` and `skip` take the token that is written after
/// them, the end where nothing is; the lists take their opening and their closing token, and their items are Names.
/// `rest` takes all tokens that are left, by calls of `next_token`.
pub fn write_calls(alloc: Global, out: &mut String, text: &str, calls: &str) -> Written {
    let mut lexer = Lexer::new(alloc, text);
    match Parser::new(&mut lexer) {
        Ok(mut parser) => write_lines(alloc, out, &mut parser, calls),
        Err(LexFailure::Memory) => Err(AllocError),
        Err(failure) => write_refusal(out, ParseFailure::from(failure)),
    }
}

impl Subject for Parser<'_> {
    fn answer(&mut self, alloc: Global, out: &mut String, call: &str) -> Written {
        let (word, rest) = word_of(call);
        match word {
            "peek" => write_token(out, self.peek()),
            "next_token" => write_taken(out, self.next_token()),
            "expect_name" => write_read(out, self.expect_name()),
            "expect" => expect(alloc, out, self, rest),
            "skip" => skip(alloc, out, self, rest),
            "rest" => write_rest(out, self),
            _ => answer_read(alloc, out, self, call),
        }
    }
}

// A call that reads more than one token.
fn answer_read(alloc: Global, out: &mut String, parser: &mut Parser<'_>, call: &str) -> Written {
    match call {
        "parse_type" => write_read(out, type_in(parser)),
        "parse_value_literal" => write_read(out, value_in(parser, false)),
        "parse_value_literal_const" => write_read(out, value_in(parser, true)),
        _ => answer_list(alloc, out, parser, call),
    }
}

// Writes the texts of the tokens that are left.
fn write_rest(out: &mut String, parser: &mut Parser<'_>) -> Written {
    for _ in 0..usize::MAX {
        let token = parser.peek().item;
        write!(out, "{token}")?;
        if parser.next_token().is_err() {
            break;
        }
        out.push(' ')?;
    }
    Ok(())
}

fn expect(alloc: Global, out: &mut String, parser: &mut Parser<'_>, wanted: &str) -> Written {
    match first_token(alloc, wanted) {
        Some(token) => write_taken(out, parser.expect(&token)),
        None => out.push_str("no token"),
    }
}

fn skip(alloc: Global, out: &mut String, parser: &mut Parser<'_>, wanted: &str) -> Written {
    match first_token(alloc, wanted) {
        Some(token) => write_skipped(out, parser.skip(&token)),
        None => out.push_str("no token"),
    }
}

// The first token of a text, if it begins with one.
fn first_token(alloc: Global, text: &str) -> Option<Token<'_>> {
    let mut lexer = Lexer::new(alloc, text);
    match &lexer.next() {
        Some(Ok(token)) => Some(token.item),
        _ => None,
    }
}

fn write_taken(out: &mut String, taken: ParseResult<Token<'_>>) -> Written {
    match taken {
        Ok(token) => write_token(out, &token),
        Err(failure) => write_failure(out, failure),
    }
}

fn write_skipped(out: &mut String, taken: OptionParseResult<Token<'_>>) -> Written {
    match taken {
        Ok(Some(token)) => write_token(out, &token),
        Ok(None) => out.push_str("None"),
        Err(failure) => write_failure(out, failure),
    }
}

fn write_read<T: fmt::Display + Drop>(out: &mut String, read: ParseResult<T>) -> Written {
    match read {
        Ok(read) => write_spanned(out, &read),
        Err(failure) => write_failure(out, failure),
    }
}

fn write_spanned<T: fmt::Display>(out: &mut String, read: &Spanning<T>) -> Written {
    let at = At(&read.span);
    let item = &read.item;
    write!(out, "{at} {item}")
}

fn answer_list(alloc: Global, out: &mut String, parser: &mut Parser<'_>, call: &str) -> Written {
    let (word, brackets) = word_of(call);
    let (opening, closing) = word_of(brackets);
    let Some(opening) = first_token(alloc, opening) else {
        return out.push_str("no opening token");
    };
    let Some(closing) = first_token(alloc, closing) else {
        return out.push_str("no closing token");
    };
    answer_between(out, parser, word, &opening, &closing)
}

fn answer_between(
    out: &mut String,
    parser: &mut Parser<'_>,
    word: &str,
    opening: &Token<'_>,
    closing: &Token<'_>,
) -> Written {
    match word {
        "delimited_list" => write_names(out, names(parser, opening, closing)),
        "delimited_nonempty_list" => write_names(out, some_names(parser, opening, closing)),
        "unlocated_delimited_nonempty_list" => {
            write_texts(out, some_texts(parser, opening, closing))
        }
        _ => out.push_str("no such call"),
    }
}

fn write_names(out: &mut String, list: ParseResult<Vec<Spanning<&str>>>) -> Written {
    match list {
        Ok(list) => write_name_list(out, &list.span, &list.item),
        Err(failure) => write_failure(out, failure),
    }
}

fn write_name_list(out: &mut String, span: &Span, names: &[Spanning<&str>]) -> Written {
    write_span(out, span)?;
    if names.is_empty() {
        return Ok(());
    }
    out.push_str(", ")?;
    write_placed(out, names)
}

fn write_texts(out: &mut String, list: ParseResult<Vec<&str>>) -> Written {
    match list {
        Ok(list) => write_text_list(out, &list.span, &list.item),
        Err(failure) => write_failure(out, failure),
    }
}

fn write_text_list(out: &mut String, span: &Span, texts: &[&str]) -> Written {
    write_span(out, span)?;
    for text in texts {
        write!(out, ", {text}")?;
    }
    Ok(())
}
