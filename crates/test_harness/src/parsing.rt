//! What is read by a parser: documents, literals, and delimited lists of Names.
ghost use Rattle.juniper_tokens.specs.Delimited.{Leaves};

use juniper::{
    DefaultScalarValue, InputValue, Lexer, LimitFailure, Limits, OwnedDocument, ParseFailure,
    ParseResult, Parser, Spanning, Token, Type, UnlocatedParseResult, parse_document_source,
    parse_document_source_limited, parse_document_source_within, parse_type, parse_value_literal,
};
use std::alloc::{AllocError, Global};

pub type Document<'a> = OwnedDocument<'a, DefaultScalarValue>;

pub type Input = InputValue<DefaultScalarValue>;

/// The fields of an object literal.
pub type Fields = Vec<(Spanning<String>, Spanning<Input>)>;

/// The document that a text is.
pub fn document(alloc: Global, source: &str) -> UnlocatedParseResult<Document<'_>> {
    parse_document_source(alloc, source)
}

/// The same within a limit on nesting, or within limits on nesting and on tokens, where these are given.
pub fn document_within(
    alloc: Global,
    source: &str,
    depth: Option<usize>,
    tokens: Option<usize>,
) -> Result<Document<'_>, LimitFailure> {
    match (depth, tokens) {
        (Some(depth), Some(tokens)) => {
            parse_document_source_limited(alloc, source, Limits { depth, tokens })
        }
        (Some(depth), None) => Ok(parse_document_source_within(alloc, source, depth)?),
        _ => match document(alloc, source) {
            Ok(document) => Ok(document),
            Err(failure) => Err(LimitFailure::Parse(failure)),
        },
    }
}

/// The value literal that a text begins with, if any.
pub fn literal(alloc: Global, text: &str) -> Result<Option<Input>, AllocError> {
    match first_value(alloc, text) {
        Ok(value) => Ok(Some(value.item)),
        Err(ParseFailure::Memory) => Err(AllocError),
        Err(ParseFailure::Refused(_)) => Ok(None),
    }
}

/// The fields of the object that a text begins with, if any.
pub fn fields_of(alloc: Global, text: &str) -> Result<Option<Fields>, AllocError> {
    match literal(alloc, text)? {
        Some(InputValue::Object(fields)) => Ok(Some(fields)),
        _ => Ok(None),
    }
}

fn first_value(alloc: Global, text: &str) -> ParseResult<Input> {
    let mut lexer = Lexer::new(alloc, text);
    let mut parser = Parser::new(&mut lexer)?;
    value_in(&mut parser, false)
}

/// The value literal that the tokens begin with.
pub fn value_in(parser: &mut Parser<'_>, is_const: bool) -> ParseResult<Input> {
    parse_value_literal(parser, is_const)
}

/// The type literal that the tokens begin with.
pub fn type_in<'a>(parser: &mut Parser<'a>) -> ParseResult<Type<&'a str>> {
    parse_type(parser)
}

// The Name that stands next.
fn next_name<'a>(parser: &mut Parser<'a>) -> ParseResult<&'a str>
    ensures { Leaves result parser.old parser.new }
{
    match parser.expect_name() {
        Ok(name) => Ok(name),
        Err(failure) => Err(failure),
    }
}

/// `delimited_list` of Names.
pub fn names<'a>(
    parser: &mut Parser<'a>,
    opening: &Token<'_>,
    closing: &Token<'_>,
) -> ParseResult<Vec<Spanning<&'a str>>> {
    parser.delimited_list(opening, next_name, closing)
}

/// `delimited_nonempty_list` of Names.
pub fn some_names<'a>(
    parser: &mut Parser<'a>,
    opening: &Token<'_>,
    closing: &Token<'_>,
) -> ParseResult<Vec<Spanning<&'a str>>> {
    parser.delimited_nonempty_list(opening, next_name, closing)
}

// The text of the Name that stands next.
fn name_text<'a>(parser: &mut Parser<'a>) -> UnlocatedParseResult<&'a str>
    ensures { Leaves result parser.old parser.new }
{
    match parser.expect_name() {
        Ok(name) => Ok(name.item),
        Err(failure) => Err(failure),
    }
}

/// `unlocated_delimited_nonempty_list` of the texts of Names.
pub fn some_texts<'a>(
    parser: &mut Parser<'a>,
    opening: &Token<'_>,
    closing: &Token<'_>,
) -> ParseResult<Vec<&'a str>> {
    parser.unlocated_delimited_nonempty_list(opening, name_text, closing)
}
