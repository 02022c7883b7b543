//! A source's tokens, in a buffer.
ghost use Rattle.std.specs.Prelude.{◌<◌, ◌^◌, length};
ghost use Rattle.firthnapkin_results.specs.CutTokens.{ReturnsTokens};

use crate::buffer::put;
use crate::byte_table::ByteTable;
use crate::error::{Error, lexical_error, too_many_tokens_error};
use crate::source::{Unread, text_of};
use crate::token::{Token, token_at};
use juniper_tokens::{Kind, LexFailure, Lexer};
use std::alloc::Global;

/// Which tokens of a source have been put into a buffer, as far as it has capacity for them.
#[derive(Clone, Copy)]
pub enum Written {
    /// All of them, the end among them: so many.
    Tokens(usize),
    /// Those before the first lexical error, so many, and the error.
    Refused(usize, Error),
    /// As many as the limit; the error is at the first token past it.
    Many(Error),
}

/// Puts the tokens of a source into a buffer, as many as it has capacity for, and returns how many there are. Stops at
/// a lexical error and at the first token past the limit. The buffer stays as it is if the bytes aren't UTF-8 or are
/// 4 GiB or more. If memory runs out, it may hold some tokens.
pub fn tokens_of(
    alloc: Global,
    source: &[u8],
    most: u32,
    buffer: &mut [Token],
) -> Result<Written, Unread>
    ensures { ReturnsTokens source.now most buffer.old buffer.new result }
{
    tokens_of_text(alloc, text_of(source)?, most, buffer)
}

fn tokens_of_text(
    alloc: Global,
    text: &str,
    most: u32,
    buffer: &mut [Token],
) -> Result<Written, Unread>
    requires { length text.now < 2 ^ 32 }
    ensures { ReturnsTokens text.now most buffer.old buffer.new result }
{
    let table = ByteTable::new(alloc, text)?;
    let mut lexer = Lexer::new(alloc, text);
    let mut count = 0;
    loop {
        match lexer.next() {
            Some(Ok(token)) => {
                let kind = token.item.kind();
                if kind == Kind::EndOfFile {
                    put(buffer, count, token_at(&table, kind, &token.span));
                    return Ok(Written::Tokens(count + 1));
                }
                if count == most as usize {
                    return Ok(Written::Many(too_many_tokens_error(&table, token.span)));
                }
                put(buffer, count, token_at(&table, kind, &token.span));
                count += 1;
            }
            Some(Err(LexFailure::Fault(error))) => {
                let found = lexical_error(&table, &error.item, error.span.start);
                return Ok(Written::Refused(count, found));
            }
            Some(Err(LexFailure::Memory)) => return Err(Unread::OutOfMemory),
            None => unreachable!(),
        }
    }
}
