//! A source's tokens, in the caller's memory.
ghost use Rattle.std.specs.Prelude.{◌≡◌, ◌≢◌, ◌<◌, ◌≤◌, ◌+◌, ◌^◌, ◌⊎◌, ◌↔◌, ◌++◌, List, [], length, IsUtf8};
ghost use Rattle.std.specs.Str.{chars};
ghost use Rattle.graphql_lexical.specs.Place as places;
ghost use Rattle.graphql_lexical.specs.Kinds.{LexicalError};
ghost use Rattle.graphql_lexical.specs.Characters.{Text};
ghost use Rattle.graphql_lexical.specs.Cutting.{Lexeme, Leads, Stands, Breaks};
ghost use Rattle.juniper_parser.specs.Promise.{lexical_fault};
ghost use Rattle.firthnapkin_results.specs.Errors.{written_error, too_many_tokens_error};
ghost use Rattle.firthnapkin_results.specs.Answers.{Begins, Fills};
ghost use Rattle.juniper_tokens.specs.Counting.{HasMore};
ghost use Rattle.firthnapkin_results.specs.Tokens.{written_tokens, TellsText, HasTokens, HasErrorAfter, IsTokensStatus};

use firthnapkin_results::error::Error;
use firthnapkin_results::status::{
    BUFFER_TOO_SMALL, NOT_UTF8, OK, OUT_OF_MEMORY, SOURCE_TOO_LONG, SYNTAX_ERROR, TOO_MANY_TOKENS,
};
use firthnapkin_results::token::Token;
use firthnapkin_results::tokens::{Written, tokens_of};
use std::alloc::Global;

/// Writes the tokens of a source into the caller's buffer, its end among them; or those before its first lexical error
/// or before the first token past the limit, which is the error.
#[unsafe(no_mangle)]
pub extern "C" fn firthnapkin_tokens(
    alloc: Global,
    source: &[u8],
    max_tokens: u32,
    tokens: &mut [Token],
    tokens_length: &mut usize,
    error: &mut Error,
) -> u32
    // header: It also returns FIRTHNAPKIN_NOT_UTF8, FIRTHNAPKIN_SOURCE_TOO_LONG and FIRTHNAPKIN_OUT_OF_MEMORY.
    ensures statuses { IsTokensStatus result }

    // header: Tokenizes a source. Its last token is its end. It may have no more than `max_tokens` tokens, its end not
    // counted. The source may be a document or not. `tokens_length` is the number of tokens that are found, and
    // `tokens` begins with those of them that fit; the rest of it is as it was. FIRTHNAPKIN_OK: they are all tokens of
    // the source, its end among them.
    ensures tokens { result ≡ OK → (lexemes : List Lexeme) × HasTokens source.now lexemes
        × (length lexemes ≤ max_tokens + 1)
        × Begins (written_tokens (chars source.now) lexemes) tokens.old tokens.new
        × (tokens_length.new ≡ length lexemes) }

    // header: FIRTHNAPKIN_BUFFER_TOO_SMALL: the same, and `tokens` is too short for all.
    ensures too_small { result ≡ BUFFER_TOO_SMALL → (lexemes : List Lexeme) × HasTokens source.now lexemes
        × (length lexemes ≤ max_tokens + 1)
        × (length tokens.old < length lexemes)
        × Fills (written_tokens (chars source.now) lexemes) tokens.old tokens.new
        × (tokens_length.new ≡ length lexemes) }

    // header: FIRTHNAPKIN_SYNTAX_ERROR: they are those before the first lexical error, which is the error, of the kind
    // FIRTHNAPKIN_ERROR_LEXICAL.
    ensures refused { result ≡ SYNTAX_ERROR → (before : List Lexeme) × (lexical : LexicalError) × (at : places.Place)
        × HasErrorAfter source.now before lexical at × (length before ≤ max_tokens)
        × Fills (written_tokens (chars source.now) before) tokens.old tokens.new × (tokens_length.new ≡ length before)
        × Breaks (chars source.now) lexical at
        × (error.new ≡ written_error (chars source.now) (lexical_fault lexical at)) }

    // header: FIRTHNAPKIN_TOO_MANY_TOKENS: they are the first `max_tokens`, and the error is at the one after these;
    // what is after it is UTF-8, and may have lexical errors.
    ensures many { result ≡ TOO_MANY_TOKENS → IsUtf8 source.now
        × ((span : places.Span) × (more : HasMore [] (chars source.now) max_tokens span)
        × Fills (written_tokens (chars source.now) more.front) tokens.old tokens.new × (tokens_length.new ≡ max_tokens)
        × (error.new ≡ too_many_tokens_error (chars source.now) span)) }

    // header: After FIRTHNAPKIN_OUT_OF_MEMORY it may begin with some of the source's first tokens.
    ensures memory { result ≡ OUT_OF_MEMORY → IsUtf8 source.now × ((some : List Lexeme) × (done after : Text)
        × Leads [] (chars source.now) some done after
        × Fills (written_tokens (chars source.now) some) tokens.old tokens.new) }

    // header: FIRTHNAPKIN_NOT_UTF8: the source is not UTF-8.
    ensures not_utf8 { result ≡ NOT_UTF8 → ¬ IsUtf8 source.now }

    // header: FIRTHNAPKIN_SOURCE_TOO_LONG: the source has 4 GiB or more.
    ensures too_long { result ≡ SOURCE_TOO_LONG ↔ 2 ^ 32 ≤ length source.now }

    // header: An array of length + 1 tokens always suffices.
    ensures bounds { tokens_length.new ≤ length source.now + 1 }

    // header: Its text is the bytes of the source from start.byte + quotes to end.byte - quotes, as they are written:
    // escapes are not replaced, and lines of a block string stay as they are.
    ensures texts { IsUtf8 source.now → (before left : Text) (x : Lexeme) (done after : Text)
        → before ++ left ≡ chars source.now
        → Stands before left x done after → TellsText source.now x }

    // header: FIRTHNAPKIN_NOT_UTF8 and FIRTHNAPKIN_SOURCE_TOO_LONG leave `tokens` as it was.
    ensures buffer_kept { (result ≡ NOT_UTF8) ⊎ (result ≡ SOURCE_TOO_LONG) → tokens.new ≡ tokens.old }

    // header: These three set `tokens_length` to 0.
    ensures no_count { (result ≡ NOT_UTF8) ⊎ ((result ≡ SOURCE_TOO_LONG) ⊎ (result ≡ OUT_OF_MEMORY))
        → tokens_length.new ≡ 0 }

    // header: All statuses but FIRTHNAPKIN_SYNTAX_ERROR and FIRTHNAPKIN_TOO_MANY_TOKENS leave the error as it was.
    ensures error_kept { result ≢ SYNTAX_ERROR → result ≢ TOO_MANY_TOKENS → error.new ≡ error.old }
{
    *tokens_length = 0;
    match tokens_of(alloc, source, max_tokens, tokens) {
        Ok(Written::Tokens(count)) => {
            *tokens_length = count;
            if count <= tokens.len() {
                OK
            } else {
                BUFFER_TOO_SMALL
            }
        }
        Ok(Written::Refused(count, found)) => {
            *tokens_length = count;
            *error = found;
            SYNTAX_ERROR
        }
        Ok(Written::Many(found)) => {
            *tokens_length = max_tokens as usize;
            *error = found;
            TOO_MANY_TOKENS
        }
        Err(unread) => unread.status(),
    }
}
