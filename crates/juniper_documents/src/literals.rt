//! Sources that are one value or one type (GraphQL specification, October 2021, sections 2.9 and 2.11).
ghost use Rattle.std.specs.Prelude.{◌≡◌, true, not, IfErr, IfOk};
ghost use Rattle.std.specs.Str.{chars};
ghost use Rattle.graphql_grammar.specs.Grammar.{IsLocated, IsType, IsValue};
ghost use Rattle.graphql_grammar.specs.Tokens.{Located};
ghost use Rattle.graphql_grammar.specs.Tree.{Value as Seen};
ghost use Rattle.juniper_tokens.specs.Taking.{left};
ghost use Rattle.juniper_tree.specs.Scalars.{stated};
ghost use Rattle.juniper_tree.specs.View.{view_spanned_type, view_value};
ghost use Rattle.juniper_values.specs.Scalar.{Content};
ghost use Rattle.juniper_documents.specs.Limited.{FailsAs, HasFewTokens};
ghost use Rattle.juniper_documents.specs.Literals.{FailsType, FailsValue, HasType, HasValue, IsTypeWithin, IsValueWithin, NamesTypeError, NamesValueError};
ghost use Rattle.juniper_documents.specs.device.Alone.{Answers};

use crate::document::depth::depth_failure;
use crate::document::limited::{LimitFailure, Limits};
use juniper_parser::{Builder, Trees, next_is, parse_any_type, parse_value};
use juniper_tokens::{
    Cursor, Kind, ParseFailure, ParseResult, SourceText, Spanning, Streamed, check_tokens,
};
use juniper_values::{InputValue, ScalarValue, Type};
use std::alloc::Global;

/// Parses a source text as one value within limits: `Value(c) EndOfFile`
///
/// A value is returned exactly if the text is one, and no more; it is constant, and has no variables, if `is_const`. A text
/// that is no value is refused as `parse_document_source_limited` refuses one that is no document: at its first lexical
/// error, and else at the first token that can't stand there in a value and the end. The limits, their errors and the
/// order of errors are those of that call, too. If memory runs out, returns `LimitFailure::Parse` with
/// `ParseFailure::Memory`. Takes stack for a nesting of `limits.depth` at most.
///
/// ```
/// let value = parse_value_source::<DefaultScalarValue>(alloc, "[1, $n]", false, Limits::default())?;
/// ```
pub fn parse_value_source<'a, S: ScalarValue>(
    alloc: Global,
    s: &'a str,
    is_const: bool,
    limits: Limits,
) -> Result<Spanning<InputValue<S>>, LimitFailure>
    ensures accepted { IfOk result (λ value. HasValue (stated S.reading S.of_bool) (not is_const) (chars s.now) (view_value S.content value)) }
    ensures within { IfOk result (λ _. IsValueWithin (stated S.reading S.of_bool) (not is_const) limits.depth (chars s.now)) }
    ensures few { IfOk result (λ _. HasFewTokens limits.tokens (chars s.now)) }
    ensures failed { IfErr result (FailsValue (stated S.reading S.of_bool) (not is_const) limits.depth limits.tokens (chars s.now)) }
{
    let mut trees = Trees::<'a, Streamed>::new(alloc);
    build_value_source::<S, Trees<'a, Streamed>, LimitFailure>(
        alloc, &s, is_const, limits, &mut trees,
    )
}

/// Parses a source as one value within limits, and has a builder build it: `Value(c) EndOfFile`
///
/// The result is that of `parse_value_source` for the source, with what was built in place of the value, and an error of
/// any type `F` that is made of a `LimitFailure`. The builder's `Feed` is `Streamed`. After an error, or if memory runs
/// out, some parts of a value may have been built, but none if the source has a lexical error or too many tokens: it is
/// lexed once before it is parsed.
// A call whose builder names a lifetime and a scalar type can't name the type of the error, which has a lifetime, too.
pub fn build_value_source<S: ScalarValue, B: Builder<S>, F: Drop + From<LimitFailure>>(
    alloc: Global,
    source: &B::Name,
    is_const: bool,
    limits: Limits,
    builder: &mut B,
) -> Result<B::Value, F>
    requires { B.Feed.IS_STREAM ≡ true }
    ensures accepted { IfOk result (λ value. (seen : Located (Seen Content)) × B.builds_value builder.old builder.new value seen × HasValue (stated S.reading S.of_bool) (not is_const) (B.Name.characters source.now) seen) }
    ensures within { IfOk result (λ _. IsValueWithin (stated S.reading S.of_bool) (not is_const) limits.depth (B.Name.characters source.now)) }
    ensures few { IfOk result (λ _. HasFewTokens limits.tokens (B.Name.characters source.now)) }
    ensures failed { FailsAs F.from_gives result (FailsValue (stated S.reading S.of_bool) (not is_const) limits.depth limits.tokens (B.Name.characters source.now)) }
{
    match check_tokens(alloc, source.as_str(), limits.depth, limits.tokens) {
        Ok(deep) => {
            let mut tokens = Cursor::of_source(alloc, source, limits.depth, limits.tokens);
            match build_value::<S, B>(&mut tokens, builder, is_const) {
                Ok(value) => Ok(value),
                Err(failure) => Err(F::from(LimitFailure::from(depth_failure(deep, failure)))),
            }
        }
        Err(failure) => Err(F::from(LimitFailure::from(failure))),
    }
}

/// `Value(c)`, up to the end, which is left there.
fn build_value<S: ScalarValue, B: Builder<S>>(
    tokens: &mut Cursor<'_, B::Name, B::Feed>,
    builder: &mut B,
    is_const: bool,
) -> Result<B::Value, ParseFailure>
    ensures { Answers (IsLocated (IsValue (stated S.reading S.of_bool) (not is_const))) (NamesValueError (stated S.reading S.of_bool) (not is_const)) (B.builds_value builder.old builder.new) result (left tokens.old) }
{
    let value = parse_value::<S, B>(tokens, builder, is_const)?;
    if next_is(tokens, Kind::EndOfFile) {
        return Ok(value);
    }
    tokens.refuse()
}

/// Parses a source text as one type within limits: `Type EndOfFile`
///
/// A type is returned exactly if the text is one, and no more. The errors and the limits are those of
/// `parse_value_source`.
///
/// ```
/// let of_type = parse_type_source(alloc, "[ID!]!", Limits::default())?;
/// ```
pub fn parse_type_source<'a>(
    alloc: Global,
    s: &'a str,
    limits: Limits,
) -> Result<Spanning<Type<&'a str>>, LimitFailure>
    ensures accepted { IfOk result (λ of_type. HasType (chars s.now) (view_spanned_type of_type)) }
    ensures within { IfOk result (λ _. IsTypeWithin limits.depth (chars s.now)) }
    ensures few { IfOk result (λ _. HasFewTokens limits.tokens (chars s.now)) }
    ensures failed { IfErr result (FailsType limits.depth limits.tokens (chars s.now)) }
{
    let deep = check_tokens(alloc, s, limits.depth, limits.tokens)?;
    let mut tokens = Cursor::<&str, Streamed>::of_source(alloc, &s, limits.depth, limits.tokens);
    match read_type(&mut tokens) {
        Ok(of_type) => Ok(of_type),
        Err(failure) => Err(LimitFailure::from(depth_failure(deep, failure))),
    }
}

/// `Type`, up to the end, which is left there.
fn read_type<'a>(tokens: &mut Cursor<'_, &'a str, Streamed>) -> ParseResult<Type<&'a str>>
    ensures { Answers (IsLocated IsType) NamesTypeError (λ of_type seen. seen ≡ view_spanned_type of_type) result (left tokens.old) }
{
    let of_type = parse_any_type(tokens)?;
    if next_is(tokens, Kind::EndOfFile) {
        return Ok(of_type);
    }
    tokens.refuse()
}
