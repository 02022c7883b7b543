//! Documents of which a builder makes what its caller wants.
ghost use Rattle.std.specs.Prelude.{◌≡◌, List, true, IfOk, OnOk};
ghost use Rattle.std.specs.Str.{chars};
ghost use Rattle.graphql_lexical.specs.Cutting.{Lexeme};
ghost use Rattle.graphql_grammar.specs.Tree.{Scalars};
ghost use Rattle.graphql_grammar.specs.device.Productions.{document};
ghost use Rattle.juniper_tokens.specs.Cursor.{Fails};
ghost use Rattle.juniper_tokens.specs.Errors.{Error};
ghost use Rattle.juniper_tokens.specs.Taking.{left, GoesOn};
ghost use Rattle.juniper_tokens.specs.declared.error.ParseFailure.{ParseFailure as Failed};
ghost use Rattle.juniper_values.specs.Scalar.{Content};
ghost use Rattle.juniper_parser.specs.Building.{BuildsList, BuildsTree};
ghost use Rattle.juniper_documents.specs.Limited.{FailsAs, FailsLimited, HasFewTokens};
ghost use Rattle.juniper_tree.specs.Scalars.{stated};
ghost use Rattle.juniper_documents.specs.Within.{IsWithin};
ghost use Rattle.juniper_parser.specs.device.Builds.{BuildsAs};
ghost use Rattle.juniper_documents.specs.device.Ended.{EndsWithin};
ghost use Rattle.juniper_parser.specs.device.Steps.{cursor};

use crate::document::depth::depth_failure;
use crate::document::limited::{LimitFailure, Limits};
use juniper_parser::{Builder, Gather, expected_items, next_is, parse_definition};
use juniper_tokens::{Cursor, Kind, ParseFailure, SourceText, check_tokens};
use juniper_values::ScalarValue;
use std::alloc::Global;

/// Parses a source as a document within limits, and has a builder build each of its parts as soon as it is read:
/// `Document = Definition+ EndOfFile`
///
/// Keeps no list of tokens: each is read when the one before it is taken. The result is that of
/// `parse_document_source_limited` for the source, with what was built in place of the tree, and an error of any type `F`
/// that is made of a `LimitFailure`. The builder's `Feed` is `Streamed`. After an error, or if memory runs out, some parts
/// of a document may have been built. If the source isn't a document within the limits, it is lexed once more from its
/// beginning, since a lexical error comes before any other. Takes no memory but what the builder takes and the words of
/// an error, and stack in proportion to the nesting of the tokens.
///
/// ```
/// // `Fields` is a type of the program's own that counts fields, and is a `Builder`
/// let limits = Limits { depth: 200, tokens: 10_000 };
/// let mut fields = Fields::none();
/// build_document_source::<DefaultScalarValue, Fields, LimitFailure>(alloc, &source, limits, &mut fields)?;
/// ```
// A call whose builder names a lifetime and a scalar type can't name the type of the error, which has a lifetime, too.
pub fn build_document_source<S: ScalarValue, B: Builder<S>, F: Drop + From<LimitFailure>>(
    alloc: Global,
    source: &B::Name,
    limits: Limits,
    builder: &mut B,
) -> Result<B::Definitions, F>
    requires { B.Feed.IS_STREAM ≡ true }
    ensures accepted { IfOk result (BuildsTree B.builds_definition B.Definitions.gathered (stated S.reading S.of_bool) (B.Name.characters source.now) builder.old builder.new) }
    ensures within { IfOk result (λ _. IsWithin (stated S.reading S.of_bool) limits.depth (B.Name.characters source.now)) }
    ensures few { IfOk result (λ _. HasFewTokens limits.tokens (B.Name.characters source.now)) }
    ensures failed { FailsAs F.from_gives result (FailsLimited (stated S.reading S.of_bool) limits.depth limits.tokens (B.Name.characters source.now)) }
{
    let mut tokens = Cursor::of_source(alloc, source, limits.depth, limits.tokens);
    match build_definitions::<S, B>(&mut tokens, builder) {
        Ok(definitions) => {
            if tokens.is_whole() {
                return Ok(definitions);
            }
            match check_tokens(alloc, source.as_str(), limits.depth, limits.tokens) {
                Ok(_) => Ok(definitions),
                Err(failure) => Err(F::from(LimitFailure::from(failure))),
            }
        }
        Err(failure) => Err(F::from(limit_failure(alloc, source.as_str(), limits, failure))),
    }
}

// Why a source has no tree within limits, if its tokens, as far as they are within these, gave this failure.
#[cold]
fn limit_failure(alloc: Global, source: &str, limits: Limits, failure: ParseFailure) -> LimitFailure
    ensures { (scalars : Scalars Content Error) (tokens rest : List Lexeme) → EndsWithin limits.depth limits.tokens (chars source.now) tokens → Fails failure rest (cursor scalars document tokens) → FailsLimited scalars limits.depth limits.tokens (chars source.now) result }
{
    match check_tokens(alloc, source, limits.depth, limits.tokens) {
        Ok(deep) => LimitFailure::from(depth_failure(deep, failure)),
        Err(failure) => LimitFailure::from(failure),
    }
}

/// `Definition+`, up to the end, which is left there.
fn build_definitions<S: ScalarValue, B: Builder<S>>(
    tokens: &mut Cursor<'_, B::Name, B::Feed>,
    builder: &mut B,
) -> Result<B::Definitions, ParseFailure>
    ensures gives { BuildsAs (λ (a b : Failed). b ≡ a) (BuildsList B.builds_definition B.Definitions.gathered builder.old builder.new) result (cursor (stated S.reading S.of_bool) document (left tokens.old)) }
    ensures on { OnOk result (GoesOn tokens.old tokens.new) }
{
    let mut definitions = B::Definitions::none(tokens.allocator());
    loop {
        let definition = parse_definition::<S, B>(tokens, builder)?;
        let is_last = next_is(tokens, Kind::EndOfFile);
        definitions.gather(definition, expected_items(is_last))?;
        if is_last {
            return Ok(definitions);
        }
    }
}
