//! Documents whose definitions are passed on one by one.
ghost use Rattle.std.specs.Prelude.{◌<◌, ◌^◌, ◌∷◌, [], ℕ, List, IfOk, OnOk, OnErr};
ghost use Rattle.std.specs.Str.{chars};
ghost use Rattle.graphql_grammar.specs.Tree.{Definition as Seen};
ghost use Rattle.juniper_tokens.specs.Errors.{view_fault};
ghost use Rattle.juniper_tokens.specs.Spans.{view_span};
ghost use Rattle.juniper_values.specs.Scalar.{Content};
ghost use Rattle.juniper_tree.specs.View.{view_definition};
ghost use Rattle.juniper_tree.specs.Scalars.{stated};
ghost use Rattle.graphql_grammar.specs.device.Productions.{document};
ghost use Rattle.juniper_tokens.specs.Taking.{left};
ghost use Rattle.juniper_parser.specs.device.Steps.{cursor};
ghost use Rattle.juniper_documents.specs.Within.{HasTooDeep, IsWithin};
ghost use Rattle.juniper_documents.specs.Limited.{HasFewTokens, HasTooManyTokens, IfDecidedLimited, IfParsed, IfRefusedLimited, IfTooDeepLimited, IfTooManyLimited};
ghost use Rattle.juniper_documents.specs.Sinks.{Gains, GainsTree, GainsFront, GainsBeforeEnd, GivesAs};
ghost use Rattle.juniper_parser.specs.Promise.{IsRefusal};

use crate::document::depth::depth_failure;
use crate::document::limited::{LimitFailure, Limits};
use juniper_parser::{next_is, parse_definition_tree};
use juniper_tokens::{Cursor, Kind, Streamed, UnlocatedParseResult, check_tokens};
use juniper_tree::Definition;
use juniper_values::ScalarValue;
use std::alloc::{AllocError, Global};

/// A sink that takes the definitions of a document one after another.
pub trait DefinitionSink<S: ScalarValue> {
    // It has taken these definitions of a document that this source writes.
    ghost holds: { List ℕ → Self → List (Seen Content) → Type 0 };

    /// Takes a definition, after the others.
    ///
    /// Returns `AllocError` if memory runs out. The sink then holds what it held before.
    fn take(&mut self, definition: Definition<'_, S>) -> Result<(), AllocError>
        ensures taken { OnOk result (Gains holds self.old self.new (view_definition S.content definition.entry ∷ [])) }
        ensures kept { OnErr result (Gains holds self.old self.new []) };
}

/// Parses a source text within limits, and passes each definition to a sink as soon as it is read, so no more than one
/// needs to be in memory at a time.
///
/// The result is that of `parse_document_source_limited`, and if that is a tree, its definitions have been passed in
/// order. Whatever the result, the definitions passed are definitions at the beginning of the source, in order, also
/// before an error or if memory runs out. If the source has a lexical error, none were passed: it is lexed once before
/// it is parsed, and no list of tokens is held. Takes stack for a nesting of `limits.depth` at most; if memory runs out,
/// in the parser or in the sink, returns `LimitFailure::Parse` with `ParseFailure::Memory`.
///
/// ```
/// // `Fields` is a type of the program's own that counts fields, and is a `DefinitionSink`
/// let mut fields = Fields::none();
/// parse_document_source_into::<DefaultScalarValue, Fields>(alloc, source, Limits::default(), &mut fields)?;
/// ```
pub fn parse_document_source_into<S: ScalarValue, D: DefinitionSink<S>>(
    alloc: Global,
    s: &str,
    limits: Limits,
    definitions: &mut D,
) -> Result<(), LimitFailure>
    ensures accepted { IfOk result (λ _. GainsTree D.holds definitions.old definitions.new (stated S.reading S.of_bool) (chars s.now)) }
    ensures refused { IfRefusedLimited result (λ fault. IsRefusal (stated S.reading S.of_bool) (chars s.now) (view_fault fault)) }
    ensures within { IfDecidedLimited result (IsWithin (stated S.reading S.of_bool) limits.depth (chars s.now)) }
    ensures too_deep { IfTooDeepLimited result (λ span. HasTooDeep (stated S.reading S.of_bool) limits.depth (chars s.now) (view_span span)) }
    ensures few { IfParsed result (HasFewTokens limits.tokens (chars s.now)) }
    ensures too_many { IfTooManyLimited result (λ span. HasTooManyTokens limits.tokens (chars s.now) (view_span span)) }

    // So `usize::MAX` is no limit.
    ensures limited { IfTooManyLimited result (λ _. limits.tokens < 2 ^ 63) }
    ensures given { GainsFront D.holds definitions.old definitions.new (stated S.reading S.of_bool) (chars s.now) }
{
    let deep = check_tokens(alloc, s, limits.depth, limits.tokens)?;
    let mut tokens = Cursor::<&str, Streamed>::of_source(alloc, &s, limits.depth, limits.tokens);
    match give_definitions(&mut tokens, definitions) {
        Ok(()) => Ok(()),
        Err(failure) => Err(LimitFailure::from(depth_failure(deep, failure))),
    }
}

/// `Definition+`, up to the end, which is left there.
fn give_definitions<S: ScalarValue, D: DefinitionSink<S>>(
    tokens: &mut Cursor<'_, &str, Streamed>,
    definitions: &mut D,
) -> UnlocatedParseResult<()>
    ensures answer { GivesAs D.holds definitions.old definitions.new result (cursor (stated S.reading S.of_bool) document (left tokens.old)) }
    ensures given { GainsBeforeEnd D.holds definitions.old definitions.new (stated S.reading S.of_bool) (left tokens.old) }
{
    loop {
        definitions.take(parse_definition_tree(tokens)?)?;
        if next_is(tokens, Kind::EndOfFile) {
            return Ok(());
        }
    }
}
