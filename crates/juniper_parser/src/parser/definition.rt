//! Operations and fragments (GraphQL specification, October 2021, sections 2.2, 2.3 and 2.8).
ghost use Rattle.std.specs.Prelude.{◌≡◌, ◌<◌, ◌≤◌, length, Some, None, option_map, OnOk, if◌then◌else◌};
ghost use Rattle.graphql_grammar.specs.device.Reading.{passes};
ghost use Rattle.graphql_grammar.specs.device.Productions.{optional_name, fragment_name, operation, fragment, shorthand, operation_word, operation_of, definition};
ghost use Rattle.juniper_tokens.specs.Cursor.{Gives, first_of};
ghost use Rattle.juniper_parser.specs.device.Builds.{Builds, BuildsOr};
ghost use Rattle.juniper_tree.specs.View.{view_located, view_definition};
ghost use Rattle.juniper_tree.specs.Scalars.{stated};
ghost use Rattle.juniper_tokens.specs.Taking.{left, last_end, GoesOn};
ghost use Rattle.juniper_parser.specs.device.Steps.{no_scalars, cursor, at_span};

use crate::parser::builder::Builder;
use crate::parser::next::{next_is, next_is_word};
use crate::parser::selection::{parse_inline_parts, parse_selection_set, parse_type_condition};
use crate::parser::trees::Trees;
use crate::parser::variables::parse_optional_variables;
use graphql_grammar::OperationType;
use juniper_tokens::{
    Cursor, Feed, Kind, OptionParseResult, ParseFailure, ParseResult, SourcePosition, SourceText,
    Streamed, UnlocatedParseResult,
};
use juniper_tree::Definition;
use juniper_values::ScalarValue;

/// `Definition`, as juniper's tree.
pub fn parse_definition_tree<'a, S: ScalarValue>(
    tokens: &mut Cursor<'_, &'a str, Streamed>,
) -> UnlocatedParseResult<Definition<'a, S>>
    ensures gives { Gives (view_definition S.content) result (left tokens.new) (cursor (stated S.reading S.of_bool) definition (left tokens.old)) }
    ensures shorter { OnOk result (length (left tokens.new) < length (left tokens.old)) }
    ensures on { OnOk result (GoesOn tokens.old tokens.new) }
{
    let mut trees = Trees::<'a, Streamed>::new(tokens.allocator());
    parse_definition_or::<S, Trees<'a, Streamed>, ParseFailure>(tokens, &mut trees)
}

/// `Definition`, with an error of any type that is made of a parser's.
// A call whose builder names a lifetime and a scalar type can't name the type of the error, which has a lifetime, too.
fn parse_definition_or<S: ScalarValue, B: Builder<S>, F: Drop + From<ParseFailure>>(
    tokens: &mut Cursor<'_, B::Name, B::Feed>,
    builder: &mut B,
) -> Result<B::Definition, F>
    ensures gives { BuildsOr F.from_gives (B.builds_definition builder.old builder.new) result (left tokens.new) (cursor (stated S.reading S.of_bool) definition (left tokens.old)) }
    ensures shorter { OnOk result (length (left tokens.new) < length (left tokens.old)) }
    ensures on { OnOk result (GoesOn tokens.old tokens.new) }
{
    Ok(parse_definition::<S, B>(tokens, builder)?)
}

/// `Definition = SelectionSet
///            | ("query" | "mutation" | "subscription") Name? Variables? Directive* SelectionSet
///            | "fragment" FragmentName "on" Name Directive* SelectionSet`
#[tactic(auto, using(crate::proofs::Names::fragment_is, crate::proofs::Cursors::word_is_no_end), unfolding(graphql_grammar::specs::device::Productions::definition))]
pub fn parse_definition<S: ScalarValue, B: Builder<S>>(
    tokens: &mut Cursor<'_, B::Name, B::Feed>,
    builder: &mut B,
) -> Result<B::Definition, ParseFailure>
    ensures gives { Builds (B.builds_definition builder.old builder.new) result (left tokens.new) (cursor (stated S.reading S.of_bool) definition (left tokens.old)) }
    ensures shorter { OnOk result (length (left tokens.new) < length (left tokens.old)) }
    ensures on { OnOk result (GoesOn tokens.old tokens.new) }
{
    let start = tokens.mark();
    match next_operation(tokens) {
        Some(operation_type) => {
            tokens.advance();
            parse_operation::<S, B>(tokens, builder, operation_type, start)
        }
        None => {
            if next_is_word(tokens, "fragment") {
                tokens.advance();
                parse_fragment::<S, B>(tokens, builder, start)
            } else {
                parse_shorthand::<S, B>(tokens, builder, start)
            }
        }
    }
}

/// The type of the operation that the next token begins, or None. The token is not taken.
#[tactic(auto, using(crate::proofs::Names::query_is, crate::proofs::Names::mutation_is, crate::proofs::Names::subscription_is, crate::proofs::Names::operation_type_is))]
fn next_operation<W: SourceText, M: Feed>(tokens: &Cursor<'_, W, M>) -> Option<OperationType>
    ensures { result ≡ (if passes operation_word (first_of (left tokens.now)) then Some (operation_of (first_of (left tokens.now)).text) else None) }
{
    if next_is_word(tokens, "mutation") {
        Some(OperationType::Mutation)
    } else if next_is_word(tokens, "subscription") {
        Some(OperationType::Subscription)
    } else if next_is_word(tokens, "query") {
        Some(OperationType::Query)
    } else {
        None
    }
}

/// `SelectionSet`, which begins at `start`.
#[tactic(auto, unfolding(graphql_grammar::specs::device::Productions::shorthand))]
fn parse_shorthand<S: ScalarValue, B: Builder<S>>(
    tokens: &mut Cursor<'_, B::Name, B::Feed>,
    builder: &mut B,
    start: SourcePosition,
) -> Result<B::Definition, ParseFailure>
    ensures gives { Builds (B.builds_definition builder.old builder.new) result (left tokens.new) (at_span start (last_end tokens.new) (cursor (stated S.reading S.of_bool) shorthand (left tokens.old))) }
    ensures shorter { OnOk result (length (left tokens.new) < length (left tokens.old)) }
    ensures on { OnOk result (GoesOn tokens.old tokens.new) }
    ensures within { OnOk result (tokens.new.taken < length tokens.new.tokens) }
{
    let part = builder.open_operation(OperationType::Query, &None)?;
    let selection_set = parse_selection_set::<S, B>(tokens, builder)?;
    let span = tokens.span_from(start);
    Ok(builder.operation(
        part,
        OperationType::Query,
        &None,
        None,
        None,
        selection_set,
        span,
    ))
}

/// `Name? Variables? Directive* SelectionSet`, after the word of this type, which begins at `start`.
#[tactic(auto, unfolding(graphql_grammar::specs::device::Productions::operation))]
fn parse_operation<S: ScalarValue, B: Builder<S>>(
    tokens: &mut Cursor<'_, B::Name, B::Feed>,
    builder: &mut B,
    operation_type: OperationType,
    start: SourcePosition,
) -> Result<B::Definition, ParseFailure>
    ensures gives { Builds (B.builds_definition builder.old builder.new) result (left tokens.new) (at_span start (last_end tokens.new) (cursor (stated S.reading S.of_bool) (operation operation_type) (left tokens.old))) }
    ensures shorter { OnOk result (length (left tokens.new) < length (left tokens.old)) }
    ensures on { OnOk result (GoesOn tokens.old tokens.new) }
    ensures within { OnOk result (tokens.new.taken < length tokens.new.tokens) }
{
    let name = parse_optional_name(tokens)?;
    let part = builder.open_operation(operation_type, &name)?;
    let variable_definitions = parse_optional_variables::<S, B>(tokens, builder)?;
    let (directives, selection_set) = parse_inline_parts::<S, B>(tokens, builder)?;
    let span = tokens.span_from(start);
    Ok(builder.operation(
        part,
        operation_type,
        &name,
        variable_definitions,
        directives,
        selection_set,
        span,
    ))
}

/// `Name?`
#[tactic(auto, using(juniper_tokens::proofs::Public::stays))]
fn parse_optional_name<W: SourceText + Drop, M: Feed>(
    tokens: &mut Cursor<'_, W, M>,
) -> OptionParseResult<W>
    ensures gives { Gives (option_map (view_located W.characters)) result (left tokens.new) (cursor no_scalars optional_name (left tokens.old)) }
    ensures not_longer { OnOk result (length (left tokens.new) ≤ length (left tokens.old)) }
    ensures on { OnOk result (GoesOn tokens.old tokens.new) }
{
    if next_is(tokens, Kind::Name) {
        Ok(Some(tokens.expect_name()?))
    } else {
        Ok(None)
    }
}

/// `FragmentName "on" Name Directive* SelectionSet`, after the word `fragment`, which begins at `start`.
#[tactic(auto, unfolding(graphql_grammar::specs::device::Productions::fragment))]
fn parse_fragment<S: ScalarValue, B: Builder<S>>(
    tokens: &mut Cursor<'_, B::Name, B::Feed>,
    builder: &mut B,
    start: SourcePosition,
) -> Result<B::Definition, ParseFailure>
    ensures gives { Builds (B.builds_definition builder.old builder.new) result (left tokens.new) (at_span start (last_end tokens.new) (cursor (stated S.reading S.of_bool) fragment (left tokens.old))) }
    ensures shorter { OnOk result (length (left tokens.new) < length (left tokens.old)) }
    ensures on { OnOk result (GoesOn tokens.old tokens.new) }
    ensures within { OnOk result (tokens.new.taken < length tokens.new.tokens) }
{
    let name = parse_fragment_name(tokens)?;
    let type_condition = parse_type_condition(tokens)?;
    let part = builder.open_fragment(&name, &type_condition)?;
    let (directives, selection_set) = parse_inline_parts::<S, B>(tokens, builder)?;
    let span = tokens.span_from(start);
    Ok(builder.fragment(
        part,
        &name,
        &type_condition,
        directives,
        selection_set,
        span,
    ))
}

/// `FragmentName = a Name other than "on"`
#[tactic(auto, using(crate::proofs::Names::on_is))]
fn parse_fragment_name<W: SourceText + Drop, M: Feed>(
    tokens: &mut Cursor<'_, W, M>,
) -> ParseResult<W>
    ensures gives { Gives (view_located W.characters) result (left tokens.new) (cursor no_scalars fragment_name (left tokens.old)) }
    ensures shorter { OnOk result (length (left tokens.new) < length (left tokens.old)) }
    ensures on { OnOk result (GoesOn tokens.old tokens.new) }
{
    if next_is_word(tokens, "on") {
        tokens.refuse()
    } else {
        tokens.expect_name()
    }
}
