//! Selection sets, fields and fragments (GraphQL specification, October 2021, sections 2.4, 2.5 and 2.8).
ghost use Rattle.std.specs.Prelude.{◌≡◌, ◌<◌, ◌≤◌, length, option_map, Some, OnOk};
ghost use Rattle.graphql_grammar.specs.device.Reading.{of, passes, wants, part, gives};
ghost use Rattle.graphql_lexical.specs.declared.kind.Kind.TheVariants.{Name};
ghost use Rattle.graphql_grammar.specs.Tokens.{word_of};
ghost use Rattle.graphql_grammar.specs.device.Productions.{selections_inner, selection_set, optional_set, names, field, named_spread, inline_parts, type_condition, spread, other_than_on};
ghost use Rattle.juniper_tokens.specs.Cursor.{EndsOnce, Gives, first_of};
ghost use Rattle.juniper_tokens.specs.Taking.{left, last_end, GoesOn};
ghost use Rattle.juniper_parser.specs.Building.{BuildsList, BuildsOptional, BuildsSet};
ghost use Rattle.juniper_parser.specs.device.Builds.{Builds, BuildsBoth};
ghost use Rattle.juniper_tree.specs.Scalars.{stated};
ghost use Rattle.juniper_tree.specs.View.{view_located};
ghost use Rattle.juniper_parser.specs.device.Steps.{no_scalars, cursor, at_span, selection_read, optional_condition, any_inline};
ghost use Rattle.juniper_parser.specs.device.PartViews.{names_of};

use crate::parser::builder::{Builder, Gather};
use crate::parser::directives::{parse_directives, parse_optional_arguments};
use crate::parser::lists::many;
use crate::parser::next::{expect, next_is, next_is_word, take_if};
use juniper_tokens::text::same_text;
use juniper_tokens::{
    Cursor, Feed, Kind, OptionParseResult, ParseFailure, ParseResult, SourcePosition, SourceText,
    Spanning,
};
use juniper_values::ScalarValue;

// What is left of a document is short if it has fewer tokens.
const MANY_TOKENS: usize = 128;

/// `SelectionSet = "{" Selection+ "}"`
#[cycle(selection)]
#[inline(never)]
#[tactic(auto, using(juniper_tokens::proofs::Public::goes_further), unfolding(graphql_grammar::specs::device::Productions::selection_set))]
pub(crate) fn parse_selection_set<S: ScalarValue, B: Builder<S>>(
    tokens: &mut Cursor<'_, B::Name, B::Feed>,
    builder: &mut B,
) -> Result<B::Selections, ParseFailure>
    ensures gives { Builds (BuildsSet B.builds_selection B.Selections.gathered builder.old builder.new) result (left tokens.new) (cursor (stated S.reading S.of_bool) selection_set (left tokens.old)) }
    ensures shorter { OnOk result (length (left tokens.new) < length (left tokens.old)) }
    ensures on { OnOk result (GoesOn tokens.old tokens.new) }
{
    expect(tokens, Kind::CurlyOpen)?;
    parse_selection_list::<S, B>(tokens, builder)
}

/// `Selection+ "}"`
#[cycle(selection)]
#[tactic(auto, using(juniper_tokens::proofs::Public::goes_further, juniper_tokens::proofs::Public::stays))]
fn parse_selection_list<S: ScalarValue, B: Builder<S>>(
    tokens: &mut Cursor<'_, B::Name, B::Feed>,
    builder: &mut B,
) -> Result<B::Selections, ParseFailure>
    ensures gives { Builds (BuildsList B.builds_selection B.Selections.gathered builder.old builder.new) result (left tokens.new) (cursor (stated S.reading S.of_bool) selections_inner (left tokens.old)) }
    ensures shorter { OnOk result (length (left tokens.new) < length (left tokens.old)) }
    ensures on { OnOk result (GoesOn tokens.old tokens.new) }
{
    many!(
        tokens,
        B::Selections::none(tokens.allocator()),
        parse_selection::<S, B>(tokens, builder),
        Kind::CurlyClose,
        expected_selections(tokens)
    )
}

/// `SelectionSet?`
#[cycle(selection)]
#[inline(always)]
#[tactic(auto, using(juniper_tokens::proofs::Public::stays), unfolding(graphql_grammar::specs::device::Productions::optional_set))]
fn parse_optional_selection_set<S: ScalarValue, B: Builder<S>>(
    tokens: &mut Cursor<'_, B::Name, B::Feed>,
    builder: &mut B,
) -> Result<Option<B::Selections>, ParseFailure>
    ensures gives { Builds (BuildsOptional (BuildsSet B.builds_selection B.Selections.gathered) builder.old builder.new) result (left tokens.new) (cursor (stated S.reading S.of_bool) optional_set (left tokens.old)) }
    ensures not_longer { OnOk result (length (left tokens.new) ≤ length (left tokens.old)) }
    ensures on { OnOk result (GoesOn tokens.old tokens.new) }
{
    if next_is(tokens, Kind::CurlyOpen) {
        parse_some_selection_set::<S, B>(tokens, builder)
    } else {
        Ok(None)
    }
}

/// `SelectionSet`, in a stack slot of its own.
#[cycle(selection)]
#[inline(always)]
fn parse_some_selection_set<S: ScalarValue, B: Builder<S>>(
    tokens: &mut Cursor<'_, B::Name, B::Feed>,
    builder: &mut B,
) -> Result<Option<B::Selections>, ParseFailure>
    ensures gives { Builds (BuildsOptional (BuildsSet B.builds_selection B.Selections.gathered) builder.old builder.new) result (left tokens.new) (cursor (stated S.reading S.of_bool) (part selection_set (λ s. gives (Some s))) (left tokens.old)) }
    ensures shorter { OnOk result (length (left tokens.new) < length (left tokens.old)) }
    ensures on { OnOk result (GoesOn tokens.old tokens.new) }
{
    Ok(Some(parse_selection_set::<S, B>(tokens, builder)?))
}

/// `Selection = Field | "..." FragmentName Directive* | "..." ("on" Name)? Directive* SelectionSet`
#[cycle(selection)]
#[tactic(auto, using(juniper_tokens::proofs::Public::goes_further, crate::proofs::Readings::selection_is), unfolding(graphql_grammar::specs::device::Productions::any_selection))]
fn parse_selection<S: ScalarValue, B: Builder<S>>(
    tokens: &mut Cursor<'_, B::Name, B::Feed>,
    builder: &mut B,
) -> Result<B::Selection, ParseFailure>
    ensures gives { Builds (B.builds_selection builder.old builder.new) result (left tokens.new) (selection_read (stated S.reading S.of_bool) (left tokens.old)) }
    ensures shorter { OnOk result (length (left tokens.new) < length (left tokens.old)) }
    ensures on { OnOk result (GoesOn tokens.old tokens.new) }
{
    if next_is(tokens, Kind::Ellipsis) {
        parse_some_spread::<S, B>(tokens, builder)
    } else {
        parse_field::<S, B>(tokens, builder)
    }
}

/// A spread, in a stack slot of its own.
#[cycle(selection)]
#[inline(always)]
fn parse_some_spread<S: ScalarValue, B: Builder<S>>(
    tokens: &mut Cursor<'_, B::Name, B::Feed>,
    builder: &mut B,
) -> Result<B::Selection, ParseFailure>
    ensures gives { Builds (B.builds_selection builder.old builder.new) result (left tokens.new) (cursor (stated S.reading S.of_bool) spread (left tokens.old)) }
    ensures shorter { OnOk result (length (left tokens.new) < length (left tokens.old)) }
    ensures on { OnOk result (GoesOn tokens.old tokens.new) }
{
    parse_spread::<S, B>(tokens, builder)
}

/// `Field = (Name ":")? Name Arguments? Directive* SelectionSet?`
#[cycle(selection)]
#[tactic(auto, unfolding(graphql_grammar::specs::device::Productions::field))]
fn parse_field<S: ScalarValue, B: Builder<S>>(
    tokens: &mut Cursor<'_, B::Name, B::Feed>,
    builder: &mut B,
) -> Result<B::Selection, ParseFailure>
    ensures gives { Builds (B.builds_selection builder.old builder.new) result (left tokens.new) (cursor (stated S.reading S.of_bool) field (left tokens.old)) }
    ensures shorter { OnOk result (length (left tokens.new) < length (left tokens.old)) }
    ensures on { OnOk result (GoesOn tokens.old tokens.new) }
{
    let start = tokens.mark();
    let (alias, name) = parse_names(tokens)?;
    let part = builder.open_field(&alias, &name)?;
    let arguments = parse_optional_arguments::<S, B>(tokens, builder)?;
    let directives = parse_directives::<S, B>(tokens, builder)?;
    let selection_set = parse_optional_selection_set::<S, B>(tokens, builder)?;
    let span = tokens.span_from(start);
    Ok(builder.field(
        part,
        &alias,
        &name,
        arguments,
        directives,
        selection_set,
        span,
    ))
}

/// The expected length of a set whose first selection has just been read. In a short document a request for less memory
/// is quicker.
#[inline(always)]
fn expected_selections<W: SourceText, M: Feed>(tokens: &Cursor<'_, W, M>) -> usize {
    if next_is(tokens, Kind::CurlyClose) {
        1
    } else if tokens.expected() < MANY_TOKENS {
        3
    } else {
        6
    }
}

/// `(Name ":")? Name`
#[inline(always)]
#[tactic(auto, using(juniper_tokens::proofs::Public::goes_further))]
fn parse_names<W: SourceText + Drop, M: Feed>(
    tokens: &mut Cursor<'_, W, M>,
) -> Result<(Option<Spanning<W>>, Spanning<W>), ParseFailure>
    ensures gives { Gives (names_of W.characters) result (left tokens.new) (cursor no_scalars names (left tokens.old)) }
    ensures shorter { OnOk result (length (left tokens.new) < length (left tokens.old)) }
    ensures on { OnOk result (GoesOn tokens.old tokens.new) }
{
    let first = tokens.expect_name()?;
    if take_if(tokens, Kind::Colon) {
        let name = tokens.expect_name()?;
        Ok((Some(first), name))
    } else {
        Ok((None, first))
    }
}

/// `"..." FragmentName Directive* | "..." ("on" Name)? Directive* SelectionSet`
#[cycle(selection)]
#[tactic(auto, unfolding(graphql_grammar::specs::device::Productions::spread))]
fn parse_spread<S: ScalarValue, B: Builder<S>>(
    tokens: &mut Cursor<'_, B::Name, B::Feed>,
    builder: &mut B,
) -> Result<B::Selection, ParseFailure>
    ensures gives { Builds (B.builds_selection builder.old builder.new) result (left tokens.new) (cursor (stated S.reading S.of_bool) spread (left tokens.old)) }
    ensures shorter { OnOk result (length (left tokens.new) < length (left tokens.old)) }
    ensures on { OnOk result (GoesOn tokens.old tokens.new) }
{
    let start = tokens.mark();
    expect(tokens, Kind::Ellipsis)?;
    if next_is_fragment_name(tokens) {
        parse_named_spread::<S, B>(tokens, builder, start)
    } else {
        parse_inline_fragment::<S, B>(tokens, builder, start)
    }
}

/// Whether the next token is a FragmentName, a Name other than "on". It is not taken.
#[tactic(auto, using(crate::proofs::Names::on_is))]
fn next_is_fragment_name<W: SourceText, M: Feed>(tokens: &Cursor<'_, W, M>) -> bool
    ensures is { result ≡ passes other_than_on (first_of (left tokens.now)) }
    ensures ended { EndsOnce (left tokens.now) }
{
    tokens.kind() == Kind::Name && !same_text(tokens.text(), "on")
}

/// `FragmentName Directive*`, after three dots that begin at `start`. The name is known not to be `on`.
#[tactic(auto, unfolding(graphql_grammar::specs::device::Productions::named_spread))]
fn parse_named_spread<S: ScalarValue, B: Builder<S>>(
    tokens: &mut Cursor<'_, B::Name, B::Feed>,
    builder: &mut B,
    start: SourcePosition,
) -> Result<B::Selection, ParseFailure>
    ensures gives { Builds (B.builds_selection builder.old builder.new) result (left tokens.new) (at_span start (last_end tokens.new) (cursor (stated S.reading S.of_bool) (wants (of Name) (λ t. named_spread (word_of t))) (left tokens.old))) }
    ensures shorter { OnOk result (length (left tokens.new) < length (left tokens.old)) }
    ensures on { OnOk result (GoesOn tokens.old tokens.new) }
    ensures within { OnOk result (tokens.new.taken < length tokens.new.tokens) }
{
    let name = tokens.expect_name()?;
    let part = builder.open_fragment_spread(&name)?;
    let directives = parse_directives::<S, B>(tokens, builder)?;
    Ok(builder.fragment_spread(part, &name, directives, tokens.span_from(start)))
}

/// `("on" Name)? Directive* SelectionSet`, after three dots that begin at `start`.
#[cycle(selection)]
#[tactic(auto, using(juniper_tree::proofs::Public::view_of_inline), unfolding(graphql_grammar::specs::device::Productions::inline))]
fn parse_inline_fragment<S: ScalarValue, B: Builder<S>>(
    tokens: &mut Cursor<'_, B::Name, B::Feed>,
    builder: &mut B,
    start: SourcePosition,
) -> Result<B::Selection, ParseFailure>
    ensures gives { Builds (B.builds_selection builder.old builder.new) result (left tokens.new) (at_span start (last_end tokens.new) (cursor (stated S.reading S.of_bool) any_inline (left tokens.old))) }
    ensures shorter { OnOk result (length (left tokens.new) < length (left tokens.old)) }
    ensures on { OnOk result (GoesOn tokens.old tokens.new) }
    ensures within { OnOk result (tokens.new.taken < length tokens.new.tokens) }
{
    let type_condition = parse_optional_type_condition(tokens)?;
    let part = builder.open_inline_fragment(&type_condition)?;
    let (directives, selection_set) = parse_inline_parts::<S, B>(tokens, builder)?;
    Ok(builder.inline_fragment(
        part,
        &type_condition,
        directives,
        selection_set,
        tokens.span_from(start),
    ))
}

/// `("on" Name)?`
#[tactic(auto, using(crate::proofs::Names::on_is, juniper_tokens::proofs::Public::stays))]
fn parse_optional_type_condition<W: SourceText + Drop, M: Feed>(
    tokens: &mut Cursor<'_, W, M>,
) -> OptionParseResult<W>
    ensures gives { Gives (option_map (view_located W.characters)) result (left tokens.new) (cursor no_scalars optional_condition (left tokens.old)) }
    ensures not_longer { OnOk result (length (left tokens.new) ≤ length (left tokens.old)) }
    ensures on { OnOk result (GoesOn tokens.old tokens.new) }
{
    if next_is_word(tokens, "on") {
        Ok(Some(parse_type_condition(tokens)?))
    } else {
        Ok(None)
    }
}

/// `"on" Name`
#[tactic(auto, using(crate::proofs::Names::on_is, crate::proofs::Cursors::word_is_no_end, juniper_tokens::proofs::Public::goes_further))]
pub(crate) fn parse_type_condition<W: SourceText + Drop, M: Feed>(
    tokens: &mut Cursor<'_, W, M>,
) -> ParseResult<W>
    ensures gives { Gives (view_located W.characters) result (left tokens.new) (cursor no_scalars type_condition (left tokens.old)) }
    ensures shorter { OnOk result (length (left tokens.new) < length (left tokens.old)) }
    ensures on { OnOk result (GoesOn tokens.old tokens.new) }
{
    if next_is_word(tokens, "on") {
        tokens.advance();
        tokens.expect_name()
    } else {
        tokens.refuse()
    }
}

/// `Directive* SelectionSet`
#[cycle(selection)]
#[tactic(auto, using(juniper_tokens::proofs::Public::goes_further), unfolding(graphql_grammar::specs::device::Productions::inline_parts))]
pub(crate) fn parse_inline_parts<S: ScalarValue, B: Builder<S>>(
    tokens: &mut Cursor<'_, B::Name, B::Feed>,
    builder: &mut B,
) -> Result<(Option<B::Directives>, B::Selections), ParseFailure>
    ensures gives { Builds (BuildsBoth (BuildsOptional (BuildsList B.builds_directive B.Directives.gathered)) (BuildsSet B.builds_selection B.Selections.gathered) builder.old builder.new) result (left tokens.new) (cursor (stated S.reading S.of_bool) inline_parts (left tokens.old)) }
    ensures shorter { OnOk result (length (left tokens.new) < length (left tokens.old)) }
    ensures on { OnOk result (GoesOn tokens.old tokens.new) }
{
    let directives = parse_directives::<S, B>(tokens, builder)?;
    let selection_set = parse_selection_set::<S, B>(tokens, builder)?;
    Ok((directives, selection_set))
}
