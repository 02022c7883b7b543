//! Arguments and directives (GraphQL specification, October 2021, sections 2.6 and 2.12).
ghost use Rattle.std.specs.Prelude.{◌≡◌, ◌<◌, ◌≤◌, true, length, Some, OnOk};
ghost use Rattle.graphql_grammar.specs.device.Reading.{part, gives};
ghost use Rattle.graphql_lexical.specs.Kinds.{same_kind};
ghost use Rattle.graphql_lexical.specs.declared.kind.Kind.TheVariants.{At};
ghost use Rattle.graphql_grammar.specs.device.Productions.{argument, arguments_inner, arguments, optional_arguments, directive, directives};
ghost use Rattle.juniper_tokens.specs.Cursor.{EndsOnce, kind_at};
ghost use Rattle.juniper_tokens.specs.Taking.{left, GoesOn};
ghost use Rattle.juniper_parser.specs.Building.{BuildsList, BuildsOptional};
ghost use Rattle.juniper_parser.specs.device.Builds.{Builds};
ghost use Rattle.juniper_tree.specs.Scalars.{stated};
ghost use Rattle.juniper_parser.specs.device.Steps.{cursor};

use crate::parser::builder::{Builder, Gather};
use crate::parser::lists::{expected_items, many};
use crate::parser::next::{expect, next_is};
use crate::parser::value::parse_value;
use juniper_tokens::{Cursor, Kind, ParseFailure};
use juniper_values::ScalarValue;

/// `Name ":" Value(free)`
#[tactic(auto, using(juniper_tokens::proofs::Public::goes_further), unfolding(graphql_grammar::specs::device::Productions::argument))]
fn parse_argument<S: ScalarValue, B: Builder<S>>(
    tokens: &mut Cursor<'_, B::Name, B::Feed>,
    builder: &mut B,
) -> Result<B::Argument, ParseFailure>
    ensures gives { Builds (B.builds_argument builder.old builder.new) result (left tokens.new) (cursor (stated S.reading S.of_bool) argument (left tokens.old)) }
    ensures shorter { OnOk result (length (left tokens.new) < length (left tokens.old)) }
    ensures on { OnOk result (GoesOn tokens.old tokens.new) }
{
    let name = tokens.expect_name()?;
    expect(tokens, Kind::Colon)?;
    let part = builder.open_argument(&name)?;
    let value = parse_value::<S, B>(tokens, builder, false)?;
    Ok(builder.argument(part, &name, value))
}

/// `(Name ":" Value(free))+ ")"`
#[tactic(auto, using(juniper_tokens::proofs::Public::goes_further, juniper_tokens::proofs::Public::stays))]
fn parse_argument_list<S: ScalarValue, B: Builder<S>>(
    tokens: &mut Cursor<'_, B::Name, B::Feed>,
    builder: &mut B,
) -> Result<B::ArgumentList, ParseFailure>
    ensures gives { Builds (BuildsList B.builds_argument B.ArgumentList.gathered builder.old builder.new) result (left tokens.new) (cursor (stated S.reading S.of_bool) arguments_inner (left tokens.old)) }
    ensures shorter { OnOk result (length (left tokens.new) < length (left tokens.old)) }
    ensures on { OnOk result (GoesOn tokens.old tokens.new) }
{
    many!(
        tokens,
        B::ArgumentList::none(tokens.allocator()),
        parse_argument::<S, B>(tokens, builder),
        Kind::ParenClose
    )
}

/// `Arguments = "(" (Name ":" Value(free))+ ")"`
#[inline(never)]
#[tactic(auto, using(juniper_tokens::proofs::Public::goes_further, juniper_tokens::proofs::Public::some_taken), unfolding(graphql_grammar::specs::device::Productions::arguments))]
fn parse_arguments<S: ScalarValue, B: Builder<S>>(
    tokens: &mut Cursor<'_, B::Name, B::Feed>,
    builder: &mut B,
) -> Result<B::Arguments, ParseFailure>
    ensures gives { Builds (B.builds_arguments builder.old builder.new) result (left tokens.new) (cursor (stated S.reading S.of_bool) arguments (left tokens.old)) }
    ensures shorter { OnOk result (length (left tokens.new) < length (left tokens.old)) }
    ensures on { OnOk result (GoesOn tokens.old tokens.new) }
{
    let start = tokens.mark();
    expect(tokens, Kind::ParenOpen)?;
    let part = builder.open_arguments()?;
    let items = parse_argument_list::<S, B>(tokens, builder)?;
    Ok(builder.arguments(part, items, tokens.span_from(start)))
}

/// `Arguments?`
#[inline(always)]
#[tactic(auto, using(juniper_tokens::proofs::Public::stays), unfolding(graphql_grammar::specs::device::Productions::optional_arguments))]
pub(crate) fn parse_optional_arguments<S: ScalarValue, B: Builder<S>>(
    tokens: &mut Cursor<'_, B::Name, B::Feed>,
    builder: &mut B,
) -> Result<Option<B::Arguments>, ParseFailure>
    ensures gives { Builds (BuildsOptional B.builds_arguments builder.old builder.new) result (left tokens.new) (cursor (stated S.reading S.of_bool) optional_arguments (left tokens.old)) }
    ensures not_longer { OnOk result (length (left tokens.new) ≤ length (left tokens.old)) }
    ensures on { OnOk result (GoesOn tokens.old tokens.new) }
{
    if next_is(tokens, Kind::ParenOpen) {
        parse_some_arguments::<S, B>(tokens, builder)
    } else {
        Ok(None)
    }
}

/// `Arguments`, in a stack slot of its own.
#[inline(always)]
fn parse_some_arguments<S: ScalarValue, B: Builder<S>>(
    tokens: &mut Cursor<'_, B::Name, B::Feed>,
    builder: &mut B,
) -> Result<Option<B::Arguments>, ParseFailure>
    ensures gives { Builds (BuildsOptional B.builds_arguments builder.old builder.new) result (left tokens.new) (cursor (stated S.reading S.of_bool) (part arguments (λ a. gives (Some a))) (left tokens.old)) }
    ensures shorter { OnOk result (length (left tokens.new) < length (left tokens.old)) }
    ensures on { OnOk result (GoesOn tokens.old tokens.new) }
{
    Ok(Some(parse_arguments::<S, B>(tokens, builder)?))
}

/// `Directive = "@" Name Arguments?`
#[tactic(auto, using(juniper_tokens::proofs::Public::goes_further, juniper_tokens::proofs::Public::some_taken, crate::proofs::Cursors::closing_is_no_end), unfolding(graphql_grammar::specs::device::Productions::directive))]
fn parse_directive<S: ScalarValue, B: Builder<S>>(
    tokens: &mut Cursor<'_, B::Name, B::Feed>,
    builder: &mut B,
) -> Result<B::Directive, ParseFailure>
    ensures gives { Builds (B.builds_directive builder.old builder.new) result (left tokens.new) (cursor (stated S.reading S.of_bool) directive (left tokens.old)) }
    ensures shorter { OnOk result (length (left tokens.new) < length (left tokens.old)) }
    ensures on { OnOk result (GoesOn tokens.old tokens.new) }
{
    let start = tokens.mark();
    expect(tokens, Kind::At)?;
    let name = tokens.expect_name()?;
    let part = builder.open_directive(&name)?;
    let arguments = parse_optional_arguments::<S, B>(tokens, builder)?;
    Ok(builder.directive(part, &name, arguments, tokens.span_from(start)))
}

/// `Directive*`. Most parts have none, so that is found without a call.
#[tactic(auto, using(juniper_tokens::proofs::Public::stays))]
#[inline(always)]
pub(crate) fn parse_directives<S: ScalarValue, B: Builder<S>>(
    tokens: &mut Cursor<'_, B::Name, B::Feed>,
    builder: &mut B,
) -> Result<Option<B::Directives>, ParseFailure>
    ensures gives { Builds (BuildsOptional (BuildsList B.builds_directive B.Directives.gathered) builder.old builder.new) result (left tokens.new) (cursor (stated S.reading S.of_bool) directives (left tokens.old)) }
    ensures not_longer { OnOk result (length (left tokens.new) ≤ length (left tokens.old)) }
    ensures on { OnOk result (GoesOn tokens.old tokens.new) }
{
    if next_is(tokens, Kind::At) {
        parse_some_directives::<S, B>(tokens, builder)
    } else {
        Ok(None)
    }
}

/// `Directive+`, in a stack slot of its own.
#[inline(always)]
fn parse_some_directives<S: ScalarValue, B: Builder<S>>(
    tokens: &mut Cursor<'_, B::Name, B::Feed>,
    builder: &mut B,
) -> Result<Option<B::Directives>, ParseFailure>
    requires at { same_kind (kind_at (left tokens.old)) At ≡ true }
    requires ended { EndsOnce (left tokens.old) }
    ensures gives { Builds (BuildsOptional (BuildsList B.builds_directive B.Directives.gathered) builder.old builder.new) result (left tokens.new) (cursor (stated S.reading S.of_bool) directives (left tokens.old)) }
    ensures shorter { OnOk result (length (left tokens.new) < length (left tokens.old)) }
    ensures on { OnOk result (GoesOn tokens.old tokens.new) }
{
    parse_directive_list::<S, B>(tokens, builder)
}

/// `Directive+`
#[tactic(auto, using(juniper_tokens::proofs::Public::goes_further, juniper_tokens::proofs::Public::stays))]
#[inline(never)]
fn parse_directive_list<S: ScalarValue, B: Builder<S>>(
    tokens: &mut Cursor<'_, B::Name, B::Feed>,
    builder: &mut B,
) -> Result<Option<B::Directives>, ParseFailure>
    requires at { same_kind (kind_at (left tokens.old)) At ≡ true }
    requires ended { EndsOnce (left tokens.old) }
    ensures gives { Builds (BuildsOptional (BuildsList B.builds_directive B.Directives.gathered) builder.old builder.new) result (left tokens.new) (cursor (stated S.reading S.of_bool) directives (left tokens.old)) }
    ensures shorter { OnOk result (length (left tokens.new) < length (left tokens.old)) }
    ensures on { OnOk result (GoesOn tokens.old tokens.new) }
{
    let mut items = B::Directives::none(tokens.allocator());
    loop {
        let directive = parse_directive::<S, B>(tokens, builder)?;
        let has_more = next_is(tokens, Kind::At);
        items.gather(directive, expected_items(!has_more))?;
        if !has_more {
            return Ok(Some(items));
        }
    }
}
