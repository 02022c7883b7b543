//! Definitions of variables (GraphQL specification, October 2021, section 2.10).
ghost use Rattle.std.specs.Prelude.{◌<◌, ◌≤◌, length, OnOk};
ghost use Rattle.graphql_grammar.specs.device.Productions.{default, variable_definition, variables_inner, variables, optional_variables};
ghost use Rattle.juniper_tokens.specs.Taking.{left, GoesOn};
ghost use Rattle.juniper_parser.specs.Building.{BuildsList, BuildsOptional};
ghost use Rattle.juniper_parser.specs.device.Builds.{Builds};
ghost use Rattle.juniper_tree.specs.Scalars.{stated};
ghost use Rattle.juniper_parser.specs.device.Steps.{cursor};

use crate::parser::builder::{Builder, Gather};
use crate::parser::directives::parse_directives;
use crate::parser::lists::many;
use crate::parser::next::{expect, next_is, take_if};
use crate::parser::types::parse_any_type;
use crate::parser::value::parse_value;
use juniper_tokens::{Cursor, Kind, ParseFailure, Spanning};
use juniper_values::ScalarValue;

/// `("=" Value(const))?`
#[tactic(auto, using(juniper_tokens::proofs::Public::goes_further, juniper_tokens::proofs::Public::stays), unfolding(graphql_grammar::specs::device::Productions::default))]
fn parse_default<S: ScalarValue, B: Builder<S>>(
    tokens: &mut Cursor<'_, B::Name, B::Feed>,
    builder: &mut B,
) -> Result<Option<B::Value>, ParseFailure>
    ensures gives { Builds (BuildsOptional B.builds_value builder.old builder.new) result (left tokens.new) (cursor (stated S.reading S.of_bool) default (left tokens.old)) }
    ensures not_longer { OnOk result (length (left tokens.new) ≤ length (left tokens.old)) }
    ensures on { OnOk result (GoesOn tokens.old tokens.new) }
{
    if take_if(tokens, Kind::Equals) {
        Ok(Some(parse_value::<S, B>(tokens, builder, true)?))
    } else {
        Ok(None)
    }
}

/// `"$" Name ":" Type ("=" Value(const))? Directive*`
#[tactic(auto, using(juniper_tokens::proofs::Public::goes_further), unfolding(graphql_grammar::specs::device::Productions::variable_definition))]
fn parse_variable_definition<S: ScalarValue, B: Builder<S>>(
    tokens: &mut Cursor<'_, B::Name, B::Feed>,
    builder: &mut B,
) -> Result<B::VariableDefinition, ParseFailure>
    ensures gives { Builds (B.builds_variable builder.old builder.new) result (left tokens.new) (cursor (stated S.reading S.of_bool) variable_definition (left tokens.old)) }
    ensures shorter { OnOk result (length (left tokens.new) < length (left tokens.old)) }
    ensures on { OnOk result (GoesOn tokens.old tokens.new) }
{
    let start = tokens.mark();
    expect(tokens, Kind::Dollar)?;
    let text = tokens.expect_name()?.item;
    let name = Spanning::new(tokens.span_from(start), text);
    expect(tokens, Kind::Colon)?;
    let var_type = parse_any_type(tokens)?;
    let part = builder.open_variable_definition(&name, &var_type)?;
    let default_value = parse_default::<S, B>(tokens, builder)?;
    let directives = parse_directives::<S, B>(tokens, builder)?;
    Ok(builder.variable_definition(part, &name, var_type, default_value, directives))
}

/// `("$" Name ":" Type ("=" Value(const))? Directive*)+ ")"`
#[tactic(auto, using(juniper_tokens::proofs::Public::goes_further, juniper_tokens::proofs::Public::stays))]
fn parse_variable_list<S: ScalarValue, B: Builder<S>>(
    tokens: &mut Cursor<'_, B::Name, B::Feed>,
    builder: &mut B,
) -> Result<B::VariableList, ParseFailure>
    ensures gives { Builds (BuildsList B.builds_variable B.VariableList.gathered builder.old builder.new) result (left tokens.new) (cursor (stated S.reading S.of_bool) variables_inner (left tokens.old)) }
    ensures shorter { OnOk result (length (left tokens.new) < length (left tokens.old)) }
    ensures on { OnOk result (GoesOn tokens.old tokens.new) }
{
    many!(
        tokens,
        B::VariableList::none(tokens.allocator()),
        parse_variable_definition::<S, B>(tokens, builder),
        Kind::ParenClose
    )
}

/// `Variables = "(" ("$" Name ":" Type ("=" Value(const))? Directive*)+ ")"`
#[inline(never)]
#[tactic(auto, using(juniper_tokens::proofs::Public::goes_further, juniper_tokens::proofs::Public::some_taken), unfolding(graphql_grammar::specs::device::Productions::variables))]
fn parse_variables<S: ScalarValue, B: Builder<S>>(
    tokens: &mut Cursor<'_, B::Name, B::Feed>,
    builder: &mut B,
) -> Result<B::Variables, ParseFailure>
    ensures gives { Builds (B.builds_variables builder.old builder.new) result (left tokens.new) (cursor (stated S.reading S.of_bool) variables (left tokens.old)) }
    ensures shorter { OnOk result (length (left tokens.new) < length (left tokens.old)) }
    ensures on { OnOk result (GoesOn tokens.old tokens.new) }
{
    let start = tokens.mark();
    expect(tokens, Kind::ParenOpen)?;
    let part = builder.open_variables()?;
    let items = parse_variable_list::<S, B>(tokens, builder)?;
    Ok(builder.variables(part, items, tokens.span_from(start)))
}

/// `Variables?`
#[tactic(auto, using(juniper_tokens::proofs::Public::stays), unfolding(graphql_grammar::specs::device::Productions::optional_variables))]
pub(crate) fn parse_optional_variables<S: ScalarValue, B: Builder<S>>(
    tokens: &mut Cursor<'_, B::Name, B::Feed>,
    builder: &mut B,
) -> Result<Option<B::Variables>, ParseFailure>
    ensures gives { Builds (BuildsOptional B.builds_variables builder.old builder.new) result (left tokens.new) (cursor (stated S.reading S.of_bool) optional_variables (left tokens.old)) }
    ensures not_longer { OnOk result (length (left tokens.new) ≤ length (left tokens.old)) }
    ensures on { OnOk result (GoesOn tokens.old tokens.new) }
{
    if next_is(tokens, Kind::ParenOpen) {
        Ok(Some(parse_variables::<S, B>(tokens, builder)?))
    } else {
        Ok(None)
    }
}
