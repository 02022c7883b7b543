//! Value literals (GraphQL specification, October 2021, section 2.9).
ghost use Rattle.std.specs.Prelude.{◌≡◌, ◌<◌, length, false, MatchOption, OnOk, IfOk, not};
ghost use Rattle.graphql_lexical.specs.declared.kind.Kind.TheVariants.{BracketOpen, BracketClose, CurlyOpen, CurlyClose, Dollar, Name};
ghost use Rattle.graphql_grammar.specs.device.Reading.{of, symbol, a_value, passes, scalar_token, wants, gives};
ghost use Rattle.graphql_grammar.specs.device.Productions.{by_name, list, key_and_value, object, variable};
ghost use Rattle.juniper_tokens.specs.Spans.{view_span};
ghost use Rattle.juniper_tokens.specs.Cursor.{EndsOnce, Gives, OnMemory, first_of};
ghost use Rattle.juniper_tokens.specs.Delimited.{IsRest};
ghost use Rattle.juniper_tokens.specs.Taking.{left, GoesOn};
ghost use Rattle.juniper_parser.specs.Promise.{ReturnsValue};
ghost use Rattle.juniper_parser.specs.Building.{BuildsEach};
ghost use Rattle.juniper_parser.specs.device.Builds.{Builds, BuildsClosed, BuildsOr};
ghost use Rattle.juniper_tree.specs.View.{view_value};
ghost use Rattle.juniper_parser.specs.device.Steps.{cursor, value_read, scalar_read, closed_read, IsScalarAt};
ghost use Rattle.juniper_tree.specs.Scalars.{stated};

use crate::parser::builder::{Builder, Gather};
use crate::parser::lists::any;
use crate::parser::next::expect;
use crate::parser::trees::Trees;
use juniper_tokens::text::same_text;
use juniper_tokens::{
    Cursor, Feed, Kind, Listed, ParseFailure, ParseResult, Parser, ScalarToken, SourceText,
    Spanning,
};
use juniper_values::{InputValue, ScalarValue};
use std::alloc::AllocError;

/// Parses the prefix of the tokens that is a value; a constant one has no variables (GraphQL specification, October
/// 2021, section 2.9).
///
/// Succeeds exactly if some prefix is a value. Otherwise fails at the first token that can't continue one, which is
/// taken, unless it is the end. If memory runs out, a suffix of the tokens is left. Takes stack in proportion to the
/// value's nesting.
///
/// ```
/// let mut lexer = Lexer::new(alloc, "{a: [1, $n]}");
/// let mut parser = Parser::new(&mut lexer)?;
/// let value = parse_value_literal::<DefaultScalarValue>(&mut parser, false)?;
/// ```
pub fn parse_value_literal<'a, S: ScalarValue>(
    parser: &mut Parser<'a>,
    is_const: bool,
) -> ParseResult<InputValue<S>>
    ensures answers { ReturnsValue (stated S.reading S.of_bool) (not is_const) (view_value S.content) result parser.old parser.new }
    ensures memory { OnMemory result (IsRest parser.old parser.new) }
{
    let mut tokens = parser.cursor();
    let result = parse_value_tree(&mut tokens, is_const);
    let left = tokens.count();
    parser.take_until(left);
    result
}

/// `Value(c)`, as juniper's tree.
fn parse_value_tree<'a, S: ScalarValue>(
    tokens: &mut Cursor<'_, &'a str>,
    is_const: bool,
) -> ParseResult<InputValue<S>>
    ensures gives { Gives (view_value S.content) result (left tokens.new) (value_read (stated S.reading S.of_bool) (not is_const) (left tokens.old)) }
    ensures ended { EndsOnce (left tokens.old) }
    ensures shorter { OnOk result (length (left tokens.new) < length (left tokens.old)) }
    ensures on { GoesOn tokens.old tokens.new }
{
    let mut trees = Trees::<'a, Listed>::new(tokens.allocator());
    parse_value_or::<S, Trees<'a, Listed>, ParseFailure>(tokens, &mut trees, is_const)
}

/// `Value(c)`, with an error of any type that is made of a parser's.
// A call whose builder names a lifetime and a scalar type can't name the type of the error, which has a lifetime, too.
fn parse_value_or<S: ScalarValue, B: Builder<S>, F: Drop + From<ParseFailure>>(
    tokens: &mut Cursor<'_, B::Name, B::Feed>,
    builder: &mut B,
    is_const: bool,
) -> Result<B::Value, F>
    ensures gives { BuildsOr F.from_gives (B.builds_value builder.old builder.new) result (left tokens.new) (value_read (stated S.reading S.of_bool) (not is_const) (left tokens.old)) }
    ensures ended { EndsOnce (left tokens.old) }
    ensures shorter { OnOk result (length (left tokens.new) < length (left tokens.old)) }
    ensures on { GoesOn tokens.old tokens.new }
{
    Ok(parse_value::<S, B>(tokens, builder, is_const)?)
}

/// Builds the prefix of the tokens that is a value, and takes it (GraphQL specification, October 2021, section 2.9):
/// `Value(c) = a scalar token that the scalar type reads | Name | "$" Name where c is free
///           | "[" Value(c)* "]" | "{" (Name ":" Value(c))* "}"`
///
/// The value is constant, and has no variables, if `is_const`. Fails as `parse_value_literal` does, and leaves the same
/// tokens. After an error some parts may have been built.
#[cycle(value)]
#[tactic(auto, using(crate::proofs::Readings::value_is), unfolding(graphql_grammar::specs::device::Productions::value))]
pub fn parse_value<S: ScalarValue, B: Builder<S>>(
    tokens: &mut Cursor<'_, B::Name, B::Feed>,
    builder: &mut B,
    is_const: bool,
) -> Result<B::Value, ParseFailure>
    ensures gives { Builds (B.builds_value builder.old builder.new) result (left tokens.new) (value_read (stated S.reading S.of_bool) (not is_const) (left tokens.old)) }
    ensures ended { EndsOnce (left tokens.old) }
    ensures shorter { OnOk result (length (left tokens.new) < length (left tokens.old)) }
    ensures on { GoesOn tokens.old tokens.new }
{
    match tokens.kind() {
        Kind::BracketOpen => parse_list::<S, B>(tokens, builder, is_const),
        Kind::CurlyOpen => parse_object::<S, B>(tokens, builder, is_const),
        Kind::Dollar if !is_const => parse_variable::<S, B>(tokens, builder),
        Kind::Name => parse_named_value::<S, B>(tokens, builder),
        // a scalar token, or one that begins no value and is refused
        _ => parse_scalar::<S, B>(tokens, builder),
    }
}

/// `"[" Value(c)* "]"`
#[cycle(value)]
#[tactic(auto, using(juniper_tokens::proofs::Public::goes_further), unfolding(graphql_grammar::specs::device::Productions::list))]
fn parse_list<S: ScalarValue, B: Builder<S>>(
    tokens: &mut Cursor<'_, B::Name, B::Feed>,
    builder: &mut B,
    is_const: bool,
) -> Result<B::Value, ParseFailure>
    ensures gives { Builds (B.builds_value builder.old builder.new) result (left tokens.new) (cursor (stated S.reading S.of_bool) (wants (of BracketOpen) (λ o. list (not is_const) o.span)) (left tokens.old)) }
    ensures shorter { OnOk result (length (left tokens.new) < length (left tokens.old)) }
    ensures on { GoesOn tokens.old tokens.new }
{
    let start = tokens.mark();
    expect(tokens, Kind::BracketOpen)?;
    let part = builder.open_list()?;
    let items = parse_items::<S, B>(tokens, builder, is_const)?;
    Ok(builder.list(part, items, tokens.span_from(start)))
}

/// `Value(c)* "]"`
#[cycle(value)]
#[tactic(auto, using(juniper_tokens::proofs::Public::goes_further))]
fn parse_items<S: ScalarValue, B: Builder<S>>(
    tokens: &mut Cursor<'_, B::Name, B::Feed>,
    builder: &mut B,
    is_const: bool,
) -> Result<B::Items, ParseFailure>
    ensures gives { BuildsClosed (λ items. BuildsEach B.builds_value builder.old builder.new (B.Items.gathered items)) result tokens.new (closed_read (stated S.reading S.of_bool) (of BracketClose) (symbol (a_value (not is_const))) (left tokens.old)) }
    ensures shorter { OnOk result (length (left tokens.new) < length (left tokens.old)) }
    ensures on { GoesOn tokens.old tokens.new }
{
    any!(
        tokens,
        B::Items::none(tokens.allocator()),
        parse_value::<S, B>(tokens, builder, is_const),
        Kind::BracketClose
    )
}

/// `"{" (Name ":" Value(c))* "}"`
#[cycle(value)]
#[tactic(auto, using(juniper_tokens::proofs::Public::goes_further), unfolding(graphql_grammar::specs::device::Productions::object))]
fn parse_object<S: ScalarValue, B: Builder<S>>(
    tokens: &mut Cursor<'_, B::Name, B::Feed>,
    builder: &mut B,
    is_const: bool,
) -> Result<B::Value, ParseFailure>
    ensures gives { Builds (B.builds_value builder.old builder.new) result (left tokens.new) (cursor (stated S.reading S.of_bool) (wants (of CurlyOpen) (λ o. object (not is_const) o.span)) (left tokens.old)) }
    ensures shorter { OnOk result (length (left tokens.new) < length (left tokens.old)) }
    ensures on { GoesOn tokens.old tokens.new }
{
    let start = tokens.mark();
    expect(tokens, Kind::CurlyOpen)?;
    let part = builder.open_object()?;
    let fields = parse_fields::<S, B>(tokens, builder, is_const)?;
    Ok(builder.object(part, fields, tokens.span_from(start)))
}

/// `(Name ":" Value(c))* "}"`
#[cycle(value)]
#[tactic(auto, using(juniper_tokens::proofs::Public::goes_further))]
fn parse_fields<S: ScalarValue, B: Builder<S>>(
    tokens: &mut Cursor<'_, B::Name, B::Feed>,
    builder: &mut B,
    is_const: bool,
) -> Result<B::Fields, ParseFailure>
    ensures gives { BuildsClosed (λ fields. BuildsEach B.builds_field builder.old builder.new (B.Fields.gathered fields)) result tokens.new (closed_read (stated S.reading S.of_bool) (of CurlyClose) (key_and_value (not is_const)) (left tokens.old)) }
    ensures shorter { OnOk result (length (left tokens.new) < length (left tokens.old)) }
    ensures on { GoesOn tokens.old tokens.new }
{
    any!(
        tokens,
        B::Fields::none(tokens.allocator()),
        parse_object_field::<S, B>(tokens, builder, is_const),
        Kind::CurlyClose
    )
}

/// `Name ":" Value(c)`
#[cycle(value)]
#[tactic(auto, using(juniper_tokens::proofs::Public::goes_further), unfolding(graphql_grammar::specs::device::Productions::key_and_value))]
fn parse_object_field<S: ScalarValue, B: Builder<S>>(
    tokens: &mut Cursor<'_, B::Name, B::Feed>,
    builder: &mut B,
    is_const: bool,
) -> Result<B::ObjectField, ParseFailure>
    ensures gives { Builds (B.builds_field builder.old builder.new) result (left tokens.new) (cursor (stated S.reading S.of_bool) (key_and_value (not is_const)) (left tokens.old)) }
    ensures shorter { OnOk result (length (left tokens.new) < length (left tokens.old)) }
    ensures on { GoesOn tokens.old tokens.new }
{
    let key = tokens.expect_name()?;
    expect(tokens, Kind::Colon)?;
    let part = builder.open_object_field(&key)?;
    let value = parse_value::<S, B>(tokens, builder, is_const)?;
    Ok(builder.object_field(part, &key, value)?)
}

/// `"$" Name`
#[tactic(auto, unfolding(graphql_grammar::specs::device::Productions::variable))]
fn parse_variable<S: ScalarValue, B: Builder<S>>(
    tokens: &mut Cursor<'_, B::Name, B::Feed>,
    builder: &mut B,
) -> Result<B::Value, ParseFailure>
    ensures gives { Builds (B.builds_value builder.old builder.new) result (left tokens.new) (cursor (stated S.reading S.of_bool) (wants (of Dollar) (λ d. variable d.span)) (left tokens.old)) }
    ensures shorter { OnOk result (length (left tokens.new) < length (left tokens.old)) }
    ensures on { GoesOn tokens.old tokens.new }
{
    let start = tokens.mark();
    expect(tokens, Kind::Dollar)?;
    let name = tokens.expect_name()?;
    Ok(builder.variable(name.item, tokens.span_from(start))?)
}

/// A scalar token. Another token is refused.
#[tactic(auto, unfolding(crate::specs::device::Steps::scalar_read))]
fn parse_scalar<S: ScalarValue, B: Builder<S>>(
    tokens: &mut Cursor<'_, B::Name, B::Feed>,
    builder: &mut B,
) -> Result<B::Value, ParseFailure>
    ensures gives { Builds (B.builds_value builder.old builder.new) result (left tokens.new) (scalar_read (stated S.reading S.of_bool) (left tokens.old)) }
    ensures shorter { OnOk result (length (left tokens.new) < length (left tokens.old)) }
    ensures on { GoesOn tokens.old tokens.new }
{
    let Some(token) = next_scalar(tokens) else {
        return tokens.refuse();
    };
    let built = builder.scalar_token(tokens.allocator(), token, tokens.span());
    tokens.advance();
    built
}

/// The next token, if it is a scalar one. It is not taken.
#[inline(always)]
fn next_scalar<'t, W: SourceText, M: Feed>(tokens: &'t Cursor<'_, W, M>) -> Option<ScalarToken<'t>>
    ensures is { MatchOption result (passes scalar_token (first_of (left tokens.now)) ≡ false) (IsScalarAt (first_of (left tokens.now))) }
    ensures ended { EndsOnce (left tokens.now) }
{
    match tokens.kind() {
        Kind::String => Some(ScalarToken::String(tokens.text())),
        Kind::BlockString => Some(ScalarToken::BlockString(tokens.text())),
        Kind::Float => Some(ScalarToken::Float(tokens.text())),
        Kind::Int => Some(ScalarToken::Int(tokens.text())),
        _ => None,
    }
}

/// A Name: `true` and `false` are scalars, `null` is null, any other name is an enum value.
fn parse_named_value<S: ScalarValue, B: Builder<S>>(
    tokens: &mut Cursor<'_, B::Name, B::Feed>,
    builder: &mut B,
) -> Result<B::Value, ParseFailure>
    ensures gives { Builds (B.builds_value builder.old builder.new) result (left tokens.new) (cursor (stated S.reading S.of_bool) (wants (of Name) (λ t. gives (record { item = by_name (stated S.reading S.of_bool) t.text; span = t.span }))) (left tokens.old)) }
    ensures shorter { OnOk result (length (left tokens.new) < length (left tokens.old)) }
    ensures on { GoesOn tokens.old tokens.new }
{
    let name = tokens.expect_name()?;
    Ok(value_of_name::<S, B>(builder, name)?)
}

/// `true` and `false` are scalars, `null` is null, any other name is an enum value.
fn value_of_name<S: ScalarValue, B: Builder<S>>(
    builder: &mut B,
    name: Spanning<B::Name>,
) -> Result<B::Value, AllocError>
    ensures { IfOk result (λ v. B.builds_value builder.old builder.new v (record { item = by_name (stated S.reading S.of_bool) (B.Name.characters name.item); span = view_span name.span })) }
{
    let text = name.item.as_str();
    if same_text(text, "true") {
        builder.scalar(S::from_bool(true), name.span)
    } else if same_text(text, "false") {
        builder.scalar(S::from_bool(false), name.span)
    } else if same_text(text, "null") {
        builder.null(name.span)
    } else {
        builder.enum_value(name.item, name.span)
    }
}
