//! Types as they are written (GraphQL specification, October 2021, section 2.11).
ghost use Rattle.std.specs.Prelude.{◌<◌, ◌≤◌, length, OnOk};
ghost use Rattle.graphql_grammar.specs.device.Productions.{named_type, list_type, nullable_type, non_null};
ghost use Rattle.juniper_tokens.specs.Cursor.{EndsOnce, Gives, OnMemory};
ghost use Rattle.juniper_tokens.specs.Delimited.{IsRest};
ghost use Rattle.juniper_tokens.specs.Taking.{left, GoesOn};
ghost use Rattle.juniper_parser.specs.Promise.{ReturnsType};
ghost use Rattle.juniper_tree.specs.View.{type_of, view_located, view_spanned_type};
ghost use Rattle.juniper_parser.specs.device.Steps.{no_scalars, cursor, type_read};

use crate::parser::next::{expect, next_is, take_if};
use juniper_tokens::{Cursor, Feed, Kind, ParseFailure, ParseResult, Parser, SourceText, Spanning};
use juniper_values::{NameText, Type};

/// Parses the longest prefix of the tokens that is a type (GraphQL specification, October 2021, section 2.11).
///
/// Succeeds exactly if some prefix is a type. Otherwise fails at the first token that can't continue one, which is
/// taken, unless it is the end. If memory runs out, a suffix of the tokens is left. Takes stack in proportion to the
/// type's nesting.
///
/// ```
/// // of `[ID!] = 1`: the type is `[ID!]`, and `=` stands next
/// let of_type = parse_type(&mut parser)?;
/// ```
pub fn parse_type<'a>(parser: &mut Parser<'a>) -> ParseResult<Type<&'a str>>
    ensures answers { ReturnsType view_spanned_type result parser.old parser.new }
    ensures memory { OnMemory result (IsRest parser.old parser.new) }
{
    let mut tokens = parser.cursor();
    let result = parse_any_type(&mut tokens);
    let left = tokens.count();
    parser.take_until(left);
    result
}

/// Parses the longest prefix of the tokens that is a type, and takes it (GraphQL specification, October 2021, section
/// 2.11): `Type = Name "!"? | "[" Type "]" "!"?`
///
/// Fails as `parse_type` does, and leaves the same tokens.
#[cycle(types)]
#[tactic(auto, using(juniper_tokens::proofs::Public::goes_further))]
pub fn parse_any_type<W: SourceText + NameText + Drop, M: Feed>(
    tokens: &mut Cursor<'_, W, M>,
) -> ParseResult<Type<W>>
    ensures gives { Gives (view_located (type_of W.characters)) result (left tokens.new) (type_read (left tokens.old)) }
    ensures ended { EndsOnce (left tokens.old) }
    ensures shorter { OnOk result (length (left tokens.new) < length (left tokens.old)) }
    ensures on { GoesOn tokens.old tokens.new }
{
    let inner = parse_nullable_type(tokens)?;
    parse_non_null(tokens, inner)
}

/// `Name | "[" Type "]"`
#[cycle(types)]
#[tactic(auto, unfolding(graphql_grammar::specs::device::Productions::nullable_type))]
fn parse_nullable_type<W: SourceText + NameText + Drop, M: Feed>(
    tokens: &mut Cursor<'_, W, M>,
) -> ParseResult<Type<W>>
    ensures gives { Gives (view_located (type_of W.characters)) result (left tokens.new) (cursor no_scalars nullable_type (left tokens.old)) }
    ensures ended { EndsOnce (left tokens.old) }
    ensures shorter { OnOk result (length (left tokens.new) < length (left tokens.old)) }
    ensures on { GoesOn tokens.old tokens.new }
{
    if next_is(tokens, Kind::Name) {
        parse_named_type(tokens)
    } else {
        parse_list_type(tokens)
    }
}

/// `Name`
#[tactic(auto, unfolding(graphql_grammar::specs::device::Productions::named_type))]
fn parse_named_type<W: SourceText + NameText + Drop, M: Feed>(
    tokens: &mut Cursor<'_, W, M>,
) -> ParseResult<Type<W>>
    ensures gives { Gives (view_located (type_of W.characters)) result (left tokens.new) (cursor no_scalars named_type (left tokens.old)) }
    ensures shorter { OnOk result (length (left tokens.new) < length (left tokens.old)) }
    ensures on { GoesOn tokens.old tokens.new }
{
    let name = tokens.expect_name()?;
    Ok(Spanning::new(name.span, Type::nullable(name.item)))
}

/// `"[" Type "]"`
#[cycle(types)]
#[tactic(auto, using(juniper_tokens::proofs::Public::goes_further, crate::proofs::Wrapping::wrapped_list), unfolding(graphql_grammar::specs::device::Productions::list_type))]
fn parse_list_type<W: SourceText + NameText + Drop, M: Feed>(
    tokens: &mut Cursor<'_, W, M>,
) -> ParseResult<Type<W>>
    ensures gives { Gives (view_located (type_of W.characters)) result (left tokens.new) (cursor no_scalars list_type (left tokens.old)) }
    ensures shorter { OnOk result (length (left tokens.new) < length (left tokens.old)) }
    ensures on { GoesOn tokens.old tokens.new }
{
    let start = tokens.mark();
    expect(tokens, Kind::BracketOpen)?;
    let inner = parse_any_type(tokens)?;
    expect(tokens, Kind::BracketClose)?;
    match inner.item.wrap_list(tokens.allocator(), None) {
        Ok(list) => Ok(Spanning::new(tokens.span_from(start), list)),
        Err(_) => Err(ParseFailure::Memory),
    }
}

/// `"!"?`, after this type.
#[tactic(auto, using(crate::proofs::Wrapping::wrapped_non_null), unfolding(graphql_grammar::specs::device::Productions::non_null))]
fn parse_non_null<W: SourceText + NameText + Drop, M: Feed>(
    tokens: &mut Cursor<'_, W, M>,
    inner: Spanning<Type<W>>,
) -> ParseResult<Type<W>>
    ensures gives { Gives (view_located (type_of W.characters)) result (left tokens.new) (cursor no_scalars (non_null (view_located (type_of W.characters) inner)) (left tokens.old)) }
    ensures not_longer { OnOk result (length (left tokens.new) ≤ length (left tokens.old)) }
    ensures on { GoesOn tokens.old tokens.new }
{
    if !take_if(tokens, Kind::ExclamationMark) {
        return Ok(inner);
    }
    let start = inner.span.start;
    match inner.item.wrap_non_null(tokens.allocator()) {
        Ok(of_type) => Ok(Spanning::new(tokens.span_from(start), of_type)),
        Err(_) => Err(ParseFailure::Memory),
    }
}
