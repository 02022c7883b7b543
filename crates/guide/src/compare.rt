//! Literals, compared regardless of their places.
ghost use Rattle.std.specs.Prelude.{IfOk};
ghost use Rattle.std.specs.Str.{chars};
ghost use Rattle.juniper_tokens.specs.Errors.{view_fault};
ghost use Rattle.juniper_tree.specs.View.{view_value};
ghost use Rattle.juniper_tree.specs.Scalars.{stated};
ghost use Rattle.juniper_parser.specs.Promise.{IfRefused};
ghost use Rattle.guide.specs.Literals.{BeginsWith, HasNoValue, FirstFault, AreCompared};

use juniper::laws::{lexer_failures_are_reported, one_cut_or_break};
use juniper::{
    InputValue, Lexer, ParseFailure, ParseResult, Parser, ScalarValue, parse_value_literal,
};
use std::alloc::Global;

/// Whether two texts begin with the same value, regardless of their layout. Returns the first refusal of either.
pub fn same_literal<S: ScalarValue>(
    alloc: Global,
    one: &str,
    other: &str,
) -> Result<bool, ParseFailure>
    ensures compared { IfOk result (λ answer. AreCompared (stated S.reading S.of_bool) S.content S.eq (chars one.now) (chars other.now) answer) }
    ensures refused { IfRefused result (λ fault. FirstFault (stated S.reading S.of_bool) (chars one.now) (chars other.now) (view_fault fault)) }
{
    let one = literal::<S>(alloc, one)?;
    let other = literal::<S>(alloc, other)?;
    Ok(one.item.unlocated_eq(&other.item))
}

// The value that a text begins with.
fn literal<S: ScalarValue>(alloc: Global, source: &str) -> ParseResult<InputValue<S>>
    ensures value { IfOk result (λ value. BeginsWith (stated S.reading S.of_bool) (chars source.now) (view_value S.content value)) }
    ensures refused { IfRefused result (λ fault. HasNoValue (stated S.reading S.of_bool) (chars source.now) (view_fault fault)) }
{
    // The laws that the proof cites.
    one_cut_or_break();
    lexer_failures_are_reported();
    let mut lexer = Lexer::new(alloc, source);
    let mut parser = Parser::new(&mut lexer)?;
    parse_value_literal(&mut parser, false)
}
