//! Equality of input values, their spans included.
ghost use Rattle.std.specs.Prelude.{◌≡◌, ◌&&◌};
ghost use Rattle.juniper_tokens.specs.Spans.{view_span};
ghost use Rattle.juniper_values.specs.Equality.{same_span, same_value, same_items, same_fields};
ghost use Rattle.juniper_values.specs.Text.{same_text};
ghost use Rattle.juniper_values.specs.View.{view, view_items, view_fields, text_of};

use crate::input_value::InputValue;
use juniper_tokens::text::same_string;
use juniper_tokens::{Span, Spanning};

/// Values are equal if their scalars, names and spans are, fields in their order.
impl<S: PartialEq> PartialEq for InputValue<S> {
    ghost use Rattle.juniper_values.specs.laws.EqualityLaws.{same_value-laws};

    ghost eq = { λ a b. same_value S.eq (view (λ s. s) a) (view (λ s. s) b) };

    ghost laws = { same_value-laws S.laws };

    fn eq(&self, other: &InputValue<S>) -> bool {
        equal(self, other)
    }
}

impl<S: Eq> Eq for InputValue<S> {
    ghost use Rattle.juniper_values.specs.laws.EqualityLaws.{same_value-equiv};

    ghost laws = { same_value-equiv S.Eq.laws };
}

fn same_span(a: &Span, b: &Span) -> bool
    ensures { result ≡ same_span (view_span a.now) (view_span b.now) }
{
    a == b
}

#[cycle(equal)]
fn equal<S: PartialEq>(a: &InputValue<S>, b: &InputValue<S>) -> bool
    ensures { result ≡ same_value S.eq (view (λ s. s) a.now) (view (λ s. s) b.now) }
{
    match (a, b) {
        (InputValue::Null, InputValue::Null) => true,
        (InputValue::Scalar(x), InputValue::Scalar(y)) => x == y,
        (InputValue::Enum(x), InputValue::Enum(y)) => same_string(x, y),
        (InputValue::Variable(x), InputValue::Variable(y)) => same_string(x, y),
        (InputValue::List(x), InputValue::List(y)) => equal_items(x, y),
        (InputValue::Object(x), InputValue::Object(y)) => equal_fields(x, y),
        _ => false,
    }
}

#[cycle(equal)]
fn equal_items<S: PartialEq>(
    a: &Vec<Spanning<InputValue<S>>>,
    b: &Vec<Spanning<InputValue<S>>>,
) -> bool
    ensures { result ≡ same_items S.eq (view_items (λ s. s) a.now.items) (view_items (λ s. s) b.now.items) }
{
    if a.len() != b.len() {
        return false;
    }
    for i in 0..a.len() {
        if !equal(&a[i].item, &b[i].item) {
            return false;
        }
        if !same_span(&a[i].span, &b[i].span) {
            return false;
        }
    }
    true
}

#[cycle(equal)]
fn equal_fields<S: PartialEq>(
    a: &Vec<(Spanning<String>, Spanning<InputValue<S>>)>,
    b: &Vec<(Spanning<String>, Spanning<InputValue<S>>)>,
) -> bool
    ensures { result ≡ same_fields S.eq (view_fields (λ s. s) a.now.items) (view_fields (λ s. s) b.now.items) }
{
    if a.len() != b.len() {
        return false;
    }
    for i in 0..a.len() {
        if !same_key(&a[i].0, &b[i].0) {
            return false;
        }
        if !equal(&a[i].1.item, &b[i].1.item) {
            return false;
        }
        if !same_span(&a[i].1.span, &b[i].1.span) {
            return false;
        }
    }
    true
}

fn same_key(a: &Spanning<String>, b: &Spanning<String>) -> bool
    ensures { result
        ≡ (same_text (text_of a.now.item) (text_of b.now.item) && same_span (view_span a.now.span) (view_span b.now.span)) }
{
    same_string(&a.item, &b.item) && same_span(&a.span, &b.span)
}
