//! Equality of arguments regardless of their spans.
ghost use Rattle.std.specs.Prelude.{◌≡◌, map};
ghost use Rattle.std.specs.List.{list_any};
ghost use Rattle.juniper_tree.specs.SameArguments.{same_argument, are_among, same_arguments};
ghost use Rattle.juniper_tree.specs.View.{view_argument};

use crate::ast::Arguments;
use juniper_tokens::Spanning;
use juniper_tokens::text::same_text;
use juniper_values::InputValue;

type Argument<'a, S> = (Spanning<&'a str>, Spanning<InputValue<S>>);

impl<'a, S: Drop + PartialEq> Arguments<'a, S> {
    /// Whether the arguments are equal regardless of their order and spans (GraphQL specification, October 2021,
    /// section 2.6): there are as many, and each of either is in the other, by its name and by its value, as
    /// `InputValue::unlocated_eq` compares values. If a name stands twice, the comparison is that of the fields of an
    /// object. The law `arguments_are_compared_whatever_their_places` says that it is an equivalence.
    ///
    /// If these arguments consist of `m` values and the others of `n`, at most `m * n * (m + n)` pairs of values are
    /// compared. Takes no memory, and stack in proportion to the nesting of both.
    pub fn unlocated_eq(&self, other: &Self) -> bool
        ensures { result
            ≡ same_arguments S.eq (map (view_argument (λ s. s)) self.now.items.items) (map (view_argument (λ s. s)) other.now.items.items) }
    {
        if self.items.len() != other.items.len() {
            return false;
        }
        are_among(&self.items, &other.items) && are_among(&other.items, &self.items)
    }
}

fn same_argument<'a, S: Drop + PartialEq>(a: &Argument<'a, S>, b: &Argument<'a, S>) -> bool
    ensures { result ≡ same_argument S.eq (view_argument (λ s. s) a.now) (view_argument (λ s. s) b.now) }
{
    same_text(a.0.item, b.0.item) && a.1.item.unlocated_eq(&b.1.item)
}

fn is_among<'a, S: Drop + PartialEq>(argument: &Argument<'a, S>, others: &[Argument<'a, S>]) -> bool
    ensures { result ≡ list_any (same_argument S.eq (view_argument (λ s. s) argument.now)) (map (view_argument (λ s. s)) others.now) }
{
    for other in others {
        if same_argument(argument, other) {
            return true;
        }
    }
    false
}

fn are_among<'a, S: Drop + PartialEq>(
    arguments: &[Argument<'a, S>],
    others: &[Argument<'a, S>],
) -> bool
    ensures { result ≡ are_among S.eq (map (view_argument (λ s. s)) arguments.now) (map (view_argument (λ s. s)) others.now) }
{
    for argument in arguments {
        if !is_among(argument, others) {
            return false;
        }
    }
    true
}
