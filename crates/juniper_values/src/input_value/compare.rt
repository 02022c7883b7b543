//! Equality of input values regardless of their spans.
ghost use Rattle.std.specs.Prelude.{◌≡◌, ◌<◌, ◌≤◌, ◌+◌, ℕ, length, drop, true, false};
ghost use Rattle.juniper_values.specs.Same.{same_but_place, same_items_but_place, wanted, is_found, is_wanted, all_found, all_wanted};
ghost use Rattle.juniper_values.specs.device.Keys.{has_key, keys_differ, found_at, wanted_at};
ghost use Rattle.juniper_values.specs.device.Sizes.{value_count, item_count, held_count, count_at, saturated};
ghost use Rattle.graphql_grammar.specs.Tree.{Object};
ghost use Rattle.juniper_values.specs.View.{view, view_items, view_fields, text_of};

use crate::input_value::InputValue;
use juniper_tokens::Spanning;
use juniper_tokens::text::same_string;

impl<S: PartialEq> InputValue<S> {
    /// Whether the values are equal regardless of their spans. Fields of objects may be in any order.
    ///
    /// If this value consists of `m` values and the other of `n`, at most `m * n * n` pairs of values are compared.
    /// Takes no memory, and stack in proportion to the nesting of both.
    ///
    /// ```
    /// // of `{a: 1, b: [true]}` and `{ b:[ true ] a:1 }`: true
    /// let is_same = one.item.unlocated_eq(&other.item);
    /// ```
    pub fn unlocated_eq(&self, other: &Self) -> bool
        ensures { result ≡ same_but_place S.eq (view (λ s. s) self.now) (view (λ s. s) other.now) }
    {
        same(self, other)
    }
}

#[cycle(compare)]
fn same<S: PartialEq>(a: &InputValue<S>, b: &InputValue<S>) -> bool
    ensures { result ≡ same_but_place S.eq (view (λ s. s) a.now) (view (λ s. s) b.now) }
{
    match (a, b) {
        (InputValue::Null, InputValue::Null) => true,
        (InputValue::Scalar(x), InputValue::Scalar(y)) => x == y,
        (InputValue::Enum(x), InputValue::Enum(y)) => same_string(x, y),
        (InputValue::Variable(x), InputValue::Variable(y)) => same_string(x, y),
        (InputValue::List(x), InputValue::List(y)) => same_list(x, y),
        (InputValue::Object(x), InputValue::Object(y)) => same_object(x, y),
        _ => false,
    }
}

#[cycle(compare)]
fn same_list<S: PartialEq>(
    a: &Vec<Spanning<InputValue<S>>>,
    b: &Vec<Spanning<InputValue<S>>>,
) -> bool
    ensures { result ≡ same_items_but_place S.eq (view_items (λ s. s) a.now.items) (view_items (λ s. s) b.now.items) }
{
    if a.len() != b.len() {
        return false;
    }
    for i in 0..a.len() {
        if !same(&a[i].item, &b[i].item) {
            return false;
        }
    }
    true
}

// Each field of either object is looked for in the other. A comparison that went twice into each field would take 2^d
// steps at depth d. So if the keys of `b` differ from each other, the second search goes by keys alone; if some repeat,
// the largest field of `b`, the one at `once`, is compared with each field of `a` once, and `met` keeps whether it was
// equal to one of them. That bounds the values compared by the size of `a` times the square of the size of `b`.
#[cycle(compare)]
fn same_object<S: PartialEq>(
    a: &Vec<(Spanning<String>, Spanning<InputValue<S>>)>,
    b: &Vec<(Spanning<String>, Spanning<InputValue<S>>)>,
) -> bool
    ensures { result
        ≡ same_but_place S.eq (Object (view_fields (λ s. s) a.now.items)) (Object (view_fields (λ s. s) b.now.items)) }
{
    if b.len() != a.len() {
        return false;
    }
    if a.len() == 0 {
        return true;
    }
    let differ = keys_differ(b);
    let once = compared_once(b, differ);
    let mut met = false;
    for mine in a {
        let here = is_at(&mine.1.item, &mine.0.item, b, once);
        if !is_among(&mine.1.item, &mine.0.item, b, once, here) {
            return false;
        }
        met = met | here;
    }
    if !met {
        return false;
    }
    all_met(a, b, once, differ)
}

// Whether the field at this index has this key, and a value that this one is equal to.
#[cycle(compare)]
fn is_at<S: PartialEq>(
    value: &InputValue<S>,
    key: &String,
    fields: &Vec<(Spanning<String>, Spanning<InputValue<S>>)>,
    at: usize,
) -> bool
    requires { at < length fields.now.items }
    ensures { result
        ≡ found_at (text_of key.now, same_but_place S.eq (view (λ s. s) value.now)) at (view_fields (λ s. s) fields.now.items) }
{
    let field = &fields[at];
    same_string(key, &field.0.item) && same(value, &field.1.item)
}

// Whether some field has this key, and a value that this one is equal to. Whether the field at `once` does is `here`.
#[cycle(compare)]
fn is_among<S: PartialEq>(
    value: &InputValue<S>,
    key: &String,
    fields: &Vec<(Spanning<String>, Spanning<InputValue<S>>)>,
    once: usize,
    here: bool,
) -> bool
    requires { here
        ≡ found_at (text_of key.now, same_but_place S.eq (view (λ s. s) value.now)) once (view_fields (λ s. s) fields.now.items) }
    ensures { result
        ≡ is_found (text_of key.now, same_but_place S.eq (view (λ s. s) value.now)) (view_fields (λ s. s) fields.now.items) }
{
    if here {
        return true;
    }
    for i in 0..fields.len() {
        if i != once && is_at(value, key, fields, i) {
            return true;
        }
    }
    false
}

// Whether each field of `b` has a field of `a` with its key, whose value is equal to its own. The field at `once` is
// known to have one. `differ` says that no two fields of `b` have the same key: then a field of `a` with the key is
// enough, since each field of `a` has its equal in `b`.
#[cycle(compare)]
fn all_met<S: PartialEq>(
    a: &Vec<(Spanning<String>, Spanning<InputValue<S>>)>,
    b: &Vec<(Spanning<String>, Spanning<InputValue<S>>)>,
    once: usize,
    differ: bool,
) -> bool
    requires found { all_found (wanted S.eq (view_fields (λ s. s) a.now.items)) (view_fields (λ s. s) b.now.items) ≡ true }
    requires met { wanted_at once (view_fields (λ s. s) b.now.items) (wanted S.eq (view_fields (λ s. s) a.now.items)) ≡ true }
    requires keys { differ ≡ keys_differ (view_fields (λ s. s) b.now.items) }
    ensures { result ≡ all_wanted (wanted S.eq (view_fields (λ s. s) a.now.items)) (view_fields (λ s. s) b.now.items) }
{
    for i in 0..b.len() {
        if i != once && !is_met_at(a, b, i, differ) {
            return false;
        }
    }
    true
}

// The same of the field of `b` at this index.
#[cycle(compare)]
fn is_met_at<S: PartialEq>(
    a: &Vec<(Spanning<String>, Spanning<InputValue<S>>)>,
    b: &Vec<(Spanning<String>, Spanning<InputValue<S>>)>,
    at: usize,
    differ: bool,
) -> bool
    requires inside { at < length b.now.items }
    requires found { all_found (wanted S.eq (view_fields (λ s. s) a.now.items)) (view_fields (λ s. s) b.now.items) ≡ true }
    requires keys { differ ≡ keys_differ (view_fields (λ s. s) b.now.items) }
    ensures { result ≡ wanted_at at (view_fields (λ s. s) b.now.items) (wanted S.eq (view_fields (λ s. s) a.now.items)) }
{
    let field = &b[at];
    if differ {
        has_key(&field.0.item, a, 0)
    } else {
        is_met(a, &field.0.item, &field.1.item)
    }
}

// Whether this key and value are those of some field, whose value is equal to this one.
#[cycle(compare)]
fn is_met<S: PartialEq>(
    fields: &Vec<(Spanning<String>, Spanning<InputValue<S>>)>,
    key: &String,
    value: &InputValue<S>,
) -> bool
    ensures { result
        ≡ is_wanted (text_of key.now) (view (λ s. s) value.now) (wanted S.eq (view_fields (λ s. s) fields.now.items)) }
{
    for field in fields {
        if same_string(&field.0.item, key) && same(&field.1.item, value) {
            return true;
        }
    }
    false
}

// Whether a field from this index on has this key.
fn has_key<S>(
    key: &String,
    fields: &Vec<(Spanning<String>, Spanning<InputValue<S>>)>,
    from: usize,
) -> bool
    ensures { result ≡ has_key (text_of key.now) (view_fields (λ s. s) (drop from fields.now.items)) }
{
    for i in from..fields.len() {
        if same_string(&fields[i].0.item, key) {
            return true;
        }
    }
    false
}

// Whether no two fields have the same key.
fn keys_differ<S>(fields: &Vec<(Spanning<String>, Spanning<InputValue<S>>)>) -> bool
    ensures { result ≡ keys_differ (view_fields (λ s. s) fields.now.items) }
{
    for i in 0..fields.len() {
        if has_key(&fields[i].0.item, fields, i + 1) {
            return false;
        }
    }
    true
}

// The index of the field that is compared once: if keys repeat, of the largest. Which one it is changes what a
// comparison costs, not its result.
fn compared_once<S>(
    fields: &Vec<(Spanning<String>, Spanning<InputValue<S>>)>,
    differ: bool,
) -> usize
    requires { 0 < length fields.now.items }
    ensures inside { result < length fields.now.items }
    ensures largest { differ ≡ false → (i : ℕ) → i < length fields.now.items
        → saturated (count_at i (view_fields (λ s. s) fields.now.items))
        ≤ saturated (count_at result (view_fields (λ s. s) fields.now.items)) }
{
    if differ {
        return 0;
    }
    let mut most = 0;
    let mut at = 0;
    for i in 0..fields.len() {
        let size = size(&fields[i].1.item);
        if most < size {
            most = size;
            at = i;
        }
    }
    at
}

// The number of values that it consists of, itself among them.
#[cycle(size)]
fn size<S>(value: &InputValue<S>) -> usize
    ensures { result ≡ saturated (value_count (view (λ s. s) value.now)) }
{
    match value {
        InputValue::List(items) => size_of_items(items),
        InputValue::Object(fields) => size_of_fields(fields),
        _ => 1,
    }
}

#[cycle(size)]
fn size_of_items<S>(items: &Vec<Spanning<InputValue<S>>>) -> usize
    ensures { result ≡ saturated (1 + item_count (view_items (λ s. s) items.now.items)) }
{
    let mut sum = 1usize;
    for item in items {
        sum = sum.saturating_add(size(&item.item));
    }
    sum
}

#[cycle(size)]
fn size_of_fields<S>(fields: &Vec<(Spanning<String>, Spanning<InputValue<S>>)>) -> usize
    ensures { result ≡ saturated (1 + held_count (view_fields (λ s. s) fields.now.items)) }
{
    let mut sum = 1usize;
    for field in fields {
        sum = sum.saturating_add(size(&field.1.item));
    }
    sum
}
