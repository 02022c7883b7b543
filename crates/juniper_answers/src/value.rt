//! Answer values.
ghost use Rattle.std.specs.Prelude.{◌≡◌, IfOk, IfErr, OnOk, OnErr, OnSome, None, [], is_some, length, option_copied, string_bytes, String, List, ◌<◌};
ghost use Rattle.std.specs.Borrow.{sem, LendsSo};
ghost use Rattle.std.specs.Option.{option_copied_mut};
ghost use Rattle.std.specs.List.{IsDistinct};
ghost use Rattle.std.specs.Map.{keys_of, lookup, set_value};
ghost use Rattle.std.specs.Map.Iter.{GivesInOrder, ShowsInOrder, ShowsValuesInOrder, deref_pair};
ghost use Rattle.std.specs.String.{string_eq};
ghost use Rattle.std.specs.Iterator.{IsFinite, Drains};
ghost use Rattle.indexmap.specs.IndexMap.{insert_entry, insert_all};
ghost use Rattle.std.specs.declared.alloc.Global.{Global};
ghost use Rattle.juniper_answers.specs.Keys.{has_text};

use crate::entries::{Entries, IntoIter, Iter};
use std::alloc::{AllocError, Global};

/// An iterator over the fields of an object by reference, in order. It ends after the last.
pub type Fields<'a, S> = Iter<'a, Value<S>>;

/// An iterator over the fields of an object by value, in order. It ends after the last.
pub type IntoFields<S> = IntoIter<Value<S>>;

/// An answer value: what an executor returns (GraphQL specification, October 2021, section 7.2).
///
/// Values are equal if they are of one kind and hold equal parts, the fields of objects in any order.
#[derive(PartialEq, Eq, Drop)]
#[cycle(value)]
pub enum Value<S> {
    /// `null`
    Null,
    /// A scalar.
    Scalar(S),
    /// A list.
    List(Vec<Value<S>>),
    /// An object.
    Object(Object<S>),
}

/// An object of answer values: values at distinct keys, in the order in which the keys came (GraphQL specification,
/// October 2021, section 7.2.2).
///
/// Objects are equal if they have the same keys, in any order, with equal values.
///
/// Keys are hashed with a fixed seed: whoever picks them can make them collide, and a look-up then takes time in
/// proportion to their number. So limit the fields of an object whose keys an untrusted sender picks, also in
/// `from_iter`.
#[derive(PartialEq, Eq, Drop)]
#[cycle(value)]
pub struct Object<S> {
    entries: Entries<Value<S>>,
}

impl<S> Object<S> {
    ghost use Rattle.juniper_answers.specs.declared.value.Value.{Value};
    ghost use Rattle.juniper_answers.specs.View.{pairs};
    ghost use Rattle.juniper_answers.specs.contracts.value.Object.{the_row};
    ghost use Rattle.juniper_answers.specs.contracts.value.Value.{the_row as value_row};

    /// An object without fields, with capacity for some. The size is a hint: more fields may come, and each may be
    /// refused.
    ///
    /// Returns `AllocError` if memory runs out.
    pub fn with_capacity(alloc: Global, size: usize) -> Result<Self, AllocError>
        ensures { IfOk result (λ o. pairs o ≡ []) }
    {
        Ok(Object {
            entries: Entries::with_capacity(alloc, size)?,
        })
    }

    /// Puts a value at a key. A value that is there is replaced in its place and returned, and nothing is merged; a new
    /// key goes last.
    ///
    /// If memory runs out, returns the key and the value, and the object is unchanged. A key that is there needs no
    /// memory.
    pub fn add_field(
        &mut self,
        key: String,
        value: Value<S>,
    ) -> Result<Option<Value<S>>, (String, Value<S>)>
        ensures old { IfOk result (λ old. old ≡ lookup (has_text (string_bytes key)) (pairs self.old)) }
        ensures put { OnOk result (pairs self.new ≡ insert_entry string_eq (pairs self.old) key value) }
        ensures back { IfErr result (λ p. p ≡ (key, value)) }
        ensures unchanged { OnErr result (pairs self.new ≡ pairs self.old) }
        ensures absent { OnErr result (lookup (has_text (string_bytes key)) (pairs self.old) ≡ None) }
    {
        self.entries.insert(key, value)
    }

    /// The object of these pairs: each is put in turn, as `add_field` puts it, into an object without fields.
    ///
    /// A repeated key keeps its first place and takes the last value. Returns `AllocError` if memory runs out; what
    /// came until then is dropped. Condition: the iterator may be asked for its items, and ends.
    pub fn from_iter<I: Iterator<Item = (String, Value<S>)>>(
        alloc: Global,
        items: I,
    ) -> Result<Self, AllocError>
    where
        S: Drop,
        requires can { I.can_next items }
        requires ends { IsFinite (I.remaining items) }
        ensures { IfOk result (λ o. (xs : List (String Global × Value S)) × Drains I.next_gives items xs × (pairs o ≡ insert_all string_eq [] xs)) }
    {
        let mut object = Object::with_capacity(alloc, 0)?;
        for (key, value) in items {
            object.put(key, value)?;
        }
        Ok(object)
    }

    // Puts a value at a key, and drops the old one.
    pub(crate) fn put(&mut self, key: String, value: Value<S>) -> Result<(), AllocError>
    where
        S: Drop,
        ensures { OnOk result (pairs self.new ≡ insert_entry string_eq (pairs self.old) key value) }
    {
        match self.add_field(key, value) {
            Ok(_) => Ok(()),
            Err(_) => Err(AllocError),
        }
    }

    /// Whether a field has this key.
    pub fn contains_field(&self, key: &str) -> bool
        ensures { result ≡ is_some (lookup (has_text key.now) (pairs self.now)) }
    {
        self.entries.contains(key)
    }

    /// The number of fields.
    pub fn field_count(&self) -> usize
        ensures { result ≡ length (pairs self.now) }
    {
        self.entries.len()
    }

    /// The value at a key, or None.
    pub fn get_field_value(&self, key: &str) -> Option<&Value<S>>
        ensures { option_copied result ≡ lookup (has_text key.now) (pairs self.now) }
    {
        self.entries.get(key)
    }

    /// The value at a key, mutable, or None. A write changes the value of this field alone.
    pub fn get_mut_field_value(&mut self, key: &str) -> Option<&mut Value<S>>
        ensures* writes_back { sem 𝓛 (LendsSo (the_row S.row) (value_row S.row) self.entry result (λ n w. OnSome result (pairs n ≡ set_value (has_text key.now) (pairs self.old) w)) (λ n. pairs n ≡ pairs self.old)) }
        ensures value { option_copied_mut result ≡ lookup (has_text key.now) (pairs self.old) }
    {
        self.entries.get_mut(key)
    }

    /// An iterator over the fields by value, in order.
    pub fn into_iter(self) -> IntoFields<S>
        ensures rest { result ≡ pairs self }
        ensures runs { GivesInOrder (String Global × Value S) }
        ensures values_run { ShowsValuesInOrder (λ (p : String Global × Value S). p) }
        ensures distinct { IsDistinct string_eq (keys_of (pairs self)) }
    {
        let Object { entries } = self;
        entries.into_iter()
    }

    /// An iterator over the fields, in order.
    pub fn iter(&self) -> Fields<'_, S>
        ensures rest { result ≡ pairs self.now }
        ensures runs { ShowsInOrder (deref_pair {K = String Global} {X = Value S}) }
        ensures values_run { ShowsValuesInOrder (deref_pair {K = String Global} {X = Value S}) }
        ensures distinct { IsDistinct string_eq (keys_of (pairs self.now)) }
    {
        self.entries.iter()
    }
}
