//! Values under distinct keys, in the order in which the keys came.
ghost use Rattle.std.specs.Prelude.{◌≡◌, IfOk, IfErr, OnOk, OnErr, OnSome, None, [], is_some, length, option_copied, string_bytes, String, ◌++◌, ◌∷◌, position, List, slice_get, ◌<◌, Some};
ghost use Rattle.std.specs.Borrow.{sem, Lends, LendsSo};
ghost use Rattle.std.specs.Option.{option_copied_mut};
ghost use Rattle.std.specs.List.{IsDistinct};
ghost use Rattle.std.specs.Map.{keys_of, values_of, lookup, set_value};
ghost use Rattle.std.specs.Map.Iter.{TakesFirst, GivesInOrder, ShowsInOrder, ShowsValuesInOrder, deref_pair};
ghost use Rattle.std.specs.String.{string_eq};
ghost use Rattle.indexmap.specs.IndexMap.{insert_entry, set_value_at};
ghost use Rattle.std.specs.declared.alloc.Global.{Global};
ghost use Rattle.juniper_answers.specs.Keys.{has_text};
ghost use Rattle.std.specs.Iterator.{at_most};

use indexmap::{IndexSet, set};
use std::alloc::{AllocError, Global};
use std::marker::Model;
use std::{mem, slice, vec};

/// Each key with the value at its index. A key or a value past the other's end is ignored.
#[derive(Drop)]
pub struct Entries<V> {
    keys: IndexSet<String>,
    values: Vec<V>,
}

impl<V> Entries<V> {
    ghost use Rattle.juniper_answers.specs.Entries.{entries_of, with_value};
    ghost use Rattle.juniper_answers.specs.contracts.entries.Entries.{the_row};

    /// No entries, with capacity for some.
    pub fn with_capacity(alloc: Global, size: usize) -> Result<Self, AllocError>
        ensures { IfOk result (λ o. entries_of o ≡ []) }
    {
        Ok(Entries {
            keys: IndexSet::with_capacity(alloc, size)?,
            values: Vec::with_capacity(alloc, size)?,
        })
    }

    // The place of a key that has a value.
    fn find(&self, key: &str) -> Option<usize>
        ensures { result ≡ position (has_text key.now) (keys_of (entries_of self.now)) }
    {
        let place = self.keys.get_index_of(key)?;
        if place < self.values.len() {
            Some(place)
        } else {
            None
        }
    }

    fn pair_at(&self, place: usize) -> (&String, &V)
        requires { place < length (entries_of self.now) }
        ensures { slice_get (entries_of self.now) place ≡ Some (result.0.now, result.1.now) }
    {
        (&self.keys.as_slice()[place], &self.values[place])
    }

    fn replace(&mut self, place: usize, value: V) -> V
        requires { place < length (entries_of self.old) }
        ensures took { slice_get (values_of (entries_of self.old)) place ≡ Some result }
        ensures after { entries_of self.new ≡ set_value_at (entries_of self.old) place value }
    {
        mem::replace(&mut self.values[place], value)
    }

    // Puts a new key last.
    fn append(&mut self, key: String, value: V) -> Result<(), (String, V)>
        requires { lookup (has_text (string_bytes key)) (entries_of self.old) ≡ None }
        ensures put { OnOk result (entries_of self.new ≡ entries_of self.old ++ (key, value) ∷ []) }
        ensures back { IfErr result (λ p. p ≡ (key, value)) }
        ensures unchanged { OnErr result (entries_of self.new ≡ entries_of self.old) }
    {
        self.keys.truncate(self.values.len());
        let place = self.keys.len();
        if self.keys.reserve(1).is_err() {
            return Err((key, value));
        }
        match self.values.insert(place, value) {
            Ok(()) => {
                self.keys.insert(key).unwrap();
                Ok(())
            }
            Err(failed) => Err((key, failed.value)),
        }
    }

    /// Puts a value at a key, and returns the value that it replaces, if there is one.
    pub fn insert(&mut self, key: String, value: V) -> Result<Option<V>, (String, V)>
        ensures old { IfOk result (λ old. old ≡ lookup (has_text (string_bytes key)) (entries_of self.old)) }
        ensures put { OnOk result (entries_of self.new ≡ insert_entry string_eq (entries_of self.old) key value) }
        ensures back { IfErr result (λ p. p ≡ (key, value)) }
        ensures unchanged { OnErr result (entries_of self.new ≡ entries_of self.old) }
        ensures absent { OnErr result (lookup (has_text (string_bytes key)) (entries_of self.old) ≡ None) }
    {
        match self.find(key.as_str()) {
            Some(place) => Ok(Some(self.replace(place, value))),
            None => {
                self.append(key, value)?;
                Ok(None)
            }
        }
    }

    /// Whether an entry has this key.
    pub fn contains(&self, key: &str) -> bool
        ensures { result ≡ is_some (lookup (has_text key.now) (entries_of self.now)) }
    {
        self.get(key).is_some()
    }

    /// The number of entries.
    pub fn len(&self) -> usize
        ensures len { result ≡ length (entries_of self.now) }
        ensures distinct { IsDistinct string_eq (keys_of (entries_of self.now)) }
    {
        self.keys.len().min(self.values.len())
    }

    /// The value at a key, or None.
    pub fn get(&self, key: &str) -> Option<&V>
        ensures { option_copied result ≡ lookup (has_text key.now) (entries_of self.now) }
    {
        match self.keys.get_index_of(key) {
            Some(place) => self.values.get(place),
            None => None,
        }
    }

    fn value_mut(&mut self, place: usize) -> &mut V
        requires { place < length (entries_of self.old) }
        ensures* writes_back { sem 𝓛 (Lends (the_row V.row) V.row self.entry result (with_value self.old place)) }
        ensures value { slice_get (values_of (entries_of self.old)) place ≡ Some result.now }
    {
        &mut self.values[place]
    }

    /// The value at a key, mutable, or None.
    pub fn get_mut(&mut self, key: &str) -> Option<&mut V>
        ensures* writes_back { sem 𝓛 (LendsSo (the_row V.row) V.row self.entry result (λ n w. OnSome result (entries_of n ≡ set_value (has_text key.now) (entries_of self.old) w)) (λ n. entries_of n ≡ entries_of self.old)) }
        ensures value { option_copied_mut result ≡ lookup (has_text key.now) (entries_of self.old) }
    {
        match self.find(key) {
            Some(place) => Some(self.value_mut(place)),
            None => None,
        }
    }

    /// An iterator over the entries by value, in order.
    pub fn into_iter(self) -> IntoIter<V>
        ensures rest { result ≡ entries_of self }
        ensures runs { GivesInOrder (String Global × V) }
        ensures values_run { ShowsValuesInOrder (λ (p : String Global × V). p) }
        ensures distinct { IsDistinct string_eq (keys_of (entries_of self)) }
    {
        let Entries { keys, values } = self;
        IntoIter {
            keys: keys.into_iter(),
            values: values.into_iter(),
        }
    }

    /// An iterator over the entries, in order.
    pub fn iter(&self) -> Iter<'_, V>
        ensures rest { result ≡ entries_of self.now }
        ensures runs { ShowsInOrder (deref_pair {K = String Global} {X = V}) }
        ensures values_run { ShowsValuesInOrder (deref_pair {K = String Global} {X = V}) }
        ensures distinct { IsDistinct string_eq (keys_of (entries_of self.now)) }
    {
        Iter {
            keys: self.keys.as_slice().iter(),
            values: self.values.iter(),
        }
    }
}

/// An iterator over keys and values, by reference.
#[derive(Drop)]
pub struct Iter<'a, V> {
    pub(crate) keys: slice::Iter<'a, String>,
    pub(crate) values: slice::Iter<'a, V>,
}

impl<'a, V> Model for Iter<'a, V> {
    ghost use Rattle.std.specs.Prelude.{List, String, zip};
    ghost use Rattle.std.specs.declared.alloc.Global.{Global};
    ghost use Rattle.std.specs.Slice.Iter.{iter_rest};

    ghost Value = { List (String Global × V) };

    ghost view = { λ it. zip (iter_rest it.keys) (iter_rest it.values) };
}

impl<'a, V> Iterator for Iter<'a, V> {
    type Item = (&'a String, &'a V);

    ghost next_gives = { TakesFirst deref_pair };

    ghost remaining = { λ s. at_most (length s) };

    fn next(&mut self) -> Option<(&'a String, &'a V)> {
        let key = self.keys.next()?;
        let value = self.values.next()?;
        Some((key, value))
    }
}

/// An iterator over keys and values, by value.
#[derive(Drop)]
pub struct IntoIter<V> {
    keys: set::IntoIter<String>,
    values: vec::IntoIter<V>,
}

impl<V> Model for IntoIter<V> {
    ghost use Rattle.std.specs.Prelude.{List, String, zip};
    ghost use Rattle.std.specs.declared.alloc.Global.{Global};
    ghost use Rattle.std.specs.Vec.Iter.{into_iter_items};

    ghost Value = { List (String Global × V) };

    ghost view = { λ it. zip it.keys (into_iter_items it.values) };
}

impl<V: Drop> Iterator for IntoIter<V> {
    type Item = (String, V);

    ghost next_gives = { TakesFirst (λ p. p) };

    ghost remaining = { λ s. at_most (length s) };

    fn next(&mut self) -> Option<(String, V)> {
        let key = self.keys.next()?;
        let value = self.values.next()?;
        Some((key, value))
    }
}

// Equal if each key of either is in both, with equal values, in any order.
impl<V: PartialEq> PartialEq for Entries<V> {
    ghost use Rattle.juniper_answers.specs.laws.EqualityLaws.{same_held_per};
    ghost use Rattle.juniper_answers.specs.Same.{same_held};

    ghost eq = { same_held V.eq };

    ghost laws = { same_held_per V.eq V.laws };

    fn eq(&self, other: &Entries<V>) -> bool {
        let len = self.len();
        if len != other.len() {
            return false;
        }
        for i in 0..len {
            let (key, value) = self.pair_at(i);
            match other.get(key.as_str()) {
                Some(theirs) => {
                    if !value.eq(theirs) {
                        return false;
                    }
                }
                None => return false,
            }
        }
        true
    }
}

impl<V: Eq> Eq for Entries<V> {
    ghost use Rattle.juniper_answers.specs.laws.EqualityLaws.{same_held_equiv};

    ghost laws = { same_held_equiv V.eq V.Eq.laws };
}
