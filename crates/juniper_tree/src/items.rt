//! The items of arguments and of variable definitions.
ghost use Rattle.std.specs.Prelude.{◌≡◌, length, option_copied};
ghost use Rattle.std.specs.Option.{option_copied_mut};
ghost use Rattle.std.specs.Slice.Iter.{iter_rest};
ghost use Rattle.std.specs.Vec.Iter.{into_iter_items};
ghost use Rattle.juniper_tree.specs.Named.{first_named};

use crate::ast::{Arguments, VariableDefinition, VariableDefinitions};
use juniper_tokens::Spanning;
use juniper_values::InputValue;
use std::{slice, vec};

impl<'a, S: Drop> Arguments<'a, S> {
    /// An iterator over the arguments by value, in their order (GraphQL specification, October 2021, section 2.6).
    pub fn into_iter(self) -> vec::IntoIter<(Spanning<&'a str>, Spanning<InputValue<S>>)>
        ensures { into_iter_items result ≡ self.entry.items.items }
    {
        self.items.into_iter()
    }

    /// An iterator over the arguments, in their order (GraphQL specification, October 2021, section 2.6).
    pub fn iter(&self) -> slice::Iter<'_, (Spanning<&'a str>, Spanning<InputValue<S>>)>
        ensures { iter_rest result ≡ self.now.items.items }
    {
        self.items.iter()
    }

    /// The number of arguments (GraphQL specification, October 2021, section 2.6).
    pub fn len(&self) -> usize
        ensures { result ≡ length self.now.items.items }
    {
        self.items.len()
    }

    /// The value of the first argument of this name, or None (GraphQL specification, October 2021, section 2.6). Takes
    /// time in proportion to the number of arguments.
    ///
    /// ```
    /// // of `user(id: 1, first: 10)`
    /// let first = arguments.get("first").map(|value| &value.item);
    /// ```
    pub fn get(&self, name: &str) -> Option<&Spanning<InputValue<S>>>
        ensures { option_copied result ≡ first_named name.now self.now.items.items }
    {
        for argument in &self.items {
            if argument.0.item == name {
                return Some(&argument.1);
            }
        }
        None
    }

    /// The value of the first argument of this name, mutable, or None (GraphQL specification, October 2021, section
    /// 2.6).
    ///
    /// The contract says which value is borrowed. It does not say that a write leaves the other arguments, their number
    /// and the names as they were.
    // A borrow of a part of an element that holds a reference is not followed, so no clause can say what stays.
    pub fn get_mut(&mut self, name: &str) -> Option<&mut Spanning<InputValue<S>>>
        ensures { option_copied_mut result ≡ first_named name.now self.old.items.items }
    {
        for i in 0..self.items.len() {
            if self.items[i].0.item == name {
                return Some(&mut self.items[i].1);
            }
        }
        None
    }
}

impl<'a, S: Drop> VariableDefinitions<'a, S> {
    /// An iterator over the variable definitions, in their order (GraphQL specification, October 2021, section 2.10).
    pub fn iter(&self) -> slice::Iter<'_, (Spanning<&'a str>, VariableDefinition<'a, S>)>
        ensures { iter_rest result ≡ self.now.items.items }
    {
        self.items.iter()
    }
}
