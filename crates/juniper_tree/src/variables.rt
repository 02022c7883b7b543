//! The definition of a variable, by its name.
ghost use Rattle.std.specs.Prelude.{◌≡◌};
ghost use Rattle.std.specs.Option.{option_copied};
ghost use Rattle.juniper_tree.specs.Named.{first_named};

use crate::ast::{VariableDefinition, VariableDefinitions};

impl<'a, S: Drop> VariableDefinitions<'a, S> {
    /// The first definition of the variable of this name, without its `$`, or None (GraphQL specification, October
    /// 2021, section 2.10). Takes time in proportion to the number of definitions.
    pub fn get(&self, name: &str) -> Option<&VariableDefinition<'a, S>>
        ensures { option_copied result ≡ first_named name.now self.now.items.items }
    {
        for definition in &self.items {
            if definition.0.item == name {
                return Some(&definition.1);
            }
        }
        None
    }
}
