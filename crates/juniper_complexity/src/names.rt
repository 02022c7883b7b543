//! The fragments of a document, by their names.
ghost use Rattle.std.specs.Prelude.{IfOk, map};
ghost use Rattle.juniper_tree.specs.View.{view_definition};
ghost use Rattle.juniper_outlines.specs.Names.{Knows};
ghost use Rattle.juniper_complexity.specs.Parts.{fragment_at};

use juniper_outlines::names::put;
use juniper_tree::Definition;
use juniper_values::ScalarValue;
use std::alloc::{AllocError, Global};
use std::collections::BTreeMap;

/// The indexes of the fragments among a document's definitions, by their names (GraphQL specification, October 2021,
/// section 2.8). If several have one name, which validation forbids (section 5.5.1.1), the first is kept.
///
/// For n fragments takes time in proportion to n log n comparisons of names. Returns `AllocError` if memory runs out.
///
/// ```
/// let names = fragment_names(alloc, &document)?;
/// let index = names.get(spread.item.name.item);
/// ```
pub fn fragment_names<'a, S: ScalarValue>(
    alloc: Global,
    document: &[Definition<'a, S>],
) -> Result<BTreeMap<&'a str, usize>, AllocError>
    ensures { IfOk result (λ names. Knows names (fragment_at (map (view_definition S.content) document.now))) }
{
    let mut names = BTreeMap::new(alloc);
    for i in (0..document.len()).rev() {
        match &document[i] {
            Definition::Operation(_) => {}
            Definition::Fragment(fragment) => put(&mut names, fragment.item.name.item, i)?,
        }
    }
    Ok(names)
}
