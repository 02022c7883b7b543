//! The fragments of a document, by their names.
ghost use Rattle.std.specs.Prelude.{◌≡◌, Option, Some, List, false, map, option_map, IfOk};
ghost use Rattle.std.specs.List.{find, slice_get};
ghost use Rattle.std.specs.Str.{chars};
ghost use Rattle.graphql_grammar.specs.Tree as tree;
ghost use Rattle.juniper_values.specs.Scalar.{Content};
ghost use Rattle.juniper_tree.specs.View.{view_definition};
ghost use Rattle.juniper_complexity.specs.Parts.{is_fragment_named, is_operation};
ghost use Rattle.juniper_requests.specs.Fragments.{AreFragmentsOf, view_fragment};

use juniper_complexity::fragment_names;
use juniper_tokens::Spanning;
use juniper_tree::{Definition, Fragment};
use juniper_values::ScalarValue;
use std::alloc::{AllocError, Global};
use std::collections::BTreeMap;

/// The fragments of a document, by their names (GraphQL specification, October 2021, section 2.8). If several have one
/// name, which validation forbids (section 5.5.1.1), the first is found.
///
/// The names are in an ordered map, so no choice of names makes look-ups slow.
#[derive(Drop)]
pub struct Fragments<'t, 'a, S: Drop> {
    document: &'t [Definition<'a, S>],
    // The indexes of the fragments among the definitions, by their names.
    names: BTreeMap<&'a str, usize>,
}

impl<'t, 'a, S: ScalarValue> Fragments<'t, 'a, S> {
    /// The fragments of a document. For n fragments takes time in proportion to n log n comparisons of names. Returns
    /// `AllocError` if memory runs out.
    ///
    /// ```
    /// let fragments = Fragments::new(alloc, &document)?;
    /// let fragment = fragments.get(spread.item.name.item);
    /// ```
    pub fn new(alloc: Global, document: &'t [Definition<'a, S>]) -> Result<Self, AllocError>
        ensures { IfOk result (λ fragments. AreFragmentsOf S.content (map (view_definition S.content) document.now) fragments) }
    {
        Ok(Fragments {
            document,
            names: fragment_names(alloc, document)?,
        })
    }

    /// The first fragment of this name, or None.
    pub fn get(&self, name: &str) -> Option<&'t Spanning<Fragment<'a, S>>>
        ensures { (document : List (tree.Definition Content)) → AreFragmentsOf S.content document self.now → option_map (λ f. view_fragment S.content f.now) result ≡ find (is_fragment_named (chars name.now)) document }
    {
        fragment_at(self.document, self.names.get(name).copied()?)
    }
}

// The definition of this index, if it is a fragment.
fn fragment_at<'t, 'a, S: ScalarValue>(
    document: &'t [Definition<'a, S>],
    at: usize,
) -> Option<&'t Spanning<Fragment<'a, S>>>
    ensures { (definition : tree.Definition Content) → slice_get (map (view_definition S.content) document.now) at ≡ Some definition → is_operation definition ≡ false → option_map (λ f. view_fragment S.content f.now) result ≡ Some definition }
{
    if at >= document.len() {
        return None;
    }
    match &document[at] {
        Definition::Fragment(fragment) => Some(fragment),
        Definition::Operation(_) => None,
    }
}
