//! Parts of one kind, one after another.
ghost use Rattle.std.specs.Prelude.{List, flat_map};
ghost use Rattle.graphql_nodes.specs.Nodes.{Node as SeenNode};
ghost use Rattle.juniper_values.specs.Scalar.{Content};
ghost use Rattle.juniper_nodes.specs.NodeViews.{GrowsBy};

use std::alloc::AllocError;

/// A part of a tree that lives for `'t`, whose nodes go into a list of `N`.
pub(crate) trait Part<'t, N> {
    // How the definitions see a node.
    ghost see: { N → SeenNode Content };

    // The part's nodes.
    ghost part_nodes: { Self → List (SeenNode Content) };

    /// Appends the part's nodes. Returns `AllocError` if memory runs out.
    fn push_onto(&'t self, nodes: &mut Vec<N>) -> Result<(), AllocError>
        ensures { GrowsBy see result nodes.old nodes.new (part_nodes self.now) };
}

/// Appends the nodes of each part.
pub(crate) fn push_each<'t, N: Drop, P: Part<'t, N>>(
    nodes: &mut Vec<N>,
    parts: &'t [P],
) -> Result<(), AllocError>
    ensures { GrowsBy P.see result nodes.old nodes.new (flat_map P.part_nodes parts.now) }
{
    for part in parts {
        part.push_onto(nodes)?;
    }
    Ok(())
}
