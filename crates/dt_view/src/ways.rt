//! The way down to a node.

ghost use Rattle.std.specs.Prelude.{◌≡◌};
ghost use Rattle.dt_trees.specs.Placed.{path_at, IsNode};
ghost use Rattle.dt_view.specs.Ways.{names_text, way_text, AreNodes};

use dt_names::NodeId;
use dt_read::OpenNodes;
use dt_trees::TreeView;

/// The nodes on the way down to a node, the first one below the root in front: none for the root. Takes no memory.
pub fn way_to<V: TreeView>(view: &V, node: NodeId) -> OpenNodes
    requires { IsNode (V.tree view.now) node }
    ensures text { way_text (V.tree view.now) result ≡ names_text (path_at (V.tree view.now) node) }
    ensures nodes { AreNodes (V.tree view.now) result }
{
    view.validity();
    let mut way = OpenNodes::new();
    let mut here = node;
    while let Some(above) = view.parent(here) {
        way.push(here);
        here = above;
    }
    way
}
