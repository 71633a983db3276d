//! Nodes by the texts of their paths.

ghost use Rattle.std.specs.Prelude.{◌≡◌, None, IfSome, IfOk, IfErr};
ghost use Rattle.dt_trees.specs.Placed.{place_of, IsNode};
ghost use Rattle.dt_trees.specs.Views.{IsFoundBy, WhyNotFound};

use crate::view::TreeView;
use dt_names::{Fault, FaultKind, NodeId, PathRef};

/// The node of a path. Takes no memory.
pub fn node_of<V: TreeView>(view: &V, path: &PathRef<'_>) -> Option<NodeId>
    ensures is { result ≡ place_of (V.tree view.now) path.now }
    ensures node { IfSome result (IsNode (V.tree view.now)) }
{
    view.validity();
    let mut node = view.root();
    for name in path.names() {
        node = view.child(node, name)?;
    }
    Some(node)
}

/// The node of a path, as it is written: `/` for the root, or each name with a `/` before it (Devicetree Specification v0.4, 2.2.3). A path
/// of more than 64 names is no node's. Takes no memory.
///
/// # Errors
///
/// `BadName` where the text is no path's, and `NoNode` where its path is no node's; neither has a place.
pub fn node_at<V: TreeView>(view: &V, text: &[u8]) -> Result<NodeId, Fault>
    ensures is { IfOk result (IsFoundBy (V.tree view.now) text.now) }
    ensures node { IfOk result (IsNode (V.tree view.now)) }
    ensures refused { IfErr result (λ fault. WhyNotFound fault.kind (V.tree view.now) text.now × (fault.at ≡ None)) }
{
    let Some(path) = PathRef::new(text) else {
        return Err(Fault::of(FaultKind::BadName));
    };
    node_of(view, &path).ok_or(Fault::of(FaultKind::NoNode))
}
