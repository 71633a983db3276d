//! Nodes of a blob by their paths, and the paths of nodes.

ghost use Rattle.std.specs.Prelude.{◌≡◌, ◌<◌, ◌++◌, ◌∷◌, [], true, length, map, IfSome, IfOk, IfErr, OnOk};
ghost use Rattle.dt_edit.specs.Editable.{reading_in, path_in};
ghost use Rattle.dt_model.specs.Limits.{most_names};
ghost use Rattle.dt_model.specs.Names.{IsNodeName};
ghost use Rattle.dt_model.specs.Tree.{stands_in};
ghost use Rattle.dt_names.specs.Fault.{IsNoMemory};
ghost use Rattle.dt_read.specs.Checked.{IsBlob, placed_of};
ghost use Rattle.dt_trees.specs.Placed.{last_name, path_at, place_of, IsNode};
ghost use Rattle.dt_view.specs.Ways.{AreNodes};

use dt_names::{Fault, NodeName, Path, Seed};
use dt_read::{Blob, NodeId, OpenNodes};
use dt_view::{TreeView, put_nodes_above};
use std::alloc::Global;

/// The node of a path.
pub(crate) fn node_of(blob: &Blob<'_>, path: &Path) -> Option<NodeId>
    ensures is { result ≡ place_of blob.now path.now }
    ensures node { IfSome result (IsNode blob.now) }
{
    blob.validity();
    let mut node = TreeView::root(blob);
    for name in path.names() {
        node = TreeView::child(blob, node, name)?;
    }
    Some(node)
}

/// The node of a path that is one.
pub(crate) fn node_at(bytes: &[u8], path: &Path) -> NodeId
    requires blob { IsBlob bytes.now }
    requires there { stands_in (reading_in bytes.now) path.now ≡ true }
    ensures node { IsNode (placed_of bytes.now) result }
    ensures path { path_in bytes.now result ≡ path.now }
{
    let blob = Blob::of(bytes, Seed::fixed());
    blob.validity();
    match node_of(&blob, path) {
        Some(node) => node,
        None => unreachable!(),
    }
}

/// The nodes on the way down to a node, by one walk up to it: the first one below the root in front, and none for the root.
fn way_to(blob: &Blob<'_>, node: NodeId) -> OpenNodes
    requires { IsNode blob.now node }
    ensures names { map (λ k. last_name (path_at blob.now k)) result ≡ path_at blob.now node }
    ensures nodes { AreNodes blob.now result }
{
    blob.validity();
    let mut above = OpenNodes::new();
    put_nodes_above(blob, node, &mut above);
    let mut way = OpenNodes::new();
    let mut here = node;
    while let Some(next) = above.innermost() {
        way.push(here);
        here = next;
        above.pop();
    }
    way
}

/// Adds a node's name to a path that is short enough.
fn push_name(path: &mut Path, name: &[u8]) -> Result<(), Fault>
    requires name { IsNodeName name.now }
    requires room { length path.old < most_names }
    ensures ok { OnOk result (path.new ≡ path.old ++ name.now ∷ []) }
    ensures refused { IfErr result IsNoMemory }
{
    let Ok(name) = NodeName::new(name) else {
        unreachable!();
    };
    path.push(&name)
}

/// The path of a node.
///
/// # Errors
///
/// `NoMemory`, without a place.
pub(crate) fn path_of(alloc: Global, blob: &Blob<'_>, node: NodeId) -> Result<Path, Fault>
    requires { IsNode blob.now node }
    ensures value { IfOk result (λ path. path ≡ path_at blob.now node) }
    ensures refused { IfErr result IsNoMemory }
{
    blob.validity();
    let mut way = way_to(blob, node);
    let mut path = Path::root(alloc);
    while let Some(here) = way.innermost() {
        push_name(&mut path, blob.name(here))?;
        way.pop();
    }
    Ok(path)
}
