//! The way from the root down to a node.

ghost use Rattle.std.specs.Prelude.{◌≡◌, ◌<◌, ◌≤◌, ◌++◌, ◌∷◌, [], length, map, drop, Some, OnOk, IfOk, IfErr};
ghost use Rattle.std.specs.List.{AllByRecursion};
ghost use Rattle.dt_model.specs.Limits.{most_names};
ghost use Rattle.dt_names.specs.declared.fault.FaultKind.TheVariants.{NoMemory};
ghost use Rattle.dt_flat.specs.Arena.{IsRooted, name_of, node_from};
ghost use Rattle.dt_flat.specs.Sound.{AreValid};
ghost use Rattle.dt_names.specs.Fault.{IsNoMemory};

use crate::NodeId;
use crate::places::Places;
use dt_names::limits::MOST_NAMES;
use dt_names::{Fault, NodeName, Path};
use std::alloc::Global;

/// Writes the nodes from a child of the root down to a node to the end of a slice, and answers where they begin.
fn gather(places: &Places, node: NodeId, way: &mut [NodeId]) -> usize
    requires rooted { IsRooted places.now }
    requires valid { AreValid places.now }
    requires there { node < length places.now }
    requires room { length way.old ≡ most_names }
    ensures first { result ≤ most_names }
    ensures leads { node_from places.now 0 (map (name_of places.now) (drop result way.new)) ≡ Some node }
    ensures nodes { AllByRecursion (λ i. (0 < i) × (i < length places.now)) (drop result way.new) }
{
    let mut first = way.len();
    let mut at = node;
    while at != 0 {
        first -= 1;
        way[first] = at;
        at = places.parent(at);
    }
    first
}

/// Adds the name of a node that isn't the root to a path with room for it.
fn push_name(path: &mut Path, places: &Places, node: NodeId) -> Result<(), Fault>
    requires valid { AreValid places.now }
    requires below { 0 < node }
    requires there { node < length places.now }
    requires room { length path.old < most_names }
    ensures ok { OnOk result (path.new ≡ path.old ++ name_of places.now node ∷ []) }
    ensures refused { IfErr result IsNoMemory }
{
    let Ok(name) = NodeName::new(places.name(node)) else {
        unreachable!();
    };
    path.push(&name)
}

/// The path of a node. `NoMemory`: memory was refused.
pub(crate) fn path_of(places: &Places, alloc: Global, node: NodeId) -> Result<Path, Fault>
    requires rooted { IsRooted places.now }
    requires valid { AreValid places.now }
    requires there { node < length places.now }
    ensures value { IfOk result (λ path. node_from places.now 0 path ≡ Some node) }
    ensures refused { IfErr result IsNoMemory }
{
    let mut way = [0; MOST_NAMES];
    let first = gather(places, node, &mut way);
    let mut path = Path::root(alloc);
    for at in &way[first..] {
        push_name(&mut path, places, *at)?;
    }
    Ok(path)
}
