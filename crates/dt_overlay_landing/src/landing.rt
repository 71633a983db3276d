//! Landing what the fragments bring.

ghost use Rattle.std.specs.Prelude.{◌≡◌, ◌<◌, ◌++◌, ◌∷◌, [], true, length, List, OnOk, IfOk, IfErr};
ghost use Rattle.std.specs.List.{AllByRecursion};
ghost use Rattle.dt_model.specs.Limits.{most_names};
ghost use Rattle.dt_model.specs.Merged.{Site};
ghost use Rattle.dt_model.specs.Names.{IsNodeName, IsPropertyName};
ghost use Rattle.dt_model.specs.Tree.{stands_in};
ghost use Rattle.dt_model.specs.Changes.{with_child_at, with_property_at};
ghost use Rattle.dt_overlay_laws.specs.Steps.{land_properties, land_node, MayLandProperties, MayLandNode, MaySetValue};
ghost use Rattle.dt_overlay_laws.specs.Steps.{FullAtProperties, FullAtNode};
ghost use Rattle.dt_overlay_object.specs.Objects.{Seen, IsToLandOn};
ghost use Rattle.dt_overlay_landing.specs.Landed.{landed_as, land_each as each_landed, landed_properties, landed_with, seen_landed};
ghost use Rattle.dt_overlay_landing.specs.Landed.{MayLandEach, MayLandSeen, FullAtEach, FullAtSeen};
ghost use Rattle.dt_overlay_base.specs.Targets.{HasNoRoom, IsWant};
ghost use Rattle.dt_trees.specs.Placed.{IsNode};
ghost use Rattle.dt_trees.specs.Views.{prop_said};

use crate::values::Values;
use dt_names::{Fault, NodeId, NodeName, Path, PropName};
use dt_overlay_base::{Target, child_path};
use dt_overlay_object::{Brought, Landing, Object};
use dt_trees::{Prop, TreeView};
use std::alloc::Global;

/// A node of the object that lands, the numbers that nodes get, and the values that are kept of properties.
#[derive(Drop)]
pub(crate) struct LandingNode<'v, 'o> {
    node: NodeId,
    brought: &'v Brought,
    values: &'v Values<'o>,
}

/// Sets a property of a node that lands: a `phandle` to its new number, another one to the value that is kept of it, or to its own.
fn land_property<T: Target>(
    target: &mut T,
    path: &Path,
    prop: &Prop<'_>,
    landing: &LandingNode<'_, '_>,
) -> Result<(), Fault>
    requires stands { stands_in (T.reading target.old) path.now ≡ true }
    requires named { IsPropertyName prop.now.name.now }
    requires may { MaySetValue path.now prop.now.name.now (landed_as landing.now (prop_said prop.now)).value (T.reading target.old) }
    ensures set { OnOk result (T.reading target.new ≡ with_property_at path.now prop.now.name.now
        (landed_as landing.now (prop_said prop.now)).value (T.reading target.old)) }
    ensures refused { IfErr result (IsWant (HasNoRoom T.reading T.has_room T.follows target.old (T.reading target.old) (with_property_at path.now
        prop.now.name.now (landed_as landing.now (prop_said prop.now)).value (T.reading target.old)))) }
    ensures follows { T.follows target.old target.new }
{
    let property = PropName::new(prop.name)?;
    if prop.name == b"phandle".as_slice() {
        let number = landing.brought.number(landing.node).unwrap_or(0);
        return target.set_prop(path, &property, &number.to_be_bytes());
    }
    target.set_prop(
        path,
        &property,
        landing
            .values
            .get(landing.node, prop.name)
            .unwrap_or(prop.value),
    )
}

/// Sets the properties of a node that lands.
fn set_properties<'o, T: Target, V: TreeView>(
    target: &mut T,
    path: &Path,
    object: &'o V,
    landing: &LandingNode<'_, 'o>,
) -> Result<(), Fault>
    requires node { IsNode (V.tree object.now) landing.now.node }
    requires stands { stands_in (T.reading target.old) path.now ≡ true }
    requires may { MayLandProperties path.now (landed_properties (V.tree object.now) landing.now) (T.reading target.old) }
    ensures landed { OnOk result (T.reading target.new ≡ land_properties path.now (landed_properties (V.tree object.now) landing.now)
        (T.reading target.old)) }
    ensures refused { IfErr result (IsWant (FullAtProperties (HasNoRoom T.reading T.has_room T.follows target.old) path.now
        (landed_properties (V.tree object.now) landing.now) (T.reading target.old))) }
    ensures follows { T.follows target.old target.new }
{
    object.validity();
    let props = object.props(landing.values.alloc(), landing.node)?;
    for prop in &props {
        land_property(target, path, prop, landing)?;
    }
    Ok(())
}

/// The path on which a child lands: it is added where it isn't there.
fn add_child<T: Target>(
    alloc: Global,
    target: &mut T,
    parent: &Path,
    name: &[u8],
) -> Result<Path, Fault>
    requires stands { stands_in (T.reading target.old) parent.now ≡ true }
    requires named { IsNodeName name.now }
    requires shallow { length parent.now < most_names }
    ensures path { IfOk result (λ path. path ≡ parent.now ++ name.now ∷ []) }
    ensures added { OnOk result (T.reading target.new ≡ with_child_at parent.now name.now (T.reading target.old)) }
    ensures refused { IfErr result (IsWant (HasNoRoom T.reading T.has_room T.follows target.old (T.reading target.old)
        (with_child_at parent.now name.now (T.reading target.old)))) }
    ensures follows { T.follows target.old target.new }
{
    let path = child_path(alloc, parent, name)?;
    if !target.find(&path) {
        target.add_node(parent, &NodeName::new(name)?)?;
    }
    Ok(path)
}

/// A node lands on one that is there, with what is below it.
fn land<'o, T: Target, V: TreeView>(
    target: &mut T,
    object: &Object<'o, V>,
    values: &Values<'o>,
    node: NodeId,
    path: &Path,
) -> Result<(), Fault>
    requires node { IsNode (V.tree object.now.tree.now) node }
    requires stands { stands_in (T.reading target.old) path.now ≡ true }
    requires may { MayLandNode path.now (landed_with V.tree object.now values.now node) (T.reading target.old) }
    ensures landed { OnOk result (T.reading target.new ≡ land_node path.now (landed_with V.tree object.now values.now node) (T.reading target.old)) }
    ensures refused { IfErr result (IsWant (FullAtNode (HasNoRoom T.reading T.has_room T.follows target.old) path.now
        (landed_with V.tree object.now values.now node) (T.reading target.old))) }
    ensures follows { T.follows target.old target.new }
{
    let tree = object.tree;
    tree.validity();
    let landing = LandingNode {
        node,
        brought: &object.brought,
        values,
    };
    set_properties(target, path, tree, &landing)?;
    let mut next = tree.first_child(node);
    while let Some(child) = next {
        let path = add_child(values.alloc(), target, path, tree.name(child))?;
        land(target, object, values, child, &path)?;
        next = tree.next_sibling(child);
    }
    Ok(())
}

/// Lands what the fragments bring, each on its site, one after another.
fn land_each<'o, T: Target, V: TreeView>(
    target: &mut T,
    object: &Object<'o, V>,
    values: &Values<'o>,
    sites: &[Path],
) -> Result<(), Fault>
    requires nodes { AllByRecursion (λ x. IsNode (V.tree object.now.tree.now) x.content) object.now.fragments.items }
    requires may { MayLandEach (landed_with V.tree object.now values.now) object.now.fragments.items sites.now (T.reading target.old) }
    ensures landed { OnOk result (T.reading target.new ≡ each_landed (landed_with V.tree object.now values.now) object.now.fragments.items sites.now
        (T.reading target.old)) }
    ensures refused { IfErr result (IsWant (FullAtEach (HasNoRoom T.reading T.has_room T.follows target.old) (landed_with V.tree object.now values.now)
        object.now.fragments.items sites.now (T.reading target.old))) }
    ensures follows { T.follows target.old target.new }
{
    for (fragment, site) in object.fragments.iter().zip(sites) {
        land(target, object, values, fragment.content, site)?;
    }
    Ok(())
}

/// Lands what the fragments bring, by a table of values that is empty.
fn land_by<'o, T: Target, V: TreeView>(
    target: &mut T,
    object: &Object<'o, V>,
    sites: &[Path],
    values: &mut Values<'o>,
) -> Result<(), Fault>
    requires none { values.old ≡ [] }
    requires sited { (seen : Seen) × (found : List Site) × IsToLandOn V.tree object.now seen found sites.now
        × MayLandSeen (T.reading target.old) seen found }
    ensures landed { (seen : Seen) (found : List Site) → IsToLandOn V.tree object.now seen found sites.now →
        OnOk result (T.reading target.new ≡ seen_landed (T.reading target.old) seen found) }
    ensures refused { (seen : Seen) (found : List Site) → IsToLandOn V.tree object.now seen found sites.now →
        IfErr result (IsWant (FullAtSeen (HasNoRoom T.reading T.has_room T.follows target.old) (T.reading target.old) seen found)) }
    ensures follows { T.follows target.old target.new }
{
    object.tree.validity();
    values.write_all(object.tree, &object.own_writes)?;
    values.write_all(object.tree, &object.label_writes)?;
    land_each(target, object, values, sites)
}

/// Lands what an object's fragments bring on their sites, one after another, the numbers written into its cells (dtc's notes on overlay objects): a
/// node's properties, in the place of those that are there, then its children, which are added where they aren't there.
///
/// # Errors
///
/// `Limit` where the tree has no room for a change on the way, and `NoMemory`. What landed before stays. None has a place.
pub fn land_all<'o, T: Target, V: TreeView>(
    target: &mut T,
    object: &Object<'o, V>,
    landing: &Landing,
) -> Result<(), Fault>
    requires { (seen : Seen) × (found : List Site) × IsToLandOn V.tree object.now seen found landing.now.sites.items
        × MayLandSeen (T.reading target.old) seen found }
    ensures landed { (seen : Seen) (found : List Site) → IsToLandOn V.tree object.now seen found landing.now.sites.items →
        OnOk result (T.reading target.new ≡ seen_landed (T.reading target.old) seen found) }
    ensures refused { (seen : Seen) (found : List Site) → IsToLandOn V.tree object.now seen found landing.now.sites.items →
        IfErr result (IsWant (FullAtSeen (HasNoRoom T.reading T.has_room T.follows target.old) (T.reading target.old) seen found)) }
    ensures follows { T.follows target.old target.new }
{
    let mut values = Values::new(landing.places.alloc(), object.seed());
    let done = land_by(target, object, &landing.sites, &mut values);
    // Let go of by hand: what goes at an exit by itself is proved there field by field.
    drop(values);
    done
}
