//! The fragments of an object.

ghost use Rattle.std.specs.Prelude.{◌≡◌, ◌++◌, ◌∷◌, [], None, Some, true, false, codes, OnOk, IfErr, MatchOption};
ghost use Rattle.dt_model.specs.Names.{Name};
ghost use Rattle.dt_model.specs.Lists.{IsIn};
ghost use Rattle.dt_model.specs.Object.{fragment_names};
ghost use Rattle.dt_names.specs.declared.fault.FaultKind.TheVariants.{NoMemory, NoFragmentTarget};
ghost use Rattle.dt_overlay_laws.specs.Objects.{HasTarget};
ghost use Rattle.dt_overlay_object.specs.Plans.{IsTargetOf, AreFragmentsOf};
ghost use Rattle.dt_overlay_read.specs.Fragments.{is_fragment_node};
ghost use Rattle.dt_names.specs.Fault.{IsMemoryOr};
ghost use Rattle.dt_trees.specs.Placed.{path_at, reading_of, IsAt, IsNode};

use dt_names::{Fault, FaultKind, NodeId, is_bookkeeping_name};
use dt_overlay_object::{ObjectFragment, ObjectTarget};
use dt_overlay_texts::is_path_value;
use dt_trees::TreeView;

/// The node that a child of the root brings, if it is a fragment: no bookkeeping node, and with a child `__overlay__`.
pub(crate) fn content_of<V: TreeView>(object: &V, node: NodeId) -> Option<NodeId>
    requires { IsNode (V.tree object.now) node }
    ensures { MatchOption result (is_fragment_node (V.tree object.now) node ≡ false) (λ content. (is_fragment_node (V.tree object.now) node ≡ true)
        × IsAt (V.tree object.now) (path_at (V.tree object.now) node ++ codes "__overlay__" ∷ []) content) }
{
    object.validity();
    if is_bookkeeping_name(object.name(node)) {
        return None;
    }
    object.child(node, b"__overlay__".as_slice())
}

/// What a fragment's node says of its target: four bytes as `target`, or else a path's text with its NUL as `target-path`.
fn target_of<'o, V: TreeView>(object: &'o V, node: NodeId) -> Option<ObjectTarget<'o>>
    requires { IsNode (V.tree object.now) node }
    ensures { (f : Name) → IsAt (V.tree object.now) (f ∷ []) node →
        MatchOption result (¬ HasTarget (reading_of (V.tree object.now)) f) (IsTargetOf (reading_of (V.tree object.now)) f) }
{
    object.validity();
    match object.value(node, b"target".as_slice()) {
        Some(value) if value.len() == 4 => Some(ObjectTarget::Number),
        Some(_) => None,
        None => {
            let value = object.value(node, b"target-path".as_slice())?;
            if !is_path_value(value) {
                return None;
            }
            Some(ObjectTarget::Path(value))
        }
    }
}

/// Lists the fragments in the order of the root's children (dtc's notes on overlay objects): those that are no bookkeeping nodes and have
/// a child `__overlay__`.
///
/// # Errors
///
/// `NoFragmentTarget` where one of them has no target: neither four bytes as `target` nor, without a `target`, a path's text with its NUL
/// as `target-path`; and `NoMemory`. None has a place.
pub(crate) fn list_fragments<'o, V: TreeView>(
    object: &'o V,
    out: &mut Vec<ObjectFragment<'o>>,
) -> Result<(), Fault>
    requires { out.old.items ≡ [] }
    ensures listed { OnOk result (AreFragmentsOf (V.tree object.now) out.new.items (fragment_names (reading_of (V.tree object.now)).children)) }
    ensures refused { IfErr result (IsMemoryOr (λ kind. (kind ≡ NoFragmentTarget) × ((f : Name)
        × IsIn f (fragment_names (reading_of (V.tree object.now)).children) × ¬ HasTarget (reading_of (V.tree object.now)) f))) }
{
    object.validity();
    let mut next = object.first_child(object.root());
    while let Some(node) = next {
        if let Some(content) = content_of(object, node) {
            let Some(target) = target_of(object, node) else {
                return Err(Fault::of(FaultKind::NoFragmentTarget));
            };
            out.push(ObjectFragment {
                node,
                content,
                target,
            })?;
        }
        next = object.next_sibling(node);
    }
    Ok(())
}
