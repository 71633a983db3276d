//! The labels of the nodes that landed.

ghost use Rattle.std.specs.Prelude.{◌≡◌, ◌<◌, ◌∷◌, [], true, List, codes, OnOk, IfErr};
ghost use Rattle.dt_model.specs.Changes.{with_child_at};
ghost use Rattle.dt_model.specs.Merged.{Site};
ghost use Rattle.dt_model.specs.Path.{Path as Names};
ghost use Rattle.dt_model.specs.Tree.{stands_in};
ghost use Rattle.dt_names.specs.declared.fault.FaultKind.TheVariants.{NoMemory, Limit};
ghost use Rattle.dt_overlay_laws.specs.Laws.{AreShallow};
ghost use Rattle.dt_overlay_laws.specs.Steps.{FullAtSymbols};
ghost use Rattle.dt_overlay_object.specs.Objects.{Seen, IsToLandOn};
ghost use Rattle.dt_overlay_landing.specs.SymbolLanding.{HasLabels, HasLanded, WhereShallow, labels_of, object_labels, with_label, with_labels_of};
ghost use Rattle.dt_overlay_base.specs.Targets.{HasNoRoom, IsWant};
ghost use Rattle.dt_trees.specs.Placed.{reading_of};

use crate::sites::landing_path;
use dt_names::{Fault, NodeName, Path, PropName};
use dt_overlay_base::{Target, put_path};
use dt_overlay_object::{Landing, Object, Symbol};
use dt_trees::TreeView;
use std::alloc::Global;

/// Adds `__symbols__` where it isn't there.
fn add_symbols<T: Target>(alloc: Global, target: &mut T, symbols: &Path) -> Result<(), Fault>
    requires symbols { symbols.now ≡ codes "__symbols__" ∷ [] }
    ensures added { OnOk result (T.reading target.new ≡ with_child_at [] (codes "__symbols__") (T.reading target.old)) }
    ensures refused { IfErr result (IsWant (HasNoRoom T.reading T.has_room T.follows target.old (T.reading target.old)
        (with_child_at [] (codes "__symbols__") (T.reading target.old)))) }
    ensures follows { T.follows target.old target.new }
{
    if target.find(symbols) {
        return Ok(());
    }
    let root = Path::root(alloc);
    target.add_node(&root, &NodeName::new(b"__symbols__".as_slice())?)
}

/// Sets the label of a node that landed.
fn set_symbol<'o, T: Target, V: TreeView>(
    target: &mut T,
    object: &Object<'o, V>,
    landing: &mut Landing,
    symbol: &Symbol<'o>,
) -> Result<(), Fault>
    requires stands { stands_in (T.reading target.old) (codes "__symbols__" ∷ []) ≡ true }
    requires lands { (path : Names) × HasLanded V.tree object.now landing.old symbol.now path }
    ensures set { (path : Names) → HasLanded V.tree object.now landing.old symbol.now path →
        OnOk result (T.reading target.new ≡ with_label symbol.now path (T.reading target.old)) }
    ensures kept { OnOk result (landing.new.sites ≡ landing.old.sites) }
    ensures refused { (path : Names) → HasLanded V.tree object.now landing.old symbol.now path →
        IfErr result (IsWant (HasNoRoom T.reading T.has_room T.follows target.old (T.reading target.old)
        (with_label symbol.now path (T.reading target.old)))) }
    ensures follows { T.follows target.old target.new }
{
    object.tree.validity();
    let Some(path) = landing_path(landing, object.tree, &object.brought, symbol.node)? else {
        return Ok(());
    };
    put_path(&mut landing.text, &path)?;
    target.set_prop(
        landing.symbols.path(),
        &PropName::known(symbol.label),
        &landing.text,
    )
}

/// Sets the labels of the nodes that landed in `__symbols__`, by the nodes of the object's tree.
fn set_each_symbol<'o, T: Target, V: TreeView>(
    target: &mut T,
    object: &Object<'o, V>,
    landing: &mut Landing,
) -> Result<(), Fault>
    requires land { (found : List Site) × HasLabels V.tree found object.now landing.old }
    ensures set { (found : List Site) → HasLabels V.tree found object.now landing.old →
        OnOk result (T.reading target.new ≡ with_labels_of (reading_of (V.tree object.now.tree.now)) found (T.reading target.old)) }
    ensures refused { (found : List Site) → HasLabels V.tree found object.now landing.old →
        IfErr result (IsWant (FullAtSymbols (HasNoRoom T.reading T.has_room T.follows target.old)
        (object_labels V.tree object.now found) (T.reading target.old))) }
    ensures follows { T.follows target.old target.new }
{
    object.tree.validity();
    let symbols = object.symbols.as_slice();
    if symbols.is_empty() {
        return Ok(());
    }
    add_symbols(landing.places.alloc(), target, landing.symbols.path())?;
    for symbol in symbols {
        set_symbol(target, object, landing, symbol)?;
    }
    Ok(())
}

/// Sets the labels of an object's nodes that landed in `__symbols__`, each to its node's path (dtc's notes on overlay objects). `__symbols__` is
/// added where it isn't there and there is a label.
///
/// # Errors
///
/// `Limit` where the tree has no room for a change on the way, and `NoMemory`. Neither has a place.
pub fn set_symbols<'o, T: Target, V: TreeView>(
    target: &mut T,
    object: &Object<'o, V>,
    landing: &mut Landing,
) -> Result<(), Fault>
    requires sited { (seen : Seen) × (found : List Site) × IsToLandOn V.tree object.now seen found landing.old.sites.items × AreShallow seen.reading found }
    ensures set { WhereShallow V.tree object.now landing.old (λ read found.
        OnOk result (T.reading target.new ≡ with_labels_of read found (T.reading target.old))) }
    ensures refused { WhereShallow V.tree object.now landing.old (λ read found.
        IfErr result (IsWant (FullAtSymbols (HasNoRoom T.reading T.has_room T.follows target.old) (labels_of read found)
        (T.reading target.old)))) }
    ensures follows { T.follows target.old target.new }
{
    object.tree.validity();
    set_each_symbol(target, object, landing)
}
