//! The labels of an object.

ghost use Rattle.std.specs.Prelude.{◌≡◌, ◌↔◌, ◌∷◌, [], ℕ, List, None, IsTrue, MatchOption, OnOk, IfErr};
ghost use Rattle.dt_model.specs.Lists.{IsIn};
ghost use Rattle.dt_model.specs.Tree.{Property};
ghost use Rattle.dt_names.specs.declared.fault.FaultKind.TheVariants.{NoMemory, BadSymbol};
ghost use Rattle.dt_overlay_texts.specs.Cuts.{IsCut};
ghost use Rattle.dt_overlay_laws.specs.Objects.{IsOfFragment, IsSymbol, symbols_in};
ghost use Rattle.dt_overlay_object.specs.Plans.{ListsSymbols};
ghost use Rattle.dt_overlay_read.specs.Symbols.{IsFirstName, IsWhatTextNames, ListsNamed};
ghost use Rattle.dt_names.specs.Fault.{IsMemoryOr};
ghost use Rattle.dt_trees.specs.Placed.{reading_of};
ghost use Rattle.dt_trees.specs.Views.{prop_said};

use crate::fragments::content_of;
use dt_names::{Fault, FaultKind, NodeId, PathRef};
use dt_overlay_object::Symbol;
use dt_overlay_texts::cut;
use dt_trees::{Prop, TreeView, node_of};
use memchr::memchr;
use std::alloc::Global;

/// What the text of a symbol names.
enum SymbolNames {
    // No node that a fragment brings.
    Nothing,
    // A node that a fragment would bring, if it were there.
    Missing,
    Node(NodeId),
}

/// The text of a value that has a NUL at its end and none before.
fn whole_text(value: &[u8]) -> Option<&[u8]>
    ensures { MatchOption result ((text : List ℕ) → ¬ IsCut 0 value.now text []) (λ text. IsCut 0 value.now text.now []) }
{
    match memchr(0, value) {
        Some(at) if at + 1 == value.len() => Some(&value[..at]),
        _ => None,
    }
}

/// The bytes before the first `/`; all where there is none.
fn first_name(bytes: &[u8]) -> &[u8]
    ensures { IsFirstName bytes.now result.now }
{
    match cut(bytes, b'/') {
        Some((name, _)) => name,
        None => bytes,
    }
}

/// Does a text begin with the path of what a fragment brings?
fn is_within_fragment<V: TreeView>(object: &V, text: &[u8]) -> bool
    ensures { IsTrue result ↔ IsOfFragment (reading_of (V.tree object.now)) text.now }
{
    object.validity();
    let Some((b'/', names)) = text.split_first() else {
        return false;
    };
    let Some((name, rest)) = cut(names, b'/') else {
        return false;
    };
    if first_name(rest) != b"__overlay__".as_slice() {
        return false;
    }
    match object.child(object.root(), name) {
        Some(node) => content_of(object, node).is_some(),
        None => false,
    }
}

/// The node that a text names, if a fragment brings it.
fn symbol_names<V: TreeView>(object: &V, text: &[u8]) -> SymbolNames
    ensures { IsWhatTextNames (V.tree object.now) text.now result }
{
    object.validity();
    if !is_within_fragment(object, text) {
        return SymbolNames::Nothing;
    }
    let Some(path) = PathRef::new(text) else {
        return SymbolNames::Missing;
    };
    match node_of(object, &path) {
        Some(node) => SymbolNames::Node(node),
        None => SymbolNames::Missing,
    }
}

/// A symbol of the object, if its node lands.
fn list_symbol<'o, V: TreeView>(
    object: &V,
    symbol: &Prop<'o>,
    out: &mut Vec<Symbol<'o>>,
) -> Result<(), Fault>
    ensures listed { OnOk result (ListsNamed (V.tree object.now) (prop_said symbol.now ∷ []) out.old.items out.new.items) }
    ensures refused { IfErr result (IsMemoryOr (λ kind. (kind ≡ BadSymbol) × ¬ IsSymbol (reading_of (V.tree object.now)) (prop_said symbol.now).value)) }
{
    object.validity();
    let Some(text) = whole_text(symbol.value) else {
        return Err(Fault::of(FaultKind::BadSymbol));
    };
    match symbol_names(object, text) {
        SymbolNames::Nothing => Ok(()),
        SymbolNames::Missing => Err(Fault::of(FaultKind::BadSymbol)),
        SymbolNames::Node(node) => {
            out.push(Symbol {
                label: symbol.name,
                node,
            })?;
            Ok(())
        }
    }
}

/// Lists the labels of the nodes that land, in the order of the object's `__symbols__` (dtc's notes on overlay objects).
///
/// # Errors
///
/// `BadSymbol` where a value isn't a text with its NUL, or names a node that a fragment would bring if it were there; and `NoMemory`.
/// None has a place.
pub(crate) fn list_symbols<'o, V: TreeView>(
    alloc: Global,
    object: &'o V,
    out: &mut Vec<Symbol<'o>>,
) -> Result<(), Fault>
    ensures listed { OnOk result (ListsSymbols (V.tree object.now) out.old.items out.new.items) }
    ensures refused { IfErr result (IsMemoryOr (λ kind. (kind ≡ BadSymbol) × ((x : Property)
        × IsIn x (symbols_in (reading_of (V.tree object.now))) × ¬ IsSymbol (reading_of (V.tree object.now)) x.value))) }
{
    object.validity();
    let Some(node) = object.child(object.root(), b"__symbols__".as_slice()) else {
        return Ok(());
    };
    let symbols = object.props(alloc, node)?;
    for symbol in &symbols {
        list_symbol(object, symbol, out)?;
    }
    Ok(())
}
