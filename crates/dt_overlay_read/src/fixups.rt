//! The cells that wait for a label of the base.

ghost use Rattle.std.specs.Prelude.{◌≡◌, ◌↔◌, ◌∷◌, ◌<◌, [], List, None, length, IsTrue, MatchOption, OnOk, IfOk, IfErr};
ghost use Rattle.dt_model.specs.Limits.{most_names};
ghost use Rattle.dt_model.specs.Meaning.{cell};
ghost use Rattle.dt_model.specs.Object.{Cell};
ghost use Rattle.dt_model.specs.Path.{Path as Names};
ghost use Rattle.dt_model.specs.Valid.{IsPhandle};
ghost use Rattle.dt_names.specs.declared.fault.FaultKind.TheVariants.{NoMemory, BadSymbol, BadFixup};
ghost use Rattle.dt_trees.specs.Placed.{reading_of};
ghost use Rattle.dt_trees.specs.Views.{prop_said};
ghost use Rattle.dt_overlay_texts.specs.Cells.{HasTold};
ghost use Rattle.dt_overlay_texts.specs.Texts.{IsPathValue};
ghost use Rattle.dt_overlay_laws.specs.Objects.{AreCellsOf, SymbolHasNumber};
ghost use Rattle.dt_overlay_laws.specs.Refusals.{WhyNoFixup, HasNoFixup};
ghost use Rattle.dt_overlay_object.specs.Plans.{ListsFixups};
ghost use Rattle.dt_overlay_read.specs.Fixups.{ListsTold, ListsCells, ListsLabels, WhyNoNumber};
ghost use Rattle.dt_names.specs.Fault.{IsMemoryOr};

use dt_names::{Fault, FaultKind, Path, phandle_of};
use dt_overlay_base::Target;
use dt_overlay_object::{Landing, Write};
use dt_overlay_texts::{cell_at, cell_texts_are_texts, symbol_path, texts, texts_are_one};
use dt_trees::{Prop, TreeView};
use std::alloc::Global;

/// Is the value texts of cells that the object has?
fn are_cells<V: TreeView>(object: &V, value: &[u8]) -> bool
    ensures { IsTrue result ↔ ((cells : List Cell) × AreCellsOf (reading_of (V.tree object.now)) value.now cells) }
{
    texts_are_one();
    cell_texts_are_texts();
    let Some(texts) = texts(value) else {
        return false;
    };
    for text in texts {
        if cell_at(object, text).is_none() {
            return false;
        }
    }
    true
}

/// A cell of the object gets a number.
fn list_cell<'o, V: TreeView>(
    object: &V,
    text: &'o [u8],
    number: u32,
    out: &mut Vec<Write<'o>>,
) -> Result<(), Fault>
    ensures listed { OnOk result (ListsTold (V.tree object.now) (text.now ∷ []) number out.old.items out.new.items) }
    ensures refused { IfErr result (IsMemoryOr (λ kind. (kind ≡ BadFixup) × ((c : Cell) → ¬ HasTold (reading_of (V.tree object.now)) text.now c))) }
{
    let Some((node, cell)) = cell_at(object, text) else {
        return Err(Fault::of(FaultKind::BadFixup));
    };
    out.push(Write {
        node,
        property: cell.property,
        offset: cell.offset,
        number,
    })?;
    Ok(())
}

/// The cells of a value's texts get a number.
fn list_cells<'o, V: TreeView>(
    object: &V,
    value: &'o [u8],
    number: u32,
    out: &mut Vec<Write<'o>>,
) -> Result<(), Fault>
    ensures listed { OnOk result (ListsCells (V.tree object.now) value.now number out.old.items out.new.items) }
    ensures refused { IfErr result (IsMemoryOr
        (λ kind. (kind ≡ BadFixup) × ((cells : List Cell) → ¬ AreCellsOf (reading_of (V.tree object.now)) value.now cells))) }
{
    texts_are_one();
    cell_texts_are_texts();
    let Some(texts) = texts(value) else {
        return Err(Fault::of(FaultKind::BadFixup));
    };
    for text in texts {
        list_cell(object, text, number, out)?;
    }
    Ok(())
}

/// The path of a symbol of the base.
fn path_of_symbol(alloc: Global, value: &[u8]) -> Result<Path, Fault>
    ensures value { IfOk result (IsPathValue value.now) }
    ensures refused { IfErr result (IsMemoryOr (λ kind. (kind ≡ BadSymbol) × ((path : Names) → IsPathValue value.now path → most_names < length path))) }
{
    match symbol_path(alloc, value) {
        Err(fault) if fault.kind == FaultKind::Limit => Err(Fault::of(FaultKind::BadSymbol)),
        path => path,
    }
}

/// The number whose cell a value is, if a node may have it.
fn cell_number(value: &[u8]) -> Option<u32>
    ensures { MatchOption result (¬ IsPhandle value.now) (λ number. value.now ≡ cell number) }
{
    phandle_of(value)
}

/// The number of the node that the base has for a label.
fn number_of<T: Target>(target: &T, landing: &Landing, label: &[u8]) -> Result<u32, Fault>
    ensures number { IfOk result (SymbolHasNumber (T.reading target.now) label.now) }
    ensures refused { IfErr result (λ fault. (fault.at ≡ None) × WhyNoNumber fault.kind (T.reading target.now) label.now) }
{
    target.validity();
    let Some(value) = target.prop(landing.symbols.path(), label) else {
        return Err(Fault::of(FaultKind::NoSymbol));
    };
    let path = path_of_symbol(landing.places.alloc(), value)?;
    match target.prop(&path, b"phandle".as_slice()) {
        Some(value) => cell_number(value).ok_or(Fault::of(FaultKind::BadSymbol)),
        None => Err(Fault::of(FaultKind::BadSymbol)),
    }
}

/// The cells that wait for a label, by the label and the value that lists them.
fn list_fixup<'o, T: Target, V: TreeView>(
    target: &T,
    landing: &Landing,
    object: &V,
    fixup: &Prop<'o>,
    out: &mut Vec<Write<'o>>,
) -> Result<(), Fault>
    ensures listed { OnOk result (ListsLabels (T.reading target.now) (V.tree object.now) (prop_said fixup.now ∷ []) out.old.items out.new.items) }
    ensures refused { IfErr result (IsMemoryOr
        (λ kind. WhyNoFixup kind (T.reading target.now) (reading_of (V.tree object.now)) (prop_said fixup.now))) }
{
    match number_of(target, landing, fixup.name) {
        Ok(number) => list_cells(object, fixup.value, number, out),
        Err(fault) if fault.kind == FaultKind::NoMemory => Err(fault),
        // Texts that are off are reported before their label.
        Err(_) if !are_cells(object, fixup.value) => Err(Fault::of(FaultKind::BadFixup)),
        Err(fault) => Err(fault),
    }
}

/// Lists what is written into the cells that the object's `__fixups__` lists (dtc's notes on overlay objects), label by label, in the
/// order of its properties: the number of the node that the tree has for the label.
///
/// # Errors
///
/// Of the first label that has one: `BadFixup` where its value isn't texts of cells that the object has; `NoSymbol` where the tree's
/// `__symbols__` hasn't the label; `BadSymbol` where it has, but for no node with a number; and `NoMemory`. None has a place.
pub(crate) fn list_fixups<'o, T: Target, V: TreeView>(
    target: &T,
    landing: &Landing,
    object: &'o V,
    out: &mut Vec<Write<'o>>,
) -> Result<(), Fault>
    ensures listed { OnOk result (ListsFixups (T.reading target.now) (V.tree object.now) out.old.items out.new.items) }
    ensures refused { IfErr result (IsMemoryOr (λ kind. HasNoFixup kind (T.reading target.now) (reading_of (V.tree object.now)))) }
{
    object.validity();
    let Some(node) = object.child(object.root(), b"__fixups__".as_slice()) else {
        return Ok(());
    };
    let fixups = object.props(landing.places.alloc(), node)?;
    for fixup in &fixups {
        list_fixup(target, landing, object, fixup, out)?;
    }
    Ok(())
}
