//! A source's blob.

ghost use Rattle.std.specs.Prelude.{◌≡◌, None, length, IfOk, IfErr};
ghost use Rattle.dt_flat.specs.Arena.{reading};
ghost use Rattle.dt_model.specs.Named.{tree_of};
ghost use Rattle.dt_model.specs.Source.{base, raw};
ghost use Rattle.dt_model.specs.Tree.{Reading};
ghost use Rattle.dt_names.specs.declared.fault.FaultKind.TheVariants.{NoMemory};
ghost use Rattle.dt_source_bodies.specs.Refusals.{mode_said};
ghost use Rattle.dt_source.specs.Refusals.{WhyNotNamed, fault_place};
ghost use Rattle.dt_chain_promises.specs.Apply.{IsRead};
ghost use Rattle.dt_chain_promises.specs.Compile.{IsBlobOf, WhyNoBlob, IsCompiled, WhyNoTree, WhyNotCompiled};
ghost use Rattle.dt_chain_promises.specs.Compile.{IsCompilerFault, IsCompiledOverlay, WhyNotCompiledOverlay, TextHasTree, OverlayTextHasTree};
ghost use Rattle.dt_chain_promises.specs.Build.{HasObject};
ghost use Rattle.dt_chain.specs.Steps.{OfEachText, HasNamed, IsNumbered, HasRoom, WhyNotLabelled, HasRooms, IsMarked, WhyNotMarked};
ghost use Rattle.dt_names.specs.Fault.{IsNoMemory};

use dt_flat::FlatTree;
use dt_marks::{add_fixups, add_symbols};
use dt_model_laws::{overlay_source_is_an_overlay, source_is_a_meaning, tree_is_meant};
use dt_names::Fault;
use dt_parse::{Source, parse};
use dt_phandle::{instance, number};
use dt_source::{Mode, build_base, build_overlay};
use dt_source_named_tree::NamedTree;
use dt_write::write_blob;
use std::alloc::Global;

/// The blob of a source (Devicetree Specification v0.4, chapters 5 and 6): version 17, boot CPU 0. Nodes, properties and
/// labels stand in the order of the text. Each node that a label or a reference in a cell list names has a number of its
/// own, its property `phandle`: the written one, or else the least that no node has, in the order of the tree. Where there
/// is a label, the root's child `__symbols__` holds the labels with their nodes' paths, behind the source's own nodes.
///
/// Of an overlay's source (`/plugin/;`), the object that a boot loader applies to a blob with `__symbols__` (dtc's notes on
/// overlay objects). A block by a label that the source has given before opens that node; each other block by a label or a path
/// opens the content of a new fragment. A cell by a label that the source gives holds its node's number, and `__local_fixups__` lists
/// it; a cell by any other label is all ones, and `__fixups__` lists it.
///
/// # Errors
///
/// In this order: a text that is no source, with the fault and the place of `dt_parse::parse`. The others have no place: of
/// an overlay's source, memory reservations: `OverlayReserve`; then the first place of the text that is refused:
/// `ReservedName`, `DuplicateNode`, `DuplicateProperty`, `DuplicateLabel`, or `Limit` (a path of more than 64 names); of a
/// base also `NoSuchTarget`, of an overlay's source also `OverlayDelete`, `OverlayPhandle` and `OverlayPathReference`; then
/// what is wrong at the end: of a base `UnresolvedReference`, `BadPhandle`, `DuplicatePhandle`, of an overlay's source
/// `BadFragment`, `OutsideContent`; then `Limit`: more than 65,536 nodes, or in an object a path of more than 64 names, those
/// that are added among them, or a blob longer than 16 MiB. `NoMemory` may be met at any time.
pub fn compile(alloc: Global, text: &[u8]) -> Result<Vec<u8>, Fault>
    ensures blob { IfOk result (λ blob. IsBlobOf text.now blob.items) }
    ensures refused { IfErr result (λ fault. WhyNoBlob text.now fault) }
    ensures kinds { IfErr result (λ fault. IsCompilerFault fault.kind) }
{
    let source = parse(alloc, text)?;
    if source.is_overlay() {
        overlay_blob(alloc, &source)
    } else {
        source_blob(alloc, &source, Mode::Base)
    }
}

/// The blob of a source as it is: as `compile` of a base, but the bookkeeping nodes may be written, and nothing is added.
///
/// # Errors
///
/// Those of `compile` of a base, but `ReservedName`; and an overlay's source: `BadVersionTag`, at 0, after the faults of
/// `dt_parse::parse`.
pub fn compile_raw(alloc: Global, text: &[u8]) -> Result<Vec<u8>, Fault>
    ensures blob { IfOk result (λ blob. IsCompiled raw text.now blob.items) }
    ensures refused { IfErr result (λ fault. WhyNotCompiled raw text.now fault) }
    ensures kinds { IfErr result (λ fault. IsCompilerFault fault.kind) }
{
    let source = parse(alloc, text)?;
    let blob = source_blob(alloc, &source, Mode::Raw);
    drop(source);
    blob
}

/// The blob of a source that is no overlay's.
fn source_blob(alloc: Global, source: &Source<'_>, mode: Mode) -> Result<Vec<u8>, Fault>
    ensures blob { IfOk result (λ blob. OfEachText source.now (λ text. IsCompiled (mode_said mode) text blob.items)) }
    ensures refused { IfErr result (λ fault. OfEachText source.now (λ text. WhyNotCompiled (mode_said mode) text fault)) }
{
    let tree = source_tree(alloc, source, mode)?;
    tree.validity();
    let blob = write_blob(alloc, &tree);
    drop(tree);
    blob
}

/// The blob of an overlay's object.
pub(crate) fn overlay_blob(alloc: Global, source: &Source<'_>) -> Result<Vec<u8>, Fault>
    ensures blob { IfOk result (λ blob. OfEachText source.now (λ text. IsCompiledOverlay text blob.items)) }
    ensures object { IfOk result (λ blob. OfEachText source.now (λ text. (t : Reading) × HasObject text t × IsRead blob.items t)) }
    ensures refused { IfErr result (λ fault. OfEachText source.now (λ text. WhyNotCompiledOverlay text fault)) }
{
    let tree = overlay_tree(alloc, source)?;
    tree.validity();
    let blob = write_blob(alloc, &tree);
    drop(tree);
    blob
}

/// The tree that a source means.
fn named_tree<'a>(alloc: Global, source: &'a Source<'a>, mode: Mode) -> Result<NamedTree<'a>, Fault>
    ensures named { IfOk result (λ t. HasNamed (mode_said mode) source.now (tree_of t)) }
    ensures refused { IfErr result (λ fault. WhyNotNamed (mode_said mode) fault.kind source.now × (fault.at ≡ fault_place fault.kind)) }
{
    source.spelled();
    build_base(alloc, source, mode)
}

/// The same with a number for each of its keyed nodes.
fn numbered(alloc: Global, named: &NamedTree<'_>) -> Result<FlatTree, Fault>
    ensures tree { IfOk result (λ t. IsNumbered raw (tree_of named.now) (reading t)) }
    ensures count { IfOk result (λ t. length t.slots ≡ length named.now.nodes) }
    ensures refused { IfErr result IsNoMemory }
{
    let numbering = number(alloc, named)?;
    instance(alloc, named, &numbering)
}

/// The same with its labels.
fn labelled(alloc: Global, named: &NamedTree<'_>) -> Result<FlatTree, Fault>
    requires { HasRoom (tree_of named.now) }
    ensures tree { IfOk result (λ t. IsNumbered base (tree_of named.now) (reading t)) }
    ensures refused { IfErr result (λ fault. WhyNotLabelled fault.kind (tree_of named.now) × (fault.at ≡ None)) }
{
    named.validity();
    let mut tree = numbered(alloc, named)?;
    match add_symbols(alloc, &mut tree, named) {
        Ok(()) => Ok(tree),
        Err(fault) => {
            // Let go of by hand: what goes at an exit by itself is proved there field by field.
            drop(tree);
            Err(fault)
        }
    }
}

/// The same with its cells that refer to nodes.
fn marked(alloc: Global, named: &NamedTree<'_>) -> Result<FlatTree, Fault>
    requires { HasRooms (tree_of named.now) }
    ensures tree { IfOk result (λ t. IsMarked (tree_of named.now) (reading t)) }
    ensures refused { IfErr result (λ fault. WhyNotMarked fault.kind (tree_of named.now) × (fault.at ≡ None)) }
{
    let mut tree = labelled(alloc, named)?;
    match add_fixups(alloc, &mut tree, named) {
        Ok(()) => Ok(tree),
        Err(fault) => {
            drop(tree);
            Err(fault)
        }
    }
}

/// The tree of a source that is no overlay's.
pub(crate) fn source_tree(alloc: Global, source: &Source<'_>, mode: Mode) -> Result<FlatTree, Fault>
    ensures tree { IfOk result (λ t. OfEachText source.now (λ text. TextHasTree (mode_said mode) text (reading t))) }
    ensures refused { IfErr result (λ fault. OfEachText source.now (λ text. WhyNoTree (mode_said mode) text fault)) }
{
    tree_is_meant();
    source_is_a_meaning();
    let named = named_tree(alloc, source, mode)?;
    match mode {
        Mode::Base => labelled(alloc, &named),
        Mode::Raw => numbered(alloc, &named),
    }
}

fn overlay_tree(alloc: Global, source: &Source<'_>) -> Result<FlatTree, Fault>
    ensures tree { IfOk result (λ t. OfEachText source.now (λ text. OverlayTextHasTree text (reading t))) }
    ensures refused { IfErr result (λ fault. OfEachText source.now (λ text. WhyNotCompiledOverlay text fault)) }
{
    overlay_source_is_an_overlay();
    source.spelled();
    let overlay = build_overlay(alloc, source)?;
    marked(alloc, overlay.tree())
}
