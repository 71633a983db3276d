//! A blob built from sources.

ghost use Rattle.std.specs.Prelude.{◌≡◌, ◌⊎◌, map, IfOk, IfErr};
ghost use Rattle.dt_model.specs.Source.{base};
ghost use Rattle.dt_model.specs.Tree.{Reading};
ghost use Rattle.dt_chain_promises.specs.Apply.{IsRead};
ghost use Rattle.dt_chain_promises.specs.Build.{HasBaseTree, HasObject, WhyNoObject, IsBlobBuilt, WhyNoBlobBuilt};
ghost use Rattle.dt_chain_promises.specs.Compile.{WhyNoTree};
ghost use Rattle.dt_chain.specs.Steps.{OfEachText};
ghost use Rattle.dt_flat.specs.Arena.{reading};
ghost use Rattle.dt_names.specs.Fault.{placeless};
ghost use Rattle.dt_names.specs.declared.fault.FaultKind.TheVariants.{NoMemory};

use crate::applying::Blobs;
use crate::compiling::{overlay_blob, source_tree};
use crate::in_turn::{Inputs, blob_of};
use dt_flat::FlatTree;
use dt_model::one_reading;
use dt_model_format::blob_has_no_fault;
use dt_names::{Fault, Seed};
use dt_parse::{Source, parse};
use dt_source::Mode;
use std::alloc::Global;

/// The blob of a base's source with the overlays of other sources applied to it, one after another: what their texts mean, merged.
/// It has boot CPU 0.
///
/// # Errors
///
/// The number of the first input that is refused, where the base has number 0 and the overlays are counted from 1, with its fault:
/// that of `compile`, where the base is an overlay's source, or an overlay isn't one, `BadVersionTag` at 0; or, where the overlay
/// is applied to what those before it have made, that of `dt_overlay::apply`. `Limit` where the result would be longer than 16 MiB
/// is of the last input, and `NoMemory` of the one at which it is met.
pub fn build(alloc: Global, base: &[u8], overlays: &[&[u8]]) -> Result<Vec<u8>, (usize, Fault)>
    ensures blob { IfOk result (λ blob. IsBlobBuilt base.now (map (λ x. x.now) overlays.now) blob.items) }
    ensures refused { IfErr result (λ e. WhyNoBlobBuilt base.now (map (λ x. x.now) overlays.now) e.0 e.1) }
{
    blob_of::<Sources>(alloc, base, overlays)
}

/// Inputs that are sources: a base's, and overlays'.
pub(crate) struct Sources;

impl Inputs for Sources {
    ghost has_base = { HasBaseTree };

    ghost lacks_base = { WhyNoTree base };

    ghost has_object = { HasObject };

    ghost lacks_object = { WhyNoObject };

    fn base_tree(alloc: Global, base: &[u8], others: Seed) -> Result<FlatTree, Fault> {
        let mut source = parse(alloc, base)?;
        source.add_seed(others);
        let tree = indexed_tree(alloc, &source);
        // Let go of by hand: what goes at an exit by itself is proved there field by field.
        drop(source);
        tree
    }

    fn apply_to(alloc: Global, tree: &mut FlatTree, input: &[u8]) -> Result<(), Fault> {
        one_reading();
        blob_has_no_fault();
        let object = object_of(alloc, input)?;
        Blobs::apply_to(alloc, tree, &object)
    }
}

/// The tree of a base, indexed, since overlays look nodes and properties up by their names.
fn indexed_tree(alloc: Global, source: &Source<'_>) -> Result<FlatTree, Fault>
    ensures tree { IfOk result (λ t. OfEachText source.now (λ text. HasBaseTree text (reading t))) }
    ensures refused { IfErr result (λ fault. (fault ≡ placeless NoMemory) ⊎ OfEachText source.now (λ text. WhyNoTree base text fault)) }
{
    let mut tree = source_tree(alloc, source, Mode::Base)?;
    match tree.index() {
        Ok(()) => {
            tree.validity();
            Ok(tree)
        }
        Err(fault) => {
            drop(tree);
            Err(fault)
        }
    }
}

/// The blob of an overlay's source.
fn object_of(alloc: Global, text: &[u8]) -> Result<Vec<u8>, Fault>
    ensures object { IfOk result (λ blob. (t : Reading) × HasObject text.now t × IsRead blob.items t) }
    ensures refused { IfErr result (λ fault. WhyNoObject text.now fault) }
{
    let source = parse(alloc, text)?;
    let blob = overlay_blob(alloc, &source);
    drop(source);
    blob
}
