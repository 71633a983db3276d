//! A blob of a base and of what is applied to it, one after another, whatever the inputs are.

ghost use Rattle.std.specs.Prelude.{◌≡◌, ◌⊎◌, ℕ, List, map, OnOk, IfOk, IfErr};
ghost use Rattle.dt_flat.specs.Arena.{reading};
ghost use Rattle.dt_model.specs.Tree.{Reading};
ghost use Rattle.dt_names.specs.Fault.{placeless};
ghost use Rattle.dt_names.specs.declared.fault.Fault.{Fault as AFault};
ghost use Rattle.dt_names.specs.declared.fault.FaultKind.TheVariants.{NoMemory};
ghost use Rattle.dt_chain_promises.specs.Apply.{IsStep, AreSteps, WhyNoStep, IsStopped, IsBlobOfAll, WhyNoneOfAll};

use dt_flat::FlatTree;
use dt_names::{Fault, Seed};
use dt_write::write_blob;
use std::alloc::Global;

/// What inputs are: blobs, or the sources of blobs.
pub(crate) trait Inputs {
    // The tree of a base, or why it has none.
    ghost has_base: { List ℕ → Reading → Type 0 };

    ghost lacks_base: { List ℕ → AFault → Type 0 };

    // The object of another input, or why it has none.
    ghost has_object: { List ℕ → Reading → Type 0 };

    ghost lacks_object: { List ℕ → AFault → Type 0 };

    /// The tree of a base, into which names and numbers of inputs that have the seed will come.
    fn base_tree(alloc: Global, base: &[u8], others: Seed) -> Result<FlatTree, Fault>
        ensures tree { IfOk result (λ tree. has_base base.now (reading tree)) }
        ensures refused { IfErr result (λ fault. (fault ≡ placeless NoMemory) ⊎ lacks_base base.now fault) };

    /// Applies the object of an input to a tree.
    fn apply_to(alloc: Global, tree: &mut FlatTree, input: &[u8]) -> Result<(), Fault>
        ensures applied { OnOk result ((t : Reading) × has_object input.now t × IsStep (reading tree.old) t (reading tree.new)) }
        ensures refused { IfErr result (λ fault. WhyNoStep has_object lacks_object (reading tree.old) input.now fault) };
}

/// The blob of a base with the objects of the inputs applied to it, or the number of the input that is refused, with its fault.
pub(crate) fn blob_of<I: Inputs>(
    alloc: Global,
    base: &[u8],
    inputs: &[&[u8]],
) -> Result<Vec<u8>, (usize, Fault)>
    ensures blob { IfOk result (λ blob. IsBlobOfAll I.has_base I.has_object base.now (map (λ x. x.now) inputs.now) blob.items) }
    ensures refused { IfErr result (λ e. WhyNoneOfAll I.has_base I.has_object I.lacks_base I.lacks_object base.now (map (λ x. x.now) inputs.now) e.0 e.1) }
{
    let mut tree = match I::base_tree(alloc, base, Seed::of_all(inputs)) {
        Ok(tree) => tree,
        Err(fault) => return Err((0, fault)),
    };
    let blob = apply_and_write::<I>(alloc, &mut tree, inputs);
    // Let go of by hand: what goes at an exit by itself is proved there field by field.
    drop(tree);
    blob
}

/// The blob of a tree with the objects applied to it. It borrows the tree, since each exit where one is owned costs its proof.
fn apply_and_write<I: Inputs>(
    alloc: Global,
    tree: &mut FlatTree,
    inputs: &[&[u8]],
) -> Result<Vec<u8>, (usize, Fault)>
    ensures blob { (base : List ℕ) → I.has_base base (reading tree.old) →
        IfOk result (λ blob. IsBlobOfAll I.has_base I.has_object base (map (λ x. x.now) inputs.now) blob.items) }
    ensures refused { (base : List ℕ) → I.has_base base (reading tree.old) →
        IfErr result (λ e. WhyNoneOfAll I.has_base I.has_object I.lacks_base I.lacks_object base (map (λ x. x.now) inputs.now) e.0 e.1) }
{
    apply_all::<I>(alloc, tree, inputs)?;
    match write_blob(alloc, tree) {
        Ok(blob) => Ok(blob),
        Err(fault) => Err((inputs.len(), fault)),
    }
}

/// Applies the objects to a tree.
fn apply_all<I: Inputs>(
    alloc: Global,
    tree: &mut FlatTree,
    inputs: &[&[u8]],
) -> Result<(), (usize, Fault)>
    ensures applied { OnOk result (AreSteps I.has_object (reading tree.old) (map (λ x. x.now) inputs.now) (reading tree.new)) }
    ensures refused { IfErr result (λ e. IsStopped I.has_object I.lacks_object (reading tree.old) (map (λ x. x.now) inputs.now) e.0 e.1) }
{
    for (k, input) in inputs.iter().enumerate() {
        if let Err(fault) = I::apply_to(alloc, tree, input) {
            return Err((k + 1, fault));
        }
    }
    Ok(())
}
