//! The structure block (Devicetree Specification v0.4, 5.4).

ghost use Rattle.std.specs.Prelude.{◌≡◌, ◌+◌, ◌<◌, ◌^◌, ◌++◌, ◌∷◌, [], true, length, OnOk, IfErr, None};
ghost use Rattle.std.specs.List.{flat_map};
ghost use Rattle.dt_model.specs.Format.{word};
ghost use Rattle.dt_write.specs.Written.{has, begin_block, property_block, nodes_block, zeros_after};
ghost use Rattle.dt_write.specs.Parts.{tree_at, HasAll, HasBelow};
ghost use Rattle.dt_write.specs.Refusals.{WhyNoBytes};

use crate::strings::Strings;
use crate::words::{fits, put_word, put_words, put_zeros};
use dt_flat::{FlatTree, NodeId, Props};
use dt_names::{Fault, FaultKind};
use std::alloc::AllocError;

const BEGIN_NODE: u32 = 1;

const END_NODE: u32 = 2;

const PROP: u32 = 3;

fn put_begin(out: &mut Vec<u8>, name: &[u8]) -> Result<(), AllocError>
    ensures { OnOk result (out.new.items ≡ out.old.items ++ begin_block name.now) }
{
    put_word(out, BEGIN_NODE)?;
    out.extend_from_slice(name)?;
    out.push(0)?;
    put_zeros(out, name.len() + 1)
}

/// Puts a property whose name begins at an offset of the strings block.
fn put_value(out: &mut Vec<u8>, offset: u32, value: &[u8]) -> Result<(), AllocError>
    requires { length value.now < 2 ^ 32 }
    ensures { OnOk result (out.new.items ≡ out.old.items
        ++ (word 3 ++ word (length value.now) ++ word offset ++ value.now ++ zeros_after (length value.now))) }
{
    put_words(out, [PROP, value.len() as u32, offset])?;
    out.extend_from_slice(value)?;
    put_zeros(out, value.len())
}

/// Puts a property, whose name is the use at a place, and goes on to the next place.
fn put_property(
    strings: &Strings<'_>,
    place: &mut usize,
    out: &mut Vec<u8>,
    name: &[u8],
    value: &[u8],
) -> Result<(), Fault>
    requires { has strings.now name.now ≡ true }
    ensures put { OnOk result
        (out.new.items ≡ out.old.items ++ property_block strings.now (record { name = name.now; value = value.now })) }
    ensures refused { IfErr result (λ fault. WhyNoBytes fault.kind
        (length out.old.items + length (property_block strings.now (record { name = name.now; value = value.now }))) × (fault.at ≡ None)) }
{
    if !fits(out.len(), value.len()) {
        return Err(Fault::of(FaultKind::Limit));
    }
    put_value(out, strings.offset(name, *place) as u32, value)?;
    *place = place.wrapping_add(1);
    Ok(())
}

fn put_properties(
    props: Props<'_>,
    strings: &Strings<'_>,
    place: &mut usize,
    out: &mut Vec<u8>,
) -> Result<(), Fault>
    requires { HasAll strings.now props }
    ensures put { OnOk result (out.new.items ≡ out.old.items ++ flat_map (property_block strings.now) props.entry) }
    ensures refused { IfErr result (λ fault. WhyNoBytes fault.kind
        (length out.old.items + length (flat_map (property_block strings.now) props.entry)) × (fault.at ≡ None)) }
{
    for (name, value) in props {
        put_property(strings, place, out, name, value)?;
    }
    Ok(())
}

/// Puts a node with all that is below it at the end of the structure block. The names of its properties are the uses from a place on.
pub(crate) fn put_node(
    tree: &FlatTree,
    node: NodeId,
    strings: &Strings<'_>,
    place: &mut usize,
    out: &mut Vec<u8>,
) -> Result<(), Fault>
    requires within { node < length tree.now.slots }
    requires has { HasBelow strings.now (tree_at tree.now.slots node) }
    ensures put { OnOk result (out.new.items ≡ out.old.items ++ nodes_block strings.now (tree_at tree.now.slots node)) }
    ensures refused { IfErr result (λ fault. WhyNoBytes fault.kind
        (length out.old.items + length (nodes_block strings.now (tree_at tree.now.slots node))) × (fault.at ≡ None)) }
{
    put_begin(out, tree.name(node))?;
    put_properties(tree.props(node), strings, place, out)?;
    for child in tree.children(node) {
        put_node(tree, child, strings, place, out)?;
    }
    put_word(out, END_NODE)?;
    Ok(())
}
