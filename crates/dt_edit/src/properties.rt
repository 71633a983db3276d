//! A property set: a plan, which looks, and its carrying out, which can't be refused.

ghost use Rattle.std.specs.Prelude.{◌≡◌, ◌<◌, ◌++◌, None, IsOk, IfOk, IfErr, length};
ghost use Rattle.dt_edit.specs.Editable.{size_with_value, IsEditable, MaySetWithin, WhyNotSetWithin};
ghost use Rattle.dt_edit.specs.Moving.{property_bytes};
ghost use Rattle.dt_edit.specs.Plans.{added_name, name_offset, HasOtherBlocks, IsPropertyPlan, HasPropertyRoom};
ghost use Rattle.dt_model.specs.Checks.{strings_of, structure_of};
ghost use Rattle.dt_read.specs.Checked.{placed_of};
ghost use Rattle.dt_read.specs.Cuts.{spliced};
ghost use Rattle.dt_trees.specs.Placed.{IsNode};

use crate::layout::{HEADER_SIZE, Layout, layout_of, strings_in};
use crate::moving::{Span, bring_name, padded_len, splice_property};
use crate::names::place_in;
use crate::phandles::may_set;
use dt_names::limits::MOST_BYTES;
use dt_names::{Fault, FaultKind};
use dt_read::{Cut, NodeId, property_cut};
use dt_write::set_header;

/// Where a property is set: the blob's layout, the bytes of the structure block that go, where the strings hold the name, if they do, and how long
/// the blob then is.
#[derive(Clone, Copy)]
pub(crate) struct PropertyPlan {
    layout: Layout,
    cut: Cut,
    place: Option<usize>,
    pub size: usize,
}

/// How a node's property is set in so many bytes.
///
/// # Errors
///
/// `BlobPhandle` where the property may not have that value; else `Limit`, by the size. None has a place.
pub(crate) fn plan_property(
    bytes: &[u8],
    room: usize,
    node: NodeId,
    name: &[u8],
    value: &[u8],
) -> Result<PropertyPlan, Fault>
    requires editable { IsEditable bytes.now }
    requires node { IsNode (placed_of bytes.now) node }
    requires name { length name.now < 256 }
    ensures plan { IfOk result (λ plan. IsPropertyPlan bytes.now node name.now plan) }
    ensures size { IfOk result (λ plan. plan.size ≡ size_with_value bytes.now node name.now value.now) }
    ensures allowed { IsOk result → MaySetWithin room bytes.now node name.now value.now }
    ensures refused { IfErr result (λ fault. WhyNotSetWithin room fault.kind bytes.now node name.now value.now × (fault.at ≡ None)) }
{
    if !may_set(bytes, node, name, value) {
        return Err(Fault::of(FaultKind::BlobPhandle));
    }
    let layout = layout_of(bytes);
    let cut = property_cut(bytes, node, name);
    if value.len() > MOST_BYTES {
        return Err(Fault::of(FaultKind::Limit));
    }
    let place = place_in(strings_in(bytes, &layout), name);
    let added = match place {
        Some(_) => 0,
        None => name.len() + 1,
    };
    let total = layout.structure_at + layout.structure + layout.strings;
    let size = total + padded_len(12 + value.len()) + added - cut.size;
    if size > room || size > MOST_BYTES {
        return Err(Fault::of(FaultKind::Limit));
    }
    Ok(PropertyPlan {
        layout,
        cut,
        place,
        size,
    })
}

/// Sets a property as it was planned.
pub(crate) fn carry_out(bytes: &mut [u8], plan: &PropertyPlan, name: &[u8], value: &[u8])
    requires editable { IsEditable bytes.old }
    requires room { HasPropertyRoom bytes.old plan.now name.now value.now }
    ensures { HasOtherBlocks bytes.old bytes.new
        (spliced plan.now.cut.at plan.now.cut.size (property_bytes (name_offset bytes.old name.now) value.now) (structure_of bytes.old))
        (strings_of bytes.old ++ added_name bytes.old name.now) }
{
    let PropertyPlan {
        layout,
        cut,
        place,
        ..
    } = *plan;
    let end = layout.structure_at + layout.structure + layout.strings;
    let own = padded_len(12 + value.len());
    let offset = place.unwrap_or(layout.strings);
    let span = Span {
        at: layout.structure_at + cut.at,
        size: cut.size,
        end,
    };
    splice_property(bytes, span, value, offset as u32);
    let added = bring_name(bytes, end + own - cut.size, place, name);
    let reservations = layout.structure_at - HEADER_SIZE;
    let structure = layout.structure + own - cut.size;
    set_header(
        bytes,
        layout.boot_cpu,
        reservations,
        structure,
        layout.strings + added,
    );
}
