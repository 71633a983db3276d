//! Where the blocks of a blob that can be edited are.

ghost use Rattle.std.specs.Prelude.{◌≡◌, ◌<◌, ◌^◌};
ghost use Rattle.dt_model.specs.Checks.{number, strings_of};
ghost use Rattle.dt_edit.specs.Editable.{IsEditable};
ghost use Rattle.dt_edit.specs.Plans.{IsLayout};

use dt_bytes::be32;

/// How many bytes a header takes (Devicetree Specification v0.4, 5.2).
pub(crate) const HEADER_SIZE: usize = 40;

/// The number at a place of a header.
pub(crate) fn number(bytes: &[u8], at: usize) -> u32
    ensures { result ≡ number bytes.now at }
{
    match be32(bytes, at) {
        Some(number) => number,
        None => 0,
    }
}

/// What the header of a blob that can be edited says: the number of the processor that boots, where the structure block begins, and how long the
/// structure and the strings are.
#[derive(Clone, Copy)]
pub(crate) struct Layout {
    pub boot_cpu: u32,
    pub structure_at: usize,
    pub structure: usize,
    pub strings: usize,
}

/// The layout of a blob.
pub(crate) fn layout_of(bytes: &[u8]) -> Layout
    requires { IsEditable bytes.now }
    ensures { IsLayout bytes.now result }
{
    Layout {
        boot_cpu: number(bytes, 28),
        structure_at: number(bytes, 8) as usize,
        structure: number(bytes, 36) as usize,
        strings: number(bytes, 32) as usize,
    }
}

/// The strings of a blob.
pub(crate) fn strings_in<'b>(bytes: &'b [u8], layout: &Layout) -> &'b [u8]
    requires editable { IsEditable bytes.now }
    requires layout { IsLayout bytes.now layout.now }
    ensures { result.now ≡ strings_of bytes.now }
{
    let at = layout.structure_at + layout.structure;
    &bytes[at..at + layout.strings]
}
