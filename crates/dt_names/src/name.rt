//! Names and labels as borrowed bytes that were looked at (Devicetree Specification v0.4, 2.2.1, 2.2.4.1 and 6.2).

ghost use Rattle.std.specs.Prelude.{◌≡◌, ◌↔◌, ◌==◌, ◌||◌, None, IfOk, IfErr, IsOk, IsTrue};
ghost use Rattle.dt_model.specs.Names.{is_name_byte, is_letter, is_digit, IsNodeName, IsPropertyName, IsLabel};
ghost use Rattle.dt_model.specs.Path.{is_bookkeeping_name as is_bookkeeping};
ghost use Rattle.dt_names.specs.declared.fault.FaultKind.TheVariants.{BadName};

use crate::fault::{Fault, FaultKind};
use crate::limits::MOST_NAME_BYTES;
use std::marker::Model;

/// The name of a node that isn't the root: a name, and perhaps an `@` and a unit address.
#[derive(Drop)]
pub struct NodeName<'a> {
    bytes: &'a [u8],
}

impl<'a> Model for NodeName<'a> {
    ghost use Rattle.std.specs.Prelude.{List, ℕ};
    ghost use Rattle.dt_model.specs.Names.{IsNodeName};

    ghost Value = { List ℕ };

    ghost view = { λ n. n.bytes.now };

    ghost invariant = { λ n. IsNodeName n.bytes.now };
}

/// The name of a property.
#[derive(Drop)]
pub struct PropName<'a> {
    name: &'a [u8],
}

impl<'a> Model for PropName<'a> {
    ghost use Rattle.std.specs.Prelude.{List, ℕ};
    ghost use Rattle.dt_model.specs.Names.{IsPropertyName};

    ghost Value = { List ℕ };

    ghost view = { λ n. n.name.now };

    ghost invariant = { λ n. IsPropertyName n.name.now };
}

/// A label of a source: letters, digits and `_`, no digit first, and not the text `phandle` (Devicetree Specification
/// v0.4, 6.2).
#[derive(Drop)]
pub struct Label<'a> {
    label: &'a [u8],
}

impl<'a> Model for Label<'a> {
    ghost use Rattle.std.specs.Prelude.{List, ℕ};
    ghost use Rattle.dt_model.specs.Names.{IsLabel};

    ghost Value = { List ℕ };

    ghost view = { λ l. l.label.now };

    ghost invariant = { λ l. IsLabel l.label.now };
}

/// Is it the name of a bookkeeping node, a child of the root in which an object, or a blob that takes one, keeps labels and
/// references (dtc's notes on overlay objects)? Takes no memory.
pub fn is_bookkeeping_name(name: &[u8]) -> bool
    ensures { result ≡ is_bookkeeping name.now }
{
    name == b"__symbols__".as_slice()
        || name == b"__fixups__".as_slice()
        || name == b"__local_fixups__".as_slice()
}

const NAME: u8 = 1;

const LABEL: u8 = 2;

/// What each byte may stand in: the low two bits of its letter are the flags above.
static CLASSES: [u8; 256] = *b"\
    @@@@@@@@@@@@@@@@@@@@@@@@@@@@@@@@\
    @@@A@@@@@@AAAAA@CCCCCCCCCC@@@@@A\
    @CCCCCCCCCCCCCCCCCCCCCCCCCC@@@@C\
    @CCCCCCCCCCCCCCCCCCCCCCCCCC@@@@@\
    @@@@@@@@@@@@@@@@@@@@@@@@@@@@@@@@\
    @@@@@@@@@@@@@@@@@@@@@@@@@@@@@@@@\
    @@@@@@@@@@@@@@@@@@@@@@@@@@@@@@@@\
    @@@@@@@@@@@@@@@@@@@@@@@@@@@@@@@@";

fn may_stand_in_a_name(byte: u8) -> bool
    ensures { result ≡ is_name_byte byte }
{
    CLASSES[byte as usize] & NAME != 0
}

pub(crate) fn is_node_name(bytes: &[u8]) -> bool
    ensures { IsTrue result ↔ IsNodeName bytes.now }
{
    if bytes.is_empty() || bytes.len() > MOST_NAME_BYTES || bytes[0] == b'@' {
        return false;
    }
    let mut has_at = false;
    for byte in bytes {
        if *byte == b'@' {
            if has_at {
                return false;
            }
            has_at = true;
        } else if !may_stand_in_a_name(*byte) {
            return false;
        }
    }
    true
}

fn is_property_name(bytes: &[u8]) -> bool
    ensures { IsTrue result ↔ IsPropertyName bytes.now }
{
    !bytes.is_empty()
        && bytes.len() <= MOST_NAME_BYTES
        && bytes.iter().all(|byte| may_stand_in_a_name(*byte))
}

fn may_stand_in_a_label(byte: u8) -> bool
    ensures { result ≡ (is_letter byte || is_digit byte || (byte == 95)) }
{
    CLASSES[byte as usize] & LABEL != 0
}

fn is_a_digit(byte: u8) -> bool
    ensures { result ≡ is_digit byte }
{
    matches!(byte, b'0'..=b'9')
}

fn is_label(bytes: &[u8]) -> bool
    ensures { IsTrue result ↔ IsLabel bytes.now }
{
    if bytes.is_empty() || bytes.len() > MOST_NAME_BYTES || is_a_digit(bytes[0]) {
        return false;
    }
    if bytes == b"phandle".as_slice() {
        return false;
    }
    bytes.iter().all(|byte| may_stand_in_a_label(*byte))
}

impl<'a> NodeName<'a> {
    /// The bytes as a node's name.
    ///
    /// # Errors
    ///
    /// `BadName`, without a place, where they are none.
    pub fn new(bytes: &'a [u8]) -> Result<NodeName<'a>, Fault>
        ensures valid { IsOk result ↔ IsNodeName bytes.now }
        ensures value { IfOk result (λ name. name ≡ bytes.now) }
        ensures fault { IfErr result (λ fault. (fault.kind ≡ BadName) × (fault.at ≡ None)) }
    {
        if is_node_name(bytes) {
            Ok(NodeName { bytes })
        } else {
            Err(Fault::of(FaultKind::BadName))
        }
    }

    /// Bytes that are known to be a node's name. Looks at none of them.
    pub fn known(bytes: &'a [u8]) -> NodeName<'a>
        requires { IsNodeName bytes.now }
        ensures { result ≡ bytes.now }
    {
        NodeName { bytes }
    }

    /// The bytes of the name.
    pub fn as_bytes(&self) -> &'a [u8]
        ensures value { result.now ≡ self.now }
        ensures valid { IsNodeName self.now }
    {
        self.bytes
    }
}

impl<'a> PropName<'a> {
    /// The bytes as a property's name.
    ///
    /// # Errors
    ///
    /// `BadName`, without a place, where they are none.
    pub fn new(bytes: &'a [u8]) -> Result<PropName<'a>, Fault>
        ensures valid { IsOk result ↔ IsPropertyName bytes.now }
        ensures value { IfOk result (λ name. name ≡ bytes.now) }
        ensures fault { IfErr result (λ fault. (fault.kind ≡ BadName) × (fault.at ≡ None)) }
    {
        if is_property_name(bytes) {
            Ok(PropName { name: bytes })
        } else {
            Err(Fault::of(FaultKind::BadName))
        }
    }

    /// Bytes that are known to be a property's name. Looks at none of them.
    pub fn known(bytes: &'a [u8]) -> PropName<'a>
        requires { IsPropertyName bytes.now }
        ensures { result ≡ bytes.now }
    {
        PropName { name: bytes }
    }

    /// The bytes of the name.
    pub fn as_bytes(&self) -> &'a [u8]
        ensures value { result.now ≡ self.now }
        ensures valid { IsPropertyName self.now }
    {
        self.name
    }
}

impl<'a> Label<'a> {
    /// The bytes as a label (Devicetree Specification v0.4, 6.2).
    ///
    /// # Errors
    ///
    /// `BadName`, without a place, where they are none.
    pub fn new(bytes: &'a [u8]) -> Result<Label<'a>, Fault>
        ensures valid { IsOk result ↔ IsLabel bytes.now }
        ensures value { IfOk result (λ label. label ≡ bytes.now) }
        ensures fault { IfErr result (λ fault. (fault.kind ≡ BadName) × (fault.at ≡ None)) }
    {
        if is_label(bytes) {
            Ok(Label { label: bytes })
        } else {
            Err(Fault::of(FaultKind::BadName))
        }
    }

    /// The bytes of the label.
    pub fn as_bytes(&self) -> &'a [u8]
        ensures value { result.now ≡ self.now }
        ensures valid { IsLabel self.now }
    {
        self.label
    }
}
