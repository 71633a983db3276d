//! Why a call was refused.

ghost use Rattle.std.specs.Prelude.{◌≡◌, None, Some};
ghost use Rattle.dt_names.specs.Fault.{fault_number, fault_name, fault_text, kind_text};
ghost use Rattle.dt_names.specs.declared.fault.FaultKind.TheVariants.{NoMemory};

use std::alloc::{AllocError, AllocFailed};
use std::error::Error;
use std::fmt;

/// What kind of fault it is.
#[derive(Clone, Copy, PartialEq, Eq)]
pub enum FaultKind {
    /// Memory was refused.
    NoMemory,
    /// A limit on sizes or counts was exceeded.
    Limit,
    /// The source doesn't begin with the tag `/dts-v1/;`.
    BadVersionTag,
    /// Bytes that begin no token of the source's language.
    BadToken,
    /// A token where the grammar doesn't allow it.
    Syntax,
    /// A literal that is no integer, or none of 64 bits.
    BadInteger,
    /// A division, or a remainder, by 0.
    DivideByZero,
    /// A number that doesn't fit the place it is written to.
    OutOfRange,
    /// A reference in a cell list whose elements aren't of 32 bits.
    BadReferenceWidth,
    /// A property behind a child of its node.
    PropertyAfterNode,
    /// A property that its node has already.
    DuplicateProperty,
    /// A child that its node has already.
    DuplicateNode,
    /// A label that names another node already.
    DuplicateLabel,
    /// A reference of a block or of a deletion that names no node, or of a deletion that names the root.
    NoSuchTarget,
    /// A reference in a value that names no node.
    UnresolvedReference,
    /// A `phandle` that isn't one number of the allowed range.
    BadPhandle,
    /// A `phandle` that another node has.
    DuplicatePhandle,
    /// A name that the tool keeps for its own nodes.
    ReservedName,
    /// A deletion in an overlay's source: an object has no form for it.
    OverlayDelete,
    /// A property `phandle` in an overlay's source.
    OverlayPhandle,
    /// A reference of an overlay's source outside a cell list, or by a path.
    OverlayPathReference,
    /// A memory reservation in an overlay's source.
    OverlayReserve,
    /// A reference in what a fragment brings, or a fragment's target, to a node that no fragment brings.
    OutsideContent,
    /// A fragment that holds no target.
    BadFragment,
    /// A blob of fewer bytes than a header has.
    ShortHeader,
    /// A blob that doesn't begin with the magic number.
    BadMagic,
    /// A total size below a header's, or above the number of bytes.
    BadTotal,
    /// A blob that a reader of version 17 can't read.
    BadVersion,
    /// A block of a blob that isn't aligned.
    Misaligned,
    /// A block of a blob that passes the total size.
    BlockOutside,
    /// Memory reservations without the pair of zeros that ends them.
    NoReservationEnd,
    /// A word of a structure block that is no token's.
    BadTag,
    /// A token that passes the end of the structure block.
    StructureCut,
    /// Bytes that aren't such a name.
    BadName,
    /// An offset in the strings block at which there is no name.
    BadNameOffset,
    /// A token of a structure block where none of its kind may stand.
    BadNesting,
    /// A property of a blob behind a child of its node.
    LateProperty,
    /// A node or a property of that name is there already.
    Duplicate,
    /// Something behind the token that ends a structure block.
    BadEnd,
    /// A `phandle` to be set in a tree that isn't one number of the allowed range, or that another node has.
    BlobPhandle,
    /// A label of a fixup that the base's `__symbols__` doesn't hold.
    NoSymbol,
    /// A symbol that isn't the path of a node, or of one that has no number.
    BadSymbol,
    /// A target of a fragment that names no node.
    NoTarget,
    /// A fixup that lists no four bytes of a value of the object.
    BadFixup,
    /// A local fixup that lists no four bytes, or a number that none of the nodes has that it may name.
    BadLocalFixup,
    /// A fragment whose target is no number and no path.
    NoFragmentTarget,
    /// A fragment that lands in a bookkeeping node.
    ReservedPlace,
    /// A path that names no node.
    NoNode,
    /// A node without that entry of `reg`.
    NoReg,
    /// A count of cells, or a value that is cut into cells, of another form than the standard's.
    BadCells,
    /// An address that no range of a bus holds.
    NotMapped,
    /// A bus whose addresses aren't mapped to the bus above.
    NoRanges,
    /// A bus of PCI, whose addresses need rules of their own.
    PciBus,
    /// An address that the bus above has no cells for.
    Overflow,
    /// A node without that interrupt.
    NoInterrupts,
    /// A node without an interrupt parent.
    NoParent,
    /// Interrupt parents, or maps, that lead round.
    Loop,
    /// An interrupt map, or its mask, that is cut, or isn't there.
    BadMap,
    /// An interrupt that no row of a map is for.
    NoMapEntry,
    /// A node whose unit address is too short for a map.
    NoUnitAddress,
    /// A phandle that no node has.
    UnknownPhandle,
    /// The output refused bytes.
    WriteFault,
    /// The input couldn't be read.
    ReadFault,
}

impl FaultKind {
    /// The number of the kind: it stays the same from one version to the next.
    pub fn number(self) -> u16
        ensures { result ≡ fault_number self }
    {
        match self {
            FaultKind::NoMemory => 1,
            FaultKind::Limit => 2,
            FaultKind::BadVersionTag => 10,
            FaultKind::BadToken => 11,
            FaultKind::Syntax => 12,
            FaultKind::BadInteger => 13,
            FaultKind::DivideByZero => 14,
            FaultKind::OutOfRange => 15,
            FaultKind::BadReferenceWidth => 16,
            FaultKind::PropertyAfterNode => 17,
            FaultKind::DuplicateProperty => 20,
            FaultKind::DuplicateNode => 21,
            FaultKind::DuplicateLabel => 22,
            FaultKind::NoSuchTarget => 23,
            FaultKind::UnresolvedReference => 24,
            FaultKind::BadPhandle => 25,
            FaultKind::DuplicatePhandle => 26,
            FaultKind::ReservedName => 27,
            FaultKind::OverlayDelete => 28,
            FaultKind::OverlayPhandle => 29,
            FaultKind::OverlayPathReference => 30,
            FaultKind::OverlayReserve => 31,
            FaultKind::OutsideContent => 32,
            FaultKind::BadFragment => 33,
            FaultKind::ShortHeader => 40,
            FaultKind::BadMagic => 41,
            FaultKind::BadTotal => 42,
            FaultKind::BadVersion => 43,
            FaultKind::Misaligned => 44,
            FaultKind::BlockOutside => 45,
            FaultKind::NoReservationEnd => 46,
            FaultKind::BadTag => 47,
            FaultKind::StructureCut => 48,
            FaultKind::BadName => 49,
            FaultKind::BadNameOffset => 50,
            FaultKind::BadNesting => 51,
            FaultKind::LateProperty => 52,
            FaultKind::Duplicate => 53,
            FaultKind::BadEnd => 54,
            FaultKind::BlobPhandle => 55,
            FaultKind::NoSymbol => 60,
            FaultKind::BadSymbol => 61,
            FaultKind::NoTarget => 62,
            FaultKind::BadFixup => 63,
            FaultKind::BadLocalFixup => 64,
            FaultKind::NoFragmentTarget => 66,
            FaultKind::ReservedPlace => 67,
            FaultKind::NoNode => 70,
            FaultKind::NoReg => 71,
            FaultKind::BadCells => 72,
            FaultKind::NotMapped => 73,
            FaultKind::NoRanges => 74,
            FaultKind::PciBus => 75,
            FaultKind::Overflow => 76,
            FaultKind::NoInterrupts => 80,
            FaultKind::NoParent => 81,
            FaultKind::Loop => 82,
            FaultKind::BadMap => 83,
            FaultKind::NoMapEntry => 84,
            FaultKind::NoUnitAddress => 85,
            FaultKind::UnknownPhandle => 86,
            FaultKind::WriteFault => 90,
            FaultKind::ReadFault => 91,
        }
    }

    /// The name of the kind, as its variant is written.
    pub fn name(self) -> &'static str
        ensures { result.now ≡ fault_name self }
    {
        match self {
            FaultKind::NoMemory => "NoMemory",
            FaultKind::Limit => "Limit",
            FaultKind::BadVersionTag => "BadVersionTag",
            FaultKind::BadToken => "BadToken",
            FaultKind::Syntax => "Syntax",
            FaultKind::BadInteger => "BadInteger",
            FaultKind::DivideByZero => "DivideByZero",
            FaultKind::OutOfRange => "OutOfRange",
            FaultKind::BadReferenceWidth => "BadReferenceWidth",
            FaultKind::PropertyAfterNode => "PropertyAfterNode",
            FaultKind::DuplicateProperty => "DuplicateProperty",
            FaultKind::DuplicateNode => "DuplicateNode",
            FaultKind::DuplicateLabel => "DuplicateLabel",
            FaultKind::NoSuchTarget => "NoSuchTarget",
            FaultKind::UnresolvedReference => "UnresolvedReference",
            FaultKind::BadPhandle => "BadPhandle",
            FaultKind::DuplicatePhandle => "DuplicatePhandle",
            FaultKind::ReservedName => "ReservedName",
            FaultKind::OverlayDelete => "OverlayDelete",
            FaultKind::OverlayPhandle => "OverlayPhandle",
            FaultKind::OverlayPathReference => "OverlayPathReference",
            FaultKind::OverlayReserve => "OverlayReserve",
            FaultKind::OutsideContent => "OutsideContent",
            FaultKind::BadFragment => "BadFragment",
            FaultKind::ShortHeader => "ShortHeader",
            FaultKind::BadMagic => "BadMagic",
            FaultKind::BadTotal => "BadTotal",
            FaultKind::BadVersion => "BadVersion",
            FaultKind::Misaligned => "Misaligned",
            FaultKind::BlockOutside => "BlockOutside",
            FaultKind::NoReservationEnd => "NoReservationEnd",
            FaultKind::BadTag => "BadTag",
            FaultKind::StructureCut => "StructureCut",
            FaultKind::BadName => "BadName",
            FaultKind::BadNameOffset => "BadNameOffset",
            FaultKind::BadNesting => "BadNesting",
            FaultKind::LateProperty => "LateProperty",
            FaultKind::Duplicate => "Duplicate",
            FaultKind::BadEnd => "BadEnd",
            FaultKind::BlobPhandle => "BlobPhandle",
            FaultKind::NoSymbol => "NoSymbol",
            FaultKind::BadSymbol => "BadSymbol",
            FaultKind::NoTarget => "NoTarget",
            FaultKind::BadFixup => "BadFixup",
            FaultKind::BadLocalFixup => "BadLocalFixup",
            FaultKind::NoFragmentTarget => "NoFragmentTarget",
            FaultKind::ReservedPlace => "ReservedPlace",
            FaultKind::NoNode => "NoNode",
            FaultKind::NoReg => "NoReg",
            FaultKind::BadCells => "BadCells",
            FaultKind::NotMapped => "NotMapped",
            FaultKind::NoRanges => "NoRanges",
            FaultKind::PciBus => "PciBus",
            FaultKind::Overflow => "Overflow",
            FaultKind::NoInterrupts => "NoInterrupts",
            FaultKind::NoParent => "NoParent",
            FaultKind::Loop => "Loop",
            FaultKind::BadMap => "BadMap",
            FaultKind::NoMapEntry => "NoMapEntry",
            FaultKind::NoUnitAddress => "NoUnitAddress",
            FaultKind::UnknownPhandle => "UnknownPhandle",
            FaultKind::WriteFault => "WriteFault",
            FaultKind::ReadFault => "ReadFault",
        }
    }
}

impl fmt::Debug for FaultKind {
    ghost debug_output = { λ kind. Some (fault_name kind) };

    fn fmt<W: fmt::Write>(&self, f: &mut fmt::Formatter<W>) -> fmt::Result {
        f.write_str(self.name())
    }
}

/// `fault N Name`: the number and the name of the kind.
impl fmt::Display for FaultKind {
    ghost output = { λ kind. Some (kind_text kind) };

    fn fmt<W: fmt::Write>(&self, f: &mut fmt::Formatter<W>) -> fmt::Result {
        let number = self.number();
        write!(f, "fault {number} {self:?}")
    }
}

impl Error for FaultKind {}

/// A refusal, and its place in the input, in bytes from the start, if it has one.
#[derive(Clone, Copy, Debug, PartialEq, Eq)]
pub struct Fault {
    pub kind: FaultKind,
    pub at: Option<usize>,
}

impl Fault {
    /// A fault without a place.
    pub fn of(kind: FaultKind) -> Self
        ensures kind { result.kind ≡ kind }
        ensures at { result.at ≡ None }
    {
        Fault { kind, at: None }
    }

    /// A fault at a place of the input, in bytes from its start.
    pub fn at(kind: FaultKind, place: usize) -> Self
        ensures kind { result.kind ≡ kind }
        ensures at { result.at ≡ Some place }
    {
        Fault {
            kind,
            at: Some(place),
        }
    }

    /// The number of the fault's kind: it stays the same from one version to the next.
    pub fn number(&self) -> u16
        ensures { result ≡ fault_number self.now.kind }
    {
        self.kind.number()
    }

    /// The name of the fault's kind, as its variant is written.
    pub fn name(&self) -> &'static str
        ensures { result.now ≡ fault_name self.now.kind }
    {
        self.kind.name()
    }
}

/// `fault N Name at P`, or without a place `fault N Name`.
impl fmt::Display for Fault {
    ghost output = { λ fault. Some (fault_text fault) };

    fn fmt<W: fmt::Write>(&self, f: &mut fmt::Formatter<W>) -> fmt::Result {
        let kind = self.kind;
        write!(f, "{kind}")?;
        match self.at {
            Some(place) => write!(f, " at {place}"),
            None => Ok(()),
        }
    }
}

impl Error for Fault {}

impl From<AllocError> for Fault {
    ghost from_gives = { λ _ f. (f.kind ≡ NoMemory) × (f.at ≡ None) };

    fn from(_error: AllocError) -> Fault {
        Fault::of(FaultKind::NoMemory)
    }
}

impl<T: Drop> From<AllocFailed<T>> for Fault {
    ghost from_gives = { λ _ f. (f.kind ≡ NoMemory) × (f.at ≡ None) };

    fn from(_error: AllocFailed<T>) -> Fault {
        Fault::of(FaultKind::NoMemory)
    }
}
