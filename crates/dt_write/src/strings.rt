//! The strings block, in which a name may stand at the end of a longer one (Devicetree Specification v0.4, 5.5).

ghost use Rattle.std.specs.Prelude.{◌≡◌, ◌≤◌, ◌++◌, [], true, map, length, OnOk, IfOk, IfErr, None};
ghost use Rattle.std.specs.List.{AllByRecursion};
ghost use Rattle.dt_model.specs.Limits.{most_bytes};
ghost use Rattle.dt_model.specs.Format.{IsText};
ghost use Rattle.dt_model.specs.Valid.{AreDistinct};
ghost use Rattle.dt_write.specs.Written.{has, offset_of, strings_block};
ghost use Rattle.dt_write.specs.Rows.{AreHolders, AreStarts, AreStrings};
ghost use Rattle.dt_write.specs.Refusals.{WhyNoBytes};

use crate::names::Names;
use crate::sharing::holders_of;
use crate::words::fits;
use dt_names::{Fault, FaultKind};
use std::alloc::{AllocError, Global};
use std::marker::Model;

/// The names of a tree, with the strings block that has them: for each name the number of the first stored one that ends with it, which is
/// its own where it is stored, and how many bytes the stored ones before it take. It is seen as the names, in the order of first use.
#[derive(Drop)]
pub(crate) struct Strings<'t> {
    names: Names<'t>,
    holders: Vec<usize>,
    starts: Vec<usize>,
    size: usize,
}

impl<'t> Model for Strings<'t> {
    ghost use Rattle.std.specs.Prelude.{List};
    ghost use Rattle.dt_model.specs.Names.{Name};
    ghost use Rattle.dt_write.specs.Rows.{AreStrings};

    ghost Value = { List Name };

    ghost view = { λ a. a.names };

    ghost invariant = { λ a. AreStrings a.names a.holders.items a.starts.items a.size };
}

/// Puts for each name how many bytes the stored ones before it take, each with its NUL, and says how many all of them take.
fn put_starts(names: &[&[u8]], holders: &[usize], starts: &mut Vec<usize>) -> Result<usize, Fault>
    requires distinct { AreDistinct (map (λ name. name.now) names.now) }
    requires holders { AreHolders (map (λ name. name.now) names.now) holders.now }
    requires empty { starts.old.items ≡ [] }
    ensures starts { OnOk result (AreStarts (map (λ name. name.now) names.now) starts.new.items) }
    ensures size { IfOk result (λ size. size ≡ length (strings_block (map (λ name. name.now) names.now))) }
    ensures short { IfOk result (λ size. size ≤ most_bytes) }
    ensures refused { IfErr result (λ fault.
        WhyNoBytes fault.kind (length (strings_block (map (λ name. name.now) names.now))) × (fault.at ≡ None)) }
{
    let mut size = 0usize;
    for (number, name) in names.iter().enumerate() {
        starts.push(size)?;
        if holders[number] == number {
            if !fits(size, name.len() + 1) {
                return Err(Fault::of(FaultKind::Limit));
            }
            size += name.len() + 1;
        }
    }
    Ok(size)
}

/// Where names lie in their strings block.
struct Layout {
    holders: Vec<usize>,
    starts: Vec<usize>,
    size: usize,
}

fn layout_of(alloc: Global, names: &[&[u8]]) -> Result<Layout, Fault>
    requires distinct { AreDistinct (map (λ name. name.now) names.now) }
    requires texts { AllByRecursion IsText (map (λ name. name.now) names.now) }
    ensures is { IfOk result (λ layout. AreStrings (map (λ name. name.now) names.now) layout.holders.items layout.starts.items layout.size) }
    ensures refused { IfErr result (λ fault.
        WhyNoBytes fault.kind (length (strings_block (map (λ name. name.now) names.now))) × (fault.at ≡ None)) }
{
    let holders = holders_of(alloc, names)?;
    let mut starts = Vec::with_capacity(alloc, names.len())?;
    let size = put_starts(names, &holders, &mut starts)?;
    Ok(Layout {
        holders,
        starts,
        size,
    })
}

impl<'t> Strings<'t> {
    /// The strings block of some names.
    ///
    /// # Errors
    ///
    /// `Limit` where it would be longer than 16,777,216 bytes; and `NoMemory`.
    pub fn new(alloc: Global, names: Names<'t>) -> Result<Self, Fault>
        requires { AllByRecursion IsText names }
        ensures is { IfOk result (λ strings. strings ≡ names.entry) }
        ensures refused { IfErr result (λ fault. WhyNoBytes fault.kind (length (strings_block names.entry)) × (fault.at ≡ None)) }
    {
        let Layout {
            holders,
            starts,
            size,
        } = layout_of(alloc, names.as_slice())?;
        Ok(Strings {
            names,
            holders,
            starts,
            size,
        })
    }

    /// How many bytes the strings block has.
    pub fn size(&self) -> usize
        ensures block { result ≡ length (strings_block self.now) }
        ensures short { result ≤ most_bytes }
    {
        self.size
    }

    /// Where a name begins, in bytes from the start of the strings block. It is found at once where it is that of the use at a place.
    pub fn offset(&self, name: &[u8], place: usize) -> usize
        requires { has self.now name.now ≡ true }
        ensures is { result ≡ offset_of self.now name.now }
        ensures within { result ≤ most_bytes }
    {
        let Some(number) = self.names.number(name, place) else {
            return 0;
        };
        let holder = self.holders[number];
        self.starts[holder] + self.names.as_slice()[holder].len() - name.len()
    }

    /// Puts the strings block at the end.
    pub fn put(&self, out: &mut Vec<u8>) -> Result<(), AllocError>
        ensures { OnOk result (out.new.items ≡ out.old.items ++ strings_block self.now) }
    {
        for (number, name) in self.names.as_slice().iter().enumerate() {
            if self.holders[number] == number {
                out.extend_from_slice(name)?;
                out.push(0)?;
            }
        }
        Ok(())
    }
}
