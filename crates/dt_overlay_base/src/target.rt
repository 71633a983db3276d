//! Trees that take an overlay.

ghost use Rattle.std.specs.Prelude.{◌≡◌, ◌+◌, ◌*◌, ◌≤◌, true, ℕ, List, None, Some, length, OnOk, OnErr, IsOk, IfOk, IfErr, MatchOption};
ghost use Rattle.std.specs.Option.{option_copied};
ghost use Rattle.dt_model.specs.Applied.{with_cell};
ghost use Rattle.dt_model.specs.Changes.{with_child_at, with_property_at};
ghost use Rattle.dt_model.specs.Limits.{most_nodes};
ghost use Rattle.dt_model.specs.Numbers.{numbers_of};
ghost use Rattle.dt_model.specs.Path.{Path as Names};
ghost use Rattle.dt_model.specs.Tree.{Reading, stands_in, value_in};
ghost use Rattle.dt_model.specs.Valid.{IsValid, IsWithinLimits};
ghost use Rattle.dt_names.specs.declared.fault.FaultKind.TheVariants.{NoMemory};
ghost use Rattle.dt_overlay_laws.specs.Objects.{HasCells, HasNumber};
ghost use Rattle.dt_overlay_base.specs.Known.{IsNext};
ghost use Rattle.dt_overlay_base.specs.Targets.{MayAddAt, HasRoomAt, WhyNotAddedAt, WhyNotSetAt};
ghost use Rattle.dt_names.specs.Fault.{IsNoMemory};

use dt_names::{Fault, NodeName, Path, PropName, Seed};
use std::alloc::Global;

/// A tree that takes an overlay. It is seen as the tree that a blob's reader has.
pub trait Target {
    /// The tree.
    ghost reading: { Self → Reading };

    /// What there is room for: trees that this one may become by a change. For a `FlatTree` the number of nodes decides it; for another
    /// target it may depend on more than its reading.
    ghost has_room: { Self → Reading → Type 0 };

    /// What changes keep: whether a tree may come of another by changes. Where an object has no room is said of such trees alone, since any tree of
    /// the same reading may have less. A `FlatTree` keeps nothing, since its reading says what there is room for.
    ghost follows: { Self → Self → Type 0 };

    ghost follows_refl: { (s : Self) → follows s s };

    ghost follows_trans: { (a b c : Self) → follows a b → follows b c → follows a c };

    /// What is true of each tree: a blob may hold it (Devicetree Specification v0.4, chapters 2 and 5), it is within the limits,
    /// and each `phandle` is the cell of a number. Does nothing.
    fn validity(&self)
        ensures valid { IsValid (reading self.now) }
        ensures within { IsWithinLimits (reading self.now) }
        ensures cells { HasCells (reading self.now) };

    /// What the tree's names and numbers are hashed behind: the seed of all inputs that bring them.
    fn seed(&self) -> Seed;

    /// Is there a node of the path? Takes no memory.
    fn find(&self, path: &Path) -> bool
        ensures { result ≡ stands_in (reading self.now) path.now };

    /// The value of a property of a path's node; None where there is no such node, or it has no property of that name.
    /// Takes no memory.
    fn prop(&self, path: &Path, name: &[u8]) -> Option<&[u8]>
        ensures { option_copied result ≡ value_in (reading self.now) path.now name.now };

    /// The path of the node that has the number as its `phandle` (Devicetree Specification v0.4, 2.3.3), None where none has it.
    ///
    /// # Errors
    ///
    /// `NoMemory`, without a place.
    fn by_phandle(&self, alloc: Global, number: u32) -> Result<Option<Path>, Fault>
        ensures found { IfOk result (λ found. MatchOption found ((p : Names) → HasNumber (reading self.now) p number → ⊥)
            (λ path. HasNumber (reading self.now) path number)) }
        ensures refused { IfErr result IsNoMemory };

    /// The least number above another that no node has as its `phandle`. Takes no memory.
    fn free_above(&self, last: u32) -> u32
        requires { last ≤ 2 * most_nodes }
        ensures { IsNext (numbers_of (reading self.now)) last result };

    /// Sets a property of a path's node: one that is there keeps its place, a new one goes last.
    ///
    /// # Errors
    ///
    /// `BlobPhandle` where the property is `phandle`, and the value isn't four bytes of a number from 1 to 0xfffffffe that no other node
    /// has; else `Limit` where there is no room; and `NoMemory`. None has a place. At a fault the tree is unchanged.
    fn set_prop(&mut self, path: &Path, name: &PropName<'_>, value: &[u8]) -> Result<(), Fault>
        requires { stands_in (reading self.old) path.now ≡ true }
        ensures ok { OnOk result (reading self.new ≡ with_property_at path.now name.now value.now (reading self.old)) }
        ensures allowed { IsOk result → HasRoomAt (has_room self.old) (reading self.old) path.now name.now value.now }
        ensures err { OnErr result (reading self.new ≡ reading self.old) }
        ensures follows { follows self.old self.new }
        ensures refused { IfErr result (λ fault.
            WhyNotSetAt (has_room self.old) fault.kind (reading self.old) path.now name.now value.now × (fault.at ≡ None)) };

    /// Adds a child at the end of the children of a path's node.
    ///
    /// # Errors
    ///
    /// `Duplicate` where the node has a child of that name; else `Limit` where there is no room, or the path has 64 names; and `NoMemory`.
    /// None has a place. At a fault the tree is unchanged.
    fn add_node(&mut self, parent: &Path, name: &NodeName<'_>) -> Result<(), Fault>
        requires { stands_in (reading self.old) parent.now ≡ true }
        ensures ok { OnOk result (reading self.new ≡ with_child_at parent.now name.now (reading self.old)) }
        ensures allowed { IsOk result → MayAddAt (has_room self.old) (reading self.old) parent.now name.now }
        ensures err { OnErr result (reading self.new ≡ reading self.old) }
        ensures follows { follows self.old self.new }
        ensures refused { IfErr result (λ fault.
            WhyNotAddedAt (has_room self.old) fault.kind (reading self.old) parent.now name.now × (fault.at ≡ None)) };

    /// Writes a number, the highest byte first, at an offset of the value of a property of a path's node.
    ///
    /// # Errors
    ///
    /// Those of `set_prop` for the value that the property then has.
    fn patch_cell(
        &mut self,
        path: &Path,
        name: &PropName<'_>,
        offset: usize,
        number: u32,
    ) -> Result<(), Fault>
        requires { (value : List ℕ) × (value_in (reading self.old) path.now name.now ≡ Some value) × (offset + 4 ≤ length value) }
        ensures ok { (value : List ℕ) → value_in (reading self.old) path.now name.now ≡ Some value →
            OnOk result (reading self.new ≡ with_property_at path.now name.now (with_cell value offset number) (reading self.old)) }
        ensures allowed { (value : List ℕ) → value_in (reading self.old) path.now name.now ≡ Some value →
            IsOk result → HasRoomAt (has_room self.old) (reading self.old) path.now name.now (with_cell value offset number) }
        ensures err { OnErr result (reading self.new ≡ reading self.old) }
        ensures follows { follows self.old self.new }
        ensures refused { (v : List ℕ) → value_in (reading self.old) path.now name.now ≡ Some v →
            IfErr result (λ fault.
            WhyNotSetAt (has_room self.old) fault.kind (reading self.old) path.now name.now (with_cell v offset number) × (fault.at ≡ None)) };
}
