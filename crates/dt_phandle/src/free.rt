//! The least numbers that are left.

ghost use Rattle.std.specs.Prelude.{◌≡◌, ◌+◌, ◌<◌, ◌≤◌, ◌^◌, ◌++◌, ◌∷◌, [], ℕ, List, length, map, OnOk, IfOk};
ghost use Rattle.std.specs.HashSet.{hash_set_len, IsEmpty};
ghost use Rattle.std.specs.Option.{option_to_list};
ghost use Rattle.dt_model.specs.Limits.{most_nodes};
ghost use Rattle.dt_model.specs.Numbering.{IsNumberFor, IsNumbering, written_numbers};
ghost use Rattle.dt_model.specs.Numbers.{IsLeastFree};
ghost use Rattle.dt_phandle.specs.Asking.{asked_said};
ghost use Rattle.dt_phandle.specs.Least.{AreLeft, IsTaken, IsSetOf};

use crate::asked::Asked;
use dt_names::Seed;
use std::alloc::{AllocError, Global};
use std::collections::HashSet;

/// The numbers that may still be given: those from `next` on that aren't written.
#[derive(Drop)]
pub(crate) struct FreeNumbers {
    pub written: HashSet<u32, Seed>,
    pub next: u32,
}

impl FreeNumbers {
    /// The least of them, which isn't one of them any more.
    fn take(&mut self) -> u32
        requires { self.old.next + hash_set_len self.old.written + 1 < 2 ^ 32 }
        ensures least { (taken : List ℕ) → AreLeft taken self.old.written self.old.next → IsLeastFree taken result }
        ensures left { (taken : List ℕ) → AreLeft taken self.old.written self.old.next →
            AreLeft (result ∷ taken) self.new.written self.new.next }
        ensures size { self.new.next + hash_set_len self.new.written ≡ self.old.next + hash_set_len self.old.written + 1 }
    {
        while self.written.remove(&self.next) {
            self.next += 1;
        }
        let number = self.next;
        self.next += 1;
        number
    }

    /// The number of a node, where it gets one.
    fn number_for(&mut self, asked: &Asked) -> Option<u32>
        requires { self.old.next + hash_set_len self.old.written + 1 < 2 ^ 32 }
        ensures number { (taken : List ℕ) → AreLeft taken self.old.written self.old.next →
            IsNumberFor taken asked.now.written asked.now.keyed result }
        ensures left { (taken : List ℕ) → AreLeft taken self.old.written self.old.next → IsTaken taken asked.now.written →
            AreLeft (option_to_list result ++ taken) self.new.written self.new.next }
        ensures size { self.new.next + hash_set_len self.new.written ≤ self.old.next + hash_set_len self.old.written + 1 }
    {
        if asked.written.is_some() || !asked.keyed {
            return asked.written;
        }
        Some(self.take())
    }
}

/// The numbers that are written.
fn add_written(written: &mut HashSet<u32, Seed>, asked: &[Asked]) -> Result<(), AllocError>
    requires { IsEmpty written.old }
    ensures numbers { OnOk result (IsSetOf (written_numbers (map asked_said asked.now)) written.new) }
    ensures size { OnOk result (hash_set_len written.new ≤ length asked.now) }
{
    for node in asked {
        if let Some(number) = node.written {
            written.insert(number)?;
        }
    }
    Ok(())
}

/// The numbers of nodes, one after another.
fn give(
    numbers: &mut Vec<Option<u32>>,
    free: &mut FreeNumbers,
    asked: &[Asked],
) -> Result<(), AllocError>
    requires none { numbers.old.items ≡ [] }
    requires left { AreLeft (written_numbers (map asked_said asked.now)) free.old.written free.old.next }
    requires few { free.old.next + hash_set_len free.old.written + length asked.now < 2 ^ 32 }
    ensures { OnOk result (IsNumbering (map asked_said asked.now) numbers.new.items) }
{
    for node in asked {
        numbers.push(free.number_for(node))?;
    }
    Ok(())
}

/// The numbers of nodes that ask for these. Those that are written are hashed behind the seed.
pub(crate) fn numbers_for(
    alloc: Global,
    seed: Seed,
    asked: &[Asked],
) -> Result<Vec<Option<u32>>, AllocError>
    requires { length asked.now ≤ most_nodes }
    ensures { IfOk result (λ numbers. IsNumbering (map asked_said asked.now) numbers.items) }
{
    let mut free = FreeNumbers {
        written: HashSet::with_hasher(alloc, seed),
        next: 1,
    };
    add_written(&mut free.written, asked)?;
    let mut numbers = Vec::with_capacity(alloc, asked.len())?;
    give(&mut numbers, &mut free, asked)?;
    Ok(numbers)
}
