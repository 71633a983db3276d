//! The names of a tree, each once.

ghost use Rattle.std.specs.Prelude.{◌≡◌, ◌<◌, ◌++◌, ◌∷◌, [], length, IfOk, IfSome, OnErr, MatchOption};
ghost use Rattle.dt_flat.specs.Names.{text, AreOwn, IsUnknown, IsNoted};

use crate::recent::RecentNumbers;
use dt_names::{NameKey, Seed};
use indexmap::{Equivalent, IndexSet};
use smallvec::SmallVec;
use std::alloc::{AllocError, Global};
use std::hash::{Hash, Hasher};
use std::marker::Model;

/// The number of a name, in the order in which names came.
pub(crate) type NameId = usize;

/// Names of at most so many bytes, as many as the specification allows (v0.4, 2.2.1 without a unit address, 2.2.4.1), take no memory.
const SHORT_NAME_BYTES: usize = 31;

/// A name that a table owns. It is found by a [`NameKey`], and hashed as one.
#[derive(Drop, PartialEq, Eq)]
pub(crate) struct OwnName {
    bytes: SmallVec<u8, SHORT_NAME_BYTES>,
}

impl Hash for OwnName {
    ghost use Rattle.std.specs.Cmp.Lexicographic.{bytes_decides};
    ghost use Rattle.std.specs.Hash.{on_Alike, same_Alike};
    ghost use Rattle.std.specs.Prelude.{[], ◌∷◌};

    ghost hash_input = { λ n. n.bytes.items ∷ [] };

    ghost respects_eq = { (on_Alike (λ n. n.bytes.items) (same_Alike (λ bytes. bytes ∷ []) bytes_decides)).fed };

    fn hash<H: Hasher>(&self, state: &mut H) {
        state.write(self.bytes.as_slice());
    }
}

impl<'a> Equivalent<OwnName> for NameKey<'a> {
    ghost use Rattle.std.proofs.Common.{ap};
    ghost use Rattle.std.specs.Cmp.Lexicographic.{bytes_decides, nat_list_eq_equiv};
    ghost use Rattle.std.specs.Prelude.{[], ◌∷◌};
    ghost use Rattle.std.specs.Str.{bytes_eq};

    ghost equivalent = { λ q n. bytes_eq q.bytes.now n.bytes.items };

    ghost respects_hash = { λ q n e. ap (λ bytes. bytes ∷ []) ((bytes_decides q.bytes.now n.bytes.items).0 e) };

    ghost respects_eq = { λ q x y. nat_list_eq_equiv.congr q.bytes.now x.bytes.items y.bytes.items };

    fn equivalent(&self, name: &OwnName) -> bool {
        self.bytes == name.bytes.as_slice()
    }
}

/// Names of nodes and of properties.
#[derive(Drop)]
pub(crate) struct NameTable {
    alloc: Global,
    names: IndexSet<OwnName, Seed>,
    recent: RecentNumbers,
}

impl Model for NameTable {
    ghost use Rattle.std.specs.Prelude.{List, map};
    ghost use Rattle.dt_model.specs.Names.{Name};
    ghost use Rattle.dt_flat.specs.Names.{AreOwn};

    ghost Value = { List Name };

    ghost view = { λ t. map (λ name. name.bytes.items) t.names.keys };

    ghost invariant = { λ t. AreOwn (map (λ name. name.bytes.items) t.names.keys) };
}

impl NameTable {
    /// No names yet, which will be hashed behind a seed. Takes no memory.
    pub fn new(alloc: Global, seed: Seed) -> Self
        ensures { result ≡ [] }
    {
        NameTable {
            alloc,
            names: IndexSet::with_hasher(alloc, seed),
            recent: RecentNumbers::new(),
        }
    }

    /// A number is that of one name. Does nothing.
    pub fn validity(&self)
        ensures { AreOwn self.now }
    {
        let _ = &self.names;
    }

    /// The name of a number.
    pub fn at(&self, id: NameId) -> &[u8]
        requires { id < length self.now }
        ensures { result.now ≡ text self.now id }
    {
        match self.names.get_index(id) {
            Some(name) => name.bytes.as_slice(),
            None => unreachable!(),
        }
    }

    /// The number of a name, where it is the one that was noted last for such a name.
    fn find_recent(&self, name: &[u8]) -> Option<NameId>
        ensures { IfSome result (λ id. (id < length self.now) × (text self.now id ≡ name.now)) }
    {
        let id = self.recent.number(name);
        let found = self.names.get_index(id)?;
        if found.bytes.as_slice() == name {
            Some(id)
        } else {
            None
        }
    }

    /// The number of a name, as the table has it.
    fn look_up(&self, name: &[u8]) -> Option<NameId>
        ensures { MatchOption result (IsUnknown self.now name.now) (λ id. (id < length self.now) × (text self.now id ≡ name.now)) }
    {
        self.names.get_index_of(NameKey { bytes: name })
    }

    /// The number of a name, None where it has none.
    pub fn find(&self, name: &[u8]) -> Option<NameId>
        ensures { MatchOption result (IsUnknown self.now name.now) (λ id. (id < length self.now) × (text self.now id ≡ name.now)) }
    {
        match self.find_recent(name) {
            Some(id) => Some(id),
            None => self.look_up(name),
        }
    }

    /// The number of a name, which gets one where the table has none.
    fn enter(&mut self, name: &[u8]) -> Result<NameId, AllocError>
        ensures noted { IfOk result (λ id. IsNoted self.old self.new name.now id) }
        ensures unknown { OnErr result (IsUnknown self.old name.now) }
        ensures err { OnErr result (self.new ≡ self.old) }
    {
        let bytes = match SmallVec::from_slice(self.alloc, name) {
            Ok(bytes) => bytes,
            Err(refused) => return self.look_up(name).ok_or(refused),
        };
        let (id, _) = self.names.insert_full(OwnName { bytes })?;
        Ok(id)
    }

    /// The number of a name, which gets one where it has none.
    pub fn add(&mut self, name: &[u8]) -> Result<NameId, AllocError>
        ensures noted { IfOk result (λ id. IsNoted self.old self.new name.now id) }
        ensures unknown { OnErr result (IsUnknown self.old name.now) }
        ensures err { OnErr result (self.new ≡ self.old) }
    {
        if let Some(id) = self.find_recent(name) {
            return Ok(id);
        }
        let id = self.enter(name)?;
        self.recent.note(name, id);
        Ok(id)
    }
}
