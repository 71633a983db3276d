//! The names of a tree's properties, each once, in the order of first use.

ghost use Rattle.std.specs.Prelude.{◌≡◌, ◌<◌, [], false, map, length, slice_index_or, OnOk, IfSome, IfNone};
ghost use Rattle.dt_model.specs.Valid.{AreDistinct};
ghost use Rattle.dt_write.specs.Written.{has, used, used_by, used_below};
ghost use Rattle.dt_write.specs.Parts.{tree_at};

use dt_flat::{FlatTree, NodeId, Props, RecentNumbers};
use dt_names::Seed;
use indexmap::IndexSet;
use std::alloc::{AllocError, Global};
use std::marker::Model;

/// Names, each once, in the order in which they came, which is that of their numbers. It is seen as the names. Each use is
/// remembered by the number of its name, so that a second walk in the same order finds the names without a look into the table.
#[derive(Drop)]
pub(crate) struct Names<'t> {
    set: IndexSet<&'t [u8], Seed>,
    recent: RecentNumbers,
    uses: Vec<usize>,
}

impl<'t> Model for Names<'t> {
    ghost use Rattle.std.specs.Prelude.{List, map};
    ghost use Rattle.dt_model.specs.Names.{Name};
    ghost use Rattle.dt_model.specs.Valid.{AreDistinct};

    ghost Value = { List Name };

    ghost view = { λ a. map (λ name. name.now) a.set.keys };

    ghost invariant = { λ a. AreDistinct (map (λ name. name.now) a.set.keys) };
}

impl<'t> Names<'t> {
    /// No names. Takes no memory. The names will be hashed behind the seed.
    pub fn new(alloc: Global, seed: Seed) -> Self
        ensures { result ≡ [] }
    {
        Names {
            set: IndexSet::with_hasher(alloc, seed),
            recent: RecentNumbers::new(),
            uses: Vec::new(alloc),
        }
    }

    /// A number, where it is that of a name.
    fn if_number_of(&self, name: &[u8], number: usize) -> Option<usize>
        ensures { IfSome result (λ number. (number < length self.now) × (slice_index_or self.now number [] ≡ name.now)) }
    {
        let found = self.set.get_index(number)?;
        if *found == name { Some(number) } else { None }
    }

    /// Puts a name at the end, where it isn't among them, and answers its number.
    fn put(&mut self, name: &'t [u8]) -> Result<usize, AllocError>
        ensures { OnOk result (self.new ≡ used self.old name.now) }
    {
        let (number, _) = self.set.insert_full(name)?;
        self.recent.note(name, number);
        Ok(number)
    }

    /// The number of a name, found at once where it is the one that was put last of such names; it is put where it isn't among them.
    fn enter(&mut self, name: &'t [u8]) -> Result<usize, AllocError>
        ensures { OnOk result (self.new ≡ used self.old name.now) }
    {
        match self.if_number_of(name, self.recent.number(name)) {
            Some(number) => Ok(number),
            None => self.put(name),
        }
    }

    /// Puts a name at the end, where it isn't among them, and remembers its number as that of one more use.
    fn note(&mut self, name: &'t [u8]) -> Result<(), AllocError>
        ensures { OnOk result (self.new ≡ used self.old name.now) }
    {
        let number = self.enter(name)?;
        self.uses.push(number)?;
        Ok(())
    }

    /// The names, by their numbers.
    pub fn as_slice(&self) -> &[&'t [u8]]
        ensures names { map (λ name. name.now) result.now ≡ self.now }
        ensures distinct { AreDistinct (map (λ name. name.now) result.now) }
    {
        self.set.as_slice()
    }

    /// The number of the name that was used so many uses after the first one, where it is this name.
    fn used_number(&self, name: &[u8], place: usize) -> Option<usize>
        ensures { IfSome result (λ number. (number < length self.now) × (slice_index_or self.now number [] ≡ name.now)) }
    {
        self.if_number_of(name, *self.uses.get(place)?)
    }

    /// The number of a name, which is found at once where it is that of the use at a place.
    pub fn number(&self, name: &[u8], place: usize) -> Option<usize>
        ensures is { IfSome result (λ number. (number < length self.now) × (slice_index_or self.now number [] ≡ name.now)) }
        ensures none { IfNone result (has self.now name.now ≡ false) }
    {
        match self.used_number(name, place) {
            Some(number) => Some(number),
            None => self.set.get_index_of(name),
        }
    }

    fn note_properties(&mut self, props: Props<'t>) -> Result<(), AllocError>
        ensures { OnOk result (self.new ≡ used_by self.old props.entry) }
    {
        for (name, _) in props {
            self.note(name)?;
        }
        Ok(())
    }

    /// Notes the names of a node's properties, and then those of all that is below it.
    pub fn note_node(&mut self, tree: &'t FlatTree, node: NodeId) -> Result<(), AllocError>
        requires { node < length tree.now.slots }
        ensures { OnOk result (self.new ≡ used_below self.old (tree_at tree.now.slots node)) }
    {
        self.note_properties(tree.props(node))?;
        for child in tree.children(node) {
            self.note_node(tree, child)?;
        }
        Ok(())
    }
}
