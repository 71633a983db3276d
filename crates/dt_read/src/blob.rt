//! A checked blob.

ghost use Rattle.std.specs.Prelude.{◌≡◌, ◌≢◌, ◌+◌, ◌<◌, ◌^◌, Some, None, ℕ, length, IfOk, IfErr};
ghost use Rattle.dt_model.specs.Checks.{BlobFault, IsFirstFault};
ghost use Rattle.dt_model.specs.Format.{Reads, IsWithin};
ghost use Rattle.dt_model.specs.Path.{Path};
ghost use Rattle.dt_model.specs.Valid.{IsValid, IsWithinLimits};
ghost use Rattle.dt_names.specs.declared.fault.FaultKind.TheVariants.{Limit, NoMemory};
ghost use Rattle.dt_flat.specs.Arena.{reading};
ghost use Rattle.dt_read.specs.Checked.{IsBlob, placed_of};
ghost use Rattle.dt_read.specs.Kinds.{kind_of};
ghost use Rattle.dt_trees.specs.Placed.{reading_of, IsAt, HasPlacesApart};
ghost use Rattle.dt_read.specs.Walked.{steps_of, without_properties, WalkIn};
ghost use Rattle.dt_names.specs.Fault.{IsNoMemory};

use crate::NodeId;
use crate::blocks::blocks_of;
use crate::counts::{Counts, count_pairs, count_tokens};
use crate::distinct::{SMALL_BYTES, SMALL_WORDS, WORDS, has_distinct_names};
use crate::flatten::flat_of;
use crate::phandle::are_phandles;
use crate::reservations::Reservations;
use crate::scan::BadTagAt;
use crate::steps::{NodeSteps, Steps};
use crate::structure::Structure;
use crate::walk::{Children, Props};
use dt_flat::FlatTree;
use dt_model_format::blob_has_no_fault;
use dt_names::{Fault, FaultKind, Seed};
use std::alloc::Global;
use std::marker::Model;

/// A blob that reads as a tree. It is seen as that tree, with the places of its nodes.
#[derive(Drop)]
pub struct Blob<'a> {
    seed: Seed,
    structure: Structure<'a>,
    reservations: &'a [u8],
    boot_cpu: u32,
}

impl<'a> Model for Blob<'a> {
    ghost use Rattle.dt_read.specs.Blocks.{IsWellPlaced};
    ghost use Rattle.dt_read.specs.Pairs.{pairs_of};
    ghost use Rattle.dt_trees.specs.Placed.{PlacedTree};
    ghost use Rattle.dt_read.specs.TreeCode.{coded_placed};

    ghost Value = { PlacedTree };

    ghost coded = { coded_placed };

    ghost view = { λ b. record {
      boot_cpu = b.boot_cpu;
      reservations = pairs_of b.reservations.now;
      place = b.structure.place;
      properties = b.structure.properties;
      children = b.structure.children;
    } };

    ghost invariant = { λ b. IsWellPlaced (record {
      boot_cpu = b.boot_cpu;
      reservations = pairs_of b.reservations.now;
      place = b.structure.place;
      properties = b.structure.properties;
      children = b.structure.children;
    }) };
}

/// The fault of the token at so many bytes behind the front of the structure block. A limit has no place.
fn placed(bad: BadTagAt, at: usize) -> Fault
    requires { at + bad.offset < 2 ^ 64 }
    ensures kind { result.kind ≡ bad.kind }
    ensures limit { bad.kind ≡ Limit → result.at ≡ None }
    ensures place { bad.kind ≢ Limit → result.at ≡ Some (at + bad.offset) }
{
    match bad.kind {
        FaultKind::Limit => Fault::of(bad.kind),
        _ => Fault::at(bad.kind, at + bad.offset),
    }
}

impl<'a> Blob<'a> {
    ghost use Rattle.std.specs.Prelude.{◌∷◌, ◌++◌, [], List, map};
    ghost use Rattle.std.specs.List.{sum_by};
    ghost use Rattle.std.specs.Option.{option_copied};
    ghost use Rattle.dt_model.specs.Tree.{value_in, nodes_of};
    ghost use Rattle.dt_trees.specs.Placed.{place_of, last_name, properties_at, child_names, first_place_of, names_behind};

    /// Reads a blob (Devicetree Specification v0.4, chapter 5). Takes no memory.
    ///
    /// # Errors
    ///
    /// The blob's first fault, in the order in which it is read: the header, the reservations, the tokens of the structure block, names
    /// that differ, and phandles. A fault of a token has the token's place; a limit hasn't.
    pub fn check(bytes: &'a [u8]) -> Result<Blob<'a>, Fault>
        ensures reads { IfOk result (λ b. Reads bytes.now (reading_of b)) }
        ensures within { IfOk result (λ b. IsWithin bytes.now (reading_of b)) }
        ensures places { IfOk result (λ b. HasPlacesApart b) }
        ensures placed { IfOk result (λ b. b ≡ placed_of bytes.now) }
        ensures fault { IfErr result (λ e. (f : BlobFault) × (e.kind ≡ kind_of f) × IsFirstFault bytes.now f e.at) }
    {
        // Few names need a small table, and no more of the stack is touched.
        if bytes.len() <= SMALL_BYTES {
            let mut table = [0; SMALL_WORDS];
            return Blob::check_in(bytes, &mut table, 0);
        }
        Blob::check_large(bytes)
    }

    /// The same for a blob of any size.
    #[inline(never)]
    fn check_large(bytes: &'a [u8]) -> Result<Blob<'a>, Fault>
        ensures reads { IfOk result (λ b. Reads bytes.now (reading_of b)) }
        ensures within { IfOk result (λ b. IsWithin bytes.now (reading_of b)) }
        ensures places { IfOk result (λ b. HasPlacesApart b) }
        ensures placed { IfOk result (λ b. b ≡ placed_of bytes.now) }
        ensures fault { IfErr result (λ e. (f : BlobFault) × (e.kind ≡ kind_of f) × IsFirstFault bytes.now f e.at) }
    {
        let mut table = [0; WORDS];
        Blob::check_in(bytes, &mut table, 0)
    }

    /// The same with a table that the caller lends, in place of 128 KiB of the stack. Its words may have any values, and are changed; of 16,384
    /// no more are used. A table that has less than a word for two names of a node makes it read the tokens more often.
    ///
    /// # Errors
    ///
    /// Those of `check`.
    pub fn check_with(bytes: &'a [u8], table: &mut [u64]) -> Result<Blob<'a>, Fault>
        requires { 0 < length table.old }
        ensures reads { IfOk result (λ b. Reads bytes.now (reading_of b)) }
        ensures within { IfOk result (λ b. IsWithin bytes.now (reading_of b)) }
        ensures places { IfOk result (λ b. HasPlacesApart b) }
        ensures placed { IfOk result (λ b. b ≡ placed_of bytes.now) }
        ensures fault { IfErr result (λ e. (f : BlobFault) × (e.kind ≡ kind_of f) × IsFirstFault bytes.now f e.at) }
    {
        let words = table.len().min(WORDS);
        Blob::check_in(bytes, &mut table[..words], usize::MAX)
    }

    /// The same with a table in which so many keys are at most: it is emptied before it would hold more than two a word.
    fn check_in(bytes: &'a [u8], table: &mut [u64], keys: usize) -> Result<Blob<'a>, Fault>
        requires some { 0 < length table.old }
        requires few { length table.old < 2 ^ 32 }
        ensures reads { IfOk result (λ b. Reads bytes.now (reading_of b)) }
        ensures within { IfOk result (λ b. IsWithin bytes.now (reading_of b)) }
        ensures places { IfOk result (λ b. HasPlacesApart b) }
        ensures placed { IfOk result (λ b. b ≡ placed_of bytes.now) }
        ensures fault { IfErr result (λ e. (f : BlobFault) × (e.kind ≡ kind_of f) × IsFirstFault bytes.now f e.at) }
    {
        let blocks = blocks_of(bytes)?;
        let structure = match Structure::check(blocks.strings, blocks.at, blocks.block) {
            Ok(structure) => structure,
            Err(bad) => return Err(placed(bad, blocks.at)),
        };
        let seed = structure.seed();
        let mut held = keys;
        if !has_distinct_names(&structure, seed, table, &mut held) {
            return Err(Fault::of(FaultKind::Duplicate));
        }
        if !are_phandles(&structure, seed, table, &mut held) {
            return Err(Fault::of(FaultKind::BlobPhandle));
        }
        Ok(Blob {
            seed: Seed::from(seed),
            structure,
            reservations: blocks.reservations,
            boot_cpu: blocks.boot_cpu,
        })
    }

    /// The blob of bytes that were checked before. It reads the header and the reservations alone. The seed is what tables made of the blob hash
    /// names and numbers behind; no answer depends on it.
    pub fn of(bytes: &'a [u8], seed: Seed) -> Blob<'a>
        requires { IsBlob bytes.now }
        ensures { result ≡ placed_of bytes.now }
    {
        blob_has_no_fault();
        match blocks_of(bytes) {
            Ok(blocks) => Blob {
                seed,
                structure: Structure::of(blocks.strings, blocks.at, blocks.block),
                reservations: blocks.reservations,
                boot_cpu: blocks.boot_cpu,
            },
            Err(_) => unreachable!(),
        }
    }

    /// What is true of each blob: it holds a tree that a blob may hold (Devicetree Specification v0.4, chapters 2 and 5), within
    /// the limits, and a place is one node's.
    pub fn validity(&self)
        ensures valid { IsValid (reading_of self.now) }
        ensures within { IsWithinLimits (reading_of self.now) }
        ensures places { HasPlacesApart self.now }
    {
        // The invariant says it, and it is known where a field is named.
        let _ = &self.structure;
    }

    /// The number of the processor that boots.
    pub fn boot_cpu(&self) -> u32
        ensures { result ≡ self.now.boot_cpu }
    {
        self.boot_cpu
    }

    /// The memory reservations, in order (Devicetree Specification v0.4, 5.3).
    pub fn reservations(&self) -> Reservations<'a>
        ensures { result ≡ self.now.reservations }
    {
        Reservations::new(self.reservations)
    }

    /// How many nodes, properties and reservations there are. Reads all tokens.
    pub fn counts(&self) -> Counts
        ensures nodes { result.nodes ≡ length (nodes_of (reading_of self.now)) }
        ensures properties { result.properties ≡ sum_by (λ n. length n.properties) (nodes_of (reading_of self.now)) }
        ensures reservations { result.reservations ≡ length self.now.reservations }
    {
        let (nodes, properties) = count_tokens(self.structure.start());
        let reservations = count_pairs(self.reservations);
        Counts {
            nodes,
            properties,
            reservations,
        }
    }

    /// The root, which has no name.
    pub fn root(&self) -> NodeId
        ensures { IsAt self.now [] result }
    {
        self.structure.root()
    }

    /// The name of a node; the root's is empty.
    pub fn name(&self, node: NodeId) -> &'a [u8]
        requires { (path : Path) × IsAt self.now path node }
        ensures { (path : Path) → IsAt self.now path node → result.now ≡ last_name path }
    {
        self.structure.name(node)
    }

    /// The value of a property of a node, None where it has no property of that name.
    pub fn value(&self, node: NodeId, name: &[u8]) -> Option<&'a [u8]>
        requires { (path : Path) × IsAt self.now path node }
        ensures { (path : Path) → IsAt self.now path node →
            option_copied result ≡ value_in (reading_of self.now) path name.now }
    {
        self.structure.value(node, name)
    }

    /// The properties of a node in order, as names and values.
    pub fn props(&self, node: NodeId) -> Props<'a>
        requires { (path : Path) × IsAt self.now path node }
        ensures { (path : Path) → IsAt self.now path node → result ≡ properties_at self.now path }
    {
        self.structure.props(node)
    }

    /// The children of a node in order.
    pub fn children(&self, node: NodeId) -> Children<'a>
        requires { (path : Path) × IsAt self.now path node }
        ensures { (path : Path) → IsAt self.now path node →
            map (λ child. Some child) result ≡ map (λ x. place_of self.now (path ++ x ∷ [])) (child_names self.now path) }
    {
        Children::new(self.structure.siblings(node))
    }

    /// The sibling behind a node, None behind the last one and behind the root.
    pub fn next_sibling(&self, node: NodeId) -> Option<NodeId>
        requires { (path : Path) × IsAt self.now path node }
        ensures root { IsAt self.now [] node → result ≡ None }
        ensures below { (path : Path) (name : List ℕ) → IsAt self.now (path ++ name ∷ []) node →
            result ≡ first_place_of self.now path (names_behind name (child_names self.now path)) }
    {
        self.structure.next_sibling(node)
    }

    /// The child of a node that has a name, None where it has no such child. Takes no memory.
    pub fn child(&self, node: NodeId, name: &[u8]) -> Option<NodeId>
        requires { (path : Path) × IsAt self.now path node }
        ensures { (path : Path) → IsAt self.now path node → result ≡ place_of self.now (path ++ name.now ∷ []) }
    {
        self.structure.child(node, name)
    }

    /// A walk through the tree: all nodes in preorder, the root first, each with its properties, then its children (Devicetree
    /// Specification v0.4, 5.4). It reads each token once, and takes no memory.
    pub fn steps(&self) -> Steps<'a>
        ensures { result ≡ steps_of self.now }
    {
        Steps::new(self.structure.start())
    }

    /// The same walk through the nodes alone. It costs less, since it looks up no property's name. Takes no memory.
    pub fn node_steps(&self) -> NodeSteps<'a>
        ensures { result ≡ without_properties (steps_of self.now) }
    {
        NodeSteps::new(self.structure.start())
    }

    /// A walk through what a node has, in the order of `steps`: up to its `Close`, and on through what is behind the node.
    pub fn steps_in(&self, node: NodeId) -> Steps<'a>
        requires { (path : Path) × IsAt self.now path node }
        ensures { (path : Path) → IsAt self.now path node → WalkIn self.now path result }
    {
        self.structure.steps_in(node)
    }

    /// What the blob's names and numbers are hashed behind: the seed of all bytes that bring them.
    pub fn seed(&self) -> Seed {
        self.seed
    }

    /// The tree as one that can be changed, with the order of its nodes and properties.
    ///
    /// # Errors
    ///
    /// `NoMemory`, without a place.
    pub fn to_flat(&self, alloc: Global) -> Result<FlatTree, Fault>
        ensures reads { IfOk result (λ tree. reading tree ≡ reading_of self.now) }
        ensures refused { IfErr result IsNoMemory }
    {
        self.to_seeded_flat(alloc, self.seed)
    }

    /// The same, into which names and numbers of other inputs will come: the seed is that of all of them.
    ///
    /// # Errors
    ///
    /// `NoMemory`, without a place.
    pub fn to_seeded_flat(&self, alloc: Global, seed: Seed) -> Result<FlatTree, Fault>
        ensures reads { IfOk result (λ tree. reading tree ≡ reading_of self.now) }
        ensures refused { IfErr result IsNoMemory }
    {
        flat_of(
            alloc,
            seed,
            &self.structure,
            self.reservations,
            self.boot_cpu,
        )
    }
}
