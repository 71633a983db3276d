//! The cells that hold numbers of an object's own nodes, as the object lists them.

ghost use Rattle.std.specs.Prelude.{◌≡◌, ◌∷◌, ◌++◌, [], List, drop};
ghost use Rattle.std.specs.Option.{MatchOption, option_copied};
ghost use Rattle.std.specs.Iterator.{YieldsFirstBy, item_count};
ghost use Rattle.dt_model.specs.Object.{words_of};
ghost use Rattle.dt_model.specs.Path.{Path};
ghost use Rattle.dt_model.specs.Tree.{value_in};
ghost use Rattle.dt_trees.specs.Placed.{IsAt, place_of, reading_of, path_at};
ghost use Rattle.dt_read.specs.StepsLeft.{step_view};
ghost use Rattle.dt_read.specs.Walked.{opens, holds, closes};
ghost use Rattle.dt_names.specs.Fault.{placeless};
ghost use Rattle.dt_names.specs.declared.fault.FaultKind.TheVariants.{BadLocalFixup};
ghost use Rattle.dt_marks_read.specs.ListedViews.{local_view};
ghost use Rattle.dt_marks_read.specs.LocalFixupsLeft.{step_told, walk_told, MayWalk};
ghost use Rattle.dt_marks_read.specs.MirrorViews.{mirror_left, MayGoOn, IsStepTaken};

use crate::listed::ListedCell;
use dt_bytes::be32;
use dt_names::{Fault, FaultKind, NodeId};
use dt_overlay_texts::has_cell;
use dt_read::{Blob, OpenNodes, Step, Steps};
use std::marker::Model;

/// What is left of a walk through a mirror: the counterparts of its open nodes, and the offsets that the property which came
/// last lists of its counterpart's value.
#[derive(Drop)]
struct Mirror<'a> {
    blob: &'a Blob<'a>,
    steps: Steps<'a>,
    open_nodes: OpenNodes,
    node: NodeId,
    property: &'a [u8],
    value: &'a [u8],
    offsets: &'a [u8],
}

/// The first 32-bit number of some bytes, and what follows it.
fn next_word(bytes: &[u8]) -> Option<(usize, &[u8])>
    ensures { MatchOption result (words_of bytes.now ≡ []) (λ found. words_of bytes.now ≡ found.0 ∷ words_of found.1.now) }
{
    let word = be32(bytes, 0)?;
    Some((word as usize, &bytes[4..]))
}

/// The child of a node that has a name.
fn child_of(blob: &Blob<'_>, node: NodeId, name: &[u8]) -> Option<NodeId>
    requires { (p : Path) × IsAt blob.now p node }
    ensures { result ≡ place_of blob.now (path_at blob.now node ++ name.now ∷ []) }
{
    blob.validity();
    blob.child(node, name)
}

/// The value of a node's property.
fn value_of<'a>(blob: &'a Blob<'a>, node: NodeId, name: &[u8]) -> Option<&'a [u8]>
    requires { (p : Path) × IsAt blob.now p node }
    ensures { option_copied result ≡ value_in (reading_of blob.now) (path_at blob.now node) name.now }
{
    blob.validity();
    blob.value(node, name)
}

impl<'a> Mirror<'a> {
    /// The list is off. Nothing comes any more.
    fn refuse(&mut self) -> Fault
        ensures fault { result ≡ placeless BadLocalFixup }
        ensures nothing { mirror_left self.new ≡ [] }
        ensures steps { self.new.steps ≡ self.old.steps }
        ensures may { MayGoOn self.new }
    {
        self.open_nodes = OpenNodes::new();
        self.offsets = b"".as_slice();
        Fault::of(FaultKind::BadLocalFixup)
    }

    /// A node of the mirror begins.
    fn open(&mut self, node: NodeId, name: &[u8]) -> Result<(), Fault>
        requires open { self.old.open_nodes ≡ node ∷ drop 1 self.old.open_nodes }
        requires empty { words_of self.old.offsets.now ≡ [] }
        requires may { MayWalk self.old.blob.now self.old.open_nodes (opens 0 name.now ∷ self.old.steps) }
        ensures told { IsStepTaken (step_told self.old.blob.now self.old.open_nodes (opens 0 name.now)
            (λ others. walk_told self.old.blob.now others self.old.steps)) result self.new }
        ensures may { MayGoOn self.new }
        ensures steps { self.new.steps ≡ self.old.steps }
    {
        let Some(counterpart) = child_of(self.blob, node, name) else {
            return Err(self.refuse());
        };
        self.open_nodes.push(counterpart);
        Ok(())
    }

    /// A node of the mirror has a property.
    fn hold(&mut self, node: NodeId, name: &'a [u8], offsets: &'a [u8]) -> Result<(), Fault>
        requires open { self.old.open_nodes ≡ node ∷ drop 1 self.old.open_nodes }
        requires may { MayGoOn self.old }
        ensures told { IsStepTaken (step_told self.old.blob.now self.old.open_nodes (holds (record { name = name.now; value = offsets.now }))
            (λ others. walk_told self.old.blob.now others self.old.steps)) result self.new }
        ensures may { MayGoOn self.new }
        ensures steps { self.new.steps ≡ self.old.steps }
    {
        let Some(value) = value_of(self.blob, node, name) else {
            return Err(self.refuse());
        };
        if offsets.len() % 4 != 0 {
            return Err(self.refuse());
        }
        self.node = node;
        self.property = name;
        self.value = value;
        self.offsets = offsets;
        Ok(())
    }

    /// The innermost open node of the mirror ends.
    fn close(&mut self)
        requires empty { words_of self.old.offsets.now ≡ [] }
        requires may { MayWalk self.old.blob.now self.old.open_nodes (closes ∷ self.old.steps) }
        ensures told { walk_told self.old.blob.now (drop 1 self.old.open_nodes) self.old.steps ≡ mirror_left self.new }
        ensures may { MayGoOn self.new }
        ensures steps { self.new.steps ≡ self.old.steps }
    {
        self.open_nodes.pop();
    }

    /// Takes a step, where a node is open.
    fn take(&mut self, node: NodeId, step: Step<'a>) -> Result<(), Fault>
        requires open { self.old.open_nodes ≡ node ∷ drop 1 self.old.open_nodes }
        requires empty { words_of self.old.offsets.now ≡ [] }
        requires may { MayWalk self.old.blob.now self.old.open_nodes (step_view step ∷ self.old.steps) }
        ensures told { IsStepTaken (step_told self.old.blob.now self.old.open_nodes (step_view step.entry)
            (λ others. walk_told self.old.blob.now others self.old.steps)) result self.new }
        ensures may { MayGoOn self.new }
        ensures steps { self.new.steps ≡ self.old.steps }
    {
        match step {
            Step::Open { name, .. } => self.open(node, name),
            Step::Property { name, value } => self.hold(node, name, value),
            Step::Close => {
                self.close();
                Ok(())
            }
        }
    }

    /// Answers the cell at the next offset of the property that came last.
    fn next_offset(&mut self) -> Option<Result<ListedCell<'a>, Fault>>
        requires { MayGoOn self.old }
        ensures told { MatchOption result ((words_of self.old.offsets.now ≡ []) × (self.new ≡ self.old))
            (λ told. mirror_left self.old ≡ local_view told ∷ mirror_left self.new) }
        ensures may { MayGoOn self.new }
    {
        let (offset, rest) = next_word(self.offsets)?;
        if !has_cell(self.value, offset) {
            return Some(Err(self.refuse()));
        }
        self.offsets = rest;
        Some(Ok(ListedCell {
            node: self.node,
            property: self.property,
            offset,
        }))
    }

    fn next(&mut self) -> Option<Result<ListedCell<'a>, Fault>>
        requires { MayGoOn self.old }
        ensures told { MatchOption result ((mirror_left self.old ≡ []) × (mirror_left self.new ≡ []))
            (λ told. mirror_left self.old ≡ local_view told ∷ mirror_left self.new) }
        ensures may { MayGoOn self.new }
    {
        loop {
            if let Some(told) = self.next_offset() {
                return Some(told);
            }
            let node = self.open_nodes.innermost()?;
            let step = self.steps.next()?;
            if let Err(fault) = self.take(node, step) {
                return Some(Err(fault));
            }
        }
    }
}

/// The cells of an object that hold numbers of its own nodes, in the order in which they are listed. It is seen as those that
/// are left; where the list is off, `BadLocalFixup` comes, and nothing behind it.
#[derive(Drop)]
pub struct LocalFixups<'a> {
    mirror: Mirror<'a>,
}

impl<'a> Model for LocalFixups<'a> {
    ghost use Rattle.std.specs.Prelude.{List};
    ghost use Rattle.dt_marks_read.specs.Listed.{LocalFixup};
    ghost use Rattle.dt_marks_read.specs.MirrorViews.{mirror_left, MayGoOn};

    ghost Value = { List LocalFixup };

    ghost view = { λ f. mirror_left f.mirror };

    ghost invariant = { λ f. MayGoOn f.mirror };
}

impl<'a> LocalFixups<'a> {
    ghost use Rattle.dt_marks_read.specs.LocalFixupsLeft.{walk_told, MayWalk};

    /// Those of a walk through a mirror, whose open nodes have these counterparts.
    pub(crate) fn new(
        blob: &'a Blob<'a>,
        steps: Steps<'a>,
        open_nodes: OpenNodes,
    ) -> LocalFixups<'a>
        requires { MayWalk blob.now open_nodes steps }
        ensures { result ≡ walk_told blob.now open_nodes steps.entry }
    {
        let none = b"".as_slice();
        LocalFixups {
            mirror: Mirror {
                blob,
                steps,
                open_nodes,
                node: 0,
                property: none,
                value: none,
                offsets: none,
            },
        }
    }
}

impl<'a> Iterator for LocalFixups<'a> {
    type Item = Result<ListedCell<'a>, Fault>;

    ghost next_gives = { YieldsFirstBy local_view (λ s. s) };

    ghost remaining = { item_count (λ s. s) };

    fn next(&mut self) -> Option<Result<ListedCell<'a>, Fault>> {
        self.mirror.next()
    }
}
