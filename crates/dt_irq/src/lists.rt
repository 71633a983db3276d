//! Where the interrupts of a node are sent first: its `interrupts` and `interrupts-extended` (Devicetree Specification v0.4, 2.4.1).

ghost use Rattle.std.specs.Prelude.{◌≡◌, ◌+◌, ◌<◌, ℕ, IfOk, IfErr, IfSome, OnOk, MatchOption, length};
ghost use Rattle.dt_model.specs.Path.{Path};
ghost use Rattle.dt_names.specs.declared.fault.FaultKind.TheVariants.{NoInterrupts};
ghost use Rattle.dt_trees.specs.Placed.{path_at, IsNode};
ghost use Rattle.dt_resolve_model.specs.Answers.{answer, refuse, refused, told_as};
ghost use Rattle.dt_resolve_model.specs.World.{value_of_bytes};
ghost use Rattle.dt_resolve_model.specs.Interrupts.{listed_at, IsSent};
ghost use Rattle.dt_irq.specs.Left.{bytes_left, entries_left, list_left, AreEntriesOf, AreListed, AreSentFrom, IsSentFrom};
ghost use Rattle.dt_irq.specs.Seen.{sent_in, IsSpecified};
ghost use Rattle.dt_view.specs.Worlds.{world_of};

use crate::parents::interrupt_parent;
use crate::sending::{Sent, entry_sent, first_entry};
use crate::spaces::{Space, interrupt_cells};
use dt_names::{Fault, FaultKind, NodeId};
use dt_view::{TreeView, cells_after, first_cells};

/// The entries of `interrupts` that are left, each of so many cells, at the interrupt parent.
#[derive(Clone, Copy)]
pub(crate) struct Listed<'v> {
    pub parent: NodeId,
    pub cells: usize,
    pub rest: &'v [u8],
    pub count: usize,
}

/// The entries of a node that are left: of `interrupts-extended`, or where that is absent, of `interrupts`.
#[derive(Clone, Copy)]
pub(crate) enum Entries<'v> {
    Extended(&'v [u8]),
    Plain(Listed<'v>),
}

impl<'v> Listed<'v> {
    /// Those of a list at an interrupt parent.
    fn of<V: TreeView>(view: &V, parent: NodeId, list: &'v [u8]) -> Result<Listed<'v>, Fault>
        requires { IsNode (V.tree view.now) parent }
        ensures parent { IfOk result (λ listed. listed.parent ≡ parent) }
        ensures left { IfOk result (λ listed. AreEntriesOf (V.tree view.now) list.now (list_left listed)) }
        ensures refused { IfErr result (λ fault. (i : ℕ)
            → listed_at (world_of (V.tree view.now)) i (value_of_bytes list.now) (path_at (V.tree view.now) parent) ≡ refused fault) }
    {
        let cells = interrupt_cells(view, parent)?;
        if list.len() % (4 * cells) != 0 {
            return Err(Fault::of(FaultKind::BadCells));
        }
        Ok(Listed {
            parent,
            cells,
            rest: list,
            count: list.len() / (4 * cells),
        })
    }

    /// The entry that has so many before it; None where it isn't there.
    fn nth<V: TreeView>(&self, view: &V, index: u64) -> Option<Sent<'v>>
        requires { (p : Path) × (i : ℕ) × AreListed (V.tree view.now) p i (list_left self.now) }
        ensures is { (p : Path) (i : ℕ) → AreListed (V.tree view.now) p i (list_left self.now)
            → MatchOption result (IsSent (world_of (V.tree view.now)) p (i + index) (refuse NoInterrupts))
            (λ sent. IsSent (world_of (V.tree view.now)) p (i + index) (answer (sent_in (V.tree view.now) sent))) }
        ensures specified { IfSome result (λ sent. IsSpecified (V.tree view.now) sent.node sent.specifier.now) }
        ensures there { IfSome result (λ _. index < self.now.count) }
    {
        if index >= self.count as u64 {
            return None;
        }
        let specifier = first_cells(
            cells_after(self.rest, index as usize * self.cells),
            self.cells,
        );
        Some(Sent {
            node: self.parent,
            specifier,
        })
    }

    /// The next entry; None behind the last one.
    fn next<V: TreeView>(&mut self, view: &V) -> Option<Sent<'v>>
        requires { (p : Path) × (i : ℕ) × AreListed (V.tree view.now) p i (list_left self.old) }
        ensures is { (p : Path) (i : ℕ) → AreListed (V.tree view.now) p i (list_left self.old)
            → MatchOption result (IsSent (world_of (V.tree view.now)) p i (refuse NoInterrupts) × AreListed (V.tree view.now) p i (list_left self.new))
            (λ sent. IsSent (world_of (V.tree view.now)) p i (answer (sent_in (V.tree view.now) sent))
            × AreListed (V.tree view.now) p (i + 1) (list_left self.new)) }
        ensures specified { IfSome result (λ sent. IsSpecified (V.tree view.now) sent.node sent.specifier.now) }
        ensures shorter { IfSome result (λ _. length self.new.rest.now < length self.old.rest.now) }
    {
        let Some(sent) = self.nth(view, 0) else {
            return None;
        };
        self.rest = cells_after(self.rest, self.cells);
        self.count -= 1;
        Some(sent)
    }
}

impl<'v> Entries<'v> {
    /// The entries of a node, from its first one on. A fault is each entry's: `NoInterrupts` of a node without both lists, one on the way to the
    /// interrupt parent, or `BadCells` of a list that isn't whole entries. Apart, so that its stack is given back before the way goes on.
    #[inline(never)]
    pub fn of<V: TreeView>(view: &'v V, node: NodeId) -> Result<Entries<'v>, Fault>
        requires { IsNode (V.tree view.now) node }
        ensures left { IfOk result (λ entries. AreSentFrom (V.tree view.now) (path_at (V.tree view.now) node) 0 (entries_left entries)) }
        ensures refused { IfErr result (λ fault. (i : ℕ) → IsSent (world_of (V.tree view.now)) (path_at (V.tree view.now) node) i (refused fault)) }
    {
        if let Some(list) = view.value(node, b"interrupts-extended") {
            return Ok(Entries::Extended(list));
        }
        let Some(list) = view.value(node, b"interrupts") else {
            return Err(Fault::of(FaultKind::NoInterrupts));
        };
        let parent = interrupt_parent(view, node)?;
        let listed = Listed::of(view, parent, list)?;
        Ok(Entries::Plain(listed))
    }

    /// Where the entry is sent that has so many before it among those left.
    pub fn nth<V: TreeView>(&self, view: &V, index: u64) -> Result<Sent<'v>, Fault>
        requires { IsSentFrom (V.tree view.now) (entries_left self.now) }
        ensures is { (p : Path) (i : ℕ) → AreSentFrom (V.tree view.now) p i (entries_left self.now)
            → IsSent (world_of (V.tree view.now)) p (i + index) (told_as (sent_in (V.tree view.now)) result) }
        ensures specified { IfOk result (λ sent. IsSpecified (V.tree view.now) sent.node sent.specifier.now) }
    {
        match *self {
            Entries::Extended(rest) => entry_sent(view, Space::Interrupts, rest, index),
            Entries::Plain(listed) => match listed.nth(view, index) {
                Some(sent) => Ok(sent),
                None => Err(Fault::of(FaultKind::NoInterrupts)),
            },
        }
    }

    /// Where the next entry is sent, or why it isn't; None behind the last one.
    pub fn next<V: TreeView>(&mut self, view: &V) -> Option<Result<Sent<'v>, Fault>>
        requires { IsSentFrom (V.tree view.now) (entries_left self.old) }
        ensures is { (p : Path) (i : ℕ) → AreSentFrom (V.tree view.now) p i (entries_left self.old)
            → MatchOption result (IsSent (world_of (V.tree view.now)) p i (refuse NoInterrupts) × AreSentFrom (V.tree view.now) p i (entries_left self.new))
            (λ r. IsSent (world_of (V.tree view.now)) p i (told_as (sent_in (V.tree view.now)) r)
            × AreSentFrom (V.tree view.now) p (i + 1) (entries_left self.new)) }
        ensures specified { IfSome result (λ r. IfOk r (λ sent. IsSpecified (V.tree view.now) sent.node sent.specifier.now)) }
        ensures shorter { IfSome result (λ r. OnOk r (bytes_left (entries_left self.new) < bytes_left (entries_left self.old))) }
    {
        match *self {
            Entries::Extended(rest) => {
                if rest.is_empty() {
                    return None;
                }
                match first_entry(view, Space::Interrupts, rest) {
                    Ok(entry) => {
                        *self = Entries::Extended(entry.rest);
                        Some(Ok(entry.sent))
                    }
                    Err(fault) => Some(Err(fault)),
                }
            }
            Entries::Plain(listed) => {
                let mut listed = listed;
                let Some(sent) = listed.next(view) else {
                    return None;
                };
                *self = Entries::Plain(listed);
                Some(Ok(sent))
            }
        }
    }
}
