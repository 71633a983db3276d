//! The values of properties with their references read.

ghost use Rattle.std.specs.Prelude.{◌≡◌, ◌∷◌, [], ◌++◌, ℕ, Some, None, map, reverse};
ghost use Rattle.std.specs.Prelude.{OnOk, IfOk, MatchResult, MatchOption, option_map, option_and_then, unwrap_or, slice_get};
ghost use Rattle.std.specs.Cow.{cow_slice_items};
ghost use Rattle.dt_model.specs.Path.{path_text, path_value};
ghost use Rattle.dt_model.specs.Meaning.{byte, reference};
ghost use Rattle.dt_model.specs.Event.{Stack};
ghost use Rattle.dt_model.specs.Source.{Events, number_of, text_of};
ghost use Rattle.dt_source_items.specs.Said.{reference_of, referring};
ghost use Rattle.dt_source_items.specs.Said as source_said;
ghost use Rattle.dt_source_named_tree.specs.Said.{reference_said, value_said};
ghost use Rattle.dt_source_growing.specs.Grown.{target_value, value_held, AreAbove, StandsUnder};
ghost use Rattle.dt_source_nodes.specs.Contents.{names_text, kept_label, named_cell, named_part, named_parts, piece_parts};
ghost use Rattle.dt_source_nodes.specs.Resolving.{IsGrownBy, EachReading, IsAdded, IsUnread};

use crate::belongings::Belongings;
use dt_names::{Fault, FaultKind, PathRef};
use dt_source_growing::{Growing, Node, PropertyValue, Unnamed};
use dt_source_items::{Form, Piece, Reference, Value};
use dt_source_named_tree::{NamedPiece, NamedReference, NamedValue};
use std::alloc::{AllocError, Global};
use std::borrow::CowSlice;
use std::mem;

/// Adds a `/` and a name.
fn add_name(text: &mut Vec<u8>, name: &[u8]) -> Result<(), AllocError>
    ensures { OnOk result (text.new.items ≡ text.old.items ++ 47 ∷ name.now) }
{
    text.push(b'/')?;
    text.extend_from_slice(name)?;
    Ok(())
}

/// Adds each name of a node's path with a `/` before it.
fn add_names(text: &mut Vec<u8>, nodes: &[Node<'_, '_>], node: usize) -> Result<(), AllocError>
    requires { AreAbove nodes.now }
    ensures { OnOk result ((p : Stack) → StandsUnder nodes.now p node → text.new.items ≡ text.old.items ++ names_text p) }
{
    if node == 0 {
        return Ok(());
    }
    if let Some(found) = nodes.get(node) {
        add_names(text, nodes, found.parent)?;
        add_name(text, found.name.bytes())?;
    }
    Ok(())
}

/// Adds the text of a node's path.
fn add_path(text: &mut Vec<u8>, nodes: &[Node<'_, '_>], node: usize) -> Result<(), AllocError>
    requires { AreAbove nodes.now }
    ensures { OnOk result ((p : Stack) → StandsUnder nodes.now p node → text.new.items ≡ text.old.items ++ path_text (reverse p)) }
{
    if node == 0 {
        add_name(text, b"")?;
    } else {
        add_names(text, nodes, node)?;
    }
    Ok(())
}

/// Adds the text of a node's path, and a NUL.
fn add_path_value(text: &mut Vec<u8>, nodes: &[Node<'_, '_>], node: usize) -> Result<(), AllocError>
    requires { AreAbove nodes.now }
    ensures { OnOk result ((p : Stack) → StandsUnder nodes.now p node → text.new.items ≡ text.old.items ++ path_value (reverse p)) }
{
    add_path(text, nodes, node)?;
    text.push(0)?;
    Ok(())
}

/// The text of a path and a NUL, as a value.
fn path_value<'a>(alloc: Global, path: &PathRef<'_>) -> Result<NamedValue<'a>, AllocError>
    ensures { IfOk result (λ value. value_said value ≡ map byte (path_value path.now)) }
{
    let mut bytes = path.text().to_vec(alloc)?;
    bytes.push(0)?;
    Ok(NamedValue {
        pieces: Vec::new(alloc),
        bytes: CowSlice::Owned(bytes),
    })
}

/// The place that a node has; 0 where it has none.
fn place_of(places: &[Option<usize>], node: usize) -> usize
    ensures { result ≡ unwrap_or (option_and_then (λ place. place) (slice_get places.now node)) 0 }
{
    places.get(node).copied().flatten().unwrap_or(0)
}

/// Ends a piece with a reference.
fn end_piece<'a>(value: &mut NamedValue<'a>, named: NamedReference<'a>) -> Result<(), AllocError>
    ensures { OnOk result (value_said value.new ≡ value_said value.old ++ reference (reference_said named.entry) ∷ []) }
{
    let before = mem::replace(&mut value.bytes, CowSlice::Borrowed(b""));
    value.pieces.push(NamedPiece {
        before,
        reference: named,
    })?;
    Ok(())
}

/// The bytes behind the last reference, taken out of a value.
fn taken(alloc: Global, value: &mut NamedValue<'_>) -> Result<Vec<u8>, AllocError>
    ensures bytes { IfOk result (λ bytes. bytes.items ≡ cow_slice_items value.old.bytes) }
    ensures pieces { value.new.pieces ≡ value.old.pieces }
{
    mem::replace(&mut value.bytes, CowSlice::Borrowed(b"")).into_owned(alloc)
}

/// Adds bytes of the source at the end: borrowed where they are the first.
fn add_bytes<'a>(
    alloc: Global,
    value: &mut NamedValue<'a>,
    bytes: &'a [u8],
) -> Result<(), AllocError>
    ensures { OnOk result (value_said value.new ≡ value_said value.old ++ map byte bytes.now) }
{
    if value.bytes.len() == 0 {
        value.bytes = CowSlice::Borrowed(bytes);
        return Ok(());
    }
    let mut all = taken(alloc, value)?;
    all.extend_from_slice(bytes)?;
    value.bytes = CowSlice::Owned(all);
    Ok(())
}

/// Adds the text of a node's path, and a NUL.
fn add_path_bytes(
    alloc: Global,
    value: &mut NamedValue<'_>,
    nodes: &[Node<'_, '_>],
    node: usize,
) -> Result<(), AllocError>
    requires { AreAbove nodes.now }
    ensures { OnOk result ((p : Stack) → StandsUnder nodes.now p node → value_said value.new ≡ value_said value.old ++ map byte (path_value (reverse p))) }
{
    let mut all = taken(alloc, value)?;
    add_path_value(&mut all, nodes, node)?;
    value.bytes = CowSlice::Owned(all);
    Ok(())
}

/// What reads references: the tree under construction whose nodes they name, what belongs to its nodes, their places in
/// preorder among it, and what comes of a label that names none of them.
#[derive(Clone, Copy)]
pub(crate) struct Resolver<'r, 's, 'a> {
    pub growing: &'r Growing<'s, 'a>,
    pub belongings: &'r Belongings,
    pub unnamed: Unnamed,
}

impl Resolver<'_, '_, '_> {
    /// The label of a cell's reference that names no node, where it is kept.
    fn kept_label<'a>(&self, reference: &Reference<'a>) -> Option<&'a [u8]>
        ensures { option_map (λ label. label.now) result ≡ kept_label self.now.unnamed (reference_of reference.now) }
    {
        match self.unnamed {
            Unnamed::Refused => None,
            Unnamed::Kept => match reference {
                Reference::Label(label) => Some(label.as_bytes()),
                Reference::Path(_) => None,
            },
        }
    }

    /// What a cell's reference is.
    fn named_cell<'a>(&self, reference: &Reference<'a>) -> Option<NamedReference<'a>>
        ensures { MatchOption result
            ((es : Events) → IsGrownBy self.now.growing.now es → (named_parts self.now.unnamed es reverse (number_of (reference_of reference.now) ∷ []) ≡ None))
            (λ named. EachReading self.now (λ es place. named_cell self.now.unnamed es place (reference_of reference.now) ≡ Some (reference_said named))) }
    {
        match self.growing.referent(reference) {
            Some(node) => Some(NamedReference::Node(place_of(&self.belongings.places, node))),
            None => Some(NamedReference::Label(self.kept_label(reference)?)),
        }
    }

    /// Adds a reference in a cell list.
    fn add_cell<'a>(
        &self,
        reference: &Reference<'a>,
        value: &mut NamedValue<'a>,
    ) -> Result<(), Fault>
        ensures { MatchResult result
            (λ _. EachReading self.now (λ es place.
            IsAdded (value_said value.old) (named_part self.now.unnamed es place (number_of (reference_of reference.now))) (value_said value.new)))
            (λ fault. IsUnread self.now.unnamed self.now.growing.now (number_of (reference_of reference.now) ∷ []) fault) }
    {
        let Some(named) = self.named_cell(reference) else {
            return Err(Fault::of(FaultKind::UnresolvedReference));
        };
        end_piece(value, named)?;
        Ok(())
    }

    /// Adds a reference outside a cell list.
    fn add_text(
        &self,
        alloc: Global,
        reference: &Reference<'_>,
        value: &mut NamedValue<'_>,
    ) -> Result<(), Fault>
        ensures { MatchResult result
            (λ _. (es : Events) (place : Stack → ℕ) → IsGrownBy self.now.growing.now es →
            IsAdded (value_said value.old) (named_part self.now.unnamed es place (text_of (reference_of reference.now))) (value_said value.new))
            (λ fault. IsUnread self.now.unnamed self.now.growing.now (text_of (reference_of reference.now) ∷ []) fault) }
    {
        let Some(node) = self.growing.referent(reference) else {
            return Err(Fault::of(FaultKind::UnresolvedReference));
        };
        add_path_bytes(alloc, value, &self.growing.nodes, node)?;
        Ok(())
    }

    /// Adds a reference in the form that it has in a value.
    fn add_reference<'a>(
        &self,
        alloc: Global,
        piece: &Piece<'a>,
        value: &mut NamedValue<'a>,
    ) -> Result<(), Fault>
        ensures { MatchResult result
            (λ _. EachReading self.now (λ es place.
            IsAdded (value_said value.old) (named_part self.now.unnamed es place
            (referring piece.now.form (reference_of piece.now.reference))) (value_said value.new)))
            (λ fault. IsUnread self.now.unnamed self.now.growing.now (referring piece.now.form (reference_of piece.now.reference) ∷ []) fault) }
    {
        match piece.form {
            Form::Text => self.add_text(alloc, &piece.reference, value),
            Form::Cell => self.add_cell(&piece.reference, value),
        }
    }

    /// Adds bytes, and the reference behind them.
    fn add_piece<'a>(
        &self,
        alloc: Global,
        before: &'a [u8],
        piece: &Piece<'a>,
        value: &mut NamedValue<'a>,
    ) -> Result<(), Fault>
        ensures { MatchResult result
            (λ _. EachReading self.now (λ es place.
            IsAdded (value_said value.old) (named_parts self.now.unnamed es place (piece_parts before.now piece.now)) (value_said value.new)))
            (λ fault. IsUnread self.now.unnamed self.now.growing.now (piece_parts before.now piece.now) fault) }
    {
        add_bytes(alloc, value, before)?;
        self.add_reference(alloc, piece, value)
    }

    /// Adds a value to nothing.
    fn add_value<'a>(
        &self,
        alloc: Global,
        source: Value<'a>,
        value: &mut NamedValue<'a>,
    ) -> Result<(), Fault>
        requires empty { value_said value.old ≡ [] }
        ensures { MatchResult result
            (λ _. EachReading self.now (λ es place.
            named_parts self.now.unnamed es place (source_said.value_said source.entry) ≡ Some (value_said value.new)))
            (λ fault. IsUnread self.now.unnamed self.now.growing.now (source_said.value_said source.entry) fault) }
    {
        let mut rest = source.bytes;
        for piece in source.pieces {
            let (before, behind) = rest.split_at(piece.before.min(rest.len()));
            self.add_piece(alloc, before, piece, value)?;
            rest = behind;
        }
        add_bytes(alloc, value, rest)?;
        Ok(())
    }

    /// A value with its references read: a reference in a cell list is the place of its node, or its label where it names no node
    /// and such labels are kept; one outside a cell list is the text of its node's path and a NUL. `UnresolvedReference` where
    /// one isn't read.
    fn named_value<'a>(&self, alloc: Global, source: Value<'a>) -> Result<NamedValue<'a>, Fault>
        ensures { MatchResult result
            (λ value. EachReading self.now (λ es place.
            named_parts self.now.unnamed es place (source_said.value_said source.entry) ≡ Some (value_said value)))
            (λ fault. IsUnread self.now.unnamed self.now.growing.now (source_said.value_said source.entry) fault) }
    {
        let mut value = NamedValue {
            pieces: Vec::with_capacity(alloc, source.pieces.len())?,
            bytes: CowSlice::Borrowed(b""),
        };
        self.add_value(alloc, source, &mut value)?;
        Ok(value)
    }

    /// The value of a cell's reference by a label.
    fn named_label<'a>(
        &self,
        alloc: Global,
        reference: &Reference<'a>,
    ) -> Result<NamedValue<'a>, Fault>
        ensures { MatchResult result
            (λ value. EachReading self.now (λ es place.
            named_parts self.now.unnamed es place (number_of (reference_of reference.now) ∷ []) ≡ Some (value_said value)))
            (λ fault. IsUnread self.now.unnamed self.now.growing.now (number_of (reference_of reference.now) ∷ []) fault) }
    {
        let mut value = NamedValue {
            pieces: Vec::new(alloc),
            bytes: CowSlice::Borrowed(b""),
        };
        self.add_cell(reference, &mut value)?;
        Ok(value)
    }

    /// The value of a new fragment's target: a cell for a label, or the text of a path and a NUL.
    fn named_target<'a>(
        &self,
        alloc: Global,
        reference: &Reference<'a>,
    ) -> Result<NamedValue<'a>, Fault>
        ensures { MatchResult result
            (λ value. EachReading self.now (λ es place.
            named_parts self.now.unnamed es place (target_value (reference_of reference.now)) ≡ Some (value_said value)))
            (λ fault. IsUnread self.now.unnamed self.now.growing.now (target_value (reference_of reference.now)) fault) }
    {
        match reference {
            Reference::Label(_) => self.named_label(alloc, reference),
            Reference::Path(path) => Ok(path_value(alloc, path)?),
        }
    }

    /// What a property holds, with its references read. `UnresolvedReference` where one isn't read.
    pub fn held_value<'a>(
        &self,
        alloc: Global,
        value: PropertyValue<'a>,
    ) -> Result<NamedValue<'a>, Fault>
        ensures { MatchResult result
            (λ named. EachReading self.now (λ es place.
            named_parts self.now.unnamed es place (value_held value.entry) ≡ Some (value_said named)))
            (λ fault. IsUnread self.now.unnamed self.now.growing.now (value_held value.entry) fault) }
    {
        match value {
            PropertyValue::Written(value) => self.named_value(alloc, value),
            PropertyValue::Target(reference) => self.named_target(alloc, reference),
        }
    }
}
