//! Reading the items of a source, one after another (Devicetree Specification v0.4, 6.3).

ghost use Rattle.std.specs.Prelude.{◌≡◌, ◌<◌, ◌≤◌, ◌-◌, ◌++◌, ◌∷◌, [], ℕ, false, Some, None, Ok, IfOk, OnOk, MatchResult, slice_get, length, map};
ghost use Rattle.dt_model.specs.Event.{Stack};
ghost use Rattle.dt_model.specs.Source.{SoFar, root, block, delete_node, child, property, delete_property};
ghost use Rattle.dt_model.specs.Source.{delete_child, close, is_reserved, nothing, read, read_all};
ghost use Rattle.dt_model.specs.Source as model;
ghost use Rattle.dt_names.specs.declared.fault.FaultKind.TheVariants.{Syntax};
ghost use Rattle.dt_source_items.specs.Said.{place_said, reference_of};
ghost use Rattle.dt_source_growing.specs.Grown.{StandsUnder, IsGrown, value_held};
ghost use Rattle.dt_source_growing.specs.Growing.{shape};
ghost use Rattle.dt_model.specs.OverlaySource.{open_fragment};
ghost use Rattle.dt_source_bodies.specs.Reading.{is_behind, Does, ReadsItem, GoesOn, HasTarget, Holds, IsWhole};
ghost use Rattle.dt_source_bodies.specs.Refusals.{mode_said, TellsRefusal, WhyNotGrown};

use dt_names::limits::MOST_NAMES;
use dt_names::{Fault, FaultKind, Seed, is_bookkeeping_name};
use dt_source_growing::{Growing, NameText, PropertyValue};
use dt_source_items::{Item, Items, Reference};
use std::alloc::{AllocError, Global};

/// Of what kind a source is.
#[derive(Clone, Copy)]
pub enum Mode {
    /// A base, which may not have the nodes in which objects keep labels and references.
    Base,
    /// A raw source, which may have them. Every other rule is the same.
    Raw,
}

/// A body that is open: its node, how many names the node's path has, and the item that opened the body.
#[derive(Clone, Copy)]
pub(crate) struct OpenBody {
    pub node: usize,
    pub depth: usize,
    pub item: usize,
}

/// A tree under construction, and the bodies that are open, the innermost last.
#[derive(Drop)]
pub(crate) struct Reading<'s, 'a> {
    pub growing: Growing<'s, 'a>,
    pub bodies: Vec<OpenBody>,
}

/// Whether a node whose path has so many names may not have a child of this name.
fn is_kept_back(mode: Mode, depth: usize, name: &[u8]) -> bool
    ensures { (names : Stack) → depth ≡ length names → result ≡ is_reserved (mode_said mode) names name.now }
{
    match mode {
        Mode::Base => depth == 0 && is_bookkeeping_name(name),
        Mode::Raw => false,
    }
}

/// Whether an item is known, and comes after another.
fn is_later(item: usize, last: Option<usize>) -> bool
    ensures { result ≡ is_behind item last }
{
    match last {
        Some(last) => last > item,
        None => false,
    }
}

/// One more body is open.
fn enter(bodies: &mut Vec<OpenBody>, body: OpenBody) -> Result<(), AllocError>
    ensures { OnOk result (bodies.new.items ≡ bodies.old.items ++ body ∷ []) }
{
    bodies.push(body)?;
    Ok(())
}

impl<'s, 'a: 's> Reading<'s, 'a> {
    /// Nothing was read yet of these items.
    pub fn new(alloc: Global, seed: Seed, items: &'a Items<'a>) -> Result<Self, AllocError>
        ensures whole { IfOk result IsWhole }
        ensures meaning { IfOk result (λ reading. Holds reading 0 nothing) }
    {
        let growing = Growing::new(alloc, seed, items)?;
        Ok(Reading {
            growing,
            bodies: Vec::new(alloc),
        })
    }

    /// The innermost open body.
    fn innermost(&self) -> Result<OpenBody, Fault>
        requires { IsWhole self.now }
        ensures { MatchResult result
            (λ body. (slice_get self.now.bodies.items (length self.now.bodies.items - 1) ≡ Some body)
            × (body.node < length self.now.growing.nodes.items))
            (λ fault. (fault.kind ≡ Syntax) × (fault.at ≡ None) × (length self.now.bodies.items ≡ 0)) }
    {
        match self.bodies.last() {
            Some(body) => Ok(*body),
            None => Err(Fault::of(FaultKind::Syntax)),
        }
    }

    /// No body is open.
    fn outside(&self) -> Result<(), Fault>
        ensures { MatchResult result
            (λ _. length self.now.bodies.items ≡ 0)
            (λ fault. (fault.kind ≡ Syntax) × (fault.at ≡ None) × (0 < length self.now.bodies.items)) }
    {
        if self.bodies.is_empty() {
            Ok(())
        } else {
            Err(Fault::of(FaultKind::Syntax))
        }
    }

    pub fn root(&mut self, item: usize) -> Result<(), Fault>
        requires { IsWhole self.old }
        ensures meaning { (mode : model.Mode) → ReadsItem mode self.old self.new item root result }
        ensures whole { OnOk result (IsWhole self.new) }
        ensures grown { OnOk result (length self.old.growing.nodes.items ≤ length self.new.growing.nodes.items) }
    {
        self.outside()?;
        self.growing.open_root()?;
        enter(
            &mut self.bodies,
            OpenBody {
                node: 0,
                depth: 0,
                item,
            },
        )?;
        Ok(())
    }

    /// The node to which a reference refers at top level, with the depth of its path.
    fn target(&self, reference: &Reference<'a>) -> Result<(usize, usize), Fault>
        requires { IsWhole self.now }
        ensures target { HasTarget self.now (reference_of reference.now) result }
        ensures stands { IfOk result (λ target. (p : Stack) × StandsUnder self.now.growing.nodes.items p target.0) }
    {
        self.outside()?;
        let Some(node) = self.growing.referent(reference) else {
            return Err(Fault::of(FaultKind::NoSuchTarget));
        };
        match self.growing.depth(node) {
            Some(depth) => Ok((node, depth)),
            None => Err(Fault::of(FaultKind::NoSuchTarget)),
        }
    }

    pub fn block(&mut self, item: usize, reference: &Reference<'a>) -> Result<(), Fault>
        requires { IsWhole self.old }
        ensures meaning { (mode : model.Mode) → ReadsItem mode self.old self.new item (block (reference_of reference.now)) result }
        ensures whole { OnOk result (IsWhole self.new) }
        ensures grown { OnOk result (length self.old.growing.nodes.items ≤ length self.new.growing.nodes.items) }
    {
        let (node, depth) = self.target(reference)?;
        enter(&mut self.bodies, OpenBody { node, depth, item })?;
        Ok(())
    }

    fn delete_node(&mut self, item: usize, reference: &Reference<'a>) -> Result<(), Fault>
        requires { IsWhole self.old }
        ensures meaning { (mode : model.Mode) → ReadsItem mode self.old self.new item (delete_node (reference_of reference.now)) result }
        ensures whole { OnOk result (IsWhole self.new) }
    {
        let (node, _) = self.target(reference)?;
        if node == 0 {
            return Err(Fault::of(FaultKind::NoSuchTarget));
        }
        self.growing.cut(node);
        Ok(())
    }

    /// The innermost body, where a child of the name isn't kept back from it.
    fn parent(&self, mode: Mode, name: &[u8]) -> Result<OpenBody, Fault>
        requires { IsWhole self.now }
        ensures innermost { IfOk result (λ body. slice_get self.now.bodies.items (length self.now.bodies.items - 1) ≡ Some body) }
        ensures inside { IfOk result (λ body. body.node < length self.now.growing.nodes.items) }
        ensures meaning { (so_far : SoFar) (items : ℕ) → Holds self.now items so_far → MatchResult result
            (λ _. is_reserved (mode_said mode) so_far.node name.now ≡ false)
            (TellsRefusal (read (mode_said mode) so_far (child name.now))) }
    {
        let body = self.innermost()?;
        if is_kept_back(mode, body.depth, name) {
            return Err(Fault::of(FaultKind::ReservedName));
        }
        Ok(body)
    }

    pub fn child(&mut self, mode: Mode, item: usize, name: &'a [u8]) -> Result<(), Fault>
        requires { IsWhole self.old }
        ensures meaning { ReadsItem (mode_said mode) self.old self.new item (child name.now) result }
        ensures whole { OnOk result (IsWhole self.new) }
        ensures grown { OnOk result (length self.old.growing.nodes.items ≤ length self.new.growing.nodes.items) }
    {
        let body = self.parent(mode, name)?;
        let (node, last) = self
            .growing
            .open_child(body.node, NameText::Written(name), item)?;
        if is_later(body.item, last) {
            return Err(Fault::of(FaultKind::DuplicateNode));
        }
        if body.depth >= MOST_NAMES {
            return Err(Fault::of(FaultKind::Limit));
        }
        let depth = body.depth + 1;
        enter(&mut self.bodies, OpenBody { node, depth, item })?;
        Ok(())
    }

    pub fn label(&mut self, label: &'a [u8]) -> Result<(), Fault>
        requires { IsWhole self.old }
        ensures meaning { (mode : model.Mode) (item : ℕ) → ReadsItem mode self.old self.new item (model.label label.now) result }
        ensures whole { OnOk result (IsWhole self.new) }
        ensures grown { OnOk result (length self.old.growing.nodes.items ≤ length self.new.growing.nodes.items) }
    {
        let body = self.innermost()?;
        match self.growing.labelled(label) {
            Some(node) => {
                if node == body.node {
                    Ok(())
                } else {
                    Err(Fault::of(FaultKind::DuplicateLabel))
                }
            }
            None => {
                self.growing.give(label, body.node)?;
                Ok(())
            }
        }
    }

    pub fn define(
        &mut self,
        item: usize,
        name: &'a [u8],
        value: PropertyValue<'a>,
    ) -> Result<(), Fault>
        requires { IsWhole self.old }
        ensures meaning { (mode : model.Mode) → ReadsItem mode self.old self.new item (property name.now (value_held value.entry)) result }
        ensures whole { OnOk result (IsWhole self.new) }
        ensures grown { OnOk result (length self.old.growing.nodes.items ≤ length self.new.growing.nodes.items) }
    {
        let body = self.innermost()?;
        let last = self.growing.define(body.node, name, value, item)?;
        if is_later(body.item, last) {
            return Err(Fault::of(FaultKind::DuplicateProperty));
        }
        Ok(())
    }

    fn undefine(&mut self, name: &[u8]) -> Result<(), Fault>
        requires { IsWhole self.old }
        ensures meaning { (mode : model.Mode) (item : ℕ) → ReadsItem mode self.old self.new item (delete_property name.now) result }
        ensures whole { OnOk result (IsWhole self.new) }
    {
        let body = self.innermost()?;
        self.growing.undefine(body.node, name);
        Ok(())
    }

    fn delete_child(&mut self, name: &[u8]) -> Result<(), Fault>
        requires { IsWhole self.old }
        ensures meaning { (mode : model.Mode) (item : ℕ) → ReadsItem mode self.old self.new item (delete_child name.now) result }
        ensures whole { OnOk result (IsWhole self.new) }
    {
        let body = self.innermost()?;
        self.growing.cut_child(body.node, name);
        Ok(())
    }

    pub fn close(&mut self) -> Result<(), Fault>
        requires { IsWhole self.old }
        ensures meaning { (mode : model.Mode) (item : ℕ) → ReadsItem mode self.old self.new item close result }
        ensures whole { OnOk result (IsWhole self.new) }
        ensures grown { OnOk result (length self.old.growing.nodes.items ≤ length self.new.growing.nodes.items) }
    {
        match self.bodies.pop() {
            Some(_) => Ok(()),
            None => Err(Fault::of(FaultKind::Syntax)),
        }
    }

    /// Opens a new fragment, with a property that holds its target.
    pub fn open_fragment(
        &mut self,
        item: usize,
        name: &'s [u8],
        property: &'a [u8],
        value: PropertyValue<'a>,
    ) -> Result<(), Fault>
        requires whole { IsWhole self.old }
        requires rooted { 0 < length self.old.growing.nodes.items }
        ensures meaning { Does (λ so_far. model.outside so_far.bodies
            (Ok (open_fragment name.now property.now (value_held value.entry) so_far))) self.old self.new item result }
        ensures whole { OnOk result (IsWhole self.new) }
        ensures rooted { OnOk result (0 < length self.new.growing.nodes.items) }
    {
        self.outside()?;
        let (fragment, _) = self.growing.open_child(0, NameText::Made(name), item)?;
        self.growing.define(fragment, property, value, item)?;
        let (content, _) = self
            .growing
            .open_child(fragment, NameText::Written(b"__overlay__"), item)?;
        enter(
            &mut self.bodies,
            OpenBody {
                node: content,
                depth: 2,
                item,
            },
        )?;
        Ok(())
    }

    /// The next item, which has this number.
    fn step(&mut self, mode: Mode, item: usize, next: Item<'a>) -> Result<(), Fault>
        requires { IsWhole self.old }
        ensures meaning { ReadsItem (mode_said mode) self.old self.new item (place_said next.entry) result }
        ensures whole { OnOk result (IsWhole self.new) }
    {
        match next {
            Item::Root => self.root(item),
            Item::Block(reference) => self.block(item, reference),
            Item::DeleteNode(reference) => self.delete_node(item, reference),
            Item::Child(name) => self.child(mode, item, name.as_bytes()),
            Item::Label(label) => self.label(label.as_bytes()),
            Item::Property(name, value) => {
                self.define(item, name.as_bytes(), PropertyValue::Written(value))
            }
            Item::DeleteProperty(name) => self.undefine(name.as_bytes()),
            Item::DeleteChild(name) => self.delete_child(name.as_bytes()),
            Item::Close => self.close(),
        }
    }
}

/// Reads items from the first on.
fn read_items<'s, 'a: 's>(
    reading: &mut Reading<'s, 'a>,
    mode: Mode,
    items: &'a Items<'a>,
) -> Result<(), Fault>
    requires whole { IsWhole reading.old }
    requires nothing { Holds reading.old 0 nothing }
    ensures { MatchResult result
        (λ _. IsWhole reading.new
        × GoesOn (read_all (mode_said mode) nothing items.now.places) reading.new (length items.now.places))
        (WhyNotGrown (mode_said mode) items.now.places) }
{
    for item in 0..items.len() {
        reading.step(mode, item, items.get(item))?;
    }
    Ok(())
}

/// The tree that the items of a source grow, in a mode; or the first refusal: a property that is defined, or a child that is
/// opened, a second time in one body (DuplicateProperty, DuplicateNode), a label of another node (DuplicateLabel), a
/// reference of a block or a deletion that names no node (NoSuchTarget), a bookkeeping node in a base (ReservedName), a path
/// of more than 64 names (Limit), a body that is open where none may be, or none where one must be (Syntax), or want of
/// memory (NoMemory). No fault has a place (Devicetree Specification v0.4, 6.3).
pub fn grow<'s, 'a: 's>(
    alloc: Global,
    seed: Seed,
    mode: Mode,
    items: &'a Items<'a>,
) -> Result<Growing<'s, 'a>, Fault>
    ensures { MatchResult result
        (λ g. (so_far : SoFar) × (read_all (mode_said mode) nothing items.now.places ≡ Ok so_far)
        × IsGrown g.nodes.items g.properties.items g.givings.items so_far.events)
        (WhyNotGrown (mode_said mode) items.now.places) }
{
    let mut reading = Reading::new(alloc, seed, items)?;
    read_items(&mut reading, mode, items)?;
    let Reading { growing, bodies: _ } = reading;
    Ok(growing)
}
