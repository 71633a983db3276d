//! A walk through a tree.

ghost use Rattle.std.specs.Prelude.{◌≡◌, ◌∷◌, [], List};
ghost use Rattle.std.specs.Option.{MatchOption};
ghost use Rattle.std.specs.Iterator.{YieldsFirstBy, item_count};
ghost use Rattle.dt_model.specs.Tree.{Property};
ghost use Rattle.dt_read.specs.Marks.{Mark};
ghost use Rattle.dt_read.specs.StepsLeft.{steps_left, step_view, node_step_view};
ghost use Rattle.dt_read.specs.View.{tag_mark, HasToken};
ghost use Rattle.dt_read.specs.Walked.{holds, leading, without_properties};

use crate::NodeId;
use crate::cursor::{Cursor, next_tag};
use crate::known::KnownTexts;
use crate::property::value_of;
use crate::token::{Tag, begins_a_node};
use std::marker::Model;

/// A step of a walk through a tree, each node before its children.
#[derive(Clone, Copy)]
pub enum Step<'a> {
    /// A node begins.
    Open { node: NodeId, name: &'a [u8] },
    /// The innermost open node has a property.
    Property { name: &'a [u8], value: &'a [u8] },
    /// The innermost open node ends.
    Close,
}

/// The step that a tag at an offset is; None where it is the last one.
#[inline(always)]
fn step_of<'a>(names: &mut KnownTexts<'a>, at: usize, tag: Tag<'a>) -> Option<Step<'a>>
    requires token { (p : Property) × HasToken names.old tag p }
    requires no_nop { tag ≡ Tag.Nop → ⊥ }
    ensures strings { names.new ≡ names.old }
    ensures step { (p : Property) (marks : List Mark) → HasToken names.old tag.entry p → MatchOption result
        (steps_left (tag_mark at tag.entry p ∷ marks) ≡ []) (λ step. steps_left (tag_mark at tag.entry p ∷ marks) ≡ step_view step ∷ steps_left marks) }
{
    match tag {
        Tag::BeginNode(name) => Some(Step::Open { node: at, name }),
        Tag::Property(own) => {
            let name = names.name_of(own)?;
            Some(Step::Property {
                name,
                value: value_of(own),
            })
        }
        Tag::EndNode => Some(Step::Close),
        Tag::Nop | Tag::End => None,
    }
}

/// The steps of a walk from a place on. It is seen as the steps that are left. Names of properties repeat, so it remembers the offsets and the
/// lengths of 256 of them, and finds the end of most names without a look at their bytes.
#[derive(Drop)]
pub struct Steps<'a> {
    names: KnownTexts<'a>,
    at: usize,
    rest: &'a [u8],
}

impl<'a> Model for Steps<'a> {
    ghost use Rattle.std.specs.Prelude.{List};
    ghost use Rattle.std.specs.Coded.{coded_list};
    ghost use Rattle.dt_read.specs.StepsLeft.{steps_left};
    ghost use Rattle.dt_read.specs.TreeCode.{coded_step};
    ghost use Rattle.dt_read.specs.TreeTokens.{AreTokens, marks_in};
    ghost use Rattle.dt_read.specs.Walked.{Step};

    ghost Value = { List Step };

    ghost coded = { coded_list coded_step };

    ghost view = { λ s. steps_left (marks_in s.names s.at s.rest.now) };

    ghost invariant = { λ s. AreTokens s.names s.at s.rest.now };
}

impl<'a> Steps<'a> {
    pub(crate) fn new(cursor: Cursor<'a>) -> Steps<'a>
        ensures { result ≡ steps_left cursor.entry }
    {
        let (strings, at, rest) = cursor.parts();
        Steps {
            names: KnownTexts::new(strings),
            at,
            rest,
        }
    }

    /// Reads the step at the front.
    #[inline(always)]
    fn step(&mut self) -> Option<Step<'a>>
        ensures { MatchOption result ((self.old ≡ []) × (self.new ≡ [])) (λ step. self.old ≡ step_view step ∷ self.new) }
    {
        let found = next_tag(self.at, self.rest)?;
        let step = step_of(&mut self.names, found.at, found.tag)?;
        self.at = found.behind;
        self.rest = found.rest;
        Some(step)
    }

    /// Reads the step at the front where it is a property: its name and its value. Where it is none, the walk stays where it is.
    pub fn next_property(&mut self) -> Option<(&'a [u8], &'a [u8])>
        ensures { MatchOption result ((leading self.old ≡ []) × (self.new ≡ self.old))
            (λ p. self.old ≡ holds (record { name = p.0.now; value = p.1.now }) ∷ self.new) }
    {
        // A node's name is left to whoever reads its step.
        if begins_a_node(self.rest) {
            return None;
        }
        let found = next_tag(self.at, self.rest)?;
        let Tag::Property(own) = found.tag else {
            return None;
        };
        let name = self.names.name_of(own)?;
        self.at = found.behind;
        self.rest = found.rest;
        Some((name, value_of(own)))
    }
}

impl<'a> Iterator for Steps<'a> {
    type Item = Step<'a>;

    ghost next_gives = { YieldsFirstBy step_view (λ s. s) };

    ghost remaining = { item_count (λ s. s) };

    #[inline(always)]
    fn next(&mut self) -> Option<Step<'a>> {
        self.step()
    }
}

/// A step of a walk through the nodes alone.
#[derive(Clone, Copy)]
pub enum NodeStep<'a> {
    /// A node begins.
    Open { node: NodeId, name: &'a [u8] },
    /// The innermost open node ends.
    Close,
}

/// Reads the step at the front, behind the properties there.
fn next_node_step<'a>(cursor: &mut Cursor<'a>) -> Option<NodeStep<'a>>
    ensures { MatchOption result ((without_properties (steps_left cursor.old) ≡ []) × (without_properties (steps_left cursor.new) ≡ []))
        (λ step. without_properties (steps_left cursor.old) ≡ node_step_view step ∷ without_properties (steps_left cursor.new)) }
{
    let mut ahead = cursor.copy();
    while let Some((node, tag)) = ahead.next_tag() {
        let step = match tag {
            Tag::BeginNode(name) => NodeStep::Open { node, name },
            Tag::EndNode => NodeStep::Close,
            Tag::Property(_) => continue,
            Tag::Nop | Tag::End => return None,
        };
        *cursor = ahead;
        return Some(step);
    }
    None
}

/// The steps of a walk through the nodes alone. It is seen as the steps that are left.
#[derive(Drop)]
pub struct NodeSteps<'a> {
    cursor: Cursor<'a>,
}

impl<'a> Model for NodeSteps<'a> {
    ghost use Rattle.std.specs.Prelude.{List};
    ghost use Rattle.std.specs.Coded.{coded_list};
    ghost use Rattle.dt_read.specs.StepsLeft.{steps_left};
    ghost use Rattle.dt_read.specs.TreeCode.{coded_step};
    ghost use Rattle.dt_read.specs.Walked.{Step, without_properties};

    ghost Value = { List Step };

    ghost coded = { coded_list coded_step };

    ghost view = { λ s. without_properties (steps_left s.cursor) };
}

impl<'a> NodeSteps<'a> {
    pub(crate) fn new(cursor: Cursor<'a>) -> NodeSteps<'a>
        ensures { result ≡ without_properties (steps_left cursor.entry) }
    {
        NodeSteps { cursor }
    }
}

impl<'a> Iterator for NodeSteps<'a> {
    type Item = NodeStep<'a>;

    ghost next_gives = { YieldsFirstBy node_step_view (λ s. s) };

    ghost remaining = { item_count (λ s. s) };

    fn next(&mut self) -> Option<NodeStep<'a>> {
        next_node_step(&mut self.cursor)
    }
}
