//! Paths of nodes (Devicetree Specification v0.4, 2.2.3).

ghost use Rattle.std.specs.Prelude.{◌≡◌, ℕ, ◌<◌, ◌≤◌, ◌++◌, ◌∷◌, [], length, take, false, true, None, slice_get};
ghost use Rattle.std.specs.Prelude.{OnOk, OnErr, IsOk, IfOk, IfErr, IfSome, MatchOption};
ghost use Rattle.std.specs.Iterator.{YieldsFirstRef, item_count};
ghost use Rattle.std.specs.List.{AllByRecursion};
ghost use Rattle.std.specs.Option.{option_copied};
ghost use Rattle.dt_model.specs.Limits.{most_names};
ghost use Rattle.dt_model.specs.Names.{IsNodeName};
ghost use Rattle.dt_model.specs.Path.{path_text};
ghost use Rattle.dt_model.specs.Path.{Path as Names};
ghost use Rattle.dt_names.specs.Sink.{Takes, IsRefused};
ghost use Rattle.dt_names.specs.Paths.{parts, parts_left, names_in, AreNames, IsPathOf, WhyNoPath, WhyNotPushed};

use crate::fault::{Fault, FaultKind};
use crate::limits::MOST_NAMES;
use crate::name::{NodeName, is_node_name};
use crate::stream::{Sink, put_all};
use std::alloc::{AllocError, Global};
use std::marker::Model;

/// The names of nodes from the root down to a node, at most 64; the root's own path has none (Devicetree Specification
/// v0.4, 2.2.3; the limit is this project's choice). It is seen as the list of the names. It owns its bytes: each name
/// with a `/` before it.
#[derive(Drop)]
pub struct Path {
    text: Vec<u8>,
    count: usize,
}

impl Model for Path {
    ghost use Rattle.std.specs.Prelude.{List, ℕ};
    ghost use Rattle.dt_names.specs.Paths.{names_in, IsKept};

    ghost Value = { List (List ℕ) };

    ghost view = { λ p. names_in p.text.items };

    ghost invariant = { λ p. IsKept p.text.items p.count };
}

/// The path of a node as it is written, of any number of names: `/` for the root, or else each name with a `/` before it
/// (Devicetree Specification v0.4, 2.2.3). It is seen as the list of the names.
#[derive(Drop)]
pub struct PathRef<'a> {
    text: &'a [u8],
}

impl<'a> Model for PathRef<'a> {
    ghost use Rattle.std.specs.Prelude.{List, ℕ};
    ghost use Rattle.dt_names.specs.Paths.{path_in, IsPathOf};

    ghost Value = { List (List ℕ) };

    ghost view = { λ p. path_in p.text.now };

    ghost invariant = { λ p. IsPathOf p.text.now (path_in p.text.now) };
}

/// The names of a path, from that of the root's child down. They are seen as those that are left.
#[derive(Drop)]
pub struct PathNames<'a> {
    rest: Option<&'a [u8]>,
}

impl<'a> Model for PathNames<'a> {
    ghost use Rattle.std.specs.Prelude.{List, ℕ};
    ghost use Rattle.dt_names.specs.Sink.{Takes, IsRefused};
    ghost use Rattle.dt_names.specs.Paths.{parts_left};

    ghost Value = { List (List ℕ) };

    ghost view = { λ n. parts_left n.rest };
}

/// The bytes before the first `/`, and those behind it, where there is one.
fn cut(bytes: &[u8]) -> (&[u8], Option<&[u8]>)
    ensures { parts bytes.now ≡ result.0.now ∷ parts_left result.1 }
{
    for (at, byte) in bytes.iter().enumerate() {
        if *byte == b'/' {
            return (&bytes[..at], Some(&bytes[at + 1..]));
        }
    }
    (bytes, None)
}

/// How many names the text has, each with a `/` before it; None where it isn't names of nodes.
fn count_names(text: &[u8]) -> Option<usize>
    ensures { MatchOption result (¬ AreNames text.now)
        (λ n. AreNames text.now × (n ≡ length (names_in text.now))) }
{
    let (before, mut rest) = cut(text);
    if !before.is_empty() {
        return None;
    }
    let mut count = 0;
    while let Some(names) = rest {
        let (name, behind) = cut(names);
        if !is_node_name(name) {
            return None;
        }
        count += 1;
        rest = behind;
    }
    Some(count)
}

/// Adds a name at the end, with a `/` before it.
fn add(text: &mut Vec<u8>, name: &[u8]) -> Result<(), AllocError>
    ensures ok { OnOk result (text.new.items ≡ text.old.items ++ 47 ∷ name.now) }
    ensures err { OnErr result (text.new.items ≡ text.old.items) }
{
    text.reserve(1 + name.len())?;
    text.push(b'/')?;
    text.extend_from_slice(name)?;
    Ok(())
}

/// A copy of a text, with a name added at its end. It asks for memory once.
fn text_with(alloc: Global, text: &[u8], name: &[u8]) -> Result<Vec<u8>, AllocError>
    ensures { IfOk result (λ longer. longer.items ≡ text.now ++ 47 ∷ name.now) }
{
    let mut longer = Vec::with_capacity(alloc, text.len() + 1 + name.len())?;
    longer.extend_from_slice(text)?;
    add(&mut longer, name)?;
    Ok(longer)
}

impl<'a> PathRef<'a> {
    /// The path of a text; none where the text is of no path. Takes no memory.
    pub fn new(text: &'a [u8]) -> Option<PathRef<'a>>
        ensures { MatchOption result ((path : Names) → ¬ IsPathOf text.now path) (IsPathOf text.now) }
    {
        if text.is_empty() {
            return None;
        }
        if text == b"/".as_slice() {
            return Some(PathRef { text });
        }
        count_names(text)?;
        Some(PathRef { text })
    }

    /// The path's text: `/` for the root, or else each name with a `/` before it.
    pub fn text(&self) -> &'a [u8]
        ensures value { result.now ≡ path_text self.now }
        // Each name is a node's.
        ensures names { AllByRecursion IsNodeName self.now }
    {
        self.text
    }

    /// The names, from that of the root's child down. Takes no memory.
    pub fn names(&self) -> PathNames<'a>
        ensures { result ≡ self.now }
    {
        if self.text == b"/".as_slice() {
            return PathNames { rest: None };
        }
        let (_, rest) = cut(self.text);
        PathNames { rest }
    }
}

impl<'a> Iterator for PathNames<'a> {
    type Item = &'a [u8];

    ghost next_gives = { YieldsFirstRef (λ n. n) };

    ghost remaining = { item_count (λ n. n) };

    fn next(&mut self) -> Option<&'a [u8]> {
        match self.rest {
            None => None,
            Some(names) => {
                let (name, rest) = cut(names);
                self.rest = rest;
                Some(name)
            }
        }
    }
}

impl Path {
    /// The path of the root. Takes no memory.
    pub fn root(alloc: Global) -> Path
        ensures { result ≡ [] }
    {
        Path {
            text: Vec::new(alloc),
            count: 0,
        }
    }

    /// The path of a text: `/`, or each name with a `/` before it (Devicetree Specification v0.4, 2.2.3).
    ///
    /// # Errors
    ///
    /// `Limit` where the text is of a path of more than 64 names; `BadName` where it is no path's text at all; and `NoMemory`, where
    /// nothing else refuses. None has a place.
    pub fn parse(alloc: Global, text: &[u8]) -> Result<Path, Fault>
        ensures text { IfOk result (λ path. text.now ≡ path_text path) }
        ensures names { IfOk result (λ path. AllByRecursion IsNodeName path) }
        ensures few { IfOk result (λ path. length path ≤ most_names) }
        ensures refused { IfErr result (λ fault. WhyNoPath fault.kind text.now × (fault.at ≡ None)) }
    {
        if text.is_empty() {
            return Err(Fault::of(FaultKind::BadName));
        }
        if text == b"/".as_slice() {
            return Ok(Path::root(alloc));
        }
        let Some(count) = count_names(text) else {
            return Err(Fault::of(FaultKind::BadName));
        };
        if count > MOST_NAMES {
            return Err(Fault::of(FaultKind::Limit));
        }
        let text = Vec::from_slice(alloc, text)?;
        Ok(Path { text, count })
    }

    /// Adds the name of a child, at the end.
    ///
    /// # Errors
    ///
    /// `Limit` where the path has 64 names; and `NoMemory`, where it has fewer. None has a place. At a fault the path is unchanged.
    pub fn push(&mut self, name: &NodeName<'_>) -> Result<(), Fault>
        ensures ok { OnOk result (self.new ≡ self.old ++ name.now ∷ []) }
        ensures room { IsOk result → length self.old < most_names }
        ensures err { OnErr result (self.new ≡ self.old) }
        ensures refused { IfErr result (λ fault. WhyNotPushed fault.kind self.old × (fault.at ≡ None)) }
    {
        if self.count >= MOST_NAMES {
            return Err(Fault::of(FaultKind::Limit));
        }
        add(&mut self.text, name.as_bytes())?;
        self.count += 1;
        Ok(())
    }

    /// The path of a child, with bytes of its own.
    ///
    /// # Errors
    ///
    /// `Limit` where the path has 64 names; and `NoMemory`, where it has fewer. None has a place.
    pub fn child(&self, alloc: Global, name: &NodeName<'_>) -> Result<Path, Fault>
        ensures ok { IfOk result (λ child. child ≡ self.now ++ name.now ∷ []) }
        ensures room { IsOk result → length self.now < most_names }
        ensures refused { IfErr result (λ fault. WhyNotPushed fault.kind self.now × (fault.at ≡ None)) }
    {
        if self.count >= MOST_NAMES {
            return Err(Fault::of(FaultKind::Limit));
        }
        let text = text_with(alloc, &self.text, name.as_bytes())?;
        Ok(Path {
            text,
            count: self.count + 1,
        })
    }

    /// The same path, with bytes of its own.
    ///
    /// # Errors
    ///
    /// Where memory is refused.
    pub fn copy(&self, alloc: Global) -> Result<Path, AllocError>
        ensures { IfOk result (λ path. path ≡ self.now) }
    {
        let text = Vec::from_slice(alloc, &self.text)?;
        Ok(Path {
            text,
            count: self.count,
        })
    }

    /// How many names the path has.
    pub fn len(&self) -> usize
        ensures value { result ≡ length self.now }
        ensures few { result ≤ most_names }
    {
        self.count
    }

    /// The name at an index, counted from the root's children down; None past the last one. Looks through the path's text
    /// up to the name, and takes no memory.
    pub fn name(&self, index: usize) -> Option<&[u8]>
        ensures value { option_copied result ≡ slice_get self.now index }
        ensures valid { IfSome result (λ name. IsNodeName name.now) }
    {
        let (_, mut rest) = cut(&self.text);
        let mut left = index;
        while let Some(names) = rest {
            let (name, behind) = cut(names);
            if left == 0 {
                return Some(name);
            }
            left -= 1;
            rest = behind;
        }
        None
    }

    /// The names, from that of the root's child down. Takes no memory.
    pub fn names(&self) -> PathNames<'_>
        ensures { result ≡ self.now }
    {
        let (_, rest) = cut(&self.text);
        PathNames { rest }
    }

    /// The text of the path: `/` for the root, or else each name with a `/` before it (Devicetree Specification v0.4, 2.2.3).
    pub fn text(&self) -> &[u8]
        ensures { result.now ≡ path_text self.now }
    {
        if self.text.is_empty() {
            b"/".as_slice()
        } else {
            &self.text
        }
    }

    /// Gives a sink the text of the path: `/` for the root, or else each name with a `/` before it (Devicetree
    /// Specification v0.4, 2.2.3).
    ///
    /// # Errors
    ///
    /// `WriteFault`, without a place, where the sink fails: it took a front of the text.
    pub fn write_to<S: Sink>(&self, sink: &mut S) -> Result<(), Fault>
        ensures written { OnOk result (Takes (path_text self.now) (S.taken sink.old) (S.taken sink.new)) }
        ensures works { OnOk result ((S.taken sink.new).has_failed ≡ false) }
        ensures refused { IfErr result (λ fault. IsRefused fault (path_text self.now) (S.taken sink.old) (S.taken sink.new)) }
    {
        put_all(sink, self.text())
    }
}
