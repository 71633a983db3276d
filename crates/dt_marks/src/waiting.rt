//! The cells that wait for nodes of some other tree.

ghost use Rattle.std.specs.Prelude.{◌≡◌, ◌<◌, ◌+◌, ◌++◌, [], length, nat_eq, slice_get, Some, OnOk, IfOk, decimal, codes};
ghost use Rattle.dt_marks.specs.Waiting.{properties_kept, with_text, place_text};

use dt_names::Seed;
use indexmap::IndexMap;
use itoa::Buffer;
use std::alloc::{AllocError, Global};
use std::marker::Model;

/// Texts by the labels under which they are listed.
type Texts = IndexMap<Vec<u8>, Vec<u8>, Seed>;

/// The texts of the cells that wait, by the labels of the nodes for which they wait, in the order in which the labels come
/// first. It is seen as properties.
#[derive(Drop)]
pub(crate) struct Waiting {
    alloc: Global,
    texts: Texts,
    // the text of the cell that came last
    place: Vec<u8>,
}

impl Model for Waiting {
    ghost use Rattle.std.specs.Prelude.{List};
    ghost use Rattle.dt_model.specs.Tree.{Property};
    ghost use Rattle.dt_marks.specs.Waiting.{properties_kept};

    ghost Value = { List Property };

    ghost view = { λ a. properties_kept a.texts.entries };
}

/// Puts a text behind those of its label.
fn append(texts: &mut Texts, alloc: Global, label: &[u8], text: &[u8]) -> Result<(), AllocError>
    ensures { OnOk result (properties_kept texts.new.entries ≡ with_text (properties_kept texts.old.entries) label.now text.now) }
{
    if let Some(place) = texts.get_index_of(label) {
        let (_, value) = texts.pair_mut(place);
        return value.extend_from_slice(text);
    }
    let key = Vec::from_slice(alloc, label)?;
    let value = Vec::from_slice(alloc, text)?;
    texts.insert(key, value)?;
    Ok(())
}

/// Writes the place of a cell.
fn put_place(
    out: &mut Vec<u8>,
    path: &[u8],
    property: &[u8],
    offset: usize,
) -> Result<(), AllocError>
    ensures { OnOk result (out.new.items ≡ place_text path.now property.now offset) }
{
    let mut digits = Buffer::new();
    out.clear();
    out.extend_from_slice(path)?;
    out.push(b':')?;
    out.extend_from_slice(property)?;
    out.push(b':')?;
    out.extend_from_slice(digits.format(offset).as_bytes())?;
    out.push(0)?;
    Ok(())
}

impl Waiting {
    /// No cells. The labels will be hashed behind the seed.
    pub fn new(alloc: Global, seed: Seed) -> Self
        ensures { result ≡ [] }
    {
        Waiting {
            alloc,
            texts: Texts::with_hasher(alloc, seed),
            place: Vec::new(alloc),
        }
    }

    /// How many labels there are.
    pub fn len(&self) -> usize
        ensures { result ≡ length self.now }
    {
        self.texts.len()
    }

    /// The label at a place, with its texts.
    pub fn at(&self, place: usize) -> (&[u8], &[u8])
        requires { place < length self.now }
        ensures { slice_get self.now place ≡ Some (record { name = result.0.now; value = result.1.now }) }
    {
        match self.texts.get_index(place) {
            Some((label, text)) => (label.as_slice(), text.as_slice()),
            None => unreachable!(),
        }
    }

    /// A cell waits for the node of a label: the one at an offset of a property, whose node has a path with this text.
    pub fn add(
        &mut self,
        label: &[u8],
        path: &[u8],
        property: &[u8],
        offset: usize,
    ) -> Result<(), AllocError>
        ensures { OnOk result (self.new ≡ with_text self.old label.now (place_text path.now property.now offset)) }
    {
        put_place(&mut self.place, path, property, offset)?;
        append(&mut self.texts, self.alloc, label, &self.place)
    }
}
