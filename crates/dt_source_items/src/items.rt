//! The items of a source, while they are read and afterwards: a row each. The bytes of all values are one buffer.

ghost use Rattle.std.specs.Prelude.{◌≡◌, ◌<◌, ◌++◌, ◌∷◌, [], Some, OnOk, IfOk, length, map, slice_get};
ghost use Rattle.dt_model.specs.Source.{one, property};
ghost use Rattle.dt_lex.specs.Texts.{text_bytes};
ghost use Rattle.dt_source_items.specs.Gathered.{nothing_gathered, with_parts, with_place, with_value};
ghost use Rattle.dt_source_items.specs.Rows.{AreRows, IsPlain, bare_said, naming_said, plain_said};
ghost use Rattle.dt_source_items.specs.Said.{place_said, reference_of, referring};

use crate::source::{Form, Item, Piece, Reference, Value};
use dt_lex::push_text;
use dt_names::{Label, NodeName, PropName};
use std::alloc::{AllocError, Global};
use std::marker::Model;

/// An item that holds no value.
#[derive(Drop)]
pub enum Bare<'a> {
    /// `/ {`
    Root,
    /// `&label {` or `&{/path} {`
    Block(Reference<'a>),
    /// `/delete-node/ &label;` or `/delete-node/ &{/path};`
    DeleteNode(Reference<'a>),
    /// `name {`
    Child(NodeName<'a>),
    /// `label:`, of the node whose body was just opened.
    Label(Label<'a>),
    /// `/delete-property/ name;`
    DeleteProperty(PropName<'a>),
    /// `/delete-node/ name;`
    DeleteChild(NodeName<'a>),
    /// `};`
    Close,
}

/// Where a value is among the pieces and the bytes of all values.
#[derive(Clone, Copy)]
pub(crate) struct Span {
    pub first_piece: u32,
    pub end_piece: u32,
    pub first_byte: u32,
    pub end_byte: u32,
}

/// How a reference names a node.
#[derive(Clone, Copy)]
pub(crate) enum Naming {
    Block,
    DeleteNode,
}

/// An item in as many bytes as a name needs: it has the place of what is longer.
#[derive(Drop)]
pub(crate) enum Row<'a> {
    Root,
    Named(Naming, u32),
    Child(NodeName<'a>),
    Label(Label<'a>),
    DeleteProperty(PropName<'a>),
    DeleteChild(NodeName<'a>),
    Close,
    /// A property without a value.
    Flag(PropName<'a>),
    Property(u32, PropName<'a>),
}

/// The items of a source in the order of its text, and the value that was begun last. However many values there are, their bytes
/// are one buffer, and their references another.
#[derive(Drop)]
pub struct Items<'a> {
    rows: Vec<Row<'a>>,
    /// The references of blocks and of deleted nodes.
    named: Vec<Reference<'a>>,
    spans: Vec<Span>,
    pieces: Vec<Piece<'a>>,
    bytes: Vec<u8>,
    /// The first piece of the value that was begun last.
    piece: usize,
    /// Its first byte.
    byte: usize,
    /// The byte behind its last reference, or its first byte where it has none.
    referred: usize,
}

impl<'a> Model for Items<'a> {
    ghost use Rattle.dt_source_items.specs.Gathered.{Gathered};
    ghost use Rattle.dt_source_items.specs.Rows.{AreRows, gathered};

    ghost Value = { Gathered };

    ghost view = { λ s. gathered s.rows.items s.named.items s.spans.items s.pieces.items s.bytes.items s.piece s.byte };

    ghost invariant = { λ s. AreRows s.rows.items s.named.items s.spans.items s.pieces.items s.bytes.items s.piece s.byte s.referred };
}

/// The most bytes, references and values that a source may have together: a place is 32 bits.
const MOST: usize = 0xffff_ffff;

impl<'a> Items<'a> {
    /// No items. Takes no memory.
    pub fn new(alloc: Global) -> Items<'a>
        ensures { result ≡ nothing_gathered }
    {
        Items {
            rows: Vec::new(alloc),
            named: Vec::new(alloc),
            spans: Vec::new(alloc),
            pieces: Vec::new(alloc),
            bytes: Vec::new(alloc),
            piece: 0,
            byte: 0,
            referred: 0,
        }
    }

    /// Begins a value, which has no bytes yet.
    pub fn begin_value(&mut self)
        ensures { self.new ≡ with_value self.old [] }
    {
        self.piece = self.pieces.len();
        self.byte = self.bytes.len();
        self.referred = self.byte;
    }

    /// Appends a byte to the value that was begun last.
    ///
    /// # Errors
    ///
    /// AllocError if there is no memory for it.
    pub fn push_byte(&mut self, byte: u8) -> Result<(), AllocError>
        ensures { OnOk result (self.new ≡ with_parts self.old (one byte ∷ [])) }
    {
        self.bytes.push(byte)?;
        Ok(())
    }

    /// Appends bytes to the value that was begun last.
    ///
    /// # Errors
    ///
    /// AllocError if there is no memory for it.
    pub fn push_bytes(&mut self, bytes: &[u8]) -> Result<(), AllocError>
        ensures { OnOk result (self.new ≡ with_parts self.old (map one bytes.now)) }
    {
        self.bytes.extend_from_slice(bytes)?;
        Ok(())
    }

    /// Appends what a token of a text says, and a NUL, to the value that was begun last.
    ///
    /// # Errors
    ///
    /// AllocError if there is no memory for it.
    pub fn push_string(&mut self, token: &[u8]) -> Result<(), AllocError>
        ensures { OnOk result (self.new ≡ with_parts self.old (map one (text_bytes token.now ++ 0 ∷ []))) }
    {
        // The token is longer than what it says by its two quotes.
        self.bytes.reserve(token.len())?;
        push_text(token, &mut self.bytes)?;
        self.bytes.push(0)?;
        Ok(())
    }

    /// Appends a reference to the value that was begun last.
    ///
    /// # Errors
    ///
    /// AllocError if there is no memory for it.
    pub fn push_reference(&mut self, form: Form, reference: Reference<'a>) -> Result<(), AllocError>
        ensures { OnOk result (self.new ≡ with_parts self.old (referring form (reference_of reference.entry) ∷ [])) }
    {
        let before = self.bytes.len() - self.referred;
        self.pieces.push(Piece {
            before,
            form,
            reference,
        })?;
        self.referred = self.bytes.len();
        Ok(())
    }

    /// Appends a row that has no place.
    fn push_row(&mut self, row: Row<'a>) -> Result<(), AllocError>
        requires { IsPlain row }
        ensures { OnOk result (self.new ≡ with_place self.old (plain_said row.entry)) }
    {
        self.rows.push(row)?;
        Ok(())
    }

    /// Appends a row that names a node by a reference.
    fn push_named(&mut self, naming: Naming, reference: Reference<'a>) -> Result<(), AllocError>
        ensures { OnOk result (self.new ≡ with_place self.old (naming_said naming (reference_of reference.entry))) }
    {
        let Ok(place) = u32::try_from(self.named.len()) else {
            return Err(AllocError);
        };
        self.named.push(reference)?;
        self.rows.push(Row::Named(naming, place))?;
        Ok(())
    }

    /// Appends an item that holds no value.
    ///
    /// # Errors
    ///
    /// AllocError if there is no memory for it, or if 2^32 items are blocks or deletions of a reference. A source of 16 MiB has
    /// fewer.
    pub fn push(&mut self, bare: Bare<'a>) -> Result<(), AllocError>
        ensures { OnOk result (self.new ≡ with_place self.old (bare_said bare.entry)) }
    {
        match bare {
            Bare::Root => self.push_row(Row::Root),
            Bare::Block(reference) => self.push_named(Naming::Block, reference),
            Bare::DeleteNode(reference) => self.push_named(Naming::DeleteNode, reference),
            Bare::Child(name) => self.push_row(Row::Child(name)),
            Bare::Label(label) => self.push_row(Row::Label(label)),
            Bare::DeleteProperty(name) => self.push_row(Row::DeleteProperty(name)),
            Bare::DeleteChild(name) => self.push_row(Row::DeleteChild(name)),
            Bare::Close => self.push_row(Row::Close),
        }
    }

    /// Appends a property with the place of the value that was begun last.
    fn push_valued(&mut self, name: PropName<'a>) -> Result<(), AllocError>
        ensures { OnOk result (self.new ≡ with_place self.old (property name.entry self.old.value)) }
    {
        if MOST < self.bytes.len() || MOST < self.pieces.len() || MOST < self.spans.len() {
            return Err(AllocError);
        }
        let place = self.spans.len() as u32;
        self.spans.push(Span {
            first_piece: self.piece as u32,
            end_piece: self.pieces.len() as u32,
            first_byte: self.byte as u32,
            end_byte: self.bytes.len() as u32,
        })?;
        self.rows.push(Row::Property(place, name))?;
        Ok(())
    }

    /// Appends a property that holds the value that was begun last.
    ///
    /// # Errors
    ///
    /// AllocError if there is no memory for it, or if all values together have more than 2^32 - 1 bytes or references. A
    /// source of 16 MiB has fewer.
    pub fn push_property(&mut self, name: PropName<'a>) -> Result<(), AllocError>
        ensures { OnOk result (self.new ≡ with_place self.old (property name.entry self.old.value)) }
    {
        if self.piece == self.pieces.len() && self.byte == self.bytes.len() {
            return self.push_row(Row::Flag(name));
        }
        self.push_valued(name)
    }

    /// Lets go of the room behind what was read.
    pub fn shrink_to_fit(&mut self)
        ensures { self.new ≡ self.old }
    {
        self.rows.shrink_to_fit();
        self.named.shrink_to_fit();
        self.spans.shrink_to_fit();
        self.pieces.shrink_to_fit();
        self.bytes.shrink_to_fit();
    }

    /// How many items there are.
    pub fn len(&self) -> usize
        ensures { result ≡ length self.now.places }
    {
        self.rows.len()
    }

    /// The item of a number, counted from 0.
    pub fn get(&'a self, index: usize) -> Item<'a>
        requires { index < length self.now.places }
        ensures { slice_get self.now.places index ≡ Some (place_said result) }
    {
        match &self.rows[index] {
            Row::Root => Item::Root,
            Row::Named(Naming::Block, place) => Item::Block(&self.named[*place as usize]),
            Row::Named(Naming::DeleteNode, place) => Item::DeleteNode(&self.named[*place as usize]),
            Row::Child(name) => Item::Child(name),
            Row::Label(label) => Item::Label(label),
            Row::DeleteProperty(name) => Item::DeleteProperty(name),
            Row::DeleteChild(name) => Item::DeleteChild(name),
            Row::Close => Item::Close,
            Row::Flag(name) => Item::Property(
                name,
                Value {
                    pieces: &[],
                    bytes: &[],
                },
            ),
            Row::Property(place, name) => {
                let span = self.spans[*place as usize];
                Item::Property(
                    name,
                    Value {
                        pieces: &self.pieces[span.first_piece as usize..span.end_piece as usize],
                        bytes: &self.bytes[span.first_byte as usize..span.end_byte as usize],
                    },
                )
            }
        }
    }
}
