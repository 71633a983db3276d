//! Statements: blocks, and deletions of nodes.

ghost use Rattle.std.specs.Prelude.{◌≡◌, ◌≢◌, ◌++◌, ◌∷◌, [], Some, true, false, List, ℕ, map, OnOk, IfErr};
ghost use Rattle.dt_grammar.specs.Unchecked.{Target, RawPlace, raw_block, place_meant, all_but_last};
ghost use Rattle.dt_grammar.specs.Relaxed.{reference_kind};
ghost use Rattle.dt_grammar.specs.Strict.{AreLabelTexts, IsReferenceText};
ghost use Rattle.dt_grammar.specs.Wanted.{OneStatement, StatementThen, made_places, kind_at, bytes_at};
ghost use Rattle.dt_grammar.specs.Descent.{first, after};
ghost use Rattle.dt_grammar.specs.Faults.{outside};
ghost use Rattle.dt_parse.specs.Reading.{IsRead, IsBroken};
ghost use Rattle.dt_parse.specs.declared.statement.Start.TheVariants as start;
ghost use Rattle.dt_parse.specs.Starts.{start_of};

use crate::body::{body, push_item, push_labels};
use crate::cursor::Cursor;
use crate::expression::Room;
use crate::stop::Stop;
use crate::value::{labels, reference};
use dt_lex::{Keyword, Mark, TokenKind};
use dt_names::{FaultKind, Label};
use dt_source_items::{Bare, Items};

/// What a statement begins with, behind its labels.
#[derive(Clone, Copy)]
pub(crate) enum Start {
    /// `/`
    Root,
    /// `/delete-node/`
    Deletion,
    /// A label's or a path's reference.
    Node,
    Other,
}

fn start_of(kind: Option<TokenKind>) -> Start
    ensures { result ≡ start_of kind }
{
    match kind {
        Some(TokenKind::Mark(Mark::Slash)) => Start::Root,
        Some(TokenKind::Keyword(Keyword::DeleteNode)) => Start::Deletion,
        Some(TokenKind::LabelReference) => Start::Node,
        Some(TokenKind::PathReference) => Start::Node,
        _ => Start::Other,
    }
}

/// Reads `/` and a body.
fn root<'a>(
    room: &mut Room,
    labelled: bool,
    cursor: &mut Cursor<'a, '_>,
    items: &mut Items<'a>,
) -> Result<(), Stop>
    requires { start_of (kind_at (first cursor.old)) ≡ start.Root }
    ensures ok { OnOk result ((labelled ≡ false) × ((ps : List RawPlace) × IsRead outside (OneStatement []) cursor.old (made_places ps) cursor.new
        × (items.new.places ≡ items.old.places ++ map place_meant ps))) }
    ensures err { IfErr result (λ stop. (ls : List (List ℕ)) → (labelled ≡ false → ls ≡ []) → (labelled ≡ true → ls ≢ [])
        → IsBroken outside (OneStatement ls) cursor.old stop) }
{
    if labelled {
        return Err(cursor.stop(FaultKind::Syntax));
    }
    cursor.advance();
    push_item(Bare::Root, items)?;
    body(room, cursor, items)
}

/// Reads the reference in front of a body.
fn open_block<'a>(cursor: &mut Cursor<'a, '_>, items: &mut Items<'a>) -> Result<(), Stop>
    requires { start_of (kind_at (first cursor.old)) ≡ start.Node }
    ensures ok { (t : Target) → kind_at (first cursor.old) ≡ Some (reference_kind t) → OnOk result
        (IsReferenceText t (bytes_at (first cursor.old)) × (cursor.new ≡ after true cursor.old)
        × (items.new.places ≡ items.old.places ++ place_meant (raw_block t (bytes_at (first cursor.old))) ∷ [])) }
    ensures err { IfErr result (λ stop. (ls : List (List ℕ)) → IsBroken outside (OneStatement ls) cursor.old stop) }
{
    let node = reference(cursor)?;
    cursor.advance();
    push_item(Bare::Block(node), items)
}

/// Reads a reference and a body, behind labels.
fn block<'a>(
    room: &mut Room,
    names: Vec<Label<'a>>,
    cursor: &mut Cursor<'a, '_>,
    items: &mut Items<'a>,
) -> Result<(), Stop>
    requires { start_of (kind_at (first cursor.old)) ≡ start.Node }
    ensures ok { (ls : List (List ℕ)) → names.entry.items ≡ map all_but_last ls → AreLabelTexts ls → OnOk result
        ((ps : List RawPlace) × IsRead outside (OneStatement ls) cursor.old (made_places ps) cursor.new
        × (items.new.places ≡ items.old.places ++ map place_meant ps)) }
    ensures err { IfErr result (λ stop. (ls : List (List ℕ)) → IsBroken outside (OneStatement ls) cursor.old stop) }
{
    open_block(cursor, items)?;
    push_labels(names, items)?;
    body(room, cursor, items)
}

/// Reads `/delete-node/`, a reference and `;`.
fn delete_node<'a>(
    labelled: bool,
    cursor: &mut Cursor<'a, '_>,
    items: &mut Items<'a>,
) -> Result<(), Stop>
    requires { start_of (kind_at (first cursor.old)) ≡ start.Deletion }
    ensures ok { OnOk result ((labelled ≡ false) × ((ps : List RawPlace) × IsRead outside (OneStatement []) cursor.old (made_places ps) cursor.new
        × (items.new.places ≡ items.old.places ++ map place_meant ps))) }
    ensures err { IfErr result (λ stop. (ls : List (List ℕ)) → (labelled ≡ false → ls ≡ []) → (labelled ≡ true → ls ≢ [])
        → IsBroken outside (OneStatement ls) cursor.old stop) }
{
    if labelled {
        return Err(cursor.stop(FaultKind::Syntax));
    }
    cursor.advance();
    match start_of(cursor.kind()) {
        Start::Node => {
            let node = reference(cursor)?;
            cursor.advance();
            cursor.expect(TokenKind::Mark(Mark::Semicolon))?;
            push_item(Bare::DeleteNode(node), items)
        }
        _ => Err(cursor.stop(FaultKind::Syntax)),
    }
}

/// Reads a statement, behind its labels.
fn statement<'a>(
    room: &mut Room,
    names: Vec<Label<'a>>,
    cursor: &mut Cursor<'a, '_>,
    items: &mut Items<'a>,
) -> Result<(), Stop>
    ensures ok { (ls : List (List ℕ)) → names.entry.items ≡ map all_but_last ls → AreLabelTexts ls → OnOk result
        ((ps : List RawPlace) × IsRead outside (OneStatement ls) cursor.old (made_places ps) cursor.new
        × (items.new.places ≡ items.old.places ++ map place_meant ps)) }
    ensures err { (ls : List (List ℕ)) → names.entry.items ≡ map all_but_last ls → IfErr result (λ stop. IsBroken outside (OneStatement ls) cursor.old stop) }
{
    match start_of(cursor.kind()) {
        Start::Root => root(room, !names.is_empty(), cursor, items),
        Start::Deletion => delete_node(!names.is_empty(), cursor, items),
        Start::Node => block(room, names, cursor, items),
        Start::Other => Err(cursor.stop(FaultKind::Syntax)),
    }
}

/// Reads statements up to the end of the text, behind the labels of the first.
pub(crate) fn statements<'a>(
    room: &mut Room,
    names: Vec<Label<'a>>,
    cursor: &mut Cursor<'a, '_>,
    items: &mut Items<'a>,
) -> Result<(), Stop>
    ensures ok { (ls : List (List ℕ)) → names.entry.items ≡ map all_but_last ls → AreLabelTexts ls → OnOk result
        ((ps : List RawPlace) × IsRead outside (StatementThen ls) cursor.old (made_places ps) []
        × (items.new.places ≡ items.old.places ++ map place_meant ps)) }
    ensures err { (ls : List (List ℕ)) → names.entry.items ≡ map all_but_last ls → AreLabelTexts ls → IfErr result
        (λ stop. IsBroken outside (StatementThen ls) cursor.old stop) }
{
    statement(room, names, cursor, items)?;
    'statements: while cursor.left() > 0 {
        let others = labels(room.alloc, cursor)?;
        statement(room, others, cursor, items)?;
    }
    Ok(())
}
