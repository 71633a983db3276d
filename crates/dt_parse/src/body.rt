//! Bodies: properties and children, and deletions of both.

ghost use Rattle.std.specs.Prelude.{◌≡◌, ◌≢◌, ◌⊎◌, ◌++◌, ◌∷◌, ◌<◌, ◌≤◌, ◌+◌, [], true, false, List};
ghost use Rattle.std.specs.Prelude.{ℕ, Bool, Some, map, length, OnOk, IfOk, IfErr, MatchResult, IsTrue, ◌↔◌};
ghost use Rattle.std.specs.List.{AllByRecursion};
ghost use Rattle.dt_model.specs.Limits.{most_bodies};
ghost use Rattle.dt_names.specs.declared.fault.FaultKind.TheVariants as fault;
ghost use Rattle.dt_model.specs.Names.{IsNodeName, IsPropertyName};
ghost use Rattle.dt_lex.specs.declared.token.TokenKind.TheVariants as kind;
ghost use Rattle.dt_lex.specs.declared.token.Mark.TheVariants as mark;
ghost use Rattle.dt_lex.specs.declared.token.Keyword.TheVariants as keyword;
ghost use Rattle.dt_model.specs.Source.{close};
ghost use Rattle.dt_grammar.specs.Words.{Words};
ghost use Rattle.dt_grammar.specs.Unchecked.{RawPlace, RawComponent, raw_child, raw_label, raw_property, all_but_last, value_parts, place_meant};
ghost use Rattle.dt_grammar.specs.Strict.{AreLabelTexts, IsComponent, IsSoundPlace, IsOrdered};
ghost use Rattle.dt_grammar.specs.Wanted.{AfterMemberLabels, AfterName, BlockOpen, SomeLabels, made_labels, made_places, kind_at, bytes_at};
ghost use Rattle.dt_grammar.specs.Descent.{first, after, found, Descends};
ghost use Rattle.dt_grammar.specs.Faults.{outside};
ghost use Rattle.dt_parse.specs.Reading.{IsRead, IsBroken};
ghost use Rattle.dt_source_items.specs.Gathered.{with_place, with_value};
ghost use Rattle.dt_source_items.specs.Rows.{bare_said};
ghost use Rattle.dt_parse.specs.declared.body.Front.TheVariants as front;
ghost use Rattle.dt_parse.specs.declared.body.Behind.TheVariants as behind;
ghost use Rattle.dt_parse.specs.Nested.{front_of, behind_of, in_body, Closes, IsMember, BreaksIn, Goes, IsUnclosed};

use crate::cursor::Cursor;
use crate::expression::Room;
use crate::stop::Stop;
use crate::value::{labels, value};
use dt_lex::{Keyword, Mark, TokenKind};
use dt_names::limits::MOST_BODIES;
use dt_names::{FaultKind, Label, NodeName, PropName};
use dt_source_items::{Bare, Items};

/// What a member, or the end of a body, begins with.
#[derive(Clone, Copy)]
pub(crate) enum Front {
    Name,
    DeleteProperty,
    DeleteNode,
    Other,
}

/// What follows a name.
#[derive(Clone, Copy)]
pub(crate) enum Behind {
    /// `;`
    End,
    /// `=`
    Value,
    /// `{`
    Body,
    Other,
}

/// What is around the members of a body.
#[derive(Clone, Copy)]
struct Depth {
    /// How many bodies are open.
    open: usize,
    /// Whether a child stood in the innermost.
    late: bool,
}

fn front_of(kind: Option<TokenKind>) -> Front
    ensures { result ≡ front_of kind }
{
    match kind {
        Some(TokenKind::Name) => Front::Name,
        Some(TokenKind::Keyword(Keyword::DeleteProperty)) => Front::DeleteProperty,
        Some(TokenKind::Keyword(Keyword::DeleteNode)) => Front::DeleteNode,
        _ => Front::Other,
    }
}

fn behind_of(kind: Option<TokenKind>) -> Behind
    ensures { result ≡ behind_of kind }
{
    match kind {
        Some(TokenKind::Mark(Mark::Semicolon)) => Behind::End,
        Some(TokenKind::Mark(Mark::Equals)) => Behind::Value,
        Some(TokenKind::Mark(Mark::OpenBrace)) => Behind::Body,
        _ => Behind::Other,
    }
}

/// The property's name that the next token is; `BadName` where it isn't one.
fn property_name<'a>(cursor: &Cursor<'a, '_>) -> Result<PropName<'a>, Stop>
    ensures { MatchResult result
        (λ name. IsPropertyName (bytes_at (first cursor.now)) × (name ≡ bytes_at (first cursor.now)))
        (λ stop. ¬ IsPropertyName (bytes_at (first cursor.now)) × (stop.kind ≡ fault.BadName) × (stop.left ≡ length cursor.now)) }
{
    match PropName::new(cursor.bytes()) {
        Ok(name) => Ok(name),
        Err(_) => Err(cursor.stop(FaultKind::BadName)),
    }
}

/// The node's name that the next token is; `BadName` where it isn't one.
fn node_name<'a>(cursor: &Cursor<'a, '_>) -> Result<NodeName<'a>, Stop>
    ensures { MatchResult result
        (λ name. IsNodeName (bytes_at (first cursor.now)) × (name ≡ bytes_at (first cursor.now)))
        (λ stop. ¬ IsNodeName (bytes_at (first cursor.now)) × (stop.kind ≡ fault.BadName) × (stop.left ≡ length cursor.now)) }
{
    match NodeName::new(cursor.bytes()) {
        Ok(name) => Ok(name),
        Err(_) => Err(cursor.stop(FaultKind::BadName)),
    }
}

/// Reads what follows a property's name: `;`, or `=`, a value and `;`.
fn assigned<'a>(
    room: &mut Room,
    cursor: &mut Cursor<'a, '_>,
    items: &mut Items<'a>,
) -> Result<(), Stop>
    requires { (behind_of (kind_at (first cursor.old)) ≡ behind.End) ⊎ (behind_of (kind_at (first cursor.old)) ≡ behind.Value) }
    ensures ok { OnOk result ((cs : List RawComponent) × AllByRecursion IsComponent cs × (items.new ≡ with_value items.old (value_parts cs))
        × (length cursor.new < length cursor.old)
        × ((ls : List (List ℕ)) (n : List ℕ) → Descends (AfterName ls n) cursor.old (found (made_places (raw_property ls n cs ∷ [])) cursor.new))) }
    ensures err { IfErr result (λ stop. (ls : List (List ℕ)) (n : List ℕ) (outer : List Bool)
        → IsBroken (in_body false outer) (AfterName ls n) cursor.old stop) }
{
    match behind_of(cursor.kind()) {
        Behind::End => {
            cursor.advance();
            items.begin_value();
            Ok(())
        }
        _ => {
            cursor.advance();
            value(room, cursor, items)?;
            cursor.expect(TokenKind::Mark(Mark::Semicolon))
        }
    }
}

/// Reads `name;` or `name = value;`.
fn property<'a>(
    room: &mut Room,
    late: bool,
    cursor: &mut Cursor<'a, '_>,
    items: &mut Items<'a>,
) -> Result<(), Stop>
    requires named { kind_at (first cursor.old) ≡ Some kind.Name }
    requires assigned { (behind_of (kind_at (first (after true cursor.old))) ≡ behind.End)
        ⊎ (behind_of (kind_at (first (after true cursor.old))) ≡ behind.Value) }
    ensures ok { (ls : List (List ℕ)) → AreLabelTexts ls → OnOk result ((p : RawPlace) × IsMember ls late cursor.old p late cursor.new
        × (items.new.places ≡ items.old.places ++ place_meant p ∷ [])) }
    ensures err { IfErr result (λ stop. (ls : List (List ℕ)) (outer : List Bool) → IsBroken (in_body late outer) (AfterMemberLabels ls) cursor.old stop) }
{
    let name = property_name(cursor)?;
    cursor.advance();
    if late {
        return Err(cursor.stop(FaultKind::PropertyAfterNode));
    }
    assigned(room, cursor, items)?;
    items.push_property(name)?;
    Ok(())
}

/// Appends an item.
#[inline(always)]
pub(crate) fn push_item<'a>(item: Bare<'a>, items: &mut Items<'a>) -> Result<(), Stop>
    ensures ok { OnOk result (items.new ≡ with_place items.old (bare_said item.entry)) }
    ensures err { IfErr result (λ stop. stop.kind ≡ fault.NoMemory) }
{
    items.push(item)?;
    Ok(())
}

/// Reads `name {`.
fn open_child<'a>(
    bodies: usize,
    cursor: &mut Cursor<'a, '_>,
    items: &mut Items<'a>,
) -> Result<(), Stop>
    requires named { kind_at (first cursor.old) ≡ Some kind.Name }
    requires opened { behind_of (kind_at (first (after true cursor.old))) ≡ behind.Body }
    ensures ok { OnOk result (IsNodeName (bytes_at (first cursor.old)) × (bodies < most_bodies)
        × (cursor.new ≡ after true (after true cursor.old))
        × (items.new.places ≡ items.old.places ++ place_meant (raw_child (bytes_at (first cursor.old))) ∷ [])) }
    ensures err { IfErr result (λ stop. (ls : List (List ℕ)) (late : Bool) (outer : List Bool) → length outer + 1 ≡ bodies
        → IsBroken (in_body late outer) (AfterMemberLabels ls) cursor.old stop) }
{
    let name = node_name(cursor)?;
    cursor.advance();
    if MOST_BODIES <= bodies {
        return Err(cursor.stop(FaultKind::Limit));
    }
    cursor.advance();
    push_item(Bare::Child(name), items)
}

/// Reads `name {`, and appends the labels in front of it, too.
fn child<'a>(
    names: Vec<Label<'a>>,
    bodies: usize,
    cursor: &mut Cursor<'a, '_>,
    items: &mut Items<'a>,
) -> Result<(), Stop>
    requires named { kind_at (first cursor.old) ≡ Some kind.Name }
    requires opened { behind_of (kind_at (first (after true cursor.old))) ≡ behind.Body }
    ensures ok { (ls : List (List ℕ)) → names.entry.items ≡ map all_but_last ls → OnOk result (IsNodeName (bytes_at (first cursor.old)) × (bodies < most_bodies)
        × (cursor.new ≡ after true (after true cursor.old))
        × (items.new.places ≡ items.old.places ++ map place_meant (raw_child (bytes_at (first cursor.old)) ∷ map raw_label ls))) }
    ensures err { IfErr result (λ stop. (ls : List (List ℕ)) (late : Bool) (outer : List Bool) → length outer + 1 ≡ bodies
        → IsBroken (in_body late outer) (AfterMemberLabels ls) cursor.old stop) }
{
    open_child(bodies, cursor, items)?;
    push_labels(names, items)
}

/// Appends labels.
pub(crate) fn push_labels<'a>(names: Vec<Label<'a>>, items: &mut Items<'a>) -> Result<(), Stop>
    ensures ok { (ls : List (List ℕ)) → names.entry.items ≡ map all_but_last ls
        → OnOk result (items.new.places ≡ items.old.places ++ map place_meant (map raw_label ls)) }
    ensures err { IfErr result (λ stop. stop.kind ≡ fault.NoMemory) }
{
    for name in names {
        push_item(Bare::Label(name), items)?;
    }
    Ok(())
}

/// Sees that a name and `;` are next.
fn name_ends(cursor: &mut Cursor<'_, '_>) -> Result<(), Stop>
    ensures ok { OnOk result ((kind_at (first cursor.old) ≡ Some kind.Name)
        × (kind_at (first (after true cursor.old)) ≡ Some (kind.Mark mark.Semicolon)) × (cursor.new ≡ cursor.old)) }
    ensures err { IfErr result (λ stop. (stop.kind ≡ fault.Syntax)
        × (((kind_at (first cursor.old) ≢ Some kind.Name) × (stop.left ≡ length cursor.old))
        ⊎ ((kind_at (first cursor.old) ≡ Some kind.Name) × (kind_at (first (after true cursor.old)) ≢ Some (kind.Mark mark.Semicolon))
        × (stop.left ≡ length (after true cursor.old))))) }
{
    if cursor.kind() != Some(TokenKind::Name) {
        return Err(cursor.stop(FaultKind::Syntax));
    }
    if cursor.second() != Some(TokenKind::Mark(Mark::Semicolon)) {
        cursor.advance();
        return Err(cursor.stop(FaultKind::Syntax));
    }
    Ok(())
}

/// Reads `/delete-property/ name;`.
fn delete_property<'a>(
    late: bool,
    cursor: &mut Cursor<'a, '_>,
    items: &mut Items<'a>,
) -> Result<(), Stop>
    requires { kind_at (first cursor.old) ≡ Some (kind.Keyword keyword.DeleteProperty) }
    ensures ok { (ls : List (List ℕ)) → AreLabelTexts ls → OnOk result ((p : RawPlace) × IsMember ls late cursor.old p late cursor.new
        × (items.new.places ≡ items.old.places ++ place_meant p ∷ [])) }
    ensures err { IfErr result (λ stop. (ls : List (List ℕ)) (outer : List Bool) → IsBroken (in_body late outer) (AfterMemberLabels ls) cursor.old stop) }
{
    if late {
        return Err(cursor.stop(FaultKind::PropertyAfterNode));
    }
    cursor.advance();
    name_ends(cursor)?;
    let name = property_name(cursor)?;
    cursor.advance();
    cursor.advance();
    push_item(Bare::DeleteProperty(name), items)
}

/// Reads `/delete-node/ name;`.
fn delete_child<'a>(cursor: &mut Cursor<'a, '_>, items: &mut Items<'a>) -> Result<(), Stop>
    requires { kind_at (first cursor.old) ≡ Some (kind.Keyword keyword.DeleteNode) }
    ensures ok { (ls : List (List ℕ)) → AreLabelTexts ls → OnOk result ((p : RawPlace) × ((late : Bool) → IsMember ls late cursor.old p true cursor.new)
        × (items.new.places ≡ items.old.places ++ place_meant p ∷ [])) }
    ensures err { IfErr result (λ stop. (ls : List (List ℕ)) (late : Bool) (outer : List Bool)
        → IsBroken (in_body late outer) (AfterMemberLabels ls) cursor.old stop) }
{
    cursor.advance();
    name_ends(cursor)?;
    let name = node_name(cursor)?;
    cursor.advance();
    cursor.advance();
    push_item(Bare::DeleteChild(name), items)
}

/// Reads `};`.
fn close<'a>(labelled: bool, cursor: &mut Cursor<'a, '_>, items: &mut Items<'a>) -> Result<(), Stop>
    requires { front_of (kind_at (first cursor.old)) ≡ front.Other }
    ensures ok { OnOk result ((labelled ≡ false) × Closes cursor.old cursor.new × (length cursor.new < length cursor.old)
        × (items.new.places ≡ items.old.places ++ close ∷ [])) }
    ensures err { IfErr result (λ stop. (ls : List (List ℕ)) → (labelled ≡ false → ls ≡ []) → (labelled ≡ true → ls ≢ []) → IsUnclosed ls cursor.old stop) }
{
    if labelled {
        return Err(cursor.stop(FaultKind::Syntax));
    }
    cursor.expect(TokenKind::Mark(Mark::CloseBrace))?;
    cursor.expect(TokenKind::Mark(Mark::Semicolon))?;
    push_item(Bare::Close, items)
}

/// Whether a name and `{` are next.
fn opens_child(cursor: &Cursor<'_, '_>) -> bool
    ensures { IsTrue result ↔ ((kind_at (first cursor.now) ≡ Some kind.Name) × (kind_at (first (after true cursor.now)) ≡ Some (kind.Mark mark.OpenBrace))) }
{
    cursor.kind() == Some(TokenKind::Name)
        && cursor.second() == Some(TokenKind::Mark(Mark::OpenBrace))
}

/// Reads what a name that opens no child begins.
fn named<'a>(
    room: &mut Room,
    late: bool,
    cursor: &mut Cursor<'a, '_>,
    items: &mut Items<'a>,
) -> Result<(), Stop>
    requires named { kind_at (first cursor.old) ≡ Some kind.Name }
    requires unopened { behind_of (kind_at (first (after true cursor.old))) ≢ behind.Body }
    ensures ok { (ls : List (List ℕ)) → AreLabelTexts ls → OnOk result ((p : RawPlace) × IsMember ls late cursor.old p late cursor.new
        × (items.new.places ≡ items.old.places ++ place_meant p ∷ [])) }
    ensures err { IfErr result (λ stop. (ls : List (List ℕ)) (outer : List Bool) → IsBroken (in_body late outer) (AfterMemberLabels ls) cursor.old stop) }
{
    match behind_of(cursor.second()) {
        Behind::Other => {
            cursor.advance();
            Err(cursor.stop(FaultKind::Syntax))
        }
        _ => property(room, late, cursor, items),
    }
}

/// Reads a member that is no child, or the end of a body, behind its labels. Answers what is around the next.
fn member_behind<'a>(
    room: &mut Room,
    labelled: bool,
    depth: Depth,
    cursor: &mut Cursor<'a, '_>,
    items: &mut Items<'a>,
) -> Result<Depth, Stop>
    requires inside { 0 < depth.open }
    requires unopened { ¬ ((kind_at (first cursor.old) ≡ Some kind.Name) × (kind_at (first (after true cursor.old)) ≡ Some (kind.Mark mark.OpenBrace))) }
    ensures ok { (ls : List (List ℕ)) (ws : Words) → IsRead outside SomeLabels ws (made_labels ls) cursor.old → (labelled ≡ false → ls ≡ []) → IfOk result
        (λ next. (ps : List RawPlace) × Goes depth.open depth.late ws ps next.open next.late cursor.new
        × (length cursor.new < length ws) × (items.new.places ≡ items.old.places ++ map place_meant ps)) }
    ensures err { (ls : List (List ℕ)) (ws : Words) → IsRead outside SomeLabels ws (made_labels ls) cursor.old → (labelled ≡ false → ls ≡ [])
        → (labelled ≡ true → ls ≢ []) →
        IfErr result (λ stop. BreaksIn depth.open depth.late ws stop) }
{
    match front_of(cursor.kind()) {
        Front::Name => {
            named(room, depth.late, cursor, items)?;
            Ok(depth)
        }
        Front::DeleteProperty => {
            delete_property(depth.late, cursor, items)?;
            Ok(depth)
        }
        Front::DeleteNode => {
            delete_child(cursor, items)?;
            Ok(Depth {
                open: depth.open,
                late: true,
            })
        }
        Front::Other => {
            close(labelled, cursor, items)?;
            Ok(Depth {
                open: depth.open - 1,
                late: true,
            })
        }
    }
}

/// Reads a member, or what comes before a child's members, or the end of a body. Answers what is around the next.
fn member<'a>(
    room: &mut Room,
    depth: Depth,
    cursor: &mut Cursor<'a, '_>,
    items: &mut Items<'a>,
) -> Result<Depth, Stop>
    requires { 0 < depth.open }
    ensures ok { IfOk result (λ next. (ps : List RawPlace) × Goes depth.open depth.late cursor.old ps next.open next.late cursor.new
        × (length cursor.new < length cursor.old) × (items.new.places ≡ items.old.places ++ map place_meant ps)) }
    ensures err { IfErr result (λ stop. BreaksIn depth.open depth.late cursor.old stop) }
{
    let names = labels(room.alloc, cursor)?;
    if opens_child(cursor) {
        child(names, depth.open, cursor, items)?;
        return Ok(Depth {
            open: depth.open + 1,
            late: false,
        });
    }
    member_behind(room, !names.is_empty(), depth, cursor, items)
}

/// Reads a body from its `{` to the `;` behind it, and appends its items; however deep bodies stand in it, nothing recurses
/// (Devicetree Specification v0.4, 6.3).
pub(crate) fn body<'a>(
    room: &mut Room,
    cursor: &mut Cursor<'a, '_>,
    items: &mut Items<'a>,
) -> Result<(), Stop>
    ensures ok { OnOk result ((qs : List RawPlace)
        × ((ps : List RawPlace) → Descends (BlockOpen ps) cursor.old (found (made_places (ps ++ qs)) cursor.new))
        × AllByRecursion IsSoundPlace qs × IsOrdered (false ∷ []) qs
        × (items.new.places ≡ items.old.places ++ map place_meant qs)) }
    ensures err { IfErr result (λ stop. (ps : List RawPlace) → IsBroken outside (BlockOpen ps) cursor.old stop) }
{
    cursor.expect(TokenKind::Mark(Mark::OpenBrace))?;
    let mut depth = Depth {
        open: 1,
        late: false,
    };
    while depth.open > 0 {
        depth = member(room, depth, cursor, items)?;
    }
    Ok(())
}
