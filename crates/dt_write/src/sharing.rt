//! Which names are ends of others, and the first stored one that ends with each.

ghost use Rattle.std.specs.Prelude.{◌≡◌, ◌<◌, ℕ, map, length, reverse, slice_index_or, None, IfOk};
ghost use Rattle.std.specs.List.{AllByRecursion};
ghost use Rattle.std.specs.Option.{unwrap_or};
ghost use Rattle.std.specs.Ordering.{nat_cmp, ordering_then};
ghost use Rattle.std.specs.Cmp.Lexicographic.{slice_cmp};
ghost use Rattle.dt_model.specs.Valid.{AreDistinct};
ghost use Rattle.dt_write.specs.Sharing.{ends};
ghost use Rattle.dt_write.specs.Rows.{lesser, gathered, left, tail_of, AreRows, AreHolders};

use std::alloc::{AllocError, Global};
use std::cmp::Ordering;

/// A name, a number of a name, and the last bytes of the name.
#[derive(Clone, Copy)]
pub(crate) struct Row<'t> {
    pub name: &'t [u8],
    pub number: usize,
    pub tail: u64,
}

/// The last eight bytes of a name as a number, the last one first; zeros where there are fewer.
fn tail_of(name: &[u8]) -> u64
    ensures is { result ≡ tail_of name.now }
    ensures bytes { (i : ℕ) → slice_index_or name.now i 0 < 256 }
{
    let mut tail = 0u64;
    for place in 0..8 {
        let byte = if place < name.len() {
            name[name.len() - 1 - place]
        } else {
            0
        };
        tail = tail * 256 + byte as u64;
    }
    tail
}

/// Compares names by their bytes from the end.
fn from_the_end(a: &[u8], b: &[u8]) -> Ordering
    ensures { result ≡ slice_cmp nat_cmp (reverse a.now) (reverse b.now) }
{
    a.iter().rev().cmp(b.iter().rev())
}

/// Compares names in the same order, by their last bytes at once where these differ.
fn compare(a: &Row<'_>, b: &Row<'_>) -> Ordering
    ensures { result ≡ ordering_then (nat_cmp a.now.tail b.now.tail) (slice_cmp nat_cmp (reverse a.now.name.now) (reverse b.now.name.now)) }
{
    match a.tail.cmp(&b.tail) {
        Ordering::Equal => from_the_end(a.name, b.name),
        order => order,
    }
}

/// Whether a name is the other, or an end of it.
fn is_end_of(name: &[u8], other: &[u8]) -> bool
    ensures { result ≡ ends name.now other.now }
{
    name.len() <= other.len() && &other[other.len() - name.len()..] == name
}

/// The names with their numbers, in falling order of their bytes from the end. So those that end with a name are in one run before it.
fn rows_of<'t>(alloc: Global, names: &[&'t [u8]]) -> Result<Vec<Row<'t>>, AllocError>
    ensures { IfOk result (λ rows. AreRows names.now rows.items) }
{
    let mut rows = Vec::with_capacity(alloc, names.len())?;
    for (number, name) in names.iter().enumerate() {
        let tail = tail_of(name);
        rows.push(Row {
            name: *name,
            number,
            tail,
        })?;
    }
    rows.sort_unstable_by(|a, b| compare(b, a));
    Ok(rows)
}

/// The lesser of two numbers; the first may be missing.
fn lesser(least: Option<usize>, number: usize) -> usize
    ensures { result ≡ lesser least number }
{
    match least {
        Some(least) if least < number => least,
        _ => number,
    }
}

/// Takes the rows that end with a row's name off the end; the least of their numbers, or the row's own where there are none.
fn take_ended(stack: &mut Vec<Row<'_>>, row: &Row<'_>) -> usize
    ensures least { result ≡ unwrap_or (gathered row.now.name.now None (reverse stack.old.items)) row.now.number }
    ensures left { reverse stack.new.items ≡ left row.now.name.now (reverse stack.old.items) }
{
    let mut least = None;
    while let Some(last) = stack.last() {
        if !is_end_of(row.name, last.name) {
            break;
        }
        least = Some(lesser(least, last.number));
        stack.pop();
    }
    least.unwrap_or(row.number)
}

/// For each name the number of the first one, in the order of first use, that is stored and ends with it.
pub(crate) fn holders_of(alloc: Global, names: &[&[u8]]) -> Result<Vec<usize>, AllocError>
    requires { AreDistinct (map (λ name. name.now) names.now) }
    ensures { IfOk result (λ holders. AreHolders (map (λ name. name.now) names.now) holders.items) }
{
    let rows = rows_of(alloc, names)?;
    let mut holders = Vec::from_elem(alloc, 0, names.len())?;
    let mut stack = Vec::new(alloc);
    for row in rows.iter() {
        let holder = take_ended(&mut stack, row);
        stack.push(Row {
            number: holder,
            ..*row
        })?;
        holders[row.number] = holder;
    }
    Ok(holders)
}
