//! What stands in the lists of a version and of an edit.
ghost use Rattle.std.specs.Prelude.{◌≡◌, ◌==◌, [], length, map, nat_lt, slice_index_or};
ghost use Rattle.std.specs.List.{list_all, list_any, position};
ghost use Rattle.std.specs.Option.{unwrap_or};
ghost use Rattle.pb_edit.specs.Grammar.{created_below};
ghost use Rattle.pb_version.specs.Version.{size_of};
ghost use Rattle.pb_version.specs.Edited.{comes_before, starts_below};
ghost use Rattle.pb_version.specs.Rules.{has_number, has_backing, is_listed, has_virtual, are_apart, are_distinct, are_all_apart};
ghost use Rattle.pb_version.specs.Judged.{is_gone, has_number_on};

use super::Table;
use pb_edit::{Created, Deleted};

pub(crate) fn has_number(tables: &[Table], number: u64) -> bool
    ensures { result ≡ has_number tables.now number }
{
    tables.iter().any(|t| t.number == number)
}

/// The tables of a level, none where there is no such level.
pub(crate) fn level_of(levels: &[Vec<Table>], level: u8) -> &[Table]
    ensures { result.now ≡ slice_index_or (map (λ l. l.items) levels.now) level [] }
{
    match levels.get(level as usize) {
        Some(tables) => tables.as_slice(),
        None => &[],
    }
}

/// Whether a table of any level has the number.
pub(crate) fn has_number_on(levels: &[Vec<Table>], number: u64) -> bool
    ensures { result ≡ has_number_on (map (λ l. l.items) levels.now) number }
{
    match levels {
        [] => false,
        [first, rest @ ..] => {
            has_number(first.as_slice(), number) || has_number_on(rest, number)
        }
    }
}

pub(crate) fn has_backing(backings: &[Created], number: u64) -> bool
    ensures { result ≡ has_backing backings.now number }
{
    backings.iter().any(|b| b.number == number)
}

/// The size of the backing of this number.
pub(crate) fn size_of(backings: &[Created], number: u64) -> Option<u64>
    ensures { result ≡ size_of backings.now number }
{
    for backing in backings {
        if backing.number == number {
            return Some(backing.size);
        }
    }
    None
}

pub(crate) fn is_listed(numbers: &[u64], number: u64) -> bool
    ensures { result ≡ is_listed numbers.now number }
{
    numbers.contains(&number)
}

/// Whether the table of the level is among those that are deleted.
pub(crate) fn is_gone(deleted: &[Deleted], level: u8, table: &Table) -> bool
    ensures { result ≡ is_gone deleted.now level table.now }
{
    deleted
        .iter()
        .any(|d| d.level == level && d.number == table.number)
}

/// Whether a table is deleted from the level.
pub(crate) fn deletes_from(deleted: &[Deleted], level: u8) -> bool
    ensures { result ≡ list_any (λ d. d.level == level) deleted.now }
{
    deleted.iter().any(|d| d.level == level)
}

/// Whether a virtual table shows the backing.
pub(crate) fn has_virtual(tables: &[Table], backing: u64) -> bool
    ensures { result ≡ has_virtual tables.now backing }
{
    tables.iter().any(|t| t.is_virtual && t.backing == backing)
}

/// Whether two tables may both stand on the level.
pub(crate) fn are_apart(level: u8, t: &Table, u: &Table) -> bool
    ensures { result ≡ are_apart level t.now u.now }
{
    (level == 0 && t.rank != u.rank) || !t.view.bounds.overlaps(&u.view.bounds)
}

#[tactic(auto, using(pb_keys::proofs::OrderFacts::compares))]
fn starts_below(t: &Table, u: &Table) -> bool
    ensures { result ≡ starts_below t.now u.now }
{
    t.view.bounds.lo() < u.view.bounds.lo()
}

/// Whether the first table stands before the second on the level.
fn comes_before(level: u8, t: &Table, u: &Table) -> bool
    ensures { result ≡ comes_before level t.now u.now }
{
    if level == 0 {
        u.rank < t.rank || (u.rank == t.rank && starts_below(t, u))
    } else {
        starts_below(t, u)
    }
}

/// Where the table stands among these of its level, or would.
pub(crate) fn place_of(level: u8, tables: &[Table], table: &Table) -> usize
    ensures { result ≡ unwrap_or (position (comes_before level table.now) tables.now) (length tables.now) }
{
    first_behind(level, tables, table).unwrap_or(tables.len())
}

fn first_behind(level: u8, tables: &[Table], table: &Table) -> Option<usize>
    ensures { result ≡ position (comes_before level table.now) tables.now }
{
    tables.iter().position(|t| comes_before(level, table, t))
}

pub(crate) fn place_of_backing(backings: &[Created], created: &Created) -> usize
    ensures { result ≡ unwrap_or (position (created_below created.now) backings.now) (length backings.now) }
{
    first_above(backings, created.number).unwrap_or(backings.len())
}

fn first_above(backings: &[Created], number: u64) -> Option<usize>
    ensures { result ≡ position (λ b. nat_lt number b.number) backings.now }
{
    backings.iter().position(|b| number < b.number)
}

pub(crate) fn are_distinct(numbers: &[u64]) -> bool
    ensures { result ≡ are_distinct numbers.now }
{
    for (at, number) in numbers.iter().enumerate() {
        if is_listed(&numbers[at + 1..], *number) {
            return false;
        }
    }
    true
}

/// Whether these tables may all stand on the level.
pub(crate) fn are_all_apart(level: u8, tables: &[Table]) -> bool
    ensures { result ≡ are_all_apart level tables.now }
{
    for (at, table) in tables.iter().enumerate() {
        if !is_apart_from(level, table, &tables[at + 1..]) {
            return false;
        }
    }
    true
}

fn is_apart_from(level: u8, table: &Table, others: &[Table]) -> bool
    ensures { result ≡ list_all (are_apart level table.now) others.now }
{
    others.iter().all(|other| are_apart(level, table, other))
}
