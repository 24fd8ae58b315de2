//! The rules of an edit, each by what the edit touches.
ghost use Rattle.std.specs.Prelude.{◌≡◌, ◌+◌, ◌≤◌, length, map, nat_le};
ghost use Rattle.std.specs.List.{list_all};
ghost use Rattle.pb_version.specs.Rules.{has_backing, has_its_backing, none_of_four_falls, fit_each_other, has_all_five};
ghost use Rattle.pb_version.specs.Judged.{each_two, all_levels, any_level, total, stay, deletes_existing, is_free_of, all_below, broken_against_old, overlaps_none, level_is_apart, are_apart_after, frees_physical, is_new_backing, keeps_its_backing, keep_their_backings, have_new_backings, have_backings, is_still_shown, is_shown_by, is_shown_after, orphans_no_backing, orphan_no_backing, is_created_shown, are_shown, fits_after, stay_counts, counts_after, fit_the_limit, broken_against_new};

use super::scans::{
    are_all_apart, are_apart, are_distinct, deletes_from, has_backing, has_number, has_number_on,
    has_virtual, is_gone, is_listed, level_of,
};
use super::{Broken, Five, Levels, Table};
use pb_edit::{Created, Deleted, Edit};

/// The most tables of a version.
pub const MAX_TABLES: usize = 4096;

fn deletes_existing(levels: &Levels, deleted: &[Deleted]) -> bool
    ensures { result ≡ deletes_existing (map (λ l. l.items) levels.now) deleted.now }
{
    deleted
        .iter()
        .all(|d| has_number(level_of(levels, d.level), d.number))
}

fn is_free(levels: &Levels, backings: &[Created], created: &[Created], number: u64) -> bool
    ensures { result ≡ is_free_of (map (λ l. l.items) levels.now) backings.now created.now number }
{
    !has_number_on(levels, number)
        && !has_backing(backings, number)
        && !has_backing(created, number)
}

fn are_free(levels: &Levels, backings: &[Created], created: &[Created], numbers: &[u64]) -> bool
    ensures { result ≡ list_all (is_free_of (map (λ l. l.items) levels.now) backings.now created.now) numbers.now }
{
    numbers
        .iter()
        .all(|n| is_free(levels, backings, created, *n))
}

fn are_below(next: u64, numbers: &[u64]) -> bool
    ensures { result ≡ all_below next numbers.now }
{
    numbers.iter().all(|n| *n < next)
}

/// The first of V1 and V2 that is broken, by the numbers and ranks of the new tables.
pub(crate) fn broken_against_old(
    levels: &Levels,
    backings: &[Created],
    next: u64,
    edit: &Edit,
    numbers: &[u64],
    ranks: &[u64],
) -> Option<Broken>
    ensures { result ≡ broken_against_old (map (λ l. l.items) levels.now) backings.now next edit.now numbers.now ranks.now }
{
    if !deletes_existing(levels, edit.deleted.as_slice()) {
        return Some(Broken::V1);
    }
    if !are_distinct(numbers)
        || !are_free(levels, backings, edit.created.as_slice(), numbers)
        || !are_below(next, numbers)
        || !are_below(next, ranks)
    {
        return Some(Broken::V2);
    }
    None
}

fn overlaps_none(deleted: &[Deleted], level: u8, tables: &[Table], t: &Table) -> bool
    ensures { result ≡ overlaps_none deleted.now level tables.now t.now }
{
    tables
        .iter()
        .all(|u| are_apart(level, t, u) || is_gone(deleted, level, u))
}

fn all_overlap_none(deleted: &[Deleted], level: u8, tables: &[Table], new: &[Table]) -> bool
    ensures { result ≡ list_all (overlaps_none deleted.now level tables.now) new.now }
{
    new.iter().all(|t| overlaps_none(deleted, level, tables, t))
}

fn level_is_apart(deleted: &[Deleted], level: u8, new: &[Table], tables: &[Table]) -> bool
    ensures { result ≡ level_is_apart deleted.now level new.now tables.now }
{
    are_all_apart(level, new) && all_overlap_none(deleted, level, tables, new)
}

/// From this level on.
fn are_apart_from(level: u8, levels: &[Vec<Table>], deleted: &[Deleted], new: &[Vec<Table>]) -> bool
    requires { level + length levels.now ≤ 7 }
    ensures { result ≡ list_all (λ apart. apart) (each_two (level_is_apart deleted.now) level (map (λ l. l.items) new.now) (map (λ l. l.items) levels.now)) }
{
    match levels {
        [] => true,
        [first, rest @ ..] => match new {
            [] => true,
            [made, more @ ..] => {
                level_is_apart(deleted, level, made.as_slice(), first.as_slice())
                    && are_apart_from(level + 1, rest, deleted, more)
            }
        },
    }
}

fn frees_physical(deleted: &[Deleted], c: &Created, level: u8, tables: &[Table]) -> bool
    ensures { result ≡ frees_physical deleted.now c.now level tables.now }
{
    tables.iter().any(|t| is_gone(deleted, level, t)
        && !t.is_virtual
        && t.number == c.number
        && t.size == c.size)
}

/// From this level on.
fn any_frees_physical(level: u8, levels: &[Vec<Table>], deleted: &[Deleted], c: &Created) -> bool
    requires { level + length levels.now ≤ 7 }
    ensures { result ≡ any_level (frees_physical deleted.now c.now) level (map (λ l. l.items) levels.now) }
{
    match levels {
        [] => false,
        [first, rest @ ..] => {
            frees_physical(deleted, c, level, first.as_slice())
                || any_frees_physical(level + 1, rest, deleted, c)
        }
    }
}

/// Whether a physical table of the backing's number and size is deleted. Nothing is looked up where no table is.
fn is_freed(levels: &Levels, deleted: &[Deleted], c: &Created) -> bool
    ensures { result ≡ any_level (frees_physical deleted.now c.now) 0 (map (λ l. l.items) levels.now) }
{
    if deleted.is_empty() {
        return false;
    }
    any_frees_physical(0, levels, deleted, c)
}

fn is_new_backing(
    levels: &Levels,
    backings: &[Created],
    next: u64,
    deleted: &[Deleted],
    c: &Created,
) -> bool
    ensures { result ≡ is_new_backing (map (λ l. l.items) levels.now) backings.now next deleted.now c.now }
{
    !has_backing(backings, c.number)
        && (is_freed(levels, deleted, c) || !has_number_on(levels, c.number))
        && c.number < next
}

fn are_new_backings(
    levels: &Levels,
    backings: &[Created],
    next: u64,
    deleted: &[Deleted],
    created: &[Created],
) -> bool
    ensures { result ≡ list_all (is_new_backing (map (λ l. l.items) levels.now) backings.now next deleted.now) created.now }
{
    created
        .iter()
        .all(|c| is_new_backing(levels, backings, next, deleted, c))
}

fn have_their_backings(after: &[Created], new: &[Table]) -> bool
    ensures { result ≡ list_all (has_its_backing after.now) new.now }
{
    new.iter()
        .all(|t| !t.is_virtual || has_backing(after, t.backing))
}

fn have_new_backings(after: &[Created], new: &[Vec<Table>]) -> bool
    ensures { result ≡ have_new_backings after.now (map (λ l. l.items) new.now) }
{
    match new {
        [] => true,
        [first, rest @ ..] => {
            have_their_backings(after, first.as_slice()) && have_new_backings(after, rest)
        }
    }
}

fn keep_their_backings(deleted: &[Deleted], removed: &[u64], level: u8, tables: &[Table]) -> bool
    ensures { result ≡ keep_their_backings deleted.now removed.now level tables.now }
{
    tables.iter().all(|t| {
        !t.is_virtual || !is_listed(removed, t.backing) || is_gone(deleted, level, t)
    })
}

/// From this level on.
fn all_keep_their_backings(
    level: u8,
    levels: &[Vec<Table>],
    deleted: &[Deleted],
    removed: &[u64],
) -> bool
    requires { level + length levels.now ≤ 7 }
    ensures { result ≡ all_levels (keep_their_backings deleted.now removed.now) level (map (λ l. l.items) levels.now) }
{
    match levels {
        [] => true,
        [first, rest @ ..] => {
            keep_their_backings(deleted, removed, level, first.as_slice())
                && all_keep_their_backings(level + 1, rest, deleted, removed)
        }
    }
}

/// Without a removed backing no table loses its own.
fn keep_backings(levels: &Levels, deleted: &[Deleted], removed: &[u64]) -> bool
    ensures { result ≡ all_levels (keep_their_backings deleted.now removed.now) 0 (map (λ l. l.items) levels.now) }
{
    if removed.is_empty() {
        return true;
    }
    all_keep_their_backings(0, levels, deleted, removed)
}

fn have_backings(levels: &Levels, edit: &Edit, after: &[Created], new: &Levels) -> bool
    ensures { result ≡ have_backings (map (λ l. l.items) levels.now) edit.now.deleted edit.now.removed after.now (map (λ l. l.items) new.now) }
{
    have_new_backings(after, new)
        && keep_backings(levels, edit.deleted.as_slice(), edit.removed.as_slice())
}

fn is_still_shown(deleted: &[Deleted], backing: u64, level: u8, tables: &[Table]) -> bool
    ensures { result ≡ is_still_shown deleted.now backing level tables.now }
{
    tables.iter().any(|t| t.is_virtual && t.backing == backing && !is_gone(deleted, level, t))
}

/// From this level on.
fn any_still_shows(level: u8, levels: &[Vec<Table>], deleted: &[Deleted], backing: u64) -> bool
    requires { level + length levels.now ≤ 7 }
    ensures { result ≡ any_level (is_still_shown deleted.now backing) level (map (λ l. l.items) levels.now) }
{
    match levels {
        [] => false,
        [first, rest @ ..] => {
            is_still_shown(deleted, backing, level, first.as_slice())
                || any_still_shows(level + 1, rest, deleted, backing)
        }
    }
}

fn is_shown_by(new: &[Vec<Table>], backing: u64) -> bool
    ensures { result ≡ is_shown_by (map (λ l. l.items) new.now) backing }
{
    match new {
        [] => false,
        [first, rest @ ..] => has_virtual(first.as_slice(), backing) || is_shown_by(rest, backing),
    }
}

fn is_shown_after(levels: &Levels, deleted: &[Deleted], new: &Levels, backing: u64) -> bool
    ensures { result ≡ is_shown_after (map (λ l. l.items) levels.now) deleted.now (map (λ l. l.items) new.now) backing }
{
    is_shown_by(new, backing) || any_still_shows(0, levels, deleted, backing)
}

fn orphans_no_backing(
    levels: &Levels,
    deleted: &[Deleted],
    removed: &[u64],
    new: &Levels,
    level: u8,
    t: &Table,
) -> bool
    ensures { result ≡ orphans_no_backing (map (λ l. l.items) levels.now) deleted.now removed.now (map (λ l. l.items) new.now) level t.now }
{
    !t.is_virtual
        || !is_gone(deleted, level, t)
        || is_listed(removed, t.backing)
        || is_shown_after(levels, deleted, new, t.backing)
}

fn orphan_no_backing(
    levels: &Levels,
    deleted: &[Deleted],
    removed: &[u64],
    new: &Levels,
    level: u8,
    tables: &[Table],
) -> bool
    ensures { result ≡ orphan_no_backing (map (λ l. l.items) levels.now) deleted.now removed.now (map (λ l. l.items) new.now) level tables.now }
{
    tables.iter().all(|t| orphans_no_backing(levels, deleted, removed, new, level, t))
}

/// From this level on, of all levels.
fn none_orphans(level: u8, from: &[Vec<Table>], levels: &Levels, edit: &Edit, new: &Levels) -> bool
    requires { level + length from.now ≤ 7 }
    ensures { result ≡ all_levels (orphan_no_backing (map (λ l. l.items) levels.now) edit.now.deleted edit.now.removed (map (λ l. l.items) new.now)) level (map (λ l. l.items) from.now) }
{
    match from {
        [] => true,
        [first, rest @ ..] => {
            let deleted = edit.deleted.as_slice();
            let removed = edit.removed.as_slice();
            orphan_no_backing(levels, deleted, removed, new, level, first.as_slice())
                && none_orphans(level + 1, rest, levels, edit, new)
        }
    }
}

/// Without a deleted table no backing loses one.
fn deleted_orphan_none(levels: &Levels, edit: &Edit, new: &Levels) -> bool
    ensures { result ≡ all_levels (orphan_no_backing (map (λ l. l.items) levels.now) edit.now.deleted edit.now.removed (map (λ l. l.items) new.now)) 0 (map (λ l. l.items) levels.now) }
{
    if edit.deleted.as_slice().is_empty() {
        return true;
    }
    none_orphans(0, levels, levels, edit, new)
}

fn is_created_shown(levels: &Levels, edit: &Edit, new: &Levels, c: &Created) -> bool
    ensures { result ≡ is_created_shown (map (λ l. l.items) levels.now) edit.now (map (λ l. l.items) new.now) c.now }
{
    is_listed(edit.removed.as_slice(), c.number)
        || is_shown_after(levels, edit.deleted.as_slice(), new, c.number)
}

fn are_created_shown(levels: &Levels, edit: &Edit, new: &Levels, created: &[Created]) -> bool
    ensures { result ≡ list_all (is_created_shown (map (λ l. l.items) levels.now) edit.now (map (λ l. l.items) new.now)) created.now }
{
    created
        .iter()
        .all(|c| is_created_shown(levels, edit, new, c))
}

fn are_backings(backings: &[Created], removed: &[u64]) -> bool
    ensures { result ≡ list_all (has_backing backings.now) removed.now }
{
    removed.iter().all(|n| has_backing(backings, *n))
}

fn are_shown(levels: &Levels, backings: &[Created], edit: &Edit, new: &Levels) -> bool
    ensures { result ≡ are_shown (map (λ l. l.items) levels.now) backings.now edit.now (map (λ l. l.items) new.now) }
{
    are_backings(backings, edit.removed.as_slice())
        && are_created_shown(levels, edit, new, edit.created.as_slice())
        && deleted_orphan_none(levels, edit, new)
}

fn none_of_four_falls(old: &Five, new: &Five) -> bool
    ensures { result ≡ none_of_four_falls old.now new.now }
{
    old.accepted <= new.accepted
        && old.next <= new.next
        && old.flushed <= new.flushed
        && old.format <= new.format
}

fn fit_each_other(five: &Five) -> bool
    ensures { result ≡ fit_each_other five.now }
{
    five.flushed <= five.accepted && five.log < five.next && five.format == 1
}

fn has_all_five(edit: &Edit) -> bool
    ensures { result ≡ has_all_five edit.now }
{
    edit.accepted.is_some()
        && edit.next.is_some()
        && edit.log.is_some()
        && edit.flushed.is_some()
        && edit.format.is_some()
}

fn fits_after(old: &Five, new: &Five, edit: &Edit) -> bool
    ensures { result ≡ fits_after old.now new.now edit.now }
{
    none_of_four_falls(old, new) && fit_each_other(new) && (old.format != 0 || has_all_five(edit))
}

/// How many tables of the level stay.
fn staying(deleted: &[Deleted], level: u8, tables: &[Table]) -> usize
    ensures { result ≡ length (stay deleted.now level tables.now) }
{
    if !deletes_from(deleted, level) {
        return tables.len();
    }
    count_staying(deleted, level, tables)
}

fn count_staying(deleted: &[Deleted], level: u8, tables: &[Table]) -> usize
    ensures { result ≡ length (stay deleted.now level tables.now) }
{
    tables
        .iter()
        .filter(|t| !is_gone(deleted, level, t))
        .count()
}

/// How many tables of each level stay.
pub(crate) fn stay_counts(deleted: &[Deleted], levels: &Levels) -> [usize; 7]
    ensures { result ≡ stay_counts deleted.now (map (λ l. l.items) levels.now) }
{
    let [l0, l1, l2, l3, l4, l5, l6] = levels;
    [
        staying(deleted, 0, l0.as_slice()),
        staying(deleted, 1, l1.as_slice()),
        staying(deleted, 2, l2.as_slice()),
        staying(deleted, 3, l3.as_slice()),
        staying(deleted, 4, l4.as_slice()),
        staying(deleted, 5, l5.as_slice()),
        staying(deleted, 6, l6.as_slice()),
    ]
}

/// Whether at most so many tables stand, of the new ones of each level and of those that stay.
fn fit_within(new: &[Vec<Table>], stays: &[usize], most: usize) -> bool
    ensures { result ≡ nat_le (total (counts_after (map (λ l. l.items) new.now) stays.now)) most }
{
    match new {
        [] => true,
        [first, rest @ ..] => match stays {
            [] => true,
            [here, more @ ..] => {
                first.len() <= most
                    && *here <= most - first.len()
                    && fit_within(rest, more, most - first.len() - *here)
            }
        },
    }
}

/// The first of V4 to V9 that is broken, by the tables that are new, by the backings and numbers after the edit, and by how many
/// tables of each level stay.
pub(crate) fn broken_against_new(
    levels: &Levels,
    backings: &[Created],
    old: &Five,
    edit: &Edit,
    new: &Levels,
    after: &[Created],
    five: &Five,
    stays: &[usize],
) -> Option<Broken>
    ensures { result ≡ broken_against_new (map (λ l. l.items) levels.now) backings.now old.now edit.now (map (λ l. l.items) new.now) after.now five.now stays.now }
{
    let deleted = edit.deleted.as_slice();
    if !are_apart_from(0, levels, deleted, new) {
        return Some(Broken::V4);
    }
    if !are_new_backings(
        levels,
        backings,
        five.next,
        deleted,
        edit.created.as_slice(),
    ) {
        return Some(Broken::V5);
    }
    if !have_backings(levels, edit, after, new) {
        return Some(Broken::V6);
    }
    if !are_shown(levels, backings, edit, new) {
        return Some(Broken::V7);
    }
    if !fits_after(old, five, edit) {
        return Some(Broken::V8);
    }
    if !fit_within(new, stays, MAX_TABLES) {
        return Some(Broken::V9);
    }
    None
}
