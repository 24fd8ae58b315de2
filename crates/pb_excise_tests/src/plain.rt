//! A plain program that keeps a list of tables, and looks over all of them.
use pb_edit::LAST_LEVEL;
use pb_version::{Table, Version};
use std::alloc::{AllocError, Global};

/// A table on a level.
#[derive(Clone, Copy)]
pub(crate) struct Placed {
    pub(crate) level: u8,
    pub(crate) number: u64,
    pub(crate) rank: u64,
    pub(crate) backing: u64,
    pub(crate) lo: &'static [u8],
    pub(crate) hi: &'static [u8],
    pub(crate) is_virtual: bool,
}

/// A physical table, whose rank is its number.
pub(crate) fn whole(level: u8, number: u64, lo: &'static [u8], hi: &'static [u8]) -> Placed {
    Placed {
        level,
        number,
        rank: number,
        backing: number,
        lo,
        hi,
        is_virtual: false,
    }
}

/// A part of a table of that number.
pub(crate) fn part(
    level: u8,
    number: u64,
    backing: u64,
    lo: &'static [u8],
    hi: &'static [u8],
) -> Placed {
    Placed {
        level,
        number,
        rank: backing,
        backing,
        lo,
        hi,
        is_virtual: true,
    }
}

fn comes_before(t: &Placed, u: &Placed) -> bool {
    if t.level != u.level {
        return t.level < u.level;
    }
    if t.level == 0 && t.rank != u.rank {
        return u.rank < t.rank;
    }
    t.lo < u.lo
}

fn place_of(tables: &[Placed], table: &Placed) -> Option<usize> {
    tables.iter().position(|other| comes_before(table, other))
}

/// Puts a table in its place.
pub(crate) fn put(tables: &mut Vec<Placed>, table: Placed) -> Result<(), AllocError> {
    let place = place_of(tables.as_slice(), &table).unwrap_or(usize::MAX);
    tables.insert(place.min(tables.len()), table)?;
    Ok(())
}

fn cut_of(table: &Placed, number: u64, lo: &'static [u8], hi: &'static [u8]) -> Placed {
    Placed {
        level: table.level,
        number,
        rank: table.rank,
        backing: table.backing,
        lo,
        hi,
        is_virtual: true,
    }
}

/// What is left of the table without the span.
fn add_left(
    left: &mut Vec<Placed>,
    table: &Placed,
    lo: &'static [u8],
    hi: &'static [u8],
    first: u64,
) -> Result<u64, AllocError> {
    let mut number = first;
    if hi <= table.lo || table.hi <= lo {
        left.push(*table)?;
        return Ok(number);
    }
    if table.lo < lo {
        left.push(cut_of(table, number, table.lo, lo))?;
        number = number.wrapping_add(1);
    }
    if hi < table.hi {
        left.push(cut_of(table, number, hi, table.hi))?;
        number = number.wrapping_add(1);
    }
    Ok(number)
}

/// The tables without the span, with parts numbered from `first` on, and the number after the last part.
pub(crate) fn without(
    alloc: Global,
    tables: &[Placed],
    lo: &'static [u8],
    hi: &'static [u8],
    first: u64,
) -> Result<(Vec<Placed>, u64), AllocError> {
    let mut left = Vec::new(alloc);
    let mut number = first;
    for table in tables {
        number = add_left(&mut left, table, lo, hi, number)?;
    }
    Ok((left, number))
}

fn is_same(table: &Table, placed: &Placed) -> bool {
    table.number == placed.number
        && table.rank == placed.rank
        && table.backing == placed.backing
        && table.size == 8
        && table.is_virtual == placed.is_virtual
        && table.view.bounds.lo() == placed.lo
        && table.view.bounds.hi() == placed.hi
}

/// Where the tables of a level end among these, from a place on. None where the level has other tables.
fn end_of_level(level: u8, tables: &[Table], placed: &[Placed], from: usize) -> Option<usize> {
    let mut at = from;
    for table in tables {
        let found = placed.get(at)?;
        if found.level != level || !is_same(table, found) {
            return None;
        }
        at = at.wrapping_add(1);
    }
    Some(at)
}

fn has_tables(version: &Version, placed: &[Placed]) -> bool {
    let mut at: usize = 0;
    for level in 0..=LAST_LEVEL {
        match end_of_level(level, version.tables(level), placed, at) {
            Some(end) => at = end,
            None => return false,
        }
    }
    at == placed.len()
}

/// The size of the backing, where one of these shows it.
fn size_of(placed: &[Placed], number: u64) -> Option<u64> {
    let is_shown = placed
        .iter()
        .any(|table| table.is_virtual && table.backing == number);
    if is_shown { Some(8) } else { None }
}

fn has_backings(version: &Version, placed: &[Placed]) -> bool {
    for number in 0..16 {
        if version.backing(number) != size_of(placed, number) {
            return false;
        }
    }
    true
}

/// Whether the version has these tables, in this order, and of the backings below 16 those that they show.
pub(crate) fn agrees(version: &Version, placed: &[Placed]) -> bool {
    has_tables(version, placed) && has_backings(version, placed)
}
