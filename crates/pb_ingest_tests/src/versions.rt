//! Versions made of tables on levels.
ghost use Rattle.std.specs.Prelude.{◌≡◌, [], IsTrue, IfSome, All};
ghost use Rattle.pb_bytes.specs.Number.{IsNumber};
ghost use Rattle.pb_edit.specs.Grammar.{IsPhysical};
ghost use Rattle.pb_version.specs.State.{IsSpellable};

use super::plain::{Placed, SPANS};
use pb_bytes::NUMBERS;
use pb_edit::{Backings, Deletions, Edit, LAST_LEVEL, Numbers, Physical, Physicals, Virtuals};
use pb_keys::{Bytes, Span};
use pb_version::{Broken, Version};
use std::alloc::{AllocError, Global};
use std::test::Fail;

pub(crate) fn span(alloc: Global, lo: &[u8], hi: &[u8]) -> Result<Span, Fail> {
    let span = Span::new(alloc, lo, hi)?;
    Ok(span)
}

/// The spans of `SPANS`.
pub(crate) fn all_spans(alloc: Global) -> Result<Vec<Span>, Fail> {
    let mut spans = Vec::new(alloc);
    for (lo, hi, _) in &SPANS {
        let made = span(alloc, &[*lo], &[*hi])?;
        spans.push(made)?;
    }
    Ok(spans)
}

pub(crate) fn physical(
    alloc: Global,
    level: u8,
    number: u64,
    lo: &[u8],
    hi: &[u8],
) -> Result<Physical, AllocError> {
    let lo = Bytes::new(alloc, lo)?;
    let hi = Bytes::new(alloc, hi)?;
    Ok(Physical {
        level,
        number,
        rank: number,
        size: 8,
        lo,
        hi,
    })
}

fn is_physical(p: &Physical) -> bool
    ensures { IsTrue result → IsPhysical p.now }
{
    p.level <= LAST_LEVEL
        && p.number < NUMBERS
        && p.rank < NUMBERS
        && p.size < NUMBERS
        && p.lo.as_slice().len() < 4096
        && p.hi.as_slice().len() < 4096
}

fn are_physical(physical: &[Physical]) -> bool
    ensures { IsTrue result → All IsPhysical physical.now }
{
    match physical {
        [] => true,
        [first, rest @ ..] => is_physical(first) && are_physical(rest),
    }
}

/// The edit of a new store, without tables.
pub(crate) fn first_edit(alloc: Global) -> Edit
    ensures { result.physical ≡ [] }
{
    Edit {
        accepted: Some(0),
        next: Some(1_000_000),
        log: Some(3),
        flushed: Some(0),
        format: Some(1),
        deleted: Deletions::from_vec(Vec::new(alloc)),
        physical: Physicals::from_vec(Vec::new(alloc)),
        virtuals: Virtuals::from_vec(Vec::new(alloc)),
        created: Backings::from_vec(Vec::new(alloc)),
        removed: Numbers::from_vec(Vec::new(alloc)),
    }
}

fn is_number(number: Option<u64>) -> bool
    ensures { IsTrue result → IfSome number IsNumber }
{
    match number {
        Some(n) => n < NUMBERS,
        None => true,
    }
}

fn is_spellable(edit: &Edit) -> bool
    ensures { IsTrue result → IsSpellable edit.now }
{
    is_number(edit.accepted)
        && is_number(edit.next)
        && is_number(edit.log)
        && is_number(edit.flushed)
        && is_number(edit.format)
        && are_physical(edit.physical.as_slice())
        && edit.virtuals.as_slice().is_empty()
        && edit.created.as_slice().is_empty()
}

/// The version with the edit applied; None where it breaks a rule.
pub(crate) fn applied(
    alloc: Global,
    mut version: Version,
    edit: &Edit,
) -> Result<Option<Version>, AllocError> {
    if !is_spellable(edit) {
        return Ok(None);
    }
    match version.apply(alloc, edit) {
        Ok(()) => Ok(Some(version)),
        Err(Broken::NoMemory) => Err(AllocError),
        Err(_) => Ok(None),
    }
}

/// A new store's version with these physical tables, if they may stand together.
pub(crate) fn version_with(
    alloc: Global,
    physical: Vec<Physical>,
) -> Result<Option<Version>, AllocError> {
    let mut edit = first_edit(alloc);
    edit.physical = Physicals::from_vec(physical);
    applied(alloc, Version::empty(alloc), &edit)
}

/// The same with these tables, numbered from 1 on.
pub(crate) fn version_of(alloc: Global, tables: &[Placed]) -> Result<Option<Version>, AllocError> {
    let mut items = Vec::new(alloc);
    let mut number: u64 = 1;
    for table in tables {
        if let Some((lo, hi, _)) = SPANS.get(table.span) {
            let item = physical(alloc, table.level, number, &[*lo], &[*hi])?;
            items.push(item)?;
        }
        number = number.saturating_add(1);
    }
    version_with(alloc, items)
}
