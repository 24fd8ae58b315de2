//! Versions made of the bytes of edits, and excises of them as a command makes them.
ghost use Rattle.std.specs.Prelude.{◌≡◌, ◌+◌, ◌≤◌, ◌^◌, IsTrue, IfOk, IfSome};
ghost use Rattle.pb_bytes.specs.Number.{IsNumber};
ghost use Rattle.pb_edit.specs.Grammar.{IsEdit};
ghost use Rattle.pb_version.specs.State.{IsSpellable};
ghost use Rattle.pb_version.specs.Version.{all_tables};
ghost use Rattle.pb_excise.specs.Excised.{parts_count};
ghost use Rattle.pb_excise.specs.Planned.{with_count};

use crate::plain::Placed;
use pb_bytes::{NUMBERS, put_field, put_varint};
use pb_edit::Edit;
use pb_excise::{parts, plan};
use pb_keys::Span;
use pb_version::{Broken, Version};
use std::alloc::{AllocError, Global};

pub(crate) fn decoded(alloc: Global, bytes: &[u8]) -> Result<Option<Edit>, AllocError>
    ensures ok { IfOk result (λ read. IfSome read (λ edit. IsSpellable edit)) }
{
    let read = Edit::decode(alloc, bytes)?;
    Ok(read)
}

/// Applies the edit. False where it breaks a rule.
pub(crate) fn is_applied(
    alloc: Global,
    version: &mut Version,
    edit: &Edit,
) -> Result<bool, AllocError>
    requires { IsSpellable edit.now }
{
    match version.apply(alloc, edit) {
        Ok(()) => Ok(true),
        Err(Broken::NoMemory) => Err(AllocError),
        Err(_) => Ok(false),
    }
}

/// Applies the edit that the bytes spell. False where they spell none, or one that breaks a rule.
fn apply_bytes(alloc: Global, version: &mut Version, bytes: &[u8]) -> Result<bool, AllocError> {
    match decoded(alloc, bytes)? {
        Some(edit) => is_applied(alloc, version, &edit),
        None => Ok(false),
    }
}

/// The five numbers after the first edit of a store.
const FIRST: [(u8, u64); 5] = [(1, 0), (2, 4), (3, 3), (4, 0), (5, 1)];

pub(crate) fn put_numbers(
    alloc: Global,
    out: &mut Vec<u8>,
    numbers: &[(u8, u64)],
) -> Result<(), AllocError> {
    for (kind, number) in numbers {
        out.push(*kind)?;
        put_varint(alloc, out, *number)?;
    }
    Ok(())
}

fn put_table(alloc: Global, out: &mut Vec<u8>, table: &Placed) -> Result<(), AllocError> {
    out.push(7)?;
    out.push(table.level)?;
    put_varint(alloc, out, table.number)?;
    put_varint(alloc, out, table.rank)?;
    put_varint(alloc, out, 8)?;
    put_field(alloc, out, table.lo)?;
    put_field(alloc, out, table.hi)?;
    Ok(())
}

/// The edit that brings these physical tables, below `next`, with the effects of two commands.
fn tables_edit(alloc: Global, next: u64, tables: &[Placed]) -> Result<Vec<u8>, AllocError> {
    let mut bytes = Vec::new(alloc);
    put_numbers(alloc, &mut bytes, &[(1, 2), (2, next), (3, 5), (4, 2)])?;
    for table in tables {
        put_table(alloc, &mut bytes, table)?;
    }
    Ok(bytes)
}

/// The store after its first edit, and one that brings these physical tables, by level and number, the numbers below `next` being
/// reserved. None where that is no edit or breaks a rule.
pub(crate) fn store_of(
    alloc: Global,
    next: u64,
    tables: &[Placed],
) -> Result<Option<Version>, AllocError> {
    let edit = tables_edit(alloc, next, tables)?;
    let store = store_after(alloc, edit.as_slice())?;
    Ok(store)
}

/// The store after its first edit and the one that the bytes spell. None where they spell none, or one that breaks a rule.
pub(crate) fn store_after(alloc: Global, edit: &[u8]) -> Result<Option<Version>, AllocError> {
    let mut first = Vec::new(alloc);
    put_numbers(alloc, &mut first, &FIRST)?;
    let mut version = Version::empty(alloc);
    let is_new = apply_bytes(alloc, &mut version, first.as_slice())?;
    if is_new && apply_bytes(alloc, &mut version, edit)? {
        return Ok(Some(version));
    }
    Ok(None)
}

pub(crate) fn reserve(alloc: Global, version: &mut Version, next: u64) -> Result<bool, AllocError> {
    let mut bytes = Vec::new(alloc);
    bytes.push(2)?;
    put_varint(alloc, &mut bytes, next)?;
    apply_bytes(alloc, version, bytes.as_slice())
}

/// Whether the parts find their numbers from the first one on that isn't reserved.
fn fits(version: &Version, span: &Span) -> bool
    ensures { IsTrue result → version.now.five.next + parts_count span.now (all_tables version.now) ≤ 2 ^ 62 }
{
    let five = version.five();
    five.next < 1_000_000 && parts(version, span) < 1_000_000
}

fn is_number(n: u64) -> bool
    ensures { IsTrue result → IsNumber n }
{
    n < NUMBERS
}

/// The edit of an excise with its count, the parts numbered from the first number on that isn't reserved.
fn excise_edit(
    alloc: Global,
    version: &Version,
    span: &Span,
    accepted: u64,
) -> Result<Edit, AllocError>
    requires room { version.now.five.next + parts_count span.now (all_tables version.now) ≤ 2 ^ 62 }
    requires accepted { IsNumber accepted }
    ensures ok { IfOk result (λ edit. IsEdit edit) }
{
    let five = version.five();
    let edit = plan(alloc, version, span, five.next)?;
    Ok(counted(edit, accepted))
}

pub(crate) fn counted(edit: Edit, accepted: u64) -> Edit
    ensures { result ≡ with_count accepted edit }
{
    let mut edit = edit;
    edit.accepted = Some(accepted);
    edit
}

/// The bytes of that edit. None where a number would be too great.
pub(crate) fn excise_bytes(
    alloc: Global,
    version: &Version,
    span: &Span,
    accepted: u64,
) -> Result<Option<Vec<u8>>, AllocError> {
    if !fits(version, span) {
        return Ok(None);
    }
    if !is_number(accepted) {
        return Ok(None);
    }
    let edit = excise_edit(alloc, version, span, accepted)?;
    let mut bytes = Vec::new(alloc);
    edit.encode(alloc, &mut bytes)?;
    Ok(Some(bytes))
}

/// Takes the span out of the version. False where the edit breaks a rule.
pub(crate) fn excise(
    alloc: Global,
    version: &mut Version,
    span: &Span,
) -> Result<bool, AllocError> {
    let five = version.five();
    let next = five.next.saturating_add(parts(version, span));
    let accepted = five.accepted.saturating_add(1);
    let Some(bytes) = excise_bytes(alloc, version, span, accepted)? else {
        return Ok(false);
    };
    Ok(reserve(alloc, version, next)? && apply_bytes(alloc, version, bytes.as_slice())?)
}

/// The same of the span with these ends. False too where they have none.
pub(crate) fn cut(
    alloc: Global,
    version: &mut Version,
    lo: &[u8],
    hi: &[u8],
) -> Result<bool, AllocError> {
    let Some(span) = Span::read(alloc, lo, hi)? else {
        return Ok(false);
    };
    let is_cut = excise(alloc, version, &span)?;
    Ok(is_cut)
}
