//! The edit of an excise.
ghost use Rattle.std.specs.Prelude.{◌≡◌, ◌+◌, ◌^◌, ◌≤◌, ℕ, length, if◌then◌else◌, IfOk};
ghost use Rattle.pb_keys.specs.Span.{overlap};
ghost use Rattle.pb_span_cases.specs.Remainder.{remains};
ghost use Rattle.pb_version.specs.Version.{all_tables};
ghost use Rattle.pb_excise.specs.Allowed.{BreaksNoRule};
ghost use Rattle.pb_excise.specs.Excised.{parts_of, parts_count, left_count, excised};
ghost use Rattle.pb_excise.specs.Unused.{AreUnusedFrom};
ghost use Rattle.pb_excise.specs.Planned.{IsExcise};
ghost use Rattle.pb_excise.specs.Drafted.{begun, with_levels};

use crate::draft::{Draft, edit_of};
use pb_edit::{Edit, LAST_LEVEL};
use pb_keys::Span;
use pb_span_cases::minus;
use pb_version::{Table, Version};
use std::alloc::{AllocError, Global};

/// How many parts an excise of the span leaves of the tables that it cuts, over all levels. It takes no memory.
pub fn parts(version: &Version, span: &Span) -> u64
    ensures { result ≡ parts_count span.now (all_tables version.now) }
{
    // So the proof knows that there are seven levels, of few tables.
    let _five = version.five();
    let mut count = 0;
    for level in 0..=LAST_LEVEL {
        count += parts_on(version.tables(level), span);
    }
    count
}

fn parts_on(tables: &[Table], span: &Span) -> u64
    requires { parts_count span.now tables.now ≤ 2 ^ 62 }
    ensures { result ≡ parts_count span.now tables.now }
{
    let mut count = 0;
    for table in tables {
        count += parts_of(table, span);
    }
    count
}

fn parts_of(table: &Table, span: &Span) -> u64
    ensures { result ≡ length (parts_of span.now table.now) }
{
    if !table.view.bounds.overlaps(span) {
        return 0;
    }
    let (left, right) = minus(&table.view.bounds, span);
    left.is_some() as u64 + right.is_some() as u64
}

/// How many tables stand after an excise of the span, whatever the number of its first part. It takes no memory.
pub fn tables_after(version: &Version, span: &Span) -> u64
    ensures { (first : ℕ) → result ≡ length (all_tables (excised version.now span.now first)) }
{
    // So the proof knows that there are seven levels, of few tables.
    let _five = version.five();
    let mut count = 0;
    for level in 0..=LAST_LEVEL {
        count += left_on(version.tables(level), span);
    }
    count
}

fn left_on(tables: &[Table], span: &Span) -> u64
    requires { left_count span.now tables.now ≤ 2 ^ 62 }
    ensures { result ≡ left_count span.now tables.now }
{
    let mut count = 0;
    for table in tables {
        count += left_of(table, span);
    }
    count
}

fn left_of(table: &Table, span: &Span) -> u64
    ensures { result ≡ (if overlap table.now.view.bounds span.now then length (remains table.now.view.bounds span.now) else 1) }
{
    if table.view.bounds.overlaps(span) {
        return parts_of(table, span);
    }
    1
}

/// The edit that takes the span out of a version: docs/MODEL.md, "Excise". The parts are numbered from `first` on. The edit has
/// no count yet, and without one it may have no item at all.
pub fn plan(alloc: Global, version: &Version, span: &Span, first: u64) -> Result<Edit, AllocError>
    requires numbers { first + parts_count span.now (all_tables version.now) ≤ 2 ^ 62 }
    requires unused { AreUnusedFrom version.now first }
    ensures ok { IfOk result (IsExcise version.now span.now first) }
    ensures unbroken { IfOk result (BreaksNoRule version.now span.now first) }
{
    // So the proof knows the forms of both.
    let _five = version.five();
    let _lo = span.lo();
    let draft = draft_of(alloc, version, span, first)?;
    let edit = edit_of(alloc, draft)?;
    Ok(edit)
}

fn draft_of(alloc: Global, version: &Version, span: &Span, first: u64) -> Result<Draft, AllocError>
    requires { first + parts_count span.now (all_tables version.now) ≤ 2 ^ 62 }
    ensures ok { IfOk result (λ draft. draft ≡ with_levels span.now 0 version.now.levels (begun first)) }
{
    // So the proof knows that there are seven levels.
    let _five = version.five();
    let mut draft = Draft::new(alloc, first);
    for level in 0..=LAST_LEVEL {
        draft.add_tables(alloc, level, version.tables(level), span)?;
    }
    Ok(draft)
}
