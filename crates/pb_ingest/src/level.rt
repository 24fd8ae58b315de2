//! The level at which a table comes on top.
ghost use Rattle.std.specs.Prelude.{◌≡◌, ◌≤◌, None, option_copied};
ghost use Rattle.std.specs.List.{list_any};
ghost use Rattle.std.specs.Option.{option_to_list};
ghost use Rattle.pb_keys.specs.Span.{overlap};
ghost use Rattle.pb_span_cases.specs.Remainder.{remains};
ghost use Rattle.pb_ingest.specs.Levels.{meets, free_levels, level_of, level_without};

use pb_edit::LAST_LEVEL;
use pb_keys::Span;
use pb_span_cases::{Ends, minus};
use pb_version::{Table, Version};

/// The deepest level down to which no table overlaps the hull; 0 where one of level 0 does.
pub fn level_for(version: &Version, hull: &Span) -> u8
    ensures value { result ≡ level_of version.now hull.now }
    ensures within { result ≤ 6 }
{
    level_beside(version, None, hull)
}

/// The same where of each table only what stays beside the cut counts.
pub fn level_beside(version: &Version, cut: Option<&Span>, hull: &Span) -> u8
    ensures value { result ≡ level_without version.now (option_copied cut.entry) hull.now }
    ensures within { result ≤ 6 }
{
    free_levels(version, cut, hull).saturating_sub(1)
}

/// How many levels have no table that meets the hull, up to the first that has one.
fn free_levels(version: &Version, cut: Option<&Span>, hull: &Span) -> u8
    ensures value { result ≡ free_levels (option_copied cut.entry) hull.now version.now.levels }
    ensures within { result ≤ 7 }
{
    // So the proof knows that there are seven levels.
    let _five = version.five();
    for level in 0..=LAST_LEVEL {
        if any_meets(version.tables(level), cut, hull) {
            return level;
        }
    }
    LAST_LEVEL + 1
}

fn any_meets(tables: &[Table], cut: Option<&Span>, hull: &Span) -> bool
    ensures { result ≡ list_any (meets (option_copied cut.entry) hull.now) tables.now }
{
    tables.iter().any(|table| meets(table, cut, hull))
}

/// Whether what stays of the table beside the cut overlaps the hull.
fn meets(table: &Table, cut: Option<&Span>, hull: &Span) -> bool
    ensures { result ≡ meets (option_copied cut.entry) hull.now table.now }
{
    match cut {
        Some(cut) => rest_meets(&table.view.bounds, cut, hull),
        None => table.view.bounds.overlaps(hull),
    }
}

fn rest_meets(bounds: &Span, cut: &Span, hull: &Span) -> bool
    ensures { result ≡ list_any (λ rest. overlap rest hull.now) (remains bounds.now cut.now) }
{
    let (left, right) = minus(bounds, cut);
    overlaps(&left, hull) || overlaps(&right, hull)
}

#[tactic(auto, using(pb_keys::proofs::OrderFacts::compares), unfolding(pb_keys::specs::Span::overlap))]
fn overlaps(part: &Option<Ends>, hull: &Span) -> bool
    ensures { result ≡ list_any (λ part. overlap part hull.now) (option_to_list part.now) }
{
    match part {
        Some(ends) => ends.lo < hull.hi() && hull.lo() < ends.hi,
        None => false,
    }
}
