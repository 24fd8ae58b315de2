ghost use Rattle.std.specs.Prelude.{◌≡◌, ◌≤◌, All, IfOk, filter, length};
ghost use Rattle.std.specs.List.{list_any};
ghost use Rattle.pb_keys.specs.Span.{IsSpan, holds_key, overlap};
ghost use Rattle.pb_memtable.specs.Search.{AreOverlapped, AreWithin, IsRowPlace, rows_at};
ghost use Rattle.pb_rows.specs.Layer.{AreApart, Rise};
ghost use Rattle.pb_rows.specs.Viewed.{cut_to};

use super::changes::key_at;
use super::search::place_of;
use pb_keys::Span;
use pb_rangedel::cut;
use pb_wal::Change;
use std::alloc::{AllocError, Global};

/// From where up to where the span holds the rows' keys, by halving.
pub(crate) fn rows_within(changes: &[Change], places: &[usize], span: &Span) -> (usize, usize)
    requires places { All (IsRowPlace changes.now) places.now }
    requires rise { Rise (rows_at changes.now places.now) }
    ensures within { AreWithin span.now (rows_at changes.now places.now) result.0 result.1 }
    ensures bound { result.1 ≤ length places.now }
{
    let from = place_of(changes, places, span.lo(), b"");
    let to = place_of(changes, places, span.hi(), b"");
    (from, to)
}

/// The places of the rows whose keys the span holds.
pub(crate) fn places_within<'a>(changes: &[Change], places: &'a [usize], span: &Span) -> &'a [usize]
    requires places { All (IsRowPlace changes.now) places.now }
    requires rise { Rise (rows_at changes.now places.now) }
    ensures places { All (IsRowPlace changes.now) result.now }
    ensures rise { Rise (rows_at changes.now result.now) }
    ensures rows { rows_at changes.now result.now ≡ filter (λ row. holds_key span.now row.key) (rows_at changes.now places.now) }
{
    let (from, to) = rows_within(changes, places, span);
    &places[from..to]
}

/// From where up to where the deletions overlap the span, by halving.
#[tactic(auto, using(pb_keys::proofs::OrderFacts::compares))]
fn overlapped_by(dels: &[Span], span: &Span) -> (usize, usize)
    requires in_form { All IsSpan dels.now }
    requires apart { AreApart dels.now }
    ensures { AreOverlapped span.now dels.now result.0 result.1 }
{
    let lo = span.lo();
    let hi = span.hi();
    let from = dels.partition_point(|del| del.hi() <= lo);
    let to = dels.partition_point(|del| del.lo() < hi);
    (from, to)
}

/// The parts of the deletions within the span: those that overlap it are found by halving.
pub(crate) fn dels_within(
    alloc: Global,
    dels: &[Span],
    span: &Span,
) -> Result<Vec<Span>, AllocError>
    requires in_form { All IsSpan dels.now }
    requires apart { AreApart dels.now }
    ensures exact { IfOk result (λ parts. parts.items ≡ cut_to span.now dels.now) }
    ensures apart { IfOk result (λ parts. AreApart parts.items) }
{
    let (from, to) = overlapped_by(dels, span);
    let parts = cut(alloc, &dels[from..to], span)?;
    Ok(parts)
}

/// Whether the span holds the key of a row, by halving.
pub(crate) fn has_row_within(changes: &[Change], places: &[usize], span: &Span) -> bool
    requires places { All (IsRowPlace changes.now) places.now }
    requires rise { Rise (rows_at changes.now places.now) }
    ensures { result ≡ list_any (λ row. holds_key span.now row.key) (rows_at changes.now places.now) }
{
    let at = place_of(changes, places, span.lo(), b"");
    at < places.len() && span.contains(key_at(changes, places[at]))
}

/// Whether a deletion overlaps the span, by halving.
pub(crate) fn has_overlap(dels: &[Span], span: &Span) -> bool
    requires in_form { All IsSpan dels.now }
    requires apart { AreApart dels.now }
    ensures { result ≡ list_any (λ del. overlap span.now del) dels.now }
{
    let lo = span.lo();
    let at = dels.partition_point(|del| del.hi() <= lo);
    at < dels.len() && span.overlaps(&dels[at])
}
