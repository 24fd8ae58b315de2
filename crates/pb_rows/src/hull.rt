ghost use Rattle.std.specs.Prelude.{◌≡◌, IfOk, All, map};
ghost use Rattle.pb_keys.specs.Key.{IsKey};
ghost use Rattle.pb_keys.specs.Span.{IsSpan};
ghost use Rattle.pb_rows.specs.Hull.{either_hull, hull_of_spans, span_at};
ghost use Rattle.pb_rows.specs.Layer.{AreApart, Rise};

use super::Row;
use pb_keys::Span;
use std::alloc::{AllocError, Global};

pub(crate) fn hull_of_dels(alloc: Global, dels: &[Span]) -> Result<Option<Span>, AllocError>
    requires spans { All IsSpan dels.now }
    requires apart { AreApart dels.now }
    ensures ok { IfOk result (λ hull. hull ≡ hull_of_spans dels.now) }
{
    if dels.is_empty() {
        return Ok(None);
    }
    let first = &dels[0];
    let last = &dels[dels.len() - 1];
    let hull = Span::between(alloc, first.lo(), last.hi())?;
    Ok(Some(hull))
}

pub(crate) fn hull_of_rows(alloc: Global, rows: &[Row]) -> Result<Option<Span>, AllocError>
    requires keys { All (λ row. IsKey row.key) rows.now }
    requires rise { Rise rows.now }
    ensures ok { IfOk result (λ hull. hull ≡ hull_of_spans (map span_at rows.now)) }
{
    if rows.is_empty() {
        return Ok(None);
    }
    let first = &rows[0];
    let last = &rows[rows.len() - 1];
    let mut end = Vec::from_slice(alloc, last.key.prefix())?;
    end.push(0)?;
    let hull = Span::between(alloc, first.key.prefix(), end.as_slice())?;
    Ok(Some(hull))
}

pub(crate) fn either_of(
    alloc: Global,
    a: Option<Span>,
    b: Option<Span>,
) -> Result<Option<Span>, AllocError>
    ensures ok { IfOk result (λ hull. hull ≡ either_hull a b) }
{
    match (a, b) {
        (Some(a), Some(b)) => {
            let hull = Span::joined(alloc, &a, &b)?;
            Ok(Some(hull))
        }
        (Some(a), None) => Ok(Some(a)),
        (None, b) => Ok(b),
    }
}
