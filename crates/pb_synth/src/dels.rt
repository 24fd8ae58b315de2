ghost use Rattle.std.specs.Prelude.{◌≡◌, ◌++◌, All, IfOk, map, true};
ghost use Rattle.std.specs.List.{filter};
ghost use Rattle.pb_keys.specs.Order.{lesser, greater};
ghost use Rattle.pb_keys.specs.Span.{IsSpan, overlap};
ghost use Rattle.pb_keys.specs.View.{IsView};
ghost use Rattle.pb_rows.specs.Layer.{AreApart};
ghost use Rattle.pb_rows.specs.Viewed.{mapped_span};
ghost use Rattle.pb_synth.specs.Parts.{shown_part};

use super::order::{is_above_end, is_below_end};
use pb_keys::{Span, View};
use std::alloc::{AllocError, Global};

/// The deletions that the view maps to spans of which a part lies within its bounds, as they stood, by halving.
pub(crate) fn shown_dels<'a>(view: &View, dels: &'a [Span]) -> &'a [Span]
    requires view { IsView view.now }
    requires in_form { All IsSpan dels.now }
    requires apart { AreApart dels.now }
    ensures { result.now ≡ filter (λ del. overlap view.now.bounds (mapped_span view.now del)) dels.now }
{
    let prefix = view.prefix.as_slice();
    let lo = view.bounds.lo();
    let hi = view.bounds.hi();
    let from = dels.partition_point(|del| !is_above_end(prefix, del.hi(), lo));
    let to = dels.partition_point(|del| is_below_end(prefix, del.lo(), hi));
    prove!(from <= to);
    &dels[from..to]
}

/// The parts within the bounds of the deletions as the view maps them.
pub(crate) fn parts_of(alloc: Global, view: &View, dels: &[Span]) -> Result<Vec<Span>, AllocError>
    requires view { IsView view.now }
    requires mapped { All (λ del. IsSpan (mapped_span view.now del)) dels.now }
    requires overlap { All (λ del. overlap view.now.bounds (mapped_span view.now del) ≡ true) dels.now }
    ensures ok { IfOk result (λ parts. parts.items ≡ map (shown_part view.now) dels.now) }
{
    let mut parts = Vec::with_capacity(alloc, dels.len())?;
    for del in dels {
        let part = part_of(alloc, view, del)?;
        parts.push(part)?;
    }
    Ok(parts)
}

/// The part within the bounds of a deletion as the view maps it.
fn part_of(alloc: Global, view: &View, del: &Span) -> Result<Span, AllocError>
    requires view { IsView view.now }
    requires mapped { IsSpan (mapped_span view.now del.now) }
    requires overlap { overlap view.now.bounds (mapped_span view.now del.now) ≡ true }
    ensures ok { IfOk result (λ part. part ≡ shown_part view.now del.now) }
{
    let prefix = view.prefix.as_slice();
    let lo = later(alloc, prefix, del.lo(), view.bounds.lo())?;
    let hi = earlier(alloc, prefix, del.hi(), view.bounds.hi())?;
    let part = Span::between(alloc, &lo, &hi)?;
    Ok(part)
}

/// The greater of an end and one byte string behind another.
fn later(alloc: Global, front: &[u8], back: &[u8], end: &[u8]) -> Result<Vec<u8>, AllocError>
    ensures ok { IfOk result (λ bytes. bytes.items ≡ greater end.now (front.now ++ back.now)) }
{
    if is_above_end(front, back, end) {
        let bytes = joined(alloc, front, back)?;
        return Ok(bytes);
    }
    let bytes = Vec::from_slice(alloc, end)?;
    Ok(bytes)
}

/// The lesser of an end and one byte string behind another.
fn earlier(alloc: Global, front: &[u8], back: &[u8], end: &[u8]) -> Result<Vec<u8>, AllocError>
    ensures ok { IfOk result (λ bytes. bytes.items ≡ lesser end.now (front.now ++ back.now)) }
{
    if is_below_end(front, back, end) {
        let bytes = joined(alloc, front, back)?;
        return Ok(bytes);
    }
    let bytes = Vec::from_slice(alloc, end)?;
    Ok(bytes)
}

fn joined(alloc: Global, front: &[u8], back: &[u8]) -> Result<Vec<u8>, AllocError>
    ensures ok { IfOk result (λ bytes. bytes.items ≡ front.now ++ back.now) }
{
    let mut bytes = Vec::from_slice(alloc, front)?;
    bytes.extend_from_slice(back)?;
    Ok(bytes)
}
