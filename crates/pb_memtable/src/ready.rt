ghost use Rattle.std.specs.Prelude.{◌≡◌, ◌<◌, ◌∷◌, [], All, IfOk, vec_len, vec_capacity};
ghost use Rattle.pb_keys.specs.Span.{IsSpan};
ghost use Rattle.pb_memtable.specs.Joining.{IsReady, IsTouched, RoomHolds, Touch, room_of};
ghost use Rattle.pb_memtable.specs.View.{room_for};
ghost use Rattle.pb_rows.specs.Layer.{AreApart};
ghost use Rattle.pb_rows.specs.Over.{with_span};

use super::ranges::remove_range;
use pb_keys::Span;
use pb_rangedel::union;
use pb_wal::Change;
use std::alloc::{AllocError, Global};

/// For which command there is room.
#[derive(Debug, Drop)]
pub(crate) enum Room {
    Nothing,
    /// Any set or del.
    Row,
    /// The delrange of one span.
    Span(Ready),
}

/// A span, and what it becomes with the deletions from one place up to another, which it overlaps or touches.
#[derive(Debug, Drop)]
pub(crate) struct Ready {
    pub(crate) span: Span,
    pub(crate) joined: Span,
    pub(crate) from: usize,
    pub(crate) to: usize,
}

/// The room for a command.
pub(crate) fn make_room(alloc: Global, dels: &[Span], change: &Change) -> Result<Room, AllocError>
    requires in_form { All IsSpan dels.now }
    requires apart { AreApart dels.now }
    ensures room { IfOk result (λ room. room_of room ≡ room_for change.now) }
    ensures holds { IfOk result (λ room. RoomHolds room dels.now) }
{
    match change {
        Change::Set(_, _) => Ok(Room::Row),
        Change::Del(_) => Ok(Room::Row),
        Change::DelRange(span) => {
            let ready = make_ready(alloc, dels, span)?;
            Ok(Room::Span(ready))
        }
    }
}

/// A span, and what it becomes with the deletions that it overlaps or touches.
fn make_ready(alloc: Global, dels: &[Span], span: &Span) -> Result<Ready, AllocError>
    requires in_form { All IsSpan dels.now }
    requires apart { AreApart dels.now }
    ensures span { IfOk result (λ ready. ready.span ≡ span.now) }
    ensures ready { IfOk result (λ ready. IsReady ready dels.now) }
{
    let (from, to) = touched_by(dels, span);
    let own = span.copy(alloc)?;
    let joined = join(alloc, span, &dels[from..to])?;
    Ok(Ready {
        span: own,
        joined,
        from,
        to,
    })
}

/// From where up to where the deletions overlap or touch the span, by halving.
#[tactic(auto, using(pb_keys::proofs::OrderFacts::compares))]
fn touched_by(dels: &[Span], span: &Span) -> (usize, usize)
    requires in_form { All IsSpan dels.now }
    requires apart { AreApart dels.now }
    ensures touched { IsTouched span.now dels.now result.0 result.1 }
    ensures in_form { IsSpan span.now }
{
    let lo = span.lo();
    let hi = span.hi();
    let from = dels.partition_point(|del| del.hi() < lo);
    let to = dels.partition_point(|del| del.lo() <= hi);
    (from, to)
}

/// What a span becomes with deletions that all overlap or touch it.
fn join(alloc: Global, span: &Span, touched: &[Span]) -> Result<Span, AllocError>
    requires apart { AreApart touched.now }
    requires touched { All (Touch span.now) touched.now }
    ensures ok { IfOk result (λ joined. with_span span.now touched.now ≡ joined ∷ []) }
{
    let mut one = Vec::new(alloc);
    let own = span.copy(alloc)?;
    one.push(own)?;
    let mut joined = union(alloc, one.as_slice(), touched)?;
    match joined.pop() {
        Some(span) => Ok(span),
        None => unreachable!(),
    }
}

/// Puts the span among the deletions. It takes no memory.
pub(crate) fn put_span(dels: &mut Vec<Span>, ready: Ready)
    requires ready { IsReady ready dels.old.items }
    requires fits { vec_len dels.old < vec_capacity dels.old }
    ensures { dels.new.items ≡ with_span ready.span dels.old.items }
{
    remove_range(dels, ready.from, ready.to);
    dels.insert(ready.from, ready.joined).unwrap();
}
