ghost use Rattle.std.specs.List.{flat_map};
ghost use Rattle.std.specs.Prelude.{◌≡◌, List, ◌∷◌, ◌++◌, All, IfOk, OnOk, drop, filter, not, take, true};
ghost use Rattle.pb_compact.specs.Cutting.{begins_below, is_first_below, is_row_below, layer_below, layer_from, part_below, part_from};
ghost use Rattle.pb_keys.specs.Order.{is_below as is_below_of};
ghost use Rattle.pb_keys.specs.Span.{KeySpan, IsEnd, IsSpan};
ghost use Rattle.pb_rows.specs.Layer.{AreApart, IsLayer, Rise, layer_of};

use pb_keys::Span;
use pb_rows::{Layer, Row};
use std::alloc::{AllocError, Global};
use std::collections::VecDeque;

/// Moves out what lies in front of the end.
pub(crate) fn take_output(
    alloc: Global,
    dels: &mut VecDeque<Span>,
    rows: &mut VecDeque<Row>,
    end: &[u8],
) -> Result<Layer, AllocError>
    requires in_form { IsLayer (layer_of dels.old.items rows.old.items) }
    requires end { IsEnd end.now }
    ensures taken { IfOk result (λ taken. taken ≡ layer_below end.now (layer_of dels.old.items rows.old.items)) }
    ensures left { OnOk result (layer_of dels.new.items rows.new.items ≡ layer_from end.now (layer_of dels.old.items rows.old.items)) }
{
    let taken_dels = take_dels(alloc, dels, end)?;
    let taken_rows = take_rows(alloc, rows, end)?;
    Ok(Layer::from_parts(taken_dels, taken_rows))
}

/// Moves out the rows whose prefixes are below the end.
fn take_rows(alloc: Global, rows: &mut VecDeque<Row>, end: &[u8]) -> Result<Vec<Row>, AllocError>
    requires { Rise rows.old.items }
    ensures taken { IfOk result (λ taken. taken.items ≡ filter (is_row_below end.now) rows.old.items) }
    ensures left { OnOk result (rows.new.items ≡ filter (λ row. not (is_row_below end.now row)) rows.old.items) }
{
    let mut taken = Vec::new(alloc);
    while is_first_below(rows, end) {
        move_first(rows, &mut taken)?;
    }
    Ok(taken)
}

/// Moves out the spans that begin below the end; the part of one behind it stays, as the first.
fn take_dels(alloc: Global, dels: &mut VecDeque<Span>, end: &[u8]) -> Result<Vec<Span>, AllocError>
    requires in_form { All IsSpan dels.old.items }
    requires apart { AreApart dels.old.items }
    requires end { IsEnd end.now }
    ensures taken { IfOk result (λ taken. taken.items ≡ flat_map (part_below end.now) dels.old.items) }
    ensures left { OnOk result (dels.new.items ≡ flat_map (part_from end.now) dels.old.items) }
{
    let mut taken = Vec::new(alloc);
    while begins_below(dels, end) {
        take_first(alloc, dels, &mut taken, end)?;
    }
    Ok(taken)
}

/// Moves out the first span, which begins below the end; a part of it behind the end stays.
fn take_first(
    alloc: Global,
    dels: &mut VecDeque<Span>,
    out: &mut Vec<Span>,
    end: &[u8],
) -> Result<(), AllocError>
    requires begins { begins_below end.now dels.old.items ≡ true }
    requires end { IsEnd end.now }
    ensures out { OnOk result ((first : KeySpan) (rest : List KeySpan) → dels.old.items ≡ first ∷ rest → out.new.items ≡ out.old.items ++ part_below end.now first) }
    ensures left { OnOk result ((first : KeySpan) (rest : List KeySpan) → dels.old.items ≡ first ∷ rest → dels.new.items ≡ part_from end.now first ++ rest) }
{
    let Some(first) = dels.pop_front() else {
        return Ok(());
    };
    if !is_below(end, first.hi()) {
        out.push(first)?;
        return Ok(());
    }
    let taken = Span::between(alloc, first.lo(), end)?;
    let left = Span::between(alloc, end, first.hi())?;
    dels.push_front(left)?;
    out.push(taken)?;
    Ok(())
}

#[tactic(auto, using(pb_keys::proofs::OrderFacts::compares))]
fn is_below(a: &[u8], b: &[u8]) -> bool
    ensures { result ≡ is_below_of a.now b.now }
{
    a < b
}

/// Whether the first row lies in front of the end.
fn is_first_below(rows: &VecDeque<Row>, end: &[u8]) -> bool
    ensures { result ≡ is_first_below end.now rows.now.items }
{
    match rows.front() {
        Some(row) => is_below(row.key.prefix(), end),
        None => false,
    }
}

/// Whether the first span begins in front of the end.
fn begins_below(dels: &VecDeque<Span>, end: &[u8]) -> bool
    ensures { result ≡ begins_below end.now dels.now.items }
{
    match dels.front() {
        Some(span) => is_below(span.lo(), end),
        None => false,
    }
}

/// Moves the first one, if there is one, behind the others.
fn move_first<T: Drop>(from: &mut VecDeque<T>, out: &mut Vec<T>) -> Result<(), AllocError>
    ensures out { OnOk result (out.new.items ≡ out.old.items ++ take 1 from.old.items) }
    ensures left { from.new.items ≡ drop 1 from.old.items }
{
    if let Some(first) = from.pop_front() {
        out.push(first)?;
    }
    Ok(())
}
