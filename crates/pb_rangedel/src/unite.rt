ghost use Rattle.std.specs.Prelude.{◌≡◌, ℕ, ◌<◌, List, length, ◌||◌, All, IfOk, OnOk, true, false, slice_index_or};
ghost use Rattle.pb_keys.specs.Order.{is_below};
ghost use Rattle.pb_keys.specs.Span.{KeySpan, IsSpan, holds_key};
ghost use Rattle.pb_rangedel.specs.Spans.{BeginUpto};
ghost use Rattle.pb_rows.specs.Layer.{AreApart};
ghost use Rattle.pb_rows.specs.Over.{union_of};
ghost use Rattle.pb_rows.specs.Verdict.{is_covered};

use pb_keys::Span;
use std::alloc::{AllocError, Global};

/// Spans that hold what one of both lists holds, in one pass over both.
///
/// Where the spans of both lists ascend, neither overlapping nor touching, so do these: spans that touch become one.
pub fn union(alloc: Global, a: &[Span], b: &[Span]) -> Result<Vec<Span>, AllocError>
    ensures covered { IfOk result (λ spans. (key : List ℕ) → is_covered spans.items key ≡ (is_covered a.now key || is_covered b.now key)) }
    ensures in_form { IfOk result (λ spans. All IsSpan spans.items) }
    ensures apart { AreApart a.now → AreApart b.now → IfOk result (λ spans. AreApart spans.items) }
    ensures exact { AreApart a.now → AreApart b.now → IfOk result (λ spans. spans.items ≡ union_of a.now b.now) }
{
    let mut out = Vec::new(alloc);
    let mut left = 0;
    let mut right = 0;
    while left < a.len() || right < b.len() {
        if is_left_next(a, b, left, right) {
            append(alloc, &mut out, &a[left])?;
            left += 1;
        } else {
            append(alloc, &mut out, &b[right])?;
            right += 1;
        }
    }
    Ok(out)
}

/// Whether the left list has a next span, and the right list none that begins before it.
#[tactic(auto, using(pb_keys::proofs::OrderFacts::compares))]
fn is_left_next(a: &[Span], b: &[Span], left: usize, right: usize) -> bool
    ensures left { result ≡ true → left < length a.now }
    ensures before { result ≡ true → right < length b.now → (d : KeySpan) → is_below (slice_index_or b.now right d).lo (slice_index_or a.now left d).lo ≡ false }
    ensures right { result ≡ false → left < length a.now → right < length b.now }
    ensures after { result ≡ false → left < length a.now → (d : KeySpan) → is_below (slice_index_or a.now left d).lo (slice_index_or b.now right d).lo ≡ false }
{
    if left >= a.len() {
        return false;
    }
    if right >= b.len() {
        return true;
    }
    a[left].lo() <= b[right].lo()
}

/// Adds a span behind those that begin before it, as one with the last where they overlap or touch.
fn append(alloc: Global, out: &mut Vec<Span>, next: &Span) -> Result<(), AllocError>
    requires { All IsSpan out.old.items }
    ensures covered { OnOk result ((key : List ℕ) → is_covered out.new.items key ≡ (is_covered out.old.items key || holds_key next.now key)) }
    ensures in_form { OnOk result (All IsSpan out.new.items) }
    ensures next { IsSpan next.now }
    ensures apart { BeginUpto next.now.lo out.old.items → AreApart out.old.items → OnOk result (AreApart out.new.items × BeginUpto next.now.lo out.new.items) }
{
    // So the proof knows in each arm that the span is in form.
    let _lo = next.lo();
    match out.pop() {
        None => {
            let span = next.copy(alloc)?;
            out.push(span)?;
        }
        Some(last) => {
            if are_apart(&last, next) {
                let span = next.copy(alloc)?;
                out.push(last)?;
                out.push(span)?;
            } else {
                let span = Span::joined(alloc, &last, next)?;
                out.push(span)?;
            }
        }
    }
    Ok(())
}

/// Whether one of the spans ends below where the other begins.
#[tactic(auto, using(pb_keys::proofs::OrderFacts::compares))]
fn are_apart(a: &Span, b: &Span) -> bool
    ensures { result ≡ (is_below a.now.hi b.now.lo || is_below b.now.hi a.now.lo) }
{
    a.hi() < b.lo() || b.hi() < a.lo()
}
