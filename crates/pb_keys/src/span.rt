ghost use Rattle.std.specs.Prelude.{◌≡◌, ◌↔◌, IsTrue, IfNone, IfSome, IfOk, OnOk};
ghost use Rattle.pb_keys.specs.Order.{is_below, lesser, greater};
ghost use Rattle.pb_keys.specs.Span.{IsEnd, IsSpan, span_of, holds_key, overlap, joined};

use super::key::AT;
use super::{Bytes, Key};
use std::alloc::{AllocError, Global};
use std::marker::Model;

/// The longest end of a span, in bytes.
pub const MAX_END: usize = 1025;

/// The keys whose prefix p has `lo <= p < hi`, as bytes.
///
/// Its ends have 1 to 1,025 bytes without '@', and `lo < hi`. Contracts see a span as its two ends: docs/MODEL.md, "Spans".
#[derive(Debug, Drop)]
pub struct Span {
    lo: Bytes,
    hi: Bytes,
}

/// Why there is no span.
#[derive(Clone, Copy, Debug, PartialEq, Eq, thiserror::Error)]
pub enum SpanError {
    #[error("a span has two ends of 1 to 1,025 bytes without '@', the first below the second")]
    BadSpan,
    #[error("out of memory")]
    NoMemory,
}

impl From<AllocError> for SpanError {
    ghost use Rattle.std.specs.Prelude.{◌≡◌};
    ghost use Rattle.pb_keys.specs.declared.span.SpanError.TheVariants.{NoMemory};

    ghost from_gives = { λ _ error. error ≡ NoMemory };

    fn from(_error: AllocError) -> SpanError {
        SpanError::NoMemory
    }
}

impl Model for Span {
    ghost use Rattle.pb_keys.specs.Span.{KeySpan, IsSpan, span_of};

    ghost Value = { KeySpan };

    ghost view = { λ s. span_of s.lo s.hi };

    ghost invariant = { λ s. IsSpan (span_of s.lo s.hi) };
}

impl Span {
    /// The span with these ends.
    #[tactic(auto, using(crate::proofs::OrderFacts::compares))]
    pub fn new(alloc: Global, lo: &[u8], hi: &[u8]) -> Result<Span, SpanError>
        ensures ok { IfOk result (λ span. span ≡ span_of lo.now hi.now) }
        ensures in_form { OnOk result (IsSpan (span_of lo.now hi.now)) }
        ensures bad { (result ≡ Err SpanError.BadSpan) ↔ ¬ (IsSpan (span_of lo.now hi.now)) }
    {
        if !is_end(lo) || !is_end(hi) || hi <= lo {
            return Err(SpanError::BadSpan);
        }
        let span = Span::between(alloc, lo, hi)?;
        Ok(span)
    }

    /// The span with these ends, or None where they have none.
    pub fn read(alloc: Global, lo: &[u8], hi: &[u8]) -> Result<Option<Span>, AllocError>
        ensures some { IfOk result (λ found. IfSome found (λ span. span ≡ span_of lo.now hi.now)) }
        ensures in_form { IfOk result (λ found. IfSome found (λ _. IsSpan (span_of lo.now hi.now))) }
        ensures none { (result ≡ Ok None) ↔ ¬ (IsSpan (span_of lo.now hi.now)) }
    {
        match Span::new(alloc, lo, hi) {
            Ok(span) => Ok(Some(span)),
            Err(SpanError::BadSpan) => Ok(None),
            Err(SpanError::NoMemory) => Err(AllocError),
        }
    }

    /// The span with these ends, which are known to have one.
    pub fn between(alloc: Global, lo: &[u8], hi: &[u8]) -> Result<Span, AllocError>
        requires { IsSpan (span_of lo.now hi.now) }
        ensures ok { IfOk result (λ span. span ≡ span_of lo.now hi.now) }
    {
        let lo = Bytes::new(alloc, lo)?;
        let hi = Bytes::new(alloc, hi)?;
        Ok(Span { lo, hi })
    }

    /// The span from the lesser start to the greater end.
    pub fn joined(alloc: Global, a: &Span, b: &Span) -> Result<Span, AllocError>
        ensures ok { IfOk result (λ span. span ≡ joined a.now b.now) }
    {
        let lo = lesser_of(a.lo(), b.lo());
        let hi = greater_of(a.hi(), b.hi());
        Span::between(alloc, lo, hi)
    }

    /// Another value of the same span.
    pub fn copy(&self, alloc: Global) -> Result<Span, AllocError>
        ensures ok { IfOk result (λ span. span ≡ self.now) }
    {
        let lo = self.lo.copy(alloc)?;
        let hi = self.hi.copy(alloc)?;
        Ok(Span { lo, hi })
    }

    /// The end that belongs to the span.
    pub fn lo(&self) -> &[u8]
        ensures value { result.now ≡ self.now.lo }
        ensures in_form { IsSpan self.now }
    {
        self.lo.as_slice()
    }

    /// The end that doesn't.
    pub fn hi(&self) -> &[u8]
        ensures value { result.now ≡ self.now.hi }
        ensures in_form { IsSpan self.now }
    {
        self.hi.as_slice()
    }

    /// Whether the span holds the key.
    #[tactic(auto, using(crate::proofs::OrderFacts::compares), unfolding(crate::specs::Span::holds_key))]
    pub fn contains(&self, key: &Key) -> bool
        ensures { result ≡ holds_key self.now key.now }
    {
        self.lo() <= key.prefix() && key.prefix() < self.hi()
    }

    /// Whether each begins before the other ends. Spans that touch don't overlap.
    #[tactic(auto, using(crate::proofs::OrderFacts::compares), unfolding(crate::specs::Span::overlap))]
    pub fn overlaps(&self, other: &Span) -> bool
        ensures { result ≡ overlap self.now other.now }
    {
        self.lo() < other.hi() && other.lo() < self.hi()
    }
}

#[tactic(auto, using(crate::proofs::OrderFacts::compares))]
fn lesser_of<'a>(a: &'a [u8], b: &'a [u8]) -> &'a [u8]
    ensures { result.now ≡ lesser a.now b.now }
{
    if b < a { b } else { a }
}

#[tactic(auto, using(crate::proofs::OrderFacts::compares))]
fn greater_of<'a>(a: &'a [u8], b: &'a [u8]) -> &'a [u8]
    ensures { result.now ≡ greater a.now b.now }
{
    if a < b { b } else { a }
}

fn is_end(bytes: &[u8]) -> bool
    ensures { IsTrue result ↔ IsEnd bytes.now }
{
    !bytes.is_empty() && bytes.len() <= MAX_END && !bytes.contains(&AT)
}
