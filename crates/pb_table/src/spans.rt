ghost use Rattle.std.specs.Prelude.{ℕ, ◌≡◌, ◌<◌, ◌^◌, ◌++◌, List, All, IfNone, IfSome, IfOk, OnOk, length};
ghost use Rattle.pb_keys.specs.Span.{KeySpan, IsSpan, span_of};
ghost use Rattle.pb_table.specs.Spelling.{counted, span_spelling};

use pb_bytes::{put_field, put_varint, split_field, split_varint};
use pb_keys::Span;
use std::alloc::{AllocError, Global};

/// Appends the number of the spans and their ends.
pub(crate) fn put_spans(alloc: Global, out: &mut Vec<u8>, spans: &[Span]) -> Result<(), AllocError>
    ensures ok { OnOk result (out.new.items ≡ out.old.items ++ counted span_spelling spans.now) }
{
    put_varint(alloc, out, spans.len() as u64)?;
    for span in spans {
        put_span(alloc, out, span)?;
    }
    Ok(())
}

fn put_span(alloc: Global, out: &mut Vec<u8>, span: &Span) -> Result<(), AllocError>
    ensures ok { OnOk result (out.new.items ≡ out.old.items ++ span_spelling span.now) }
{
    put_field(alloc, out, span.lo())?;
    put_field(alloc, out, span.hi())?;
    Ok(())
}

/// The spans whose number and ends begin these bytes, and what stands behind them.
pub(crate) fn read_spans(
    alloc: Global,
    from: &[u8],
) -> Result<Option<(Vec<Span>, &[u8])>, AllocError>
    ensures found { IfOk result (λ read. IfSome read (λ found. from.now ≡ counted span_spelling found.0.items ++ found.1.now)) }
    ensures in_form { IfOk result (λ read. IfSome read (λ found. All IsSpan found.0.items)) }
    ensures none { IfOk result (λ read. IfNone read ((spans : List KeySpan) (rest : List ℕ)
        → All IsSpan spans → length spans < 2 ^ 64 → from.now ≡ counted span_spelling spans ++ rest → ⊥)) }
{
    let Some((count, mut rest)) = split_varint(from) else {
        return Ok(None);
    };
    // No room is reserved for the number that the bytes claim.
    let mut spans = Vec::new(alloc);
    for _ in 0..count {
        let Some((span, behind)) = read_span(alloc, rest)? else {
            return Ok(None);
        };
        spans.push(span)?;
        rest = behind;
    }
    Ok(Some((spans, rest)))
}

fn read_span(alloc: Global, from: &[u8]) -> Result<Option<(Span, &[u8])>, AllocError>
    ensures found { IfOk result (λ read. IfSome read (λ found. from.now ≡ span_spelling found.0 ++ found.1.now)) }
    ensures in_form { IfOk result (λ read. IfSome read (λ found. IsSpan found.0)) }
    ensures none { IfOk result (λ read. IfNone read ((span : KeySpan) (rest : List ℕ)
        → IsSpan span → from.now ≡ span_spelling span ++ rest → ⊥)) }
{
    let Some((lo, rest)) = split_field(from) else {
        return Ok(None);
    };
    let Some((hi, rest)) = split_field(rest) else {
        return Ok(None);
    };
    let Some(span) = Span::read(alloc, lo, hi)? else {
        return Ok(None);
    };
    Ok(Some((span, rest)))
}
