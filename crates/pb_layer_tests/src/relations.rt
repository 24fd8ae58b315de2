use pb_keys::Span;
use pb_span_cases::{Ends, Rel, laws, minus, relation};
use std::alloc::Global;
use std::process::Abort;
use std::test::Fail;

const ENDS: [&[u8]; 5] = [b"a", b"b", b"ba", b"c", b"d"];

// A span by the places of its ends.
#[derive(Drop)]
struct Placed {
    lo: usize,
    hi: usize,
    span: Span,
}

fn all_spans(alloc: Global) -> Result<Vec<Placed>, Fail> {
    let mut spans = Vec::new(alloc);
    for lo in 0..5 {
        for hi in 0..5 {
            if lo < hi {
                let span = Span::new(alloc, ENDS[lo], ENDS[hi])?;
                spans.push(Placed { lo, hi, span })?;
            }
        }
    }
    Ok(spans)
}

// Each line of the table, over places, holds exactly where it is the answer.
fn compare_lines(rt: &impl Abort, answer: Rel, a: &Placed, b: &Placed) {
    for (holds, rel) in [
        (a.hi < b.lo, Rel::Before),
        (a.hi == b.lo, Rel::Meets),
        (b.hi < a.lo, Rel::After),
        (b.hi == a.lo, Rel::MetBy),
        ((a.lo == b.lo) & (a.hi == b.hi), Rel::Equal),
        ((a.lo == b.lo) & (a.hi < b.hi), Rel::Starts),
        ((b.lo < a.lo) & (a.hi < b.hi), Rel::During),
        ((b.lo < a.lo) & (a.hi == b.hi), Rel::Finishes),
        ((a.lo == b.lo) & (b.hi < a.hi), Rel::StartedBy),
        ((a.lo < b.lo) & (a.hi == b.hi), Rel::FinishedBy),
        ((a.lo < b.lo) & (b.lo < a.hi) & (a.hi < b.hi), Rel::Overlaps),
        (
            (b.lo < a.lo) & (a.lo < b.hi) & (b.hi < a.hi),
            Rel::OverlappedBy,
        ),
        ((a.lo < b.lo) & (b.hi < a.hi), Rel::Contains),
    ] {
        assert_eq!(rt; rel == answer, holds, "{rel:?} for {answer:?}");
    }
}

fn holds(ends: &Option<Ends>, key: &[u8]) -> bool {
    match ends {
        Some(ends) => ends.lo <= key && key < ends.hi,
        None => false,
    }
}

fn compare_keys(rt: &impl Abort, table: &Placed, cut: &Placed) {
    let (left, right) = minus(&table.span, &cut.span);
    for place in 0..5 {
        let in_table = (table.lo <= place) & (place < table.hi);
        let in_cut = (cut.lo <= place) & (place < cut.hi);
        let stays = holds(&left, ENDS[place]) | holds(&right, ENDS[place]);
        assert_eq!(rt; stays, in_table & !in_cut, "at {place}");
    }
}

// The parts that stay, as a plain program has them: the runs of places between two ends that the table has and the cut
// doesn't.
fn plain_parts(alloc: Global, table: &Placed, cut: &Placed) -> Result<Vec<Ends<'static>>, Fail> {
    let mut parts = Vec::new(alloc);
    let mut begin = None;
    for place in 0..5 {
        let in_table = (table.lo <= place) & (place < table.hi);
        let in_cut = (cut.lo <= place) & (place < cut.hi);
        match begin {
            None if in_table & !in_cut => begin = Some(ENDS[place]),
            Some(lo) if !in_table | in_cut => {
                let hi = ENDS[place];
                parts.push(Ends { lo, hi })?;
                begin = None;
            }
            _ => {}
        }
    }
    Ok(parts)
}

fn compare_parts(rt: &impl Abort, alloc: Global, table: &Placed, cut: &Placed) -> Result<(), Fail> {
    let (left, right) = minus(&table.span, &cut.span);
    let mut parts = Vec::new(alloc);
    if let Some(part) = left {
        parts.push(part)?;
    }
    if let Some(part) = right {
        parts.push(part)?;
    }
    let plain = plain_parts(alloc, table, cut)?;
    assert_eq!(rt; parts.len(), plain.len());
    for (part, other) in parts.iter().zip(plain.iter()) {
        assert!(rt; part.lo == other.lo && part.hi == other.hi);
    }
    Ok(())
}

#[test]
fn each_pair_over_five_ends_is_as_a_plain_program_has_it(rt: HostRuntime) -> Result<(), Fail> {
    let spans = all_spans(rt.alloc())?;
    assert_eq!(rt; spans.len(), 10);
    for table in &spans {
        for cut in &spans {
            compare_lines(&rt, relation(&table.span, &cut.span), table, cut);
            compare_keys(&rt, table, cut);
            compare_parts(&rt, rt.alloc(), table, cut)?;
        }
    }
    Ok(())
}

#[test]
fn a_cut_inside_leaves_both_sides(rt: HostRuntime) -> Result<(), Fail> {
    let table = Span::new(rt.alloc(), b"a", b"z")?;
    let cut = Span::new(rt.alloc(), b"k", b"l")?;
    let (left, right) = minus(&table, &cut);
    let left = left.ok_or("nothing in front")?;
    let right = right.ok_or("nothing behind")?;
    assert!(rt; left.lo == b"a".as_slice());
    assert!(rt; left.hi == b"k".as_slice());
    assert!(rt; right.lo == b"l".as_slice());
    assert!(rt; right.hi == b"z".as_slice());
    Ok(())
}

#[test]
fn the_laws_hold() {
    laws::exactly_one();
    laws::the_table();
    laws::remains_hold();
}
