// The trace of a run.
use pb_devices::{Mark, Trace};
use std::test::Fail;

fn mark(count: u64) -> Mark {
    Mark {
        refusal: 0,
        count,
        more: count == 2,
        down: [false; 8],
    }
}

#[test]
fn a_trace_keeps_the_marks_in_order(rt: HostRuntime) -> Result<(), Fail> {
    let mut trace = Trace::new(rt.alloc());
    trace.reserve(rt.alloc(), 2)?;
    trace.reserve(rt.alloc(), 1)?;
    trace.add(mark(1));
    trace.add(mark(2));
    let marks = trace.marks();
    assert_eq!(rt; marks.len(), 2);
    assert_eq!(rt; marks[0], mark(1));
    assert_eq!(rt; marks[1], mark(2));
    Ok(())
}
