use super::*;
use crate::script::MAX_SCRIPT;
use pb_mem::{MemBucket, MemDisk, MemSink, MemSource};
use std::alloc::AllocError;
use std::test::Fail;

/// What a run over memory devices came to.
#[derive(Drop)]
struct Outcome {
    status: Status,
    printed: Vec<u8>,
    trace: Trace,
}

fn empty_disks(alloc: Global) -> [MemDisk; 8] {
    [
        MemDisk::new(alloc, Vec::new(alloc), 0),
        MemDisk::new(alloc, Vec::new(alloc), 0),
        MemDisk::new(alloc, Vec::new(alloc), 0),
        MemDisk::new(alloc, Vec::new(alloc), 0),
        MemDisk::new(alloc, Vec::new(alloc), 0),
        MemDisk::new(alloc, Vec::new(alloc), 0),
        MemDisk::new(alloc, Vec::new(alloc), 0),
        MemDisk::new(alloc, Vec::new(alloc), 0),
    ]
}

fn run_over_memory(
    alloc: Global,
    words: &[&str],
    script: &[u8],
    fail_read: u64,
    fail_write: u64,
) -> Result<Outcome, Fail> {
    let mut owned = Vec::new(alloc);
    for word in words {
        owned.push(String::from_str(alloc, word)?)?;
    }
    let mut source = MemSource::new(script.to_vec(alloc)?, [fail_read].to_vec(alloc)?);
    let mut sink = MemSink::new(alloc, [fail_write].to_vec(alloc)?);
    let mut trace = Trace::new(alloc);
    let status = run(
        alloc,
        &owned,
        &mut source,
        &mut sink,
        &mut empty_disks(alloc),
        &mut MemBucket::new(alloc, Vec::new(alloc)),
        &mut trace,
    );
    Ok(Outcome {
        status,
        printed: sink.taken().to_vec(alloc)?,
        trace,
    })
}

fn line_feeds(alloc: Global, len: usize) -> Result<Vec<u8>, AllocError> {
    vec![in alloc; b'\n'; len]
}

const FIRST: &[u8] = b"open A\nA set a 1\nA get a\n";

#[test]
fn scripts_get_their_replies(rt: HostRuntime) -> Result<(), Fail> {
    let rows: [(&[u8], &[u8], Status); 14] = [
        (FIRST, b"opened 0\nok 1\nvalue 1\n", Status::Success),
        (b"", b"", Status::Success),
        (b"open A", b"opened 0\n", Status::Success),
        (
            b"open A\nA set a 1\nA set a 2\nA get a\nA get b\nopen A\n",
            b"opened 0\nok 1\nok 2\nvalue 2\nnone\nrefused 3 AlreadyOpen\n",
            Status::Refused,
        ),
        (
            b"A get a\nA set a 1\n",
            b"refused 2 NotOpen\nrefused 2 NotOpen\n",
            Status::Refused,
        ),
        (b"open A\nA sat a 1\n", b"fault line 2\n", Status::Script),
        (b"open B\n", b"fault line 1\n", Status::Script),
        (b"open A\n\n", b"opened 0\n", Status::Success),
        (b"# \xff\n open  A \r\n", b"opened 0\n", Status::Success),
        (b"open A\nA get a \n", b"opened 0\nnone\n", Status::Success),
        (b"open A\r\nA get \x7f\n", b"fault line 2\n", Status::Script),
        (b"open A\nA get a@9\n", b"fault line 2\n", Status::Script),
        (b"open A\nA get %\n", b"fault line 2\n", Status::Script),
        (b"\ntable t\nend\nx", b"fault line 2\n", Status::Script),
    ];
    for (script, printed, status) in rows {
        let got = run_over_memory(rt.alloc(), &["run"], script, 0, 0)?;
        assert_eq!(rt; got.status, status, "at {script:?}");
        assert_eq!(rt; got.printed.as_slice(), printed, "at {script:?}");
    }
    Ok(())
}

#[test]
fn memory_is_not_always_wanted(rt: HostRuntime) -> Result<(), Fail> {
    let got = run_over_memory(rt.alloc(), &["run"], FIRST, 0, 0)?;
    assert_eq!(rt; got.status, Status::Success);
    let marks = got.trace.marks();
    assert_eq!(rt; marks.len(), 3);
    assert_eq!(rt; marks[0].count, 0);
    assert_eq!(rt; marks[1].count, 1);
    assert_eq!(rt; marks[2].refusal, 0);
    Ok(())
}

#[test]
fn words_of_1_to_48_bytes_are_words(rt: HostRuntime) -> Result<(), Fail> {
    for (len, status) in [
        (1, Status::Success),
        (48, Status::Success),
        (49, Status::Script),
    ] {
        let mut script = b"open A\nA set ".to_vec(rt.alloc())?;
        for _ in 0..len {
            script.push(b'k')?;
        }
        script.extend_from_slice(b" _-9z\n")?;
        let got = run_over_memory(rt.alloc(), &["run"], &script, 0, 0)?;
        assert_eq!(rt; got.status, status, "at {len}");
    }
    Ok(())
}

#[test]
fn a_script_of_16_mib_is_not_too_long(rt: HostRuntime) -> Result<(), Fail> {
    let longest = line_feeds(rt.alloc(), MAX_SCRIPT)?;
    let got = run_over_memory(rt.alloc(), &["run"], &longest, 0, 0)?;
    assert_eq!(rt; got.status, Status::Success);
    assert_eq!(rt; got.printed.len(), 0);
    let longer = line_feeds(rt.alloc(), MAX_SCRIPT + 1)?;
    let got = run_over_memory(rt.alloc(), &["run"], &longer, 0, 0)?;
    assert_eq!(rt; got.status, Status::TooLong);
    assert_eq!(rt; got.printed.as_slice(), b"too long\n".as_slice());
    Ok(())
}

#[test]
fn other_words_get_the_usage(rt: HostRuntime) -> Result<(), Fail> {
    let rows: [&[&str]; 9] = [
        &[],
        &["run", "x"],
        &["run", "-h"],
        &["help"],
        &["help", "run"],
        &["gen", "5"],
        &["gen", "1", "-1"],
        &["--help"],
        &["Run"],
    ];
    for words in rows {
        let got = run_over_memory(rt.alloc(), words, FIRST, 0, 0)?;
        assert_eq!(rt; got.status, Status::Usage);
        assert_eq!(rt; got.printed.as_slice(), USAGE);
        assert_eq!(rt; got.trace.marks().len(), 0);
    }
    Ok(())
}

#[test]
fn a_failing_write_ends_the_run(rt: HostRuntime) -> Result<(), Fail> {
    let got = run_over_memory(rt.alloc(), &["run"], FIRST, 0, 2)?;
    assert_eq!(rt; got.status, Status::Write);
    assert_eq!(rt; got.printed.as_slice(), b"opened 0\n".as_slice());
    assert_eq!(rt;
        got.trace.marks().len(),
        2,
        "the mark comes before the reply"
    );
    let got = run_over_memory(rt.alloc(), &["run"], b"x", 0, 1)?;
    assert_eq!(rt; got.status, Status::Script, "the text explains the status");
    Ok(())
}

#[test]
fn a_failing_read_runs_no_line(rt: HostRuntime) -> Result<(), Fail> {
    for call in [1, 2] {
        let got = run_over_memory(rt.alloc(), &["run"], FIRST, call, 0)?;
        assert_eq!(rt; got.status, Status::Read);
        assert_eq!(rt; got.printed.len(), 0);
        assert_eq!(rt; got.trace.marks().len(), 0);
    }
    Ok(())
}
