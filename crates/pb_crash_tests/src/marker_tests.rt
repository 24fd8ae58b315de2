// The rows of the machines: which calls they make, what they answer, and what stands in the bucket then. Each call fails once,
// at an odd number, where nothing happens, and at an even one, where it happens; then the machine makes it again.
ghost use Rattle.std.specs.Prelude.{◌≡◌, true, IfOk, OnOk};
ghost use Rattle.pb_marker_world.specs.Bucket.{shown_names};
ghost use Rattle.pb_markers.specs.declared.phase.Phase.TheVariants as phase;

use super::machines::{OBJECT, answers, attach, create, release};
use super::made;
use pb_devices::{Bucket, Failed};
use pb_markers::Phase;
use pb_mem::MemBucket;
use std::alloc::Global;
use std::process::Abort;
use std::test::Fail;

fn puts(bucket: &mut MemBucket, name: &str) -> Result<(), Failed> {
    match bucket.put(name, &[]) {
        Ok(()) => Ok(()),
        Err(_) => bucket.put(name, &[]),
    }
}

fn stands(
    rt: &impl Abort,
    alloc: Global,
    bucket: &mut MemBucket,
    wanted: &[&str],
) -> Result<(), Fail> {
    let names = match bucket.list(alloc, "obj/") {
        Ok(names) => names,
        Err(_) => bucket.list(alloc, "obj/")?,
    };
    assert_eq!(rt; names.len(), wanted.len());
    for (at, name) in names.iter().enumerate() {
        assert_eq!(rt; Some(name.as_str()), wanted.get(at).copied());
    }
    Ok(())
}

/// A bucket of which the call of this number fails, counted from 1 behind so many that find nothing; none fails for 0.
fn bucket(alloc: Global, before: u64, fail: u64) -> Result<MemBucket, Fail> {
    let mut numbers = Vec::new(alloc);
    if fail > 0 {
        numbers.push(before.saturating_add(fail))?;
    }
    let mut bucket = MemBucket::new(alloc, numbers);
    for _ in 0..before {
        let _ = bucket.count("obj/")?;
    }
    Ok(bucket)
}

fn created(rt: &impl Abort, bucket: &mut MemBucket) -> Result<(), Fail> {
    answers(rt, &mut create(), bucket, &[Phase::More, Phase::Held])
}

// An object is made, held and let go.
fn is_freed(rt: &impl Abort, alloc: Global, bucket: &mut MemBucket) -> Result<(), Fail> {
    created(rt, bucket)?;
    stands(rt, alloc, bucket, &["obj/1/4", "obj/1/4.ref.1.4"])?;
    let freed = [Phase::More, Phase::More, Phase::Freed];
    answers(rt, &mut release(), bucket, &freed)?;
    stands(rt, alloc, bucket, &[])
}

// Another store's marker stands as it is let go.
fn is_left(rt: &impl Abort, alloc: Global, bucket: &mut MemBucket) -> Result<(), Fail> {
    created(rt, bucket)?;
    let mut release = release();
    answers(rt, &mut release, bucket, &[Phase::More])?;
    puts(bucket, "obj/1/4.ref.2.9")?;
    answers(rt, &mut release, bucket, &[Phase::Left])?;
    stands(rt, alloc, bucket, &["obj/1/4", "obj/1/4.ref.2.9"])
}

// A marker of an object whose number begins alike is another's.
fn is_freed_beside_another(
    rt: &impl Abort,
    alloc: Global,
    bucket: &mut MemBucket,
) -> Result<(), Fail> {
    created(rt, bucket)?;
    puts(bucket, "obj/1/40.ref.1.4")?;
    let freed = [Phase::More, Phase::More, Phase::Freed];
    answers(rt, &mut release(), bucket, &freed)?;
    stands(rt, alloc, bucket, &["obj/1/40.ref.1.4"])
}

// The lender's marker has gone, so what was attached is let go again.
fn is_gone(rt: &impl Abort, alloc: Global, bucket: &mut MemBucket) -> Result<(), Fail> {
    let mut attach = attach();
    answers(rt, &mut attach, bucket, &[Phase::More, Phase::Gone])?;
    stands(rt, alloc, bucket, &["obj/1/4.ref.2.7"])?;
    let freed = [Phase::More, Phase::More, Phase::Freed];
    answers(rt, &mut attach.release(), bucket, &freed)?;
    stands(rt, alloc, bucket, &[])
}

// The lender's marker is there.
fn is_attached(rt: &impl Abort, alloc: Global, bucket: &mut MemBucket) -> Result<(), Fail> {
    created(rt, bucket)?;
    let mut attach = attach();
    answers(rt, &mut attach, bucket, &[Phase::More, Phase::Held])?;
    let left = [Phase::More, Phase::Left];
    answers(rt, &mut attach.release(), bucket, &left)?;
    stands(rt, alloc, bucket, &["obj/1/4", "obj/1/4.ref.1.4"])
}

/// Each row over a bucket of its own, of which the call of this number fails.
fn each_row(rt: &impl Abort, alloc: Global, before: u64, fail: u64) -> Result<(), Fail> {
    is_freed(rt, alloc, &mut bucket(alloc, before, fail)?)?;
    is_left(rt, alloc, &mut bucket(alloc, before, fail)?)?;
    is_freed_beside_another(rt, alloc, &mut bucket(alloc, before, fail)?)?;
    is_gone(rt, alloc, &mut bucket(alloc, before, fail)?)?;
    is_attached(rt, alloc, &mut bucket(alloc, before, fail)?)
}

#[test]
fn each_row_answers_so(rt: HostRuntime) -> Result<(), Fail> {
    each_row(&rt, rt.alloc(), 0, 0)
}

#[test]
fn a_call_that_failed_is_made_again(rt: HostRuntime) -> Result<(), Fail> {
    let alloc = rt.alloc();
    for before in 0..2 {
        for call in 1..10 {
            each_row(&rt, alloc, before, call)?;
        }
    }
    Ok(())
}

// From the contracts alone: both calls lead to Held, and a new bucket then shows the object and the marker.
fn shows_both(bucket: &mut MemBucket) -> Result<Phase, Failed>
    ensures held { IfOk result (λ answer. answer ≡ phase.Held) }
    ensures object { OnOk result ((shown_names bucket.new.objects).objects (record { creator = 1; number = 4 }) ≡ true) }
    ensures marker { OnOk result ((shown_names bucket.new.objects).markers
        (record { object = record { creator = 1; number = 4 }; store = 1; number = 4 }) ≡ true) }
{
    made(bucket, &OBJECT, 1, 4, &[1])
}

#[test]
fn an_object_that_is_made_is_shown(rt: HostRuntime) -> Result<(), Fail> {
    let alloc = rt.alloc();
    let mut bucket = MemBucket::new(alloc, Vec::new(alloc));
    let answer = shows_both(&mut bucket)?;
    assert_eq!(rt; answer, Phase::Held);
    stands(&rt, alloc, &mut bucket, &["obj/1/4", "obj/1/4.ref.1.4"])
}
