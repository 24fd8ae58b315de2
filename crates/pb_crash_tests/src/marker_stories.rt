// The two stories of a lent object, played by the machines over a bucket beside the marker world: the same answers, and after each
// event the world says of the object what the bucket has.
use super::machines::{OBJECT, answers, attach, create, release};
use pb_devices::Bucket;
use pb_keys::List;
use pb_marker_world::{Event, Lender, Outcome, World, WorldError};
use pb_markers::{Attach, Phase};
use pb_mem::MemBucket;
use std::alloc::{AllocError, Global};
use std::process::Abort;
use std::test::Fail;

#[derive(Drop)]
struct Story {
    world: World,
    bucket: MemBucket,
}

impl Story {
    /// One event of the world, behind the call that it stands for.
    fn goes(
        &mut self,
        rt: &impl Abort,
        alloc: Global,
        event: &Event,
        wanted: Outcome,
    ) -> Result<(), Fail> {
        let outcome = self.world.step(alloc, event)?;
        assert_eq!(rt; outcome, wanted, "{event:?}");
        self.agrees(rt)
    }

    fn agrees(&mut self, rt: &impl Abort) -> Result<(), Fail> {
        let there = self.bucket.size("obj/1/4")?.is_some();
        assert_eq!(rt; self.world.object_present(&OBJECT), there);
        Ok(())
    }
}

fn begin(alloc: Global) -> Story {
    Story {
        world: World::new(alloc),
        bucket: MemBucket::new(alloc, Vec::new(alloc)),
    }
}

fn first(alloc: Global) -> Result<List<usize>, AllocError> {
    let mut list = Vec::new(alloc);
    list.push(0)?;
    Ok(List::from_vec(list))
}

fn intends(store: u64, number: u64, lender: Option<Lender>) -> Event {
    Event::Intend {
        store,
        number,
        object: OBJECT,
        lender,
    }
}

// Store 1 makes the object and lends it, and store 2 puts its own marker.
fn is_lent(
    rt: &impl Abort,
    alloc: Global,
    story: &mut Story,
    attach: &mut Attach,
) -> Result<(), Fail> {
    let mut create = create();
    story.goes(rt, alloc, &intends(1, 4, None), Outcome::Entry(0))?;
    answers(rt, &mut create, &mut story.bucket, &[Phase::More])?;
    story.goes(rt, alloc, &Event::PutObject(0), Outcome::Done)?;
    answers(rt, &mut create, &mut story.bucket, &[Phase::Held])?;
    story.goes(rt, alloc, &Event::PutMarker(0), Outcome::Done)?;
    let entries = first(alloc)?;
    let lends = Event::Lend { store: 1, entries };
    story.goes(rt, alloc, &lends, Outcome::Handle(0))?;
    let lender = Some(Lender {
        handle: 0,
        place: 0,
    });
    story.goes(rt, alloc, &intends(2, 7, lender), Outcome::Entry(1))?;
    answers(rt, attach, &mut story.bucket, &[Phase::More])?;
    story.goes(rt, alloc, &Event::PutMarker(1), Outcome::Done)
}

// Store 1 lets go, and the marker of store 2 keeps the object.
fn is_left(rt: &impl Abort, alloc: Global, story: &mut Story) -> Result<(), Fail> {
    let mut release = release();
    answers(rt, &mut release, &mut story.bucket, &[Phase::More])?;
    story.goes(rt, alloc, &Event::DeleteMarker(0), Outcome::Done)?;
    answers(rt, &mut release, &mut story.bucket, &[Phase::Left])?;
    story.goes(rt, alloc, &Event::Count(0), Outcome::Any(true))
}

// Store 2 lets go, and the object goes.
fn is_freed(
    rt: &impl Abort,
    alloc: Global,
    story: &mut Story,
    attach: &Attach,
) -> Result<(), Fail> {
    let mut release = attach.release();
    answers(rt, &mut release, &mut story.bucket, &[Phase::More])?;
    story.goes(rt, alloc, &Event::DeleteMarker(1), Outcome::Done)?;
    answers(rt, &mut release, &mut story.bucket, &[Phase::More])?;
    story.goes(rt, alloc, &Event::Count(1), Outcome::Any(false))?;
    answers(rt, &mut release, &mut story.bucket, &[Phase::Freed])?;
    story.goes(rt, alloc, &Event::DeleteObject(1), Outcome::Done)?;
    story.goes(rt, alloc, &Event::Drop(1), Outcome::Done)
}

#[test]
fn a_lender_that_crashes_and_lets_go_is_found_gone(rt: HostRuntime) -> Result<(), Fail> {
    let alloc = rt.alloc();
    let mut story = begin(alloc);
    let mut attach = attach();
    is_lent(&rt, alloc, &mut story, &mut attach)?;
    let kept = first(alloc)?;
    let crash = Event::Crash { store: 1, kept };
    story.goes(&rt, alloc, &crash, Outcome::Done)?;
    is_left(&rt, alloc, &mut story)?;
    story.goes(&rt, alloc, &Event::Drop(0), Outcome::Done)?;
    answers(&rt, &mut attach, &mut story.bucket, &[Phase::Gone])?;
    story.goes(&rt, alloc, &Event::Check(1), Outcome::Present(false))?;
    is_freed(&rt, alloc, &mut story, &attach)?;
    assert!(rt; !story.world.object_present(&OBJECT));
    Ok(())
}

#[test]
fn an_open_handle_keeps_the_lender_from_letting_go(rt: HostRuntime) -> Result<(), Fail> {
    let alloc = rt.alloc();
    let mut story = begin(alloc);
    let mut attach = attach();
    is_lent(&rt, alloc, &mut story, &mut attach)?;
    answers(&rt, &mut attach, &mut story.bucket, &[Phase::Held])?;
    story.goes(&rt, alloc, &Event::Check(1), Outcome::Present(true))?;
    let early = story.world.step(alloc, &Event::DeleteMarker(0));
    assert_eq!(rt; early, Err(WorldError::NotNow));
    story.goes(&rt, alloc, &Event::DropHandle(0), Outcome::Done)?;
    is_left(&rt, alloc, &mut story)?;
    assert!(rt; story.world.held(1));
    Ok(())
}
