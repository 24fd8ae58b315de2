// The machines of markers as tests drive them.
use pb_devices::Failed;
use pb_marker_world::Stage;
use pb_markers::{Attach, Create, Phase, Release};
use pb_mem::MemBucket;
use pb_names::{ObjectId, marker, marker_prefix, object};
use std::process::Abort;
use std::test::Fail;

/// The object 4 of store 1.
pub(crate) const OBJECT: ObjectId = ObjectId {
    creator: 1,
    number: 4,
};

/// A machine that is asked for its next call at any stage.
pub(crate) trait Machine {
    /// Makes the next call, if there is one to make.
    fn go(&mut self, bucket: &mut MemBucket) -> Result<Option<Phase>, Failed>;
}

impl Machine for Create {
    fn go(&mut self, bucket: &mut MemBucket) -> Result<Option<Phase>, Failed> {
        match self.stage() {
            Stage::Intended | Stage::Put => Ok(Some(self.next(bucket, &[1])?)),
            _ => Ok(None),
        }
    }
}

impl Machine for Attach {
    fn go(&mut self, bucket: &mut MemBucket) -> Result<Option<Phase>, Failed> {
        match self.stage() {
            Stage::Intended | Stage::Marked => Ok(Some(self.next(bucket, &[])?)),
            _ => Ok(None),
        }
    }
}

impl Machine for Release {
    fn go(&mut self, bucket: &mut MemBucket) -> Result<Option<Phase>, Failed> {
        match self.stage() {
            Stage::Loose | Stage::Bare | Stage::Counted => Ok(Some(self.next(bucket, &[])?)),
            _ => Ok(None),
        }
    }
}

/// Store 1 makes the object under the number 4.
pub(crate) fn create() -> Create {
    Create::new(object(&OBJECT), marker(&OBJECT, 1, 4))
}

/// Store 1 lets it go.
pub(crate) fn release() -> Release {
    Release::new(
        marker_prefix(&OBJECT),
        object(&OBJECT),
        marker(&OBJECT, 1, 4),
    )
}

/// Store 2 takes it under the number 7 by the marker of store 1.
pub(crate) fn attach() -> Attach {
    let prefix = marker_prefix(&OBJECT);
    let own = marker(&OBJECT, 2, 7);
    Attach::new(prefix, object(&OBJECT), own, marker(&OBJECT, 1, 4))
}

/// The next call, made again where it failed.
pub(crate) fn next<M: Machine>(
    machine: &mut M,
    bucket: &mut MemBucket,
) -> Result<Option<Phase>, Failed> {
    match machine.go(bucket) {
        Ok(answer) => Ok(answer),
        Err(_) => machine.go(bucket),
    }
}

/// The machine answers so, call by call.
pub(crate) fn answers<M: Machine>(
    rt: &impl Abort,
    machine: &mut M,
    bucket: &mut MemBucket,
    wanted: &[Phase],
) -> Result<(), Fail> {
    for phase in wanted {
        let answer = next(machine, bucket)?;
        assert_eq!(rt; answer, Some(*phase));
    }
    Ok(())
}
