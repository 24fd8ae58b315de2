use crate::{LevelRows, Pairs, Refusal, Text, Texts};

/// What a line of a script is answered.
#[derive(Debug, Drop)]
pub enum Reply {
    /// The store is open, with this count of accepted commands.
    Opened(u64),
    Closed,
    Stopped,
    /// A command was accepted, as the one of this count.
    Accepted(u64),
    /// The value of the key.
    Value(Text),
    /// The key has no value.
    Absent,
    /// What a scan found.
    Rows(Pairs),
    /// A flush, a compaction or a release has ended.
    Done,
    /// The table of this name is defined.
    Table(Text),
    Exported,
    /// The handle of this name stands.
    Lent(Text),
    /// The handle is gone.
    Dropped,
    /// The pin of this name stands.
    Pinned(Text),
    Unpinned,
    Started,
    /// A turn has ended, and the job goes on.
    Working,
    /// The release of one object has ended.
    Released,
    /// The tables of the store.
    Levels(LevelRows),
    /// The names of the objects, ascending.
    Objects(Texts),
    /// The bucket calls of this run.
    Calls(u64),
    Refused(Refusal),
}
