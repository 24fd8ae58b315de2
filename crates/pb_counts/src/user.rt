//! The users of a backing.

/// Who uses a backing. Ordered as they stand here, and those of a kind by their number.
#[derive(Clone, Copy, Debug, PartialEq, Eq, PartialOrd, Ord)]
pub enum User {
    /// The store's version.
    Version,
    /// The pin of this number.
    Pin(u64),
    /// The handle of this number.
    Handle(u64),
    /// The command that is under way in a lane: 0 for `fg`, 1 for `bg`.
    Job(u64),
}
