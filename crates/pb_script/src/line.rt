use crate::{Command, TableLine};
use pb_keys::{Bytes, List};

/// The lane of a started command.
#[derive(Clone, Copy, Debug, PartialEq, Eq)]
pub enum Lane {
    /// The one in front, with no word.
    Fg,
    /// The one behind it: `bg`.
    Bg,
}

/// A line of a script. Stores are numbered from 1 for A to 8 for H.
#[derive(Debug, Drop)]
pub enum Line {
    /// `open A`
    Open(u64),
    /// `close A`
    Close(u64),
    /// `stop A`
    Stop(u64),
    /// `turn A` and `turn A bg`
    Turn {
        store: u64,
        lane: Lane,
    },
    /// `levels A`
    Levels(u64),
    /// `A`, then a command that runs to its end
    Whole {
        store: u64,
        command: Command,
    },
    /// `start A`, then a command that turns carry on
    Start {
        store: u64,
        command: Command,
    },
    /// `table t`, the lines of its block, and `end`
    Table {
        table: Bytes,
        lines: List<TableLine>,
    },
    /// `export t name`
    Export {
        table: Bytes,
        name: Bytes,
    },
    /// `drop h`
    DropHandle(Bytes),
    /// `get p k`
    GetAt {
        pin: Bytes,
        key: Bytes,
    },
    /// `unpin p`
    Unpin(Bytes),
    /// `objects`
    Objects,
    /// `calls`
    Calls,
}
