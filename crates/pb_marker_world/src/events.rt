ghost use Rattle.std.specs.Prelude.{◌≡◌};
ghost use Rattle.pb_marker_world.specs.declared.events.WorldError.TheVariants.{NoMemory};

use pb_keys::List;
use pb_names::ObjectId;
use std::alloc::{AllocError, AllocFailed};
use std::error::Error;
use std::fmt;

/// A marker that a handle lends: the handle, and the marker's place in the handle's list. Both count from 0.
#[derive(Clone, Copy, Debug, PartialEq, Eq)]
pub struct Lender {
    pub handle: usize,
    pub place: usize,
}

/// What may happen in the world. An entry is named by its place, and a handle by its number: both count from 0
/// in the order in which they were made.
#[derive(Debug, Drop)]
pub enum Event {
    /// A store uses up a number for something that isn't shared.
    Spend {
        store: u64,
        number: u64,
    },
    /// A store notes that it is about to make an object of its own, or to use one that a handle lends.
    Intend {
        store: u64,
        number: u64,
        object: ObjectId,
        lender: Option<Lender>,
    },
    /// The creator puts the object.
    PutObject(usize),
    /// The store puts its own marker.
    PutMarker(usize),
    /// The store looks whether the lender's marker is still there.
    Check(usize),
    /// The store deletes its own marker.
    DeleteMarker(usize),
    /// The store counts the object's markers.
    Count(usize),
    /// The store deletes the object, of which it counted no marker.
    DeleteObject(usize),
    /// The entry goes. Its place stays empty.
    Drop(usize),
    /// A store lends the objects of these entries of its own.
    Lend {
        store: u64,
        entries: List<usize>,
    },
    /// A handle is given back.
    DropHandle(usize),
    /// A store is closed, is stopped or fails. It keeps these entries of its own, and all others are Loose.
    Crash {
        store: u64,
        kept: List<usize>,
    },
}

/// What an event answers.
#[derive(Clone, Copy, Debug, PartialEq, Eq)]
pub enum Outcome {
    Done,
    /// The place of the new entry.
    Entry(usize),
    /// The number of the new handle.
    Handle(usize),
    /// Whether the lender's marker was there.
    Present(bool),
    /// Whether a marker of the object was there.
    Any(bool),
}

/// Why nothing happened. The world is as before.
#[derive(Clone, Copy, Debug, PartialEq, Eq)]
pub enum WorldError {
    /// The event's condition doesn't hold, or the store was opened 2^64 - 1 times.
    NotNow,
    NoMemory,
}

impl fmt::Display for WorldError {
    fn fmt<W: fmt::Write>(&self, f: &mut fmt::Formatter<W>) -> fmt::Result {
        match self {
            WorldError::NotNow => write!(f, "this may not happen now"),
            WorldError::NoMemory => write!(f, "out of memory"),
        }
    }
}

impl Error for WorldError {}

impl From<AllocError> for WorldError {
    ghost from_gives = { λ _ e. e ≡ NoMemory };

    fn from(_e: AllocError) -> WorldError {
        WorldError::NoMemory
    }
}

impl<T: Drop> From<AllocFailed<T>> for WorldError {
    ghost from_gives = { λ _ e. e ≡ NoMemory };

    fn from(_e: AllocFailed<T>) -> WorldError {
        WorldError::NoMemory
    }
}
