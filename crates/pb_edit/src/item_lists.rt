//! The lists of an edit. In an edit each ascends (docs/FORMATS.md, "Edits"); nothing here checks it.

use super::{Created, Deleted, Physical, Virtual};
use pb_keys::List;

/// The tables that leave their level.
pub type Deletions = List<Deleted>;

/// New tables with bytes of their own.
pub type Physicals = List<Physical>;

/// New tables that show parts of backings.
pub type Virtuals = List<Virtual>;

/// New backings.
pub type Backings = List<Created>;

/// The numbers of backings that go.
pub type Numbers = List<u64>;
