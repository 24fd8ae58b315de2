ghost use Rattle.std.specs.Prelude.{◌≡◌, [], map, replicate};

use pb_keys::View;
use std::alloc::Global;
use std::marker::Model;

/// A table: what a view shows of a backing. A physical table has bytes of its own, and its backing has its own number.
#[derive(Debug, Drop)]
pub struct Table {
    pub number: u64,
    /// Of tables of level 0 that overlap the one of the higher rank is newer.
    pub rank: u64,
    /// The number of the backing.
    pub backing: u64,
    /// The kept size of the backing, in bytes.
    pub size: u64,
    pub view: View,
    pub is_virtual: bool,
}

impl Model for Table {
    ghost use Rattle.pb_version.specs.Version.{TableView};

    ghost Value = { TableView };

    ghost view = { λ t. record { number = t.number; rank = t.rank; backing = t.backing; size = t.size; view = t.view; is_virtual = t.is_virtual } };
}

/// The tables of each level, 0 to 6.
pub(crate) type Levels = [Vec<Table>; 7];

/// No table on any level. It takes no memory.
pub(crate) fn no_tables(alloc: Global) -> Levels
    ensures { map (λ l. l.items) result ≡ replicate 7 [] }
{
    [
        Vec::new(alloc),
        Vec::new(alloc),
        Vec::new(alloc),
        Vec::new(alloc),
        Vec::new(alloc),
        Vec::new(alloc),
        Vec::new(alloc),
    ]
}
