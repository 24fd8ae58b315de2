ghost use Rattle.std.specs.Prelude.{◌≡◌};

use crate::Text;
use std::marker::Model;

/// A table of a store, as `levels` lists it: its level, its number, its bounds, and the file that it reads.
#[derive(Debug, Drop)]
pub struct LevelRow {
    pub level: u8,
    pub number: u64,
    pub lo: Text,
    pub hi: Text,
    pub is_virtual: bool,
    pub backing: u64,
}

impl Model for LevelRow {
    ghost use Rattle.pb_reply.specs.LevelRow.{LevelRow as Seen};

    ghost Value = { Seen };

    ghost view = { λ table. record { level = table.level; number = table.number; lo = table.lo; hi = table.hi; is_virtual = table.is_virtual; backing = table.backing } };
}

/// The tables of a store, in the order in which `levels` lists them.
#[derive(Debug, Drop)]
pub struct LevelRows {
    tables: Vec<LevelRow>,
}

impl Model for LevelRows {
    ghost use Rattle.std.specs.Prelude.{List};
    ghost use Rattle.pb_reply.specs.LevelRow.{LevelRow as Seen};

    ghost Value = { List Seen };

    ghost view = { λ list. list.tables.items };
}

impl LevelRows {
    pub fn from_vec(tables: Vec<LevelRow>) -> LevelRows
        ensures { result ≡ tables.items }
    {
        LevelRows { tables }
    }

    pub fn into_vec(self) -> Vec<LevelRow>
        ensures { result.items ≡ self }
    {
        self.tables
    }

    pub fn as_slice(&self) -> &[LevelRow]
        ensures { result.now ≡ self.now }
    {
        self.tables.as_slice()
    }
}
