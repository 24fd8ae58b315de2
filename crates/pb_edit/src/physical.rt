ghost use Rattle.pb_edit.specs.Grammar.{physical_content};
ghost use Rattle.pb_edit.specs.Reading.{physical_kind};

use super::fields::{field_of, put_field_of, put_fields, read_fields};
use super::item::Item;
use super::read::{ReadError, bytes_of, level_of, number_of};
use pb_bytes::{put_field, put_varint};
use pb_keys::Bytes;
use std::alloc::{AllocError, Global};
use std::marker::Model;

/// A new table with bytes of its own: its number names them, and its ends are those of the keys that it shows.
#[derive(Debug, Drop)]
pub struct Physical {
    pub level: u8,
    pub number: u64,
    pub rank: u64,
    /// In bytes.
    pub size: u64,
    pub lo: Bytes,
    pub hi: Bytes,
}

impl Model for Physical {
    ghost use Rattle.pb_edit.specs.Edit.{PhysicalItem};

    ghost Value = { PhysicalItem };

    ghost view = { λ p. record { level = p.level; number = p.number; rank = p.rank; size = p.size; lo = p.lo; hi = p.hi } };
}

impl Item for Physical {
    ghost form = { physical_kind };

    ghost content = { physical_content };

    fn kind() -> u8 {
        7
    }

    #[tactic(auto, unfolding(crate::specs::Reading::physical_at))]
    fn read(alloc: Global, from: &[u8]) -> Result<(Self, &[u8]), ReadError> {
        read_fields!(
            Physical {
                level,
                number,
                rank,
                size,
                lo,
                hi
            },
            alloc,
            from
        )
    }

    fn is_below(&self, other: &Self) -> bool {
        self.level < other.level || (self.level == other.level && self.number < other.number)
    }

    fn put(&self, alloc: Global, out: &mut Vec<u8>) -> Result<(), AllocError> {
        put_fields!(
            self {
                level,
                number,
                rank,
                size,
                lo,
                hi
            },
            alloc,
            out
        )
    }
}
