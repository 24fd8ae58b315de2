ghost use Rattle.pb_edit.specs.Grammar.{virtual_content};
ghost use Rattle.pb_edit.specs.Reading.{virtual_kind};

use super::fields::{field_of, put_field_of, put_fields, read_fields};
use super::item::Item;
use super::read::{ReadError, bytes_of, level_of, number_of};
use pb_bytes::{put_field, put_varint};
use pb_keys::Bytes;
use std::alloc::{AllocError, Global};
use std::marker::Model;

/// A new table that shows the part of a backing between its ends, with a prefix before every key and a suffix in the place
/// of every key's own; both may be empty.
#[derive(Debug, Drop)]
pub struct Virtual {
    pub level: u8,
    pub number: u64,
    pub rank: u64,
    /// The number of the backing.
    pub backing: u64,
    pub lo: Bytes,
    pub hi: Bytes,
    pub prefix: Bytes,
    pub suffix: Bytes,
}

impl Model for Virtual {
    ghost use Rattle.pb_edit.specs.Edit.{VirtualItem};

    ghost Value = { VirtualItem };

    ghost view = { λ v. record { level = v.level; number = v.number; rank = v.rank; backing = v.backing; lo = v.lo; hi = v.hi; prefix = v.prefix; suffix = v.suffix } };
}

impl Item for Virtual {
    ghost form = { virtual_kind };

    ghost content = { virtual_content };

    fn kind() -> u8 {
        8
    }

    #[tactic(auto, unfolding(crate::specs::Reading::virtual_at))]
    fn read(alloc: Global, from: &[u8]) -> Result<(Self, &[u8]), ReadError> {
        read_fields!(
            Virtual {
                level,
                number,
                rank,
                backing,
                lo,
                hi,
                prefix,
                suffix
            },
            alloc,
            from
        )
    }

    fn is_below(&self, other: &Self) -> bool {
        self.level < other.level || (self.level == other.level && self.number < other.number)
    }

    fn put(&self, alloc: Global, out: &mut Vec<u8>) -> Result<(), AllocError> {
        put_fields!(
            self {
                level,
                number,
                rank,
                backing,
                lo,
                hi,
                prefix,
                suffix
            },
            alloc,
            out
        )
    }
}
