ghost use Rattle.pb_edit.specs.Grammar.{deleted_content};
ghost use Rattle.pb_edit.specs.Reading.{deleted_kind};

use super::fields::{field_of, put_field_of, put_fields, read_fields};
use super::item::Item;
use super::read::{ReadError, level_of, number_of};
use pb_bytes::put_varint;
use std::alloc::{AllocError, Global};
use std::marker::Model;

/// A table that leaves its level.
#[derive(Debug, Drop)]
pub struct Deleted {
    pub level: u8,
    pub number: u64,
}

impl Model for Deleted {
    ghost use Rattle.pb_edit.specs.Edit.{DeletedItem};

    ghost Value = { DeletedItem };

    ghost view = { λ d. record { level = d.level; number = d.number } };
}

impl Item for Deleted {
    ghost form = { deleted_kind };

    ghost content = { deleted_content };

    fn kind() -> u8 {
        6
    }

    #[tactic(auto, unfolding(crate::specs::Reading::deleted_at))]
    fn read(_alloc: Global, from: &[u8]) -> Result<(Self, &[u8]), ReadError> {
        read_fields!(Deleted { level, number }, _alloc, from)
    }

    fn is_below(&self, other: &Self) -> bool {
        self.level < other.level || (self.level == other.level && self.number < other.number)
    }

    fn put(&self, alloc: Global, out: &mut Vec<u8>) -> Result<(), AllocError> {
        put_fields!(self { level, number }, alloc, out)
    }
}
