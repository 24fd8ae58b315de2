ghost use Rattle.pb_edit.specs.Grammar.{created_content};
ghost use Rattle.pb_edit.specs.Reading.{created_kind};

use super::fields::{field_of, put_field_of, put_fields, read_fields};
use super::item::Item;
use super::read::{ReadError, number_of};
use pb_bytes::put_varint;
use std::alloc::{AllocError, Global};
use std::marker::Model;

/// A new backing: bytes that virtual tables show.
#[derive(Debug, Drop)]
pub struct Created {
    pub number: u64,
    /// In bytes.
    pub size: u64,
}

impl Model for Created {
    ghost use Rattle.pb_edit.specs.Edit.{CreatedItem};

    ghost Value = { CreatedItem };

    ghost view = { λ c. record { number = c.number; size = c.size } };
}

impl Item for Created {
    ghost form = { created_kind };

    ghost content = { created_content };

    fn kind() -> u8 {
        9
    }

    #[tactic(auto, unfolding(crate::specs::Reading::created_at))]
    fn read(_alloc: Global, from: &[u8]) -> Result<(Self, &[u8]), ReadError> {
        read_fields!(Created { number, size }, _alloc, from)
    }

    fn is_below(&self, other: &Self) -> bool {
        self.number < other.number
    }

    fn put(&self, alloc: Global, out: &mut Vec<u8>) -> Result<(), AllocError> {
        put_fields!(self { number, size }, alloc, out)
    }
}
