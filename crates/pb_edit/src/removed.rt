ghost use Rattle.pb_edit.specs.Grammar.{removed_content};
ghost use Rattle.pb_edit.specs.Reading.{removed_kind};

use super::item::Item;
use super::read::{ReadError, number_of};
use pb_bytes::put_varint;
use std::alloc::{AllocError, Global};

/// The number of a backing that goes.
impl Item for u64 {
    ghost form = { removed_kind };

    ghost content = { removed_content };

    fn kind() -> u8 {
        10
    }

    fn read(_alloc: Global, from: &[u8]) -> Result<(u64, &[u8]), ReadError> {
        number_of(from)
    }

    fn is_below(&self, other: &u64) -> bool {
        *self < *other
    }

    fn put(&self, alloc: Global, out: &mut Vec<u8>) -> Result<(), AllocError> {
        put_varint(alloc, out, *self)
    }
}
