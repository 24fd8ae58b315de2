//! Varints, fields and big-endian numbers: one spelling each.
#![tactic(auto)]

mod big_endian;
mod field;
pub mod laws;
mod split;
mod varint;

pub use big_endian::{be32, be64, read_be32, read_be64};
pub use field::{put_field, read_field};
pub use split::{split_field, split_number, split_varint};
pub use varint::{NUMBERS, put_varint, read_varint};
