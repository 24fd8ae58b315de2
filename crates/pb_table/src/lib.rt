//! Tables: the bytes of a layer, written and read exactly.
#![tactic(auto)]

pub mod laws;
mod rows;
mod spans;
mod table;

pub use table::{NEW_TABLE_FORMAT, read_table, write_table};
