//! Blocks: rows with rising keys in few bytes, which share the beginnings of neighbouring keys, and are found by halving.
#![tactic(auto)]

mod cursor;
mod entry;
mod follows;
mod key_room;
pub mod laws;
mod order;
mod reader;
mod scan;
mod seek;
mod spelling;
mod writer;

pub use cursor::BlockCursor;
pub use reader::BlockReader;
pub use writer::BlockWriter;
