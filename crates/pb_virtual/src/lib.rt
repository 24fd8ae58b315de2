//! Virtual tables: what the bytes of a table mean through its view, wherever they are read.
#![tactic(auto)]

mod bounds;
mod virtual_table;

pub use virtual_table::VirtualTable;
