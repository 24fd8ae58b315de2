//! A key's value in a store: the memtable, then the tables, newest first, up to the first that decides.
#![tactic(auto)]

mod fault;
pub mod laws;
mod look_up;
mod table;

pub use fault::ReadFault;
pub use look_up::get;
