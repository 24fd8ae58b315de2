//! Scripts: the lines that a script spells, or the first line that is off the grammar.
#![tactic(auto)]

mod command;
mod commands;
mod cuts;
mod fault;
mod fields;
pub mod laws;
mod line;
mod lines;
mod numbered;
mod runs;
mod script;
mod sets;
mod spelling;
mod table_line;
mod table_lines;

pub use command::{Command, External, IngestExcise, Lend};
pub use fault::ParseError;
pub use line::{Lane, Line};
pub use numbered::Numbered;
pub use script::{parse, parse_numbered};
pub use table_line::TableLine;
