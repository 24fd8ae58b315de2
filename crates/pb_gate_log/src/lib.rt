//! A gate log: a list of payloads in one file, each of them whole or absent after any crash.
#![tactic(auto)]

mod close;
mod decode;
mod gate_log;
mod opening;
mod reads;
mod writes;

pub use decode::payloads;
pub use gate_log::{AppendError, GateLog, MAX_PAYLOAD};
pub use opening::open_or_create;
