//! What the payloads of a command log, of a catalogue and of the current pointer say; and the codec of the last two.
#![tactic(auto)]

mod decode;
mod encode;
mod entry;
mod kinds;
mod pointer;

pub use decode::read_catalogued;
pub use encode::put_catalogued;
pub use entry::{CataloguePayload, Entry};
pub use pointer::{last_pointer, read_pointer, spell_pointer};
