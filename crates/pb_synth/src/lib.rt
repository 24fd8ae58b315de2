#![tactic(auto)]

mod behind;
mod clashes;
mod dels;
mod keys;
pub mod laws;
mod limits;
mod order;
mod parts;
mod rows;
mod shown;

pub use behind::wanted;
pub use clashes::clash;
pub use keys::map_key;
pub use limits::maps_within;
pub use parts::Wanted;
pub use shown::view_layer;
