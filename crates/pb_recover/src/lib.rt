//! A folder opened to the parts of a store, whatever a crash or a stranger left in it, and what an opening may do to it.
#![tactic(auto)]

pub mod laws;
mod make_new;
mod open_error;
mod recovered;
mod sweep;

pub use recovered::Recovered;
