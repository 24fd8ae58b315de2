//! The machines that make a store's calls on shared objects: each call of a bucket is one step of the marker world, or, where it
//! failed, that step or none.
#![tactic(auto)]

mod attach;
mod create;
mod phase;
mod release;

pub use attach::Attach;
pub use create::Create;
pub use phase::Phase;
pub use release::Release;
