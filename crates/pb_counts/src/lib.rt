//! Who uses which bytes: the backings that a store knows, with the users of each.
#![tactic(auto)]

mod counts;
mod known;
pub mod laws;
mod pairs;
mod user;

pub use counts::Counts;
pub use user::User;
