//! One store: what each call on it owes, as records. Definitions and laws alone: no call stands yet.
#![tactic(auto)]

pub mod laws;
mod turn;

pub use turn::Turn;
