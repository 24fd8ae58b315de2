//! The family's machine: the state of its stores, what a line of a script does to it, and the reply that the line calls for.
#![tactic(auto)]

pub mod laws;
