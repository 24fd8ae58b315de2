//! What a folder stands for: the count and the map that the files of a store mean. Definitions and laws alone.
#![tactic(auto)]

pub mod laws;
