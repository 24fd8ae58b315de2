//! What a store lends of a span: tables as they are, and everything newer as one layer.
#![tactic(auto)]

pub mod laws;
