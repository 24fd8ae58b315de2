//! Tests of the lowest crates, a file for each subject, over what they make public. Those of layers stand in pb_layer_tests.
#![tactic(auto)]

#[cfg(test)]
mod bytes;
#[cfg(test)]
mod counts;
#[cfg(test)]
mod keys;
#[cfg(test)]
mod names;
#[cfg(test)]
mod payloads;
#[cfg(test)]
mod stopped;
#[cfg(test)]
mod trace;
#[cfg(test)]
mod worlds;
