//! Tests of blocks over what pb_block makes public, a file for each subject.
#![tactic(auto)]

#[cfg(test)]
mod blocks;
#[cfg(test)]
mod damaged_blocks;
#[cfg(test)]
mod large_blocks;
#[cfg(test)]
mod pairs;
#[cfg(test)]
mod seeks;
