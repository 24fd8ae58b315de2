//! Tests of layers, of what a view shows of them and of how they lie over one another, a file for each subject, over what
//! their crates make public.
#![tactic(auto)]

#[cfg(test)]
mod deletions;
#[cfg(test)]
mod layering;
#[cfg(test)]
mod layers;
#[cfg(test)]
mod relations;
#[cfg(test)]
mod views;
