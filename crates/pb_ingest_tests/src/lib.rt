//! Tests of ingested tables: the level of each beside a plain program, the first hulls that overlap, and the edit.
#![tactic(auto)]

#[cfg(test)]
mod choices;
#[cfg(test)]
mod plain;
#[cfg(test)]
mod plans;
#[cfg(test)]
mod versions;
