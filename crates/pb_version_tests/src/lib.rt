//! Tests of versions, over what pb_version makes public, and beside a plain program.
#![tactic(auto)]

#[cfg(test)]
mod beside;
#[cfg(test)]
mod drawn;
#[cfg(test)]
mod plain;
#[cfg(test)]
mod versions;
