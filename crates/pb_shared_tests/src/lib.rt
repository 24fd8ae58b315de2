//! Tests of the catalogue and of local tables over devices in memory: what an opening answers to each file, what each device
//! call that fails leaves, and where the bytes of a number are read.
#![tactic(auto)]

#[cfg(test)]
mod catalogues;
#[cfg(test)]
mod damages;
#[cfg(test)]
mod entering;
#[cfg(test)]
mod entries;
#[cfg(test)]
mod files;
#[cfg(test)]
mod places;
#[cfg(test)]
mod plain;
#[cfg(test)]
mod rows;
#[cfg(test)]
mod sizes;
#[cfg(test)]
mod sweep;
#[cfg(test)]
mod tables;
