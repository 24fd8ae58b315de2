//! Tests of edits, tables, log entries and memtables, a file for each, over what their crates make public.
#![tactic(auto)]

#[cfg(test)]
mod edits;
#[cfg(test)]
mod log_entries;
#[cfg(test)]
mod memtables;
#[cfg(test)]
mod tables;
