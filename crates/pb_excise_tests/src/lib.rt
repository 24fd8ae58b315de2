//! Tests of excises, over what pb_excise makes public: worked ones, and a plain program that keeps a list of tables beside them.
#![tactic(auto)]

#[cfg(test)]
mod beside;
#[cfg(test)]
mod limits;
#[cfg(test)]
mod plain;
#[cfg(test)]
mod rows;
#[cfg(test)]
mod rules;
#[cfg(test)]
mod stores;
