//! The count and the map of a folder, read off its files one after the other: slow, plain, and exactly what pb_folder defines.
//! It judges the folders that tests make.
#![tactic(auto)]

mod catalogue;
mod entered;
mod fault;
mod files;
mod log;
mod meaning;
mod pairs;
mod payloads;
mod places;
mod said;
mod shown;
mod standing;
mod tables;

pub use entered::Entered;
pub use fault::Fault;
pub use files::File;
pub use pairs::Pairs;
pub use said::{Said, said_by};
pub use standing::stands;

#[cfg(test)]
mod alike_tests;
#[cfg(test)]
mod carved_tests;
#[cfg(test)]
mod catalogue_tests;
#[cfg(test)]
mod shown_tests;
#[cfg(test)]
mod tests;
