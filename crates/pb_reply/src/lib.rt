//! Replies, refusals and statuses: the exact texts that a script gets back.
#![tactic(auto)]

mod level_row;
mod pair;
mod pieces;
mod printing;
mod refusal;
mod reply;
mod status;
mod text;

pub use level_row::{LevelRow, LevelRows};
pub use pair::{Pair, Pairs};
pub use printing::print;
pub use refusal::{REFUSAL_NAMES, Refusal};
pub use reply::Reply;
pub use status::{Status, status_of};
pub use text::{Text, Texts};
