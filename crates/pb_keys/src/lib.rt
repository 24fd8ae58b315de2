//! Keys and spans: keys ordered by prefix and then suffix, and spans that hold them by their prefix.
#![tactic(auto)]

mod boxed;
mod bytes;
mod copies;
mod key;
pub mod laws;
mod list;
mod span;
mod view;

pub use boxed::Boxed;
pub use bytes::Bytes;
pub use copies::{Copies, copy_all};
pub use key::{Key, KeyError, MAX_KEY, MAX_VALUE};
pub use list::List;
pub use span::{MAX_END, Span, SpanError};
pub use view::View;
