//! The names of files, objects and markers: one spelling each.
#![tactic(auto)]

mod external_object;
mod file_kind;
mod files;
pub mod laws;
mod name;
mod numbered_file;
mod object_id;
mod shared_object;

pub use external_object::{MAX_NAME_LEN, external, is_name};
pub use file_kind::FileKind;
pub use files::{current, file};
pub use name::Name;
pub use numbered_file::{NumberedFile, file_of};
pub use object_id::ObjectId;
pub use shared_object::{marker, marker_prefix, object};
