use pb_names::Name;

/// Why bytes were not read.
#[derive(Clone, Copy, Debug, PartialEq, Eq, thiserror::Error)]
pub enum ReadError {
    #[error("the disk failed")]
    Disk,
    #[error("the bucket failed")]
    Bucket,
    /// The object that the number's entry names isn't there.
    #[error("an object is missing")]
    Missing(Name),
}
