use pb_names::Name;

/// Why the bytes of a number were not read whole.
#[derive(Clone, Copy, Debug, PartialEq, Eq, thiserror::Error)]
pub enum ReadWholeError {
    #[error("the disk failed")]
    Disk,
    #[error("the bucket failed")]
    Bucket,
    /// The object that the number's entry names isn't there.
    #[error("an object is missing")]
    Missing(Name),
    #[error("no memory")]
    NoMemory,
}
