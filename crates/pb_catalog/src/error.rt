/// Why a catalogue was not opened.
#[derive(Clone, Copy, Debug, PartialEq, Eq, thiserror::Error)]
pub enum CatalogError {
    #[error("the disk failed")]
    Disk,
    #[error("the catalogue is that of store {0}")]
    WrongStore(u64),
    #[error("the payloads say no catalogue")]
    Damaged,
    #[error("out of memory")]
    NoMemory,
}
