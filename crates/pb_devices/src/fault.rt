/// A call of a device failed. The device's count of faults has risen.
#[derive(Clone, Copy, Debug, PartialEq, Eq)]
pub struct Failed;

/// Why a list of names wasn't given: the device failed, or there was no memory for the names.
#[derive(Clone, Copy, Debug, PartialEq, Eq)]
pub enum ListError {
    Failed,
    NoMemory,
}

/// Why a call over several devices ended: the disk failed, the bucket failed, or there was no memory.
#[derive(Clone, Copy, Debug, PartialEq, Eq)]
pub enum Fault {
    Disk,
    Bucket,
    NoMemory,
}
