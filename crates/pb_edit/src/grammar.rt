/// The last level: bytes with a later one are no edit.
pub const LAST_LEVEL: u8 = 6;
