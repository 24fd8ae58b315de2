use pb_keys::Bytes;

/// A line of a table's block.
#[derive(Debug, Drop)]
pub enum TableLine {
    /// `set k v`
    Set { key: Bytes, value: Bytes },
    /// `del k`
    Del(Bytes),
    /// `delrange a b`
    DelRange { lo: Bytes, hi: Bytes },
}
