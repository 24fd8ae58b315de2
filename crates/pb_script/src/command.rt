use pb_keys::{Boxed, Bytes, List};

/// What a line asks of one store. The commands of three words and more stand in blocks of their own, since a line is as
/// wide as the widest command in it.
#[derive(Debug, Drop)]
pub enum Command {
    /// `set k v`
    Set { key: Bytes, value: Bytes },
    /// `del k`
    Del(Bytes),
    /// `delrange a b`
    DelRange { lo: Bytes, hi: Bytes },
    /// `get k`
    Get(Bytes),
    /// `scan a b`
    Scan { lo: Bytes, hi: Bytes },
    /// `flush`
    Flush,
    /// `compact L a b`, where the level is 0 to 5
    Compact { level: u8, lo: Bytes, hi: Bytes },
    /// `release`
    Release,
    /// `ingest t..`, one or more tables
    Ingest(List<Bytes>),
    /// `excise a b`
    Excise { lo: Bytes, hi: Bytes },
    IngestExcise(Boxed<IngestExcise>),
    External(Boxed<External>),
    Lend(Boxed<Lend>),
    /// `receive h`
    Receive(Bytes),
    /// `pin as p`
    Pin(Bytes),
}

/// `ingestexcise a b t..`, one or more tables
#[derive(Debug, Drop)]
pub struct IngestExcise {
    pub lo: Bytes,
    pub hi: Bytes,
    pub tables: List<Bytes>,
}

/// `external name a b`, then perhaps `prefix=p`, then perhaps `suffix=s`
#[derive(Debug, Drop)]
pub struct External {
    pub name: Bytes,
    pub lo: Bytes,
    pub hi: Bytes,
    pub prefix: Option<Bytes>,
    pub suffix: Option<Bytes>,
}

/// `lend a b as h`
#[derive(Debug, Drop)]
pub struct Lend {
    pub lo: Bytes,
    pub hi: Bytes,
    pub handle: Bytes,
}
