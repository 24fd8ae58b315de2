use std::marker::Model;

/// The five numbers of a version.
#[derive(Clone, Copy, Debug, PartialEq, Eq)]
pub struct Five {
    /// The count of accepted commands.
    pub accepted: u64,
    /// The end of the reserved numbers: those below it are reserved.
    pub next: u64,
    /// The number of the log.
    pub log: u64,
    /// The count of the last command that is in tables alone.
    pub flushed: u64,
    /// The level of the format, 0 before the first edit.
    pub format: u64,
}

impl Model for Five {
    ghost use Rattle.pb_version.specs.Version.{FiveNumbers};

    ghost Value = { FiveNumbers };

    ghost view = { λ f. record { accepted = f.accepted; next = f.next; log = f.log; flushed = f.flushed; format = f.format } };

    ghost inverse = { λ f. record { accepted = f.accepted; next = f.next; log = f.log; flushed = f.flushed; format = f.format } };
}
