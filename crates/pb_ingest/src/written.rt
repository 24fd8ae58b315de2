use pb_keys::{List, Span};
use std::marker::Model;

/// A table whose bytes are written and that no version has yet.
#[derive(Debug, Drop)]
pub struct Written {
    pub number: u64,
    /// In bytes.
    pub size: u64,
    /// The hull of its layer.
    pub hull: Span,
    /// The level that was chosen before its bytes were written.
    pub level: u8,
}

impl Model for Written {
    ghost use Rattle.pb_ingest.specs.Planned.{WrittenTable};

    ghost Value = { WrittenTable };

    ghost view = { λ w. record { number = w.number; size = w.size; hull = w.hull; level = w.level } };
}

/// The tables of one ingest, in its order.
pub type WrittenTables = List<Written>;
