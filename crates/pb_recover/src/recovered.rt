use pb_gate_log::GateLog;
use pb_manifest::Manifest;
use pb_memtable::Memtable;
use pb_provider::Provider;
use pb_version::Version;
use std::marker::Model;

/// The parts of a store whose folder was opened: docs/MODEL.md, "The files of a store, and a folder opened again".
#[derive(Drop)]
pub struct Recovered {
    pub version: Version,
    pub manifest: Manifest,
    pub provider: Provider,
    pub log: GateLog,
    /// The commands of the log.
    pub memtable: Memtable,
    /// How many commands were accepted.
    pub accepted: u64,
}

impl Model for Recovered {
    ghost use Rattle.pb_recover.specs.Calls.{files_of};
    ghost use Rattle.pb_recover.specs.Codes.{files_code};
    ghost use Rattle.pb_recover.specs.Files.{StoreFiles};

    ghost Value = { StoreFiles };

    ghost coded = { files_code };

    ghost view = { λ r. files_of r.manifest r.version r.provider r.log r.memtable.changes r.accepted };
}
