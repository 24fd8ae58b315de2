// What a catalogue's file says to the store 1, by a plain list of entries.
use pb_catalog::{CatalogError, Entry};
use pb_gate_log::payloads;
use pb_keys::Bytes;
use pb_payloads::{CataloguePayload, read_catalogued};
use std::alloc::{AllocError, Global};

/// The entries that stand, or why none are told.
pub(crate) type Answer = Result<Vec<(u64, Entry)>, CatalogError>;

pub(crate) fn plain(alloc: Global, file: &[u8]) -> Result<Answer, AllocError> {
    let payloads = payloads(alloc, file)?;
    let [first, rest @ ..] = payloads.as_slice() else {
        return Ok(Err(CatalogError::Damaged));
    };
    match read_catalogued(first.as_slice()) {
        Some(CataloguePayload::Id(1)) => followed(alloc, rest),
        Some(CataloguePayload::Id(other)) => Ok(Err(CatalogError::WrongStore(other))),
        _ => Ok(Err(CatalogError::Damaged)),
    }
}

fn followed(alloc: Global, payloads: &[Bytes]) -> Result<Answer, AllocError> {
    let mut entries = Vec::new(alloc);
    for payload in payloads {
        if !follow(&mut entries, payload.as_slice())? {
            return Ok(Err(CatalogError::Damaged));
        }
    }
    Ok(Ok(entries))
}

fn follow(entries: &mut Vec<(u64, Entry)>, payload: &[u8]) -> Result<bool, AllocError> {
    match read_catalogued(payload) {
        Some(CataloguePayload::Entered { number, entry }) => enter(entries, number, entry),
        Some(CataloguePayload::Dropped(number)) => Ok(drop_one(entries, number)),
        _ => Ok(false),
    }
}

fn enter(entries: &mut Vec<(u64, Entry)>, number: u64, entry: Entry) -> Result<bool, AllocError> {
    if entries.iter().any(|standing| standing.0 == number) {
        return Ok(false);
    }
    entries.push((number, entry))?;
    Ok(true)
}

fn drop_one(entries: &mut Vec<(u64, Entry)>, number: u64) -> bool {
    let before = entries.len();
    entries.retain(|standing| standing.0 != number);
    entries.len() < before
}
