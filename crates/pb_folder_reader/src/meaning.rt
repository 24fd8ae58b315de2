ghost use Rattle.std.specs.Prelude.{◌≡◌, ℕ, map, IfOk, OnOk};
ghost use Rattle.std.specs.FinMap.{empty};
ghost use Rattle.pb_folder.specs.Meaning.{after_log, said_count};
ghost use Rattle.pb_payloads.specs.Log.{last_count};
ghost use Rattle.pb_rows.specs.Applied.{applied, applied_newest_first, with_rows, with_value};
ghost use Rattle.pb_rows.specs.Changing.{after};
ghost use Rattle.pb_rows.specs.Layer.{KeyLayer};
ghost use Rattle.pb_wal.specs.Changes.{changing_of, entry_of};

use super::shown::Shown;
use super::{Pairs, Said};
use pb_rows::Row;
use pb_wal::{Change, Entry};
use std::alloc::{AllocError, Global};

/// The greater of the version's count and the last one in the log.
pub(crate) fn count_of(said: &Said) -> u64
    ensures { result ≡ said_count said.now }
{
    let five = said.version.five();
    let last = last_count(five.flushed, &said.log);
    five.accepted.max(last)
}

fn last_count(flushed: u64, log: &[Entry]) -> u64
    ensures { result ≡ last_count flushed (map entry_of log.now) }
{
    let mut last = flushed;
    for entry in log {
        last = entry.count;
    }
    last
}

/// The map of layers, of which the first is the newest.
pub(crate) fn map_of(alloc: Global, layers: &[Shown]) -> Result<Pairs, AllocError>
    ensures { IfOk result (λ pairs. pairs ≡ applied_newest_first layers.now empty) }
{
    let mut pairs = Pairs::new(alloc);
    let mut at = layers.len();
    while at > 0 {
        at -= 1;
        apply(alloc, &mut pairs, &layers[at])?;
    }
    Ok(pairs)
}

fn apply(alloc: Global, pairs: &mut Pairs, layer: &Shown) -> Result<(), AllocError>
    ensures { OnOk result (pairs.new ≡ applied layer.now pairs.old) }
{
    pairs.del_ranges(&layer.dels);
    put_rows(alloc, pairs, &layer.rows)?;
    Ok(())
}

fn put_rows(alloc: Global, pairs: &mut Pairs, rows: &[Row]) -> Result<(), AllocError>
    ensures { OnOk result (pairs.new ≡ with_rows pairs.old rows.now) }
{
    let mut at = rows.len();
    while at > 0 {
        at -= 1;
        put_row(alloc, pairs, &rows[at])?;
    }
    Ok(())
}

fn put_row(alloc: Global, pairs: &mut Pairs, row: &Row) -> Result<(), AllocError>
    ensures { OnOk result (pairs.new ≡ with_value pairs.old row.now.key row.now.value) }
{
    let Some(value) = &row.value else {
        pairs.del(&row.key);
        return Ok(());
    };
    let key = row.key.copy(alloc)?;
    let value = value.copy(alloc)?;
    pairs.set(key, value)?;
    Ok(())
}

/// The commands of a log, done in turn.
pub(crate) fn apply_log(alloc: Global, pairs: &mut Pairs, log: &[Entry]) -> Result<(), AllocError>
    ensures { (layers : ℕ → KeyLayer) → OnOk result (pairs.new ≡ after_log layers pairs.old (map entry_of log.now)) }
{
    for entry in log {
        apply_change(alloc, pairs, &entry.change)?;
    }
    Ok(())
}

fn apply_change(alloc: Global, pairs: &mut Pairs, change: &Change) -> Result<(), AllocError>
    ensures { OnOk result (pairs.new ≡ after pairs.old (changing_of change.now)) }
{
    match change {
        Change::Set(key, value) => {
            let key = key.copy(alloc)?;
            let value = value.copy(alloc)?;
            pairs.set(key, value)?;
            Ok(())
        }
        Change::Del(key) => {
            pairs.del(key);
            Ok(())
        }
        Change::DelRange(span) => {
            pairs.del_range(span);
            Ok(())
        }
    }
}
