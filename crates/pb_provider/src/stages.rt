ghost use Rattle.std.specs.Prelude.{◌≡◌, ◌==◌, ◌++◌, ℕ, Some, IfOk, OnOk, option_map, slice_get};
ghost use Rattle.std.specs.List.{find, list_any};
ghost use Rattle.pb_payloads.specs.Catalogued.{Standing};
ghost use Rattle.pb_payloads.specs.Payloads.{standing_of};
ghost use Rattle.pb_provider.specs.Provider.{is_stored as is_stored_in, of_shared, stage_of, stages_of};
ghost use Rattle.pb_version.specs.Version.{all_tables, tables_of_level};

use pb_catalog::{Catalog, Entry};
use pb_edit::LAST_LEVEL;
use pb_marker_world::Stage;
use pb_version::{Table, Version};
use std::alloc::{AllocError, Global};

/// The stage of each shared entry when a store is opened, in the entries' order.
pub(crate) fn opening_stages(
    alloc: Global,
    catalog: &Catalog,
    version: &Version,
) -> Result<Vec<(u64, Stage)>, AllocError>
    ensures { IfOk result (λ stages. stages.items ≡ stages_of version.now catalog.now.entries) }
{
    let mut stages = Vec::new(alloc);
    for place in 0..catalog.len() {
        add_at(&mut stages, catalog, version, place)?;
    }
    Ok(stages)
}

// Adds the stage of the entry at a place, if it is a shared one.
fn add_at(
    stages: &mut Vec<(u64, Stage)>,
    catalog: &Catalog,
    version: &Version,
    place: usize,
) -> Result<(), AllocError>
    ensures { (found : ℕ × Standing) → slice_get catalog.now.entries place ≡ Some found
        → OnOk result (stages.new.items ≡ stages.old.items ++ of_shared found.1 (found.0, stage_of version.now found.0)) }
{
    match catalog.at(place) {
        Some((number, entry)) => add_stage(stages, version, number, &entry),
        None => Ok(()),
    }
}

fn add_stage(
    stages: &mut Vec<(u64, Stage)>,
    version: &Version,
    number: u64,
    entry: &Entry,
) -> Result<(), AllocError>
    ensures { OnOk result (stages.new.items ≡ stages.old.items ++ of_shared (standing_of entry.now) (number, stage_of version.now number)) }
{
    match entry {
        Entry::Shared(_) => {
            stages.push((number, opening_stage(version, number)))?;
            Ok(())
        }
        Entry::External(_) => Ok(()),
    }
}

fn opening_stage(version: &Version, number: u64) -> Stage
    ensures { result ≡ stage_of version.now number }
{
    if is_stored(version, number) {
        return Stage::Held;
    }
    Stage::Loose
}

/// Whether the version has bytes under the number.
pub fn is_stored(version: &Version, number: u64) -> bool
    ensures { result ≡ is_stored_in version.now number }
{
    if is_shown(version, number) {
        return true;
    }
    version.backing(number).is_some()
}

/// Whether a table of the version shows the number's bytes.
fn is_shown(version: &Version, number: u64) -> bool
    ensures { result ≡ list_any (λ t. t.backing == number) (all_tables version.now) }
{
    // So the proof knows that there are seven levels.
    let _five = version.five();
    for level in 0..=LAST_LEVEL {
        if is_shown_on(version.tables(level), number) {
            return true;
        }
    }
    false
}

fn is_shown_on(tables: &[Table], number: u64) -> bool
    ensures { result ≡ list_any (λ t. t.backing == number) tables.now }
{
    tables.iter().any(|t| t.backing == number)
}

/// The stage under a number, of the first that has it.
pub(crate) fn find_stage(stages: &[(u64, Stage)], number: u64) -> Option<Stage>
    ensures { result ≡ option_map (λ staged. staged.1) (find (λ staged. staged.0 == number) stages.now) }
{
    for staged in stages {
        if staged.0 == number {
            return Some(staged.1);
        }
    }
    None
}
