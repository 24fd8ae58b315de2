ghost use Rattle.std.specs.Prelude.{◌≡◌, ◌≢◌, ◌≤◌, [], ◌∷◌, None, length, map, IfOk, IfErr, OnOk, OnErr};
ghost use Rattle.std.specs.List.{list_any};
ghost use Rattle.pb_edit.specs.Edit.{VersionEdit};
ghost use Rattle.pb_edit.specs.Grammar.{IsEdit};
ghost use Rattle.pb_keys.specs.Span.{overlap};
ghost use Rattle.pb_version.specs.Version.{empty_version, all_tables, flattened, tables_of_level, size_of};
ghost use Rattle.pb_version.specs.Edited.{edited};
ghost use Rattle.pb_version.specs.Rules.{first_broken};
ghost use Rattle.pb_version.specs.Snapshot.{snapshot_of};
ghost use Rattle.pb_version.specs.Fold.{FoldsTo};
ghost use Rattle.pb_version.specs.State.{IsVersion, IsSpellable, IsVerdict, Prepares};

use super::copies::copy_of_levels;
use super::installed::levels_after;
use super::made::copy_of_backings;
use super::prepared::{Prepared, judge_and_prepare};
use super::scans::{level_of, size_of};
use super::snapshot::edit_of;
use super::table::no_tables;
use super::{Broken, Five, Levels, Table};
use pb_edit::{Created, Edit};
use pb_keys::Span;
use std::alloc::{AllocError, Global};
use std::marker::Model;
use std::mem;

/// The tables of each level, the backings that virtual tables show, and five numbers. Contracts see a version as the record
/// of these: docs/MODEL.md, "Versions".
#[derive(Debug, Drop)]
pub struct Version {
    levels: Levels,
    backings: Vec<Created>,
    five: Five,
}

impl Model for Version {
    ghost use Rattle.std.specs.Prelude.{map};
    ghost use Rattle.pb_version.specs.Version.{VersionView, version_of};
    ghost use Rattle.pb_version.specs.State.{IsVersion};

    ghost Value = { VersionView };

    ghost view = { λ v. version_of (map (λ l. l.items) v.levels) v.backings.items v.five };

    ghost invariant = { λ v. IsVersion (version_of (map (λ l. l.items) v.levels) v.backings.items v.five) };
}

impl Version {
    /// The version before the first edit. It takes no memory.
    pub fn empty(alloc: Global) -> Version
        ensures { result ≡ empty_version }
    {
        Version {
            levels: no_tables(alloc),
            backings: Vec::new(alloc),
            five: Five {
                accepted: 0,
                next: 0,
                log: 0,
                flushed: 0,
                format: 0,
            },
        }
    }

    /// Makes an edit ready that breaks no rule of this version, or tells the first rule that it breaks. The version stays.
    pub fn prepare(&self, alloc: Global, edit: &Edit) -> Result<Prepared, Broken>
        requires { IsSpellable edit.now }
        ensures ok { IfOk result (Prepares self.now edit.now) }
        ensures broken { IfErr result (IsVerdict (first_broken self.now edit.now)) }
    {
        judge_and_prepare(
            alloc,
            &self.levels,
            self.backings.as_slice(),
            &self.five,
            edit,
        )
    }

    /// Puts what was made ready for an edit of this version in its place. It takes no memory.
    pub fn install(&mut self, prepared: Prepared)
        requires { (edit : VersionEdit) × Prepares self.old edit prepared }
        ensures { (edit : VersionEdit) → Prepares self.old edit prepared → self.new ≡ edited self.old edit }
    {
        let Prepared {
            deleted,
            tables,
            backings,
            five,
            next_tables,
            between,
        } = prepared;
        let standing = mem::replace(&mut self.levels, between);
        self.levels = levels_after(deleted.as_slice(), standing, tables, next_tables);
        self.backings = backings;
        self.five = five;
    }

    /// Applies an edit. With a rule broken, and without memory, nothing has changed.
    pub fn apply(&mut self, alloc: Global, edit: &Edit) -> Result<(), Broken>
        requires { IsSpellable edit.now }
        ensures ok { OnOk result (self.new ≡ edited self.old edit.now) }
        ensures unbroken { OnOk result (first_broken self.old edit.now ≡ None) }
        ensures broken { IfErr result (IsVerdict (first_broken self.old edit.now)) }
        ensures err { OnErr result (self.new ≡ self.old) }
    {
        let prepared = match self.prepare(alloc, edit) {
            Ok(prepared) => prepared,
            Err(broken) => return Err(broken),
        };
        self.install(prepared);
        Ok(())
    }

    /// The tables of a level, none where there is no such level. Those of level 0 stand by falling rank, and then by start;
    /// deeper ones by start.
    pub fn tables(&self, level: u8) -> &[Table]
        ensures value { result.now ≡ tables_of_level self.now level }
        ensures in_form { IsVersion self.now }
    {
        level_of(&self.levels, level)
    }

    /// How many tables stand on all levels.
    pub fn len(&self) -> usize
        ensures { result ≡ length (all_tables self.now) }
    {
        count_from(&self.levels)
    }

    /// Whether a table of the level overlaps the span. Spans that touch don't overlap.
    pub fn overlaps(&self, level: u8, span: &Span) -> bool
        ensures { result ≡ list_any (λ t. overlap t.view.bounds span.now) (tables_of_level self.now level) }
    {
        overlap_span(self.tables(level), span)
    }

    /// The five numbers, all 0 before the first edit.
    pub fn five(&self) -> Five
        ensures value { result ≡ self.now.five }
        ensures in_form { IsVersion self.now }
    {
        self.five
    }

    /// The size that is kept of a backing; None where the number is no backing's.
    pub fn backing(&self, number: u64) -> Option<u64>
        ensures { result ≡ size_of self.now.backings number }
    {
        size_of(self.backings.as_slice(), number)
    }

    /// The edit that makes this version anew, with all five numbers: its tables by number, and its backings. Before the first
    /// edit it would break V8. It is an edit of the grammar.
    pub fn snapshot(&self, alloc: Global) -> Result<Edit, AllocError>
        ensures ok { IfOk result (λ edit. edit ≡ snapshot_of self.now) }
        ensures folds { IfOk result (λ edit. self.now.five.format ≢ 0 → FoldsTo (edit ∷ []) self.now) }
        ensures spellable { IfOk result (λ edit. IsSpellable edit) }
        ensures in_form { IfOk result (λ edit. IsEdit edit) }
    {
        let edit = edit_of(alloc, &self.levels, self.backings.as_slice(), &self.five)?;
        Ok(edit)
    }

    /// Copies all tables and backings, where an edit moves them: it takes longer than an edit (bench/README.md).
    pub fn copy(&self, alloc: Global) -> Result<Version, AllocError>
        ensures ok { IfOk result (λ copy. copy ≡ self.now) }
    {
        let levels = copy_of_levels(alloc, &self.levels)?;
        let backings = copy_of_backings(alloc, self.backings.as_slice())?;
        Ok(Version {
            levels,
            backings,
            five: self.five,
        })
    }
}

/// How many tables these levels have.
fn count_from(levels: &[Vec<Table>]) -> usize
    requires { length (flattened (map (λ l. l.items) levels.now)) ≤ 4096 }
    ensures { result ≡ length (flattened (map (λ l. l.items) levels.now)) }
{
    match levels {
        [] => 0,
        [first, rest @ ..] => first.len() + count_from(rest),
    }
}

fn overlap_span(tables: &[Table], span: &Span) -> bool
    ensures { result ≡ list_any (λ t. overlap t.view.bounds span.now) tables.now }
{
    tables.iter().any(|t| t.view.bounds.overlaps(span))
}
