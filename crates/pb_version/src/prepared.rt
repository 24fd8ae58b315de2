ghost use Rattle.std.specs.Prelude.{◌≡◌, ◌+◌, ◌≤◌, [], length, None, map, not, replicate, IfOk, IfErr, OnOk, vec_capacity};
ghost use Rattle.std.specs.List.{filter};
ghost use Rattle.pb_edit.specs.Grammar.{created_below};
ghost use Rattle.pb_version.specs.Version.{version_of};
ghost use Rattle.pb_version.specs.Edited.{all_placed, is_removed};
ghost use Rattle.pb_version.specs.Judged.{broken_against_old, counts_after, total, room_of, rooms_of, IsMadeReady};
ghost use Rattle.pb_version.specs.Rules.{first_broken, new_numbers, new_ranks};
ghost use Rattle.pb_version.specs.State.{IsVersion, IsSpellable, IsVerdict, Prepares};

use super::installed::is_touched;
use super::made::{
    copy_of_deleted, five_after, new_numbers, new_ranks, new_tables, shown_backings,
    without_removed,
};
use super::rules::{broken_against_new, broken_against_old, stay_counts};
use super::table::no_tables;
use super::{Broken, Five, Levels, Table};
use pb_edit::{Created, Deleted, Edit};
use std::alloc::{AllocError, Global};
use std::marker::Model;

/// All that an edit makes of a version, in memory, before anything changes: docs/MODEL.md, "Versions".
#[derive(Debug, Drop)]
pub struct Prepared {
    pub(crate) deleted: Vec<Deleted>,
    pub(crate) tables: Levels,
    pub(crate) backings: Vec<Created>,
    pub(crate) five: Five,
    /// Empty, carried for its capacity.
    pub(crate) next_tables: Levels,
    /// Empty, and stands in for the levels while their tables move.
    pub(crate) between: Levels,
}

impl Model for Prepared {
    ghost use Rattle.std.specs.Prelude.{◌≡◌, [], map, replicate, vec_capacity};
    ghost use Rattle.pb_version.specs.State.{PreparedEdit};

    ghost Value = { PreparedEdit };

    ghost view = { λ p. record {
      deleted = p.deleted.items;
      tables = map (λ l. l.items) p.tables;
      backings = p.backings.items;
      five = p.five;
      room = map (λ l. vec_capacity l) p.next_tables;
    } };

    ghost invariant = { λ p. map (λ l. l.items) p.next_tables ≡ replicate 7 [] };
}

/// Judges the rules on numbers and ranks, which need no tables.
fn judge_against_old(
    alloc: Global,
    levels: &Levels,
    backings: &[Created],
    five: &Five,
    edit: &Edit,
) -> Result<(), Broken>
    ensures ok { OnOk result (broken_against_old (map (λ l. l.items) levels.now) backings.now five.now.next edit.now (new_numbers edit.now) (new_ranks edit.now) ≡ None) }
    ensures broken { IfErr result (IsVerdict (broken_against_old (map (λ l. l.items) levels.now) backings.now five.now.next edit.now (new_numbers edit.now) (new_ranks edit.now))) }
{
    let numbers = new_numbers(alloc, edit)?;
    let ranks = new_ranks(alloc, edit)?;
    match broken_against_old(
        levels,
        backings,
        five.next,
        edit,
        numbers.as_slice(),
        ranks.as_slice(),
    ) {
        Some(rule) => Err(rule),
        None => Ok(()),
    }
}

/// An edit of a version with these tables, backings and numbers, made ready, or the first rule that it breaks.
pub(crate) fn judge_and_prepare(
    alloc: Global,
    levels: &Levels,
    backings: &[Created],
    old: &Five,
    edit: &Edit,
) -> Result<Prepared, Broken>
    requires version { IsVersion (version_of (map (λ l. l.items) levels.now) backings.now old.now) }
    requires spellable { IsSpellable edit.now }
    ensures ok { IfOk result (Prepares (version_of (map (λ l. l.items) levels.now) backings.now old.now) edit.now) }
    ensures broken { IfErr result (IsVerdict (first_broken (version_of (map (λ l. l.items) levels.now) backings.now old.now) edit.now)) }
{
    let five = five_after(old, edit);
    match judge_against_old(alloc, levels, backings, &five, edit) {
        Ok(()) => {}
        Err(broken) => return Err(broken),
    }
    let shown = shown_by(alloc, backings, edit)?;
    let new = match new_tables(alloc, shown.as_slice(), edit) {
        Ok(new) => new,
        Err(broken) => return Err(broken),
    };
    let after = backings_of(shown, edit);
    let stays = stay_counts(edit.deleted.as_slice(), levels);
    match broken_against_new(
        levels,
        backings,
        old,
        edit,
        &new,
        after.as_slice(),
        &five,
        &stays,
    ) {
        Some(rule) => Err(rule),
        None => {
            let ready = put_together(alloc, &stays, edit, new, after, five)?;
            Ok(ready)
        }
    }
}

fn shown_by(alloc: Global, backings: &[Created], edit: &Edit) -> Result<Vec<Created>, AllocError>
    ensures ok { IfOk result (λ shown. shown.items ≡ all_placed created_below edit.now.created backings.now) }
{
    shown_backings(alloc, backings, edit.created.as_slice())
}

/// The backings after the edit, of those that it shows.
fn backings_of(shown: Vec<Created>, edit: &Edit) -> Vec<Created>
    ensures { result.items ≡ filter (λ b. not (is_removed edit.now b.number)) shown.items }
{
    let mut after = shown;
    without_removed(&mut after, edit.removed.as_slice());
    after
}

/// Room for the tables of the level after the edit, of which so many stay, if the edit touches it.
fn room_for(
    alloc: Global,
    deleted: &[Deleted],
    level: u8,
    new: &[Table],
    stays: usize,
) -> Result<Vec<Table>, AllocError>
    requires { length new.now + stays ≤ 4096 }
    ensures items { IfOk result (λ room. room.items ≡ []) }
    ensures capacity { IfOk result (λ room. vec_capacity room ≡ room_of deleted.now level new.now stays) }
{
    if !is_touched(deleted, level, new) {
        return Ok(Vec::new(alloc));
    }
    let room = Vec::with_capacity(alloc, new.len() + stays)?;
    Ok(room)
}

fn room_for_each(
    alloc: Global,
    deleted: &[Deleted],
    new: &Levels,
    stays: &[usize; 7],
) -> Result<Levels, AllocError>
    requires { total (counts_after (map (λ l. l.items) new.now) stays.now) ≤ 4096 }
    ensures items { IfOk result (λ next. map (λ l. l.items) next ≡ replicate 7 []) }
    ensures capacity { IfOk result (λ next. map (λ l. vec_capacity l) next ≡ rooms_of deleted.now 0 (map (λ l. l.items) new.now) stays.now) }
{
    let [n0, n1, n2, n3, n4, n5, n6] = new;
    let [s0, s1, s2, s3, s4, s5, s6] = stays;
    let r0 = room_for(alloc, deleted, 0, n0.as_slice(), *s0)?;
    let r1 = room_for(alloc, deleted, 1, n1.as_slice(), *s1)?;
    let r2 = room_for(alloc, deleted, 2, n2.as_slice(), *s2)?;
    let r3 = room_for(alloc, deleted, 3, n3.as_slice(), *s3)?;
    let r4 = room_for(alloc, deleted, 4, n4.as_slice(), *s4)?;
    let r5 = room_for(alloc, deleted, 5, n5.as_slice(), *s5)?;
    let r6 = room_for(alloc, deleted, 6, n6.as_slice(), *s6)?;
    Ok([r0, r1, r2, r3, r4, r5, r6])
}

fn put_together(
    alloc: Global,
    stays: &[usize; 7],
    edit: &Edit,
    tables: Levels,
    backings: Vec<Created>,
    five: Five,
) -> Result<Prepared, AllocError>
    requires { total (counts_after (map (λ l. l.items) tables) stays.now) ≤ 4096 }
    ensures ok { IfOk result (IsMadeReady stays.now edit.now (map (λ l. l.items) tables) backings.items five) }
{
    let deleted = copy_of_deleted(alloc, edit.deleted.as_slice())?;
    let next_tables = room_for_each(alloc, edit.deleted.as_slice(), &tables, stays)?;
    Ok(Prepared {
        deleted,
        tables,
        backings,
        five,
        next_tables,
        between: no_tables(alloc),
    })
}
