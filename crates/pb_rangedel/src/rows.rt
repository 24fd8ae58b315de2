ghost use Rattle.std.specs.Prelude.{◌≡◌, ℕ, ◌++◌, List, All, IfOk, OnOk, IfSome, take, drop, option_copied};
ghost use Rattle.std.specs.List.{slice_get};
ghost use Rattle.pb_keys.specs.Key.{prefix_of};
ghost use Rattle.pb_keys.specs.Span.{IsSpan};
ghost use Rattle.pb_rangedel.specs.Merging.{hides_row, IsNext, step_for};
ghost use Rattle.pb_rangedel.specs.Spans.{EndUpto};
ghost use Rattle.pb_rows.specs.Layer.{KeyRow, AreApart, Rise};
ghost use Rattle.pb_rows.specs.Over.{rows_over, uncovered};
ghost use Rattle.pb_rows.specs.Verdict.{is_covered};

use pb_keys::{Key, Span};
use pb_rows::Row;
use std::alloc::{AllocError, Global};
use std::cmp::Ordering;
use std::collections::VecDeque;

/// What a merge does next.
#[derive(Clone, Copy)]
pub(crate) enum Step {
    /// Writes the newer row.
    Newer,
    /// Writes the older row.
    Older,
    /// Leaves the older row out.
    Skip,
}

/// The newer rows, and each older row whose key is neither in a span nor among the newer rows: one pass over the three
/// lists.
pub(crate) fn merge(
    alloc: Global,
    dels: &[Span],
    newer: &[Row],
    older: &[Row],
) -> Result<Vec<Row>, AllocError>
    requires in_form { All IsSpan dels.now }
    requires apart { AreApart dels.now }
    requires newer { Rise newer.now }
    requires older { Rise older.now }
    ensures ok { IfOk result (λ rows. rows.items ≡ rows_over newer.now (uncovered dels.now older.now)) }
{
    let mut out = Vec::new(alloc);
    let mut passed = 0;
    let mut new = 0;
    let mut old = 0;
    while let Some(step) = step_of(dels, &mut passed, newer.get(new), older.get(old)) {
        match step {
            Step::Newer => {
                let row = newer[new].copy(alloc)?;
                out.push(row)?;
                new += 1;
            }
            Step::Older => {
                let row = older[old].copy(alloc)?;
                out.push(row)?;
                old += 1;
            }
            Step::Skip => old += 1,
        }
    }
    Ok(out)
}

/// The same rows, which are moved and not copied.
pub(crate) fn merge_owned(
    alloc: Global,
    dels: &[Span],
    newer: Vec<Row>,
    older: Vec<Row>,
) -> Result<Vec<Row>, AllocError>
    requires in_form { All IsSpan dels.now }
    requires apart { AreApart dels.now }
    requires newer { Rise newer.items }
    requires older { Rise older.items }
    ensures ok { IfOk result (λ rows. rows.items ≡ rows_over newer.items (uncovered dels.now older.items)) }
{
    let mut out = Vec::with_capacity(alloc, newer.len() + older.len())?;
    let mut newer = VecDeque::from(newer);
    let mut older = VecDeque::from(older);
    let mut passed = 0;
    while let Some(step) = step_of(dels, &mut passed, newer.front(), older.front()) {
        match step {
            Step::Newer => move_first(&mut newer, &mut out)?,
            Step::Older => move_first(&mut older, &mut out)?,
            Step::Skip => drop_first(&mut older),
        }
    }
    Ok(out)
}

/// Moves the first row, if there is one, behind the others.
fn move_first(from: &mut VecDeque<Row>, out: &mut Vec<Row>) -> Result<(), AllocError>
    ensures out { OnOk result (out.new.items ≡ out.old.items ++ take 1 from.old.items) }
    ensures left { from.new.items ≡ drop 1 from.old.items }
{
    if let Some(row) = from.pop_front() {
        out.push(row)?;
    }
    Ok(())
}

fn drop_first(from: &mut VecDeque<Row>)
    ensures { from.new.items ≡ drop 1 from.old.items }
{
    let _row = from.pop_front();
}

/// The next step where these rows come next, of which the passed spans end before the older one's prefix; None where no
/// row comes next.
fn step_of(
    dels: &[Span],
    passed: &mut usize,
    newer: Option<&Row>,
    older: Option<&Row>,
) -> Option<Step>
    requires in_form { All IsSpan dels.now }
    requires apart { AreApart dels.now }
    requires passed { IfSome older (λ row. EndUpto (prefix_of row.now.key) dels.now passed.old) }
    ensures step { (news olds : List KeyRow) (new old : ℕ) → Rise news → Rise olds → option_copied newer.entry ≡ slice_get news new → option_copied older.entry ≡ slice_get olds old → IsNext result dels.now news olds new old }
    ensures passed { IfSome older.entry (λ row. EndUpto (prefix_of row.now.key) dels.now passed.new) }
{
    if is_hidden(dels, passed, older) {
        return Some(Step::Skip);
    }
    step_at(newer, older)
}

/// The next step where no span holds the older row's key.
fn step_at(newer: Option<&Row>, older: Option<&Row>) -> Option<Step>
    ensures { result ≡ step_for (option_copied newer.entry) (option_copied older.entry) }
{
    match older {
        None => match newer {
            None => None,
            Some(_) => Some(Step::Newer),
        },
        Some(older) => match newer {
            None => Some(Step::Older),
            Some(newer) => match newer.key.cmp(&older.key) {
                Ordering::Less => Some(Step::Newer),
                Ordering::Equal => Some(Step::Skip),
                Ordering::Greater => Some(Step::Older),
            },
        },
    }
}

/// Whether a span holds the row's key; it passes the spans that end before its prefix.
fn is_hidden(dels: &[Span], passed: &mut usize, row: Option<&Row>) -> bool
    requires in_form { All IsSpan dels.now }
    requires apart { AreApart dels.now }
    requires passed { IfSome row (λ row. EndUpto (prefix_of row.now.key) dels.now passed.old) }
    ensures answer { result ≡ hides_row dels.now (option_copied row.entry) }
    ensures passed { IfSome row.entry (λ row. EndUpto (prefix_of row.now.key) dels.now passed.new) }
{
    match row {
        None => false,
        Some(row) => hides(dels, passed, &row.key),
    }
}

/// Whether a span holds the key; it passes the spans that end before the key's prefix.
fn hides(dels: &[Span], passed: &mut usize, key: &Key) -> bool
    requires in_form { All IsSpan dels.now }
    requires apart { AreApart dels.now }
    requires passed { EndUpto (prefix_of key.now) dels.now passed.old }
    ensures answer { result ≡ is_covered dels.now key.now }
    ensures passed { EndUpto (prefix_of key.now) dels.now passed.new }
{
    let prefix = key.prefix();
    let mut at = *passed;
    while at < dels.len() && dels[at].hi() <= prefix {
        at += 1;
    }
    *passed = at;
    at < dels.len() && dels[at].contains(key)
}
