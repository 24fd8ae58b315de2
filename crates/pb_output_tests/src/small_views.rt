//! Every layer of rows with four keys and a deletion over five ends, through every bounds over six ends, beside a plain filter.
use crate::layers::{layer_of, put_within};
use crate::shown::{has_text, shown, table_of};
use pb_rows::Layer;
use std::alloc::Global;
use std::test::Fail;

const KEYS: [&str; 4] = ["a", "a@1", "b", "c"];

const ENDS: [&str; 5] = ["a", "aa", "b", "ba", "c"];

const BOUNDS: [&str; 6] = ["0", "a", "ab", "b", "c", "c\0"];

/// The deletions and the bounds, each with the lesser end first.
#[derive(Drop)]
struct Cases {
    dels: Vec<(&'static str, &'static str)>,
    bounds: Vec<(&'static str, &'static str)>,
}

fn add_pairs(
    pairs: &mut Vec<(&'static str, &'static str)>,
    lo: &'static str,
    ends: &[&'static str],
) -> Result<(), Fail> {
    for hi in ends {
        if lo.as_bytes() < hi.as_bytes() {
            pairs.push((lo, *hi))?;
        }
    }
    Ok(())
}

fn pairs_of(
    alloc: Global,
    ends: &[&'static str],
) -> Result<Vec<(&'static str, &'static str)>, Fail> {
    let mut pairs = Vec::new(alloc);
    for lo in ends {
        add_pairs(&mut pairs, *lo, ends)?;
    }
    Ok(pairs)
}

fn cases_of(alloc: Global) -> Result<Cases, Fail> {
    let dels = pairs_of(alloc, &ENDS)?;
    let bounds = pairs_of(alloc, &BOUNDS)?;
    Ok(Cases { dels, bounds })
}

// Of each key no row, a deleted one, or one with a value, as the number's digits to the base 3 say.
fn texts_of(alloc: Global, number: usize) -> Result<Vec<(&'static str, Option<usize>)>, Fail> {
    let mut texts = Vec::new(alloc);
    let mut rest = number;
    for at in 0..4 {
        if rest % 3 == 1 {
            texts.push((KEYS[at], None))?;
        }
        if rest % 3 == 2 {
            texts.push((KEYS[at], Some(at)))?;
        }
        rest /= 3;
    }
    Ok(texts)
}

fn has_values_of(layer: &Layer, shown: &Layer) -> bool {
    for row in shown.rows() {
        if !(shown.get(&row.key) == layer.get(&row.key)) {
            return false;
        }
    }
    true
}

// Whether a table of these bytes shows of its layer what a plain filter leaves.
fn is_filtered(
    alloc: Global,
    layer: &Layer,
    bytes: &[u8],
    lo: &[u8],
    hi: &[u8],
) -> Result<bool, Fail> {
    let mut plain = Vec::new(alloc);
    put_within(&mut plain, layer, lo, hi)?;
    match shown(alloc, lo, hi, bytes)? {
        None => Ok(false),
        Some(found) => {
            let same = has_text(alloc, &found, &plain)?;
            Ok(same && has_values_of(layer, &found))
        }
    }
}

fn is_filtered_by_each(
    alloc: Global,
    layer: &Layer,
    bounds: &[(&str, &str)],
) -> Result<bool, Fail> {
    let bytes = table_of(alloc, layer)?;
    for (lo, hi) in bounds {
        if !is_filtered(alloc, layer, bytes.as_slice(), lo.as_bytes(), hi.as_bytes())? {
            return Ok(false);
        }
    }
    Ok(true)
}

fn are_filtered_alone(
    alloc: Global,
    texts: &[(&str, Option<usize>)],
    cases: &Cases,
) -> Result<bool, Fail> {
    if texts.is_empty() {
        return Ok(true);
    }
    let layer = layer_of(alloc, &[], texts)?;
    is_filtered_by_each(alloc, &layer, &cases.bounds)
}

fn are_filtered_under_each(
    alloc: Global,
    texts: &[(&str, Option<usize>)],
    cases: &Cases,
) -> Result<bool, Fail> {
    for del in &cases.dels {
        let layer = layer_of(alloc, &[*del], texts)?;
        if !is_filtered_by_each(alloc, &layer, &cases.bounds)? {
            return Ok(false);
        }
    }
    Ok(true)
}

#[test]
fn there_are_ten_deletions_and_fifteen_bounds(rt: HostRuntime) -> Result<(), Fail> {
    let cases = cases_of(rt.alloc())?;
    assert_eq!(rt; cases.dels.len(), 10);
    assert_eq!(rt; cases.bounds.len(), 15);
    Ok(())
}

#[test]
fn rows_are_shown_as_a_plain_filter_does(rt: HostRuntime) -> Result<(), Fail> {
    let cases = cases_of(rt.alloc())?;
    for number in 0..81 {
        let texts = texts_of(rt.alloc(), number)?;
        assert!(rt; are_filtered_alone(rt.alloc(), &texts, &cases)?, "{number}");
    }
    Ok(())
}

#[test]
fn rows_and_a_deletion_are_shown_as_a_plain_filter_does(rt: HostRuntime) -> Result<(), Fail> {
    let cases = cases_of(rt.alloc())?;
    for number in 0..81 {
        let texts = texts_of(rt.alloc(), number)?;
        assert!(rt;
            are_filtered_under_each(rt.alloc(), &texts, &cases)?,
            "{number}"
        );
    }
    Ok(())
}
