// Look-ups over drawn stacks, beside a plain map.
use super::asked::{Answer, look_up};
use super::spelled::{bytes_of, edit_of};
use super::stacks::{Drawn, END, FIRST_KEY, draw_stack};
use super::store::{FIRST, Store, make_table, new_store};
use pb_keys::Bytes;
use std::alloc::{AllocError, Global};
use std::collections::BTreeMap;
use std::process::Abort;
use std::test::Fail;

/// Of each key that has a value the number of the table that it is of.
type Plain = BTreeMap<u8, u8>;

/// Whether the table shows the key.
fn shows(drawn: &Drawn, key: u8) -> bool {
    drawn.lo <= key && key < drawn.hi
}

fn delete(plain: &mut Plain, drawn: &Drawn) {
    for key in drawn.del.0..drawn.del.1 {
        if shows(drawn, key) {
            plain.remove(&key);
        }
    }
}

fn put(plain: &mut Plain, drawn: &Drawn) -> Result<(), AllocError> {
    for (key, has_value) in drawn.rows.iter() {
        if shows(drawn, *key) {
            put_row(plain, *key, *has_value, drawn.number)?;
        }
    }
    Ok(())
}

fn put_row(plain: &mut Plain, key: u8, has_value: bool, number: u8) -> Result<(), AllocError> {
    if has_value {
        plain.insert(key, number)?;
    } else {
        plain.remove(&key);
    }
    Ok(())
}

/// What the tables of a stack make of an empty map, the oldest first.
fn plain_of(alloc: Global, stack: &[Drawn]) -> Result<Plain, AllocError> {
    let mut plain = BTreeMap::new(alloc);
    for drawn in stack.iter().rev() {
        delete(&mut plain, drawn);
        put(&mut plain, drawn)?;
    }
    Ok(plain)
}

fn make_bytes(
    rt: &impl Abort,
    alloc: Global,
    store: &mut Store,
    drawn: &Drawn,
) -> Result<(), Fail> {
    let bytes = bytes_of(alloc, drawn)?;
    make_table(rt, store, u64::from(drawn.backing()), bytes.as_slice())
}

fn store_of(rt: &impl Abort, alloc: Global, stack: &[Drawn]) -> Result<Store, Fail> {
    let edit = edit_of(alloc, stack)?;
    let mut store = new_store(rt, alloc, &[FIRST, edit.as_slice()], false)?;
    for drawn in stack {
        make_bytes(rt, alloc, &mut store, drawn)?;
    }
    Ok(store)
}

/// The number that a value of one byte says; 0 without a value.
fn said_by(value: Option<Bytes>) -> u8 {
    match value {
        None => 0,
        Some(bytes) => bytes.as_slice().first().copied().unwrap_or(0),
    }
}

fn number_of(answer: Answer) -> Result<u8, Fail> {
    let value = answer?;
    Ok(said_by(value))
}

fn assert_plain(
    rt: &impl Abort,
    alloc: Global,
    store: &mut Store,
    plain: &Plain,
    key: u8,
) -> Result<(), Fail> {
    let answer = look_up(alloc, store, &[key])?;
    let found = number_of(answer)?;
    let wanted = plain.get(&key).copied().unwrap_or(0);
    assert_eq!(rt; found, wanted, "key {key}");
    Ok(())
}

fn assert_stack(rt: &impl Abort, alloc: Global, stack: &[Drawn]) -> Result<(), Fail> {
    let mut store = store_of(rt, alloc, stack)?;
    let plain = plain_of(alloc, stack)?;
    for key in FIRST_KEY..=END {
        assert_plain(rt, alloc, &mut store, &plain, key)?;
    }
    Ok(())
}

#[test]
fn drawn_stacks_are_as_a_plain_map(rt: HostRuntime) -> Result<(), Fail> {
    for seed in 0..300u32 {
        let stack = draw_stack(rt.alloc(), seed.wrapping_mul(7_919))?;
        assert_stack(&rt, rt.alloc(), stack.as_slice())?;
    }
    Ok(())
}
