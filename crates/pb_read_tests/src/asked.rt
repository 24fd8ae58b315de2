// What look-ups answer, and by how many calls.
use super::store::Store;
use pb_devices::Bucket;
use pb_keys::{Bytes, Key};
use pb_read::{ReadFault, get};
use std::alloc::Global;
use std::process::Abort;
use std::test::Fail;

/// A key, what a look-up of it answers, and how many calls of the disk and of the bucket it makes.
#[derive(Clone, Copy)]
pub(crate) struct Asked {
    pub(crate) key: &'static [u8],
    pub(crate) value: Option<&'static [u8]>,
    pub(crate) calls: (u64, u64),
}

pub(crate) type Answer = Result<Option<Bytes>, ReadFault>;

pub(crate) fn look_up(alloc: Global, store: &mut Store, key: &[u8]) -> Result<Answer, Fail> {
    let key = Key::new(alloc, key)?;
    Ok(get(
        alloc,
        &store.memtable,
        &store.version,
        &store.provider,
        &mut store.disk,
        &mut store.bucket,
        &key,
    ))
}

/// Whether a look-up found this value, or none.
pub(crate) fn is_value(answer: &Answer, value: Option<&[u8]>) -> bool {
    match answer {
        Ok(Some(bytes)) => value == Some(bytes.as_slice()),
        Ok(None) => value.is_none(),
        Err(_) => false,
    }
}

fn calls_of(store: &Store) -> (u64, u64) {
    (store.disk.calls(), store.bucket.calls())
}

/// Whether so many calls were made between these counts.
fn are_between(before: (u64, u64), after: (u64, u64), calls: (u64, u64)) -> bool {
    after.0.saturating_sub(before.0) == calls.0 && after.1.saturating_sub(before.1) == calls.1
}

/// Whether a look-up of the key answers this value, or none, by so many calls of the disk and of the bucket.
pub(crate) fn answers(
    alloc: Global,
    store: &mut Store,
    key: &[u8],
    value: Option<&[u8]>,
    calls: (u64, u64),
) -> Result<bool, Fail> {
    let before = calls_of(store);
    let answer = look_up(alloc, store, key)?;
    let after = calls_of(store);
    Ok(is_value(&answer, value) && are_between(before, after, calls))
}

/// Asserts that look-ups answer so, in this order.
pub(crate) fn assert_answers(
    rt: &impl Abort,
    alloc: Global,
    store: &mut Store,
    asked: &[Asked],
) -> Result<(), Fail> {
    for one in asked {
        let said = answers(alloc, store, one.key, one.value, one.calls)?;
        assert!(rt; said, "{:?}", one.key);
    }
    Ok(())
}

/// Asserts that a look-up of the key answers None, with no call.
pub(crate) fn assert_unasked(
    rt: &impl Abort,
    alloc: Global,
    store: &mut Store,
    key: &[u8],
) -> Result<(), Fail> {
    let said = answers(alloc, store, key, None, (0, 0))?;
    assert!(rt; said, "{key:?}");
    Ok(())
}

/// Asserts that a look-up of the key ends in this fault.
pub(crate) fn assert_fault(
    rt: &impl Abort,
    alloc: Global,
    store: &mut Store,
    key: &[u8],
    fault: ReadFault,
) -> Result<(), Fail> {
    let found = look_up(alloc, store, key)?.err();
    assert!(rt; found == Some(fault), "{found:?}");
    Ok(())
}
