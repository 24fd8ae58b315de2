// What an opening with the id 1 answers to payloads.
use super::catalogues::{assert_answers, log_of, own_entries};
use pb_catalog::CatalogError;
use std::alloc::Global;
use std::process::Abort;
use std::test::Fail;

/// Payloads, and the numbers that stand behind them; each stands for the object of store 1 that has it.
#[derive(Drop)]
struct Row {
    payloads: &'static [&'static [u8]],
    numbers: &'static [u64],
}

const STANDING: [Row; 4] = [
    Row {
        payloads: &[
            b"\x01\x01",
            b"\x02\x04\x01\x04",
            b"\x02\x05\x01\x05",
            b"\x04\x04",
        ],
        numbers: &[5],
    },
    Row {
        payloads: &[
            b"\x01\x01",
            b"\x02\x04\x01\x04",
            b"\x04\x04",
            b"\x02\x04\x01\x04",
        ],
        numbers: &[4],
    },
    Row {
        payloads: &[
            b"\x01\x01",
            b"\x02\x05\x01\x05",
            b"\x02\x04\x01\x04",
            b"\x04\x05",
            b"\x02\x05\x01\x05",
        ],
        numbers: &[4, 5],
    },
    Row {
        payloads: &[b"\x01\x01"],
        numbers: &[],
    },
];

#[test]
fn entries_stand_in_the_order_in_which_they_were_entered(rt: HostRuntime) -> Result<(), Fail> {
    let alloc = rt.alloc();
    for row in &STANDING {
        let file = log_of(alloc, row.payloads)?;
        let wanted = Ok(own_entries(alloc, row.numbers)?);
        assert_answers(&rt, alloc, &file, &wanted)?;
    }
    Ok(())
}

#[test]
fn the_first_row_is_this_file(rt: HostRuntime) -> Result<(), Fail> {
    let file = log_of(rt.alloc(), STANDING[0].payloads)?;
    let wanted =
        b"\x01\0\0\0\x02\x01\x01\x01\0\0\0\x04\x02\x04\x01\x04\x01\0\0\0\x04\x02\x05\x01\x05\x01\0\0\0\x02\x04\x04\0";
    assert!(rt; file.as_slice() == wanted.as_slice());
    Ok(())
}

fn assert_refused(
    rt: &impl Abort,
    alloc: Global,
    payloads: &[&[u8]],
    error: CatalogError,
) -> Result<(), Fail> {
    let file = log_of(alloc, payloads)?;
    assert_answers(rt, alloc, &file, &Err(error))
}

#[test]
fn the_first_payload_tells_another_store(rt: HostRuntime) -> Result<(), Fail> {
    let far: &[u8] = b"\x01\x80\x80\x80\x80\x80\x80\x80\x80\x80\x01";
    let two: &[u8] = b"\x01\x02";
    for (payloads, id) in [
        ([two, b"\x02\x04\x01\x04", b"\x04\x04"], 2),
        ([two, b"\x01\x02", b"\x01\x01"], 2),
        ([two, b"", b"\xff"], 2),
        ([far, b"\x01\x01", b"\x02\x04\x01\x04"], 1 << 63),
    ] {
        assert_refused(&rt, rt.alloc(), &payloads, CatalogError::WrongStore(id))?;
    }
    for (payload, id) in [(two, 2), (far, 1 << 63), (b"\x01\x00", 0), (b"\x01\x09", 9)] {
        assert_refused(&rt, rt.alloc(), &[payload], CatalogError::WrongStore(id))?;
    }
    Ok(())
}

/// Payloads that say no catalogue.
const DAMAGED: [&[&[u8]]; 14] = [
    &[],
    &[b"\x02\x04\x01\x04"],
    &[b""],
    // A second id, a number that is entered twice, and one that is dropped where it doesn't stand.
    &[b"\x01\x01", b"\x01\x01"],
    &[b"\x01\x01", b"\x02\x04\x01\x04", b"\x02\x04\x01\x04"],
    &[b"\x01\x01", b"\x04\x04"],
    // An object of creator 9 and of creator 0; the numbers 2^62 above an object and of one.
    &[b"\x01\x01", b"\x02\x04\x09\x04"],
    &[b"\x01\x01", b"\x02\x04\x00\x04"],
    &[
        b"\x01\x01",
        b"\x02\x80\x80\x80\x80\x80\x80\x80\x80\x40\x01\x04",
    ],
    &[
        b"\x01\x01",
        b"\x02\x04\x01\x80\x80\x80\x80\x80\x80\x80\x80\x40",
    ],
    // A byte behind the id, and an id that is longer than it need be.
    &[b"\x01\x01\x00"],
    &[b"\x01\x81\x00"],
    // An external object, and a kind that there isn't.
    &[b"\x01\x01", b"\x03\x04\x01a"],
    &[b"\x01\x01", b"\x05\x04"],
];

#[test]
fn payloads_that_say_no_catalogue_are_damage(rt: HostRuntime) -> Result<(), Fail> {
    for payloads in &DAMAGED {
        assert_refused(&rt, rt.alloc(), payloads, CatalogError::Damaged)?;
    }
    Ok(())
}
