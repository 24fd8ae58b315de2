// What an open catalogue tells of its entries.
use super::catalogues::{catalogue_of, own};
use pb_catalog::Entry;
use pb_names::ObjectId;
use std::test::Fail;

/// An object that another store has made.
const LENT: Entry = Entry::Shared(ObjectId {
    creator: 2,
    number: 300,
});

#[test]
fn entries_are_told_by_number_and_by_place(rt: HostRuntime) -> Result<(), Fail> {
    let catalog = catalogue_of(
        &rt,
        rt.alloc(),
        &[b"\x01\x01", b"\x02\x07\x02\xac\x02", b"\x02\x04\x01\x04"],
    )?;
    assert_eq!(rt; catalog.id(), 1);
    assert_eq!(rt; catalog.len(), 2);
    for (number, wanted) in [(4, Some(own(4))), (5, None), (7, Some(LENT)), (300, None)] {
        assert!(rt; catalog.entry(number) == wanted, "{number}");
    }
    for (place, wanted) in [(0, Some((7, LENT))), (1, Some((4, own(4)))), (2, None)] {
        assert!(rt; catalog.at(place) == wanted, "place {place}");
    }
    Ok(())
}
