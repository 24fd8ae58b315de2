use pb_keys::Bytes;
use pb_names::{ObjectId, external};
use pb_payloads::{
    CataloguePayload, Entry, last_pointer, put_catalogued, read_catalogued, read_pointer,
    spell_pointer,
};
use std::alloc::{AllocError, Global};
use std::test::Fail;

fn spelled(alloc: Global, payload: &CataloguePayload) -> Result<Vec<u8>, AllocError> {
    let mut out = Vec::from_slice(alloc, b"front")?;
    put_catalogued(alloc, &mut out, payload)?;
    Ok(out)
}

#[test]
fn payloads_of_a_catalogue_are_read_and_spelled_again(rt: HostRuntime) -> Result<(), Fail> {
    let shared = ObjectId {
        creator: 2,
        number: 300,
    };
    for (bytes, payload) in [
        (b"front\x01\x01".as_slice(), CataloguePayload::Id(1)),
        (
            b"front\x01\xff\xff\xff\xff\xff\xff\xff\xff\xff\x01",
            CataloguePayload::Id(u64::MAX),
        ),
        (
            b"front\x02\x04\x02\xac\x02",
            CataloguePayload::Entered {
                number: 4,
                entry: Entry::Shared(shared),
            },
        ),
        (b"front\x04\x04", CataloguePayload::Dropped(4)),
    ] {
        let out = spelled(rt.alloc(), &payload)?;
        assert!(rt; out.as_slice() == bytes, "{bytes:?}");
        assert!(rt; read_catalogued(&bytes[5..]) == Some(payload), "{bytes:?}");
    }
    Ok(())
}

#[test]
fn an_external_object_is_spelled_without_its_x(rt: HostRuntime) -> Result<(), Fail> {
    let name = external(b"ab").ok_or("no name")?;
    let payload = CataloguePayload::Entered {
        number: 5,
        entry: Entry::External(name),
    };
    let out = spelled(rt.alloc(), &payload)?;
    assert!(rt; out.as_slice() == b"front\x03\x05\x02ab".as_slice());
    assert!(rt; read_catalogued(&out[5..]).is_none());
    Ok(())
}

#[test]
fn what_a_catalogue_has_not_is_no_payload(rt: HostRuntime) -> Result<(), Fail> {
    for (bytes, why) in [
        (b"".as_slice(), "nothing"),
        (b"\x00\x01", "kind 0"),
        (b"\x03\x05\x02ab", "kind 3"),
        (b"\x05\x01", "kind 5"),
        (b"\x01", "no id"),
        (b"\x01\x81\x00", "a longer spelling of the id"),
        (b"\x01\x01\x00", "a byte behind the id"),
        (b"\x02\x04\x02", "an object without its number"),
        (b"\x02\x04\x00\x01", "creator 0"),
        (b"\x02\x04\x09\x01", "creator 9"),
        (b"\x02\x04\x02\x01\x00", "a byte behind the object"),
        (
            b"\x02\x80\x80\x80\x80\x80\x80\x80\x80\x40\x02\x01",
            "the number 2^62 under it",
        ),
        (
            b"\x02\x04\x02\x80\x80\x80\x80\x80\x80\x80\x80\x40",
            "an object of the number 2^62",
        ),
        (b"\x04", "no number that is dropped"),
        (b"\x04\x04\x00", "a byte behind the number that is dropped"),
        (
            b"\x04\x80\x80\x80\x80\x80\x80\x80\x80\x40",
            "the number 2^62 dropped",
        ),
    ] {
        assert!(rt; read_catalogued(bytes).is_none(), "{why}");
    }
    Ok(())
}

#[test]
fn a_pointer_is_two_numbers_and_nothing_behind(rt: HostRuntime) -> Result<(), Fail> {
    let bytes = spell_pointer(rt.alloc(), 1, 300)?;
    assert!(rt; bytes.as_slice() == b"\x01\xac\x02".as_slice());
    for (bytes, read) in [
        (b"\x01\x02".as_slice(), Some((1, 2))),
        (b"\x01\xac\x02", Some((1, 300))),
        (b"", None),
        (b"\x01", None),
        (b"\x01\x02\x00", None),
        (b"\x81\x00\x02", None),
        (b"\x80\x80\x80\x80\x80\x80\x80\x80\x40\x02", None),
        (b"\x01\x80\x80\x80\x80\x80\x80\x80\x80\x40", None),
    ] {
        assert!(rt; read_pointer(bytes) == read, "{bytes:?}");
    }
    Ok(())
}

#[test]
fn the_last_payload_is_the_pointer(rt: HostRuntime) -> Result<(), Fail> {
    let mut payloads = Vec::new(rt.alloc());
    payloads.push(Bytes::new(rt.alloc(), b"none")?)?;
    payloads.push(Bytes::new(rt.alloc(), b"\x01\x02")?)?;
    assert!(rt; last_pointer(&payloads) == Some((1, 2)));
    payloads.push(Bytes::new(rt.alloc(), b"\x01")?)?;
    assert!(rt; last_pointer(&payloads).is_none());
    Ok(())
}
