// The spellings, against worked examples and at their limits, and what the names of files tell.
use pb_names::{
    FileKind, NumberedFile, ObjectId, current, external, file, file_of, is_name, marker,
    marker_prefix, object,
};
use std::test::Fail;

const LAST_NUMBER: u64 = 4_611_686_018_427_387_903;

#[test]
fn files_are_spelled(rt: HostRuntime) {
    assert_eq!(rt; current().as_str(), "CURRENT");
    assert_eq!(rt; file(FileKind::Manifest, 1).as_str(), "1.man");
    assert_eq!(rt; file(FileKind::Catalogue, 2).as_str(), "2.cat");
    assert_eq!(rt; file(FileKind::Log, 30).as_str(), "30.log");
    assert_eq!(rt; file(FileKind::Table, 0).as_str(), "0.tbl");
    assert_eq!(rt;
        file(FileKind::Table, u64::MAX).as_str(),
        "18446744073709551615.tbl"
    );
}

#[test]
fn objects_and_markers_are_spelled(rt: HostRuntime) {
    let id = ObjectId {
        creator: 1,
        number: 4,
    };
    assert_eq!(rt; object(&id).as_str(), "obj/1/4");
    assert_eq!(rt; marker_prefix(&id).as_str(), "obj/1/4.ref.");
    assert_eq!(rt; marker(&id, 2, 7).as_str(), "obj/1/4.ref.2.7");
    let last = ObjectId {
        creator: 8,
        number: LAST_NUMBER,
    };
    let longest = marker(&last, 8, LAST_NUMBER);
    assert_eq!(rt;
        longest.as_str(),
        "obj/8/4611686018427387903.ref.8.4611686018427387903"
    );
    assert_eq!(rt; longest.as_str().len(), 51);
}

#[test]
fn external_objects_are_spelled(rt: HostRuntime) -> Result<(), Fail> {
    let longest = [b'z'; 48];
    assert_eq!(rt; external(b"e1_-9").ok_or("e1_-9")?.as_str(), "x/e1_-9");
    assert_eq!(rt; external(&longest).ok_or("48 bytes")?.as_str().len(), 50);
    for name in ["", "E1", "e.1", "e/1", "é", "{", "`", ":"] {
        assert!(rt; external(name.as_bytes()).is_none(), "{name:?}");
        assert!(rt; !is_name(name.as_bytes()), "{name:?}");
    }
    assert!(rt; external(&[b'z'; 49]).is_none());
    Ok(())
}

#[test]
fn names_are_equal_by_their_text(rt: HostRuntime) {
    let log = file(FileKind::Log, 3);
    let copy = log;
    assert!(rt; log == copy);
    assert!(rt; log == file(FileKind::Log, 3));
    assert!(rt; log != file(FileKind::Log, 30));
    assert!(rt; log != file(FileKind::Table, 3));
}

#[test]
fn names_of_numbered_files_tell_kind_and_number(rt: HostRuntime) {
    let cases = [
        ("1.man", FileKind::Manifest, Some(1)),
        ("2.cat", FileKind::Catalogue, Some(2)),
        ("3.log", FileKind::Log, Some(3)),
        ("4.tbl", FileKind::Table, Some(4)),
        ("0.tbl", FileKind::Table, Some(0)),
        ("18446744073709551615.tbl", FileKind::Table, Some(u64::MAX)),
        ("18446744073709551616.tbl", FileKind::Table, None),
        ("99999999999999999999.man", FileKind::Manifest, None),
    ];
    for (name, kind, number) in cases {
        assert_eq!(rt;
            file_of(name),
            Some(NumberedFile { kind, number }),
            "{name:?}"
        );
    }
}

#[test]
fn other_names_tell_nothing(rt: HostRuntime) {
    let zeros = "0000000000000000000000000000000000000000000000000000000000000000000000";
    assert_eq!(rt; zeros.len(), 70);
    let cases = [
        "CURRENT", "04.tbl", ".tbl", "4.tb", "4.tbl.", "+4.tbl", "4.TBL", "-1.log", "4.txt", "",
        zeros,
    ];
    for name in cases {
        assert_eq!(rt; file_of(name), None, "{name:?}");
    }
}
