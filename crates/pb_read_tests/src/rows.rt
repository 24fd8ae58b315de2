// Which of memtable, levels and tables decides, and what a virtual table shows of its backing.
use super::asked::{Asked, assert_answers};
use super::store::{FIRST, Store, del, make_tables, new_store};
use std::alloc::Global;
use std::process::Abort;
use std::test::Fail;

/// Tables of a version, by the edit that brings them, and the bytes of numbers.
#[derive(Clone, Copy)]
struct Tables {
    edit: &'static [u8],
    files: &'static [(u64, &'static [u8])],
}

fn store_of(rt: &impl Abort, alloc: Global, tables: &Tables) -> Result<Store, Fail> {
    let mut store = new_store(rt, alloc, &[FIRST, tables.edit], false)?;
    make_tables(rt, &mut store, tables.files)?;
    Ok(store)
}

fn assert_tables(
    rt: &impl Abort,
    alloc: Global,
    tables: &Tables,
    asked: &[Asked],
) -> Result<(), Fail> {
    let mut store = store_of(rt, alloc, tables)?;
    assert_answers(rt, alloc, &mut store, asked)
}

/// On level 0 the table 4, with a, b and c, and above it 6, with a and a deletion from b to c.
const STACKED: Tables = Tables {
    edit: b"\x07\0\x04\x04\x12\x01a\x01d\x07\0\x06\x06\x0c\x01a\x01c",
    files: &[
        (4, b"\x01\0\x03\x01a\x01\x011\x01b\x01\x011\x01c\x01\x011"),
        (6, b"\x01\x01\x01b\x01c\x01\x01a\x01\x012"),
    ],
};

const OF_TABLES: [Asked; 4] = [
    Asked {
        key: b"a",
        value: Some(b"2"),
        calls: (1, 0),
    },
    Asked {
        key: b"b",
        value: None,
        calls: (1, 0),
    },
    Asked {
        key: b"c",
        value: Some(b"1"),
        calls: (1, 0),
    },
    Asked {
        key: b"d",
        value: None,
        calls: (0, 0),
    },
];

#[test]
fn the_newest_table_that_says_something_decides(rt: HostRuntime) -> Result<(), Fail> {
    assert_tables(&rt, rt.alloc(), &STACKED, &OF_TABLES)
}

const OF_MEMTABLE: [Asked; 3] = [
    Asked {
        key: b"a",
        value: None,
        calls: (0, 0),
    },
    Asked {
        key: b"b",
        value: None,
        calls: (1, 0),
    },
    Asked {
        key: b"c",
        value: Some(b"1"),
        calls: (1, 0),
    },
];

#[test]
fn the_memtable_decides_before_the_tables(rt: HostRuntime) -> Result<(), Fail> {
    let alloc = rt.alloc();
    let mut store = store_of(&rt, alloc, &STACKED)?;
    del(&rt, alloc, &mut store.memtable, b"a")?;
    assert_answers(&rt, alloc, &mut store, &OF_MEMTABLE)
}

/// The backing 4 with a and c.
const BACKING: [(u64, &[u8]); 1] = [(4, b"\x01\0\x02\x01a\x01\x011\x01c\x01\x013")];

/// The virtual table 6 shows a to b of the backing.
const CUT: Tables = Tables {
    edit: b"\x08\0\x06\x06\x04\x01a\x01b\0\0\x09\x04\x0d",
    files: &BACKING,
};

const OF_CUT: [Asked; 3] = [
    Asked {
        key: b"a",
        value: Some(b"1"),
        calls: (1, 0),
    },
    Asked {
        key: b"c",
        value: None,
        calls: (0, 0),
    },
    Asked {
        key: b"b",
        value: None,
        calls: (0, 0),
    },
];

#[test]
fn a_virtual_table_shows_what_its_bounds_hold(rt: HostRuntime) -> Result<(), Fail> {
    assert_tables(&rt, rt.alloc(), &CUT, &OF_CUT)
}

/// The same with the virtual table 7, of c alone.
const CUT_TWICE: Tables = Tables {
    edit: b"\x08\0\x06\x06\x04\x01a\x01b\0\0\x08\0\x07\x07\x04\x01c\x02c\0\0\0\x09\x04\x0d",
    files: &BACKING,
};

const OF_CUT_TWICE: [Asked; 2] = [
    Asked {
        key: b"c",
        value: Some(b"3"),
        calls: (1, 0),
    },
    Asked {
        key: b"b",
        value: None,
        calls: (0, 0),
    },
];

#[test]
fn virtual_tables_share_a_backing(rt: HostRuntime) -> Result<(), Fail> {
    assert_tables(&rt, rt.alloc(), &CUT_TWICE, &OF_CUT_TWICE)
}

/// The virtual table 6, of a to c, over a backing that deletes a to d; and below it on level 6 the table 5, with b and c.
const DELETED: Tables = Tables {
    edit: b"\x07\x06\x05\x05\x0d\x01b\x01d\x08\0\x06\x06\x04\x01a\x01c\0\0\x09\x04\x07",
    files: &[
        (4, b"\x01\x01\x01a\x01d\0"),
        (5, b"\x01\0\x02\x01b\x01\x015\x01c\x01\x015"),
    ],
};

const OF_DELETED: [Asked; 2] = [
    Asked {
        key: b"b",
        value: None,
        calls: (1, 0),
    },
    Asked {
        key: b"c",
        value: Some(b"5"),
        calls: (1, 0),
    },
];

#[test]
fn a_virtual_table_deletes_within_its_bounds(rt: HostRuntime) -> Result<(), Fail> {
    assert_tables(&rt, rt.alloc(), &DELETED, &OF_DELETED)
}

/// Of the key a the tables 4, 5 and 7 on the levels 0, 1 and 6.
const LEVELS: [(u64, &[u8]); 3] = [
    (4, b"\x01\0\x01\x01a\x01\x014"),
    (5, b"\x01\0\x01\x01a\x01\x015"),
    (7, b"\x01\0\x01\x01a\x01\x017"),
];

fn assert_levels(
    rt: &impl Abort,
    alloc: Global,
    edit: &'static [u8],
    value: &'static [u8],
) -> Result<(), Fail> {
    let tables = Tables {
        edit,
        files: &LEVELS,
    };
    let asked = Asked {
        key: b"a",
        value: Some(value),
        calls: (1, 0),
    };
    assert_tables(rt, alloc, &tables, &[asked])
}

#[test]
fn level_0_comes_first(rt: HostRuntime) -> Result<(), Fail> {
    let edit =
        b"\x07\0\x04\x04\x08\x01a\x01b\x07\x01\x05\x05\x08\x01a\x01b\x07\x06\x07\x07\x08\x01a\x01b";
    assert_levels(&rt, rt.alloc(), edit, b"4")
}

#[test]
fn level_1_comes_behind_level_0(rt: HostRuntime) -> Result<(), Fail> {
    let edit = b"\x07\x01\x05\x05\x08\x01a\x01b\x07\x06\x07\x07\x08\x01a\x01b";
    assert_levels(&rt, rt.alloc(), edit, b"5")
}

#[test]
fn level_6_comes_last(rt: HostRuntime) -> Result<(), Fail> {
    let edit = b"\x07\x06\x07\x07\x08\x01a\x01b";
    assert_levels(&rt, rt.alloc(), edit, b"7")
}
