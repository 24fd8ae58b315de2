mod plain;

use super::*;
use std::test::Fail;

#[test]
fn objects_are_put_read_counted_and_deleted(rt: HostRuntime) -> Result<(), Fail> {
    let alloc = rt.alloc();
    let mut bucket = MemBucket::new(alloc, Vec::new(alloc));
    bucket.put("obj/1", b"abcde")?;
    bucket.put("obj/10", b"x")?;
    bucket.put("x/1", b"")?;
    let mut piece = [0u8; 3];
    assert_eq!(rt; bucket.read_at("obj/1", 3, &mut piece), Ok(Some(2)));
    assert_eq!(rt; piece.as_slice(), b"de\0".as_slice());
    assert_eq!(rt; bucket.read_at("obj/2", 0, &mut piece), Ok(None));
    assert_eq!(rt; bucket.size("obj/10"), Ok(Some(1)));
    assert_eq!(rt; bucket.count("obj/"), Ok(2));
    let names = bucket.list(alloc, "obj/").map_err(|_| "a list")?;
    assert_eq!(rt; names.len(), 2);
    assert_eq!(rt; names[0].as_str(), "obj/1");
    assert_eq!(rt; names[1].as_str(), "obj/10");
    bucket.delete("obj/1")?;
    assert_eq!(rt; bucket.size("obj/1"), Ok(None));
    assert_eq!(rt; bucket.calls(), 10);
    Ok(())
}

#[test]
fn a_failing_put_or_delete_happens_at_even_numbers(rt: HostRuntime) -> Result<(), Fail> {
    let alloc = rt.alloc();
    let mut bucket = MemBucket::new(alloc, [1, 2].to_vec(alloc)?);
    assert_eq!(rt; bucket.put("a", b"1"), Err(Failed), "call 1");
    assert_eq!(rt; bucket.put("b", b"2"), Err(Failed), "call 2");
    assert_eq!(rt; bucket.count(""), Ok(1));
    assert_eq!(rt; bucket.size("b"), Ok(Some(1)));
    let mut bucket = bucket.again([5, 6].to_vec(alloc)?);
    assert_eq!(rt; bucket.delete("b"), Err(Failed), "call 5");
    assert_eq!(rt; bucket.delete("b"), Err(Failed), "call 6");
    assert_eq!(rt; bucket.count(""), Ok(0));
    assert_eq!(rt; bucket.faults(), 4);
    assert_eq!(rt; bucket.wants(), 0);
    Ok(())
}
