use pb_bytes::{
    NUMBERS, be32, be64, laws, put_field, put_varint, read_be32, read_be64, read_field,
    read_varint, split_field, split_number, split_varint,
};
use std::test::Fail;

const LONGEST: [u8; 10] = [255, 255, 255, 255, 255, 255, 255, 255, 255, 1];

#[test]
fn a_varint_has_its_shortest_spelling(rt: HostRuntime) -> Result<(), Fail> {
    for (value, spelling) in [
        (0, [0].as_slice()),
        (127, [0x7f].as_slice()),
        (128, [0x80, 1].as_slice()),
        (300, [0xac, 2].as_slice()),
        (65_536, [0x80, 0x80, 4].as_slice()),
        (u64::MAX, LONGEST.as_slice()),
    ] {
        let mut out = Vec::from_slice(rt.alloc(), b"front")?;
        put_varint(rt.alloc(), &mut out, value)?;
        assert!(rt; out.len() == 5 + spelling.len(), "length of {value}");
        assert!(rt; &out[5..] == spelling, "{value}");
        put_varint(rt.alloc(), &mut out, 9)?;
        assert!(rt; out.len() > 5);
        assert!(rt;
            read_varint(&out[5..]) == Some((value, spelling.len())),
            "{value}"
        );
    }
    Ok(())
}

#[test]
fn what_is_no_varint_is_not_read(rt: HostRuntime) {
    for bytes in [
        [].as_slice(),
        [0x80].as_slice(),
        [0x80, 0].as_slice(),
        [0xac, 0x82, 0].as_slice(),
        [255, 255, 255, 255, 255, 255, 255, 255, 255].as_slice(),
        [255, 255, 255, 255, 255, 255, 255, 255, 255, 0].as_slice(),
        [128, 128, 128, 128, 128, 128, 128, 128, 128, 2].as_slice(),
        [128, 128, 128, 128, 128, 128, 128, 128, 128, 128, 1].as_slice(),
    ] {
        assert!(rt; read_varint(bytes).is_none(), "{bytes:?}");
    }
}

#[test]
fn a_field_is_its_length_and_its_bytes(rt: HostRuntime) -> Result<(), Fail> {
    let mut out = Vec::new(rt.alloc());
    put_field(rt.alloc(), &mut out, b"ab")?;
    put_field(rt.alloc(), &mut out, b"")?;
    assert!(rt; out.as_slice() == b"\x02ab\x00".as_slice());
    let (first, used) = read_field(&out).ok_or("no field")?;
    assert!(rt; first == b"ab".as_slice());
    assert_eq!(rt; used, 3);
    let (second, used) = read_field(&out[3..]).ok_or("no empty field")?;
    assert!(rt; second.is_empty());
    assert_eq!(rt; used, 1);
    Ok(())
}

#[test]
fn what_is_no_field_is_not_read(rt: HostRuntime) {
    for bytes in [
        b"".as_slice(),
        b"\x02a".as_slice(),
        b"\x80".as_slice(),
        b"\x81\x00a".as_slice(),
        LONGEST.as_slice(),
    ] {
        assert!(rt; read_field(bytes).is_none(), "{bytes:?}");
    }
}

#[test]
fn the_highest_byte_comes_first(rt: HostRuntime) {
    assert!(rt; be32(0x0102_03ff) == [1, 2, 3, 255]);
    assert!(rt; be64(0x0102_0304_0506_07ff) == [1, 2, 3, 4, 5, 6, 7, 255]);
    assert!(rt; read_be32(&[1, 2, 3, 255, 9]) == Some(0x0102_03ff));
    assert!(rt; read_be64(&[1, 2, 3, 4, 5, 6, 7, 255, 9]) == Some(0x0102_0304_0506_07ff));
    assert!(rt; read_be32(&[1, 2, 3]).is_none());
    assert!(rt; read_be64(&[1, 2, 3, 4, 5, 6, 7]).is_none());
}

#[test]
fn what_begins_bytes_is_split_off(rt: HostRuntime) -> Result<(), Fail> {
    let bytes = b"\xac\x02\x02abc";
    let (number, rest) = split_varint(bytes).ok_or("no varint")?;
    assert_eq!(rt; number, 300);
    assert!(rt; rest == b"\x02abc".as_slice());
    let (content, rest) = split_field(rest).ok_or("no field")?;
    assert!(rt; content == b"ab".as_slice());
    assert!(rt; rest == b"c".as_slice());
    assert!(rt; split_field(rest).is_none());
    assert!(rt; split_varint(b"\x80").is_none());
    Ok(())
}

#[test]
fn numbers_end_below_the_limit(rt: HostRuntime) -> Result<(), Fail> {
    for (number, read) in [
        (0, true),
        (NUMBERS - 1, true),
        (NUMBERS, false),
        (u64::MAX, false),
    ] {
        let mut out = Vec::new(rt.alloc());
        put_varint(rt.alloc(), &mut out, number)?;
        out.push(7)?;
        match split_number(&out) {
            Some((found, rest)) => {
                assert!(rt; read, "{number}");
                assert_eq!(rt; found, number);
                assert!(rt; rest == [7].as_slice());
            }
            None => assert!(rt; !read, "{number}"),
        }
    }
    Ok(())
}

#[test]
fn each_law_is_called(_rt: HostRuntime) {
    laws::one_varint();
    laws::one_field();
    laws::each_four_bytes();
    laws::each_eight_bytes();
    laws::numbers_end_at_a_numeral();
}
