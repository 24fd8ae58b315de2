ghost use Rattle.std.specs.Prelude.{◌<◌};

use pb_keys::{Bytes, MAX_VALUE, Span};
use pb_rows::{Layer, Row};
use pb_table::{NEW_TABLE_FORMAT, laws, read_table, write_table};
use std::alloc::Global;
use std::test::Fail;

// The spans from `a` to `c` and from `d` to `f`; `b` deleted, `c@1` to no bytes, `d` to `12`.
const MIXED: [u8; 26] = [
    1, 2, 1, b'a', 1, b'c', 1, b'd', 1, b'f', 3, 1, b'b', 0, 3, b'c', b'@', b'1', 1, 0, 1, b'd', 1,
    2, b'1', b'2',
];

fn layer_of(
    alloc: Global,
    ends: &[(&str, &str)],
    texts: &[(&str, Option<&str>)],
) -> Result<Layer, Fail> {
    let mut dels = Vec::new(alloc);
    for (lo, hi) in ends {
        dels.push(Span::new(alloc, lo.as_bytes(), hi.as_bytes())?)?;
    }
    let mut rows = Vec::new(alloc);
    for (key, text) in texts {
        let value = text.map(|text| text.as_bytes());
        let row = Row::of(alloc, key.as_bytes(), value)?;
        if !row.is_short() {
            return Err(Fail::from("too long a value"));
        }
        rows.push(row)?;
    }
    let layer = Layer::new(alloc, dels, rows)?;
    Ok(layer)
}

fn written(alloc: Global, layer: &Layer) -> Result<Option<Bytes>, Fail> {
    let dels = layer.dels();
    let rows = layer.rows();
    if dels.is_empty() && rows.is_empty() {
        return Ok(None);
    }
    let bytes = write_table(alloc, layer, NEW_TABLE_FORMAT)?;
    Ok(Some(bytes))
}

// What is written of the layer that the bytes spell; None where they are no table.
fn rewritten(alloc: Global, bytes: &[u8]) -> Result<Option<Bytes>, Fail> {
    let Some(layer) = read_table(alloc, bytes)? else {
        return Ok(None);
    };
    written(alloc, &layer)
}

fn is_table(alloc: Global, bytes: &[u8]) -> Result<bool, Fail> {
    let layer = read_table(alloc, bytes)?;
    Ok(layer.is_some())
}

// Whether the bytes are no table, or are written of the layer that they spell.
fn is_stable(alloc: Global, bytes: &[u8]) -> Result<bool, Fail> {
    match rewritten(alloc, bytes)? {
        Some(again) => Ok(again.as_slice() == bytes),
        None => Ok(true),
    }
}

// Whether the layer is written to these bytes, and is read of them.
fn is_spelled(
    alloc: Global,
    ends: &[(&str, &str)],
    texts: &[(&str, Option<&str>)],
    spelling: &[u8],
) -> Result<bool, Fail> {
    let layer = layer_of(alloc, ends, texts)?;
    let bytes = written(alloc, &layer)?.ok_or("no table")?;
    let again = rewritten(alloc, spelling)?.ok_or("not read")?;
    Ok(bytes.as_slice() == spelling && again.as_slice() == spelling)
}

#[test]
fn a_layer_has_one_spelling(rt: HostRuntime) -> Result<(), Fail> {
    let alloc = rt.alloc();
    let row = [1, 0, 1, 1, b'a', 1, 1, b'1'];
    assert!(rt; is_spelled(alloc, &[], &[("a", Some("1"))], &row)?);
    let span = [1, 1, 1, b'a', 1, b'c', 0];
    assert!(rt; is_spelled(alloc, &[("a", "c")], &[], &span)?);
    let ends = [("a", "c"), ("d", "f")];
    let texts = [("b", None), ("c@1", Some("")), ("d", Some("12"))];
    assert!(rt; is_spelled(alloc, &ends, &texts, &MIXED)?);
    Ok(())
}

#[test]
fn no_prefix_of_a_table_is_one(rt: HostRuntime) -> Result<(), Fail> {
    for len in 0..MIXED.len() {
        assert!(rt; !is_table(rt.alloc(), &MIXED[..len])?, "{len} bytes");
    }
    assert!(rt; is_table(rt.alloc(), &MIXED)?);
    Ok(())
}

#[test]
fn what_is_read_is_written_to_the_same_bytes(rt: HostRuntime) -> Result<(), Fail> {
    for at in 0..MIXED.len() {
        for byte in [0, 1, 0x7f, 0x80, 0xff] {
            let mut bytes = MIXED;
            bytes[at] = byte;
            assert!(rt; is_stable(rt.alloc(), &bytes)?, "{byte} at {at}");
        }
    }
    Ok(())
}

#[test]
fn what_spells_no_layer_is_no_table(rt: HostRuntime) -> Result<(), Fail> {
    for (bytes, why) in [
        (b"".as_slice(), "nothing"),
        (b"\x00\x00\x01\x01a\x00".as_slice(), "format 0"),
        (b"\x02\x00\x01\x01a\x00".as_slice(), "format 2"),
        (b"\x03\x00\x01\x01a\x00".as_slice(), "format 3"),
        (b"\x01\x00\x00".as_slice(), "the empty layer"),
        (
            b"\x01\x00\x01\x01a\x00\x00".as_slice(),
            "a byte behind the rows",
        ),
        (
            b"\x01\x00\x01\x01a\x02".as_slice(),
            "another mark of a value",
        ),
        (b"\x01\x00\x01\x00\x00".as_slice(), "an empty key"),
        (b"\x01\x00\x01\x01@\x00".as_slice(), "a suffix alone"),
        (b"\x01\x00\x02\x01a\x00\x01a\x00".as_slice(), "equal keys"),
        (
            b"\x01\x00\x02\x02a!\x00\x03a@9\x00".as_slice(),
            "falling keys",
        ),
        (b"\x01\x01\x01a\x01a\x00".as_slice(), "equal ends"),
        (b"\x01\x01\x01b\x01a\x00".as_slice(), "falling ends"),
        (
            b"\x01\x01\x01a\x02a@\x00".as_slice(),
            "an end with an at sign",
        ),
        (b"\x01\x01\x00\x01a\x00".as_slice(), "an empty end"),
        (
            b"\x01\x02\x01a\x01b\x01b\x01c\x00".as_slice(),
            "touching spans",
        ),
        (
            b"\x01\x02\x01c\x01d\x01a\x01b\x00".as_slice(),
            "falling spans",
        ),
        (
            b"\x01\x80\x00\x01\x01a\x00".as_slice(),
            "a longer spelling of a number",
        ),
        (
            b"\x01\x00\xff\xff\xff\xff\xff\xff\xff\xff\xff\x01\x01a\x00".as_slice(),
            "more rows than bytes",
        ),
    ] {
        assert!(rt; !is_table(rt.alloc(), bytes)?, "{why}");
    }
    Ok(())
}

// The table of the row `a` with so many bytes of value, of which the length takes three bytes.
fn with_value(alloc: Global, len: usize) -> Result<Vec<u8>, Fail>
    requires { len < 2097152 }
{
    let mut bytes = Vec::from_slice(alloc, b"\x01\x00\x01\x01a\x01")?;
    bytes.push((128 + len % 128) as u8)?;
    bytes.push((128 + len / 128 % 128) as u8)?;
    bytes.push((len / 16_384) as u8)?;
    for _ in 0..len {
        bytes.push(b'v')?;
    }
    Ok(bytes)
}

#[test]
fn values_have_65_536_bytes_at_most(rt: HostRuntime) -> Result<(), Fail> {
    let longest = with_value(rt.alloc(), MAX_VALUE)?;
    assert!(rt; is_table(rt.alloc(), &longest)?);
    assert!(rt; is_stable(rt.alloc(), &longest)?);
    let longer = with_value(rt.alloc(), MAX_VALUE + 1)?;
    assert!(rt; !is_table(rt.alloc(), &longer)?);
    Ok(())
}

fn add_field(out: &mut Vec<u8>, text: &str) -> Result<(), Fail> {
    out.push((text.len() % 128) as u8)?;
    out.extend_from_slice(text.as_bytes())?;
    Ok(())
}

// The bytes of few short spans and rows, put together as the format says.
fn plain(
    alloc: Global,
    ends: &[(&str, &str)],
    texts: &[(&str, Option<&str>)],
) -> Result<Vec<u8>, Fail> {
    let mut out = Vec::new(alloc);
    out.push(1)?;
    out.push((ends.len() % 128) as u8)?;
    for (lo, hi) in ends {
        add_field(&mut out, lo)?;
        add_field(&mut out, hi)?;
    }
    out.push((texts.len() % 128) as u8)?;
    for (key, text) in texts {
        add_field(&mut out, key)?;
        match text {
            None => out.push(0)?,
            Some(text) => {
                out.push(1)?;
                add_field(&mut out, text)?;
            }
        }
    }
    Ok(out)
}

#[test]
fn small_layers_are_written_as_a_plain_loop_does(rt: HostRuntime) -> Result<(), Fail> {
    let alloc = rt.alloc();
    let ends = [("a", "b"), ("b\0", "c"), ("d", "ee")];
    let texts = [
        ("a", None),
        ("a@1", Some("")),
        ("a@2", Some("v")),
        ("b", Some("@")),
    ];
    for dels in [&ends[..0], &ends[..1], &ends[..2], &ends[2..]] {
        for from in 0..texts.len() {
            for to in from + 1..texts.len() + 1 {
                let layer = layer_of(alloc, dels, &texts[from..to])?;
                let bytes = written(alloc, &layer)?.ok_or("no table")?;
                let expected = plain(alloc, dels, &texts[from..to])?;
                assert_eq!(rt; bytes.as_slice(), expected.as_slice(), "{from} to {to}");
            }
        }
    }
    Ok(())
}

#[test]
fn the_laws_of_tables_hold() {
    laws::one_layer();
    laws::formats_are_numbered();
    laws::size_is_bounded();
}
