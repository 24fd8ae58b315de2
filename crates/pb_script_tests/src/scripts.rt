//! Scripts, against worked examples.
use pb_keys::Bytes;
use pb_script::{Command, Lane, Line, ParseError, TableLine, parse, parse_numbered};
use std::test::Fail;

fn is(bytes: &Bytes, text: &[u8]) -> bool {
    bytes.as_slice() == text
}

fn is_some(bytes: &Option<Bytes>, text: &[u8]) -> bool {
    match bytes {
        Some(bytes) => is(bytes, text),
        None => false,
    }
}

#[test]
fn what_says_nothing_is_skipped(rt: HostRuntime) -> Result<(), Fail> {
    let none: [&[u8]; 7] = [
        b"",
        b"\n\n\n",
        b"\r\n   \r\n",
        b"  ",
        b"# \x00\x7f\xff\r%\n#",
        b"#\r",
        b"\n#open A\n\n",
    ];
    for script in none {
        assert_eq!(rt; parse(rt.alloc(), script)?.len(), 0);
    }
    Ok(())
}

#[test]
fn lines_of_a_store_are_read(rt: HostRuntime) -> Result<(), Fail> {
    let script =
        b"open A\r\nclose B\nstop H\nturn C\nturn D bg\nlevels E\nstart F compact 5 a b\nG flush";
    let lines = parse(rt.alloc(), script)?;
    assert_eq!(rt; lines.len(), 8);
    assert!(rt; matches!(lines[0], Line::Open(1)));
    assert!(rt; matches!(lines[1], Line::Close(2)));
    assert!(rt; matches!(lines[2], Line::Stop(8)));
    assert!(rt;
        matches!(
            lines[3],
            Line::Turn {
                store: 3,
                lane: Lane::Fg
            }
        )
    );
    assert!(rt;
        matches!(
            lines[4],
            Line::Turn {
                store: 4,
                lane: Lane::Bg
            }
        )
    );
    assert!(rt; matches!(lines[5], Line::Levels(5)));
    assert!(rt;
        matches!(&lines[6], Line::Start { store: 6, command: Command::Compact { level: 5, lo, hi } } if is(lo, b"a") && is(hi, b"b"))
    );
    assert!(rt;
        matches!(
            lines[7],
            Line::Whole {
                store: 7,
                command: Command::Flush
            }
        )
    );
    Ok(())
}

#[test]
fn lines_of_the_family_are_read(rt: HostRuntime) -> Result<(), Fail> {
    let script = b"export t-1 e_2\ndrop h\nget p k%40\nunpin p\nobjects\ncalls\n";
    let lines = parse(rt.alloc(), script)?;
    assert_eq!(rt; lines.len(), 6);
    assert!(rt;
        matches!(&lines[0], Line::Export { table, name } if is(table, b"t-1") && is(name, b"e_2"))
    );
    assert!(rt; matches!(&lines[1], Line::DropHandle(handle) if is(handle, b"h")));
    assert!(rt; matches!(&lines[2], Line::GetAt { pin, key } if is(pin, b"p") && is(key, b"k@")));
    assert!(rt; matches!(&lines[3], Line::Unpin(pin) if is(pin, b"p")));
    assert!(rt; matches!(lines[4], Line::Objects));
    assert!(rt; matches!(lines[5], Line::Calls));
    Ok(())
}

#[test]
fn commands_on_rows_are_read(rt: HostRuntime) -> Result<(), Fail> {
    let script =
        b"  A  set k %00%fFz \nA del %\nA delrange a b\nA get k\nA scan %41 b\nA release\n";
    let lines = parse(rt.alloc(), script)?;
    assert_eq!(rt; lines.len(), 6);
    assert!(rt;
        matches!(&lines[0], Line::Whole { store: 1, command: Command::Set { key, value } } if is(key, b"k") && is(value, b"\x00\xffz"))
    );
    assert!(rt;
        matches!(&lines[1], Line::Whole { command: Command::Del(key), .. } if is(key, b""))
    );
    assert!(rt;
        matches!(&lines[2], Line::Whole { command: Command::DelRange { lo, hi }, .. } if is(lo, b"a") && is(hi, b"b"))
    );
    assert!(rt;
        matches!(&lines[3], Line::Whole { command: Command::Get(key), .. } if is(key, b"k"))
    );
    assert!(rt;
        matches!(&lines[4], Line::Whole { command: Command::Scan { lo, hi }, .. } if is(lo, b"A") && is(hi, b"b"))
    );
    assert!(rt;
        matches!(
            lines[5],
            Line::Whole {
                command: Command::Release,
                ..
            }
        )
    );
    Ok(())
}

#[test]
fn long_strings_are_read(rt: HostRuntime) -> Result<(), Fail> {
    let script =
        b"A set 0123456789abcd 0123456789abcde\nA set %30123456789abcd %30123456789abcde\n";
    let lines = parse(rt.alloc(), script)?;
    assert_eq!(rt; lines.len(), 2);
    for line in &lines {
        assert!(rt;
            matches!(line, Line::Whole { store: 1, command: Command::Set { key, value } } if is(key, b"0123456789abcd") && is(value, b"0123456789abcde"))
        );
    }
    Ok(())
}

#[test]
fn commands_on_tables_are_read(rt: HostRuntime) -> Result<(), Fail> {
    let script =
        b"A ingest t u\nstart A excise a b\nA ingestexcise a b t\nA external e a b suffix=%40 \nA lend a b as h\nA receive h\nA pin as p\nA external e a b prefix=% suffix=s\n";
    let lines = parse(rt.alloc(), script)?;
    assert_eq!(rt; lines.len(), 8);
    assert!(rt;
        matches!(&lines[0], Line::Whole { command: Command::Ingest(tables), .. } if tables.as_slice().len() == 2)
    );
    assert!(rt;
        matches!(&lines[1], Line::Start { command: Command::Excise { lo, hi }, .. } if is(lo, b"a") && is(hi, b"b"))
    );
    assert!(rt;
        matches!(&lines[2], Line::Whole { command: Command::IngestExcise(excise), .. } if is(&excise.get().lo, b"a") && is(&excise.get().hi, b"b") && excise.get().tables.as_slice().len() == 1)
    );
    assert!(rt;
        matches!(&lines[3], Line::Whole { command: Command::External(external), .. } if external.get().prefix.is_none() && is_some(&external.get().suffix, b"@"))
    );
    assert!(rt;
        matches!(&lines[4], Line::Whole { command: Command::Lend(lend), .. } if is(&lend.get().lo, b"a") && is(&lend.get().hi, b"b") && is(&lend.get().handle, b"h"))
    );
    assert!(rt;
        matches!(&lines[5], Line::Whole { command: Command::Receive(handle), .. } if is(handle, b"h"))
    );
    assert!(rt;
        matches!(&lines[6], Line::Whole { command: Command::Pin(pin), .. } if is(pin, b"p"))
    );
    assert!(rt;
        matches!(&lines[7], Line::Whole { command: Command::External(external), .. } if is_some(&external.get().prefix, b"") && is_some(&external.get().suffix, b"s"))
    );
    Ok(())
}

#[test]
fn a_block_is_one_line(rt: HostRuntime) -> Result<(), Fail> {
    let script = b"table t\n# end\n\n set k v\r\ndel j\n  \ndelrange a b\nend\ntable u\nend";
    let lines = parse(rt.alloc(), script)?;
    assert_eq!(rt; lines.len(), 2);
    let Line::Table {
        table,
        lines: block,
    } = &lines[0]
    else {
        return Err("a table".into());
    };
    assert!(rt; is(table, b"t"));
    let block = block.as_slice();
    assert_eq!(rt; block.len(), 3);
    assert!(rt;
        matches!(&block[0], TableLine::Set { key, value } if is(key, b"k") && is(value, b"v"))
    );
    assert!(rt; matches!(&block[1], TableLine::Del(key) if is(key, b"j")));
    assert!(rt;
        matches!(&block[2], TableLine::DelRange { lo, hi } if is(lo, b"a") && is(hi, b"b"))
    );
    assert!(rt; matches!(&lines[1], Line::Table { lines, .. } if lines.as_slice().is_empty()));
    Ok(())
}

// The first of these lines is off the grammar, whatever stands before or behind it.
#[test]
fn what_is_off_the_grammar_is_a_fault(rt: HostRuntime) -> Result<(), Fail> {
    let off: [&[u8]; 34] = [
        b"open a",
        b"open I",
        b"open AA",
        b"open",
        b"open A B",
        b"open A\r\r",
        b" # open A",
        b"Open A",
        b"turn A fg",
        b"turn A bg bg",
        b"start A get k",
        b"start A release",
        b"start flush",
        b"A",
        b"A set k",
        b"A set k v w",
        b"A get \x7f",
        b"A get \t",
        b"A get k%",
        b"A get %4",
        b"A get %4g",
        b"A get %%",
        b"A compact 6 a b",
        b"A compact 05 a b",
        b"A ingest",
        b"A ingest T",
        b"A ingestexcise a b",
        b"A external e a b prefix=",
        b"A external e a b suffix=s prefix=p",
        b"A external e a b name=p",
        b"A lend a b in h",
        b"table",
        b"end",
        b"drop hhhhhhhhhhhhhhhhhhhhhhhhhhhhhhhhhhhhhhhhhhhhhhhhh",
    ];
    for line in off {
        let mut script = Vec::from_slice(rt.alloc(), b"\nopen A\n")?;
        script.extend_from_slice(line)?;
        script.extend_from_slice(b"\r\nwhat\n")?;
        assert!(rt;
            matches!(
                parse(rt.alloc(), script.as_slice()),
                Err(ParseError::Fault(3))
            )
        );
        let read = parse_numbered(rt.alloc(), script.as_slice())?;
        assert_eq!(rt; read.fault(), Some(3));
        assert!(rt; read.within().is_none());
        assert_eq!(rt; read.lines().len(), 1);
    }
    Ok(())
}

// Behind comments, empty lines and blocks a line has the number of its first text.
#[test]
fn lines_have_the_numbers_of_their_first_texts(rt: HostRuntime) -> Result<(), Fail> {
    let script =
        b"open A\n# one\n\nopen B\nopen C\r\ntable t\n#\nset a b\nend\n  \nA get %41\nopen D";
    let read = parse_numbered(rt.alloc(), script)?;
    let numbers: [u64; 6] = [1, 4, 5, 6, 11, 12];
    assert_eq!(rt; read.lines().len(), 6);
    assert!(rt; read.fault().is_none());
    assert!(rt; read.within().is_none());
    for (place, number) in numbers.into_iter().enumerate() {
        if place < read.lines().len() {
            assert_eq!(rt; read.number(place), number, "line {place}");
        }
    }
    Ok(())
}

// The lines up to the fault stand, and where it lies in a block, the block's first text is told.
#[test]
fn the_block_of_a_fault_is_told(rt: HostRuntime) -> Result<(), Fail> {
    let cases: [(&[u8], u64, u64); 4] = [
        (b"open A\ntable t\nset a b\nbad\n", 2, 4),
        (b"open A\ntable t\nset a b", 2, 4),
        (b"open A\n#\ntable t\n", 3, 4),
        (b"open A\n\ntable t\n\n#\nA get k\nend\n", 3, 6),
    ];
    for (script, block, number) in cases {
        let read = parse_numbered(rt.alloc(), script)?;
        assert_eq!(rt; read.fault(), Some(number));
        assert_eq!(rt; read.within(), Some(block));
        assert_eq!(rt; read.lines().len(), 1);
    }
    Ok(())
}

// A fault far down is told by its number, behind lines and behind comments.
#[test]
fn a_fault_far_down_is_told(rt: HostRuntime) -> Result<(), Fail> {
    let texts: [&[u8]; 3] = [b"open A\n", b"# open A\n", b"table t\nend\n"];
    for text in texts {
        let mut script = Vec::new(rt.alloc());
        for _ in 0..1_200 {
            script.extend_from_slice(text)?;
        }
        script.extend_from_slice(b"A sat a 1\nopen B\n")?;
        let number = if text.len() == 12 { 2_401 } else { 1_201 };
        let read = parse_numbered(rt.alloc(), script.as_slice())?;
        assert_eq!(rt; read.fault(), Some(number));
        assert!(rt;
            matches!(parse(rt.alloc(), script.as_slice()), Err(ParseError::Fault(n)) if n == number)
        );
    }
    Ok(())
}

#[test]
fn the_first_fault_is_told(rt: HostRuntime) {
    let cases: [(&[u8], u64); 8] = [
        (b"open A\r\nA get \x7f\n", 2),
        (b"open A\r", 1),
        (b"table t\nset a b\n", 3),
        (b"table t\nset a b", 3),
        (b"table t", 2),
        (b"table t\nget a\n", 2),
        (b"table t\n\n#\nend x\nset\n", 4),
        (b"table t\ntable u\nend\n", 2),
    ];
    for (script, number) in cases {
        assert!(rt;
            matches!(parse(rt.alloc(), script), Err(ParseError::Fault(n)) if n == number),
            "line {number}"
        );
    }
}

#[test]
fn the_texts_of_errors(rt: HostRuntime) -> Result<(), Fail> {
    let text = format!(in rt.alloc(); "{}, {}", ParseError::Fault(7), ParseError::NoMemory)?;
    assert_eq!(rt; text.as_str(), "fault line 7, out of memory");
    Ok(())
}
