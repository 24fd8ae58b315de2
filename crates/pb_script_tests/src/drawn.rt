//! Scripts: 200 drawn ones, each rewritten at random, which say the same lines with numbers told by a plain counter.
use pb_keys::Bytes;
use pb_script::{Command, Lane, Line, TableLine, parse_numbered};
use std::alloc::{AllocError, Global};
use std::test::Fail;

#[derive(Drop)]
struct Draws {
    seed: u64,
}

impl Draws {
    fn next(&mut self) -> u64 {
        self.seed = self
            .seed
            .wrapping_mul(6_364_136_223_846_793_005)
            .wrapping_add(1_442_695_040_888_963_407);
        self.seed >> 33
    }

    fn is_heads(&mut self) -> bool {
        self.next() % 2 == 0
    }
}

/// A script with one space between words and nothing else that may lack, and the same rewritten, with what it has to be read as.
#[derive(Drop)]
struct Pair {
    plain: Vec<u8>,
    written: Vec<u8>,
    texts: u64,
    numbers: Vec<u64>,
    within: Option<u64>,
    fault: Option<u64>,
}

fn new_pair(alloc: Global) -> Pair {
    Pair {
        plain: Vec::new(alloc),
        written: Vec::new(alloc),
        texts: 0,
        numbers: Vec::new(alloc),
        within: None,
        fault: None,
    }
}

fn put_spaces(draws: &mut Draws, out: &mut Vec<u8>) -> Result<(), AllocError> {
    for _ in 0..draws.next() % 3 {
        out.push(b' ')?;
    }
    Ok(())
}

fn put_end(draws: &mut Draws, out: &mut Vec<u8>) -> Result<(), AllocError> {
    if draws.is_heads() {
        out.push(b'\r')?;
    }
    out.push(b'\n')?;
    Ok(())
}

/// A text that says nothing: a comment of any bytes but LF, spaces, or nothing.
fn put_skipped(draws: &mut Draws, out: &mut Vec<u8>) -> Result<(), AllocError> {
    if draws.is_heads() {
        out.push(b'#')?;
        for _ in 0..draws.next() % 6 {
            let byte = (draws.next() % 256) as u8;
            out.push(if byte == b'\n' { b'\r' } else { byte })?;
        }
    } else {
        put_spaces(draws, out)?;
    }
    put_end(draws, out)
}

fn digit(value: u8, is_upper: bool) -> u8 {
    let letter = if is_upper { b'A' } else { b'a' };
    if value < 10 {
        b'0'.wrapping_add(value)
    } else {
        letter.wrapping_add(value).wrapping_sub(10)
    }
}

fn put_code(byte: u8, upper: (bool, bool), out: &mut Vec<u8>) -> Result<(), AllocError> {
    out.push(b'%')?;
    out.push(digit(byte / 16, upper.0))?;
    out.push(digit(byte % 16, upper.1))?;
    Ok(())
}

fn is_plain(byte: u8) -> bool {
    33 <= byte && byte <= 126 && byte != b'%'
}

/// Begins a text: in the rewritten script texts that say nothing may come before it, and spaces.
fn begin(draws: &mut Draws, pair: &mut Pair) -> Result<(), AllocError> {
    for _ in 0..(draws.next() % 5).saturating_sub(2) {
        put_skipped(draws, &mut pair.written)?;
        pair.texts = pair.texts.wrapping_add(1);
    }
    pair.texts = pair.texts.wrapping_add(1);
    put_spaces(draws, &mut pair.written)
}

fn end(draws: &mut Draws, pair: &mut Pair) -> Result<(), AllocError> {
    pair.plain.push(b'\n')?;
    put_spaces(draws, &mut pair.written)?;
    put_end(draws, &mut pair.written)
}

fn put_word(pair: &mut Pair, word: &[u8]) -> Result<(), AllocError> {
    pair.plain.extend_from_slice(word)?;
    pair.written.extend_from_slice(word)
}

fn part(draws: &mut Draws, pair: &mut Pair) -> Result<(), AllocError> {
    pair.plain.push(b' ')?;
    put_spaces(draws, &mut pair.written)?;
    pair.written.push(b' ')?;
    Ok(())
}

fn put_next(draws: &mut Draws, pair: &mut Pair, word: &[u8]) -> Result<(), AllocError> {
    part(draws, pair)?;
    put_word(pair, word)
}

/// A byte of a string: in the rewritten script perhaps by its code where it is plain, and the code's digits of either case.
fn put_byte(draws: &mut Draws, pair: &mut Pair, byte: u8) -> Result<(), AllocError> {
    if !is_plain(byte) {
        put_code(byte, (false, false), &mut pair.plain)?;
        let upper = (draws.is_heads(), draws.is_heads());
        return put_code(byte, upper, &mut pair.written);
    }
    pair.plain.push(byte)?;
    if draws.is_heads() {
        pair.written.push(byte)?;
        return Ok(());
    }
    let upper = (draws.is_heads(), draws.is_heads());
    put_code(byte, upper, &mut pair.written)
}

/// A drawn string of up to 19 bytes, as the next word.
fn put_string(draws: &mut Draws, pair: &mut Pair) -> Result<(), AllocError> {
    part(draws, pair)?;
    let length = draws.next() % 20;
    if length == 0 {
        return put_word(pair, b"%");
    }
    for _ in 0..length {
        let byte = if draws.is_heads() {
            (draws.next() % 256) as u8
        } else {
            b'a'.wrapping_add((draws.next() % 26) as u8)
        };
        put_byte(draws, pair, byte)?;
    }
    Ok(())
}

fn letter(draws: &mut Draws) -> [u8; 1] {
    [b'A'.wrapping_add((draws.next() % 8) as u8)]
}

fn keep(pair: &mut Pair) -> Result<(), AllocError> {
    let number = pair.texts;
    pair.numbers.push(number)?;
    Ok(())
}

/// A line of one text, but for its end.
fn put_line(draws: &mut Draws, pair: &mut Pair) -> Result<(), AllocError> {
    let store = letter(draws);
    match draws.next() % 6 {
        0 => {
            put_word(pair, b"open")?;
            put_next(draws, pair, &store)
        }
        1 => {
            put_word(pair, b"turn")?;
            put_next(draws, pair, &store)?;
            put_next(draws, pair, b"bg")
        }
        2 => {
            put_word(pair, &store)?;
            put_next(draws, pair, b"get")?;
            put_string(draws, pair)
        }
        3 => {
            put_word(pair, b"start")?;
            put_next(draws, pair, &store)?;
            put_next(draws, pair, b"excise")?;
            put_string(draws, pair)?;
            put_string(draws, pair)
        }
        4 => {
            put_word(pair, &store)?;
            put_next(draws, pair, b"ingest")?;
            put_next(draws, pair, b"t-1")?;
            put_next(draws, pair, b"end")
        }
        _ => {
            put_word(pair, &store)?;
            put_next(draws, pair, b"set")?;
            put_string(draws, pair)?;
            put_string(draws, pair)
        }
    }
}

fn put_table_line(draws: &mut Draws, pair: &mut Pair) -> Result<(), AllocError> {
    begin(draws, pair)?;
    match draws.next() % 3 {
        0 => put_word(pair, b"set")?,
        1 => put_word(pair, b"delrange")?,
        _ => {
            put_word(pair, b"del")?;
            put_string(draws, pair)?;
            return end(draws, pair);
        }
    }
    put_string(draws, pair)?;
    put_string(draws, pair)?;
    end(draws, pair)
}

/// A block, but for its end. The answer is the number of its first text.
fn put_table(draws: &mut Draws, pair: &mut Pair) -> Result<u64, AllocError> {
    begin(draws, pair)?;
    let number = pair.texts;
    put_word(pair, b"table")?;
    put_next(draws, pair, b"t_9")?;
    end(draws, pair)?;
    for _ in 0..draws.next() % 4 {
        put_table_line(draws, pair)?;
    }
    Ok(number)
}

fn put_whole_table(draws: &mut Draws, pair: &mut Pair) -> Result<(), AllocError> {
    let number = put_table(draws, pair)?;
    pair.numbers.push(number)?;
    begin(draws, pair)?;
    put_word(pair, b"end")?;
    end(draws, pair)
}

fn put_any(draws: &mut Draws, pair: &mut Pair) -> Result<(), AllocError> {
    if draws.next() % 5 == 0 {
        return put_whole_table(draws, pair);
    }
    begin(draws, pair)?;
    keep(pair)?;
    put_line(draws, pair)?;
    end(draws, pair)
}

/// A text that says nothing where it stands, and what is never read behind it.
fn put_off(draws: &mut Draws, pair: &mut Pair) -> Result<(), AllocError> {
    begin(draws, pair)?;
    pair.fault = Some(pair.texts);
    put_word(pair, b"end")?;
    put_next(draws, pair, b"what")?;
    end(draws, pair)?;
    put_any(draws, pair)?;
    let _ = pair.numbers.pop();
    Ok(())
}

/// How a script ends: in a third of the cases with a fault between lines, within a block, or for a block's missing end.
fn put_last(draws: &mut Draws, pair: &mut Pair) -> Result<(), AllocError> {
    match draws.next() % 9 {
        0 => put_off(draws, pair),
        1 => {
            pair.within = Some(put_table(draws, pair)?);
            put_off(draws, pair)
        }
        2 => {
            pair.within = Some(put_table(draws, pair)?);
            pair.fault = Some(pair.texts.wrapping_add(1));
            Ok(())
        }
        _ => Ok(()),
    }
}

/// The last LF of the rewritten script may lack, where no CR stands before it.
fn cut_end(draws: &mut Draws, pair: &mut Pair) {
    if draws.is_heads() && !pair.written.as_slice().ends_with(b"\r\n") {
        let _ = pair.written.pop();
    }
}

fn same(one: &Bytes, other: &Bytes) -> bool {
    one.as_slice() == other.as_slice()
}

fn are_same(one: &[Bytes], other: &[Bytes]) -> bool {
    one.len() == other.len()
        && one.iter().enumerate().all(|(at, bytes)| match other.get(at) {
            Some(second) => same(bytes, second),
            None => false,
        })
}

fn same_table_line(one: &TableLine, other: &TableLine) -> bool {
    match (one, other) {
        (TableLine::Set { key, value }, TableLine::Set { key: k, value: v }) => {
            same(key, k) && same(value, v)
        }
        (TableLine::Del(key), TableLine::Del(k)) => same(key, k),
        (TableLine::DelRange { lo, hi }, TableLine::DelRange { lo: l, hi: h }) => {
            same(lo, l) && same(hi, h)
        }
        _ => false,
    }
}

fn same_block(one: &[TableLine], other: &[TableLine]) -> bool {
    one.len() == other.len()
        && one.iter().enumerate().all(|(at, line)| match other.get(at) {
            Some(second) => same_table_line(line, second),
            None => false,
        })
}

fn same_command(one: &Command, other: &Command) -> bool {
    match (one, other) {
        (Command::Set { key, value }, Command::Set { key: k, value: v }) => {
            same(key, k) && same(value, v)
        }
        (Command::Get(key), Command::Get(k)) => same(key, k),
        (Command::Excise { lo, hi }, Command::Excise { lo: l, hi: h }) => {
            same(lo, l) && same(hi, h)
        }
        (Command::Ingest(tables), Command::Ingest(others)) => {
            are_same(tables.as_slice(), others.as_slice())
        }
        _ => false,
    }
}

/// Of the kinds that are drawn.
fn same_line(one: &Line, other: &Line) -> bool {
    match (one, other) {
        (Line::Open(store), Line::Open(second)) => store == second,
        (
            Line::Turn {
                store,
                lane: Lane::Bg,
            },
            Line::Turn {
                store: second,
                lane: Lane::Bg,
            },
        ) => store == second,
        (
            Line::Whole { store, command },
            Line::Whole {
                store: second,
                command: of,
            },
        ) => store == second && same_command(command, of),
        (
            Line::Start { store, command },
            Line::Start {
                store: second,
                command: of,
            },
        ) => store == second && same_command(command, of),
        (
            Line::Table { table, lines },
            Line::Table {
                table: name,
                lines: block,
            },
        ) => same(table, name) && same_block(lines.as_slice(), block.as_slice()),
        _ => false,
    }
}

fn drawn(alloc: Global, draws: &mut Draws) -> Result<Pair, AllocError> {
    let mut pair = new_pair(alloc);
    for _ in 0..draws.next() % 24 {
        put_any(draws, &mut pair)?;
    }
    put_last(draws, &mut pair)?;
    cut_end(draws, &mut pair);
    Ok(pair)
}

#[test]
fn rewritten_scripts_say_the_same(rt: HostRuntime) -> Result<(), Fail> {
    let mut draws = Draws { seed: 28 };
    let (mut faults, mut blocks) = (0, 0);
    for script in 0..200 {
        let pair = drawn(rt.alloc(), &mut draws)?;
        let plain = parse_numbered(rt.alloc(), pair.plain.as_slice())?;
        let read = parse_numbered(rt.alloc(), pair.written.as_slice())?;
        assert_eq!(rt; plain.lines().len(), pair.numbers.len(), "script {script}");
        assert_eq!(rt; read.lines().len(), pair.numbers.len(), "script {script}");
        assert_eq!(rt; read.fault(), pair.fault, "script {script}");
        assert_eq!(rt; read.within(), pair.within, "script {script}");
        for (place, line) in read.lines().iter().enumerate() {
            let number = pair.numbers.get(place).ok_or("a number")?;
            let other = plain.lines().get(place).ok_or("a line")?;
            assert!(rt; same_line(line, other), "script {script}, line {place}");
            if place < read.lines().len() {
                assert_eq!(rt;
                    read.number(place),
                    *number,
                    "script {script}, line {place}"
                );
            }
        }
        faults = if pair.fault.is_some() { 1 } else { faults };
        blocks = if pair.within.is_some() { 1 } else { blocks };
    }
    assert!(rt; faults == 1 && blocks == 1);
    Ok(())
}
