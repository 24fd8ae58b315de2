ghost use Rattle.std.specs.Prelude.{◌≡◌, ◌+◌, ◌<◌, ◌∷◌, ◌^◌, ℕ, length, IfOk, OnErr, OnOk};
ghost use Rattle.std.specs.Io.BufRead.{strip_last};
ghost use Rattle.pb_script.specs.Answers.{Gives};
ghost use Rattle.pb_script.specs.Texts.{texts_of};
ghost use Rattle.pb_script.specs.Words.{is_skipped};
ghost use Rattle.pb_script.specs.Lines.{set_line};
ghost use Rattle.pb_script.specs.Runs.{with_numbers, AreKept};
ghost use Rattle.pb_script.specs.Script.{Lines, Fault, after_line, after_read, with_lines, with_numbered, block_at, said, step, numbered, lines_of};

use crate::cuts::cut;
use crate::fault::WordFault;
use crate::fields::first_word;
use crate::lines::read_line;
use crate::runs::Runs;
use crate::sets::set_words;
use crate::spelling::read_string;
use crate::table_lines::{is_end, read_table_line};
use crate::{Command, Line, Numbered, ParseError, TableLine};
use pb_keys::{Bytes, List};
use std::alloc::{AllocError, Global};
use std::mem::replace;

/// Where the next text of a script stands.
#[derive(Debug, Drop)]
pub(crate) enum Place {
    Between,
    /// In the block of this table, behind these lines of it.
    Within(Bytes, List<TableLine>),
}

/// The lines of a script, in order, or the first line that is off the grammar: `docs/FORMATS.md`, "Scripts".
///
/// A table's block is one line. A block without its `end` is a fault behind the last line.
pub fn parse(alloc: Global, script: &[u8]) -> Result<Vec<Line>, ParseError>
    ensures ok { IfOk result (λ lines. lines_of script.now ≡ Lines lines.items) }
    ensures fault { (number : ℕ) → result ≡ Err (ParseError.Fault number) → lines_of script.now ≡ Fault number }
{
    let read = parse_numbered(alloc, script)?;
    match read.fault() {
        None => Ok(read.into_lines()),
        Some(number) => Err(ParseError::Fault(number)),
    }
}

/// The lines of a script up to its first fault, each with the number of its first text, and the fault: `docs/FORMATS.md`, "Scripts".
/// The error is want of memory, and leaves nothing.
pub fn parse_numbered(alloc: Global, script: &[u8]) -> Result<Numbered, AllocError>
    ensures ok { IfOk result (λ read. read ≡ numbered script.now) }
{
    let mut lines = Vec::new(alloc);
    let mut runs = Runs::new(alloc);
    let mut place = Place::Between;
    let mut block = 0;
    let mut number = 1;
    let mut rest = script;
    while !rest.is_empty() {
        let (text, behind) = first_text(rest);
        let within = block_at(&place, block);
        block = within.unwrap_or(number);
        match numbered_step(alloc, &mut place, &mut lines, &mut runs, text, block) {
            Ok(()) => {}
            Err(WordFault::OffGrammar) => {
                return Ok(Numbered::new(lines, runs, within, Some(number)));
            }
            Err(WordFault::NoMemory) => return Err(AllocError),
        }
        rest = behind;
        number += 1;
    }
    match place {
        Place::Between => Ok(Numbered::new(lines, runs, None, None)),
        Place::Within(_, _) => Ok(Numbered::new(lines, runs, Some(block), Some(number))),
    }
}

/// The number of the first text of the block in which the next text stands.
fn block_at(place: &Place, block: u64) -> Option<u64>
    ensures { result ≡ block_at place.now block }
{
    match place {
        Place::Between => None,
        Place::Within(_, _) => Some(block),
    }
}

/// The text of the first line, and what stands behind its end.
fn first_text(script: &[u8]) -> (&[u8], &[u8])
    requires { 0 < length script.now }
    ensures texts { texts_of script.now ≡ result.0.now ∷ texts_of result.1.now }
    ensures shorter { length result.1.now < length script.now }
{
    match cut(script, b'\n') {
        Some((text, behind)) => (without_return(text), behind),
        None => (script, b""),
    }
}

fn without_return(text: &[u8]) -> &[u8]
    ensures { result.now ≡ strip_last 13 text.now }
{
    match text {
        [front @ .., b'\r'] => front,
        _ => text,
    }
}

/// What `step` does, with the number of the first text of what the text belongs to.
fn numbered_step(
    alloc: Global,
    place: &mut Place,
    lines: &mut Vec<Line>,
    runs: &mut Runs,
    text: &[u8],
    number: u64,
) -> Result<(), WordFault>
    requires kept { AreKept runs.old.runs.items runs.old.next (length lines.old.items) }
    requires small { number + 1 < 2 ^ 64 }
    ensures kept { OnOk result (AreKept runs.new.runs.items runs.new.next (length lines.new.items)) }
    ensures read { Gives (λ x. (place.new, with_numbers runs.new.runs.items lines.new.items)) result
        (with_numbered (with_numbers runs.old.runs.items lines.old.items) number (step place.old text.now)) }
    ensures same { result ≡ Err WordFault.OffGrammar → (lines.new.items ≡ lines.old.items) × (runs.new ≡ runs.old) }
{
    let at = lines.len();
    step(alloc, place, lines, text)?;
    if at < lines.len() {
        runs.keep(at, number)?;
    }
    Ok(())
}

/// Brings the place behind a text, and appends the line that the text ends.
#[tactic(auto, unfolding(crate::specs::Script::step))]
fn step(
    alloc: Global,
    place: &mut Place,
    lines: &mut Vec<Line>,
    text: &[u8],
) -> Result<(), WordFault>
    ensures same { OnErr result (lines.new.items ≡ lines.old.items) }
    ensures read { Gives (λ x. (place.new, lines.new.items)) result (with_lines lines.old.items (step place.old text.now)) }
{
    if is_skipped(text) {
        return Ok(());
    }
    parse_line(alloc, place, lines, text)
}

/// Whether the text is a comment, or has no word.
fn is_skipped(text: &[u8]) -> bool
    ensures { result ≡ is_skipped text.now }
{
    match text {
        [b'#', ..] => true,
        _ => first_word(text).is_none(),
    }
}

#[tactic(auto, unfolding(crate::specs::Script::said))]
fn parse_line(
    alloc: Global,
    place: &mut Place,
    lines: &mut Vec<Line>,
    text: &[u8],
) -> Result<(), WordFault>
    ensures same { OnErr result (lines.new.items ≡ lines.old.items) }
    ensures read { Gives (λ x. (place.new, lines.new.items)) result (with_lines lines.old.items (said place.old text.now)) }
{
    match replace(place, Place::Between) {
        Place::Between => parse_between(alloc, place, lines, text),
        Place::Within(table, block) => parse_within(alloc, table, block, place, lines, text),
    }
}

#[tactic(auto, unfolding(crate::specs::Script::said))]
fn parse_between(
    alloc: Global,
    place: &mut Place,
    lines: &mut Vec<Line>,
    text: &[u8],
) -> Result<(), WordFault>
    ensures same { OnErr result (lines.new.items ≡ lines.old.items) }
    ensures read { Gives (λ x. (place.new, lines.new.items)) result (with_lines lines.old.items (said Place.Between text.now)) }
{
    if let Some(words) = set_words(text) {
        *place = Place::Between;
        return keep_set(alloc, lines, words.store, words.key, words.value);
    }
    keep(place, lines, read_line(alloc, text)?)
}

/// Appends the line that the words of a `set` say.
#[tactic(auto, unfolding(crate::specs::Lines::set_line))]
fn keep_set(
    alloc: Global,
    lines: &mut Vec<Line>,
    store: u64,
    key: &[u8],
    value: &[u8],
) -> Result<(), WordFault>
    ensures same { OnErr result (lines.new.items ≡ lines.old.items) }
    ensures read { Gives (λ x. (Place.Between, lines.new.items)) result (with_lines lines.old.items (after_read (set_line store key.now value.now))) }
{
    let key = read_string(alloc, key)?;
    let value = read_string(alloc, value)?;
    // The strings are made last, and the line where it is to stand: each move of a line costs as much as its reading.
    lines.push(Line::Whole {
        store,
        command: Command::Set { key, value },
    })?;
    Ok(())
}

/// Appends a line, or begins the block of a table.
fn keep(place: &mut Place, lines: &mut Vec<Line>, line: Line) -> Result<(), WordFault>
    ensures same { OnErr result (lines.new.items ≡ lines.old.items) }
    ensures read { Gives (λ x. (place.new, lines.new.items)) result (with_lines lines.old.items (Some (after_line line))) }
{
    match line {
        Line::Table {
            table,
            lines: block,
        } => {
            *place = Place::Within(table, block);
        }
        line => {
            *place = Place::Between;
            lines.push(line)?;
        }
    }
    Ok(())
}

#[tactic(auto, unfolding(crate::specs::Script::said))]
fn parse_within(
    alloc: Global,
    table: Bytes,
    block: List<TableLine>,
    place: &mut Place,
    lines: &mut Vec<Line>,
    text: &[u8],
) -> Result<(), WordFault>
    ensures same { OnErr result (lines.new.items ≡ lines.old.items) }
    ensures read { Gives (λ x. (place.new, lines.new.items)) result (with_lines lines.old.items (said (Place.Within table block) text.now)) }
{
    if is_end(text) {
        *place = Place::Between;
        lines.push(Line::Table {
            table,
            lines: block,
        })?;
        return Ok(());
    }
    let line = read_table_line(alloc, text)?;
    let mut block = block.into_vec();
    block.push(line)?;
    *place = Place::Within(table, List::from_vec(block));
    Ok(())
}
