ghost use Rattle.std.specs.Prelude.{◌≡◌, ℕ, true, None, Some, IfOk};
ghost use Rattle.std.specs.List.{list_all};
ghost use Rattle.pb_script.specs.Script.{Lines, lines_of};
ghost use Rattle.pebble_cli.specs.Lines.{is_built, is_built_command, first_unbuilt, fault_of, fault_line, lines_of_script};

use pb_names::is_name;
use pb_script::{Command, Line, Numbered, ParseError, parse_numbered};
use std::alloc::Global;

/// The number of the one store that is built.
const STORE_A: u64 = 1;

/// The lines of a script, where each is built. The fault is the first line that is off the grammar or not built.
pub fn read_lines(alloc: Global, script: &[u8]) -> Result<Vec<Line>, ParseError>
    ensures ok { IfOk result (λ lines. (fault_line script.now ≡ None) × (lines.items ≡ lines_of_script script.now)) }
    ensures whole { IfOk result (λ lines. lines_of script.now ≡ Lines lines.items) }
    ensures built { IfOk result (λ lines. list_all is_built lines.items ≡ true) }
    ensures fault { (number : ℕ) → result ≡ Err (ParseError.Fault number) → fault_line script.now ≡ Some number }
{
    let read = parse_numbered(alloc, script)?;
    match fault_of(&read) {
        Some(number) => Err(ParseError::Fault(number)),
        None => Ok(read.into_lines()),
    }
}

/// The number of the first text that is off the grammar or not built. No block is built, so one that the fault lies in is told by its
/// first text.
fn fault_of(read: &Numbered) -> Option<u64>
    ensures { result ≡ fault_of read.now }
{
    first_unbuilt(read).or(read.within().or(read.fault()))
}

/// The number of the first line that isn't built.
fn first_unbuilt(read: &Numbered) -> Option<u64>
    ensures { result ≡ first_unbuilt read.now.lines }
{
    let mut place = 0;
    for line in read.lines() {
        if !is_built(line) {
            return Some(read.number(place));
        }
        place += 1;
    }
    None
}

/// Whether a line is built.
fn is_built(line: &Line) -> bool
    ensures { result ≡ is_built line.now }
{
    match line {
        Line::Open(store) => *store == STORE_A,
        Line::Whole { store, command } => *store == STORE_A && is_built_command(command),
        _ => false,
    }
}

/// Whether a command of a store that is built is built.
fn is_built_command(command: &Command) -> bool
    ensures { result ≡ is_built_command command.now }
{
    match command {
        Command::Set { key, value } => is_name(key.as_slice()) && is_name(value.as_slice()),
        Command::Get(key) => is_name(key.as_slice()),
        _ => false,
    }
}
