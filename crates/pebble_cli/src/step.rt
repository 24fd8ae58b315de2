ghost use Rattle.std.specs.Prelude.{◌≡◌, true, IfOk};
ghost use Rattle.pb_script.specs.declared.line.Line.TheVariants as line;
ghost use Rattle.pebble_cli.specs.Lines.{store_a, is_built, is_built_command};
ghost use Rattle.pebble_cli.specs.Steps.{as_line};

use crate::word::Word;
use pb_script::{Command, Line};
use std::alloc::{AllocError, Global};

/// A line of a script that is built.
#[derive(Drop)]
pub enum Step {
    /// `open A`
    Open,
    /// `A set k v`
    Set(Word, Word),
    /// `A get k`
    Get(Word),
}

impl Step {
    /// The step that a line is which is built.
    pub fn new(alloc: Global, line: &Line) -> Result<Step, AllocError>
        requires { is_built line.now ≡ true }
        ensures { IfOk result (λ step. as_line step ≡ line.now) }
    {
        match line {
            Line::Open(_) => Ok(Step::Open),
            Line::Whole { command, .. } => Step::of_command(alloc, command),
            _ => unreachable!(),
        }
    }

    fn of_command(alloc: Global, command: &Command) -> Result<Step, AllocError>
        requires { is_built_command command.now ≡ true }
        ensures { IfOk result (λ step. as_line step ≡ line.Whole store_a command.now) }
    {
        match command {
            Command::Set { key, value } => {
                let key = Word::new(alloc, key.as_slice())?;
                let value = Word::new(alloc, value.as_slice())?;
                Ok(Step::Set(key, value))
            }
            Command::Get(key) => Ok(Step::Get(Word::new(alloc, key.as_slice())?)),
            _ => unreachable!(),
        }
    }
}
