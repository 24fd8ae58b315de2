ghost use Rattle.std.specs.Prelude.{◌≡◌, ◌≢◌, IfOk, MatchResult, map, string_bytes, false};
ghost use Rattle.std.specs.List.{list_any};
ghost use Rattle.clap.specs.Words.{kind_of};
ghost use Rattle.pebble_cli.specs.Usage.{is_run, is_flag};

use clap::error::ErrorKind;
use clap::{Command, Error};
use std::alloc::{AllocError, Global};

/// Whether the words are the usage: the one word `run`.
pub fn asks_to_run(alloc: Global, words: &[String]) -> Result<bool, AllocError>
    ensures { IfOk result (λ asks. asks ≡ is_run (map string_bytes words.now)) }
{
    // A word that begins with `-` never comes to `clap`, so neither does its help.
    if has_flag(words) {
        return Ok(false);
    }
    are_taken(alloc, words)
}

fn has_flag(words: &[String]) -> bool
    ensures { result ≡ list_any (λ word. is_flag (string_bytes word)) words.now }
{
    words.iter().any(|word| is_flag(word))
}

fn is_flag(word: &String) -> bool
    ensures { result ≡ is_flag (string_bytes word.now) }
{
    matches!(word.as_str().as_bytes(), [b'-', ..])
}

/// Whether `clap` takes the words.
fn are_taken(alloc: Global, words: &[String]) -> Result<bool, AllocError>
    requires { list_any is_flag (map string_bytes words.now) ≡ false }
    ensures { IfOk result (λ taken. taken ≡ is_run (map string_bytes words.now)) }
{
    let command = Command::new(alloc, "pebble_cli")
        .no_binary_name(true)
        .disable_help_flag(true)
        .disable_help_subcommand(true)
        .subcommand_required(true)
        .subcommand(Command::new(alloc, "run"))?;
    match command.try_get_matches_from(words) {
        Ok(_matches) => Ok(true),
        Err(error) => is_taken_after(&error),
    }
}

fn is_taken_after(error: &Error) -> Result<bool, AllocError>
    ensures { MatchResult result (λ taken. (taken ≡ false) × (kind_of error.now ≢ ErrorKind.OutOfMemory)) (λ _. kind_of error.now ≡ ErrorKind.OutOfMemory) }
{
    if error.kind() == ErrorKind::OutOfMemory {
        return Err(AllocError);
    }
    Ok(false)
}
