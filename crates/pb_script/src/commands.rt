ghost use Rattle.std.specs.Prelude.{◌≡◌};
ghost use Rattle.pb_script.specs.Answers.{Gives};
ghost use Rattle.pb_script.specs.Words.{words_of};
ghost use Rattle.pb_script.specs.Commands.{set_of, del_of, del_range_of, get_of, scan_of, flush_of, compact_of, release_of, ingest_of, excise_of, ingest_excise_of, external_of, lend_of, receive_of, pin_of, sharing_named, tables_named, command_named, command_of, is_started};

use crate::fault::WordFault;
use crate::fields::{
    at_end, behind, labelled_at, level_at, name_at, pair_at, some_names, string_at, word_at,
};
use crate::{Command, External, IngestExcise, Lend};
use pb_keys::Boxed;
use std::alloc::Global;

/// The command that words say.
#[tactic(auto, unfolding(crate::specs::Commands::command_of))]
pub fn read_command(alloc: Global, words: &[u8]) -> Result<Command, WordFault>
    ensures { Gives (λ x. x) result (command_of (words_of words.now)) }
{
    let (name, words) = word_at(words)?;
    named(alloc, name, words)
}

#[tactic(auto, unfolding(crate::specs::Commands::command_named))]
fn named(alloc: Global, name: &[u8], words: &[u8]) -> Result<Command, WordFault>
    ensures { Gives (λ x. x) result (command_named name.now (words_of words.now)) }
{
    if name == b"set".as_slice() {
        return set(alloc, words);
    }
    if name == b"del".as_slice() {
        return del(alloc, words);
    }
    if name == b"delrange".as_slice() {
        return del_range(alloc, words);
    }
    if name == b"get".as_slice() {
        return get(alloc, words);
    }
    if name == b"scan".as_slice() {
        return scan(alloc, words);
    }
    named_for_tables(alloc, name, words)
}

#[tactic(auto, unfolding(crate::specs::Commands::tables_named))]
fn named_for_tables(alloc: Global, name: &[u8], words: &[u8]) -> Result<Command, WordFault>
    ensures { Gives (λ x. x) result (tables_named name.now (words_of words.now)) }
{
    if name == b"flush".as_slice() {
        return flush(words);
    }
    if name == b"compact".as_slice() {
        return compact(alloc, words);
    }
    if name == b"release".as_slice() {
        return release(words);
    }
    if name == b"ingest".as_slice() {
        return ingest(alloc, words);
    }
    if name == b"excise".as_slice() {
        return excise(alloc, words);
    }
    if name == b"ingestexcise".as_slice() {
        return ingest_excise(alloc, words);
    }
    named_for_sharing(alloc, name, words)
}

#[tactic(auto, unfolding(crate::specs::Commands::sharing_named))]
fn named_for_sharing(alloc: Global, name: &[u8], words: &[u8]) -> Result<Command, WordFault>
    ensures { Gives (λ x. x) result (sharing_named name.now (words_of words.now)) }
{
    if name == b"external".as_slice() {
        return external(alloc, words);
    }
    if name == b"lend".as_slice() {
        return lend(alloc, words);
    }
    if name == b"receive".as_slice() {
        return receive(alloc, words);
    }
    if name == b"pin".as_slice() {
        return pin(alloc, words);
    }
    Err(WordFault::OffGrammar)
}

#[tactic(auto, unfolding(crate::specs::Commands::set_of))]
fn set(alloc: Global, words: &[u8]) -> Result<Command, WordFault>
    ensures { Gives (λ x. x) result (set_of (words_of words.now)) }
{
    let (key, value, rest) = pair_at(alloc, words)?;
    at_end(rest)?;
    Ok(Command::Set { key, value })
}

#[tactic(auto, unfolding(crate::specs::Commands::del_of))]
fn del(alloc: Global, words: &[u8]) -> Result<Command, WordFault>
    ensures { Gives (λ x. x) result (del_of (words_of words.now)) }
{
    let (key, rest) = string_at(alloc, words)?;
    at_end(rest)?;
    Ok(Command::Del(key))
}

#[tactic(auto, unfolding(crate::specs::Commands::del_range_of))]
fn del_range(alloc: Global, words: &[u8]) -> Result<Command, WordFault>
    ensures { Gives (λ x. x) result (del_range_of (words_of words.now)) }
{
    let (lo, hi, rest) = pair_at(alloc, words)?;
    at_end(rest)?;
    Ok(Command::DelRange { lo, hi })
}

#[tactic(auto, unfolding(crate::specs::Commands::get_of))]
fn get(alloc: Global, words: &[u8]) -> Result<Command, WordFault>
    ensures { Gives (λ x. x) result (get_of (words_of words.now)) }
{
    let (key, rest) = string_at(alloc, words)?;
    at_end(rest)?;
    Ok(Command::Get(key))
}

#[tactic(auto, unfolding(crate::specs::Commands::scan_of))]
fn scan(alloc: Global, words: &[u8]) -> Result<Command, WordFault>
    ensures { Gives (λ x. x) result (scan_of (words_of words.now)) }
{
    let (lo, hi, rest) = pair_at(alloc, words)?;
    at_end(rest)?;
    Ok(Command::Scan { lo, hi })
}

#[tactic(auto, unfolding(crate::specs::Commands::flush_of))]
fn flush(words: &[u8]) -> Result<Command, WordFault>
    ensures { Gives (λ x. x) result (flush_of (words_of words.now)) }
{
    at_end(words)?;
    Ok(Command::Flush)
}

#[tactic(auto, unfolding(crate::specs::Commands::compact_of))]
fn compact(alloc: Global, words: &[u8]) -> Result<Command, WordFault>
    ensures { Gives (λ x. x) result (compact_of (words_of words.now)) }
{
    let (level, rest) = level_at(words)?;
    let (lo, hi, rest) = pair_at(alloc, rest)?;
    at_end(rest)?;
    Ok(Command::Compact { level, lo, hi })
}

#[tactic(auto, unfolding(crate::specs::Commands::release_of))]
fn release(words: &[u8]) -> Result<Command, WordFault>
    ensures { Gives (λ x. x) result (release_of (words_of words.now)) }
{
    at_end(words)?;
    Ok(Command::Release)
}

#[tactic(auto, unfolding(crate::specs::Commands::ingest_of))]
fn ingest(alloc: Global, words: &[u8]) -> Result<Command, WordFault>
    ensures { Gives (λ x. x) result (ingest_of (words_of words.now)) }
{
    Ok(Command::Ingest(some_names(alloc, words)?))
}

#[tactic(auto, unfolding(crate::specs::Commands::excise_of))]
fn excise(alloc: Global, words: &[u8]) -> Result<Command, WordFault>
    ensures { Gives (λ x. x) result (excise_of (words_of words.now)) }
{
    let (lo, hi, rest) = pair_at(alloc, words)?;
    at_end(rest)?;
    Ok(Command::Excise { lo, hi })
}

#[tactic(auto, unfolding(crate::specs::Commands::ingest_excise_of))]
fn ingest_excise(alloc: Global, words: &[u8]) -> Result<Command, WordFault>
    ensures { Gives (λ x. x) result (ingest_excise_of (words_of words.now)) }
{
    let (lo, hi, rest) = pair_at(alloc, words)?;
    let tables = some_names(alloc, rest)?;
    let excise = Boxed::new(alloc, IngestExcise { lo, hi, tables })?;
    Ok(Command::IngestExcise(excise))
}

#[tactic(auto, unfolding(crate::specs::Commands::external_of))]
fn external(alloc: Global, words: &[u8]) -> Result<Command, WordFault>
    ensures { Gives (λ x. x) result (external_of (words_of words.now)) }
{
    let (name, rest) = name_at(alloc, words)?;
    let (lo, hi, rest) = pair_at(alloc, rest)?;
    let (prefix, rest) = labelled_at(alloc, b"prefix=", rest)?;
    let (suffix, rest) = labelled_at(alloc, b"suffix=", rest)?;
    at_end(rest)?;
    let external = External {
        name,
        lo,
        hi,
        prefix,
        suffix,
    };
    Ok(Command::External(Boxed::new(alloc, external)?))
}

#[tactic(auto, unfolding(crate::specs::Commands::lend_of))]
fn lend(alloc: Global, words: &[u8]) -> Result<Command, WordFault>
    ensures { Gives (λ x. x) result (lend_of (words_of words.now)) }
{
    let (lo, hi, rest) = pair_at(alloc, words)?;
    let rest = behind(b"as", rest)?;
    let (handle, rest) = name_at(alloc, rest)?;
    at_end(rest)?;
    Ok(Command::Lend(Boxed::new(alloc, Lend { lo, hi, handle })?))
}

#[tactic(auto, unfolding(crate::specs::Commands::receive_of))]
fn receive(alloc: Global, words: &[u8]) -> Result<Command, WordFault>
    ensures { Gives (λ x. x) result (receive_of (words_of words.now)) }
{
    let (handle, rest) = name_at(alloc, words)?;
    at_end(rest)?;
    Ok(Command::Receive(handle))
}

#[tactic(auto, unfolding(crate::specs::Commands::pin_of))]
fn pin(alloc: Global, words: &[u8]) -> Result<Command, WordFault>
    ensures { Gives (λ x. x) result (pin_of (words_of words.now)) }
{
    let rest = behind(b"as", words)?;
    let (pin, rest) = name_at(alloc, rest)?;
    at_end(rest)?;
    Ok(Command::Pin(pin))
}

/// Whether turns can carry the command on.
pub fn is_started(command: &Command) -> bool
    ensures { result ≡ is_started command.now }
{
    matches!(
        command,
        Command::Flush
            | Command::Compact { .. }
            | Command::Ingest(_)
            | Command::Excise { .. }
            | Command::IngestExcise(_)
            | Command::External(_)
            | Command::Receive(_)
    )
}
