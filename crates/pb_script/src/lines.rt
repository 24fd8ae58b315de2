ghost use Rattle.pb_script.specs.Answers.{Gives};
ghost use Rattle.pb_script.specs.Words.{words_of};
ghost use Rattle.pb_script.specs.Lines.{store_alone, name_alone, open_of, close_of, stop_of, levels_of, lane_of, turn_of, start_of, whole_named, table_of, export_of, drop_of, get_at_of, unpin_of, objects_of, calls_of, family_line, line_named, line_of};

use crate::commands::{is_started, read_command};
use crate::fault::WordFault;
use crate::fields::{at_end, behind, first_word, name_at, store_at, string_at, word_at};
use crate::spelling::read_store;
use crate::{Lane, Line};
use pb_keys::{Bytes, List};
use std::alloc::Global;

/// The line that a text says. The first line of a block is a table without lines.
#[tactic(auto, unfolding(crate::specs::Lines::line_of))]
pub fn read_line(alloc: Global, text: &[u8]) -> Result<Line, WordFault>
    ensures { Gives (λ x. x) result (line_of text.now) }
{
    let (first, words) = word_at(text)?;
    named(alloc, first, words)
}

#[tactic(auto, unfolding(crate::specs::Lines::line_named))]
fn named(alloc: Global, first: &[u8], words: &[u8]) -> Result<Line, WordFault>
    ensures { Gives (λ x. x) result (line_named first.now (words_of words.now)) }
{
    if first == b"open".as_slice() {
        return open(words);
    }
    if first == b"close".as_slice() {
        return close(words);
    }
    if first == b"stop".as_slice() {
        return stop(words);
    }
    if first == b"turn".as_slice() {
        return turn(words);
    }
    if first == b"levels".as_slice() {
        return levels(words);
    }
    if first == b"start".as_slice() {
        return start(alloc, words);
    }
    named_for_family(alloc, first, words)
}

#[tactic(auto, unfolding(crate::specs::Lines::family_line))]
fn named_for_family(alloc: Global, first: &[u8], words: &[u8]) -> Result<Line, WordFault>
    ensures { Gives (λ x. x) result (family_line first.now (words_of words.now)) }
{
    if first == b"table".as_slice() {
        return table(alloc, words);
    }
    if first == b"export".as_slice() {
        return export(alloc, words);
    }
    if first == b"drop".as_slice() {
        return drop_handle(alloc, words);
    }
    if first == b"get".as_slice() {
        return get_at(alloc, words);
    }
    if first == b"unpin".as_slice() {
        return unpin(alloc, words);
    }
    if first == b"objects".as_slice() {
        return objects(words);
    }
    if first == b"calls".as_slice() {
        return calls(words);
    }
    whole(alloc, first, words)
}

#[tactic(auto, unfolding(crate::specs::Lines::whole_named))]
fn whole(alloc: Global, first: &[u8], words: &[u8]) -> Result<Line, WordFault>
    ensures { Gives (λ x. x) result (whole_named first.now (words_of words.now)) }
{
    let store = read_store(first)?;
    let command = read_command(alloc, words)?;
    Ok(Line::Whole { store, command })
}

#[tactic(auto, unfolding(crate::specs::Lines::store_alone))]
fn store_alone(words: &[u8]) -> Result<u64, WordFault>
    ensures { Gives (λ x. x) result (store_alone (words_of words.now)) }
{
    let (store, rest) = store_at(words)?;
    at_end(rest)?;
    Ok(store)
}

#[tactic(auto, unfolding(crate::specs::Lines::name_alone))]
fn name_alone(alloc: Global, words: &[u8]) -> Result<Bytes, WordFault>
    ensures { Gives (λ x. x) result (name_alone (words_of words.now)) }
{
    let (name, rest) = name_at(alloc, words)?;
    at_end(rest)?;
    Ok(name)
}

#[tactic(auto, unfolding(crate::specs::Lines::lane_of))]
fn lane(words: &[u8]) -> Result<Lane, WordFault>
    ensures { Gives (λ x. x) result (lane_of (words_of words.now)) }
{
    if first_word(words).is_none() {
        return Ok(Lane::Fg);
    }
    let rest = behind(b"bg", words)?;
    at_end(rest)?;
    Ok(Lane::Bg)
}

#[tactic(auto, unfolding(crate::specs::Lines::open_of))]
fn open(words: &[u8]) -> Result<Line, WordFault>
    ensures { Gives (λ x. x) result (open_of (words_of words.now)) }
{
    Ok(Line::Open(store_alone(words)?))
}

#[tactic(auto, unfolding(crate::specs::Lines::close_of))]
fn close(words: &[u8]) -> Result<Line, WordFault>
    ensures { Gives (λ x. x) result (close_of (words_of words.now)) }
{
    Ok(Line::Close(store_alone(words)?))
}

#[tactic(auto, unfolding(crate::specs::Lines::stop_of))]
fn stop(words: &[u8]) -> Result<Line, WordFault>
    ensures { Gives (λ x. x) result (stop_of (words_of words.now)) }
{
    Ok(Line::Stop(store_alone(words)?))
}

#[tactic(auto, unfolding(crate::specs::Lines::levels_of))]
fn levels(words: &[u8]) -> Result<Line, WordFault>
    ensures { Gives (λ x. x) result (levels_of (words_of words.now)) }
{
    Ok(Line::Levels(store_alone(words)?))
}

#[tactic(auto, unfolding(crate::specs::Lines::turn_of))]
fn turn(words: &[u8]) -> Result<Line, WordFault>
    ensures { Gives (λ x. x) result (turn_of (words_of words.now)) }
{
    let (store, rest) = store_at(words)?;
    let lane = lane(rest)?;
    Ok(Line::Turn { store, lane })
}

#[tactic(auto, unfolding(crate::specs::Lines::start_of))]
fn start(alloc: Global, words: &[u8]) -> Result<Line, WordFault>
    ensures { Gives (λ x. x) result (start_of (words_of words.now)) }
{
    let (store, rest) = store_at(words)?;
    let command = read_command(alloc, rest)?;
    if !is_started(&command) {
        return Err(WordFault::OffGrammar);
    }
    Ok(Line::Start { store, command })
}

#[tactic(auto, unfolding(crate::specs::Lines::table_of))]
fn table(alloc: Global, words: &[u8]) -> Result<Line, WordFault>
    ensures { Gives (λ x. x) result (table_of (words_of words.now)) }
{
    let table = name_alone(alloc, words)?;
    let lines = List::from_vec(Vec::new(alloc));
    Ok(Line::Table { table, lines })
}

#[tactic(auto, unfolding(crate::specs::Lines::export_of))]
fn export(alloc: Global, words: &[u8]) -> Result<Line, WordFault>
    ensures { Gives (λ x. x) result (export_of (words_of words.now)) }
{
    let (table, rest) = name_at(alloc, words)?;
    let name = name_alone(alloc, rest)?;
    Ok(Line::Export { table, name })
}

#[tactic(auto, unfolding(crate::specs::Lines::drop_of))]
fn drop_handle(alloc: Global, words: &[u8]) -> Result<Line, WordFault>
    ensures { Gives (λ x. x) result (drop_of (words_of words.now)) }
{
    Ok(Line::DropHandle(name_alone(alloc, words)?))
}

#[tactic(auto, unfolding(crate::specs::Lines::get_at_of))]
fn get_at(alloc: Global, words: &[u8]) -> Result<Line, WordFault>
    ensures { Gives (λ x. x) result (get_at_of (words_of words.now)) }
{
    let (pin, rest) = name_at(alloc, words)?;
    let (key, rest) = string_at(alloc, rest)?;
    at_end(rest)?;
    Ok(Line::GetAt { pin, key })
}

#[tactic(auto, unfolding(crate::specs::Lines::unpin_of))]
fn unpin(alloc: Global, words: &[u8]) -> Result<Line, WordFault>
    ensures { Gives (λ x. x) result (unpin_of (words_of words.now)) }
{
    Ok(Line::Unpin(name_alone(alloc, words)?))
}

#[tactic(auto, unfolding(crate::specs::Lines::objects_of))]
fn objects(words: &[u8]) -> Result<Line, WordFault>
    ensures { Gives (λ x. x) result (objects_of (words_of words.now)) }
{
    at_end(words)?;
    Ok(Line::Objects)
}

#[tactic(auto, unfolding(crate::specs::Lines::calls_of))]
fn calls(words: &[u8]) -> Result<Line, WordFault>
    ensures { Gives (λ x. x) result (calls_of (words_of words.now)) }
{
    at_end(words)?;
    Ok(Line::Calls)
}
