ghost use Rattle.std.specs.Prelude.{◌≡◌};
ghost use Rattle.pb_script.specs.Answers.{Gives};
ghost use Rattle.pb_script.specs.Words.{words_of};
ghost use Rattle.pb_script.specs.TableLines.{table_set_of, table_del_of, table_del_range_of, table_line_named, table_line_of, is_end};

use crate::TableLine;
use crate::fault::WordFault;
use crate::fields::{at_end, first_word, pair_at, string_at, word_at};
use std::alloc::Global;

/// Whether the text is the one word `end`.
#[tactic(auto, unfolding(crate::specs::TableLines::is_end))]
pub fn is_end(text: &[u8]) -> bool
    ensures { result ≡ is_end text.now }
{
    match first_word(text) {
        Some((word, rest)) => first_word(rest).is_none() && word == b"end".as_slice(),
        None => false,
    }
}

/// What a text says within a block.
#[tactic(auto, unfolding(crate::specs::TableLines::table_line_of))]
pub fn read_table_line(alloc: Global, text: &[u8]) -> Result<TableLine, WordFault>
    ensures { Gives (λ x. x) result (table_line_of text.now) }
{
    let (name, words) = word_at(text)?;
    named(alloc, name, words)
}

#[tactic(auto, unfolding(crate::specs::TableLines::table_line_named))]
fn named(alloc: Global, name: &[u8], words: &[u8]) -> Result<TableLine, WordFault>
    ensures { Gives (λ x. x) result (table_line_named name.now (words_of words.now)) }
{
    if name == b"set".as_slice() {
        return set(alloc, words);
    }
    if name == b"del".as_slice() {
        return del(alloc, words);
    }
    if name == b"delrange".as_slice() {
        return del_range(alloc, words);
    }
    Err(WordFault::OffGrammar)
}

#[tactic(auto, unfolding(crate::specs::TableLines::table_set_of))]
fn set(alloc: Global, words: &[u8]) -> Result<TableLine, WordFault>
    ensures { Gives (λ x. x) result (table_set_of (words_of words.now)) }
{
    let (key, value, rest) = pair_at(alloc, words)?;
    at_end(rest)?;
    Ok(TableLine::Set { key, value })
}

#[tactic(auto, unfolding(crate::specs::TableLines::table_del_of))]
fn del(alloc: Global, words: &[u8]) -> Result<TableLine, WordFault>
    ensures { Gives (λ x. x) result (table_del_of (words_of words.now)) }
{
    let (key, rest) = string_at(alloc, words)?;
    at_end(rest)?;
    Ok(TableLine::Del(key))
}

#[tactic(auto, unfolding(crate::specs::TableLines::table_del_range_of))]
fn del_range(alloc: Global, words: &[u8]) -> Result<TableLine, WordFault>
    ensures { Gives (λ x. x) result (table_del_range_of (words_of words.now)) }
{
    let (lo, hi, rest) = pair_at(alloc, words)?;
    at_end(rest)?;
    Ok(TableLine::DelRange { lo, hi })
}
