ghost use Rattle.std.specs.Prelude.{◌≡◌, ◌<◌, ◌∷◌, [], IfSome, MatchOption, length};
ghost use Rattle.pb_script.specs.Answers.{Gives};
ghost use Rattle.pb_script.specs.Words.{words_of, with_part};
ghost use Rattle.pb_script.specs.Fields.{word_at, string_at, name_at, store_at, level_at, pair_at, behind, at_end, labelled_at, names_of, some_names_of};

use crate::cuts::cut;
use crate::fault::WordFault;
use crate::spelling::{read_level, read_name, read_store, read_string};
use pb_keys::{Bytes, List};
use std::alloc::Global;

/// The first word of a text, and what stands behind it, `None` where the text has no word.
pub fn first_word(text: &[u8]) -> Option<(&[u8], &[u8])>
    ensures words { MatchOption result (words_of text.now ≡ []) (λ x. words_of text.now ≡ x.0.now ∷ words_of x.1.now) }
    ensures shorter { IfSome result (λ x. length x.1.now < length text.now) }
{
    let mut rest = text;
    while !rest.is_empty() {
        let (part, behind) = first_part(rest);
        if !part.is_empty() {
            return Some((part, behind));
        }
        rest = behind;
    }
    None
}

/// What stands before the first space, and what behind it.
fn first_part(text: &[u8]) -> (&[u8], &[u8])
    requires { 0 < length text.now }
    ensures words { words_of text.now ≡ with_part result.0.now (words_of result.1.now) }
    ensures shorter { length result.1.now < length text.now }
{
    match cut(text, b' ') {
        Some(parts) => parts,
        None => (text, b""),
    }
}

#[tactic(auto, unfolding(crate::specs::Fields::word_at))]
pub fn word_at(text: &[u8]) -> Result<(&[u8], &[u8]), WordFault>
    ensures { Gives (λ x. (x.0.now, words_of x.1.now)) result (word_at (words_of text.now)) }
{
    match first_word(text) {
        Some(parts) => Ok(parts),
        None => Err(WordFault::OffGrammar),
    }
}

/// The byte string that the first word spells, and what stands behind.
#[tactic(auto, unfolding(crate::specs::Fields::string_at))]
pub fn string_at(alloc: Global, text: &[u8]) -> Result<(Bytes, &[u8]), WordFault>
    ensures { Gives (λ x. (x.0, words_of x.1.now)) result (string_at (words_of text.now)) }
{
    let (word, rest) = word_at(text)?;
    Ok((read_string(alloc, word)?, rest))
}

#[tactic(auto, unfolding(crate::specs::Fields::name_at))]
pub fn name_at(alloc: Global, text: &[u8]) -> Result<(Bytes, &[u8]), WordFault>
    ensures { Gives (λ x. (x.0, words_of x.1.now)) result (name_at (words_of text.now)) }
{
    let (word, rest) = word_at(text)?;
    Ok((read_name(alloc, word)?, rest))
}

#[tactic(auto, unfolding(crate::specs::Fields::store_at))]
pub fn store_at(text: &[u8]) -> Result<(u64, &[u8]), WordFault>
    ensures { Gives (λ x. (x.0, words_of x.1.now)) result (store_at (words_of text.now)) }
{
    let (word, rest) = word_at(text)?;
    Ok((read_store(word)?, rest))
}

#[tactic(auto, unfolding(crate::specs::Fields::level_at))]
pub fn level_at(text: &[u8]) -> Result<(u8, &[u8]), WordFault>
    ensures { Gives (λ x. (x.0, words_of x.1.now)) result (level_at (words_of text.now)) }
{
    let (word, rest) = word_at(text)?;
    Ok((read_level(word)?, rest))
}

/// Two byte strings, as a key and its value or the ends of a span.
#[tactic(auto, unfolding(crate::specs::Fields::pair_at))]
pub fn pair_at(alloc: Global, text: &[u8]) -> Result<(Bytes, Bytes, &[u8]), WordFault>
    ensures { Gives (λ x. ((x.0, x.1), words_of x.2.now)) result (pair_at (words_of text.now)) }
{
    let (first, rest) = string_at(alloc, text)?;
    let (second, rest) = string_at(alloc, rest)?;
    Ok((first, second, rest))
}

/// What stands behind the first word, which is this one.
#[tactic(auto, unfolding(crate::specs::Fields::behind))]
pub fn behind<'a>(keyword: &[u8], text: &'a [u8]) -> Result<&'a [u8], WordFault>
    ensures { Gives (λ x. words_of x.now) result (behind keyword.now (words_of text.now)) }
{
    let (word, rest) = word_at(text)?;
    if word != keyword {
        return Err(WordFault::OffGrammar);
    }
    Ok(rest)
}

/// Whether no word is left.
#[tactic(auto, unfolding(crate::specs::Fields::at_end))]
pub fn at_end(text: &[u8]) -> Result<(), WordFault>
    ensures { Gives (λ x. x) result (at_end (words_of text.now)) }
{
    match first_word(text) {
        Some(_) => Err(WordFault::OffGrammar),
        None => Ok(()),
    }
}

/// The byte string behind a label, where the first word begins with the label.
#[tactic(auto, unfolding(crate::specs::Fields::labelled_at))]
pub fn labelled_at<'a>(
    alloc: Global,
    label: &[u8],
    text: &'a [u8],
) -> Result<(Option<Bytes>, &'a [u8]), WordFault>
    ensures { Gives (λ x. (x.0, words_of x.1.now)) result (labelled_at label.now (words_of text.now)) }
{
    let Some((word, rest)) = first_word(text) else {
        return Ok((None, text));
    };
    match word.strip_prefix(label) {
        Some(spelled) => Ok((Some(read_string(alloc, spelled)?), rest)),
        None => Ok((None, text)),
    }
}

/// The names that the words are, one or more.
#[tactic(auto, unfolding(crate::specs::Fields::some_names_of))]
pub fn some_names(alloc: Global, text: &[u8]) -> Result<List<Bytes>, WordFault>
    ensures { Gives (λ x. x) result (some_names_of (words_of text.now)) }
{
    let names = names(alloc, text)?;
    if names.is_empty() {
        return Err(WordFault::OffGrammar);
    }
    Ok(List::from_vec(names))
}

#[tactic(auto, using(crate::proofs::Turns::next_name, crate::proofs::Turns::no_name, crate::proofs::Turns::all_names))]
fn names(alloc: Global, text: &[u8]) -> Result<Vec<Bytes>, WordFault>
    ensures { Gives (λ x. x.items) result (names_of (words_of text.now)) }
{
    let mut names = Vec::new(alloc);
    let mut rest = text;
    while let Some((word, behind)) = first_word(rest) {
        names.push(read_name(alloc, word)?)?;
        rest = behind;
    }
    Ok(names)
}
