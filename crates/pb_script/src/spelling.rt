ghost use Rattle.std.specs.Prelude.{◌≡◌, ◌<◌, ◌==◌, ◌&&◌, List, [], Option, None, Some, length, IsTrue, IfOk, IfErr, MatchOption, if◌then◌else◌};
ghost use Rattle.std.specs.Char.{digit_value};
ghost use Rattle.std.specs.List.{list_all};
ghost use Rattle.pb_keys.specs.Printed.{is_plain};
ghost use Rattle.pb_script.specs.Answers.{Fails, Gives};
ghost use Rattle.pb_script.specs.Strings.{hex_pair, with_byte, bytes_of, string_of, name_of, store_of, level_of};

use crate::fault::WordFault;
use pb_keys::Bytes;
use pb_names::is_name;
use std::alloc::{AllocError, Global};

/// The byte string that a word spells.
// Inlined, since a string that is handed on costs as much as one that is read.
#[inline(always)]
#[tactic(auto, unfolding(crate::specs::Strings::string_of))]
pub fn read_string(alloc: Global, word: &[u8]) -> Result<Bytes, WordFault>
    ensures { Gives (λ x. x) result (string_of word.now) }
{
    if word.is_empty() {
        return Err(WordFault::OffGrammar);
    }
    if word == b"%".as_slice() {
        return Ok(Bytes::new(alloc, b"")?);
    }
    if are_plain(word) {
        return Ok(Bytes::new(alloc, word)?);
    }
    read_coded(alloc, word)
}

fn are_plain(word: &[u8]) -> bool
    ensures { result ≡ list_all is_plain word.now }
{
    word.iter().all(|byte| is_plain(*byte))
}

/// Whether the byte stands for itself: 0x21 to 0x7E, but for `%`.
fn is_plain(byte: u8) -> bool
    ensures { result ≡ is_plain byte }
{
    byte.is_ascii_graphic() && byte != b'%'
}

#[inline(never)]
fn read_coded(alloc: Global, word: &[u8]) -> Result<Bytes, WordFault>
    ensures { Gives (λ x. x) result (bytes_of word.now) }
{
    let mut bytes = Vec::new(alloc);
    let mut rest = word;
    while !rest.is_empty() {
        let (byte, behind) = first_byte(rest)?;
        bytes.push(byte)?;
        rest = behind;
    }
    Ok(Bytes::new(alloc, bytes.as_slice())?)
}

/// The first byte that the text spells, and what stands behind it.
fn first_byte(text: &[u8]) -> Result<(u8, &[u8]), WordFault>
    requires { 0 < length text.now }
    ensures ok { IfOk result (λ x. (bytes_of text.now ≡ with_byte (Some x.0) (bytes_of x.1.now)) × (length x.1.now < length text.now)) }
    ensures err { IfErr result (λ fault. Fails fault (bytes_of text.now)) }
{
    if text[0] == b'%' && 3 <= text.len() {
        return Ok((hex_pair(text[1], text[2])?, &text[3..]));
    }
    if is_plain(text[0]) {
        return Ok((text[0], &text[1..]));
    }
    Err(WordFault::OffGrammar)
}

fn hex_pair(high: u8, low: u8) -> Result<u8, WordFault>
    ensures { Gives (λ x. x) result (hex_pair high low) }
{
    match (char::from(high).to_digit(16), char::from(low).to_digit(16)) {
        (Some(high), Some(low)) => Ok((16 * high + low) as u8),
        _ => Err(WordFault::OffGrammar),
    }
}

/// The name that a word is.
pub fn read_name(alloc: Global, word: &[u8]) -> Result<Bytes, WordFault>
    ensures { Gives (λ x. x) result (name_of word.now) }
{
    if !is_name(word) {
        return Err(WordFault::OffGrammar);
    }
    Ok(Bytes::new(alloc, word)?)
}

/// The number of the store that a word is: 1 for `A` to 8 for `H`.
pub fn read_store(word: &[u8]) -> Result<u64, WordFault>
    ensures { Gives (λ x. x) result (store_of word.now) }
{
    match word {
        [letter] if b'A' <= *letter && *letter <= b'H' => Ok((*letter - 64) as u64),
        _ => Err(WordFault::OffGrammar),
    }
}

/// The level that a word is: `0` to `5`.
pub fn read_level(word: &[u8]) -> Result<u8, WordFault>
    ensures { Gives (λ x. x) result (level_of word.now) }
{
    match word {
        [digit] if b'0' <= *digit && *digit <= b'5' => Ok(*digit - b'0'),
        _ => Err(WordFault::OffGrammar),
    }
}
