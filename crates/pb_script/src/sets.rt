//! A store's `set`, the commonest line by far, read at once.
ghost use Rattle.std.specs.Prelude.{◌≡◌, IfSome};
ghost use Rattle.pb_script.specs.Lines.{line_of, set_line};

use crate::fields::first_word;
use crate::spelling::read_store;

/// The words of a `set`.
#[derive(Drop)]
pub struct SetWords<'a> {
    pub store: u64,
    pub key: &'a [u8],
    pub value: &'a [u8],
}

/// The words of a store's `set`. `None` says nothing: the text is then read as any other.
pub fn set_words(text: &[u8]) -> Option<SetWords<'_>>
    ensures { IfSome result (λ words. line_of text.now ≡ set_line words.store words.key.now words.value.now) }
{
    let (letter, rest) = first_word(text)?;
    let Ok(store) = read_store(letter) else {
        return None;
    };
    let (name, rest) = first_word(rest)?;
    if name != b"set".as_slice() {
        return None;
    }
    let (key, rest) = first_word(rest)?;
    let (value, rest) = first_word(rest)?;
    match first_word(rest) {
        Some(_) => None,
        None => Some(SetWords { store, key, value }),
    }
}
