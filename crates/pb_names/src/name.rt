ghost use Rattle.std.specs.Prelude.{◌≡◌, ◌+◌, ◌≤◌, [], ◌++◌, length, nat_eq};
ghost use Rattle.std.specs.Cmp.{partial_equiv_from_equiv};
ghost use Rattle.std.specs.Cmp.Lexicographic.{pointwise, nat_list_eq_equiv};
ghost use Rattle.std.specs.Fmt.{decimal};
ghost use Rattle.std.specs.Str.{IsAscii};

use itoa::Buffer;
use std::marker::Model;
use std::str;

/// A name that a maker of this crate spelled: ASCII text of at most 64 bytes, which lie in the value itself.
///
/// Contracts see the text, as a list of bytes. The spellings stand in docs/FORMATS.md, "Names".
#[derive(Clone, Copy, Debug)]
pub struct Name {
    bytes: [u8; 64],
    len: usize,
}

impl Model for Name {
    ghost use Rattle.std.specs.Prelude.{ℕ, ◌-◌, List, ◌++◌, length, take, replicate};
    ghost use Rattle.pb_names.specs.Padding.{IsPadded, bytes-IsPadded, length-IsPadded};

    ghost Value = { List ℕ };

    ghost view = { λ name. take name.len name.bytes };

    // Zeros stand behind the text, so that the text alone tells the bytes.
    ghost invariant = { λ name. IsPadded name.len name.bytes };

    ghost inverse = { λ text. record { bytes = text ++ replicate (64 - length text) 0; len = length text } };

    ghost inverse_ok = { λ name h i. record { bytes = bytes-IsPadded name.len name.bytes h i; len = length-IsPadded name.len name.bytes h i } };
}

impl PartialEq for Name {
    ghost eq = { λ name other. pointwise nat_eq name other };

    ghost laws = { partial_equiv_from_equiv nat_list_eq_equiv };

    fn eq(&self, other: &Self) -> bool {
        self.bytes[..self.len] == other.bytes[..other.len]
    }
}

impl Eq for Name {
    ghost laws = { nat_list_eq_equiv };
}

impl Name {
    /// The text, at most 64 bytes long.
    pub fn as_str(&self) -> &str
        ensures value { result.now ≡ self.now }
        ensures ascii { IsAscii result.now }
        ensures short { length result.now ≤ 64 }
    {
        str::from_utf8(&self.bytes[..self.len]).unwrap()
    }

    pub(crate) fn empty() -> Name
        ensures { result ≡ [] }
    {
        Name {
            bytes: [0; 64],
            len: 0,
        }
    }

    pub(crate) fn push(&mut self, text: &[u8])
        requires room { length self.old + length text.now ≤ 64 }
        requires ascii { IsAscii text.now }
        ensures { self.new ≡ self.old ++ text.now }
    {
        let end = self.len + text.len();
        self.bytes[self.len..end].copy_from_slice(text);
        self.len = end;
    }

    pub(crate) fn push_number(&mut self, number: u64)
        requires { length self.old + length (decimal number) ≤ 64 }
        ensures { self.new ≡ self.old ++ decimal number }
    {
        self.push(Buffer::new().format(number).as_bytes());
    }
}
