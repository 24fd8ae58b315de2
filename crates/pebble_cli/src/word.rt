ghost use Rattle.std.specs.Prelude.{◌≡◌, ◌↔◌, IsTrue, IfOk};
ghost use Rattle.std.proofs.Common.{rules};
ghost use Rattle.std.proofs.lemmas.Cmp.{nat_list_cmp_total};
ghost use Rattle.std.specs.Cmp.{partial_order_from_own_ties};
ghost use Rattle.std.specs.Cmp.Lexicographic.{slice_cmp};
ghost use Rattle.std.specs.Cmp.Rules.{comparing};
ghost use Rattle.std.specs.Ordering.{nat_cmp, as_partial_cmp};
ghost use Rattle.std.specs.Str.{bytes_eq};
ghost use Rattle.pb_names.specs.Grammar.{IsName};

use pb_names::is_name;
use std::alloc::{AllocError, Global};
use std::cmp::Ordering;
use std::marker::Model;

/// A key or a value: the bytes of a name.
#[derive(Drop)]
pub struct Word {
    text: String,
}

impl Model for Word {
    ghost use Rattle.std.specs.Prelude.{ℕ, List, string_bytes};
    ghost use Rattle.pb_names.specs.Grammar.{IsName};

    ghost Value = { List ℕ };

    ghost view = { λ w. string_bytes w.text };

    ghost invariant = { λ w. IsName (string_bytes w.text) };
}

impl Word {
    /// The word of these bytes.
    #[tactic(auto, using(crate::proofs::WordBytes::utf8_word))]
    pub fn new(alloc: Global, name: &[u8]) -> Result<Word, AllocError>
        requires { IsName name.now }
        ensures { IfOk result (λ word. word ≡ name.now) }
    {
        match str::from_utf8(name) {
            Ok(text) => Ok(Word {
                text: String::from_str(alloc, text)?,
            }),
            Err(_) => unreachable!(),
        }
    }

    /// The bytes of the word.
    pub fn as_str(&self) -> &str
        ensures { result.now ≡ self.now }
    {
        self.text.as_str()
    }
}

impl PartialEq for Word {
    ghost eq = { bytes_eq };

    ghost laws = { Prim.search (comparing, rules) };

    fn eq(&self, other: &Word) -> bool {
        self.text == other.text
    }
}

impl Eq for Word {
    ghost laws = { Prim.search (comparing, rules) };
}

impl PartialOrd for Word {
    ghost partial_cmp = { as_partial_cmp (slice_cmp nat_cmp) };

    ghost laws = { partial_order_from_own_ties (Prim.search (comparing, rules)) (Prim.search (comparing, rules)) };

    fn partial_cmp(&self, other: &Word) -> Option<Ordering> {
        Some(self.cmp(other))
    }
}

/// Words are ordered by their bytes.
impl Ord for Word {
    ghost cmp = { slice_cmp nat_cmp };

    ghost total = { nat_list_cmp_total };

    ghost matches_partial_cmp = { Prim.search (comparing, rules) };

    ghost matches_eq = { Prim.search (comparing, rules) };

    fn cmp(&self, other: &Word) -> Ordering {
        self.text.cmp(&other.text)
    }
}

/// Whether both a key and a value are names, as words are.
pub fn are_names(key: &[u8], value: &[u8]) -> bool
    ensures { IsTrue result ↔ (IsName key.now × IsName value.now) }
{
    is_name(key) && is_name(value)
}
