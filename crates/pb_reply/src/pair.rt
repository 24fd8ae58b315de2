ghost use Rattle.std.specs.Prelude.{◌≡◌};

use crate::Text;
use std::marker::Model;

/// A key with its value, as a scan finds it.
#[derive(Debug, Drop)]
pub struct Pair {
    pub key: Text,
    pub value: Text,
}

impl Model for Pair {
    ghost use Rattle.pb_reply.specs.Pair.{Pair as Seen};

    ghost Value = { Seen };

    ghost view = { λ pair. record { key = pair.key; value = pair.value } };
}

/// What a scan found, in the order of the keys.
#[derive(Debug, Drop)]
pub struct Pairs {
    pairs: Vec<Pair>,
}

impl Model for Pairs {
    ghost use Rattle.std.specs.Prelude.{List};
    ghost use Rattle.pb_reply.specs.Pair.{Pair as Seen};

    ghost Value = { List Seen };

    ghost view = { λ list. list.pairs.items };
}

impl Pairs {
    pub fn from_vec(pairs: Vec<Pair>) -> Pairs
        ensures { result ≡ pairs.items }
    {
        Pairs { pairs }
    }

    pub fn into_vec(self) -> Vec<Pair>
        ensures { result.items ≡ self }
    {
        self.pairs
    }

    pub fn as_slice(&self) -> &[Pair]
        ensures { result.now ≡ self.now }
    {
        self.pairs.as_slice()
    }
}
