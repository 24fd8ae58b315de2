ghost use Rattle.std.specs.Prelude.{◌≡◌, length, not, OnOk, option_copied};
ghost use Rattle.std.specs.FinMap.{empty, entries, get, insert, remove, retain_keys};
ghost use Rattle.pb_keys.specs.Map.{without};
ghost use Rattle.pb_rows.specs.Applied.{without_all};
ghost use Rattle.pb_rows.specs.Verdict.{is_covered};

use pb_keys::{Bytes, Key, Span};
use std::alloc::{AllocError, Global};
use std::collections::BTreeMap;
use std::marker::Model;

/// Keys and their values. Contracts see the map that they make.
#[derive(Drop)]
pub struct Pairs {
    by_key: BTreeMap<Key, Bytes>,
}

impl Model for Pairs {
    ghost use Rattle.std.specs.FinMap.{from_entries, code};
    ghost use Rattle.std.specs.Coded.{coded_list, coded_ℕ};
    ghost use Rattle.pb_keys.specs.Map.{Map};

    ghost Value = { Map };

    ghost coded = { code (coded_list coded_ℕ) (coded_list coded_ℕ) };

    ghost view = { λ p. from_entries p.by_key.entries };
}

impl Pairs {
    pub fn new(alloc: Global) -> Pairs
        ensures { result ≡ empty }
    {
        Pairs {
            by_key: BTreeMap::new(alloc),
        }
    }

    /// The value of a key.
    pub fn get(&self, key: &Key) -> Option<&Bytes>
        ensures { option_copied result ≡ get self.now key.now }
    {
        self.by_key.get(key)
    }

    /// How many keys have a value.
    pub fn len(&self) -> usize
        ensures { result ≡ length (entries self.now) }
    {
        self.by_key.len()
    }

    pub(crate) fn set(&mut self, key: Key, value: Bytes) -> Result<(), AllocError>
        ensures { OnOk result (self.new ≡ insert self.old key value) }
    {
        match self.by_key.insert(key, value) {
            Ok(_) => Ok(()),
            Err(_) => Err(AllocError),
        }
    }

    pub(crate) fn del(&mut self, key: &Key)
        ensures { self.new ≡ remove self.old key.now }
    {
        let _ = self.by_key.remove(key);
    }

    /// Takes out the keys that the span holds.
    pub(crate) fn del_range(&mut self, span: &Span)
        ensures { self.new ≡ without self.old span.now }
    {
        self.by_key.retain(|key, _| !span.contains(key));
    }

    /// Takes out the keys that one of the spans holds.
    pub(crate) fn del_ranges(&mut self, spans: &[Span])
        ensures { self.new ≡ without_all self.old spans.now }
    {
        self.by_key.retain(|key, _| !is_covered(spans, key));
    }
}

fn is_covered(spans: &[Span], key: &Key) -> bool
    ensures { result ≡ is_covered spans.now key.now }
{
    spans.iter().any(|span| span.contains(key))
}
