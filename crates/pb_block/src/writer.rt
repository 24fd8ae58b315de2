ghost use Rattle.std.specs.Prelude.{◌≡◌, ◌≤◌, ◌<◌, ◌↔◌, ◌++◌, ◌∷◌, [], IsTrue, IfOk, OnOk, OnErr, length, vec_capacity};
ghost use Rattle.std.specs.Option.{option_map};
ghost use Rattle.pb_block.specs.Blocks.{IsBlock, block_spelling, entries};
ghost use Rattle.pb_block.specs.Runs.{MayBeAdded};

use crate::follows::is_short;
use crate::order::is_above;
use crate::scan::ENTRIES_LIMIT;
use crate::spelling::{add_restart, put_entry, shared_of};
use pb_bytes::be32;
use pb_keys::{Bytes, Key};
use std::alloc::{AllocError, Global};
use std::marker::Model;

/// Makes a block with a restart at every R-th entry. Contracts see the rows that were added: docs/MODEL.md, "Blocks".
#[derive(Drop)]
pub struct BlockWriter<const R: usize> {
    entries: Vec<u8>,
    restarts: Vec<u8>,
    last_key: Vec<u8>,
    count: usize,
}

impl<const R: usize> Model for BlockWriter<R> {
    ghost use Rattle.std.specs.Prelude.{List, []};
    ghost use Rattle.pb_block.specs.Blocks.{BlockRow};
    ghost use Rattle.pb_block.specs.Reading.{all_behind};
    ghost use Rattle.pb_block.specs.Runs.{IsWritten};

    ghost Value = { List BlockRow };

    ghost view = { λ w. all_behind [] w.entries.items };

    ghost invariant = { λ w. IsWritten R w.entries.items w.restarts.items w.last_key.items w.count };
}

impl<const R: usize> BlockWriter<R> {
    /// No rows. It takes no memory.
    pub fn new(alloc: Global) -> BlockWriter<R>
        requires { 1 ≤ R }
        ensures { result ≡ [] }
    {
        BlockWriter {
            entries: Vec::new(alloc),
            restarts: Vec::new(alloc),
            last_key: Vec::new(alloc),
            count: 0,
        }
    }

    /// The length of the entries so far, in bytes.
    pub fn size(&self) -> u64
        ensures { result ≡ length (entries R self.now) }
    {
        self.entries.len() as u64
    }

    /// Whether `add` may be asked: the entries are below 1 MiB, the key is above the last one, and the value has at most 65,536 bytes.
    pub fn may_add(&self, key: &Key, value: Option<&[u8]>) -> bool
        ensures { IsTrue result ↔ MayBeAdded R self.now key.now (option_map (λ bytes. bytes.now) value.entry) }
    {
        if self.entries.len() >= ENTRIES_LIMIT {
            return false;
        }
        if !is_above(self.last_key.as_slice(), key.as_bytes()) {
            return false;
        }
        is_short(value)
    }

    /// Adds a row behind the others. `may_add` tells whether it may be asked. Without memory all is as before.
    pub fn add(&mut self, alloc: Global, key: &Key, value: Option<&[u8]>) -> Result<(), AllocError>
        requires { MayBeAdded R self.old key.now (option_map (λ bytes. bytes.now) value) }
        ensures ok { OnOk result (self.new ≡ self.old ++ record { key = key.now; value = option_map (λ bytes. bytes.now) value.entry } ∷ []) }
        ensures err { OnErr result (self.new ≡ self.old) }
    {
        let bytes = key.as_bytes();
        let at = self.entries.len();
        let shared = shared_of::<R>(self.count, self.last_key.as_slice(), bytes);
        self.restarts.reserve(4)?;
        self.last_key.reserve(bytes.len())?;
        put_entry(alloc, &mut self.entries, shared, bytes, value)?;
        add_restart::<R>(&mut self.restarts, self.count, at);
        put_key(&mut self.last_key, bytes);
        self.count += 1;
        Ok(())
    }

    /// The block. Its entries are handed over, and not copied.
    pub fn finish(self, alloc: Global) -> Result<Bytes, AllocError>
        requires { 1 ≤ length self }
        ensures ok { IfOk result (λ bytes. bytes ≡ block_spelling R self.entry) }
        ensures block { IsBlock R self.entry }
    {
        let BlockWriter {
            entries,
            restarts,
            ..
        } = self;
        let mut block = entries;
        let count = restarts.len() / 4;
        block.extend_from_slice(restarts.as_slice())?;
        block.extend_from_slice(&be32(count as u32))?;
        let bytes = Bytes::from_vec(alloc, block)?;
        Ok(bytes)
    }
}

/// Puts a key in place of another. It takes no memory.
fn put_key(last_key: &mut Vec<u8>, key: &[u8])
    requires { length key.now ≤ vec_capacity last_key.old }
    ensures { last_key.new.items ≡ key.now }
{
    last_key.clear();
    last_key.extend_from_slice(key).unwrap();
}
