ghost use Rattle.std.specs.Prelude.{◌≡◌, ◌∷◌, [], IsSome, IfSome, is_some, length};
ghost use Rattle.std.specs.Option.{option_map};
ghost use Rattle.pb_keys.specs.Key.{is_before};
ghost use Rattle.pb_block.specs.Blocks.{rows_from};
ghost use Rattle.pb_block.specs.Reading.{all_behind};
ghost use Rattle.pb_block.specs.Cursors.{advanced, before_rows, is_before_row};

use crate::entry::split_entry;
use crate::key_room::KeyRoom;
use crate::order::is_split_below;
use std::marker::Model;

/// Where a cursor stands to the row that it read last.
#[derive(Clone, Copy)]
pub(crate) enum Standing {
    /// It stands at none.
    Apart,
    At,
    /// Before it: the row comes next.
    Before,
}

fn is_before_row(standing: Standing) -> bool
    ensures { result ≡ is_before_row standing }
{
    match standing {
        Standing::Before => true,
        Standing::At => false,
        Standing::Apart => false,
    }
}

/// A place in a block: the row at which it stands, and those that are still to come. Contracts see both: docs/MODEL.md, "Blocks".
#[derive(Drop)]
pub struct BlockCursor<'a> {
    key: KeyRoom,
    value: Option<&'a [u8]>,
    standing: Standing,
    rest: &'a [u8],
}

impl<'a> Model for BlockCursor<'a> {
    ghost use Rattle.std.specs.Option.{option_map};
    ghost use Rattle.pb_block.specs.Reading.{all_behind};
    ghost use Rattle.pb_block.specs.Cursors.{CursorView};

    ghost Value = { CursorView };

    ghost use Rattle.pb_block.specs.Cursors.{cursor_at};

    ghost view = { λ c. cursor_at c.standing (record { key = c.key; value = option_map (λ value. value.now) c.value }) (all_behind c.key c.rest.now) };
}

impl<'a> BlockCursor<'a> {
    /// Before the rows of entries of which the first goes on behind no key.
    pub(crate) fn new(entries: &'a [u8]) -> BlockCursor<'a>
        ensures { result ≡ before_rows (all_behind [] entries.now) }
    {
        BlockCursor {
            key: KeyRoom::new(),
            value: None,
            standing: Standing::Apart,
            rest: entries,
        }
    }

    /// Goes to the next row. False where there is none, and then it stands at none.
    pub fn advance(&mut self) -> bool
        ensures moves { self.new ≡ advanced self.old.left }
        ensures found { result ≡ is_some self.new.at }
    {
        if is_before_row(self.standing) {
            self.standing = Standing::At;
            return true;
        }
        let Some((entry, rest)) = split_entry(self.key.len(), self.rest) else {
            self.standing = Standing::Apart;
            return false;
        };
        self.key.put(entry.shared, entry.unshared);
        self.value = entry.value;
        self.standing = Standing::At;
        self.rest = rest;
        true
    }

    /// The key of the row at which it stands.
    pub fn key(&self) -> &[u8]
        requires { IsSome self.now.at }
        ensures { IfSome self.now.at (λ row. result.now ≡ row.key) }
    {
        self.key.as_slice()
    }

    /// The value of the row at which it stands, or None where that is deleted. It stands in the block's bytes.
    pub fn value(&self) -> Option<&'a [u8]>
        requires { IsSome self.now.at }
        ensures { IfSome self.now.at (λ row. option_map (λ value. value.now) result ≡ row.value) }
    {
        self.value
    }

    /// Goes before the row at which it stands.
    fn step_back(&mut self)
        requires { IsSome self.old.at }
        ensures { IfSome self.old.at (λ row. self.new ≡ before_rows (row ∷ self.old.left)) }
    {
        self.standing = Standing::Before;
    }

    fn is_below(&self, prefix: &[u8], suffix: &[u8]) -> bool
        requires { IsSome self.now.at }
        ensures { IfSome self.now.at (λ row. result ≡ is_before prefix.now suffix.now row.key) }
    {
        is_split_below(self.key.as_slice(), self.key.split(), prefix, suffix)
    }

    /// Goes before the first of the rows to come whose key isn't below the one with these parts.
    pub(crate) fn skip_below(&mut self, prefix: &[u8], suffix: &[u8])
        ensures { self.new ≡ before_rows (rows_from self.old.left prefix.now suffix.now) }
    {
        while self.advance() {
            if !self.is_below(prefix, suffix) {
                self.step_back();
                return;
            }
        }
    }
}
