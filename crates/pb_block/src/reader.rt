ghost use Rattle.std.specs.Prelude.{◌≡◌, ◌≤◌, ◌<◌, ◌^◌, IfSome, IfNone, List, length};
ghost use Rattle.pb_bytes.specs.BigEndian.{number_of};
ghost use Rattle.std.specs.Option.{option_map};
ghost use Rattle.pb_block.specs.Blocks.{BlockRow, IsBlock, block_spelling};
ghost use Rattle.pb_block.specs.Reading.{parts_at, block_at};

use crate::scan::is_run;
use pb_bytes::read_be32;
use std::marker::Model;

/// The rows of a block, read where they stand. Contracts see the list of them: docs/MODEL.md, "Blocks".
#[derive(Drop)]
pub struct BlockReader<'a, const R: usize> {
    pub(crate) entries: &'a [u8],
    pub(crate) restarts: &'a [u8],
}

impl<'a, const R: usize> Model for BlockReader<'a, R> {
    ghost use Rattle.std.specs.Prelude.{List, []};
    ghost use Rattle.pb_block.specs.Blocks.{BlockRow};
    ghost use Rattle.pb_block.specs.Reading.{all_behind};
    ghost use Rattle.pb_block.specs.Held.{IsHeld};

    ghost Value = { List BlockRow };

    ghost view = { λ r. all_behind [] r.entries.now };

    ghost invariant = { λ r. IsHeld R r.entries.now r.restarts.now };
}

impl<'a, const R: usize> BlockReader<'a, R> {
    /// The block that these bytes are, with a restart at every R-th entry. None exactly where they are none: docs/FORMATS.md, "Blocks".
    /// It takes no memory, and one pass.
    pub fn new(bytes: &'a [u8]) -> Option<BlockReader<'a, R>>
        requires { 1 ≤ R }
        ensures found { IfSome result (λ rows. IsBlock R rows × (bytes.now ≡ block_spelling R rows)) }
        ensures none { IfNone result ((rows : List BlockRow) → IsBlock R rows → bytes.now ≡ block_spelling R rows → ⊥) }

        // The same as a function of the bytes.
        ensures exact { result ≡ block_at R bytes.now }
    {
        let block = read_block::<R>(bytes)?;
        Some(block)
    }
}

#[tactic(auto, unfolding(crate::specs::Reading::block_at))]
fn read_block<const R: usize>(bytes: &[u8]) -> Option<BlockReader<'_, R>>
    requires { 1 ≤ R }
    ensures { result ≡ block_at R bytes.now }
{
    let (entries, restarts) = split_parts(bytes)?;
    if entries.is_empty() {
        return None;
    }
    if !is_run::<R>(entries, restarts) {
        return None;
    }
    Some(BlockReader { entries, restarts })
}

/// The entries of a block, and its restarts without their number.
#[tactic(auto, unfolding(crate::specs::Reading::parts_at))]
fn split_parts(bytes: &[u8]) -> Option<(&[u8], &[u8])>
    ensures { option_map (λ parts. (parts.0.now, parts.1.now)) result ≡ parts_at bytes.now }
{
    if bytes.len() < 4 {
        return None;
    }
    let (front, last) = bytes.split_at(bytes.len() - 4);
    let size = 4 * restart_count(last);
    if size > front.len() {
        return None;
    }
    Some(front.split_at(front.len() - size))
}

fn restart_count(last: &[u8]) -> usize
    requires { length last.now ≡ 4 }
    ensures count { result ≡ number_of last.now }
    ensures below { result < 2 ^ 32 }
{
    match read_be32(last) {
        Some(count) => count as usize,
        None => unreachable!(),
    }
}
