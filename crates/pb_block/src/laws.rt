//! What holds of all blocks. Each function does nothing: its contract is a law of the definitions that the contracts of this crate cite.
ghost use Rattle.std.specs.Prelude.{◌≡◌, ℕ, List, Some};
ghost use Rattle.pb_block.specs.Blocks.{BlockRow, IsBlock, HasRoom, block_spelling};
ghost use Rattle.pb_block.specs.Reading.{block_at};

/// Two lists of rows with the same bytes are one list.
pub fn one_block()
    ensures { (distance : ℕ) (a b : List BlockRow) → block_spelling distance a ≡ block_spelling distance b → IsBlock distance a → IsBlock distance b → a ≡ b }
{}

/// The rows of a block are one at every other distance of restarts at which there is room for them, and a reader of that has
/// the same rows.
pub fn every_distance_keeps_the_rows()
    ensures block { (distance other : ℕ) (rows : List BlockRow) → IsBlock distance rows → HasRoom other rows → IsBlock other rows }
    ensures read { (distance other : ℕ) (rows : List BlockRow) → IsBlock distance rows → HasRoom other rows → block_at other (block_spelling other rows) ≡ Some rows }
{}
