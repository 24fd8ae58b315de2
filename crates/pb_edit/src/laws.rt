//! What holds of the spellings, as a contract of a function that does nothing.

ghost use Rattle.std.specs.Prelude.{◌≡◌, ℕ, ◌≤◌};
ghost use Rattle.pb_edit.specs.Edit.{VersionEdit};
ghost use Rattle.pb_edit.specs.declared.grammar.TheConstants.{LAST_LEVEL};
ghost use Rattle.pb_edit.specs.Grammar.{IsEdit, IsLevel, edit_spelling};

/// No two edits have one spelling.
pub fn one_edit()
    ensures { (a b : VersionEdit) → IsEdit a → IsEdit b → edit_spelling a ≡ edit_spelling b → a ≡ b }
{}

/// The constant is the grammar's last level.
pub fn the_last_level()
    ensures within { (level : ℕ) → level ≤ LAST_LEVEL → IsLevel level }
    ensures last { (level : ℕ) → IsLevel level → level ≤ LAST_LEVEL }
{}
