//! What holds of all tables. A function here does nothing: its contract is the law.
ghost use Rattle.std.specs.Prelude.{ℕ, IsTrue};
ghost use Rattle.pb_counts.specs.declared.user.User.{User as OneUser};
ghost use Rattle.pb_counts.specs.Counts.{CountsView, CountedFromScratch, uses, is_used};

use super::Counts;

/// Two tables with the same users of each backing and the same known backings are equal.
pub fn counted_from_scratch(one: &Counts, other: &Counts)
    ensures { CountedFromScratch one.now other.now }
{
    one.in_form();
    other.in_form();
}

/// A backing is used exactly where somebody uses it.
pub fn used_by_somebody()
    ensures some { (counts : CountsView) (backing : ℕ) → IsTrue (is_used counts backing) → (user : OneUser) × IsTrue (uses counts user backing) }
    ensures each { (counts : CountsView) (user : OneUser) (backing : ℕ) → IsTrue (uses counts user backing) → IsTrue (is_used counts backing) }
{}
