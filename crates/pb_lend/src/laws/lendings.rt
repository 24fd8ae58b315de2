//! What is lent of small versions, computed.
ghost use Rattle.std.specs.Prelude.{◌≡◌, [], ◌∷◌, Some, None};
ghost use Rattle.std.specs.FinMap.{get};
ghost use Rattle.pb_keys.specs.Span.{span_of};
ghost use Rattle.pb_lend.specs.Lent.{least_lent, lent_tables, tables_above};
ghost use Rattle.pb_lend.specs.Examples.{b, c, d, e, f, g, span, in_bucket, seen_as, table, lender, behind_t, prefixed, deletes_d, nothing, lent_map};

/// The least level that is lent, with the tables that are lent and those that are read: of a local level 5 over a remote level
/// 6, of two remote levels, of a level 6 that is local beside the span alone, of levels with nothing in the span, and of a
/// remote level 5 over a local level 6.
pub fn least_levels()
    ensures sixth_is_remote { least_lent (lender (table 5 d e ∷ []) (table 16 b d ∷ [])) in_bucket span ≡ 6 }
    ensures sixth_is_lent { lent_tables (lender (table 5 d e ∷ []) (table 16 b d ∷ [])) 6 span ≡ (6, table 16 c d) ∷ [] }
    ensures fifth_is_read { tables_above (lender (table 5 d e ∷ []) (table 16 b d ∷ [])) 6 ≡ table 5 d e ∷ [] }
    ensures both_are_remote { least_lent (lender (table 15 d e ∷ []) (table 16 b d ∷ [])) in_bucket span ≡ 5 }
    ensures both_are_lent { lent_tables (lender (table 15 d e ∷ []) (table 16 b d ∷ [])) 5 span ≡ (5, table 15 d e) ∷ (6, table 16 c d) ∷ [] }
    ensures nothing_is_read { tables_above (lender (table 15 d e ∷ []) (table 16 b d ∷ [])) 5 ≡ [] }
    ensures local_beside { least_lent (lender (table 5 d e ∷ []) (table 16 c d ∷ table 6 f g ∷ [])) in_bucket span ≡ 6 }
    ensures only_in_the_span { lent_tables (lender (table 5 d e ∷ []) (table 16 c d ∷ table 6 f g ∷ [])) 6 span ≡ (6, table 16 c d) ∷ [] }
    ensures empty_levels { least_lent (lender (table 5 b c ∷ []) (table 6 f g ∷ [])) in_bucket span ≡ 5 }
    ensures empty_is_lent { lent_tables (lender (table 5 b c ∷ []) (table 6 f g ∷ [])) 5 span ≡ [] }
    ensures sixth_is_local { least_lent (lender (table 15 d e ∷ []) (table 6 c d ∷ [])) in_bucket span ≡ 7 }
    ensures none_is_lent { lent_tables (lender (table 15 d e ∷ []) (table 6 c d ∷ [])) 7 span ≡ [] }
    ensures all_is_read { tables_above (lender (table 15 d e ∷ []) (table 6 c d ∷ [])) 7 ≡ table 15 d e ∷ table 6 c d ∷ [] }
{}

/// A table half in the span is cut at the span's end, and one that is seen through a prefix keeps it.
pub fn cut_tables()
    ensures half { lent_tables (lender [] (table 16 e g ∷ [])) 6 span ≡ (6, table 16 e f) ∷ [] }
    ensures prefix { lent_tables (lender [] (seen_as 16 (prefixed (behind_t b) (behind_t d)) ∷ [])) 6 (span_of (behind_t c) (behind_t f)) ≡ (6, seen_as 16 (prefixed (behind_t c) (behind_t d))) ∷ [] }
{}

/// Rows that are lent under a deletion are gone, and the others are there: under one of the memtable, under one of a table of
/// level 5 that is read, and under one of such a table that is lent too.
pub fn deletions_hide_lent_rows()
    ensures of_the_memtable { get (lent_map deletes_d (lender [] (table 16 c f ∷ [])) 6) d ≡ None }
    ensures beside_the_memtable { get (lent_map deletes_d (lender [] (table 16 c f ∷ [])) 6) c ≡ Some (1 ∷ []) }
    ensures of_a_table_read { get (lent_map nothing (lender (table 5 c f ∷ []) (table 16 c f ∷ [])) 6) d ≡ None }
    ensures beside_a_table_read { get (lent_map nothing (lender (table 5 c f ∷ []) (table 16 c f ∷ [])) 6) c ≡ Some (1 ∷ []) }
    ensures of_a_table_lent { get (lent_map nothing (lender (table 15 c f ∷ []) (table 16 c f ∷ [])) 5) d ≡ None }
    ensures beside_a_table_lent { get (lent_map nothing (lender (table 15 c f ∷ []) (table 16 c f ∷ [])) 5) c ≡ Some (1 ∷ []) }
{}
