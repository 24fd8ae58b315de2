//! What holds of all keys, spans and maps. Each function does nothing: its contract is a law of the definitions that the
//! contracts of this crate cite.
ghost use Rattle.std.specs.Prelude.{◌≡◌, ◌↔◌, ℕ, List, ◌++◌, IsTrue, codes, if◌then◌else◌};
ghost use Rattle.std.specs.Cmp.{IsTotalOrder};
ghost use Rattle.std.specs.FinMap.{IsAntisymmetric, get};
ghost use Rattle.std.specs.declared.cmp.Ordering.TheVariants.{Less};
ghost use Rattle.pb_keys.specs.Key.{IsKey, is_key, key_cmp, prefix_of, suffix_of};
ghost use Rattle.pb_keys.specs.Order.{LeastAbove, end_above};
ghost use Rattle.pb_keys.specs.Span.{KeySpan, IsEnd, IsSpan, is_end, is_span, holds_key};
ghost use Rattle.pb_keys.specs.Value.{IsValue, is_value};
ghost use Rattle.pb_keys.specs.View.{KeyView, IsPrefix, IsSuffix, IsMapping, IsView, is_prefix, is_suffix, is_mapping, is_view};
ghost use Rattle.pb_keys.specs.Map.{Map, cut, without};

use crate::{MAX_END, MAX_KEY, MAX_VALUE};

/// Keys have a total order, in which only equal keys tie.
pub fn keys_are_ordered()
    ensures total { IsTotalOrder key_cmp }
    ensures exact { IsAntisymmetric key_cmp }
{}

/// A prefix and a suffix determine the key.
pub fn parts_are_the_key()
    ensures { (key : List ℕ) → prefix_of key ++ suffix_of key ≡ key }
{}

/// The prefix decides first: the key `a@9` is before `a!`, though its bytes are not.
pub fn prefixes_decide_first()
    ensures { key_cmp (codes "a@9") (codes "a!") ≡ Less }
{}

/// A prefix followed by one zero byte is the least end above it.
pub fn a_zero_byte_makes_the_least_end()
    ensures { (prefix : List ℕ) → LeastAbove prefix (end_above prefix) }
{}

/// A cut map has at each key in the span what the map has, and nothing elsewhere.
pub fn cut_by_key()
    ensures { (m : Map) (span : KeySpan) (key : List ℕ) → get (cut m span) key ≡ (if holds_key span key then get m key else None) }
{}

/// A map without a span has nothing in the span, and elsewhere what the map has.
pub fn without_by_key()
    ensures { (m : Map) (span : KeySpan) (key : List ℕ) → get (without m span) key ≡ (if holds_key span key then None else get m key) }
{}

/// Maps that have the same at every key are equal.
pub fn same_pairs()
    ensures { (m n : Map) → ((key : List ℕ) → get m key ≡ get n key) → m ≡ n }
{}

/// Each test of a form passes exactly what is in the form.
pub fn forms_are_tested()
    ensures key { (bytes : List ℕ) → IsTrue (is_key bytes) ↔ IsKey bytes }
    ensures end { (bytes : List ℕ) → IsTrue (is_end bytes) ↔ IsEnd bytes }
    ensures span { (span : KeySpan) → IsTrue (is_span span) ↔ IsSpan span }
    ensures value { (bytes : List ℕ) → IsTrue (is_value bytes) ↔ IsValue bytes }
    ensures prefix { (bytes : List ℕ) → IsTrue (is_prefix bytes) ↔ IsPrefix bytes }
    ensures suffix { (bytes : List ℕ) → IsTrue (is_suffix bytes) ↔ IsSuffix bytes }
    ensures mapping { (view : KeyView) → IsTrue (is_mapping view) ↔ IsMapping view }
    ensures view { (view : KeyView) → IsTrue (is_view view) ↔ IsView view }
{}

/// The limits of the code are those of the forms.
pub fn limits_are_numerals()
    ensures key { MAX_KEY ≡ 1024 }
    ensures end { MAX_END ≡ 1025 }
    ensures value { MAX_VALUE ≡ 65536 }
{}
