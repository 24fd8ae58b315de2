//! What holds of all layers and lists of spans. Each function does nothing: its contract is a law of the definitions that
//! the contracts of this crate cite.
ghost use Rattle.std.specs.Prelude.{◌≡◌, ℕ, List, All};
ghost use Rattle.pb_keys.specs.Map.{Map};
ghost use Rattle.pb_keys.specs.Span.{KeySpan, IsSpan};
ghost use Rattle.pb_rows.specs.Applied.{applied};
ghost use Rattle.pb_rows.specs.Layer.{KeyLayer, AreApart};
ghost use Rattle.pb_rows.specs.Over.{over};
ghost use Rattle.pb_rows.specs.Verdict.{is_covered};

/// A layer over another, applied to a map, does what the older one and then the newer one do.
pub fn over_does_both()
    ensures { (newer older : KeyLayer) (m : Map) → applied (over newer older) m ≡ applied newer (applied older m) }
{}

/// Spans in form that ascend, neither overlapping nor touching, are determined by the byte strings that they cover, of any
/// length: a span that begins behind each key of 1,024 bytes holds no key.
pub fn one_normal_form()
    ensures { (ss ts : List KeySpan) → All IsSpan ss → AreApart ss → All IsSpan ts → AreApart ts → ((bytes : List ℕ) → is_covered ss bytes ≡ is_covered ts bytes) → ss ≡ ts }
{}
