//! What holds of all commands. Each function does nothing: its contract is a law of the definitions that the contracts of
//! this crate cite.
ghost use Rattle.std.specs.Prelude.{◌≡◌, List, false, Some};
ghost use Rattle.pb_keys.specs.Map.{Map, without};
ghost use Rattle.pb_keys.specs.Span.{KeySpan};
ghost use Rattle.pb_rows.specs.Applied.{applied};
ghost use Rattle.pb_rows.specs.Changing.{Changing, changed};
ghost use Rattle.pb_rows.specs.ChangingLayers.{layer_of_changes};
ghost use Rattle.pb_rows.specs.Hull.{hull_of};
ghost use Rattle.pb_rows.specs.Layer.{KeyLayer};
ghost use Rattle.pb_rows.specs.Touching.{touches};

/// Commands that touch nothing within a span may be done before the span is emptied or after, and those that touch nothing
/// within another layer's hull before that layer is applied or after.
pub fn untouched_commands_commute()
    ensures span { (changes : List Changing) (m : Map) (span : KeySpan) → touches (layer_of_changes changes) span ≡ false
        → changed (without m span) changes ≡ without (changed m changes) span }
    ensures layer { (changes : List Changing) (m : Map) (b : KeyLayer) (hull : KeySpan) → hull_of b ≡ Some hull
        → touches (layer_of_changes changes) hull ≡ false → changed (applied b m) changes ≡ applied b (changed m changes) }
{}
