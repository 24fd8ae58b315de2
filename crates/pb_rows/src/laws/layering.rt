//! Layers put over one another, and the layers of commands.
ghost use Rattle.std.specs.Prelude.{◌≡◌, ℕ, List, [], ◌∷◌, ◌++◌, All};
ghost use Rattle.std.specs.FinMap.{empty, entries};
ghost use Rattle.std.specs.List.{AllPairs};
ghost use Rattle.std.specs.Option.{option_or};
ghost use Rattle.pb_keys.specs.Map.{Map};
ghost use Rattle.pb_rows.specs.Applied.{applied, applied_newest_first};
ghost use Rattle.pb_rows.specs.Changing.{Changing, after, changed};
ghost use Rattle.pb_rows.specs.Changing.Changing.{Ingest};
ghost use Rattle.pb_rows.specs.ChangingLayers.{layer_of_changing, layer_of_changes, live_pairs, IsChanging};
ghost use Rattle.pb_rows.specs.Hull.{HullsApart, HaveSameLayers};
ghost use Rattle.pb_rows.specs.Layer.{KeyRow, KeyLayer, IsLayer, Rise};
ghost use Rattle.pb_rows.specs.Over.{over, over_all};
ghost use Rattle.pb_rows.specs.Verdict.{row_verdict, verdict, verdicts};

/// Layers that say the same of every key do the same to every map. So do lists of layers.
pub fn same_effect()
    ensures one { (a b : KeyLayer) → ((key : List ℕ) → verdict a key ≡ verdict b key) → (m : Map) → applied a m ≡ applied b m }
    ensures many { (xs ys : List KeyLayer) → ((key : List ℕ) → verdicts xs key ≡ verdicts ys key) → (m : Map) → applied_newest_first xs m ≡ applied_newest_first ys m }
{}

/// Two lists of the same layers, of which no two hulls overlap, say the same in any order, and do the same when ingested.
pub fn apart_in_any_order()
    ensures says { (xs ys : List KeyLayer) → HaveSameLayers xs ys → AllPairs HullsApart xs → (key : List ℕ) → verdicts xs key ≡ verdicts ys key }
    ensures ingested { (xs ys : List KeyLayer) → HaveSameLayers xs ys → AllPairs HullsApart xs → (m : Map) → after m (Ingest xs) ≡ after m (Ingest ys) }
{}

/// All layers of a list put over one another say of each key what the newest that speaks of it says, and do to a map what
/// they do one after another, the oldest first.
pub fn over_all_says_the_newest()
    ensures says { (layers : List KeyLayer) (key : List ℕ) → verdict (over_all layers) key ≡ verdicts layers key }
    ensures does { (layers : List KeyLayer) (m : Map) → applied (over_all layers) m ≡ applied_newest_first layers m }
{}

/// Layers in form put over one another are a layer in form.
pub fn over_keeps_layers()
    ensures two { (newer older : KeyLayer) → IsLayer newer → IsLayer older → IsLayer (over newer older) }
    ensures all { (layers : List KeyLayer) → All IsLayer layers → IsLayer (over_all layers) }
{}

/// Of three layers it makes no difference which two are put over one another first.
pub fn over_groups()
    ensures { (a b c : KeyLayer) → IsLayer a → IsLayer b → IsLayer c → over (over a b) c ≡ over a (over b c) }
{}

/// Rising rows are determined by what they say of each key.
pub fn rows_are_their_verdicts()
    ensures { (xs ys : List KeyRow) → Rise xs → Rise ys → ((key : List ℕ) → row_verdict xs key ≡ row_verdict ys key) → xs ≡ ys }
{}

/// A layer applied to the empty map leaves the pairs of its rows that have a value.
pub fn a_layers_pairs()
    ensures { (layer : KeyLayer) → IsLayer layer → entries (applied layer empty) ≡ live_pairs layer }
{}

/// The layer of a command, applied to a map, does what the command does, and the layer of commands what they do in turn.
pub fn layer_does_the_command()
    ensures one { (change : Changing) (m : Map) → applied (layer_of_changing change) m ≡ after m change }
    ensures many { (changes : List Changing) (m : Map) → applied (layer_of_changes changes) m ≡ changed m changes }
{}

/// The layer of commands is that of the last one over that of the others, and says what the last one says, or else what the
/// others say.
pub fn last_change_is_newest()
    ensures layers { (changes : List Changing) (change : Changing) → layer_of_changes (changes ++ change ∷ []) ≡ over (layer_of_changing change) (layer_of_changes changes) }
    ensures says { (changes : List Changing) (change : Changing) (key : List ℕ) → verdict (layer_of_changes (changes ++ change ∷ [])) key ≡ option_or (verdict (layer_of_changing change) key) (verdict (layer_of_changes changes) key) }
{}

/// The layer of a command in form is in form, and so is the layer of commands in form.
pub fn changes_are_layers()
    ensures one { (change : Changing) → IsChanging change → IsLayer (layer_of_changing change) }
    ensures many { (changes : List Changing) → All IsChanging changes → IsLayer (layer_of_changes changes) }
{}
