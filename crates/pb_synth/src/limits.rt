ghost use Rattle.std.specs.Prelude.{◌≡◌, ◌↔◌, ◌⊎◌, IsTrue, All, [], length};
ghost use Rattle.pb_keys.specs.Key.{IsKeyLength};
ghost use Rattle.pb_keys.specs.View.{IsMapping};
ghost use Rattle.pb_rows.specs.Viewed.{mapped_key, mapped_span, MapsWithin};
ghost use Rattle.pb_synth.specs.Clash.{HasNoClash};
ghost use Rattle.pb_synth.specs.Limits.{HasShortEnds};

use super::clashes::clash;
use super::keys::mapped_len;
use pb_keys::{MAX_END, MAX_KEY, Span, View};
use pb_rows::{Layer, Row};

/// Whether each key and each end keeps its limit through the view, and no two keys become one: what `view_layer` needs.
/// It takes no memory.
pub fn maps_within(view: &View, layer: &Layer) -> bool
    requires { IsMapping view.now }
    ensures { IsTrue result ↔ MapsWithin view.now layer.now }
{
    if !have_short_keys(view, layer.rows()) {
        return false;
    }
    if !have_short_ends(view, layer.dels()) {
        return false;
    }
    stay_apart(view, layer.rows())
}

/// Whether each mapped key has at most 1,024 bytes.
fn have_short_keys(view: &View, rows: &[Row]) -> bool
    requires { IsMapping view.now }
    ensures { IsTrue result ↔ All (λ row. IsKeyLength (length (mapped_key view.now row.key))) rows.now }
{
    for row in rows {
        if mapped_len(view, &row.key) > MAX_KEY {
            return false;
        }
    }
    true
}

/// Whether each mapped end has at most 1,025 bytes.
fn have_short_ends(view: &View, dels: &[Span]) -> bool
    requires { IsMapping view.now }
    ensures { IsTrue result ↔ All (λ span. HasShortEnds (mapped_span view.now span)) dels.now }
{
    for span in dels {
        if !has_short_ends(view, span) {
            return false;
        }
    }
    true
}

fn has_short_ends(view: &View, span: &Span) -> bool
    requires { IsMapping view.now }
    ensures { IsTrue result ↔ HasShortEnds (mapped_span view.now span.now) }
{
    let prefix = view.prefix.as_slice().len();
    prefix + span.lo().len() <= MAX_END && prefix + span.hi().len() <= MAX_END
}

/// Whether the view has no suffix, or no row has the prefix of the row before.
fn stay_apart(view: &View, rows: &[Row]) -> bool
    ensures { IsTrue result ↔ ((view.now.suffix ≡ []) ⊎ HasNoClash rows.now) }
{
    if view.suffix.as_slice().is_empty() {
        return true;
    }
    match clash(rows) {
        None => true,
        Some(_) => false,
    }
}
