ghost use Rattle.std.specs.Prelude.{◌≡◌, ◌++◌};
ghost use Rattle.pb_keys.specs.Order.{is_below};

/// Whether one byte string behind another is below an end, as bytes. It joins nothing.
#[tactic(auto, using(pb_keys::proofs::OrderFacts::compares))]
pub(crate) fn is_below_end(front: &[u8], back: &[u8], end: &[u8]) -> bool
    ensures { result ≡ is_below (front.now ++ back.now) end.now }
{
    match end.strip_prefix(front) {
        Some(rest) => back < rest,
        None => front < end,
    }
}

/// Whether an end is below one byte string behind another, as bytes. It joins nothing.
#[tactic(auto, using(pb_keys::proofs::OrderFacts::compares))]
pub(crate) fn is_above_end(front: &[u8], back: &[u8], end: &[u8]) -> bool
    ensures { result ≡ is_below end.now (front.now ++ back.now) }
{
    match end.strip_prefix(front) {
        Some(rest) => rest < back,
        None => end < front,
    }
}
