ghost use Rattle.std.specs.Prelude.{◌≡◌, ◌<◌, ◌==◌, ◌∷◌, [], IfSome, MatchOption, length, position};
ghost use Rattle.std.specs.List.{slice_split};

/// What stands before the first of a byte, and what behind it, `None` where it isn't there.
pub fn cut(text: &[u8], at: u8) -> Option<(&[u8], &[u8])>
    ensures parts { MatchOption result
        (slice_split (λ byte. byte == at) text.now ≡ text.now ∷ [])
        (λ parts. slice_split (λ byte. byte == at) text.now ≡ parts.0.now ∷ slice_split (λ byte. byte == at) parts.1.now) }
    ensures shorter { IfSome result (λ parts. length parts.1.now < length text.now) }
{
    let place = place_of(text, at)?;
    Some((&text[..place], &text[place + 1..]))
}

fn place_of(text: &[u8], at: u8) -> Option<usize>
    ensures { result ≡ position (λ byte. byte == at) text.now }
{
    text.iter().position(|byte| *byte == at)
}
