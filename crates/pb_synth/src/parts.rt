use std::marker::Model;

/// The parts of the keys that a view maps to a given key: this prefix, and this suffix, or any where there is none.
#[derive(Debug, Drop)]
pub struct Wanted<'a> {
    pub prefix: &'a [u8],
    pub suffix: Option<&'a [u8]>,
}

impl<'a> Model for Wanted<'a> {
    ghost use Rattle.std.specs.Option.{option_map};
    ghost use Rattle.pb_synth.specs.KeyParts.{KeyParts};

    ghost Value = { KeyParts };

    ghost view = { λ w. record { prefix = w.prefix.now; suffix = option_map (λ suffix. suffix.now) w.suffix } };
}
