ghost use Rattle.std.specs.Prelude.{◌↔◌, IsTrue};
ghost use Rattle.std.specs.Option.{SomeIff};
ghost use Rattle.pb_names.specs.Grammar.{IsName, IsNameByte};
ghost use Rattle.pb_names.specs.Spelling.{external_name};

use crate::Name;

/// The longest name that a script gives, in bytes.
pub const MAX_NAME_LEN: usize = 48;

/// The name of the external object that a script calls `name`: `x/e1` for `e1`. `None` exactly where that is no name.
pub fn external(name: &[u8]) -> Option<Name>
    ensures { SomeIff result (IsName name.now) (external_name name.now) }
{
    if !is_name(name) {
        return None;
    }
    let mut external = Name::empty();
    external.push(b"x/");
    external.push(name);
    Some(external)
}

/// Whether this is a name as scripts give it to tables, handles, pins and external objects: 1 to 48 of the bytes
/// `a` to `z`, `0` to `9`, `_` and `-`.
pub fn is_name(name: &[u8]) -> bool
    ensures { IsTrue result ↔ IsName name.now }
{
    (1..=MAX_NAME_LEN).contains(&name.len()) && name.iter().all(|byte| is_name_byte(*byte))
}

fn is_name_byte(byte: u8) -> bool
    ensures { IsTrue result ↔ IsNameByte byte }
{
    matches!(byte, b'a'..=b'z' | b'0'..=b'9' | b'_' | b'-')
}
