ghost use Rattle.std.specs.Prelude.{◌≡◌, ◌++◌, ◌∷◌, [], map, string_bytes, Err, OnOk, IfErr};
ghost use Rattle.pb_devices.specs.Objects.{begins_with as begins};

use pb_devices::ListError;
use std::alloc::Global;

/// Whether a name begins with a prefix.
pub fn begins_with(name: &String, prefix: &str) -> bool
    ensures { result ≡ begins prefix.now (string_bytes name.now) }
{
    name.as_str().starts_with(prefix)
}

/// Adds a copy of a name behind the others.
pub fn add_name(alloc: Global, names: &mut Vec<String>, name: &String) -> Result<(), ListError>
    ensures ok { OnOk result (map string_bytes names.new.items ≡ map string_bytes names.old.items ++ string_bytes name.now ∷ []) }
    ensures err { IfErr result (λ e. e ≡ ListError.NoMemory) }
{
    match String::from_str(alloc, name.as_str()) {
        Err(_) => Err(ListError::NoMemory),
        Ok(copy) => match names.push(copy) {
            Err(_) => Err(ListError::NoMemory),
            Ok(()) => Ok(()),
        },
    }
}
