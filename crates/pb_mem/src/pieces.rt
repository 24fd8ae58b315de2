ghost use Rattle.std.specs.Prelude.{◌≡◌, ◌-◌, min, length, Some};
ghost use Rattle.pb_devices.specs.Reads.{read_into};

/// Copies bytes from a place on into a piece, as many as there are and fit, and answers how many.
pub fn read_piece(bytes: &[u8], at: u64, into: &mut [u8]) -> usize
    ensures count { result ≡ min (length into.old) (length bytes.now - at) }
    ensures piece { into.new ≡ read_into (Some bytes.now) at into.old }
{
    let from = at.min(bytes.len() as u64) as usize;
    let rest = &bytes[from..];
    let count = rest.len().min(into.len());
    into[..count].copy_from_slice(&rest[..count]);
    count
}
