ghost use Rattle.std.specs.Prelude.{◌≡◌, ◌<◌, ◌≤◌, ◌+◌, ◌++◌, ◌∷◌, ◌⊎◌, ℕ, [], true, length, vec_len, IsOk, IfOk, IfErr, OnOk};
ghost use Rattle.pb_devices.specs.Counts.{Rose};
ghost use Rattle.pebble_cli.specs.Runs.{max_script};

use pb_devices::{Failed, Source};
use std::alloc::{AllocError, Global};

/// The longest script, in bytes: 16 MiB.
pub const MAX_SCRIPT: usize = 16_777_216;

/// How many bytes are asked for at a time.
const PIECE: usize = 65_536;

/// Why a script wasn't read.
#[derive(Drop)]
pub enum ReadError {
    Failed,
    TooLong,
    NoMemory,
}

impl From<Failed> for ReadError {
    ghost use Rattle.pebble_cli.specs.declared.script.ReadError.TheVariants.{Failed as ReadFailed};

    ghost from_gives = { λ _ e. e ≡ ReadFailed };

    fn from(_: Failed) -> ReadError {
        ReadError::Failed
    }
}

impl From<AllocError> for ReadError {
    ghost use Rattle.pebble_cli.specs.declared.script.ReadError.TheVariants.{NoMemory as ReadNoMemory};

    ghost from_gives = { λ _ e. e ≡ ReadNoMemory };

    fn from(_: AllocError) -> ReadError {
        ReadError::NoMemory
    }
}

/// Reads a script to its end, and of a longer one no more than one byte behind the longest.
pub fn read_script<I: Source>(alloc: Global, source: &mut I) -> Result<Vec<u8>, ReadError>
    ensures ok { I.told ≡ true → IfOk result (λ bytes. (bytes.items ≡ I.left source.old) × (I.left source.new ≡ [])) }
    ensures short { IfOk result (λ bytes. length bytes.items ≤ max_script) }
    ensures too_long { I.told ≡ true → result ≡ Err ReadError.TooLong → max_script < length (I.left source.old) }
    ensures taken { I.told ≡ true → IsOk result ⊎ (result ≡ Err ReadError.TooLong)
        → length (I.left source.old) ≤ length (I.left source.new) + max_script + 1 }
    ensures failed { result ≡ Err ReadError.Failed → Rose (I.fault_count source.old) (I.fault_count source.new) }
    ensures later { I.fault_count source.old ≤ I.fault_count source.new }
{
    let mut piece = new_piece(alloc)?;
    let piece = piece.as_mut_slice();
    let mut script = Vec::new(alloc);
    while script.len() <= MAX_SCRIPT {
        let room = piece.len().min(MAX_SCRIPT + 1 - script.len());
        if read_piece(source, &mut piece[..room], &mut script)? == 0 {
            return Ok(script);
        }
    }
    Err(ReadError::TooLong)
}

/// The place that a piece is read into.
fn new_piece(alloc: Global) -> Result<Vec<u8>, AllocError>
    ensures { IfOk result (λ piece. 0 < vec_len piece) }
{
    vec![in alloc; 0; PIECE]
}

/// Reads a piece behind what was read, and answers how many bytes it had: 0 at the end.
fn read_piece<I: Source>(
    source: &mut I,
    piece: &mut [u8],
    script: &mut Vec<u8>,
) -> Result<usize, ReadError>
    requires some { 0 < length piece.old }
    ensures grows { IfOk result (λ n. (n ≤ length piece.old) × (length script.new.items ≡ length script.old.items + n)) }
    ensures ok { I.told ≡ true → OnOk result (script.new.items ++ I.left source.new ≡ script.old.items ++ I.left source.old) }
    ensures ended { I.told ≡ true → IfOk result (λ n. n ≡ 0 → I.left source.new ≡ []) }
    ensures failed { result ≡ Err ReadError.Failed → Rose (I.fault_count source.old) (I.fault_count source.new) }
    ensures known { IfErr result (λ e. (e ≡ ReadError.Failed) ⊎ (e ≡ ReadError.NoMemory)) }
    ensures later { I.fault_count source.old ≤ I.fault_count source.new }
{
    let count = source.read(piece)?;
    script.extend_from_slice(&piece[..count])?;
    Ok(count)
}
