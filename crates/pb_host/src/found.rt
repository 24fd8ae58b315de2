ghost use Rattle.std.specs.Prelude.{◌≡◌, Ok, Err, None, IfOk, IfErr, IfSome, IsErrAnd, IsOkAnd};
ghost use Rattle.std.specs.Fs.{metadata_len};
ghost use Rattle.std.specs.IoError.{error_kind};

use std::fs::Metadata;
use std::io::{self, ErrorKind};

/// An answer on something that need not be there. Any other error stays one.
pub fn if_there<T>(found: io::Result<T>) -> io::Result<Option<T>>
    ensures some { IfOk result (λ there. IfSome there (λ value. found ≡ Ok value)) }
    ensures none { result ≡ Ok None → IsErrAnd found (λ e. error_kind e ≡ ErrorKind.NotFound) }
    ensures err { IfErr result (λ e. found ≡ Err e) }
{
    match found {
        Ok(value) => Ok(Some(value)),
        Err(error) if error.kind() == ErrorKind::NotFound => Ok(None),
        Err(error) => Err(error),
    }
}

/// The length of a file by its stat. What is there and is no file is an error.
pub fn length_if_there(found: io::Result<Metadata>) -> io::Result<Option<u64>>
    ensures some { IfOk result (λ there. IfSome there (λ len. IsOkAnd found (λ stat. metadata_len stat ≡ len))) }
    ensures none { result ≡ Ok None → IsErrAnd found (λ e. error_kind e ≡ ErrorKind.NotFound) }
{
    match if_there(found)? {
        Some(stat) if stat.is_file() => Ok(Some(stat.len())),
        Some(_) => Err(io::Error::from(ErrorKind::InvalidInput)),
        None => Ok(None),
    }
}
