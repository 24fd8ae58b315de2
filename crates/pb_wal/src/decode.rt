ghost use Rattle.std.specs.Prelude.{◌≡◌, ◌↔◌, IfSome, IfOk};
ghost use Rattle.pb_payloads.specs.Logged.{Logged};
ghost use Rattle.pb_wal.specs.Changes.{logged_of};
ghost use Rattle.pb_wal.specs.Contents.{IsBehind, IsBehindCount};

use crate::Change;
use crate::kinds::{DEL, DEL_RANGE, SET};
use crate::parts::{read_last, read_two};
use pb_keys::{Bytes, Key, MAX_VALUE, Span};
use std::alloc::{AllocError, Global};

/// The command that these bytes are, from its kind on.
pub(crate) fn read_change(alloc: Global, from: &[u8]) -> Result<Option<Change>, AllocError>
    ensures some { IfOk result (λ found. IfSome found (λ change. IsBehindCount from.now (logged_of change))) }
    ensures none { (result ≡ Ok None) ↔ ((logged : Logged) → IsBehindCount from.now logged → ⊥) }
{
    let [kind, rest @ ..] = from else {
        return Ok(None);
    };
    match *kind {
        SET => read_set(alloc, rest),
        DEL => read_del(alloc, rest),
        DEL_RANGE => read_del_range(alloc, rest),
        _ => Ok(None),
    }
}

fn read_set(alloc: Global, from: &[u8]) -> Result<Option<Change>, AllocError>
    ensures some { IfOk result (λ found. IfSome found (λ change. IsBehind SET from.now (logged_of change))) }
    ensures none { (result ≡ Ok None) ↔ ((logged : Logged) → IsBehind SET from.now logged → ⊥) }
{
    let Some((key, value)) = read_two(from) else {
        return Ok(None);
    };
    if value.len() > MAX_VALUE {
        return Ok(None);
    }
    let Some(key) = Key::read(alloc, key)? else {
        return Ok(None);
    };
    let value = Bytes::new(alloc, value)?;
    Ok(Some(Change::Set(key, value)))
}

fn read_del(alloc: Global, from: &[u8]) -> Result<Option<Change>, AllocError>
    ensures some { IfOk result (λ found. IfSome found (λ change. IsBehind DEL from.now (logged_of change))) }
    ensures none { (result ≡ Ok None) ↔ ((logged : Logged) → IsBehind DEL from.now logged → ⊥) }
{
    let Some(key) = read_last(from) else {
        return Ok(None);
    };
    let Some(key) = Key::read(alloc, key)? else {
        return Ok(None);
    };
    Ok(Some(Change::Del(key)))
}

fn read_del_range(alloc: Global, from: &[u8]) -> Result<Option<Change>, AllocError>
    ensures some { IfOk result (λ found. IfSome found (λ change. IsBehind DEL_RANGE from.now (logged_of change))) }
    ensures none { (result ≡ Ok None) ↔ ((logged : Logged) → IsBehind DEL_RANGE from.now logged → ⊥) }
{
    let Some((lo, hi)) = read_two(from) else {
        return Ok(None);
    };
    let Some(span) = Span::read(alloc, lo, hi)? else {
        return Ok(None);
    };
    Ok(Some(Change::DelRange(span)))
}
