ghost use Rattle.std.specs.Prelude.{◌≡◌, ◌+◌, ◌≤◌, ◌<◌, ◌^◌, ◌%◌, ◌++◌, [], ◌==◌, if◌then◌else◌, nat_eq, IfSome, OnOk, OnErr, length, take, vec_len, vec_capacity};
ghost use Rattle.std.specs.List.{common_prefix_len};
ghost use Rattle.std.specs.Option.{option_map, unwrap_or};
ghost use Rattle.pb_bytes.specs.BigEndian.{be32};
ghost use Rattle.pb_keys.specs.Value.{IsValue};
ghost use Rattle.pb_block.specs.Blocks.{value_number, shared_at, entry_spelling};

use pb_bytes::{be32, put_varint};
use std::alloc::{AllocError, Global};

/// With how many bytes of the key before the key of the entry of this number begins.
pub(crate) fn shared_of<const R: usize>(number: usize, before: &[u8], key: &[u8]) -> usize
    requires { 1 ≤ R }
    ensures shared { result ≡ shared_at R number before.now key.now }
    ensures within { result ≤ length key.now }
{
    if number % R == 0 {
        return 0;
    }
    common_len(before, key)
}

fn common_len(a: &[u8], b: &[u8]) -> usize
    ensures len { result ≡ common_prefix_len nat_eq a.now b.now }
    ensures within { result ≤ length b.now }
{
    let most = a.len().min(b.len());
    for at in 0..most {
        if a[at] != b[at] {
            return at;
        }
    }
    most
}

/// Appends the entry of a row. Without memory the bytes are as before.
pub(crate) fn put_entry(
    alloc: Global,
    out: &mut Vec<u8>,
    shared: usize,
    key: &[u8],
    value: Option<&[u8]>,
) -> Result<(), AllocError>
    requires shared { shared ≤ length key.now }
    requires short { IfSome (option_map (λ bytes. bytes.now) value) IsValue }
    ensures ok { OnOk result (out.new.items ≡ out.old.items ++ entry_spelling shared (record { key = key.now; value = option_map (λ bytes. bytes.now) value.entry })) }
    ensures err { OnErr result (out.new.items ≡ out.old.items) }
{
    let before = out.len();
    if let Err(error) = put_parts(alloc, out, shared, key, value) {
        // A part of an entry would be none.
        out.truncate(before);
        return Err(error);
    }
    Ok(())
}

#[tactic(auto, unfolding(crate::specs::Blocks::entry_spelling))]
fn put_parts(
    alloc: Global,
    out: &mut Vec<u8>,
    shared: usize,
    key: &[u8],
    value: Option<&[u8]>,
) -> Result<(), AllocError>
    requires shared { shared ≤ length key.now }
    requires short { IfSome (option_map (λ bytes. bytes.now) value) IsValue }
    ensures ok { OnOk result (out.new.items ≡ out.old.items ++ entry_spelling shared (record { key = key.now; value = option_map (λ bytes. bytes.now) value.entry })) }
    ensures kept { take (length out.old.items) out.new.items ≡ out.old.items }
{
    let (_, unshared) = key.split_at(shared);
    put_varint(alloc, out, shared as u64)?;
    put_varint(alloc, out, unshared.len() as u64)?;
    put_varint(alloc, out, value_number(value))?;
    out.extend_from_slice(unshared)?;
    out.extend_from_slice(bytes_of(value))?;
    Ok(())
}

fn value_number(value: Option<&[u8]>) -> u64
    requires { IfSome (option_map (λ bytes. bytes.now) value) IsValue }
    ensures { result ≡ value_number (option_map (λ bytes. bytes.now) value.entry) }
{
    match value {
        None => 0,
        Some(bytes) => bytes.len() as u64 + 1,
    }
}

fn bytes_of(value: Option<&[u8]>) -> &[u8]
    ensures { result.now ≡ unwrap_or (option_map (λ bytes. bytes.now) value.entry) [] }
{
    match value {
        None => &[],
        Some(bytes) => bytes,
    }
}

/// Appends where the entry of this number begins, if it is at a restart. It takes no memory.
pub(crate) fn add_restart<const R: usize>(restarts: &mut Vec<u8>, entry: usize, at: usize)
    requires distance { 1 ≤ R }
    requires within { at < 2 ^ 32 }
    requires room { vec_len restarts.old + 4 ≤ vec_capacity restarts.old }
    ensures { restarts.new.items ≡ restarts.old.items ++ (if entry % R == 0 then be32 at else []) }
{
    if entry % R == 0 {
        restarts.extend_from_slice(&be32(at as u32)).unwrap();
    }
}
