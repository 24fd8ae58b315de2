use pb_devices::{Bucket, Failed, ListError};
use std::alloc::{AllocError, Global};

/// The longest object that is put or read, in bytes.
const LONGEST: usize = 16_777_216;

/// Makes the call that a line asks for, and answers it in words: `put NAME SIZE`, `delete NAME`, `size NAME`, `read NAME`,
/// `count PREFIX`, `list PREFIX`. Any other line makes no call.
pub fn answer<B: Bucket>(alloc: Global, bucket: &mut B, line: &str) -> Result<String, AllocError> {
    let Some((call, rest)) = line.split_once(' ') else {
        return String::from_str(alloc, "no call");
    };
    match call {
        "put" => put(alloc, bucket, rest),
        "delete" => String::from_str(alloc, word_of(bucket.delete(rest))),
        "size" => size(alloc, bucket, rest),
        "read" => read(alloc, bucket, rest),
        "count" => count(alloc, bucket, rest),
        "list" => list(alloc, bucket, rest),
        _ => String::from_str(alloc, "no call"),
    }
}

/// Puts so many times the letter that the number of the calls before it gives: `a` to `z`, and so on again.
fn put<B: Bucket>(alloc: Global, bucket: &mut B, rest: &str) -> Result<String, AllocError> {
    let Some((name, size)) = rest.split_once(' ') else {
        return String::from_str(alloc, "no call");
    };
    let Ok(size) = size.parse::<usize>() else {
        return String::from_str(alloc, "no call");
    };
    let letter = b'a' + (bucket.calls() % 26) as u8;
    let bytes = vec![in alloc; letter; size.min(LONGEST)]?;
    String::from_str(alloc, word_of(bucket.put(name, &bytes)))
}

fn size<B: Bucket>(alloc: Global, bucket: &mut B, name: &str) -> Result<String, AllocError> {
    match bucket.size(name) {
        Ok(Some(size)) => format!(in alloc; "{size}"),
        Ok(None) => String::from_str(alloc, "none"),
        Err(Failed) => String::from_str(alloc, "failed"),
    }
}

/// Reads an object by one call. The answer has its first byte, and whether all are the same.
fn read<B: Bucket>(alloc: Global, bucket: &mut B, name: &str) -> Result<String, AllocError> {
    let mut piece = vec![in alloc; 0u8; LONGEST + 1]?;
    match bucket.read_at(name, 0, &mut piece) {
        Ok(Some(n)) => say_bytes(alloc, &piece[..n]),
        Ok(None) => String::from_str(alloc, "none"),
        Err(Failed) => String::from_str(alloc, "failed"),
    }
}

fn say_bytes(alloc: Global, bytes: &[u8]) -> Result<String, AllocError> {
    let Some(first) = bytes.first() else {
        return String::from_str(alloc, "0 bytes");
    };
    let count = bytes.len();
    let letter = *first as char;
    if bytes.iter().all(|byte| byte == first) {
        format!(in alloc; "{count} bytes, each {letter}")
    } else {
        format!(in alloc; "{count} bytes, the first {letter}")
    }
}

fn count<B: Bucket>(alloc: Global, bucket: &mut B, prefix: &str) -> Result<String, AllocError> {
    match bucket.count(prefix) {
        Ok(count) => format!(in alloc; "{count}"),
        Err(Failed) => String::from_str(alloc, "failed"),
    }
}

/// The names, a blank before each.
fn list<B: Bucket>(alloc: Global, bucket: &mut B, prefix: &str) -> Result<String, AllocError> {
    match bucket.list(alloc, prefix) {
        Ok(names) => say_names(alloc, &names),
        Err(ListError::Failed) => String::from_str(alloc, "failed"),
        Err(ListError::NoMemory) => String::from_str(alloc, "no memory"),
    }
}

fn say_names(alloc: Global, names: &[String]) -> Result<String, AllocError> {
    let mut said = String::from_str(alloc, "names")?;
    for name in names {
        said.push(' ')?;
        said.push_str(name.as_str())?;
    }
    Ok(said)
}

fn word_of(answer: Result<(), Failed>) -> &'static str {
    match answer {
        Ok(()) => "ok",
        Err(Failed) => "failed",
    }
}
