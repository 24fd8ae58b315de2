ghost use Rattle.std.specs.Prelude.{◌≡◌, ◌≢◌, ◌≤◌, ◌<◌, ◌^◌, ◌↔◌, ℕ, List, ◌++◌, IsTrue, IsSome, IfNone, IfSome, Some, length, slice_index, All};
ghost use Rattle.std.specs.Option.{SomeIff};
ghost use Rattle.std.specs.Char.{IsAsciiDigit};
ghost use Rattle.std.specs.Str.Parse.{digits_value};
ghost use Rattle.pb_names.specs.NumberedFile.{IsFileOf, IsNumberedFile, IsShortestNumeral};
ghost use Rattle.pb_names.specs.Spelling.{ending, file_name};
ghost use Rattle.pb_names.specs.declared.file_kind.FileKind.{FileKind as Kind};

use crate::FileKind;
use crate::files::ending_of;
use std::str;

/// What the name of a numbered file tells. A number of 2^64 or more is `None`: no maker spells such a name, and a file that
/// has it is a leftover.
#[derive(Clone, Copy, Debug, PartialEq, Eq)]
pub struct NumberedFile {
    pub kind: FileKind,
    pub number: Option<u64>,
}

/// Reads the name of a numbered file, as `file` spells it. `None` exactly where the name is not decimal digits without a
/// leading zero but for `0` alone, and one of the four endings. It takes no memory.
///
/// The spellings stand in docs/FORMATS.md, "Names".
pub fn file_of(name: &str) -> Option<NumberedFile>
    ensures numbered { IsSome result ↔ IsNumberedFile name.now }
    ensures kind { IfSome result (λ file. IsFileOf file.kind name.now) }
    ensures number { IfSome result (λ file. (n : ℕ) → (file.number ≡ Some n) ↔ ((n < 2 ^ 64) × (name.now ≡ file_name file.kind n))) }
{
    let (digits, kind) = parts_of(name.as_bytes())?;
    if !is_shortest_numeral(digits) {
        return None;
    }
    Some(NumberedFile {
        kind,
        number: number_of(digits),
    })
}

// What stands before the ending, and the kind of the ending.
fn parts_of(name: &[u8]) -> Option<(&[u8], FileKind)>
    ensures none { IfNone result ((kind : Kind) (digits : List ℕ) → name.now ≢ digits ++ ending kind) }
    ensures some { IfSome result (λ parts. name.now ≡ parts.0.now ++ ending parts.1) }
{
    if let Some(digits) = before_ending(name, FileKind::Manifest) {
        return Some((digits, FileKind::Manifest));
    }
    if let Some(digits) = before_ending(name, FileKind::Catalogue) {
        return Some((digits, FileKind::Catalogue));
    }
    if let Some(digits) = before_ending(name, FileKind::Log) {
        return Some((digits, FileKind::Log));
    }
    let digits = before_ending(name, FileKind::Table)?;
    Some((digits, FileKind::Table))
}

fn before_ending(name: &[u8], kind: FileKind) -> Option<&[u8]>
    ensures none { IfNone result ((digits : List ℕ) → name.now ≢ digits ++ ending kind) }
    ensures some { IfSome result (λ digits. name.now ≡ digits.now ++ ending kind) }
{
    name.strip_suffix(ending_of(kind))
}

fn is_shortest_numeral(digits: &[u8]) -> bool
    ensures { IsTrue result ↔ IsShortestNumeral digits.now }
{
    if !are_digits(digits) {
        return false;
    }
    match digits {
        [] => false,
        [first, more @ ..] => *first != b'0' || more.is_empty(),
    }
}

fn are_digits(bytes: &[u8]) -> bool
    ensures { IsTrue result ↔ All IsAsciiDigit bytes.now }
{
    bytes.iter().all(|byte| byte.is_ascii_digit())
}

// The number that the digits write. std's `parse` would take a `+` too.
fn number_of(digits: &[u8]) -> Option<u64>
    requires { IsShortestNumeral digits.now }
    ensures { SomeIff result (digits_value 10 digits.now < 2 ^ 64) (digits_value 10 digits.now) }
{
    str::from_utf8(digits).unwrap().parse::<u64>().ok()
}
