//! What holds of the spellings, as contracts of functions that do nothing.

ghost use Rattle.std.specs.Prelude.{ℕ, ◌≡◌, ◌<◌, ◌↔◌, ◌^◌, ◌++◌, List, length};
ghost use Rattle.pb_bytes.specs.BigEndian.{be32, be64, number_of, AreBytes};
ghost use Rattle.pb_bytes.specs.Number.{IsNumber};
ghost use Rattle.pb_bytes.specs.Varint.{varint, field};

use crate::NUMBERS;

/// No varint begins another: a number has one, and what follows it is determined.
pub fn one_varint()
    ensures { (m n : ℕ) (x y : List ℕ) → m < 2 ^ 64 → n < 2 ^ 64
        → varint m ++ x ≡ varint n ++ y → (m ≡ n) × (x ≡ y) }
{}

/// No field begins another.
pub fn one_field()
    ensures { (a b x y : List ℕ) → length a < 2 ^ 64 → length b < 2 ^ 64
        → field a ++ x ≡ field b ++ y → (a ≡ b) × (x ≡ y) }
{}

/// Every four bytes are the spelling of the number that they read as, and of no other.
pub fn each_four_bytes()
    ensures spelled { (bytes : List ℕ) → length bytes ≡ 4 → AreBytes bytes → be32 (number_of bytes) ≡ bytes }
    ensures below { (bytes : List ℕ) → length bytes ≡ 4 → AreBytes bytes → number_of bytes < 2 ^ 32 }
    ensures only { (value : ℕ) → value < 2 ^ 32 → number_of (be32 value) ≡ value }
{}

/// Every eight bytes are the spelling of the number that they read as, and of no other.
pub fn each_eight_bytes()
    ensures spelled { (bytes : List ℕ) → length bytes ≡ 8 → AreBytes bytes → be64 (number_of bytes) ≡ bytes }
    ensures below { (bytes : List ℕ) → length bytes ≡ 8 → AreBytes bytes → number_of bytes < 2 ^ 64 }
    ensures only { (value : ℕ) → value < 2 ^ 64 → number_of (be64 value) ≡ value }
{}

/// The limit of the code is that of numbers.
pub fn numbers_end_at_a_numeral()
    ensures limit { NUMBERS ≡ 2 ^ 62 }
    ensures numbers { (n : ℕ) → IsNumber n ↔ (n < NUMBERS) }
{}
