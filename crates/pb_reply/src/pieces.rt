ghost use Rattle.std.specs.Prelude.{◌≡◌, ◌<◌, ◌++◌, OnOk, OnErr, length, take};
ghost use Rattle.std.specs.Char.{digit_char};
ghost use Rattle.std.specs.List.{flat_map};
ghost use Rattle.pb_reply.specs.Pieces.{piece_text};
ghost use Rattle.pb_keys.specs.Printed.{printed_byte, word};

use itoa::Buffer;
use std::alloc::AllocError;

/// A part of a printed line: a text as it stands, a number in decimal, or a byte string in the spelling of scripts.
#[derive(Clone, Copy)]
pub enum Piece<'a> {
    Plain(&'a str),
    Number(u64),
    Word(&'a [u8]),
}

/// Appends the pieces. Without memory a part of them may stand behind what `out` held.
#[tactic(auto, using(crate::proofs::Growth::front_before))]
pub fn append(out: &mut Vec<u8>, pieces: &[Piece<'_>]) -> Result<(), AllocError>
    ensures ok { OnOk result (out.new.items ≡ out.old.items ++ flat_map piece_text pieces.now) }
    ensures err { OnErr result (take (length out.old.items) out.new.items ≡ out.old.items) }
{
    for piece in pieces {
        append_piece(out, piece)?;
    }
    Ok(())
}

fn append_piece(out: &mut Vec<u8>, piece: &Piece<'_>) -> Result<(), AllocError>
    ensures ok { OnOk result (out.new.items ≡ out.old.items ++ piece_text piece.now) }
    ensures err { OnErr result (take (length out.old.items) out.new.items ≡ out.old.items) }
{
    match piece {
        Piece::Plain(text) => out.extend_from_slice(text.as_bytes()),
        Piece::Number(number) => out.extend_from_slice(Buffer::new().format(*number).as_bytes()),
        Piece::Word(bytes) => append_word(out, bytes),
    }
}

fn append_word(out: &mut Vec<u8>, bytes: &[u8]) -> Result<(), AllocError>
    ensures ok { OnOk result (out.new.items ≡ out.old.items ++ word bytes.now) }
    ensures err { OnErr result (take (length out.old.items) out.new.items ≡ out.old.items) }
{
    if bytes.is_empty() {
        return out.extend_from_slice(b"%");
    }
    for byte in bytes {
        append_byte(out, *byte)?;
    }
    Ok(())
}

fn append_byte(out: &mut Vec<u8>, byte: u8) -> Result<(), AllocError>
    ensures ok { OnOk result (out.new.items ≡ out.old.items ++ printed_byte byte) }
    ensures err { OnErr result (out.new.items ≡ out.old.items) }
{
    if byte.is_ascii_graphic() && byte != b'%' {
        return out.extend_from_slice(&[byte]);
    }
    out.extend_from_slice(&[b'%', hex_digit(byte / 16), hex_digit(byte % 16)])
}

fn hex_digit(value: u8) -> u8
    requires { value < 16 }
    ensures { result ≡ digit_char value }
{
    if value < 10 {
        b'0' + value
    } else {
        b'a' + (value - 10)
    }
}
