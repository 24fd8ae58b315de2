ghost use Rattle.std.specs.Prelude.{◌≡◌, ◌∷◌, true, false, take, IfNone, IfSome, IfOk};
ghost use Rattle.pb_bytes.specs.BigEndian.{be32};
ghost use Rattle.pb_gate_log.specs.Payloads.{begins_entry, len_behind, payloads};
ghost use Rattle.pb_gate_log.specs.Steps.{EndsAt};

use crate::MAX_PAYLOAD;
use pb_bytes::read_be32;
use pb_keys::Bytes;
use std::alloc::{AllocError, Global};

/// The payloads that the bytes of a log's file stand for, in order.
pub fn payloads(alloc: Global, bytes: &[u8]) -> Result<Vec<Bytes>, AllocError>
    ensures { IfOk result (λ found. found.items ≡ payloads bytes.now) }
{
    let (found, _gate) = decode(alloc, bytes)?;
    Ok(found)
}

/// The payloads that these bytes stand for, and the place of the last gate.
pub(crate) fn decode(alloc: Global, bytes: &[u8]) -> Result<(Vec<Bytes>, usize), AllocError>
    ensures { IfOk result (λ found. EndsAt found.1 found.0.items bytes.now) }
{
    let mut payloads = Vec::new(alloc);
    let mut gate = 0;
    while let Some(len) = payload_len(&bytes[gate..]) {
        let payload = Bytes::new(alloc, &bytes[gate + 5..gate + 5 + len])?;
        payloads.push(payload)?;
        gate += 5 + len;
    }
    Ok((payloads, gate))
}

// The length of the payload of the entry that begins these bytes.
fn payload_len(from: &[u8]) -> Option<usize>
    ensures none { IfNone result (begins_entry from.now ≡ false) }
    ensures some { IfSome result (λ len. begins_entry from.now ≡ true) }
    ensures len { IfSome result (λ len. len ≡ len_behind from.now) }
    ensures spelled { IfSome result (λ len. take 5 from.now ≡ 1 ∷ be32 len) }
{
    let [1, rest @ ..] = from else {
        return None;
    };
    let len = read_be32(rest)? as usize;
    if len > MAX_PAYLOAD || rest.len() < len + 5 {
        return None;
    }
    Some(len)
}

#[cfg(test)]
mod tests {
    use super::*;
    use std::test::Fail;

    // The payloads `ab`, an empty one and `c`.
    const THREE: [u8; 20] = [
        1, 0, 0, 0, 2, b'a', b'b', 1, 0, 0, 0, 0, 1, 0, 0, 0, 1, b'c', 0, 9,
    ];

    #[test]
    fn each_prefix_has_the_entries_that_are_whole(rt: HostRuntime) -> Result<(), Fail> {
        for len in 0..THREE.len() + 1 {
            let (payloads, gate) = decode(rt.alloc(), &THREE[..len])?;
            let (count, place) = match len {
                0..=7 => (0, 0),
                8..=12 => (1, 7),
                13..=18 => (2, 12),
                _ => (3, 18),
            };
            assert_eq!(rt; payloads.len(), count, "{len} bytes");
            assert_eq!(rt; gate, place, "{len} bytes");
        }
        Ok(())
    }

    #[test]
    fn only_a_gate_byte_1_opens_an_entry(rt: HostRuntime) -> Result<(), Fail> {
        for (byte, count) in [(0, 2), (1, 3), (2, 2), (255, 2)] {
            let mut bytes = THREE;
            bytes[12] = byte;
            let (payloads, _gate) = decode(rt.alloc(), &bytes)?;
            assert_eq!(rt; payloads.len(), count, "gate byte {byte}");
            assert_eq!(rt; payloads[0].as_slice(), b"ab".as_slice());
            assert_eq!(rt; payloads[1].as_slice().len(), 0);
        }
        Ok(())
    }

    #[test]
    fn a_length_above_the_limit_is_no_entry(rt: HostRuntime) -> Result<(), Fail> {
        let (payloads, gate) = decode(rt.alloc(), &[1, 0xFF, 0xFF, 0xFF, 0xFF, 0, 0, 0])?;
        assert_eq!(rt; payloads.len(), 0);
        assert_eq!(rt; gate, 0);
        Ok(())
    }
}
