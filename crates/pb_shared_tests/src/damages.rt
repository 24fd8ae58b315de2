// A file that is cut short or has a byte changed, beside a plain list of entries.
use super::catalogues::assert_answers;
use super::plain::plain;
use std::alloc::Global;
use std::process::Abort;
use std::test::Fail;

/// The entries 4 and 5, and the first of them dropped.
const FILE: [u8; 33] =
    *b"\x01\0\0\0\x02\x01\x01\x01\0\0\0\x04\x02\x04\x01\x04\x01\0\0\0\x04\x02\x05\x01\x05\x01\0\0\0\x02\x04\x04\0";

fn assert_plain(rt: &impl Abort, alloc: Global, file: &[u8]) -> Result<(), Fail> {
    let wanted = plain(alloc, file)?;
    assert_answers(rt, alloc, file, &wanted)
}

#[test]
fn a_file_that_is_cut_short_is_read_as_plainly(rt: HostRuntime) -> Result<(), Fail> {
    for len in 0..34 {
        assert_plain(&rt, rt.alloc(), &FILE[..len])?;
    }
    Ok(())
}

#[test]
fn a_file_with_another_byte_is_read_as_plainly(rt: HostRuntime) -> Result<(), Fail> {
    for at in 0..33 {
        for byte in [0, 1, 0x7f, 0xff] {
            let mut file = FILE;
            file[at] = byte;
            assert_plain(&rt, rt.alloc(), &file)?;
        }
    }
    Ok(())
}
