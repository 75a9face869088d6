//! The check of some bytes.
ghost use Rattle.std.specs.Prelude.{◌≡◌, ◌%◌};
ghost use Rattle.mds_check.specs.Crc.{after_byte, after_bytes, crc32};

use crate::table::{AT_A_TIME, word};

/// The state before the first byte. By the same number the state behind the last byte differs from
/// the check.
pub(crate) const START: u32 = 0xFFFF_FFFF;

/// The check of some bytes: the CRC-32 of ISO 3309, as zlib's `crc32` has it.
pub fn checksum(bytes: &[u8]) -> u32
    ensures { result ≡ crc32 bytes.now }
{
    update(START, bytes) ^ START
}

/// The state behind some bytes, from the state before them. It takes eight at a time.
pub fn update(mut state: u32, bytes: &[u8]) -> u32
    ensures { result ≡ after_bytes state bytes.now }
{
    let mut rest = bytes;
    'eights: while let Some((eight, behind)) = rest.split_first_chunk::<AT_A_TIME>() {
        state = behind_eight(state, eight);
        rest = behind;
    }
    update_by_bytes(state, rest)
}

/// As [`update`], one byte at a time.
pub fn update_by_bytes(mut state: u32, bytes: &[u8]) -> u32
    ensures { result ≡ after_bytes state bytes.now }
{
    for byte in bytes {
        state = behind_byte(state, *byte);
    }
    state
}

fn behind_byte(state: u32, byte: u8) -> u32
    ensures { result ≡ after_byte state byte }
{
    word(0, low_byte(state) ^ byte) ^ (state >> 8)
}

fn low_byte(state: u32) -> u8
    ensures { result ≡ state % 256 }
{
    (state & 0xFF) as u8
}

fn behind_eight(state: u32, bytes: &[u8; AT_A_TIME]) -> u32
    ensures { result ≡ after_bytes state bytes.now }
{
    let [b0, b1, b2, b3, b4, b5, b6, b7] = *bytes;
    word(7, low_byte(state) ^ b0)
        ^ word(6, low_byte(state >> 8) ^ b1)
        ^ word(5, low_byte(state >> 16) ^ b2)
        ^ word(4, low_byte(state >> 24) ^ b3)
        ^ word(3, b4)
        ^ word(2, b5)
        ^ word(1, b6)
        ^ word(0, b7)
}
