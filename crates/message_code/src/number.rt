//! Reading a number from the front of bytes.

ghost use Rattle.std.specs.Prelude.{◌≡◌, ◌<◌, ◌≤◌, ◌++◌, IfOk};
ghost use Rattle.std.specs.Int.{w8, w16, w32, w64, to_be_bytes, from_be_bytes};
ghost use Rattle.message_code.specs.Form.{number};
ghost use Rattle.message_code.specs.Reading.{Reads};

use crate::stop::Stop;

/// A number of one byte, at least `least` and below `limit`, and the bytes after it.
#[inline]
pub(crate) fn u8_at(bytes: &[u8], least: u8, limit: u8) -> Result<(u8, &[u8]), Stop>
    ensures read { Reads (λ x. to_be_bytes w8 x.0 ++ x.1.now) (number w8 least limit) bytes.now result }
    ensures range { IfOk result (λ x. (least ≤ x.0) × (x.0 < limit)) }
{
    if let Some((field, rest)) = bytes.split_first_chunk::<1>() {
        let number = u8::from_be_bytes(*field);
        if least <= number && number < limit {
            return Ok((number, rest));
        }
    }
    Err(Stop::Bad { left: bytes.len() })
}

/// The number that two bytes encode, big-endian.
#[inline]
fn u16_of(field: [u8; 2]) -> u16
    ensures value { result ≡ from_be_bytes w16 field }
    ensures code { to_be_bytes w16 result ≡ field }
{
    u16::from_be_bytes(field)
}

/// A number of two bytes below `limit`, and the bytes after it.
#[inline]
pub(crate) fn u16_at(bytes: &[u8], limit: u16) -> Result<(u16, &[u8]), Stop>
    ensures read { Reads (λ x. to_be_bytes w16 x.0 ++ x.1.now) (number w16 0 limit) bytes.now result }
    ensures range { IfOk result (λ x. x.0 < limit) }
{
    if let Some((field, rest)) = bytes.split_first_chunk::<2>() {
        let number = u16_of(*field);
        if number < limit {
            return Ok((number, rest));
        }
    }
    Err(Stop::Bad { left: bytes.len() })
}

/// The number that four bytes encode, big-endian.
#[inline]
fn u32_of(field: [u8; 4]) -> u32
    ensures value { result ≡ from_be_bytes w32 field }
    ensures code { to_be_bytes w32 result ≡ field }
{
    u32::from_be_bytes(field)
}

/// A number of four bytes, at least `least` and below `limit`, and the bytes after it.
#[inline]
pub(crate) fn u32_at(bytes: &[u8], least: u32, limit: u32) -> Result<(u32, &[u8]), Stop>
    ensures read { Reads (λ x. to_be_bytes w32 x.0 ++ x.1.now) (number w32 least limit) bytes.now result }
    ensures range { IfOk result (λ x. (least ≤ x.0) × (x.0 < limit)) }
{
    if let Some((field, rest)) = bytes.split_first_chunk::<4>() {
        let number = u32_of(*field);
        if least <= number && number < limit {
            return Ok((number, rest));
        }
    }
    Err(Stop::Bad { left: bytes.len() })
}

/// The number that eight bytes encode, big-endian.
#[inline]
fn u64_of(field: [u8; 8]) -> u64
    ensures value { result ≡ from_be_bytes w64 field }
    ensures code { to_be_bytes w64 result ≡ field }
{
    u64::from_be_bytes(field)
}

/// A number of eight bytes below `limit`, and the bytes after it.
#[inline]
pub(crate) fn u64_at(bytes: &[u8], limit: u64) -> Result<(u64, &[u8]), Stop>
    ensures read { Reads (λ x. to_be_bytes w64 x.0 ++ x.1.now) (number w64 0 limit) bytes.now result }
    ensures range { IfOk result (λ x. x.0 < limit) }
{
    if let Some((field, rest)) = bytes.split_first_chunk::<8>() {
        let number = u64_of(*field);
        if number < limit {
            return Ok((number, rest));
        }
    }
    Err(Stop::Bad { left: bytes.len() })
}
