//! Numbers as bytes, the highest byte first (RFC 5246 section 4.4).

ghost use Rattle.std.specs.Prelude.{◌≡◌, ◌<◌, ◌^◌};
ghost use Rattle.ct_codec.specs.Bytes.{num};

use byteorder::{BigEndian, ByteOrder};

/// A number in two bytes.
#[tactic(auto, unfolding(crate::specs::Bytes::num))]
pub fn number_bytes_2(n: u16) -> [u8; 2]
    ensures { result ≡ num 2 n }
{
    let mut bytes = [0u8; 2];
    let place: &mut [u8] = &mut bytes;
    BigEndian::write_u16(place, n);
    bytes
}

/// A number in three bytes.
#[tactic(auto, unfolding(crate::specs::Bytes::num))]
pub fn number_bytes_3(n: u32) -> [u8; 3]
    requires { n < 2 ^ 24 }
    ensures { result ≡ num 3 n }
{
    let mut bytes = [0u8; 3];
    let place: &mut [u8] = &mut bytes;
    BigEndian::write_u24(place, n);
    bytes
}

/// A number in five bytes.
#[tactic(auto, unfolding(crate::specs::Bytes::num))]
pub fn number_bytes_5(n: u64) -> [u8; 5]
    requires { n < 2 ^ 40 }
    ensures { result ≡ num 5 n }
{
    let mut bytes = [0u8; 5];
    let place: &mut [u8] = &mut bytes;
    BigEndian::write_uint(place, n, 5);
    bytes
}

/// A number in eight bytes.
#[tactic(auto, unfolding(crate::specs::Bytes::num))]
pub fn number_bytes_8(n: u64) -> [u8; 8]
    ensures { result ≡ num 8 n }
{
    let mut bytes = [0u8; 8];
    let place: &mut [u8] = &mut bytes;
    BigEndian::write_u64(place, n);
    bytes
}

/// The number that two bytes encode.
pub fn number_of_2(bytes: &[u8; 2]) -> u16
    ensures { num 2 result ≡ bytes.now }
{
    u16::from_be_bytes(*bytes)
}

/// The number that three bytes encode.
#[tactic(auto, unfolding(crate::specs::Bytes::num))]
pub fn number_of_3(bytes: &[u8; 3]) -> u32
    ensures value { num 3 result ≡ bytes.now }
    ensures fits { result < 2 ^ 24 }
{
    u32::from_be_bytes([0, bytes[0], bytes[1], bytes[2]])
}

/// The number that five bytes encode.
#[tactic(auto, unfolding(crate::specs::Bytes::num))]
pub fn number_of_5(bytes: &[u8; 5]) -> u64
    ensures value { num 5 result ≡ bytes.now }
    ensures fits { result < 2 ^ 40 }
{
    u64::from_be_bytes([0, 0, 0, bytes[0], bytes[1], bytes[2], bytes[3], bytes[4]])
}

/// The number that eight bytes encode.
pub fn number_of_8(bytes: &[u8; 8]) -> u64
    ensures { num 8 result ≡ bytes.now }
{
    u64::from_be_bytes(*bytes)
}
