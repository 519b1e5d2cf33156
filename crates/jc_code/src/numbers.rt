//! Numbers in code and in the tables of attributes.
ghost use Rattle.std.specs.Prelude.{◌≡◌, ◌≤◌, ◌-◌, length, drop, take};
ghost use Rattle.jc_desc.specs.Pool.{short_from};

use byteorder::{BigEndian, ByteOrder};

/// The number of the two bytes at this place; 0 where they aren't there.
pub(crate) fn short_in(place: usize, bytes: &[u8]) -> u16
    requires { place ≤ 8 }
    ensures { result ≡ short_from place bytes.now }
{
    if bytes.len() < place + 2 {
        0
    } else {
        BigEndian::read_u16(&bytes[place..])
    }
}

/// The first n bytes; all where there are fewer.
pub(crate) fn front(n: usize, bytes: &[u8]) -> &[u8]
    ensures { result.now ≡ take n bytes.now }
{
    if bytes.len() < n { bytes } else { &bytes[..n] }
}

/// What comes behind the first n bytes; nothing where there are fewer.
pub(crate) fn after(n: usize, bytes: &[u8]) -> &[u8]
    ensures rest { result.now ≡ drop n bytes.now }
    ensures left { length result.now ≡ length bytes.now - n }
{
    if bytes.len() < n { &[] } else { &bytes[n..] }
}
