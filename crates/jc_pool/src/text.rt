//! The texts of a pool (JVMS 4.4.7). Most have characters of one byte alone, which is seen faster.
ghost use Rattle.std.specs.Prelude.{◌≡◌, ◌≤◌, length};
ghost use Rattle.std.specs.List.{list_all};
ghost use Rattle.jc_desc.specs.Utf8.{is_modified_utf8};
ghost use Rattle.jc_pool.specs.steps.Texts.{is_single_byte};

use jc_desc::utf8;

// Whether each byte is a character. All are looked at, whatever comes first, so that many are in one
// step.
fn are_single(bytes: &[u8]) -> bool
    ensures { result ≡ list_all is_single_byte bytes.now }
{
    let mut single = true;
    for byte in bytes {
        if *byte == 0 || *byte >= 0x80 {
            single = false;
        }
    }
    single
}

// The same of 8 bytes or more, by the first 8 and the last 8.
fn are_single_by_eights(bytes: &[u8]) -> bool
    requires least { 8 ≤ length bytes.now }
    requires most { length bytes.now ≤ 16 }
    ensures { result ≡ list_all is_single_byte bytes.now }
{
    are_single(&bytes[..8]) && are_single(&bytes[bytes.len() - 8..])
}

// The same of 16 bytes or more, in pieces of 16, of which the last may overlap the one before.
fn are_single_by_sixteens(bytes: &[u8]) -> bool
    requires { 16 ≤ length bytes.now }
    ensures { result ≡ list_all is_single_byte bytes.now }
{
    for i in 0..bytes.len() / 16 {
        if !are_single(&bytes[16 * i..16 * i + 16]) {
            return false;
        }
    }
    are_single(&bytes[bytes.len() - 16..])
}

// Whether each byte is a character. A piece whose length is known is looked at in one step.
fn are_all_single(bytes: &[u8]) -> bool
    ensures { result ≡ list_all is_single_byte bytes.now }
{
    if bytes.len() >= 16 {
        are_single_by_sixteens(bytes)
    } else if bytes.len() >= 8 {
        are_single_by_eights(bytes)
    } else {
        are_single(bytes)
    }
}

/// Whether the bytes are a text in modified UTF-8.
#[tactic(auto, using(crate::proofs::Texts::single_text))]
pub(crate) fn is_text(bytes: &[u8]) -> bool
    ensures { result ≡ is_modified_utf8 bytes.now }
{
    are_all_single(bytes) || utf8::is_text(bytes)
}
