//! Printed names, keys and numbers.
ghost use Rattle.std.specs.Prelude.{◌≡◌, ◌++◌, ◌∷◌, [], ◌+◌, ◌<◌, ◌≤◌, ◌^◌, None, OnOk};
ghost use Rattle.std.specs.Fmt.{decimal};
ghost use Rattle.jc_report.specs.Text.{hex_digit_of, printed_byte, printed, printed_key, printed_member, printed_name};
ghost use Rattle.jc_facts.specs.Names.{is_descriptor_of_method};

use jc_base::name::Name;
use jc_facts::key::Key;
use std::alloc::{AllocError, Global};

/// What printed forms are put at the end of: bytes, or a text.
pub trait Printout {
    ghost use Rattle.std.specs.Prelude.{List, ℕ};

    // What it holds.
    ghost bytes: { Self → List ℕ };

    /// Puts an ASCII character at the end.
    fn push_ascii(&mut self, byte: u8) -> Result<(), AllocError>
        requires { byte < 128 }
        ensures { OnOk result (bytes self.new ≡ bytes self.old ++ byte ∷ []) };
}

impl Printout for Vec<u8> {
    ghost bytes = { λ v. v.items };

    fn push_ascii(&mut self, byte: u8) -> Result<(), AllocError> {
        self.push(byte)?;
        Ok(())
    }
}

impl Printout for String {
    ghost use Rattle.std.specs.Prelude.{string_bytes};

    ghost bytes = { string_bytes };

    fn push_ascii(&mut self, byte: u8) -> Result<(), AllocError> {
        self.push(byte as char)
    }
}

// A lower-case hexadecimal digit.
fn hex_digit(digit: u8) -> u8
    requires { digit < 16 }
    ensures digit { result ≡ hex_digit_of digit }
    ensures ascii { result < 128 }
{
    if digit < 10 {
        b'0' + digit
    } else {
        b'a' - 10 + digit
    }
}

fn push_printed_byte<P: Printout>(text: &mut P, byte: u8) -> Result<(), AllocError>
    ensures { OnOk result (P.bytes text.new ≡ P.bytes text.old ++ printed_byte byte) }
{
    match byte {
        b'\\' => {
            text.push_ascii(b'\\')?;
            text.push_ascii(b'\\')?;
        }
        0x21..=0x7e => text.push_ascii(byte)?,
        _ => {
            text.push_ascii(b'\\')?;
            text.push_ascii(b'x')?;
            text.push_ascii(hex_digit(byte / 16))?;
            text.push_ascii(hex_digit(byte % 16))?;
        }
    }
    Ok(())
}

/// Prints bytes of a name, a path or a word at the end: a byte from 0x21 to 0x7e as itself, a
/// backslash doubled, any other as `\xNN`. After an error a part may stand there.
///
/// # Errors
///
/// `AllocError` where memory runs out.
pub fn push_printed<P: Printout>(text: &mut P, bytes: &[u8]) -> Result<(), AllocError>
    ensures { OnOk result (P.bytes text.new ≡ P.bytes text.old ++ printed bytes.now) }
{
    for byte in bytes {
        push_printed_byte(text, *byte)?;
    }
    Ok(())
}

/// The decimal digits of a number at the end of the text.
///
/// # Errors
///
/// `AllocError` where memory runs out.
pub fn push_decimal(alloc: Global, text: &mut Vec<u8>, number: usize) -> Result<(), AllocError>
    ensures { OnOk result (text.new.items ≡ text.old.items ++ decimal number) }
{
    let digits = format!(in alloc; "{number}")?;
    text.extend_from_slice(digits.as_str().as_bytes())
}

fn is_method_descriptor(descriptor: &[u8]) -> bool
    ensures { result ≡ is_descriptor_of_method descriptor.now }
{
    match descriptor {
        [first, ..] => *first == b'(',
        [] => false,
    }
}

/// Prints a key at the end: a method's is its name and descriptor written together, a field's has a
/// colon between them. After an error a part may stand there.
pub(crate) fn push_key<P: Printout>(text: &mut P, key: &Key) -> Result<(), AllocError>
    ensures { OnOk result (P.bytes text.new ≡ P.bytes text.old ++ printed_key key.now) }
{
    push_printed(text, key.name.as_bytes())?;
    if !is_method_descriptor(key.descriptor.as_bytes()) {
        text.push_ascii(b':')?;
    }
    push_printed(text, key.descriptor.as_bytes())
}

/// Prints a name at the end of the text, or `-` where there is none. After an error the text may hold
/// a part.
pub(crate) fn push_name(text: &mut Vec<u8>, name: &Option<Name>) -> Result<(), AllocError>
    ensures { OnOk result (text.new.items ≡ text.old.items ++ printed_name name.now) }
{
    match name {
        Some(name) => push_printed(text, name.as_bytes()),
        None => Ok(text.push(b'-')?),
    }
}

/// Prints a member at the end of the text: its key, or else its target, or `-`. After an error the text
/// may hold a part.
pub(crate) fn push_member(
    text: &mut Vec<u8>,
    key: &Option<Key>,
    target: &Option<Name>,
) -> Result<(), AllocError>
    ensures { OnOk result (text.new.items ≡ text.old.items ++ printed_member key.now target.now) }
{
    match key {
        Some(key) => push_key(text, key),
        None => push_name(text, target),
    }
}

/// Prints a key at the end of the text, or `-` where there is none. After an error the text may hold a
/// part.
pub(crate) fn push_key_or_dash(text: &mut Vec<u8>, key: &Option<Key>) -> Result<(), AllocError>
    ensures { OnOk result (text.new.items ≡ text.old.items ++ printed_member key.now None) }
{
    match key {
        Some(key) => push_key(text, key),
        None => Ok(text.push(b'-')?),
    }
}
