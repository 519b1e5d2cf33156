//! Names of classes and of members (JVMS 4.2.1, 4.2.2).
//!
//! Names are bytes, as they stand in a class file. None of these calls takes memory.
ghost use Rattle.std.specs.Prelude.{◌≡◌, ◌||◌, ◌&&◌, ◌↔◌, not, codes, IsTrue};
ghost use Rattle.std.specs.List.{list_all};
ghost use Rattle.jc_desc.specs.Names.{is_init_name, is_clinit_name, is_initializer_name, spells_class_name, IsClassName, spells_member_name, is_byte_of_name, is_byte_of_member};

fn is_name_byte(byte: u8) -> bool
    ensures { result ≡ is_byte_of_name byte }
{
    byte != b'.' && byte != b';' && byte != b'[' && byte != b'/'
}

fn are_name_parts(bytes: &[u8]) -> bool
    ensures { result ≡ spells_class_name bytes.now }
{
    let mut begins = true;
    for byte in bytes {
        if *byte == b'/' {
            if begins {
                return false;
            }
            begins = true;
        } else {
            if !is_name_byte(*byte) {
                return false;
            }
            begins = false;
        }
    }
    !begins
}

/// Whether the bytes are a class name in its internal form, as `java/lang/Object`: one part or
/// more, joined by `/`, none of them empty, without `.`, `;` and `[` (JVMS 4.2.1).
pub fn is_class_name(bytes: &[u8]) -> bool
    ensures parts { IsTrue result ↔ IsClassName bytes.now }
    ensures exact { result ≡ spells_class_name bytes.now }
{
    are_name_parts(bytes)
}

fn is_member_byte(byte: u8, method: bool) -> bool
    ensures { result ≡ is_byte_of_member method byte }
{
    is_name_byte(byte) && !(method && (byte == b'<' || byte == b'>'))
}

fn are_member_bytes(bytes: &[u8], method: bool) -> bool
    ensures { result ≡ list_all (is_byte_of_member method) bytes.now }
{
    for byte in bytes {
        if !is_member_byte(*byte, method) {
            return false;
        }
    }
    true
}

/// Whether the bytes are `<init>`, the name of a constructor (JVMS 2.9.1).
pub fn is_init(name: &[u8]) -> bool
    ensures { result ≡ is_init_name name.now }
{
    name == b"<init>".as_slice()
}

/// Whether the bytes are `<clinit>`, the name of a class initializer (JVMS 2.9.2).
pub fn is_clinit(name: &[u8]) -> bool
    ensures { result ≡ is_clinit_name name.now }
{
    name == b"<clinit>".as_slice()
}

/// Whether the bytes are `<init>` or `<clinit>`.
pub fn is_initializer(name: &[u8]) -> bool
    ensures { result ≡ is_initializer_name name.now }
{
    is_init(name) || is_clinit(name)
}

/// Whether the bytes are the name of a method, or where `method` is false that of a field: not
/// empty, without `.`, `;`, `[` and `/`; of a method also without `<` and `>`, unless it is
/// `<init>` or `<clinit>` (JVMS 4.2.2).
pub fn is_member_name(bytes: &[u8], method: bool) -> bool
    ensures { result ≡ spells_member_name bytes.now method }
{
    (method && is_initializer(bytes)) || (!bytes.is_empty() && are_member_bytes(bytes, method))
}
