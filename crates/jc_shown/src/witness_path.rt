//! Where the class files of witnesses stand.
ghost use Rattle.std.specs.Prelude.{◌≡◌, IfOk, IsTrue, string_bytes};
ghost use Rattle.std.specs.Str.{is_utf8};
ghost use Rattle.jc_shown.specs.Witness.{six_digits, witness_path};

use jc_base::name::Name;
use std::alloc::{AllocError, Global};
use std::str;

// The number in six digits, or in as many as it has.
fn six_digits(alloc: Global, number: usize) -> Result<String, AllocError>
    ensures { IfOk result (λ digits. string_bytes digits ≡ six_digits number) }
{
    format!(in alloc; "{number:06}")
}

/// The path of a class file of the witness of this number: `DIR/NNNNNN/NAME.class`, the number in six
/// digits. The class's name is UTF-8.
///
/// # Errors
///
/// `AllocError` where memory runs out.
pub fn witness_path(
    alloc: Global,
    dir: &str,
    number: usize,
    class: &Name,
) -> Result<String, AllocError>
    requires { IsTrue (is_utf8 «class».now) }
    ensures { IfOk result (λ path. string_bytes path ≡ witness_path dir.now number «class».now) }
{
    let number = six_digits(alloc, number)?;
    let Ok(name) = str::from_utf8(class.as_bytes()) else {
        unreachable!()
    };
    format!(in alloc; "{dir}/{number}/{name}.class")
}
