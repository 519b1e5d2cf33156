//! The text and the JSON of warnings, as they stand for themselves.
ghost use Rattle.std.specs.Prelude.{◌≡◌, true, false, Some, IfOk};
ghost use Rattle.jc_report.specs.WarnForms.{warn_bytes};

use crate::entries::lines;
use crate::put_listing::listing;
use jc_facts::warning::Warning;
use std::alloc::{AllocError, Global};

/// The text of warnings: a line `warning CLASS MEMBER KIND` for each.
///
/// # Errors
///
/// `AllocError` where memory runs out.
pub fn warn_text(alloc: Global, warnings: &[Warning]) -> Result<Vec<u8>, AllocError>
    ensures { IfOk result (λ text. text.items ≡ warn_bytes false (Some warnings.now)) }
{
    let text = lines(alloc, 1, warnings)?;
    Ok(text)
}

/// The JSON of warnings: one object without spaces, and a line end. Its one key is `warnings`, each of
/// whose entries has the keys `class`, `kind` and `member`. Names are printed as in the text, and keys
/// stand in byte order.
///
/// # Errors
///
/// `AllocError` where memory runs out.
pub fn warn_json(alloc: Global, warnings: &[Warning]) -> Result<Vec<u8>, AllocError>
    ensures { IfOk result (λ text. text.items ≡ warn_bytes true (Some warnings.now)) }
{
    let text = listing(alloc, "warnings", warnings)?;
    Ok(text)
}
