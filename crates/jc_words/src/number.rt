//! The number of classes of generated releases.
ghost use Rattle.std.specs.Prelude.{◌≡◌, ◌↔◌, ℕ, IfOk, IsTrue, MatchOption};
ghost use Rattle.jc_words.specs.Number.{number_of as number_in};
ghost use Rattle.jc_words.specs.steps.Written.{IsWritten};

use std::alloc::{AllocError, Global};

/// The most classes of a generated release.
const MAX_CLASSES: u32 = 4096;

// The only number that the text can be the digits of.
fn parsed(text: &str) -> Option<u32>
    ensures { MatchOption result ((m : ℕ) → IsWritten text.now m → ⊥) (λ n. (m : ℕ) → IsWritten text.now m → m ≡ n) }
{
    match text.parse::<u32>() {
        Ok(number) => Some(number),
        Err(_) => None,
    }
}

// Whether the text is that of the number, which is from 1 to 4,096.
fn is_written(alloc: Global, text: &str, number: u32) -> Result<bool, AllocError>
    ensures { IfOk result (λ r. IsTrue r ↔ IsWritten text.now number) }
{
    let digits = format!(in alloc; "{number}")?;
    Ok(1 <= number && number <= MAX_CLASSES && digits.as_str() == text)
}

/// The number from 1 to 4,096 that the text says in decimal digits, without a sign or a leading zero.
///
/// # Errors
///
/// `AllocError` where memory runs out.
#[tactic(auto, using(crate::proofs::Numbers::number_found, crate::proofs::Numbers::number_missing))]
pub fn number_of(alloc: Global, text: &str) -> Result<Option<u32>, AllocError>
    ensures { IfOk result (λ n. n ≡ number_in text.now) }
{
    let Some(number) = parsed(text) else {
        return Ok(None);
    };
    if is_written(alloc, text, number)? {
        Ok(Some(number))
    } else {
        Ok(None)
    }
}
