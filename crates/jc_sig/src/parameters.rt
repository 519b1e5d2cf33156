//! Type parameters in front of bytes (JVMS 4.7.9.1).
ghost use Rattle.std.specs.Prelude.{◌≡◌, IfOk, length, drop};
ghost use Rattle.std.specs.Option.{option_map};
ghost use Rattle.jc_sig.specs.Reading.{behind, name_len, not_before_colon, begins_bound, class_bound_from, bounds_from, parameter_from, parameters_from, type_parameters_from};
ghost use Rattle.jc_sig.specs.Views.{type_view, types_view, parameter_view, parameters_view};

use crate::bytes::{after, identifier_before, identifier_len};
use crate::tree::{Parameter, TypeSig};
use crate::types::bound_at;
use jc_base::name::Name;
use std::alloc::{AllocError, Global};

// Whether no `:` is behind the identifier in front.
fn is_no_parameter(bytes: &[u8]) -> bool
    ensures { result ≡ not_before_colon (behind 58 (drop (name_len bytes.now) bytes.now)) }
{
    after(b':', &bytes[identifier_len(bytes)..]).is_none()
}

// Whether a bound stands in front, behind the first `:` of a type parameter, and not the end, a `:`
// or the name of the next parameter. It looks no further than the byte behind an identifier.
fn is_bound_ahead(bytes: &[u8]) -> bool
    ensures { result ≡ begins_bound bytes.now }
{
    match bytes.split_first() {
        None => false,
        Some((first, _)) => {
            *first == b'[' || ((*first == b'L' || *first == b'T') && is_no_parameter(bytes))
        }
    }
}

// The bound that may be a class, behind the first `:` of a type parameter; or none there.
#[tactic(auto, unfolding(crate::specs::Reading::class_bound_from))]
fn class_bound_at(
    alloc: Global,
    bytes: &[u8],
) -> Result<Option<(Option<TypeSig>, &[u8])>, AllocError>
    ensures { IfOk result (λ r. option_map (λ x. (option_map type_view x.0, x.1.now)) r ≡ class_bound_from bytes.now) }
{
    if !is_bound_ahead(bytes) {
        return Ok(Some((None, bytes)));
    }
    let Some((bound, rest)) = bound_at(alloc, bytes)? else {
        return Ok(None);
    };
    Ok(Some((Some(bound), rest)))
}

// Bounds that are interfaces, each behind its `:` (InterfaceBound).
fn bounds_at(alloc: Global, bytes: &[u8]) -> Result<Option<(Vec<TypeSig>, &[u8])>, AllocError>
    ensures { IfOk result (λ r. option_map (λ x. (types_view x.0.items, x.1.now)) r ≡ bounds_from (length bytes.now) bytes.now) }
{
    let mut bounds = Vec::new(alloc);
    let mut rest = bytes;
    for _ in 0..bytes.len() {
        let Some(behind) = after(b':', rest) else {
            return Ok(Some((bounds, rest)));
        };
        let Some((bound, next)) = bound_at(alloc, behind)? else {
            return Ok(None);
        };
        bounds.push(bound)?;
        rest = next;
    }
    Ok(Some((bounds, rest)))
}

// A type parameter (TypeParameter): its name, a `:`, and its bounds.
#[tactic(auto, unfolding(crate::specs::Reading::parameter_from))]
fn parameter_at(alloc: Global, bytes: &[u8]) -> Result<Option<(Parameter, &[u8])>, AllocError>
    ensures { IfOk result (λ r. option_map (λ x. (parameter_view x.0, x.1.now)) r ≡ parameter_from bytes.now) }
{
    let Some((name, rest)) = identifier_before(b':', bytes) else {
        return Ok(None);
    };
    let Some((class_bound, rest)) = class_bound_at(alloc, rest)? else {
        return Ok(None);
    };
    let Some((bounds, rest)) = bounds_at(alloc, rest)? else {
        return Ok(None);
    };
    let name = Name::from_bytes(alloc, name)?;
    Ok(Some((
        Parameter {
            name,
            class_bound,
            bounds,
        },
        rest,
    )))
}

// Type parameters up to the `>`.
fn parameters_at(alloc: Global, bytes: &[u8]) -> Result<Option<(Vec<Parameter>, &[u8])>, AllocError>
    ensures { IfOk result (λ r. option_map (λ x. (parameters_view x.0.items, x.1.now)) r ≡ parameters_from (length bytes.now) bytes.now) }
{
    let mut parameters = Vec::new(alloc);
    let mut rest = bytes;
    for _ in 0..bytes.len() {
        if let Some(behind) = after(b'>', rest) {
            return Ok(Some((parameters, behind)));
        }
        let Some((parameter, next)) = parameter_at(alloc, rest)? else {
            return Ok(None);
        };
        parameters.push(parameter)?;
        rest = next;
    }
    Ok(None)
}

/// One type parameter or more between `<` and `>`, or none where no `<` is in front, and what follows;
/// None where the grammar has none that begin so.
///
/// # Errors
///
/// `AllocError` where memory runs out.
#[tactic(auto, unfolding(crate::specs::Reading::type_parameters_from))]
pub fn type_parameters_at(
    alloc: Global,
    bytes: &[u8],
) -> Result<Option<(Vec<Parameter>, &[u8])>, AllocError>
    ensures { IfOk result (λ r. option_map (λ x. (parameters_view x.0.items, x.1.now)) r ≡ type_parameters_from bytes.now) }
{
    let Some(rest) = after(b'<', bytes) else {
        return Ok(Some((Vec::new(alloc), bytes)));
    };
    let Some((parameters, rest)) = parameters_at(alloc, rest)? else {
        return Ok(None);
    };
    if parameters.is_empty() {
        return Ok(None);
    }
    Ok(Some((parameters, rest)))
}
