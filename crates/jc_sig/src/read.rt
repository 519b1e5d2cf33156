//! Reading signatures (JVMS 4.7.9.1).
ghost use Rattle.std.specs.Prelude.{◌≡◌, IfOk, IfSome, IfNone, length};
ghost use Rattle.std.specs.Option.{option_map};
ghost use Rattle.jc_sig.specs.Trees.{TypeTree, ClassSigTree, MethodSigTree};
ghost use Rattle.jc_sig.specs.Grammar.{is_thrown, SpellsClassSig, SpellsMethodSig, SpellsFieldSig};
ghost use Rattle.jc_sig.specs.Reading.{classes_of, class_sig_of, types_from, result_from, thrown_from, throws_of, method_sig_of, field_sig_of};
ghost use Rattle.jc_sig.specs.Views.{type_view, types_view, classes_view, class_sig_view, method_sig_view};

use crate::bytes::after;
use crate::parameters::type_parameters_at;
use crate::tree::{ClassSig, ClassType, MethodSig, TypeSig};
use crate::types::{bound_at, top_at, top_class_at};
use std::alloc::{AllocError, Global};

// Class types up to the end.
fn classes_at(alloc: Global, bytes: &[u8]) -> Result<Option<Vec<ClassType>>, AllocError>
    ensures { IfOk result (λ r. option_map (λ cs. classes_view cs.items) r ≡ classes_of (length bytes.now) bytes.now) }
{
    let mut classes = Vec::new(alloc);
    let mut rest = bytes;
    for _ in 0..bytes.len() {
        if rest.is_empty() {
            return Ok(Some(classes));
        }
        let Some((class, next)) = top_class_at(alloc, rest)? else {
            return Ok(None);
        };
        classes.push(class)?;
        rest = next;
    }
    if rest.is_empty() {
        Ok(Some(classes))
    } else {
        Ok(None)
    }
}

// The public calls say of these what the grammar says.
#[tactic(auto, unfolding(crate::specs::Reading::class_sig_of))]
fn whole_class(alloc: Global, bytes: &[u8]) -> Result<Option<ClassSig>, AllocError>
    ensures { IfOk result (λ r. option_map (λ s. class_sig_view s) r ≡ class_sig_of bytes.now) }
{
    let Some((parameters, rest)) = type_parameters_at(alloc, bytes)? else {
        return Ok(None);
    };
    let Some((superclass, rest)) = top_class_at(alloc, rest)? else {
        return Ok(None);
    };
    let Some(interfaces) = classes_at(alloc, rest)? else {
        return Ok(None);
    };
    Ok(Some(ClassSig {
        parameters,
        superclass,
        interfaces,
    }))
}

// Types up to the `)`.
fn arguments_at(alloc: Global, bytes: &[u8]) -> Result<Option<(Vec<TypeSig>, &[u8])>, AllocError>
    ensures { IfOk result (λ r. option_map (λ x. (types_view x.0.items, x.1.now)) r ≡ types_from (length bytes.now) bytes.now) }
{
    let mut arguments = Vec::new(alloc);
    let mut rest = bytes;
    for _ in 0..bytes.len() {
        if let Some(behind) = after(b')', rest) {
            return Ok(Some((arguments, behind)));
        }
        let Some((argument, next)) = top_at(alloc, rest)? else {
            return Ok(None);
        };
        arguments.push(argument)?;
        rest = next;
    }
    Ok(None)
}

// `V`, or a type (Result).
#[tactic(auto, unfolding(crate::specs::Reading::result_from))]
fn result_at(alloc: Global, bytes: &[u8]) -> Result<Option<(Option<TypeSig>, &[u8])>, AllocError>
    ensures { IfOk result (λ r. option_map (λ x. (option_map type_view x.0, x.1.now)) r ≡ result_from bytes.now) }
{
    if let Some(rest) = after(b'V', bytes) {
        return Ok(Some((None, rest)));
    }
    let Some((tree, rest)) = top_at(alloc, bytes)? else {
        return Ok(None);
    };
    Ok(Some((Some(tree), rest)))
}

// A class type or a type variable.
fn may_be_thrown(tree: &TypeSig) -> bool
    ensures { result ≡ is_thrown (type_view tree.now) }
{
    match tree {
        TypeSig::Base(_) => false,
        TypeSig::Variable(_) => true,
        TypeSig::Array(_) => false,
        TypeSig::Class(_) => true,
    }
}

// A `^` and what is thrown (ThrowsSignature).
#[tactic(auto, unfolding(crate::specs::Reading::thrown_from))]
fn thrown_at(alloc: Global, bytes: &[u8]) -> Result<Option<(TypeSig, &[u8])>, AllocError>
    ensures { IfOk result (λ r. option_map (λ x. (type_view x.0, x.1.now)) r ≡ thrown_from bytes.now) }
{
    let Some(rest) = after(b'^', bytes) else {
        return Ok(None);
    };
    let Some((tree, rest)) = top_at(alloc, rest)? else {
        return Ok(None);
    };
    if !may_be_thrown(&tree) {
        return Ok(None);
    }
    Ok(Some((tree, rest)))
}

// All that is thrown, up to the end.
fn throws_at(alloc: Global, bytes: &[u8]) -> Result<Option<Vec<TypeSig>>, AllocError>
    ensures { IfOk result (λ r. option_map (λ ts. types_view ts.items) r ≡ throws_of (length bytes.now) bytes.now) }
{
    let mut throws = Vec::new(alloc);
    let mut rest = bytes;
    for _ in 0..bytes.len() {
        if rest.is_empty() {
            return Ok(Some(throws));
        }
        let Some((thrown, next)) = thrown_at(alloc, rest)? else {
            return Ok(None);
        };
        throws.push(thrown)?;
        rest = next;
    }
    if rest.is_empty() {
        Ok(Some(throws))
    } else {
        Ok(None)
    }
}

#[tactic(auto, unfolding(crate::specs::Reading::method_sig_of))]
fn whole_method(alloc: Global, bytes: &[u8]) -> Result<Option<MethodSig>, AllocError>
    ensures { IfOk result (λ r. option_map (λ s. method_sig_view s) r ≡ method_sig_of bytes.now) }
{
    let Some((parameters, rest)) = type_parameters_at(alloc, bytes)? else {
        return Ok(None);
    };
    let Some(rest) = after(b'(', rest) else {
        return Ok(None);
    };
    let Some((arguments, rest)) = arguments_at(alloc, rest)? else {
        return Ok(None);
    };
    let Some((result, rest)) = result_at(alloc, rest)? else {
        return Ok(None);
    };
    let Some(throws) = throws_at(alloc, rest)? else {
        return Ok(None);
    };
    Ok(Some(MethodSig {
        parameters,
        arguments,
        result,
        throws,
    }))
}

#[tactic(auto, unfolding(crate::specs::Reading::field_sig_of))]
fn whole_field(alloc: Global, bytes: &[u8]) -> Result<Option<TypeSig>, AllocError>
    ensures { IfOk result (λ r. option_map (λ t. type_view t) r ≡ field_sig_of bytes.now) }
{
    let Some((tree, rest)) = bound_at(alloc, bytes)? else {
        return Ok(None);
    };
    if !rest.is_empty() {
        return Ok(None);
    }
    Ok(Some(tree))
}

/// The class signature that these bytes are (ClassSignature, JVMS 4.7.9.1): type parameters or none, the
/// superclass, the interfaces. None exactly where the grammar has none for them, which is also where a
/// type is deeper than 200.
///
/// # Errors
///
/// `AllocError` where memory runs out, and for no other reason.
pub fn read_class_sig(alloc: Global, bytes: &[u8]) -> Result<Option<ClassSig>, AllocError>
    ensures found { IfOk result (λ r. IfSome r (λ s. SpellsClassSig bytes.now (class_sig_view s))) }
    ensures none { IfOk result (λ r. IfNone r ((s : ClassSigTree) → SpellsClassSig bytes.now s → ⊥)) }
    ensures exact { IfOk result (λ r. option_map (λ s. class_sig_view s) r ≡ class_sig_of bytes.now) }
{
    let read = whole_class(alloc, bytes)?;
    Ok(read)
}

/// The method signature that these bytes are (MethodSignature, JVMS 4.7.9.1): type parameters or none,
/// the arguments in parentheses, the result or `V`, what is thrown. None exactly where the grammar has
/// none for them, which is also where a type is deeper than 200.
///
/// # Errors
///
/// `AllocError` where memory runs out, and for no other reason.
pub fn read_method_sig(alloc: Global, bytes: &[u8]) -> Result<Option<MethodSig>, AllocError>
    ensures found { IfOk result (λ r. IfSome r (λ s. SpellsMethodSig bytes.now (method_sig_view s))) }
    ensures none { IfOk result (λ r. IfNone r ((s : MethodSigTree) → SpellsMethodSig bytes.now s → ⊥)) }
    ensures exact { IfOk result (λ r. option_map (λ s. method_sig_view s) r ≡ method_sig_of bytes.now) }
{
    let read = whole_method(alloc, bytes)?;
    Ok(read)
}

/// The field signature that these bytes are (FieldSignature, JVMS 4.7.9.1): a type that isn't
/// primitive. None exactly where the grammar has none for them, which is also where a type is deeper
/// than 200.
///
/// # Errors
///
/// `AllocError` where memory runs out, and for no other reason.
pub fn read_field_sig(alloc: Global, bytes: &[u8]) -> Result<Option<TypeSig>, AllocError>
    ensures found { IfOk result (λ r. IfSome r (λ t. SpellsFieldSig bytes.now (type_view t))) }
    ensures none { IfOk result (λ r. IfNone r ((t : TypeTree) → SpellsFieldSig bytes.now t → ⊥)) }
    ensures exact { IfOk result (λ r. option_map (λ t. type_view t) r ≡ field_sig_of bytes.now) }
{
    let read = whole_field(alloc, bytes)?;
    Ok(read)
}
