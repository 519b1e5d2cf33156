//! The contents of the attributes that a record is read from. Each call answers `None` exactly where
//! the contents don't have the attribute's form, or go on behind it.
ghost use Rattle.std.specs.Prelude.{◌≡◌, IfOk};
ghost use Rattle.std.specs.Option.{option_map};
ghost use Rattle.jc_facts.specs.file.Attributes.{class_list_of, nest_host_of, lone_index, signature_of, constant_value_of};
ghost use Rattle.jc_facts.specs.file.ClassGrammar.{AreClasses, IsHost, IsSignature, IsConstantValue};
ghost use Rattle.jc_attr.specs.Forms.{HasForm};

use crate::classes::{class_at, classes_at};
use jc_base::name::Name;
use jc_desc::bytes::u16_at;
use jc_facts::class_facts::Constant;
use jc_pool::pool::{Pool, PoolConstant};
use std::alloc::{AllocError, Global};

#[tactic(auto, unfolding(jc_facts::specs::file::Attributes::class_list_of))]
fn class_list(alloc: Global, pool: &Pool<'_>, body: &[u8]) -> Result<Option<Vec<Name>>, AllocError>
    ensures { IfOk result (λ r. option_map (λ names. names.items) r ≡ class_list_of pool.now body.now) }
{
    match classes_at(alloc, pool, body)? {
        Err(_) => Ok(None),
        Ok((names, rest)) => {
            if rest.is_empty() {
                Ok(Some(names.into_vec()))
            } else {
                Ok(None)
            }
        }
    }
}

/// The names in a PermittedSubclasses (JVMS 4.7.31).
///
/// # Errors
///
/// `AllocError` where memory runs out.
pub fn permits(alloc: Global, pool: &Pool<'_>, body: &[u8]) -> Result<Option<Vec<Name>>, AllocError>
    ensures form { IfOk result (λ r. HasForm (AreClasses pool.now body.now) (option_map (λ names. names.items) r)) }
    ensures exact { IfOk result (λ r. option_map (λ names. names.items) r ≡ class_list_of pool.now body.now) }
{
    let names = class_list(alloc, pool, body)?;
    Ok(names)
}

/// The names in a NestMembers (JVMS 4.7.29).
///
/// # Errors
///
/// `AllocError` where memory runs out.
pub fn nest_members(
    alloc: Global,
    pool: &Pool<'_>,
    body: &[u8],
) -> Result<Option<Vec<Name>>, AllocError>
    ensures form { IfOk result (λ r. HasForm (AreClasses pool.now body.now) (option_map (λ names. names.items) r)) }
    ensures exact { IfOk result (λ r. option_map (λ names. names.items) r ≡ class_list_of pool.now body.now) }
{
    let names = class_list(alloc, pool, body)?;
    Ok(names)
}

#[tactic(auto, unfolding(jc_facts::specs::file::Attributes::nest_host_of))]
fn host(alloc: Global, pool: &Pool<'_>, body: &[u8]) -> Result<Option<Name>, AllocError>
    ensures { IfOk result (λ r. r ≡ nest_host_of pool.now body.now) }
{
    match class_at(pool, body) {
        Err(_) => Ok(None),
        Ok((name, rest)) => {
            if rest.is_empty() {
                Ok(Some(pool.name(alloc, name)?))
            } else {
                Ok(None)
            }
        }
    }
}

/// The name in a NestHost (JVMS 4.7.28).
///
/// # Errors
///
/// `AllocError` where memory runs out.
pub fn nest_host(alloc: Global, pool: &Pool<'_>, body: &[u8]) -> Result<Option<Name>, AllocError>
    ensures form { IfOk result (λ r. HasForm (IsHost pool.now body.now) r) }
    ensures exact { IfOk result (λ r. r ≡ nest_host_of pool.now body.now) }
{
    let name = host(alloc, pool, body)?;
    Ok(name)
}

fn index_of(body: &[u8]) -> Option<u16>
    ensures { result ≡ lone_index body.now }
{
    match u16_at(body) {
        Err(_) => None,
        Ok((index, rest)) => { if rest.is_empty() { Some(index) } else { None } }
    }
}

#[tactic(auto, unfolding(jc_facts::specs::file::Attributes::signature_of))]
fn text(alloc: Global, pool: &Pool<'_>, body: &[u8]) -> Result<Option<Name>, AllocError>
    ensures { IfOk result (λ r. r ≡ signature_of pool.now body.now) }
{
    let Some(index) = index_of(body) else {
        return Ok(None);
    };
    match pool.utf8(index) {
        None => Ok(None),
        Some(text) => Ok(Some(pool.name(alloc, text)?)),
    }
}

/// The text in a Signature (JVMS 4.7.9). Nothing is asked of it beyond the shapes of its bytes.
///
/// # Errors
///
/// `AllocError` where memory runs out.
pub fn signature(alloc: Global, pool: &Pool<'_>, body: &[u8]) -> Result<Option<Name>, AllocError>
    ensures form { IfOk result (λ r. HasForm (IsSignature pool.now body.now) r) }
    ensures exact { IfOk result (λ r. r ≡ signature_of pool.now body.now) }
{
    let text = text(alloc, pool, body)?;
    Ok(text)
}

#[tactic(auto, unfolding(jc_facts::specs::file::Attributes::constant_value_of))]
fn value(alloc: Global, pool: &Pool<'_>, body: &[u8]) -> Result<Option<Constant>, AllocError>
    ensures { IfOk result (λ r. r ≡ constant_value_of pool.now body.now) }
{
    let Some(index) = index_of(body) else {
        return Ok(None);
    };
    match pool.constant(index) {
        None => Ok(None),
        Some(PoolConstant::Int(n)) => Ok(Some(Constant::Int(n))),
        Some(PoolConstant::Float(n)) => Ok(Some(Constant::Float(n))),
        Some(PoolConstant::Long(n)) => Ok(Some(Constant::Long(n))),
        Some(PoolConstant::Double(n)) => Ok(Some(Constant::Double(n))),
        Some(PoolConstant::Text(text)) => Ok(Some(Constant::Text(pool.name(alloc, text)?))),
    }
}

/// The value in a ConstantValue (JVMS 4.7.2): of an Integer, a Float, a Long, a Double or a String.
///
/// # Errors
///
/// `AllocError` where memory runs out.
pub fn constant_value(
    alloc: Global,
    pool: &Pool<'_>,
    body: &[u8],
) -> Result<Option<Constant>, AllocError>
    ensures form { IfOk result (λ r. HasForm (IsConstantValue pool.now body.now) r) }
    ensures exact { IfOk result (λ r. r ≡ constant_value_of pool.now body.now) }
{
    let value = value(alloc, pool, body)?;
    Ok(value)
}
