//! Whether a class record is valid.
ghost use Rattle.std.specs.Prelude.{◌≡◌, ◌↔◌, ◌&&◌, IfOk, IsTrue, count_by, nat_le};
ghost use Rattle.std.specs.List.{list_all};
ghost use Rattle.jc_facts.specs.declared.class_facts.ClassFacts.{ClassFacts as ClassView};
ghost use Rattle.jc_facts.specs.file.Valid.{IsValidClass, is_valid_name, superclass_is_valid, field_is_valid, method_is_valid, permits_are_valid, nest_host_is_valid, nest_members_are_valid, value_is_valid, is_valid_constant, is_signature_owner, is_valid_signature, keys_of, keys_of_statics, keys_of_constants, keys_of_signatures, is_signature_of_class};
ghost use Rattle.jc_facts.specs.steps.ValidTests.{head_test, members_test, nest_test, texts_test};
ghost use Rattle.jc_facts.specs.Seen.{Holds};

use crate::class_facts::{ClassFacts, Constant, Fixed, Member, Signed};
use crate::flags::{is_interface, is_static};
use crate::key::Key;
use crate::key_set::{KeyRef, all_differ, holds, set_of};
use crate::rules::{
    are_class_flags, are_field_flags, are_method_flags, is_field_descriptor, is_method_descriptor,
    is_object,
};
use jc_base::items::Items;
use jc_base::name::Name;
use jc_desc::names::{is_class_name, is_member_name};
use jc_desc::utf8::is_text;
use jc_desc::versions::{NEST_MAJOR, SEAL_MAJOR};
use std::alloc::{AllocError, Global};
use std::collections::BTreeSet;

fn is_name(name: &[u8]) -> bool
    ensures { result ≡ is_valid_name name.now }
{
    is_class_name(name) && is_text(name)
}

fn are_names(names: &[Name]) -> bool
    ensures { result ≡ list_all is_valid_name names.now }
{
    names.iter().all(|name| is_name(name.as_bytes()))
}

fn is_superclass(facts: &ClassFacts) -> bool
    ensures { result ≡ superclass_is_valid facts.now facts.now.superclass }
{
    let object = is_object(facts.name.as_bytes());
    match &facts.superclass {
        None => object,
        Some(name) => {
            let name = name.as_bytes();
            is_name(name) && !object && (!is_interface(facts.flags) || is_object(name))
        }
    }
}

fn is_field(facts: &ClassFacts, member: &Member) -> bool
    ensures { result ≡ field_is_valid facts.now member.now }
{
    let name = member.name.as_bytes();
    let descriptor = member.descriptor.as_bytes();
    is_member_name(name, false)
        && is_text(name)
        && is_field_descriptor(descriptor)
        && is_text(descriptor)
        && are_field_flags(facts.flags, member.flags)
}

fn is_method(facts: &ClassFacts, member: &Member) -> bool
    ensures { result ≡ method_is_valid facts.now member.now }
{
    let name = member.name.as_bytes();
    let descriptor = member.descriptor.as_bytes();
    is_member_name(name, true)
        && is_text(name)
        && is_method_descriptor(name, member.flags, descriptor)
        && is_text(descriptor)
        && are_method_flags(facts.major, facts.flags, name, member.flags)
}

fn are_fields(facts: &ClassFacts) -> bool
    ensures { result ≡ list_all (field_is_valid facts.now) facts.now.fields }
{
    facts
        .fields
        .as_slice()
        .iter()
        .all(|member| is_field(facts, member))
}

fn are_methods(facts: &ClassFacts) -> bool
    ensures { result ≡ list_all (method_is_valid facts.now) facts.now.methods }
{
    facts
        .methods
        .as_slice()
        .iter()
        .all(|member| is_method(facts, member))
}

fn are_permits(major: u16, permits: &Option<Items<Name>>) -> bool
    ensures { result ≡ permits_are_valid major permits.now }
{
    match permits {
        None => true,
        Some(names) => major >= SEAL_MAJOR && are_names(names.as_slice()),
    }
}

fn is_nest_host(major: u16, host: &Option<Name>) -> bool
    ensures { result ≡ nest_host_is_valid major host.now }
{
    match host {
        None => true,
        Some(name) => major >= NEST_MAJOR && is_name(name.as_bytes()),
    }
}

fn are_nest_members(major: u16, names: &[Name]) -> bool
    ensures { result ≡ nest_members_are_valid major names.now }
{
    names.is_empty() || (major >= NEST_MAJOR && are_names(names))
}

fn is_value(value: &Constant) -> bool
    ensures { result ≡ value_is_valid value.now }
{
    match value {
        Constant::Text(text) => is_text(text.as_bytes()),
        _ => true,
    }
}

/// The keys of the members, in their order.
///
/// # Errors
///
/// `AllocError` where memory runs out.
pub fn member_keys<'a>(alloc: Global, members: &'a [Member]) -> Result<Vec<KeyRef<'a>>, AllocError>
    ensures { IfOk result (λ keys. keys.items ≡ keys_of members.now) }
{
    let mut keys = Vec::new(alloc);
    for member in members {
        keys.push(KeyRef::of_member(member))?;
    }
    Ok(keys)
}

fn static_keys<'a>(alloc: Global, fields: &'a [Member]) -> Result<Vec<KeyRef<'a>>, AllocError>
    ensures { IfOk result (λ keys. keys.items ≡ keys_of_statics fields.now) }
{
    let mut keys = Vec::new(alloc);
    for member in fields {
        if is_static(member.flags) {
            keys.push(KeyRef::of_member(member))?;
        }
    }
    Ok(keys)
}

fn fixed_keys<'a>(alloc: Global, constants: &'a [Fixed]) -> Result<Vec<KeyRef<'a>>, AllocError>
    ensures { IfOk result (λ keys. keys.items ≡ keys_of_constants constants.now) }
{
    let mut keys = Vec::new(alloc);
    for fixed in constants {
        keys.push(KeyRef::of_key(&fixed.key))?;
    }
    Ok(keys)
}

fn signed_keys<'a>(alloc: Global, signatures: &'a [Signed]) -> Result<Vec<KeyRef<'a>>, AllocError>
    ensures { IfOk result (λ keys. keys.items ≡ keys_of_signatures signatures.now) }
{
    let mut keys = Vec::new(alloc);
    for signed in signatures {
        if let Some(key) = &signed.key {
            keys.push(KeyRef::of_key(key))?;
        }
    }
    Ok(keys)
}

fn member_set<'a>(alloc: Global, members: &'a [Member]) -> Result<BTreeSet<KeyRef<'a>>, AllocError>
    ensures { IfOk result (λ set. Holds set (keys_of members.now)) }
{
    let keys = member_keys(alloc, members)?;
    let set = set_of(alloc, keys)?;
    Ok(set)
}

fn are_constants(alloc: Global, facts: &ClassFacts) -> Result<bool, AllocError>
    ensures { IfOk result (λ valid. valid ≡ list_all (is_valid_constant facts.now) facts.now.constants) }
{
    let statics = set_of(alloc, static_keys(alloc, facts.fields.as_slice())?)?;
    for fixed in facts.constants.as_slice() {
        if !holds(&statics, &KeyRef::of_key(&fixed.key)) || !is_value(&fixed.value) {
            return Ok(false);
        }
    }
    Ok(true)
}

fn is_owner<'a>(
    fields: &BTreeSet<KeyRef<'a>>,
    methods: &BTreeSet<KeyRef<'a>>,
    key: &'a Option<Key>,
) -> bool
    ensures { (facts : ClassView) → Holds fields.now (keys_of facts.fields) → Holds methods.now (keys_of facts.methods) → result ≡ is_signature_owner facts key.now }
{
    match key {
        None => true,
        Some(key) => {
            let key = KeyRef::of_key(key);
            holds(fields, &key) || holds(methods, &key)
        }
    }
}

fn is_signature<'a>(
    fields: &BTreeSet<KeyRef<'a>>,
    methods: &BTreeSet<KeyRef<'a>>,
    signed: &'a Signed,
) -> bool
    ensures { (facts : ClassView) → Holds fields.now (keys_of facts.fields) → Holds methods.now (keys_of facts.methods) → result ≡ is_valid_signature facts signed.now }
{
    is_owner(fields, methods, &signed.key) && is_text(signed.text.as_bytes())
}

fn are_signatures(alloc: Global, facts: &ClassFacts) -> Result<bool, AllocError>
    ensures { IfOk result (λ valid. valid ≡ list_all (is_valid_signature facts.now) facts.now.signatures) }
{
    let fields = member_set(alloc, facts.fields.as_slice())?;
    let methods = member_set(alloc, facts.methods.as_slice())?;
    for signed in facts.signatures.as_slice() {
        if !is_signature(&fields, &methods, signed) {
            return Ok(false);
        }
    }
    Ok(true)
}

fn is_one_of_class(signatures: &[Signed]) -> bool
    ensures { result ≡ nat_le (count_by is_signature_of_class signatures.now) 1 }
{
    signatures
        .iter()
        .filter(|signed| signed.key.is_none())
        .count()
        <= 1
}

fn has_valid_head(facts: &ClassFacts) -> bool
    ensures { result ≡ head_test facts.now }
{
    is_name(facts.name.as_bytes())
        && are_class_flags(facts.major, facts.flags)
        && is_superclass(facts)
        && are_names(facts.interfaces.as_slice())
}

fn has_valid_members(alloc: Global, facts: &ClassFacts) -> Result<bool, AllocError>
    ensures { IfOk result (λ valid. valid ≡ members_test facts.now) }
{
    let fields_differ = all_differ(alloc, member_keys(alloc, facts.fields.as_slice())?)?;
    let methods_differ = all_differ(alloc, member_keys(alloc, facts.methods.as_slice())?)?;
    Ok(are_fields(facts) && fields_differ && are_methods(facts) && methods_differ)
}

fn has_valid_nest(facts: &ClassFacts) -> bool
    ensures { result ≡ nest_test facts.now }
{
    are_permits(facts.major, &facts.permits)
        && is_nest_host(facts.major, &facts.nest_host)
        && are_nest_members(facts.major, facts.nest_members.as_slice())
}

fn has_valid_texts(alloc: Global, facts: &ClassFacts) -> Result<bool, AllocError>
    ensures { IfOk result (λ valid. valid ≡ texts_test facts.now) }
{
    let constants = are_constants(alloc, facts)?;
    let constants_differ = all_differ(alloc, fixed_keys(alloc, facts.constants.as_slice())?)?;
    let signatures = are_signatures(alloc, facts)?;
    let signatures_differ = all_differ(alloc, signed_keys(alloc, facts.signatures.as_slice())?)?;
    let one_of_class = is_one_of_class(facts.signatures.as_slice());
    Ok(constants && constants_differ && signatures && signatures_differ && one_of_class)
}

fn passes(alloc: Global, facts: &ClassFacts) -> Result<bool, AllocError>
    ensures { IfOk result (λ valid. valid ≡ (head_test facts.now && members_test facts.now && nest_test facts.now && texts_test facts.now)) }
{
    let members = has_valid_members(alloc, facts)?;
    let texts = has_valid_texts(alloc, facts)?;
    Ok(has_valid_head(facts) && members && has_valid_nest(facts) && texts)
}

/// Whether the record meets every rule of a valid class record (JVMS 4.1 to 4.7): on names and
/// their bytes, on flags, on descriptors, and that no key stands twice where it may not. The time
/// grows with the length of the record's texts, times the logarithm of the number of its members.
///
/// # Errors
///
/// `AllocError` where memory runs out.
pub fn is_valid(alloc: Global, facts: &ClassFacts) -> Result<bool, AllocError>
    ensures { IfOk result (λ valid. IsTrue valid ↔ IsValidClass facts.now) }
{
    let valid = passes(alloc, facts)?;
    Ok(valid)
}
