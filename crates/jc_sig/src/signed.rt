//! What a record says of signatures, by key.
ghost use Rattle.std.specs.Prelude.{◌≡◌, Some, None, cond, Option, IfOk, OnOk, option_map};
ghost use Rattle.std.specs.BTreeMap as tree;
ghost use Rattle.std.specs.Option.{option_eq};
ghost use Rattle.jc_facts.specs.declared.key.Key.{Key as KeyView};
ghost use Rattle.jc_facts.specs.Names.{same_key};
ghost use Rattle.jc_sig.specs.Notes.{signature_at};
ghost use Rattle.jc_sig.specs.steps.OnRecords.{HasSignatures, HasMembers, signed_in, text_in};

use jc_facts::class_facts::{ClassFacts, Signed};
use jc_facts::key_set::{KeyRef, set_of};
use jc_facts::validity::member_keys;
use std::alloc::{AllocError, Global};
use std::collections::{BTreeMap, BTreeSet};

fn is_of_class(signed: &Signed) -> bool
    ensures { result ≡ option_eq same_key signed.now.key None }
{
    signed.key.is_none()
}

/// The signature of the class itself (JVMS 4.7.9).
pub(crate) fn class_signature(class: &ClassFacts) -> Option<&[u8]>
    ensures { option_map (λ t. t.now) result ≡ signature_at «class».now None }
{
    for signed in class.signatures.as_slice() {
        if is_of_class(signed) {
            return Some(signed.text.as_bytes());
        }
    }
    None
}

// Adds the signature in place of another one of its key, where it is that of a member.
fn add<'a>(
    by_key: &mut BTreeMap<KeyRef<'a>, &'a Signed>,
    signed: &'a Signed,
) -> Result<(), AllocError>
    ensures { OnOk result ((k : KeyView) → signed_in by_key.new k ≡ cond (option_eq same_key signed.now.key (Some k)) (Some signed.now) (signed_in by_key.old k)) }
{
    match &signed.key {
        None => Ok(()),
        Some(key) => {
            by_key.insert(KeyRef::of_key(key), signed)?;
            Ok(())
        }
    }
}

/// The signatures of the members of the class, by their keys.
///
/// # Errors
///
/// `AllocError` where memory runs out.
pub(crate) fn signatures_of<'a>(
    alloc: Global,
    class: &'a ClassFacts,
) -> Result<BTreeMap<KeyRef<'a>, &'a Signed>, AllocError>
    ensures { IfOk result (HasSignatures class.now) }
{
    let signatures = class.signatures.as_slice();
    let mut by_key = BTreeMap::new(alloc);
    // From the last on: of one key the first stays.
    for done in 0..signatures.len() {
        add(&mut by_key, &signatures[signatures.len() - 1 - done])?;
    }
    Ok(by_key)
}

/// The text of the signature of the key.
pub(crate) fn text_at<'a>(
    by_key: &BTreeMap<KeyRef<'a>, &'a Signed>,
    key: &KeyRef<'a>,
) -> Option<&'a [u8]>
    ensures { option_map (λ t. t.now) result ≡ text_in by_key.now key.now }
{
    match by_key.get(key) {
        None => None,
        Some(signed) => Some(signed.text.as_bytes()),
    }
}

/// The keys of the fields and the methods of the class.
///
/// # Errors
///
/// `AllocError` where memory runs out.
pub(crate) fn members_of<'a>(
    alloc: Global,
    class: &'a ClassFacts,
) -> Result<BTreeSet<KeyRef<'a>>, AllocError>
    ensures { IfOk result (HasMembers class.now) }
{
    let mut keys = member_keys(alloc, class.fields.as_slice())?;
    let mut methods = member_keys(alloc, class.methods.as_slice())?;
    keys.append(&mut methods)?;
    let set = set_of(alloc, keys)?;
    Ok(set)
}
