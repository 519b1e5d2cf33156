//! What a class itself declares (JVMS 4.5, 4.6).
ghost use Rattle.std.specs.Prelude.{◌≡◌, option_map, IfOk};
ghost use Rattle.jc_facts.specs.Names.{key_of};
ghost use Rattle.jc_facts.specs.world.World.{own_field_of, own_method_of};
ghost use Rattle.jc_index.specs.Kinds.{members_of, own_of};

use jc_facts::class_facts::{ClassFacts, Member};
use jc_facts::key::Key;
use jc_facts::key_set::KeyRef;
use std::alloc::{AllocError, Global};

/// The kinds of members.
#[derive(Clone, Copy, Debug, PartialEq, Eq)]
pub enum MemberKind {
    Field,
    Method,
}

/// The class's own members of the kind, in the order of its file.
pub fn members(class: &ClassFacts, kind: MemberKind) -> &[Member]
    ensures { result.now ≡ members_of kind class.now }
{
    match kind {
        MemberKind::Field => class.fields.as_slice(),
        MemberKind::Method => class.methods.as_slice(),
    }
}

/// The class's own member of the kind and the key; none where it declares none.
pub fn own_member<'a>(
    class: &'a ClassFacts,
    kind: MemberKind,
    key: &KeyRef<'_>,
) -> Option<&'a Member>
    ensures { option_map (λ m. m.now) result ≡ own_of kind class.now key.now }
{
    for member in members(class, kind) {
        if KeyRef::of_member(member) == *key {
            return Some(member);
        }
    }
    None
}

/// The class's own field of the key; none where it declares none.
pub fn own_field<'a>(class: &'a ClassFacts, key: &KeyRef<'_>) -> Option<&'a Member>
    ensures { option_map (λ m. m.now) result ≡ own_field_of class.now key.now }
{
    own_member(class, MemberKind::Field, key)
}

/// The class's own method of the key; none where it declares none.
pub fn own_method<'a>(class: &'a ClassFacts, key: &KeyRef<'_>) -> Option<&'a Member>
    ensures { option_map (λ m. m.now) result ≡ own_method_of class.now key.now }
{
    own_member(class, MemberKind::Method, key)
}

/// The key of the member, which shares its bytes.
///
/// # Errors
///
/// `AllocError` where the bytes have as many copies as can be counted.
pub fn key_of_member(alloc: Global, member: &Member) -> Result<Key, AllocError>
    ensures { IfOk result (λ key. key ≡ key_of member.now) }
{
    Ok(Key {
        name: member.name.copy(alloc)?,
        descriptor: member.descriptor.copy(alloc)?,
    })
}
