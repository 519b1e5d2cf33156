//! Methods that override final ones (JVMS 5.4.5).
ghost use Rattle.jc_desc.specs.Names.{is_init_name, is_clinit_name};
ghost use Rattle.std.specs.Prelude.{◌≡◌, ◌<◌, ◌∷◌, ◌&&◌, ◌||◌, not, [], IfOk, Some, None, IfSome};
ghost use Rattle.jc_facts.specs.Names.{key_of};
ghost use Rattle.jc_facts.specs.Flags.{package_private, final_flag};
ghost use Rattle.jc_facts.specs.Options.{and_then};
ghost use Rattle.jc_facts.specs.world.World.{size, find_class, declared_method};
ghost use Rattle.jc_facts.specs.world.Hierarchy.{chain, of_super};
ghost use Rattle.jc_facts.specs.world.Overriding.{directly_overrides, is_overridden_by_any, overrides_this_final, reaches_final, overrides_some_final};
ghost use Rattle.jc_index.specs.Ids.{id_of};
ghost use Rattle.jc_index.specs.steps.Walking.{chain_from, HaveAllFinal};
ghost use Rattle.jc_loading.specs.steps.Met.{linked_last};

use jc_base::name::Name;
use jc_desc::names::is_initializer;
use jc_facts::class_facts::{ClassFacts, Member};
use jc_facts::flags::{is_final, is_private, is_protected, is_public, is_static};
use jc_facts::key_set::KeyRef;
use jc_facts::packages::same_package;
use jc_index::ids::ClassId;
use jc_index::index::Index;
use jc_index::members::{key_of_member, own_method};
use jc_index::side_finals::SideFinals;
use std::alloc::{AllocError, Global};
use std::marker::Model;

// A method, and the name of the class that declares it.
#[derive(Drop)]
pub(crate) struct Method<'a> {
    pub owner: &'a Name,
    pub member: &'a Member,
}

impl<'a> Model for Method<'a> {
    ghost use Rattle.jc_facts.specs.world.World.{DeclaredMember};

    ghost Value = { DeclaredMember };

    ghost view = { λ m. record { owner = m.owner.now; member = m.member.now } };
}

fn is_package_private(flags: u16) -> bool
    ensures { result ≡ package_private flags }
{
    !(is_public(flags) || is_private(flags) || is_protected(flags))
}

// Whether the method below overrides the one above by their access alone.
fn overrides_directly(below: &Method<'_>, above: &Method<'_>) -> bool
    ensures { result ≡ directly_overrides below.now above.now }
{
    let here = below.member.flags;
    let there = above.member.flags;
    let open = is_public(there) || is_protected(there);
    let near = is_package_private(there)
        && same_package(below.owner.as_bytes(), above.owner.as_bytes());
    !is_static(here) && !is_static(there) && !is_private(here) && (open || near)
}

// Whether one of the methods below does.
fn any_overrides(below: &[Method<'_>], above: &Method<'_>) -> bool
    ensures { result ≡ is_overridden_by_any below.now above.now }
{
    for method in below {
        if overrides_directly(method, above) {
            return true;
        }
    }
    false
}

// The method of the key that the class itself declares.
#[tactic(auto, unfolding(jc_facts::specs::world::World::found_in))]
fn declared<'a>(class: &'a ClassFacts, key: &KeyRef<'_>) -> Option<Method<'a>>
    ensures { result ≡ declared_method key.now class.now }
{
    match own_method(class, key) {
        None => None,
        Some(member) => Some(Method {
            owner: &class.name,
            member,
        }),
    }
}

// Takes a method of a class further up to those below where one of them overrides it, and says
// whether it is final then.
fn link<'a>(below: &mut Vec<Method<'a>>, above: Method<'a>) -> Result<bool, AllocError>
    ensures { IfOk result (λ met. (met ≡ (is_overridden_by_any below.old.items above.entry && final_flag above.entry.member.flags)) × (below.new.items ≡ linked_last below.old.items (Some above.entry))) }
{
    if !any_overrides(below.as_slice(), &above) {
        return Ok(false);
    }
    let met = is_final(above.member.flags);
    below.push(above)?;
    Ok(met)
}

// The same with the method of the key that a class further up declares, where it declares one.
fn link_class<'a>(
    below: &mut Vec<Method<'a>>,
    class: &'a ClassFacts,
    key: &KeyRef<'_>,
) -> Result<bool, AllocError>
    ensures { IfOk result (λ met. (met ≡ overrides_this_final below.old.items (declared_method key.now class.now)) × (below.new.items ≡ linked_last below.old.items (declared_method key.now class.now))) }
{
    match declared(class, key) {
        None => Ok(false),
        Some(above) => match link(below, above) {
            Ok(met) => Ok(met),
            Err(error) => Err(error),
        },
    }
}

// Whether the method overrides a final method of the key in the classes from this one up.
pub(crate) fn meets_final<'a>(
    alloc: Global,
    index: &'a Index,
    key: &KeyRef<'_>,
    method: Method<'a>,
    above: Option<ClassId>,
) -> Result<bool, AllocError>
    requires { IfSome above (λ id. id < size index.now) }
    ensures { IfOk result (λ met. met ≡ reaches_final key.now (method.entry ∷ []) (chain_from index.now (size index.now) above)) }
{
    let mut below = Vec::new(alloc);
    below.push(method)?;
    let mut next = above;
    for done in 0..index.count() {
        let Some(class) = next else {
            return Ok(false);
        };
        if link_class(&mut below, index.facts(class), key)? {
            return Ok(true);
        }
        next = index.superclass(class);
    }
    Ok(false)
}

// The number of the class that the class names as its superclass; none where there is none of
// this name.
#[tactic(auto, unfolding(jc_facts::specs::Options::and_then))]
pub(crate) fn number_above(index: &Index, class: &ClassFacts) -> Option<ClassId>
    ensures { result ≡ and_then (id_of index.now) class.now.superclass }
{
    match &class.superclass {
        Some(name) => index.get(name.as_bytes()),
        None => None,
    }
}

// Whether a method of the class overrides a final one of the classes above it. `finals` are the keys
// of all final instance methods of superclasses: without its key there is nothing to look for.
fn method_overrides<'a>(
    alloc: Global,
    index: &'a Index,
    finals: &SideFinals<'_>,
    class: &'a ClassFacts,
    member: &'a Member,
) -> Result<bool, AllocError>
    requires finals { HaveAllFinal index.now finals.now }
    requires class { find_class index.now «class».now.name ≡ Some «class».now }
    ensures { IfOk result (λ met. met ≡ (not (is_init_name member.now.name || is_clinit_name member.now.name) && reaches_final (key_of member.now) (record { owner = class.now.name; member = member.now } ∷ []) (of_super (chain index.now) class.now.superclass))) }
{
    if is_initializer(member.name.as_bytes()) {
        return Ok(false);
    }
    if is_private(member.flags) {
        return Ok(false);
    }
    if is_static(member.flags) {
        return Ok(false);
    }
    if !finals.has_name(member.name.as_bytes()) {
        return Ok(false);
    }
    let key = key_of_member(alloc, member)?;
    if !finals.has(&key) {
        return Ok(false);
    }
    let method = Method {
        owner: &class.name,
        member,
    };
    let met = meets_final(
        alloc,
        index,
        &KeyRef::of_key(&key),
        method,
        number_above(index, class),
    )?;
    Ok(met)
}

// Whether one of the class's methods overrides a final one of the classes above it.
#[tactic(auto, using(crate::proofs::Overrides::overrides_found, crate::proofs::Overrides::overrides_next, crate::proofs::Overrides::overrides_end))]
pub(crate) fn overrides_final<'a>(
    alloc: Global,
    index: &'a Index,
    finals: &SideFinals<'_>,
    class: &'a ClassFacts,
) -> Result<bool, AllocError>
    requires finals { HaveAllFinal index.now finals.now }
    requires class { find_class index.now «class».now.name ≡ Some «class».now }
    ensures { IfOk result (λ met. met ≡ overrides_some_final class.now.name class.now.methods (of_super (chain index.now) class.now.superclass)) }
{
    for member in class.methods.as_slice() {
        if method_overrides(alloc, index, finals, class, member)? {
            return Ok(true);
        }
    }
    Ok(false)
}
