//! The rule on constructors: the instance initializers of classes.
ghost use Rattle.std.specs.Prelude.{◌≡◌};
ghost use Rattle.jc_facts.specs.declared.rule_numbers.TheConstants.{CONSTRUCTOR_CLOSED};
ghost use Rattle.jc_facts.specs.Flags.{public_flag};
ghost use Rattle.jc_promises.specs.rule.Bases.{is_base_class};
ghost use Rattle.jc_declared.specs.steps.Changed.{changed_steady};
ghost use Rattle.jc_declared.specs.steps.Constructors.{makes_no_objects, open_flags, declares_init, fault_of_new, fault_of_super};
ghost use Rattle.jc_sides.specs.SharedOf.{HasThose};

use crate::own::method_flags;
use jc_desc::names::is_init;
use jc_facts::act::Act;
use jc_facts::class_facts::ClassFacts;
use jc_facts::finding::Finding;
use jc_facts::flags::{is_abstract, is_interface, is_protected, is_public};
use jc_facts::key::Key;
use jc_facts::link_error::LinkError;
use jc_index::name_set::NameSet;
use jc_sides::broken::{BrokenAct, broken_where};
use jc_sides::item_rule::ItemRule;
use jc_sides::key_numbers::KeyNumbers;
use jc_sides::members::Members;
use jc_sides::shared::{Shared, after, before};
use jc_sides::sides::Sides;

// Whether no object of the class can be made.
fn is_uninstantiable(class: &ClassFacts) -> bool
    ensures { result ≡ makes_no_objects class.now }
{
    is_abstract(class.flags) || is_interface(class.flags)
}

// Whether subclasses can call a method of these flags, as far as they go.
fn are_open(flags: u16) -> bool
    ensures { result ≡ open_flags flags }
{
    is_public(flags) || is_protected(flags)
}

// Whether the key is an initializer's that is declared, with these flags, as public.
fn declares_public(key: &Key, was: Option<u16>) -> bool
    ensures { result ≡ declares_init (λ f. public_flag f) key.now was }
{
    match was {
        None => false,
        Some(flags) => is_init(key.name.as_bytes()) && is_public(flags),
    }
}

// Whether it is one that subclasses can call.
fn declares_open(key: &Key, was: Option<u16>) -> bool
    ensures { result ≡ declares_init (λ f. open_flags f) key.now was }
{
    match was {
        None => false,
        Some(flags) => is_init(key.name.as_bytes()) && are_open(flags),
    }
}

// Why clients can't make objects by the initializer any more (JVMS 6.5, new). The flags are those
// of what each of the two declares of the key.
fn new_fault(
    before: &ClassFacts,
    after: &ClassFacts,
    key: &Key,
    was: Option<u16>,
    now: Option<u16>,
) -> Option<LinkError>
    ensures { result ≡ fault_of_new before.now after.now key.now was now }
{
    if is_uninstantiable(before) || !declares_public(key, was) {
        return None;
    }
    if is_uninstantiable(after) {
        return Some(LinkError::InstantiationError);
    }
    match now {
        None => Some(LinkError::NoSuchMethodError),
        Some(flags) => {
            if is_public(flags) {
                None
            } else {
                Some(LinkError::IllegalAccessError)
            }
        }
    }
}

// Why subclasses, where there may be some, can't call the initializer any more (JVMS 5.4.4).
fn super_fault(key: &Key, was: Option<u16>, now: Option<u16>) -> Option<LinkError>
    ensures { result ≡ fault_of_super key.now was now }
{
    if !declares_open(key, was) {
        return None;
    }
    match now {
        None => Some(LinkError::NoSuchMethodError),
        Some(flags) => {
            if are_open(flags) {
                None
            } else {
                Some(LinkError::IllegalAccessError)
            }
        }
    }
}

/// Constructors by which clients could make objects of a class, or which their subclasses could
/// call, and can't any more (JVMS 5.4.4, 6.5).
#[derive(Drop)]
pub struct ConstructorClosed {
    /// The names of the base classes. Whether a class is one is asked for each of its constructors.
    pub bases: NameSet,
}

impl ItemRule for ConstructorClosed {
    type Item = Finding;

    ghost rule = { CONSTRUCTOR_CLOSED };

    ghost covers = { changed_steady };

    ghost ready = { λ r s. HasThose (is_base_class s.old s.new) s r.bases };

    fn members(&self) -> Members {
        Members::OldInitializers
    }

    fn on_key(
        &self,
        sides: &Sides<'_>,
        class: &Shared<'_>,
        key: &Key,
        numbers: &KeyNumbers,
    ) -> Option<BrokenAct<'_>> {
        let was = method_flags(sides.old, class.old, key, numbers.old);
        let now = method_flags(sides.new, class.new, key, numbers.new);
        if let Some(error) = new_fault(before(sides, class), after(sides, class), key, was, now) {
            return broken_where(true, Act::NewObject, error);
        }
        let error = super_fault(key, was, now)?;
        let is_base = self.bases.has(class.name.as_bytes());
        broken_where(is_base, Act::InitSuper, error)
    }
}
