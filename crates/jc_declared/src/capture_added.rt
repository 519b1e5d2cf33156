//! The collision of methods that are found before those of a client's interfaces.
ghost use Rattle.std.specs.Prelude.{◌≡◌, ◌&&◌, not, cond, IsTrue};
ghost use Rattle.jc_facts.specs.declared.link_error.LinkError.TheVariants.{IllegalAccessError, IncompatibleClassChangeError};
ghost use Rattle.jc_facts.specs.declared.rule_numbers.TheConstants.{CAPTURE_ADDED};
ghost use Rattle.jc_facts.specs.world.Lookup.{are_none, method_choices};
ghost use Rattle.jc_promises.specs.rule.Collisions.{leaves_room};
ghost use Rattle.jc_facts.specs.Flags.{public_flag, no_static_flag};
ghost use Rattle.jc_promises.specs.rule.Bases.{is_base_class, is_key_of_method};
ghost use Rattle.jc_declared.specs.steps.Changed.{changed_class};
ghost use Rattle.jc_sides.specs.Numbering.{AreNumbers};
ghost use Rattle.jc_sides.specs.SharedOf.{IsShared, name_of};

use jc_desc::method::slots;
use jc_desc::names::is_initializer;
use jc_facts::act::Act;
use jc_facts::flags::{is_public, is_static};
use jc_facts::key::Key;
use jc_facts::link_error::LinkError;
use jc_facts::verdict::Collision;
use jc_method::find::find_method_by_number;
use jc_sides::broken::{BrokenAct, broken_where};
use jc_sides::item_rule::ItemRule;
use jc_sides::key_numbers::KeyNumbers;
use jc_sides::members::Members;
use jc_sides::shared::Shared;
use jc_sides::sides::Sides;

// The most slots that the parameters of a method take, its instance counted (JVMS 4.3.3).
const MOST_SLOTS: u32 = 255;

// Whether an instance method may have the key.
fn has_room(key: &Key) -> bool
    ensures { result ≡ leaves_room key.now }
{
    match slots(key.descriptor.as_bytes()) {
        None => false,
        Some(parameters) => parameters < MOST_SLOTS,
    }
}

// Whether a call fails that finds a method of these flags: it is no public instance method.
fn fails(flags: u16) -> bool
    ensures { result ≡ not (public_flag flags && no_static_flag flags) }
{
    !is_public(flags) || is_static(flags)
}

// How it fails.
fn error_of(flags: u16) -> LinkError
    ensures { result ≡ cond (public_flag flags) IncompatibleClassChangeError IllegalAccessError }
{
    if is_public(flags) {
        LinkError::IncompatibleClassChangeError
    } else {
        LinkError::IllegalAccessError
    }
}

// Whether the new chain's method of the key, of these flags, fails calls from below the base class
// that could find a method of a client's interface before.
fn is_captured(
    sides: &Sides<'_>,
    class: &Shared<'_>,
    key: &Key,
    numbers: &KeyNumbers,
    flags: u16,
) -> bool
    requires shared { IsShared sides.now «class».now }
    requires covered { IsTrue (is_base_class sides.now.old sides.now.new (name_of «class».now)) }
    requires numbers { AreNumbers sides.now key.now numbers.now }
    ensures { result ≡ (not (public_flag flags && no_static_flag flags) && is_key_of_method key.now && are_none (method_choices sides.now.old (name_of «class».now) key.now) && leaves_room key.now) }
{
    fails(flags)
        && !is_initializer(key.name.as_bytes())
        && find_method_by_number(sides.old, class.old, key, numbers.old).is_none()
        && has_room(key)
}

/// Methods that base classes have now, where none of their key was found, and that are no public
/// instance methods (JVMS 5.4.3.3): where a reference to a client class below found a method of an
/// interface, it finds the base class's first, and fails.
pub struct CaptureAdded;

impl ItemRule for CaptureAdded {
    type Item = Collision;

    ghost rule = { CAPTURE_ADDED };

    ghost covers = { changed_class };

    fn members(&self) -> Members {
        Members::NewMethods
    }

    fn on_key(
        &self,
        sides: &Sides<'_>,
        class: &Shared<'_>,
        key: &Key,
        numbers: &KeyNumbers,
    ) -> Option<BrokenAct<'_>> {
        // One that superinterfaces give is a public instance method, and fails no call.
        let method = find_method_by_number(sides.new, class.new, key, numbers.new)?;
        let captured = is_captured(sides, class, key, numbers, method.flags);
        broken_where(captured, Act::InvokeVirtual, error_of(method.flags))
    }
}
