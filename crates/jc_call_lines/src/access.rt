//! Lines on methods of interfaces that base classes bring to clients which declare them with less access.
ghost use Rattle.std.specs.Prelude.{◌≡◌, ◌&&◌, not, None, Some, IfOk, IsTrue, is_some, option_map, refl};
ghost use Rattle.jc_acts.specs.Seats.{AreSeats};
ghost use Rattle.jc_call_lines.specs.steps.AccessLines.{access_line, changed_base, line_on};
ghost use Rattle.jc_call_lines.specs.steps.Kinds.{AreOfKind, OfKind};
ghost use Rattle.jc_calls.specs.Access.{allows_less_access, is_called_above, is_public_in_chain};
ghost use Rattle.jc_calls.specs.Lines.{line_order};
ghost use Rattle.jc_call_kinds.specs.declared.call_line.CallKind.TheVariants.{Access};
ghost use Rattle.jc_facts.specs.Options.{some_where};
ghost use Rattle.jc_facts.specs.world.Inheritance.{is_final_in_chain};
ghost use Rattle.jc_promises.specs.rule.Bases.{is_base_class, is_key_of_method};
ghost use Rattle.jc_sides.specs.SharedOf.{IsShared, name_of};

use jc_acts::seats::Seats;
use jc_base::name::Name;
use jc_call_kinds::call_line::{CallKind, CallLine};
use jc_declared::changed::Changed;
use jc_desc::names::is_initializer;
use jc_facts::act::Act;
use jc_facts::flags::is_public;
use jc_facts::key::Key;
use jc_facts::link_error::LinkError;
use jc_load::finals::finals;
use jc_method::find::{find_in_chain, inherits_instance};
use jc_sides::broken::{BrokenAct, broken_where};
use jc_sides::from_broken::FromBroken;
use jc_sides::item_rule::{ItemRule, by_items};
use jc_sides::key_numbers::KeyNumbers;
use jc_sides::members::Members;
use jc_sides::shared::Shared;
use jc_sides::sides::Sides;
use jc_sides::translation::Translation;
use std::alloc::{AllocError, Global};
use std::marker::Model;

// ---- lines as what a rule makes

// Lines on calls have no number among the rules.
const NUMBER: u8 = 0;

// A line of this kind. A contract sees it as the line.
#[derive(Drop)]
struct AccessLine {
    line: CallLine,
}

impl Model for AccessLine {
    ghost use Rattle.jc_call_kinds.specs.declared.call_line.CallLine.{CallLine as LineOf};

    ghost Value = { LineOf };

    ghost view = { λ a. a.line };
}

impl FromBroken for AccessLine {
    ghost order = { line_order };

    ghost class_of = { λ l. l.«class» };

    ghost makes = { λ rule s x k. access_line s x k };

    ghost stands = { λ rule s l. OfKind Access s.old s.new l };

    ghost made_of = { λ rule x k b. some_where (is_some b) (line_on x k) };

    fn from_broken(
        alloc: Global,
        _rule: u8,
        class: &Name,
        key: &Key,
        broken: Option<BrokenAct<'_>>,
    ) -> Result<Option<AccessLine>, AllocError> {
        let Some(_) = broken else {
            return Ok(None);
        };
        let line = CallLine {
            kind: CallKind::Access,
            class: class.copy(alloc)?,
            key: Some(key.copy(alloc)?),
            target: None,
        };
        Ok(Some(AccessLine { line }))
    }

    ghost made_where = { λ rule x k. elim [ None ↦ refl | Some b ↦ refl ] };
}

// The lines.
fn lines_of(alloc: Global, made: Vec<AccessLine>) -> Result<Vec<CallLine>, AllocError>
    ensures { IfOk result (λ lines. lines.items ≡ made.items) }
{
    let mut lines = Vec::new(alloc);
    for one in made {
        lines.push(one.line)?;
    }
    Ok(lines)
}

// ---- the rule

// Whether a superinterface of the base class declared the key as an instance method that isn't private.
fn was_called_above(sides: &Sides<'_>, class: &Shared<'_>, key: &Key) -> bool
    requires shared { IsShared sides.now «class».now }
    requires covered { IsTrue (is_base_class sides.now.old sides.now.new (name_of «class».now)) }
    ensures { result ≡ is_called_above sides.now.old (name_of «class».now) key.now }
{
    inherits_instance(sides.old, class.old, key)
}

// Whether the first class of the old chain that declares the key declares it public.
fn was_public(sides: &Sides<'_>, class: &Shared<'_>, key: &Key) -> bool
    requires { IsShared sides.now «class».now }
    ensures { result ≡ is_public_in_chain sides.now.old (name_of «class».now) key.now }
{
    match find_in_chain(sides.old, class.old, key) {
        None => false,
        Some(found) => is_public(found.flags),
    }
}

// Whether the key was final in the chain of the class.
fn was_final(sides: &Sides<'_>, class: &Shared<'_>, key: &Key) -> bool
    requires { IsShared sides.now «class».now }
    ensures { result ≡ is_final_in_chain sides.now.old (name_of «class».now) key.now }
{
    finals(sides.old, class.old, key)
}

// Whether clients below the base class could declare the key with less access than public, and no call
// of an interface selected what they declared.
fn allowed_less_access(sides: &Sides<'_>, class: &Shared<'_>, key: &Key) -> bool
    requires shared { IsShared sides.now «class».now }
    requires covered { IsTrue (is_base_class sides.now.old sides.now.new (name_of «class».now)) }
    ensures { result ≡ allows_less_access sides.now.old (name_of «class».now) key.now }
{
    !(was_called_above(sides, class, key)
        || was_public(sides, class, key)
        || was_final(sides, class, key))
}

// Whether a superinterface of the base class now declares the key as an instance method that isn't
// private.
fn is_called_above(sides: &Sides<'_>, class: &Shared<'_>, key: &Key) -> bool
    requires shared { IsShared sides.now «class».now }
    requires covered { IsTrue (is_base_class sides.now.old sides.now.new (name_of «class».now)) }
    ensures { result ≡ is_called_above sides.now.new (name_of «class».now) key.now }
{
    inherits_instance(sides.new, class.new, key)
}

// Whether the key is final in the new chain of the class.
fn is_final_now(sides: &Sides<'_>, class: &Shared<'_>, key: &Key) -> bool
    requires { IsShared sides.now «class».now }
    ensures { result ≡ is_final_in_chain sides.now.new (name_of «class».now) key.now }
{
    finals(sides.new, class.new, key)
}

// Whether a line is due of the base class and the key.
fn is_due(sides: &Sides<'_>, class: &Shared<'_>, key: &Key) -> bool
    requires shared { IsShared sides.now «class».now }
    requires covered { IsTrue (is_base_class sides.now.old sides.now.new (name_of «class».now)) }
    ensures { result ≡ (is_key_of_method key.now && is_called_above sides.now.new (name_of «class».now) key.now && allows_less_access sides.now.old (name_of «class».now) key.now && not (is_final_in_chain sides.now.new (name_of «class».now) key.now)) }
{
    !is_initializer(key.name.as_bytes())
        && is_called_above(sides, class, key)
        && allowed_less_access(sides, class, key)
        && !is_final_now(sides, class, key)
}

// Methods of interfaces that base classes have above them now, and had not, where clients below could
// declare their key with less access than public: a call of the interface's method selects what such a
// client declares, and fails (JVMS 5.4.6, 6.5 invokeinterface).
struct AccessAdded;

impl ItemRule for AccessAdded {
    type Item = AccessLine;

    ghost rule = { 0 };

    ghost covers = { changed_base };

    fn members(&self) -> Members {
        // What a superinterface declares is found from the class, or what its chain has of the key.
        Members::NewMethods
    }

    fn on_key(
        &self,
        sides: &Sides<'_>,
        class: &Shared<'_>,
        key: &Key,
        _numbers: &KeyNumbers,
    ) -> Option<BrokenAct<'_>> {
        let due = is_due(sides, class, key);
        broken_where(due, Act::InvokeInterface, LinkError::IllegalAccessError)
    }
}

/// The lines on base classes that have a method from a superinterface now, whose key clients below could
/// declare with less access than public. They are in byte order of the classes' names and in the order of the keys; None where
/// they are more than the limit allows. No more are made then than what one class adds past it. The
/// seats are those of the two sides.
///
/// # Errors
///
/// `AllocError` where memory runs out.
pub(crate) fn accesses(
    alloc: Global,
    sides: &Sides<'_>,
    seats: &Seats<'_>,
    most: Option<usize>,
) -> Result<Option<Vec<CallLine>>, AllocError>
    requires { AreSeats sides.now seats.now }
    ensures { IfOk result (λ made. AreOfKind Access sides.now.old sides.now.new most (option_map (λ ls. ls.items) made)) }
{
    let changed = Changed::new(alloc, sides, seats)?;
    let translation = Translation::new(alloc, sides)?;
    let classes = changed.classes.as_slice();
    let made = by_items(
        alloc,
        NUMBER,
        &AccessAdded,
        sides,
        &translation,
        classes,
        most,
    )?;
    let Some(made) = made else {
        return Ok(None);
    };
    let lines = lines_of(alloc, made)?;
    Ok(Some(lines))
}
