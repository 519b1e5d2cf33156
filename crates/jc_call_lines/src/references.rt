//! Lines on method references that no longer link.
ghost use Rattle.std.specs.Prelude.{◌≡◌, IfOk, IsTrue, option_map};
ghost use Rattle.std.specs.Bool.{beq};
ghost use Rattle.std.specs.List.{list_any, filter_map};
ghost use Rattle.jc_acts.specs.Seats.{AreSeats};
ghost use Rattle.jc_calls.specs.Lines.{line_order};
ghost use Rattle.jc_calls.specs.References.{is_handle_lost, reference_lost};
ghost use Rattle.jc_facts.specs.Exactly.{HasExactly};
ghost use Rattle.jc_call_kinds.specs.declared.call_line.CallKind.TheVariants.{Reference};
ghost use Rattle.jc_facts.specs.world.Assignment.{is_interface_of};
ghost use Rattle.jc_promises.specs.rule.Bases.{is_steady};
ghost use Rattle.jc_promises.specs.rule.OpenActs.{method_acts};
ghost use Rattle.jc_sides.specs.Numbering.{AreNumbers};
ghost use Rattle.jc_sides.specs.Rules.{IsOf};
ghost use Rattle.jc_sides.specs.SharedOf.{AreThose, IsShared, name_of};
ghost use Rattle.jc_call_lines.specs.steps.Kinds.{AreOfKind, OfKind};
ghost use Rattle.jc_call_lines.specs.steps.LostLines.{lost_line, reference_line};
ghost use Rattle.jc_call_lines.specs.steps.Openly.{choices_open, finds_referable, AreOpenAbove};

use crate::openly::{are_choices_open, are_open_above, finds_referable};
use jc_acts::members::method_closed;
use jc_acts::seats::Seats;
use jc_call_kinds::call_line::{CallKind, CallLine};
use jc_desc::names::is_initializer;
use jc_facts::flags::is_interface;
use jc_facts::key::Key;
use jc_sides::classes::steady_classes;
use jc_sides::found::push_some;
use jc_sides::item_rule::in_order;
use jc_sides::key_numbers::KeyNumbers;
use jc_sides::limit::is_over;
use jc_sides::members::{Members, keys_of};
use jc_sides::shared::{Shared, after, before};
use jc_sides::sides::Sides;
use std::alloc::{AllocError, Global};

// ---- what is lost

// Whether clients can name the classes that are said to declare what the reference finds on the old side.
fn was_declared_openly(
    sides: &Sides<'_>,
    class: &Shared<'_>,
    key: &Key,
    numbers: &KeyNumbers,
) -> bool
    requires class { IsShared sides.now «class».now }
    requires steady { IsTrue (is_steady sides.now.old sides.now.new (name_of «class».now)) }
    requires numbers { AreNumbers sides.now key.now numbers.now }
    ensures { result ≡ choices_open sides.now.old (name_of «class».now) key.now }
{
    are_choices_open(sides.old, class.old, key, numbers.old)
}

// The same on the new side.
fn is_declared_openly(
    sides: &Sides<'_>,
    class: &Shared<'_>,
    key: &Key,
    numbers: &KeyNumbers,
) -> bool
    requires class { IsShared sides.now «class».now }
    requires steady { IsTrue (is_steady sides.now.old sides.now.new (name_of «class».now)) }
    requires numbers { AreNumbers sides.now key.now numbers.now }
    ensures { result ≡ choices_open sides.now.new (name_of «class».now) key.now }
{
    are_choices_open(sides.new, class.new, key, numbers.new)
}

// Whether the reference finds a method on the old side, and none of which javac makes no handle: they are
// public, so that clients of each seat could do the act.
fn was_referable(sides: &Sides<'_>, class: &Shared<'_>, key: &Key, numbers: &KeyNumbers) -> bool
    requires class { IsShared sides.now «class».now }
    requires steady { IsTrue (is_steady sides.now.old sides.now.new (name_of «class».now)) }
    requires numbers { AreNumbers sides.now key.now numbers.now }
    ensures { result ≡ finds_referable sides.now.old (name_of «class».now) key.now }
{
    finds_referable(sides.old, class.old, key, numbers.old)
}

// Whether clients could take a handle of an act apart and no longer can, where the class is of one kind
// on both sides. Nearly all keys are done with the first test.
fn is_handle_lost(sides: &Sides<'_>, class: &Shared<'_>, key: &Key, numbers: &KeyNumbers) -> bool
    requires class { IsShared sides.now «class».now }
    requires steady { IsTrue (is_steady sides.now.old sides.now.new (name_of «class».now)) }
    requires kind { is_interface_of sides.now.old (name_of «class».now) ≡ is_interface_of sides.now.new (name_of «class».now) }
    requires numbers { AreNumbers sides.now key.now numbers.now }
    ensures { result ≡ list_any (is_handle_lost sides.now.old sides.now.new (name_of «class».now) key.now) method_acts }
{
    if is_declared_openly(sides, class, key, numbers) {
        return false;
    }
    if !was_referable(sides, class, key, numbers) {
        return false;
    }
    was_declared_openly(sides, class, key, numbers)
}

// Whether references to the method of the key, named through the steady class, no longer link, and no
// act on it is closed, which would tell more.
fn is_lost(
    sides: &Sides<'_>,
    seats: &Seats<'_>,
    class: &Shared<'_>,
    key: &Key,
    numbers: &KeyNumbers,
) -> bool
    requires seats { AreSeats sides.now seats.now }
    requires class { IsShared sides.now «class».now }
    requires steady { IsTrue (is_steady sides.now.old sides.now.new (name_of «class».now)) }
    requires kind { is_interface_of sides.now.old (name_of «class».now) ≡ is_interface_of sides.now.new (name_of «class».now) }
    requires numbers { AreNumbers sides.now key.now numbers.now }
    ensures { result ≡ reference_lost sides.now.old sides.now.new (name_of «class».now) key.now }
{
    if is_initializer(key.name.as_bytes()) {
        return false;
    }
    if !is_handle_lost(sides, class, key, numbers) {
        return false;
    }
    let closed = method_closed(sides, seats, class, key, numbers);
    closed.is_none()
}

// ---- the lines

// The line on the method of the key, named through the class.
fn line(alloc: Global, class: &Shared<'_>, key: &Key) -> Result<CallLine, AllocError>
    ensures { IfOk result (λ l. l ≡ reference_line (name_of «class».now) key.now) }
{
    Ok(CallLine {
        kind: CallKind::Reference,
        class: class.name.copy(alloc)?,
        key: Some(key.copy(alloc)?),
        target: None,
    })
}

// The same, where references to it are lost.
fn on_key(
    alloc: Global,
    sides: &Sides<'_>,
    seats: &Seats<'_>,
    class: &Shared<'_>,
    key: &Key,
) -> Result<Option<CallLine>, AllocError>
    requires seats { AreSeats sides.now seats.now }
    requires class { IsShared sides.now «class».now }
    requires steady { IsTrue (is_steady sides.now.old sides.now.new (name_of «class».now)) }
    requires kind { is_interface_of sides.now.old (name_of «class».now) ≡ is_interface_of sides.now.new (name_of «class».now) }
    ensures { IfOk result (λ l. l ≡ lost_line sides.now (name_of «class».now) key.now) }
{
    let numbers = KeyNumbers::of(sides, key);
    if !is_lost(sides, seats, class, key, &numbers) {
        return Ok(None);
    }
    let line = line(alloc, class, key)?;
    Ok(Some(line))
}

// Those of the class and these keys, in their order.
fn on_keys(
    alloc: Global,
    sides: &Sides<'_>,
    seats: &Seats<'_>,
    class: &Shared<'_>,
    keys: &[Key],
) -> Result<Vec<CallLine>, AllocError>
    requires seats { AreSeats sides.now seats.now }
    requires class { IsShared sides.now «class».now }
    requires steady { IsTrue (is_steady sides.now.old sides.now.new (name_of «class».now)) }
    requires kind { is_interface_of sides.now.old (name_of «class».now) ≡ is_interface_of sides.now.new (name_of «class».now) }
    ensures { IfOk result (λ made. made.items ≡ filter_map (lost_line sides.now (name_of «class».now)) keys.now) }
{
    let mut lines = Vec::new(alloc);
    for key in keys {
        push_some(&mut lines, on_key(alloc, sides, seats, class, key)?)?;
    }
    Ok(lines)
}

// Whether the class is of one kind on both sides. Where it became an interface, all acts on its methods
// are closed.
fn is_of_one_kind(sides: &Sides<'_>, class: &Shared<'_>) -> bool
    requires class { IsShared sides.now «class».now }
    ensures { result ≡ beq (is_interface_of sides.now.old (name_of «class».now)) (is_interface_of sides.now.new (name_of «class».now)) }
{
    is_interface(before(sides, class).flags) == is_interface(after(sides, class).flags)
}

// Whether clients can name, on the new side, all that may be said to declare what the class has, as they
// can with most.
fn are_all_open(sides: &Sides<'_>, class: &Shared<'_>) -> bool
    requires class { IsShared sides.now «class».now }
    ensures { IsTrue result → AreOpenAbove sides.now.new (name_of «class».now) }
{
    are_open_above(sides.new, class.new)
}

// The lines on the methods that the class had, in order.
fn of_methods(
    alloc: Global,
    sides: &Sides<'_>,
    seats: &Seats<'_>,
    class: &Shared<'_>,
) -> Result<Vec<CallLine>, AllocError>
    requires seats { AreSeats sides.now seats.now }
    requires class { IsShared sides.now «class».now }
    requires steady { IsTrue (is_steady sides.now.old sides.now.new (name_of «class».now)) }
    requires kind { is_interface_of sides.now.old (name_of «class».now) ≡ is_interface_of sides.now.new (name_of «class».now) }
    ensures { IfOk result (λ made. HasExactly line_order (IsOf (λ l. l.«class») (OfKind Reference sides.now.old sides.now.new) (name_of «class».now)) made.items) }
{
    let keys = keys_of(alloc, sides, class, Members::OldMethods)?;
    let sorted = in_order(alloc, keys)?;
    let lines = on_keys(alloc, sides, seats, class, sorted.as_slice())?;
    Ok(lines)
}

// The lines on the steady class, in order. Only where a class above it is one that clients can't name,
// its methods are asked.
fn of_class(
    alloc: Global,
    sides: &Sides<'_>,
    seats: &Seats<'_>,
    class: &Shared<'_>,
) -> Result<Vec<CallLine>, AllocError>
    requires seats { AreSeats sides.now seats.now }
    requires class { IsShared sides.now «class».now }
    requires steady { IsTrue (is_steady sides.now.old sides.now.new (name_of «class».now)) }
    ensures { IfOk result (λ made. HasExactly line_order (IsOf (λ l. l.«class») (OfKind Reference sides.now.old sides.now.new) (name_of «class».now)) made.items) }
{
    if are_all_open(sides, class) {
        return Ok(Vec::new(alloc));
    }
    if !is_of_one_kind(sides, class) {
        return Ok(Vec::new(alloc));
    }
    let lines = of_methods(alloc, sides, seats, class)?;
    Ok(lines)
}

// The lines on these classes, which have to be all that are steady; None where there are more than the
// limit allows.
fn of_classes(
    alloc: Global,
    sides: &Sides<'_>,
    seats: &Seats<'_>,
    classes: &[Shared<'_>],
    most: Option<usize>,
) -> Result<Option<Vec<CallLine>>, AllocError>
    requires seats { AreSeats sides.now seats.now }
    requires classes { AreThose (is_steady sides.now.old sides.now.new) sides.now classes.now }
    ensures { IfOk result (λ made. AreOfKind Reference sides.now.old sides.now.new most (option_map (λ ls. ls.items) made)) }
{
    let mut lines = Vec::new(alloc);
    for class in classes {
        lines.append(&mut of_class(alloc, sides, seats, class)?)?;
        if is_over(lines.len(), most) {
            return Ok(None);
        }
    }
    Ok(Some(lines))
}

/// The lines on method references that no longer link, in byte order of the classes' names, then by key,
/// where they are within the limit, and None where they are more: a class that clients could and can
/// still use, and a public method, no bridge, that they could and can still call through it, where each class that
/// was said to declare what the reference finds was one that they can name, and one that is said to
/// declare what it finds now isn't (JVMS 5.4.3.5, 5.4.4). Past the limit no more lines are made than
/// what one class adds.
///
/// # Errors
///
/// `AllocError` where memory runs out.
pub(crate) fn references(
    alloc: Global,
    sides: &Sides<'_>,
    seats: &Seats<'_>,
    most: Option<usize>,
) -> Result<Option<Vec<CallLine>>, AllocError>
    requires { AreSeats sides.now seats.now }
    ensures { IfOk result (λ made. AreOfKind Reference sides.now.old sides.now.new most (option_map (λ ls. ls.items) made)) }
{
    let classes = steady_classes(alloc, sides)?;
    let made = of_classes(alloc, sides, seats, classes.as_slice(), most)?;
    Ok(made)
}
