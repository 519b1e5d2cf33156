//! Lines on superclasses that clients can't name, where values of two classes met.
ghost use Rattle.std.specs.Prelude.{◌≡◌, ◌<◌, ◌&&◌, ◌||◌, ◌∷◌, [], ℕ, IfOk, IsTrue, is_some, length, not, option_map, false};
ghost use Rattle.std.specs.List.{All, list_all, list_any, filter_map};
ghost use Rattle.jc_acts.specs.Seats.{AreSeats};
ghost use Rattle.jc_acts.specs.Touched.{AreFlags, AreSet, flag_at};
ghost use Rattle.jc_call_kinds.specs.declared.call_line.CallKind.TheVariants.{Joined};
ghost use Rattle.jc_call_lines.specs.steps.JoinLines.{AreBelow, AreMet, AreTargets, IsCovered, IsServed, is_below, is_handed, is_left, is_losing, is_target, join_line, left_by, may_be_held, meets_by, share_seat};
ghost use Rattle.jc_call_lines.specs.steps.Kinds.{AreOfKind};
ghost use Rattle.jc_calls.specs.Joins.{is_join, join_lost};
ghost use Rattle.jc_exposed.specs.Exposed.{AreExposed, are_all_exposed};
ghost use Rattle.jc_facts.specs.Options.{some_where};
ghost use Rattle.jc_facts.specs.world.Assignment.{is_class_assignable};
ghost use Rattle.jc_facts.specs.world.Hierarchy.{chain, in_chain};
ghost use Rattle.jc_facts.specs.world.World.{classes, differ_by_name, size};
ghost use Rattle.jc_index.specs.Ids.{name_at};
ghost use Rattle.jc_promises.specs.rule.Exposed.{is_hidden};
ghost use Rattle.jc_promises.specs.rule.OpenActs.{first_seat};

use jc_acts::lost::{loses_any, set_lost};
use jc_acts::seats::Seats;
use jc_call_kinds::call_line::{CallKind, CallLine};
use jc_exposed::apart::first_handed;
use jc_exposed::exposed::{Exposed, first_exposed};
use jc_facts::flags::is_interface;
use jc_index::ids::ClassId;
use jc_sides::found::push_some;
use jc_sides::kept::{is_hidden_class, kept};
use jc_sides::limit::is_over;
use jc_sides::sides::Sides;
use jc_table::table::Table;
use std::alloc::{AllocError, Global};

// ---- which classes were left

// Whether the class is kept or hidden.
fn may_be_held(sides: &Sides<'_>, id: ClassId) -> bool
    requires { id < size sides.now.old }
    ensures { result ≡ may_be_held sides.now (name_at sides.now.old id) }
{
    if kept(sides, id).is_some() {
        return true;
    }
    is_hidden_class(sides.old, id)
}

// Whether it is, and has lost a class of its chain.
fn is_losing(sides: &Sides<'_>, seats: &Seats<'_>, id: ClassId) -> bool
    requires seats { AreSeats sides.now seats.now }
    requires class { id < size sides.now.old }
    ensures { result ≡ is_losing sides.now (name_at sides.now.old id) }
{
    may_be_held(sides, id) && loses_any(sides, seats, id)
}

// Sets the flags of those that the class has lost, if it has.
fn set_left_by(sides: &Sides<'_>, seats: &Seats<'_>, flags: &mut Vec<bool>, id: ClassId)
    requires seats { AreSeats sides.now seats.now }
    requires class { id < size sides.now.old }
    requires flags { length flags.old.items ≡ size sides.now.old }
    ensures { AreSet sides.now.old (λ t. left_by sides.now t (name_at sides.now.old id)) flags.old.items flags.new.items }
{
    if is_losing(sides, seats, id) {
        set_lost(sides, flags, id);
    }
}

// Sets the flags of those that some class has lost, where none was set before.
fn set_left(sides: &Sides<'_>, seats: &Seats<'_>, flags: &mut Vec<bool>)
    requires seats { AreSeats sides.now seats.now }
    requires flags { length flags.old.items ≡ size sides.now.old }
    requires clear { (n : ℕ) → flag_at flags.old.items n ≡ false }
    ensures { AreFlags sides.now.old (is_left sides.now) flags.new.items }
{
    for n in 0..sides.old.count() {
        let id = sides.old.id(n).unwrap();
        set_left_by(sides, seats, flags, id);
    }
}

// For each class, whether one that is kept or hidden has lost it.
fn left(alloc: Global, sides: &Sides<'_>, seats: &Seats<'_>) -> Result<Vec<bool>, AllocError>
    requires { AreSeats sides.now seats.now }
    ensures { IfOk result (λ flags. AreFlags sides.now.old (is_left sides.now) flags.items) }
{
    let mut flags = vec![in alloc; false; sides.old.count() as usize]?;
    set_left(sides, seats, &mut flags);
    Ok(flags)
}

// Whether clients can't name the class, and it was left.
fn is_target(sides: &Sides<'_>, left: &[bool], id: ClassId) -> bool
    requires left { AreFlags sides.now.old (is_left sides.now) left.now }
    requires class { id < size sides.now.old }
    ensures { result ≡ is_target sides.now (name_at sides.now.old id) }
{
    is_hidden_class(sides.old, id) && left[id.number() as usize]
}

// The class, if it is such a one.
fn target(sides: &Sides<'_>, left: &[bool], id: ClassId) -> Option<ClassId>
    requires left { AreFlags sides.now.old (is_left sides.now) left.now }
    requires class { id < size sides.now.old }
    ensures { result ≡ some_where (is_target sides.now (name_at sides.now.old id)) id }
{
    if is_target(sides, left, id) {
        Some(id)
    } else {
        None
    }
}

// All such classes, in order.
fn targets(alloc: Global, sides: &Sides<'_>, left: &[bool]) -> Result<Vec<ClassId>, AllocError>
    requires { AreFlags sides.now.old (is_left sides.now) left.now }
    ensures { IfOk result (λ ts. AreTargets sides.now ts.items) }
{
    let mut targets = Vec::new(alloc);
    for n in 0..sides.old.count() {
        let id = sides.old.id(n).unwrap();
        push_some(&mut targets, target(sides, left, id))?;
    }
    Ok(targets)
}

// ---- which stand below them

// Whether the class is one of these, or stands below one.
fn is_below(table: &Table, targets: &[ClassId], id: ClassId) -> bool
    requires targets { All (λ t. t < size table.now) targets.now }
    requires class { id < size table.now }
    ensures { result ≡ is_below table.now targets.now (name_at table.now id) }
{
    for target in targets {
        if table.has_super(id, *target) {
            return true;
        }
    }
    false
}

// The class, if it is or does.
fn if_below(table: &Table, targets: &[ClassId], id: ClassId) -> Option<ClassId>
    requires targets { All (λ t. t < size table.now) targets.now }
    requires class { id < size table.now }
    ensures { result ≡ some_where (is_below table.now targets.now (name_at table.now id)) id }
{
    if is_below(table, targets, id) {
        Some(id)
    } else {
        None
    }
}

// All that are or do, in order.
fn below(alloc: Global, table: &Table, targets: &[ClassId]) -> Result<Vec<ClassId>, AllocError>
    requires { All (λ t. t < size table.now) targets.now }
    ensures { IfOk result (λ ks. AreBelow table.now targets.now ks.items) }
{
    let mut ids = Vec::new(alloc);
    for n in 0..table.count() {
        let id = table.id(n).unwrap();
        push_some(&mut ids, if_below(table, targets, id))?;
    }
    Ok(ids)
}

// Whether it is hidden and does.
fn is_wanted(table: &Table, targets: &[ClassId], id: ClassId) -> bool
    requires targets { All (λ t. t < size table.now) targets.now }
    requires class { id < size table.now }
    ensures { result ≡ (is_hidden table.now (name_at table.now id) && is_below table.now targets.now (name_at table.now id)) }
{
    is_hidden_class(table, id) && is_below(table, targets, id)
}

// For each class, whether it is hidden and does.
fn wanted(alloc: Global, table: &Table, targets: &[ClassId]) -> Result<Vec<bool>, AllocError>
    requires { All (λ t. t < size table.now) targets.now }
    ensures { IfOk result (λ flags. AreFlags table.now (λ x. is_hidden table.now x && is_below table.now targets.now x) flags.items) }
{
    let mut flags = Vec::with_capacity(alloc, table.count() as usize)?;
    for n in 0..table.count() {
        let id = table.id(n).unwrap();
        flags.push(is_wanted(table, targets, id))?;
    }
    Ok(flags)
}

// To whom members expose those that are hidden and do.
fn met(
    alloc: Global,
    sides: &Sides<'_>,
    seats: &Seats<'_>,
    targets: &[ClassId],
) -> Result<Exposed, AllocError>
    requires seats { AreSeats sides.now seats.now }
    requires targets { All (λ t. t < size sides.now.old) targets.now }
    ensures { IfOk result (λ e. AreMet sides.now targets.now e) }
{
    let wanted = wanted(alloc, sides.old, targets)?;
    let exposed = Exposed::new(alloc, sides, seats, wanted)?;
    Ok(exposed)
}

// ---- seats

// Whether all of the classes are hidden.
fn are_hidden(table: &Table, ids: &[ClassId]) -> bool
    requires { All (λ id. id < size table.now) ids.now }
    ensures { result ≡ list_all (λ id. is_hidden table.now (name_at table.now id)) ids.now }
{
    for id in ids {
        if !is_hidden_class(table, *id) {
            return false;
        }
    }
    true
}

// Whether members expose all of the classes to clients of some seat.
fn are_shown(sides: &Sides<'_>, seats: &Seats<'_>, exposed: &Exposed, ids: &[ClassId]) -> bool
    requires seats { AreSeats sides.now seats.now }
    requires exposed { AreExposed sides.now exposed.now }
    requires ids { All (λ id. id < size sides.now.old) ids.now }
    requires covered { All (IsCovered sides.now.old exposed.now) ids.now }
    ensures { result ≡ is_some (first_seat sides.now.old sides.now.new (are_all_exposed sides.now.old ids.now)) }
{
    if !are_hidden(sides.old, ids) {
        return false;
    }
    first_exposed(sides, seats, exposed, ids).is_some()
}

// Whether clients of some seat hold values of both classes: each is kept, or hidden and exposed to it.
fn share_seat(
    sides: &Sides<'_>,
    seats: &Seats<'_>,
    exposed: &Exposed,
    class: ClassId,
    other: ClassId,
) -> bool
    requires seats { AreSeats sides.now seats.now }
    requires exposed { AreExposed sides.now exposed.now }
    requires class { «class» < size sides.now.old }
    requires other { other < size sides.now.old }
    requires class_covered { IsCovered sides.now.old exposed.now «class» }
    requires other_covered { IsCovered sides.now.old exposed.now other }
    ensures { result ≡ share_seat sides.now (name_at sides.now.old «class» ∷ name_at sides.now.old other ∷ []) }
{
    let class_is_kept = kept(sides, class).is_some();
    let other_is_kept = kept(sides, other).is_some();
    if class_is_kept {
        if other_is_kept {
            return true;
        }
        return are_shown(sides, seats, exposed, &[other]);
    }
    if other_is_kept {
        return are_shown(sides, seats, exposed, &[class]);
    }
    are_shown(sides, seats, exposed, &[class, other])
}

// Whether clients of one seat hold values of the hidden class, and hand them on to those of another,
// who hold values of the other hidden one.
fn is_handed(
    sides: &Sides<'_>,
    seats: &Seats<'_>,
    exposed: &Exposed,
    class: ClassId,
    target: ClassId,
) -> bool
    requires seats { AreSeats sides.now seats.now }
    requires exposed { AreExposed sides.now exposed.now }
    requires class { «class» < size sides.now.old }
    requires target { target < size sides.now.old }
    requires class_covered { IsCovered sides.now.old exposed.now «class» }
    requires target_covered { IsCovered sides.now.old exposed.now target }
    ensures { result ≡ is_handed sides.now (name_at sides.now.old «class») (name_at sides.now.old target) }
{
    if !is_hidden_class(sides.old, class) {
        return false;
    }
    if !is_hidden_class(sides.old, target) {
        return false;
    }
    first_handed(sides, seats, exposed, class, target).is_some()
}

// Whether a finding tells that the class, which had the other one above it, isn't assignable to it any
// more: clients of some seat hold values of both, or hand those of the one on.
fn is_told(
    sides: &Sides<'_>,
    seats: &Seats<'_>,
    exposed: &Exposed,
    class: ClassId,
    target: ClassId,
) -> bool
    requires seats { AreSeats sides.now seats.now }
    requires exposed { AreExposed sides.now exposed.now }
    requires class { «class» < size sides.now.old }
    requires target { target < size sides.now.old }
    requires class_covered { IsCovered sides.now.old exposed.now «class» }
    requires target_covered { IsCovered sides.now.old exposed.now target }
    ensures { result ≡ (share_seat sides.now (name_at sides.now.old «class» ∷ name_at sides.now.old target ∷ []) || is_handed sides.now (name_at sides.now.old «class») (name_at sides.now.old target)) }
{
    share_seat(sides, seats, exposed, class, target)
        || is_handed(sides, seats, exposed, class, target)
}

// ---- where values met

// Whether the class of the old side is assignable to the other one on the new side.
fn is_still_assignable(sides: &Sides<'_>, class: ClassId, target: ClassId) -> bool
    requires differ { IsTrue (differ_by_name (classes sides.now.old)) }
    requires class { «class» < size sides.now.old }
    requires target { target < size sides.now.old }
    ensures { result ≡ is_class_assignable sides.now.new (name_at sides.now.old «class») (name_at sides.now.old target) }
{
    if class == target {
        return true;
    }
    let Some(above) = sides.new_id(target) else {
        return false;
    };
    if is_interface(sides.new.facts(above).flags) {
        return true;
    }
    match sides.new_id(class) {
        Some(after) => sides.new.has_super(after, above),
        None => false,
    }
}

// Whether the class stands in the chain of the one, and not in that of the other.
fn is_sooner(table: &Table, id: ClassId, other: ClassId, target: ClassId) -> bool
    requires class { id < size table.now }
    requires other { other < size table.now }
    requires target { target < size table.now }
    ensures { result ≡ (in_chain table.now (name_at table.now other) (name_at table.now id) && not (in_chain table.now (name_at table.now target) (name_at table.now id))) }
{
    table.has_super(other, id) && !table.has_super(target, id)
}

// Whether a class of the chain does.
fn meets_sooner(table: &Table, class: ClassId, other: ClassId, target: ClassId) -> bool
    requires class { «class» < size table.now }
    requires other { other < size table.now }
    requires target { target < size table.now }
    ensures { result ≡ list_any (λ c. in_chain table.now (name_at table.now other) c.name && not (in_chain table.now (name_at table.now target) c.name)) (chain table.now (name_at table.now «class»)) }
{
    let mut next = Some(class);
    for _ in 0..table.count() {
        let Some(id) = next else {
            return false;
        };
        if is_sooner(table, id, other, target) {
            return true;
        }
        next = table.superclass(id);
    }
    false
}

// Whether none does: each class of the chain that stands in that of the one stands in that of the other.
fn meets_no_sooner(table: &Table, class: ClassId, other: ClassId, target: ClassId) -> bool
    requires class { «class» < size table.now }
    requires other { other < size table.now }
    requires target { target < size table.now }
    ensures { result ≡ list_all (λ c. not (in_chain table.now (name_at table.now other) c.name) || in_chain table.now (name_at table.now target) c.name) (chain table.now (name_at table.now «class»)) }
{
    let sooner = meets_sooner(table, class, other, target);
    !sooner
}

// Whether the class above is the first that stands in the chains of both.
fn is_join(table: &Table, class: ClassId, other: ClassId, target: ClassId) -> bool
    requires class { «class» < size table.now }
    requires other { other < size table.now }
    requires target { target < size table.now }
    ensures { result ≡ is_join table.now (name_at table.now «class») (name_at table.now other) (name_at table.now target) }
{
    table.has_super(class, target)
        && table.has_super(other, target)
        && meets_no_sooner(table, class, other, target)
}

// Whether values of the class and of the other met at the one above, where clients of some seat held
// both.
fn meets_by(
    sides: &Sides<'_>,
    seats: &Seats<'_>,
    exposed: &Exposed,
    class: ClassId,
    target: ClassId,
    other: ClassId,
) -> bool
    requires seats { AreSeats sides.now seats.now }
    requires exposed { AreExposed sides.now exposed.now }
    requires class { «class» < size sides.now.old }
    requires target { target < size sides.now.old }
    requires other { other < size sides.now.old }
    requires class_covered { IsCovered sides.now.old exposed.now «class» }
    requires other_covered { IsCovered sides.now.old exposed.now other }
    ensures { result ≡ meets_by sides.now (name_at sides.now.old «class») (name_at sides.now.old target) (name_at sides.now.old other) }
{
    is_join(sides.old, class, other, target) && share_seat(sides, seats, exposed, class, other)
}

// The same of one of these.
fn meets_any(
    sides: &Sides<'_>,
    seats: &Seats<'_>,
    exposed: &Exposed,
    class: ClassId,
    target: ClassId,
    others: &[ClassId],
) -> bool
    requires seats { AreSeats sides.now seats.now }
    requires exposed { AreExposed sides.now exposed.now }
    requires class { «class» < size sides.now.old }
    requires target { target < size sides.now.old }
    requires others { All (λ k. k < size sides.now.old) others.now }
    requires class_covered { IsCovered sides.now.old exposed.now «class» }
    requires others_covered { All (IsCovered sides.now.old exposed.now) others.now }
    ensures { result ≡ list_any (λ k. meets_by sides.now (name_at sides.now.old «class») (name_at sides.now.old target) (name_at sides.now.old k)) others.now }
{
    for other in others {
        if meets_by(sides, seats, exposed, class, target, *other) {
            return true;
        }
    }
    false
}

// ---- the lines

// Whether the class isn't assignable any more to the one above, where its values met others, and no
// finding tells so.
fn is_lost(
    sides: &Sides<'_>,
    seats: &Seats<'_>,
    exposed: &Exposed,
    below: &[ClassId],
    class: ClassId,
    target: ClassId,
) -> bool
    requires seats { AreSeats sides.now seats.now }
    requires exposed { AreExposed sides.now exposed.now }
    requires class { «class» < size sides.now.old }
    requires target { target < size sides.now.old }
    requires served { IsServed sides.now exposed.now below.now target }
    requires was { IsTrue (in_chain sides.now.old (name_at sides.now.old «class») (name_at sides.now.old target)) }
    ensures { result ≡ join_lost sides.now.old sides.now.new (name_at sides.now.old «class») (name_at sides.now.old target) }
{
    if !is_hidden_class(sides.old, target) {
        return false;
    }
    if is_still_assignable(sides, class, target) {
        return false;
    }
    if is_told(sides, seats, exposed, class, target) {
        return false;
    }
    meets_any(sides, seats, exposed, class, target, below)
}

// The line on the class and the one above, if it is due.
fn line_on(
    alloc: Global,
    sides: &Sides<'_>,
    seats: &Seats<'_>,
    exposed: &Exposed,
    below: &[ClassId],
    class: ClassId,
    target: ClassId,
) -> Result<Option<CallLine>, AllocError>
    requires seats { AreSeats sides.now seats.now }
    requires exposed { AreExposed sides.now exposed.now }
    requires class { «class» < size sides.now.old }
    requires target { target < size sides.now.old }
    requires served { IsServed sides.now exposed.now below.now target }
    ensures { IfOk result (λ line. line ≡ join_line sides.now (name_at sides.now.old «class») (name_at sides.now.old target)) }
{
    if !sides.old.has_super(class, target) {
        return Ok(None);
    }
    if !is_lost(sides, seats, exposed, below, class, target) {
        return Ok(None);
    }
    let name = &sides.old.facts(class).name;
    let above = &sides.old.facts(target).name;
    Ok(Some(CallLine {
        kind: CallKind::Joined,
        class: name.copy(alloc)?,
        key: None,
        target: Some(above.copy(alloc)?),
    }))
}

// Those on the class and these above it, in their order.
fn on_class(
    alloc: Global,
    sides: &Sides<'_>,
    seats: &Seats<'_>,
    exposed: &Exposed,
    below: &[ClassId],
    class: ClassId,
    targets: &[ClassId],
) -> Result<Vec<CallLine>, AllocError>
    requires seats { AreSeats sides.now seats.now }
    requires exposed { AreExposed sides.now exposed.now }
    requires class { «class» < size sides.now.old }
    requires targets { All (λ t. t < size sides.now.old) targets.now }
    requires served { All (IsServed sides.now exposed.now below.now) targets.now }
    ensures { IfOk result (λ made. made.items ≡ filter_map (λ t. join_line sides.now (name_at sides.now.old «class») (name_at sides.now.old t)) targets.now) }
{
    let mut lines = Vec::new(alloc);
    for target in targets {
        push_some(
            &mut lines,
            line_on(alloc, sides, seats, exposed, below, class, *target)?,
        )?;
    }
    Ok(lines)
}

// Those on all classes.
fn on_classes(
    alloc: Global,
    sides: &Sides<'_>,
    seats: &Seats<'_>,
    exposed: &Exposed,
    below: &[ClassId],
    targets: &[ClassId],
    most: Option<usize>,
) -> Result<Option<Vec<CallLine>>, AllocError>
    requires seats { AreSeats sides.now seats.now }
    requires exposed { AreExposed sides.now exposed.now }
    requires targets { AreTargets sides.now targets.now }
    requires served { All (IsServed sides.now exposed.now below.now) targets.now }
    ensures { IfOk result (λ made. AreOfKind Joined sides.now.old sides.now.new most (option_map (λ ls. ls.items) made)) }
{
    let mut lines = Vec::new(alloc);
    for n in 0..sides.old.count() {
        let id = sides.old.id(n).unwrap();
        lines.append(&mut on_class(alloc, sides, seats, exposed, below, id, targets)?)?;
        if is_over(lines.len(), most) {
            return Ok(None);
        }
    }
    Ok(Some(lines))
}

/// The lines on classes and superclasses that clients can't name, where values of two classes met in
/// their code and those of the one aren't assignable any more (JVMS 4.10.1.2). They are in byte order of
/// the names of the class and of the superclass; None where they are more than the limit allows. No more
/// are made then than what one class adds past it.
///
/// Only hidden classes that some class has lost are looked at, and those that stand below them: each
/// class that has lost one is asked beside each of these. Members are looked at where one of them is
/// hidden, once for all.
///
/// # Errors
///
/// `AllocError` where memory runs out.
pub(crate) fn joins(
    alloc: Global,
    sides: &Sides<'_>,
    seats: &Seats<'_>,
    most: Option<usize>,
) -> Result<Option<Vec<CallLine>>, AllocError>
    requires { AreSeats sides.now seats.now }
    ensures { IfOk result (λ made. AreOfKind Joined sides.now.old sides.now.new most (option_map (λ ls. ls.items) made)) }
{
    let left = left(alloc, sides, seats)?;
    let targets = targets(alloc, sides, left.as_slice())?;
    let below = below(alloc, sides.old, targets.as_slice())?;
    let exposed = met(alloc, sides, seats, targets.as_slice())?;
    let made = on_classes(
        alloc,
        sides,
        seats,
        &exposed,
        below.as_slice(),
        targets.as_slice(),
        most,
    )?;
    Ok(made)
}
