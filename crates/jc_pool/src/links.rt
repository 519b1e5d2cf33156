//! What the entries of a pool name, and the first fault in it (JVMS 4.4).
ghost use Rattle.std.specs.Prelude.{◌≡◌, ◌≤◌, ◌&&◌, ◌||◌, not, List, ℕ, Some, IfOk};
ghost use Rattle.jc_desc.specs.Faults.{first_fault, or_fault};
ghost use Rattle.jc_desc.specs.Pool.{short_from, first_of, second_of, slot_of_index, holds_tag, text_in, name_in, descriptor_in, pair_in, refers_rightly, fits_handle, names_for_handle, handle_kind, handle_target, is_member_reference, no_result};
ghost use Rattle.jc_desc.specs.Reading.{method_of};
ghost use Rattle.jc_desc.specs.PoolSteps.{want, meaning_fault, fault_of_handle, reference_fault, fault_of_links};
ghost use Rattle.jc_pool.specs.steps.Forms.{name_forms_in, AreForms};
ghost use Rattle.jc_pool.specs.Slots.{slot_of, slots_of};

use crate::entry::{Slot, at, first, second, short_in};
use crate::forms::{ClassForm, DescriptorForms, Forms, NameForms};
use jc_desc::fault::{Fault, Reason};
use jc_desc::tags;
use std::alloc::{AllocError, Global};

/// The index of the member that a MethodHandle uses.
pub(crate) fn target(slot: Slot<'_>) -> u16
    ensures { result ≡ handle_target (slot_of slot.entry) }
{
    short_in(1, slot.body)
}

/// The kind of a MethodHandle.
pub(crate) fn kind(slot: Slot<'_>) -> u8
    ensures { result ≡ handle_kind (slot_of slot.entry) }
{
    if slot.body.is_empty() {
        0
    } else {
        slot.body[0]
    }
}

fn holds(slots: &[Slot<'_>], tag: u8, index: u16) -> bool
    ensures { result ≡ holds_tag (slots_of slots.now) tag index }
{
    at(slots, index).tag == tag
}

/// The text that the first index leads to.
pub(crate) fn text<'a>(slots: &[Slot<'a>], slot: Slot<'a>) -> &'a [u8]
    ensures { result.now ≡ text_in (slots_of slots.now) (slot_of slot.entry) }
{
    at(slots, first(slot)).body
}

/// The text that the second index leads to.
pub(crate) fn descriptor<'a>(slots: &[Slot<'a>], slot: Slot<'a>) -> &'a [u8]
    ensures { result.now ≡ descriptor_in (slots_of slots.now) (slot_of slot.entry) }
{
    at(slots, second(slot)).body
}

/// What the second index leads to.
pub(crate) fn pair<'a>(slots: &[Slot<'a>], slot: Slot<'a>) -> Slot<'a>
    ensures { slot_of result ≡ pair_in (slots_of slots.now) (slot_of slot.entry) }
{
    at(slots, second(slot))
}

/// Whether an entry refers to a member.
pub(crate) fn is_member_ref(tag: u8) -> bool
    ensures { result ≡ is_member_reference tag }
{
    tag == tags::FIELD_REF || tag == tags::METHOD_REF || tag == tags::INTERFACE_METHOD_REF
}

/// Whether each index of an entry holds an entry of its kind.
// Inlined where each entry is asked, as a call would copy the entry.
#[inline(always)]
#[tactic(auto, unfolding(jc_desc::specs::Pool::refers_rightly))]
fn refers(slots: &[Slot<'_>], slot: Slot<'_>) -> bool
    ensures { result ≡ refers_rightly (slots_of slots.now) (slot_of slot.entry) }
{
    match slot.tag {
        tags::CLASS | tags::STRING | tags::METHOD_TYPE | tags::MODULE | tags::PACKAGE => {
            holds(slots, tags::UTF8, first(slot))
        }
        tags::FIELD_REF | tags::METHOD_REF | tags::INTERFACE_METHOD_REF => {
            holds(slots, tags::CLASS, first(slot))
                && holds(slots, tags::NAME_AND_TYPE, second(slot))
        }
        tags::NAME_AND_TYPE => {
            holds(slots, tags::UTF8, first(slot)) && holds(slots, tags::UTF8, second(slot))
        }
        tags::DYNAMIC | tags::INVOKE_DYNAMIC => { holds(slots, tags::NAME_AND_TYPE, second(slot)) }
        _ => true,
    }
}

fn class_fault(text: ClassForm) -> Option<Reason>
    ensures { result ≡ want text.class Reason.BadName None }
{
    if text.class {
        None
    } else {
        Some(Reason::BadName)
    }
}

fn pair_fault(name: NameForms, descriptor: DescriptorForms) -> Option<Reason>
    ensures { result ≡ want name.member Reason.BadName (want (descriptor.field || descriptor.method) Reason.BadDescriptor None) }
{
    if !name.member {
        return Some(Reason::BadName);
    }
    if !(descriptor.field || descriptor.method) {
        return Some(Reason::BadDescriptor);
    }
    None
}

/// Whether what a NameAndType of this name says is no constructor, or one without a result.
fn constructs(slots: &[Slot<'_>], known: &mut Forms, name: NameForms, named: Slot<'_>) -> bool
    requires { AreForms (slots_of slots.now) known.old }
    ensures known { AreForms (slots_of slots.now) known.new }
    ensures fits { result ≡ not name.init || no_result (method_of (descriptor_in (slots_of slots.now) (slot_of named.entry))) }
{
    !name.init || known.result(slots, second(named)).void
}

fn method_fault(
    interface: bool,
    name: NameForms,
    descriptor: DescriptorForms,
    fits: bool,
) -> Option<Reason>
    ensures { result ≡ want descriptor.method Reason.BadDescriptor (want (name.method && not (interface && name.init)) Reason.BadName (want fits Reason.BadDescriptor None)) }
{
    if !descriptor.method {
        return Some(Reason::BadDescriptor);
    }
    if !(name.method && !(interface && name.init)) {
        return Some(Reason::BadName);
    }
    if !fits {
        return Some(Reason::BadDescriptor);
    }
    None
}

fn handle_fits(kind: u8, tag: u8) -> bool
    ensures { result ≡ fits_handle kind tag }
{
    match kind {
        1 | 2 | 3 | 4 => tag == tags::FIELD_REF,
        5 | 8 => tag == tags::METHOD_REF,
        6 | 7 => tag == tags::METHOD_REF || tag == tags::INTERFACE_METHOD_REF,
        9 => tag == tags::INTERFACE_METHOD_REF,
        _ => false,
    }
}

fn handle_names(kind: u8, name: NameForms) -> bool
    ensures { (text : List ℕ) → name ≡ name_forms_in text → result ≡ names_for_handle kind text }
{
    match kind {
        8 => name.init,
        5 | 6 | 7 | 9 => !name.init,
        _ => true,
    }
}

fn handle_fault(kind: u8, tag: u8, name: NameForms) -> Option<Reason>
    ensures { (text : List ℕ) → name ≡ name_forms_in text → result ≡ fault_of_handle kind tag text }
{
    if !handle_fits(kind, tag) {
        return Some(Reason::BadIndex);
    }
    if !handle_names(kind, name) {
        return Some(Reason::BadName);
    }
    None
}

fn field_fault(descriptor: DescriptorForms) -> Option<Reason>
    ensures { result ≡ want descriptor.field Reason.BadDescriptor None }
{
    if descriptor.field {
        None
    } else {
        Some(Reason::BadDescriptor)
    }
}

fn shape_fault(descriptor: DescriptorForms) -> Option<Reason>
    ensures { result ≡ want descriptor.method Reason.BadDescriptor None }
{
    if descriptor.method {
        None
    } else {
        Some(Reason::BadDescriptor)
    }
}

/// The first reason against what an entry names.
#[tactic(auto, unfolding(jc_desc::specs::PoolSteps::meaning_fault))]
fn meaning(slots: &[Slot<'_>], known: &mut Forms, slot: Slot<'_>) -> Option<Reason>
    requires { AreForms (slots_of slots.now) known.old }
    ensures known { AreForms (slots_of slots.now) known.new }
    ensures reason { result ≡ meaning_fault (slots_of slots.now) (slot_of slot.entry) }
{
    match slot.tag {
        tags::CLASS => class_fault(known.class(slots, first(slot))),
        tags::NAME_AND_TYPE => {
            let name = known.name(slots, first(slot));
            pair_fault(name, known.descriptor(slots, second(slot)))
        }
        tags::FIELD_REF => field_fault(known.descriptor(slots, second(pair(slots, slot)))),
        tags::METHOD_REF => {
            let named = pair(slots, slot);
            let name = known.name(slots, first(named));
            let fits = constructs(slots, known, name, named);
            method_fault(false, name, known.descriptor(slots, second(named)), fits)
        }
        tags::INTERFACE_METHOD_REF => {
            let named = pair(slots, slot);
            let name = known.name(slots, first(named));
            let fits = constructs(slots, known, name, named);
            method_fault(true, name, known.descriptor(slots, second(named)), fits)
        }
        tags::METHOD_HANDLE => {
            let member = at(slots, target(slot));
            let name = known.name(slots, first(pair(slots, member)));
            handle_fault(kind(slot), member.tag, name)
        }
        tags::METHOD_TYPE => shape_fault(known.descriptor(slots, first(slot))),
        tags::DYNAMIC => field_fault(known.descriptor(slots, second(pair(slots, slot)))),
        tags::INVOKE_DYNAMIC => shape_fault(known.descriptor(slots, second(pair(slots, slot)))),
        _ => None,
    }
}

fn first_reference_fault(slots: &[Slot<'_>]) -> Option<Fault>
    ensures { result ≡ first_fault (reference_fault (slots_of slots.now)) (slots_of slots.now) }
{
    for slot in slots {
        if !refers(slots, *slot) {
            return Some(Fault {
                left: slot.left,
                reason: Reason::BadIndex,
            });
        }
    }
    None
}

/// The first fault in a reference, wherever it stands, or else this one in what an entry names.
#[cold]
fn reference_fault_or(slots: &[Slot<'_>], sense: Fault) -> Option<Fault>
    ensures { result ≡ or_fault (first_fault (reference_fault (slots_of slots.now)) (slots_of slots.now)) (Some sense) }
{
    match first_reference_fault(slots) {
        Some(fault) => Some(fault),
        None => Some(sense),
    }
}

/// The first fault in a reference, or where there is none the first in what entries name. One pass
/// looks for both, and only where an entry names what it may not are the references behind it looked
/// at for themselves.
fn first_link_fault(slots: &[Slot<'_>], known: &mut Forms) -> Option<Fault>
    requires { AreForms (slots_of slots.now) known.old }
    ensures { result ≡ fault_of_links (slots_of slots.now) }
{
    for slot in slots {
        if slot.tag == tags::UTF8 {
            continue;
        }
        if !refers(slots, *slot) {
            return Some(Fault {
                left: slot.left,
                reason: Reason::BadIndex,
            });
        }
        if let Some(reason) = meaning(slots, known, *slot) {
            return reference_fault_or(
                slots,
                Fault {
                    left: slot.left,
                    reason,
                },
            );
        }
    }
    None
}

/// The first fault in what the entries name: references over all entries first, and only then
/// names, descriptors and handles. Takes memory for what the texts are.
pub(crate) fn links_fault(alloc: Global, slots: &[Slot<'_>]) -> Result<Option<Fault>, AllocError>
    ensures { IfOk result (λ fault. fault ≡ fault_of_links (slots_of slots.now)) }
{
    let mut known = Forms::new(alloc, slots)?;
    Ok(first_link_fault(slots, &mut known))
}
