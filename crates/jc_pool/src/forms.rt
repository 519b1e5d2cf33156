//! What the texts of a pool are. A text is looked through only for what an entry asks of it, and then
//! once, however many entries ask, so that a pool is read in a time that grows as its bytes do.
ghost use Rattle.std.specs.Prelude.{◌≡◌, ℕ, List, get_or, None, IfOk};
ghost use Rattle.jc_desc.specs.Pool.{slot_of_index};
ghost use Rattle.jc_pool.specs.steps.Forms.{class_form_in, name_forms_in, descriptor_forms_in, result_form_in, AreForms, AreOf};
ghost use Rattle.jc_pool.specs.Slots.{slots_of};

use crate::entry::{Slot, at};
use jc_desc::method::returns_void;
use jc_desc::names::{is_clinit, is_init, is_member_name};
use jc_desc::pool_texts::{is_class_text, is_field, is_method};
use std::alloc::{AllocError, Global};

/// What entries ask of a text in one role.
pub(crate) trait Form: Copy {
    /// What it is of a text.
    ghost form_in: { List ℕ → Self };

    /// What the text is.
    fn of(text: &[u8]) -> Self
        ensures { result ≡ form_in text.now };
}

/// What is asked of the text of a Class.
#[derive(Clone, Copy, Debug)]
pub struct ClassForm {
    /// The name of a class, or the descriptor of an array.
    pub class: bool,
}

impl Form for ClassForm {
    ghost form_in = { class_form_in };

    fn of(text: &[u8]) -> ClassForm {
        ClassForm {
            class: is_class_text(text),
        }
    }
}

/// What is asked of the name in a NameAndType.
#[derive(Clone, Copy, Debug)]
pub struct NameForms {
    /// The name of a field or of a method.
    pub member: bool,
    /// The name of a method other than `<clinit>`.
    pub method: bool,
    /// `<init>`.
    pub init: bool,
}

impl Form for NameForms {
    ghost form_in = { name_forms_in };

    fn of(text: &[u8]) -> NameForms {
        let of_method = is_member_name(text, true);
        NameForms {
            member: of_method || is_member_name(text, false),
            method: of_method && !is_clinit(text),
            init: is_init(text),
        }
    }
}

/// What is asked of the descriptor in a NameAndType, or of that of a MethodType.
#[derive(Clone, Copy, Debug)]
pub struct DescriptorForms {
    /// The descriptor of a field.
    pub field: bool,
    /// The descriptor of a method.
    pub method: bool,
}

impl Form for DescriptorForms {
    ghost form_in = { descriptor_forms_in };

    fn of(text: &[u8]) -> DescriptorForms {
        DescriptorForms {
            field: is_field(text),
            method: is_method(text),
        }
    }
}

/// What is asked of the descriptor beside the name `<init>`.
#[derive(Clone, Copy, Debug)]
pub struct ResultForm {
    /// The descriptor of a method whose result is `void`.
    pub void: bool,
}

impl Form for ResultForm {
    ghost form_in = { result_form_in };

    fn of(text: &[u8]) -> ResultForm {
        ResultForm {
            void: returns_void(text),
        }
    }
}

/// What is known of the texts, at their indices.
pub(crate) struct Forms {
    pub classes: Vec<Option<ClassForm>>,
    pub names: Vec<Option<NameForms>>,
    pub descriptors: Vec<Option<DescriptorForms>>,
    pub results: Vec<Option<ResultForm>>,
}

// One call at each exit of a function that owns it, where a derived drop is written out.
impl Drop for Forms {
    fn drop(self) {
        let Forms {
            classes: _,
            names: _,
            descriptors: _,
            results: _,
        } = self;
    }
}

/// Nothing known of the texts in one role. Takes memory for the list.
fn nothing_known<F: Form>(alloc: Global, slots: &[Slot<'_>]) -> Result<Vec<Option<F>>, AllocError>
    ensures { IfOk result (λ known. AreOf F.form_in (slots_of slots.now) known.items) }
{
    let known = vec![in alloc; None; slots.len()]?;
    Ok(known)
}

/// What is known of the text at this index.
fn known_at<F: Form>(known: &[Option<F>], index: u16) -> Option<F>
    ensures { result ≡ get_or known.now index None }
{
    let i = index as usize;
    if i < known.len() { known[i] } else { None }
}

/// What the text at this index is, which is looked through only where that isn't known yet.
fn form_at<F: Form>(slots: &[Slot<'_>], known: &mut Vec<Option<F>>, index: u16) -> F
    requires { AreOf F.form_in (slots_of slots.now) known.old.items }
    ensures form { result ≡ F.form_in (slot_of_index (slots_of slots.now) index).body }
    ensures known { AreOf F.form_in (slots_of slots.now) known.new.items }
{
    if let Some(form) = known_at(known.as_slice(), index) {
        return form;
    }
    let form = F::of(at(slots, index).body);
    let i = index as usize;
    if i >= known.len() {
        return form;
    }
    known[i] = Some(form);
    form
}

impl Forms {
    /// Nothing known of the texts. Takes memory for the lists.
    pub(crate) fn new(alloc: Global, slots: &[Slot<'_>]) -> Result<Forms, AllocError>
        ensures { IfOk result (λ known. AreForms (slots_of slots.now) known) }
    {
        Ok(Forms {
            classes: nothing_known(alloc, slots)?,
            names: nothing_known(alloc, slots)?,
            descriptors: nothing_known(alloc, slots)?,
            results: nothing_known(alloc, slots)?,
        })
    }

    /// What the text of a Class is, at this index.
    pub(crate) fn class(&mut self, slots: &[Slot<'_>], index: u16) -> ClassForm
        requires { AreForms (slots_of slots.now) self.old }
        ensures form { result ≡ class_form_in (slot_of_index (slots_of slots.now) index).body }
        ensures known { AreForms (slots_of slots.now) self.new }
    {
        form_at(slots, &mut self.classes, index)
    }

    /// What the name at this index is.
    pub(crate) fn name(&mut self, slots: &[Slot<'_>], index: u16) -> NameForms
        requires { AreForms (slots_of slots.now) self.old }
        ensures form { result ≡ name_forms_in (slot_of_index (slots_of slots.now) index).body }
        ensures known { AreForms (slots_of slots.now) self.new }
    {
        form_at(slots, &mut self.names, index)
    }

    /// What the descriptor at this index is.
    pub(crate) fn descriptor(&mut self, slots: &[Slot<'_>], index: u16) -> DescriptorForms
        requires { AreForms (slots_of slots.now) self.old }
        ensures form { result ≡ descriptor_forms_in (slot_of_index (slots_of slots.now) index).body }
        ensures known { AreForms (slots_of slots.now) self.new }
    {
        form_at(slots, &mut self.descriptors, index)
    }

    /// What the result is of the descriptor at this index.
    pub(crate) fn result(&mut self, slots: &[Slot<'_>], index: u16) -> ResultForm
        requires { AreForms (slots_of slots.now) self.old }
        ensures form { result ≡ result_form_in (slot_of_index (slots_of slots.now) index).body }
        ensures known { AreForms (slots_of slots.now) self.new }
    {
        form_at(slots, &mut self.results, index)
    }
}
