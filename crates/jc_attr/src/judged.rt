//! Long descriptors that were judged.
ghost use Rattle.std.specs.Prelude.{◌≡◌, ◌&&◌, [], nat_eq, IfSome};
ghost use Rattle.std.specs.Cmp.Lexicographic.{pointwise};
ghost use Rattle.std.specs.Bool.{beq};
ghost use Rattle.jc_desc.specs.Names.{is_init_name};
ghost use Rattle.jc_facts.specs.Flags.{static_flag};
ghost use Rattle.jc_facts.specs.file.Rules.{member_descriptor_fits};

use jc_desc::names::is_init;
use jc_facts::flags::is_static;
use jc_facts::rules::{is_field_descriptor, is_method_descriptor};
use jc_pool::long_texts::{LONG, MOST_KEPT};
use std::alloc::Global;
use std::marker::Model;

/// A long descriptor, what it was judged as, and the answer.
#[derive(Drop)]
struct Judgement<'a> {
    descriptor: &'a [u8],
    // Whether it was judged as that of a method, of an instance initializer, of a static method.
    method: bool,
    init: bool,
    of_class: bool,
    fits: bool,
}

impl<'a> Model for Judgement<'a> {
    ghost use Rattle.jc_attr.specs.steps.Judgements.{JudgementOf, IsRight};
    ghost use Rattle.jc_attr.specs.steps.JudgementFields.{judgement_of};

    ghost Value = { JudgementOf };

    ghost view = { judgement_of };

    ghost invariant = { λ j. IsRight (judgement_of j) };
}

// Whether a member of this name and these flags may have the descriptor.
fn is_descriptor(method: bool, name: &[u8], flags: u16, descriptor: &[u8]) -> bool
    ensures { result ≡ member_descriptor_fits method name.now flags descriptor.now }
{
    if method {
        is_method_descriptor(name, flags, descriptor)
    } else {
        is_field_descriptor(descriptor)
    }
}

impl<'a> Judgement<'a> {
    // The answer of the descriptor as that of such a member.
    fn new(method: bool, name: &[u8], flags: u16, descriptor: &'a [u8], fits: bool) -> Judgement<'a>
        requires { fits ≡ member_descriptor_fits method name.now flags descriptor.now }
        ensures { result ≡ record { descriptor = descriptor.now; method = method; init = is_init_name name.now; of_class = static_flag flags; fits = fits } }
    {
        Judgement {
            descriptor,
            method,
            init: is_init(name),
            of_class: is_static(flags),
            fits,
        }
    }

    // Whether it was judged as that of such a member.
    fn is_of(&self, method: bool, name: &[u8], flags: u16, descriptor: &[u8]) -> bool
        ensures { result ≡ (beq self.now.method method && beq self.now.init (is_init_name name.now) && beq self.now.of_class (static_flag flags) && pointwise nat_eq self.now.descriptor descriptor.now) }
    {
        self.method == method
            && self.init == is_init(name)
            && self.of_class == is_static(flags)
            && self.descriptor == descriptor
    }

    // The answer, where it was judged as that of such a member.
    fn answer(&self, method: bool, name: &[u8], flags: u16, descriptor: &[u8]) -> Option<bool>
        ensures { IfSome result (λ fits. fits ≡ member_descriptor_fits method name.now flags descriptor.now) }
    {
        if self.is_of(method, name, flags, descriptor) {
            Some(self.fits)
        } else {
            None
        }
    }
}

/// The answers of long descriptors of one list of members. So members that share such a descriptor take
/// the time of one.
#[derive(Drop)]
pub struct Judged<'a> {
    kept: Vec<Judgement<'a>>,
}

impl<'a> Judged<'a> {
    /// No answer is known yet.
    pub fn new(alloc: Global) -> Judged<'a>
        ensures { result.kept.items ≡ [] }
    {
        Judged {
            kept: Vec::new(alloc),
        }
    }

    // The answer of the descriptor as that of such a member, where it is known.
    fn known(&self, method: bool, name: &[u8], flags: u16, descriptor: &[u8]) -> Option<bool>
        ensures { IfSome result (λ fits. fits ≡ member_descriptor_fits method name.now flags descriptor.now) }
    {
        for judgement in self.kept.as_slice() {
            let answer = judgement.answer(method, name, flags, descriptor);
            if answer.is_some() {
                return answer;
            }
        }
        None
    }

    // Keeps the answer, unless there are many. Where there is no memory for it, the descriptor is judged
    // again.
    fn keep(&mut self, judgement: Judgement<'a>) {
        if self.kept.len() < MOST_KEPT {
            match self.kept.push(judgement) {
                Ok(()) => {}
                Err(_) => {}
            }
        }
    }

    /// Whether a method, or where `method` is false a field, of this name and these flags may have the
    /// descriptor.
    pub(crate) fn fits(
        &mut self,
        method: bool,
        name: &[u8],
        flags: u16,
        descriptor: &'a [u8],
    ) -> bool
        ensures { result ≡ member_descriptor_fits method name.now flags descriptor.now }
    {
        if descriptor.len() < LONG {
            return is_descriptor(method, name, flags, descriptor);
        }
        if let Some(fits) = self.known(method, name, flags, descriptor) {
            return fits;
        }
        let fits = is_descriptor(method, name, flags, descriptor);
        self.keep(Judgement::new(method, name, flags, descriptor, fits));
        fits
    }
}
