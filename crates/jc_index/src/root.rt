//! What a platform's `java/lang/Object` has to be.
ghost use Rattle.std.specs.Prelude.{◌≡◌};
ghost use Rattle.jc_index.specs.Root.{flags_are_wrong, declares_public_init, faulty_part, fault_of_root};

use crate::plain::named;
use jc_facts::class_facts::ClassFacts;
use jc_facts::flags::{is_final, is_interface, is_public};

/// The part of a platform's `java/lang/Object` that isn't as it has to be.
#[derive(Clone, Copy, PartialEq, Eq, Debug)]
pub enum RootPart {
    /// The platform has no such class.
    Missing,
    /// It isn't public, or it is final or an interface (JVMS 4.1).
    Flags,
    /// It names a superclass (JVMS 4.1).
    Super,
    /// It names an interface.
    Interfaces,
    /// It declares a field.
    Fields,
    /// It has permitted subclasses (JVMS 4.7.31).
    Permits,
    /// It declares no public `<init>()V`.
    Init,
}

const OBJECT: &[u8] = b"java/lang/Object";

fn has_wrong_flags(root: &ClassFacts) -> bool
    ensures { result ≡ flags_are_wrong root.now }
{
    !is_public(root.flags) || is_final(root.flags) || is_interface(root.flags)
}

fn has_public_init(root: &ClassFacts) -> bool
    ensures { result ≡ declares_public_init root.now }
{
    for method in root.methods.as_slice() {
        if method.name.as_bytes() == b"<init>".as_slice()
            && method.descriptor.as_bytes() == b"()V".as_slice()
        {
            return is_public(method.flags);
        }
    }
    false
}

// The first part that isn't as it has to be.
#[tactic(auto, unfolding(crate::specs::Root::faulty_part, jc_facts::specs::Options::or_else))]
fn root_part(root: &ClassFacts) -> Option<RootPart>
    ensures { result ≡ faulty_part root.now }
{
    if has_wrong_flags(root) {
        Some(RootPart::Flags)
    } else if root.superclass.is_some() {
        Some(RootPart::Super)
    } else if !root.interfaces.as_slice().is_empty() {
        Some(RootPart::Interfaces)
    } else if !root.fields.as_slice().is_empty() {
        Some(RootPart::Fields)
    } else if root.permits.is_some() {
        Some(RootPart::Permits)
    } else if !has_public_init(root) {
        Some(RootPart::Init)
    } else {
        None
    }
}

/// The first part of the platform's `java/lang/Object` that isn't as it has to be; none where all
/// are (JVMS 4.1, 5.3.5).
#[tactic(auto, unfolding(crate::specs::Root::fault_of_root))]
pub fn root_fault(platform: &[ClassFacts]) -> Option<RootPart>
    ensures { result ≡ fault_of_root platform.now }
{
    match named(platform, OBJECT) {
        None => Some(RootPart::Missing),
        Some(root) => root_part(root),
    }
}
