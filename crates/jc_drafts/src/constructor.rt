//! The constructors that planned clients call (JVMS 2.9.1).
ghost use Rattle.std.specs.Prelude.{◌≡◌, true};
ghost use Rattle.std.specs.Option.{option_copied};
ghost use Rattle.jc_promises.specs.plan.PlannedNames.{least_name, constructors, constructor};

use crate::classes::record_of;
use crate::lowest::lowest_with;
use jc_base::name::Name;
use jc_facts::class_facts::Member;
use jc_facts::rules::is_object;
use jc_sides::clients::is_open_init;
use jc_table::table::Table;

// The descriptor of a method that takes nothing and gives nothing.
const TAKES_NOTHING: &[u8] = b"()V";

// The first in byte order of the descriptors of those of the methods that are public or protected
// constructors.
fn first_descriptor(methods: &[Member]) -> Option<&Name>
    ensures { option_copied result ≡ least_name (λ d. true) (constructors methods.now) }
{
    let mut lowest = None;
    for method in methods {
        lowest = lowest_with(lowest, &method.descriptor, is_open_init(method));
    }
    lowest
}

/// The descriptor of the constructor that a client below the class calls: the first in byte order
/// that is public or protected, and of java/lang/Object the one without parameters.
pub fn constructor_of<'a>(table: &'a Table, class: &Name) -> &'a [u8]
    ensures { result.now ≡ constructor table.now «class».now }
{
    if is_object(class.as_bytes()) {
        return TAKES_NOTHING;
    }
    let Some(facts) = record_of(table, class) else {
        return TAKES_NOTHING;
    };
    match first_descriptor(facts.methods.as_slice()) {
        Some(descriptor) => descriptor.as_bytes(),
        None => TAKES_NOTHING,
    }
}
