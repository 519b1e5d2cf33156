//! Errors and acts that are the same.
ghost use Rattle.std.specs.Prelude.{◌≡◌};
ghost use Rattle.jc_facts.specs.client.Acts.{form_of};
ghost use Rattle.jc_used.specs.Explains.{number_of_error, same_error, is_interface_form, is_new};

use jc_facts::act::{Act, Form};
use jc_facts::link_error::LinkError;

fn error_number(error: LinkError) -> u8
    ensures { result ≡ number_of_error error }
{
    match error {
        LinkError::NoClassDefFoundError => 0,
        LinkError::ClassCircularityError => 1,
        LinkError::IllegalAccessError => 2,
        LinkError::IncompatibleClassChangeError => 3,
        LinkError::NoSuchFieldError => 4,
        LinkError::NoSuchMethodError => 5,
        LinkError::InstantiationError => 6,
        LinkError::VerifyError => 7,
    }
}

pub(crate) fn is_error(error: LinkError, wanted: LinkError) -> bool
    ensures { result ≡ same_error error wanted }
{
    error_number(error) == error_number(wanted)
}

/// Whether the act names a method of an interface (JVMS 4.4.2).
pub(crate) fn names_interface(act: Act) -> bool
    ensures { result ≡ is_interface_form (form_of act) }
{
    match act.form() {
        Form::Interface => true,
        Form::Field => false,
        Form::Method => false,
    }
}

/// Whether the act makes an object.
pub(crate) fn is_new(act: Act) -> bool
    ensures { result ≡ is_new act }
{
    match act {
        Act::NewObject => true,
        _ => false,
    }
}
