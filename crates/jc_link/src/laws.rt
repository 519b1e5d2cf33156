//! The law of clients' names.
ghost use Rattle.jc_link.specs.Refusals.{NamesAreAllowed};

/// A client's name has no cause against it exactly where it is allowed.
pub fn names_are_allowed()
    ensures { NamesAreAllowed }
{}
