//! Which lines explain that an item isn't Ok, though the class that it names loads.
ghost use Rattle.std.specs.Prelude.{◌≡◌};
ghost use Rattle.jc_facts.specs.Names.{same, same_key};
ghost use Rattle.jc_facts.specs.Options.{some_and};
ghost use Rattle.jc_facts.specs.client.Outcome.{init_key};
ghost use Rattle.jc_used.specs.Explains.{explains_member, explains_inherited, explains_constant, explains_capture, explains_key, explains_kind, explains_use, is_line_on_init, explains_new, explains_init, is_from, is_to, explains_assign, explains_special};

use crate::errors::{is_error, is_new, names_interface};
use crate::line::Line;
use crate::ties::{Ties, is_class};
use jc_base::name::Name;
use jc_facts::act::Act;
use jc_facts::key::Key;
use jc_facts::link_error::LinkError;
use jc_facts::rule_numbers::{
    CAPTURE_ADDED, CLASS_GONE, CONSTANT_ADDED, CONSTRUCTOR_CLOSED, FIELD_CLOSED,
    INTERFACE_BECAME_CLASS, INTERFACE_METHOD_LOST, METHOD_CLOSED, SUPERCLASS_LOST,
};

// A member that is gone or closed.
fn explains_member(ties: &Ties<'_>, line: &Line, act: Act, error: LinkError) -> bool
    ensures { result ≡ explains_member ties.now line.now act error }
{
    let finding = &line.finding;
    (finding.rule == FIELD_CLOSED || finding.rule == METHOD_CLOSED)
        && is_error(finding.error, error)
        && (is_class(ties.class, &finding.class) || ties.above.names(&finding.class))
        && (!finding.act.is_put() || act.is_put())
}

// A method that an interface lacks.
fn explains_inherited(ties: &Ties<'_>, line: &Line, error: LinkError) -> bool
    ensures { result ≡ explains_inherited ties.now line.now error }
{
    let finding = &line.finding;
    finding.rule == INTERFACE_METHOD_LOST
        && is_error(finding.error, error)
        && ties.above.implements(&finding.class)
}

// A constant that an interface has now.
fn explains_constant(ties: &Ties<'_>, line: &Line, act: Act, error: LinkError) -> bool
    ensures { result ≡ explains_constant ties.now line.now act error }
{
    let finding = &line.finding;
    finding.rule == CONSTANT_ADDED
        && ties.above.implements(&finding.class)
        && (is_error(finding.error, error)
            || (act.is_put() && is_error(LinkError::IllegalAccessError, error)))
}

// A method of the superclass that is found first.
fn explains_capture(ties: &Ties<'_>, line: &Line, error: LinkError) -> bool
    ensures { result ≡ explains_capture ties.now line.now error }
{
    let finding = &line.finding;
    finding.rule == CAPTURE_ADDED
        && is_error(finding.error, error)
        && ties.chain.extends(&finding.class)
}

fn explains_key(ties: &Ties<'_>, line: &Line, act: Act, error: LinkError) -> bool
    ensures { result ≡ explains_key ties.now line.now act error }
{
    explains_member(ties, line, act, error)
        || explains_inherited(ties, line, error)
        || explains_constant(ties, line, act, error)
        || explains_capture(ties, line, error)
}

// An interface that became a class.
fn explains_kind(ties: &Ties<'_>, line: &Line, act: Act, error: LinkError) -> bool
    ensures { result ≡ explains_kind ties.now line.now act error }
{
    let finding = &line.finding;
    finding.rule == INTERFACE_BECAME_CLASS
        && is_error(LinkError::IncompatibleClassChangeError, error)
        && names_interface(act)
        && is_class(ties.class, &finding.class)
}

// Whether the line is on this key.
fn is_on_key(line: &Line, key: &Key) -> bool
    ensures { result ≡ some_and (same_key key.now) line.now.finding.key }
{
    match &line.finding.key {
        None => false,
        Some(of) => key.name == of.name && key.descriptor == of.descriptor,
    }
}

/// Whether the line explains an act on a member.
pub(crate) fn explains_use(
    ties: &Ties<'_>,
    line: &Line,
    act: Act,
    key: &Key,
    error: LinkError,
) -> bool
    ensures { result ≡ explains_use ties.now line.now act key.now error }
{
    ties.reached
        && ((is_on_key(line, key) && explains_key(ties, line, act, error))
            || explains_kind(ties, line, act, error))
}

// Whether the line is on the initializer of this descriptor.
fn is_on_init(line: &Line, descriptor: &Name) -> bool
    ensures { result ≡ some_and (same_key (init_key descriptor.now)) line.now.finding.key }
{
    match &line.finding.key {
        None => false,
        Some(of) => b"<init>".as_slice() == of.name.as_bytes() && *descriptor == of.descriptor,
    }
}

// Whether the line is on this initializer of the class.
fn is_line_on_init(ties: &Ties<'_>, line: &Line, descriptor: &Name) -> bool
    ensures { result ≡ is_line_on_init ties.now line.now descriptor.now }
{
    let finding = &line.finding;
    ties.reached
        && finding.rule == CONSTRUCTOR_CLOSED
        && is_class(ties.class, &finding.class)
        && is_on_init(line, descriptor)
}

/// Whether the line explains a `new`.
pub(crate) fn explains_new(
    ties: &Ties<'_>,
    line: &Line,
    descriptor: &Name,
    error: LinkError,
) -> bool
    ensures { result ≡ explains_new ties.now line.now descriptor.now error }
{
    is_line_on_init(ties, line, descriptor)
        && is_new(line.finding.act)
        && (is_error(line.finding.error, error) || is_error(LinkError::VerifyError, error))
}

/// Whether the line explains the call of an initializer of the superclass.
pub(crate) fn explains_init(
    ties: &Ties<'_>,
    line: &Line,
    descriptor: &Name,
    error: LinkError,
) -> bool
    ensures { result ≡ explains_init ties.now line.now descriptor.now error }
{
    is_line_on_init(ties, line, descriptor) && is_error(line.finding.error, error)
}

// Whether the value is of this class, or of a client at whose superclass the library begins with it.
fn is_from(ties: &Ties<'_>, name: &Name) -> bool
    ensures { result ≡ is_from ties.now name.now }
{
    is_class(ties.from, name) || ties.from_chain.extends(name)
}

fn is_to(ties: &Ties<'_>, name: &Name) -> bool
    ensures { result ≡ is_to ties.now name.now }
{
    is_class(ties.to, name)
}

// Whether the line's target is the class that is assigned to.
fn is_to_target(ties: &Ties<'_>, line: &Line) -> bool
    ensures { result ≡ some_and (is_to ties.now) line.now.finding.target }
{
    match &line.finding.target {
        None => false,
        Some(target) => is_to(ties, target),
    }
}

/// Whether the line explains an assignment.
pub(crate) fn explains_assign(ties: &Ties<'_>, line: &Line, error: LinkError) -> bool
    ensures { result ≡ explains_assign ties.now line.now error }
{
    let finding = &line.finding;
    is_error(LinkError::VerifyError, error)
        && ((finding.rule == SUPERCLASS_LOST
            && is_to_target(ties, line)
            && is_from(ties, &finding.class))
            || ((finding.rule == INTERFACE_BECAME_CLASS && is_to(ties, &finding.class))
                || (finding.rule == CLASS_GONE
                    && is_error(LinkError::NoClassDefFoundError, finding.error)
                    && (is_to(ties, &finding.class) || is_from(ties, &finding.class)))))
}

// Whether the line's target is the class that the item names.
fn is_target_named(ties: &Ties<'_>, line: &Line) -> bool
    ensures { result ≡ some_and (λ t. some_and (λ x. same x t) ties.now.«class») line.now.finding.target }
{
    match &line.finding.target {
        None => false,
        Some(target) => is_class(ties.class, target),
    }
}

/// Whether the line explains that the class of `invokespecial` is no superclass.
pub(crate) fn explains_special(ties: &Ties<'_>, line: &Line, act: Act, error: LinkError) -> bool
    ensures { result ≡ explains_special ties.now line.now act error }
{
    let finding = &line.finding;
    act.is_invokespecial()
        && is_error(LinkError::VerifyError, error)
        && finding.rule == SUPERCLASS_LOST
        && is_target_named(ties, line)
        && ties.own.extends(&finding.class)
}
