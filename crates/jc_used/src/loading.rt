//! Which lines explain that a class doesn't load.
ghost use Rattle.std.specs.Prelude.{◌≡◌, map, option_map};
ghost use Rattle.std.specs.List.{list_any, find as first_where};
ghost use Rattle.jc_facts.specs.Names.{is_key};
ghost use Rattle.jc_facts.specs.Options.{some_and};
ghost use Rattle.jc_facts.specs.world.World.{own_method_of};
ghost use Rattle.jc_used.specs.Explains.{is_shut_out, overrides_by, explains_gone, explains_closed, explains_final, explains_load};

use crate::above::is_below;
use crate::errors::is_error;
use crate::line::Line;
use crate::ties::{Ties, is_class};
use jc_facts::class_facts::{ClassFacts, Member};
use jc_facts::flags::{is_private, is_static};
use jc_facts::key::Key;
use jc_facts::link_error::LinkError;
use jc_facts::rule_numbers::{
    CLASS_CLOSED, CLASS_GONE, FINAL_ADDED, INTERFACE_BECAME_CLASS, METHOD_MADE_FINAL,
};

// Whether the client stands below a class that doesn't let it in.
fn is_shut_out(line: &Line, class: &ClassFacts) -> bool
    ensures { result ≡ is_shut_out line.now class.now }
{
    is_below(class, &line.finding.class) && !line.lets_in.as_slice().contains(&class.name)
}

fn is_any_shut_out(line: &Line, classes: &[&ClassFacts]) -> bool
    ensures { result ≡ list_any (is_shut_out line.now) (map (λ c. c.now) classes.now) }
{
    for class in classes {
        if is_shut_out(line, class) {
            return true;
        }
    }
    false
}

fn has_key(key: &Key, member: &Member) -> bool
    ensures { result ≡ is_key key.now member.now }
{
    member.name == key.name && member.descriptor == key.descriptor
}

// The method of the key that the class itself declares (JVMS 4.6).
fn own_method<'a>(class: &'a ClassFacts, key: &Key) -> Option<&'a Member>
    ensures { option_map (λ m. m.now) result ≡ own_method_of class.now key.now }
{
    for member in class.methods.as_slice() {
        if has_key(key, member) {
            return Some(member);
        }
    }
    None
}

// Whether the client declares the key as a method that overrides (JVMS 5.4.5).
fn overrides(key: &Key, class: &ClassFacts) -> bool
    ensures { result ≡ overrides_by key.now class.now }
{
    match own_method(class, key) {
        None => false,
        Some(member) => !is_static(member.flags) && !is_private(member.flags),
    }
}

fn any_overrides(key: &Key, classes: &[&ClassFacts]) -> bool
    ensures { result ≡ list_any (overrides_by key.now) (map (λ c. c.now) classes.now) }
{
    for class in classes {
        if overrides(key, class) {
            return true;
        }
    }
    false
}

// A class that can't be used.
fn explains_gone(ties: &Ties<'_>, line: &Line, error: LinkError) -> bool
    ensures { result ≡ explains_gone ties.now line.now error }
{
    let finding = &line.finding;
    finding.rule == CLASS_GONE
        && is_error(finding.error, error)
        && (is_class(ties.class, &finding.class) || ties.above.names(&finding.class))
}

// A class below which a client can't stand.
fn explains_closed(ties: &Ties<'_>, line: &Line, error: LinkError) -> bool
    ensures { result ≡ explains_closed ties.now line.now error }
{
    let finding = &line.finding;
    is_error(LinkError::IncompatibleClassChangeError, error)
        && ((finding.rule == CLASS_CLOSED && is_any_shut_out(line, ties.above.as_slice()))
            || (finding.rule == INTERFACE_BECAME_CLASS && ties.above.implements(&finding.class)))
}

// Whether the line's method is one that a client overrides.
fn is_overridden(ties: &Ties<'_>, line: &Line) -> bool
    ensures { result ≡ some_and (λ k. list_any (overrides_by k) ties.now.chain) line.now.finding.key }
{
    match &line.finding.key {
        None => false,
        Some(key) => any_overrides(key, ties.chain.as_slice()),
    }
}

// A method that is final now.
fn explains_final(ties: &Ties<'_>, line: &Line, error: LinkError) -> bool
    ensures { result ≡ explains_final ties.now line.now error }
{
    let finding = &line.finding;
    (finding.rule == METHOD_MADE_FINAL || finding.rule == FINAL_ADDED)
        && is_error(LinkError::IncompatibleClassChangeError, error)
        && ties.chain.extends(&finding.class)
        && is_overridden(ties, line)
}

/// Whether the line explains that the class doesn't load, or can't be named, with this error.
pub(crate) fn explains_load(ties: &Ties<'_>, line: &Line, error: LinkError) -> bool
    ensures { result ≡ explains_load ties.now line.now error }
{
    explains_gone(ties, line, error)
        || explains_closed(ties, line, error)
        || explains_final(ties, line, error)
}
