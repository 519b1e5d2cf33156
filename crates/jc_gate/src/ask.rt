//! Asking gates by their names.
ghost use Rattle.std.specs.Prelude.{◌≡◌, ◌≤◌, map};
ghost use Rattle.std.specs.Option.{option_map, IfSome};
ghost use Rattle.std.specs.Str.{bytes_eq};
ghost use Rattle.jc_gate.specs.Gates.{IsStep, gate_of, told_to as told_of, is_known as has_gate, first_unknown as first_unknown_of, is_selected as selected, all_pass as pass_all};
ghost use Rattle.jc_gate.specs.Seen.{informed_by};

use crate::gate::Gate;
use crate::told::Told;

// The number that says to the gate `calls` that nothing ends otherwise.
const CLEAR: u8 = 1;

fn has_name(gate: &Box<dyn Gate>, name: &str) -> bool
    ensures { result ≡ bytes_eq (label gate.now) name.now }
{
    gate.name() == name
}

fn tell(gate: &mut Box<dyn Gate>, step: u8)
    requires { IsStep step }
    ensures state { state gate.new ≡ informed gate.old (state gate.old) step }
    ensures after { after gate.new ≡ after gate.old }
    ensures pass { pass gate.new ≡ pass gate.old }
{
    gate.tell(step);
}

// Tells it the step, where there is one.
fn tell_if_some(gate: &mut Box<dyn Gate>, step: Option<u8>)
    requires { IfSome step IsStep }
    ensures state { state gate.new ≡ informed_by (informed gate.old) (state gate.old) step }
    ensures after { after gate.new ≡ after gate.old }
    ensures pass { pass gate.new ≡ pass gate.old }
{
    match step {
        Some(step) => tell(gate, step),
        None => {}
    }
}

fn see(gate: &mut Box<dyn Gate>, rule: u8)
    ensures label { label gate.new ≡ label gate.old }
    ensures state { state gate.new ≡ after gate.old (state gate.old) rule }
    ensures after { after gate.new ≡ after gate.old }
    ensures pass { pass gate.new ≡ pass gate.old }
{
    gate.see(rule);
}

fn is_passed(gate: &Box<dyn Gate>) -> bool
    ensures { result ≡ pass gate.now (state gate.now) }
{
    gate.passes()
}

// Whether one of the gates has this name.
fn is_known(gates: &[Box<dyn Gate>], name: &str) -> bool
    ensures { result ≡ has_gate (map (λ gate. gate_of (⟦<dyn Gate as Gate>⟧ gate.vtable) gate.value) gates.now) name.now }
{
    for gate in gates {
        if has_name(gate, name) {
            return true;
        }
    }
    false
}

/// The first of the names that no gate has.
pub fn first_unknown<'a>(gates: &[Box<dyn Gate>], names: &[&'a str]) -> Option<&'a str>
    ensures { option_map (λ name. name.now) result ≡ first_unknown_of (map (λ gate. gate_of (⟦<dyn Gate as Gate>⟧ gate.vtable) gate.value) gates.now) (map (λ name. name.now) names.now) }
{
    for name in names {
        if !is_known(gates, name) {
            return Some(*name);
        }
    }
    None
}

// Whether the gate is asked for by one of these names.
fn is_asked(gate: &Box<dyn Gate>, names: &[&str]) -> bool
    ensures { result ≡ selected (map (λ name. name.now) names.now) (gate_of (⟦<dyn Gate as Gate>⟧ gate.now.vtable) gate.now.value) }
{
    for name in names {
        if has_name(gate, name) {
            return true;
        }
    }
    false
}

// What the gate is told before it sees a rule.
fn told_to(gate: &Box<dyn Gate>, told: Told) -> Option<u8>
    requires { IfSome told.step IsStep }
    ensures value { result ≡ told_of told (label gate.now) }
    ensures step { IfSome result IsStep }
{
    if !has_name(gate, "calls") {
        return told.step;
    }
    if told.clear { Some(CLEAR) } else { None }
}

// Whether the gate passes once it is told the number, where there is one, and has seen the rules in their
// order.
fn ask(gate: Box<dyn Gate>, step: Option<u8>, rules: &[u8]) -> bool
    requires { IfSome step IsStep }
    ensures { result ≡ (gate_of (⟦<dyn Gate as Gate>⟧ gate.vtable) gate.value).passes step rules.now }
{
    let mut gate = gate;
    tell_if_some(&mut gate, step);
    for rule in rules {
        see(&mut gate, *rule);
    }
    is_passed(&gate)
}

/// Whether each gate that is asked for by one of the names passes, once it is told what it has to be, and
/// has seen the rules in their order: the gate `calls` is told 1 where nothing ends otherwise, and every
/// other one the step, where there is one. All gates are dropped.
pub fn all_pass(gates: Vec<Box<dyn Gate>>, names: &[&str], told: Told, rules: &[u8]) -> bool
    requires { IfSome told.step IsStep }
    ensures { result ≡ pass_all (map (λ gate. gate_of (⟦<dyn Gate as Gate>⟧ gate.vtable) gate.value) gates.items) (map (λ name. name.now) names.now) told rules.now }
{
    let mut left = gates;
    let mut all = true;
    while !left.is_empty() {
        let gate = left.remove(0);
        let step = told_to(&gate, told);
        if is_asked(&gate, names) && !ask(gate, step, rules) {
            all = false;
        }
    }
    all
}
