//! The gate of the versions.
ghost use Rattle.std.specs.Prelude.{◌≡◌, refl, codes};
ghost use Rattle.jc_gate.specs.Gates.{gate_of};
ghost use Rattle.jc_version.specs.LevelNumbers.{number_of, number_or_none};
ghost use Rattle.jc_version.specs.Needs.{IsVersionGate, state_by, informed_version, after_version, passes_version};

use crate::level::Level;
use jc_gate::gate::Gate;

/// The gate `version`: it passes where the step between the versions that it is told is at least what
/// the rules that it saw need: 3 of a finding, 2 of a collision and else 1. Untold it never passes.
#[derive(Drop)]
pub struct VersionGate {
    // What the rules that were seen need.
    need: Level,
    // The step that it was told.
    step: Option<Level>,
}

impl VersionGate {
    /// The gate before it is told a step, or any rule is seen.
    pub fn new() -> VersionGate
        ensures state { ⟦<VersionGate as Gate>⟧.state result ≡ 4 }
        ensures gate { IsVersionGate (gate_of ⟦<VersionGate as Gate>⟧ result) }
    {
        VersionGate {
            need: Level::Patch,
            step: None,
        }
    }

    fn passes_now(&self) -> bool
        ensures { result ≡ passes_version (state_by (number_of self.now.need) (number_or_none self.now.step)) }
    {
        match self.step {
            Some(step) => self.need.number() <= step.number(),
            None => false,
        }
    }
}

impl Gate for VersionGate {
    ghost label = { λ gate. codes "version" };

    ghost state = { λ gate. state_by (number_of gate.need) (number_or_none gate.step) };

    ghost informed = { λ gate state step. informed_version state step };

    ghost after = { λ gate state rule. after_version state rule };

    ghost pass = { λ gate state. passes_version state };

    ghost one_informed = { λ a b. refl };

    ghost one_after = { λ a b. refl };

    ghost one_pass = { λ a b. refl };

    fn name(&self) -> &str {
        "version"
    }

    fn tell(&mut self, step: u8) {
        self.step = Some(Level::of_number(step));
    }

    fn see(&mut self, rule: u8) {
        self.need = self.need.or(Level::of_rule(rule));
    }

    fn passes(&self) -> bool {
        self.passes_now()
    }
}
