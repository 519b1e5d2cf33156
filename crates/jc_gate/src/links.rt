//! The gate of the verdict.
ghost use Rattle.std.specs.Prelude.{◌≡◌, refl, codes, nat_eq, if◌then◌else◌};
ghost use Rattle.jc_gate.specs.Gates.{gate_of};
ghost use Rattle.jc_gate.specs.Meanings.{IsGateBy, has_no_finding};
ghost use Rattle.jc_gate.specs.Rules.{is_of_finding};

use crate::gate::Gate;

/// The gate `links`: it passes while no rule of a finding was seen, so where each client that links
/// with the old release links with the new one.
#[derive(Drop)]
pub struct Links {
    // Whether a rule of a finding was seen.
    broken: bool,
}

impl Links {
    /// The gate before any rule is seen.
    pub fn new() -> Links
        ensures state { ⟦<Links as Gate>⟧.state result ≡ 0 }
        ensures gate { IsGateBy (codes "links") has_no_finding (gate_of ⟦<Links as Gate>⟧ result) }
    {
        Links { broken: false }
    }
}

impl Gate for Links {
    ghost label = { λ gate. codes "links" };

    ghost state = { λ gate. if gate.broken then 1 else 0 };

    ghost informed = { λ gate state step. state };

    ghost after = { λ gate state rule. if is_of_finding rule then 1 else state };

    ghost pass = { λ gate state. nat_eq state 0 };

    ghost one_informed = { λ a b. refl };

    ghost one_after = { λ a b. refl };

    ghost one_pass = { λ a b. refl };

    fn name(&self) -> &str {
        "links"
    }

    fn tell(&mut self, _step: u8) {}

    fn see(&mut self, rule: u8) {
        if (1..=9).contains(&rule) {
            self.broken = true;
        }
    }

    fn passes(&self) -> bool {
        !self.broken
    }
}
