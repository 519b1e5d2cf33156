//! The gate of collisions.
ghost use Rattle.std.specs.Prelude.{◌≡◌, refl, codes, nat_eq, if◌then◌else◌};
ghost use Rattle.jc_gate.specs.Gates.{gate_of};
ghost use Rattle.jc_gate.specs.Meanings.{IsGateBy, has_no_collision};
ghost use Rattle.jc_gate.specs.Rules.{is_of_collision};

use crate::gate::Gate;

/// The gate `collisions`: it passes while no rule of a collision was seen.
#[derive(Drop)]
pub struct Collisions {
    // Whether a rule of a collision was seen.
    met: bool,
}

impl Collisions {
    /// The gate before any rule is seen.
    pub fn new() -> Collisions
        ensures state { ⟦<Collisions as Gate>⟧.state result ≡ 0 }
        ensures gate { IsGateBy (codes "collisions") has_no_collision (gate_of ⟦<Collisions as Gate>⟧ result) }
    {
        Collisions { met: false }
    }
}

impl Gate for Collisions {
    ghost label = { λ gate. codes "collisions" };

    ghost state = { λ gate. if gate.met then 1 else 0 };

    ghost informed = { λ gate state step. state };

    ghost after = { λ gate state rule. if is_of_collision rule then 1 else state };

    ghost pass = { λ gate state. nat_eq state 0 };

    ghost one_informed = { λ a b. refl };

    ghost one_after = { λ a b. refl };

    ghost one_pass = { λ a b. refl };

    fn name(&self) -> &str {
        "collisions"
    }

    fn tell(&mut self, _step: u8) {}

    fn see(&mut self, rule: u8) {
        if (10..=12).contains(&rule) {
            self.met = true;
        }
    }

    fn passes(&self) -> bool {
        !self.met
    }
}
