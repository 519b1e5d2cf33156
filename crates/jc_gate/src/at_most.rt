//! The gate of a number of rules.
ghost use Rattle.std.specs.Prelude.{◌≡◌, ◌≤◌, ◌+◌, ◌-◌, refl, codes, nat_lt};
ghost use Rattle.jc_gate.specs.Gates.{gate_of};
ghost use Rattle.jc_gate.specs.Meanings.{IsGateBy, has_at_most};

use crate::gate::Gate;

/// The gate `few`: it passes while at most a number of rules were seen, of findings and collisions
/// together.
#[derive(Drop)]
pub struct AtMost {
    // One more than how many rules may still be seen; 0 where too many were.
    left: u32,
}

impl AtMost {
    /// The gate of this number of rules, at most 999,999, before any is seen.
    pub fn new(limit: u32) -> AtMost
        requires { limit ≤ 999_999 }
        ensures state { ⟦<AtMost as Gate>⟧.state result ≡ limit + 1 }
        ensures gate { IsGateBy (codes "few") (has_at_most limit) (gate_of ⟦<AtMost as Gate>⟧ result) }
    {
        AtMost { left: limit + 1 }
    }
}

impl Gate for AtMost {
    ghost label = { λ gate. codes "few" };

    ghost state = { λ gate. gate.left };

    ghost informed = { λ gate state step. state };

    ghost after = { λ gate state rule. state - 1 };

    ghost pass = { λ gate state. nat_lt 0 state };

    ghost one_informed = { λ a b. refl };

    ghost one_after = { λ a b. refl };

    ghost one_pass = { λ a b. refl };

    fn name(&self) -> &str {
        "few"
    }

    fn tell(&mut self, _step: u8) {}

    fn see(&mut self, _rule: u8) {
        self.left = self.left.saturating_sub(1);
    }

    fn passes(&self) -> bool {
        self.left > 0
    }
}
