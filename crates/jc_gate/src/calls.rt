//! The gate of what ends otherwise when it runs.
ghost use Rattle.std.specs.Prelude.{◌≡◌, refl, codes, nat_eq, if◌then◌else◌};
ghost use Rattle.jc_gate.specs.Gates.{gate_of};
ghost use Rattle.jc_gate.specs.Meanings.{IsCallsGate};

use crate::gate::Gate;

/// The gate `calls`: it passes where it is told that nothing ends otherwise when it runs. Untold it never
/// passes. The rules that it sees make no difference.
#[derive(Drop)]
pub struct Calls {
    // Whether it was told so.
    told: bool,
}

impl Calls {
    /// The gate before it is told anything.
    pub fn new() -> Calls
        ensures state { ⟦<Calls as Gate>⟧.state result ≡ 0 }
        ensures gate { IsCallsGate (gate_of ⟦<Calls as Gate>⟧ result) }
    {
        Calls { told: false }
    }
}

impl Gate for Calls {
    ghost label = { λ gate. codes "calls" };

    ghost state = { λ gate. if gate.told then 1 else 0 };

    ghost informed = { λ gate state step. 1 };

    ghost after = { λ gate state rule. state };

    ghost pass = { λ gate state. nat_eq state 1 };

    ghost one_informed = { λ a b. refl };

    ghost one_after = { λ a b. refl };

    ghost one_pass = { λ a b. refl };

    fn name(&self) -> &str {
        "calls"
    }

    fn tell(&mut self, _step: u8) {
        self.told = true;
    }

    fn see(&mut self, _rule: u8) {}

    fn passes(&self) -> bool {
        self.told
    }
}
