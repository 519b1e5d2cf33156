//! What a gate is.
ghost use Rattle.std.specs.Prelude.{◌≡◌, ◌≤◌, ℕ, List, Bool};

/// What may be told the step between the versions of two releases, then sees the rules of findings and
/// collisions, one after the other, and then passes or doesn't. Its type alone says how a step and a rule
/// change the state, and at which states a gate passes.
pub trait Gate: Drop {
    /// The bytes of its name.
    ghost label: { Self → List ℕ };

    /// What it keeps of the rules that it saw.
    ghost state: { Self → ℕ };

    /// The state once it is told a step.
    ghost informed: { Self → ℕ → ℕ → ℕ };

    /// The state after a rule is seen.
    ghost after: { Self → ℕ → ℕ → ℕ };

    /// Whether it passes at a state.
    ghost pass: { Self → ℕ → Bool };

    /// Its name, by which it is asked for.
    fn name(&self) -> &str
        ensures { result.now ≡ label self.now };

    /// Is told the step between the versions, 1, 2 or 3, before it sees a rule.
    fn tell(&mut self, step: u8)
        requires least { 1 ≤ step }
        requires most { step ≤ 3 }
        ensures label { label self.new ≡ label self.old }
        ensures state { state self.new ≡ informed self.old (state self.old) step }
        ensures after { after self.new ≡ after self.old }
        ensures pass { pass self.new ≡ pass self.old };

    /// Sees a rule: 1 to 9 of a finding, 10 to 12 of a collision.
    fn see(&mut self, rule: u8)
        ensures label { label self.new ≡ label self.old }
        ensures state { state self.new ≡ after self.old (state self.old) rule }
        ensures after { after self.new ≡ after self.old }
        ensures pass { pass self.new ≡ pass self.old };

    /// Whether it passes.
    fn passes(&self) -> bool
        ensures { result ≡ pass self.now (state self.now) };

    ghost one_informed: { (a b : Self) → informed a ≡ informed b };

    ghost one_after: { (a b : Self) → after a ≡ after b };

    ghost one_pass: { (a b : Self) → pass a ≡ pass b };
}
