//! Levels of steps between versions.
ghost use Rattle.std.specs.Prelude.{◌≡◌, ◌≤◌, max};
ghost use Rattle.jc_version.specs.LevelNumbers.{number_of};
ghost use Rattle.jc_version.specs.Needs.{need_of_rule};

/// How large a step between two versions is, or has to be.
#[derive(Clone, Copy)]
pub enum Level {
    Patch,
    Minor,
    Major,
}

impl Level {
    /// Its number: 1, 2 or 3.
    pub fn number(self) -> u8
        ensures { result ≡ number_of self }
    {
        match self {
            Level::Patch => 1,
            Level::Minor => 2,
            Level::Major => 3,
        }
    }

    /// The level of this number, from 1 to 3.
    pub fn of_number(number: u8) -> Level
        requires least { 1 ≤ number }
        requires most { number ≤ 3 }
        ensures { number_of result ≡ number }
    {
        if number == 1 {
            Level::Patch
        } else if number == 2 {
            Level::Minor
        } else {
            Level::Major
        }
    }

    /// The level that a rule needs: a finding's, 1 to 9, the largest, and a collision's, 10 to 12, the
    /// one below.
    pub fn of_rule(rule: u8) -> Level
        ensures { number_of result ≡ need_of_rule rule }
    {
        if (1..=9).contains(&rule) {
            Level::Major
        } else if (10..=12).contains(&rule) {
            Level::Minor
        } else {
            Level::Patch
        }
    }

    /// The larger of the two.
    pub fn or(self, other: Level) -> Level
        ensures { number_of result ≡ max (number_of self) (number_of other) }
    {
        if self.number() < other.number() {
            other
        } else {
            self
        }
    }
}
