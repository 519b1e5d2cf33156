//! What ties the commands together: what one of them says of what another has said, and the numbers by which all go.
//!
//! Each law is the contract of a function that does nothing.
#![tactic(auto)]

ghost use Rattle.jc_agree.specs.Compatible.{SameRelease, EmptyRelease, CompatibleStaysOk};
ghost use Rattle.jc_agree.specs.Losses.{CompatibleLosesLittle, LossesHaveFindings, WitnessesAreLost};
ghost use Rattle.jc_agree.specs.NothingListed.{SameReleaseLists, EmptyReleaseLists};
ghost use Rattle.jc_agree.specs.Numbers.{StatusesAre, RulesAre, LimitsAre, VersionsAre};
ghost use Rattle.jc_agree.specs.OverAPart.{LinkedOverAPart, JudgedOverAPart};
ghost use Rattle.jc_agree.specs.Replays.{WitnessesReplay};
ghost use Rattle.jc_agree.specs.SameSide.{SeeTheSameSide, SeeTheSameSides};
ghost use Rattle.jc_agree.specs.Steps.{StepsAreChecks, StepsAreBorneOut};

use jc_link::laws::names_are_allowed;
use jc_platform::{enough_allows, enough_links_alike};

/// A release against itself has no finding and no collision.
pub fn same_release_is_compatible()
    ensures { SameRelease }
{}

/// An old release without classes is compatible with every new one, and nothing collides.
pub fn empty_release_is_compatible()
    ensures { EmptyRelease }
{}

/// Between a release and itself there is no warning, no interface is dropped, and there is no note on a signature and no line on calls.
pub fn same_release_lists_nothing()
    ensures { SameReleaseLists }
{}

/// Nor between an old release without classes and any new one.
pub fn empty_release_lists_nothing()
    ensures { EmptyReleaseLists }
{}

/// Where `check` has no finding, what `link` says of clients that it says to be Ok with the old release, it says of them with the new
/// one: of those in scope that meet no collision and whose items are in reach.
pub fn compatible_stays_ok()
    ensures { CompatibleStaysOk }
{}

/// Of a witness `link` says that each outcome is Ok with the old release, and that with the new one the outcome at its one spot has
/// the error of the finding or collision.
pub fn witnesses_replay()
    ensures { WitnessesReplay }
{
    names_are_allowed();
}

/// Where `check` has no finding, `clients` finds nothing lost of clients in scope that meet no collision but
/// items that aren't in reach. So where all are in reach and something is lost, `check` has a finding.
pub fn compatible_loses_little()
    ensures little { CompatibleLosesLittle }
    ensures findings { LossesHaveFindings }
{}

/// Of a witness `clients` finds lost the outcome at its one spot, with the error of the finding or collision.
pub fn witnesses_are_lost()
    ensures { WitnessesAreLost }
{
    names_are_allowed();
}

/// Over a part of a platform that is enough for clients `link` says of them what it says over the whole, and refuses nothing that it doesn't
/// refuse there; and where the part is enough with both releases, `clients` says the same.
pub fn part_says_the_same()
    ensures linked { LinkedOverAPart }
    ensures judged { JudgedOverAPart }
{
    enough_links_alike();
    enough_allows();
    names_are_allowed();
}

/// Over one platform and one release, `link` and `check` speak of one side, where both are asked with `--modular` or both without. So the laws
/// above, which speak of two sides, say what `link` says with either release of a check.
pub fn link_sees_what_check_sees()
    ensures { SeeTheSameSide }
{}

/// Over one platform and the same two releases, both sides of a comparison of `clients` are those of `check`, where both are asked with
/// `--modular` or both without.
pub fn clients_sees_what_check_sees()
    ensures { SeeTheSameSides }
{}

/// The verdict of `history` on a step is that of `check` on the two releases of the step, without `--modular`; and so what bears out the
/// report of that check bears out each printed line of the step.
pub fn steps_are_checks()
    ensures verdict { StepsAreChecks }
    ensures borne_out { StepsAreBorneOut }
{}

/// Each status, limit and rule number in digits, and the versions of class files by which reading goes. No contract says what these
/// constants are, so this one does.
pub fn constants()
    ensures statuses { StatusesAre }
    ensures rules { RulesAre }
    ensures limits { LimitsAre }
    ensures versions { VersionsAre }
{}
