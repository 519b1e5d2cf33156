//! When a class may be passed over, since neither it nor any above it changed.
ghost use Rattle.jc_acts.specs.Untouched.{UntouchedLookAlike, UntouchedStayOpen};

/// Where neither a class nor any above it changed or left the chain of a seat, all lookups from it
/// find the same on both sides, if it loads on the new side too. That it does doesn't follow: with the
/// same records a class that it names may no longer be visible.
pub fn untouched_look_alike()
    ensures { UntouchedLookAlike }
{}

/// Where such a class is usable on both sides, no act on its members that was open to a seat is
/// closed.
pub fn untouched_stay_open()
    ensures { UntouchedStayOpen }
{}
