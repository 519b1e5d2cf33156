//! The laws of a part of a platform: what it needs, so that clients link over it as over the whole.
//!
//! Each law is the contract of a function that does nothing.
#![tactic(auto)]

ghost use Rattle.jc_platform.specs.Enough.{EnoughLinksAlike, EnoughAllows, NamedAreEnough};

/// Over a part of a platform that is enough for clients, each of them loads and each of its items links as over the whole, and all their
/// outcomes are the same.
pub fn enough_links_alike()
    ensures { EnoughLinksAlike }
{}

/// Over such a part nothing refuses what isn't refused over the whole: it has the same `java/lang/Object` and no further names, and
/// allows the clients' names.
pub fn enough_allows()
    ensures { EnoughAllows }
{}

/// The classes of the names that clients and what is above them lead to are enough.
pub fn named_are_enough()
    ensures { NamedAreEnough }
{}
