//! Calls and method references of clients that fail though all links: what that means, and the laws of it.
//!
//! Each law is the contract of a function that does nothing.
#![tactic(auto)]

ghost use Rattle.jc_calls.specs.AccessKept.{AccessStays};
ghost use Rattle.jc_calls.specs.CallsKept.{ReferencesStay};
ghost use Rattle.jc_calls.specs.JoinsKept.{JoinsStay};
ghost use Rattle.jc_calls.specs.Lost.{EachReferenceIsLost};
ghost use Rattle.jc_calls.specs.LostAccess.{EachAccessIsLost};
ghost use Rattle.jc_calls.specs.LostJoins.{EachJoinIsLost};

/// Where the verdict has no finding, no reference is lost, and no collision is met, each method reference of a client that names a class
/// of a library, and was Ok, is Ok.
pub fn references_stay()
    ensures { ReferencesStay }
{}

/// Each reference that is lost is one that some client in scope loses, which meets no collision.
pub fn each_reference_is_lost()
    ensures { EachReferenceIsLost }
{}

/// Each access that is added refuses calls of some client in scope, which meets no collision (JVMS 6.5, `invokeinterface`).
pub fn each_access_is_lost()
    ensures { EachAccessIsLost }
{}

/// Where the verdict has no finding, no access is added, and no collision is met, a call by an interface above a client's seat that the
/// client's method refuses was refused before, or the seat's chain had the key as public.
pub fn access_stays()
    ensures { AccessStays }
{}

/// Where the verdict has no finding, no superclass is lost where values of two classes met, and no collision is met, what the
/// clients of a seat hold, and met others at a class that they can't name, is assignable to that (JVMS 4.10.1.2).
pub fn joins_stay()
    ensures { JoinsStay }
{}

/// Each superclass that is lost where values met refuses some client in scope, which meets no collision (JVMS 4.10.1.2).
pub fn each_join_is_lost()
    ensures { EachJoinIsLost }
{}
