//! The law of the planned clients' class files: what is written of them shows each finding and each collision.
#![tactic(auto)]

ghost use Rattle.jc_bodies.specs.Files.{EachHasItsFiles};

/// For each finding and each collision of a verdict the planned class files can be written and pass no
/// limit of the format, and what is written is read as the planned clients, in order (JVMS 4.1, 4.10).
/// These are in scope, link whole with the old release, and fail with the new at the spot of exactly one
/// of the files, by the named error. Those of a finding meet no collision, and those of a collision meet it.
pub fn each_finding_has_its_files()
    ensures { EachHasItsFiles }
{}
