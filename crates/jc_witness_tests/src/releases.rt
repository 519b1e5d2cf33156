//! Tables of small releases over a platform of `java/lang/Object` alone.
ghost use Rattle.std.specs.Prelude.{◌≡◌, [], IsTrue};
ghost use Rattle.jc_promises.specs.Pairs.{AreOfOneRun};
ghost use Rattle.jc_facts.specs.world.World.{OneModule, side};
ghost use Rattle.jc_witness.specs.Ground.{HasShortSide};

use jc_facts::class_facts::ClassFacts;
use jc_index::plain::{are_valid, names_differ};
use jc_table::table::Table;
use jc_table_tests::rows::{ROOT, Row, classes};
use jc_witness::short_names::have_short_names;
use std::alloc::Global;
use std::process::Abort;

/// The platform, which has `java/lang/Object` alone.
pub(crate) fn platform(rt: &impl Abort, alloc: Global) -> Vec<ClassFacts> {
    classes(alloc, &[ROOT]).expect(rt, "memory")
}

// Whether the names of both are short.
fn are_short(platform: &[ClassFacts], release: &[ClassFacts]) -> bool
    ensures { IsTrue result → HasShortSide (side platform.now release.now) }
{
    have_short_names(platform) && have_short_names(release)
}

// The table of a release, whose conditions are seen to first.
fn table(rt: &impl Abort, alloc: Global, platform: &[ClassFacts], rows: &[Row]) -> Table
    ensures platform { result.platform ≡ platform.now }
    ensures clients { result.clients ≡ [] }
    ensures modules { result.modules ≡ OneModule }
    ensures short { HasShortSide result }
{
    let release = classes(alloc, rows).expect(rt, "memory");
    assert!(rt; are_valid(alloc, platform).expect(rt, "memory"));
    assert!(rt; are_valid(alloc, release.as_slice()).expect(rt, "memory"));
    assert!(rt; names_differ(platform) && names_differ(release.as_slice()));
    assert!(rt; are_short(platform, release.as_slice()));
    assert!(rt; platform.len() <= 1000 && release.len() <= 1000);
    Table::build(alloc, platform, release).expect(rt, "a table")
}

/// The tables of two releases.
pub(crate) fn tables(
    rt: &impl Abort,
    alloc: Global,
    platform: &[ClassFacts],
    old: &[Row],
    new: &[Row],
) -> (Table, Table)
    ensures run { AreOfOneRun result.0 result.1 }
    ensures old_names { HasShortSide result.0 }
    ensures new_names { HasShortSide result.1 }
{
    let old = table(rt, alloc, platform, old);
    let new = table(rt, alloc, platform, new);
    (old, new)
}
