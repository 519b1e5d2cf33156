//! Changes between two small releases over a platform of `java/lang/Object` alone, and the class files that show each finding and
//! collision, with their spots.
ghost use Rattle.std.specs.Prelude.{◌<◌, length, IfSome};
ghost use Rattle.std.specs.List.{All};
ghost use Rattle.jc_promises.specs.rule.Verdict.{IsVerdict};
ghost use Rattle.jc_promises.specs.Pairs.{AreOfOneRun};
ghost use Rattle.jc_witness.specs.Ground.{HasShortSide};
ghost use Rattle.jc_witness.specs.Witnesses.{HasCause, StandsInVerdict};

use crate::releases::{platform, tables};
use jc_base::items::Items;
use jc_facts::class_facts::ClassFacts;
use jc_facts::finding::Finding;
use jc_facts::verdict::{Cause, Collision, Spot, Verdict};
use jc_rules::compare::compare;
use jc_table::table::Table;
use jc_table_tests::rows::{INTERFACE, PLAIN, ROOT, Row, classes};
use jc_witness::planner::Planner;
use jc_witness::witness::{WitnessFile, witness};
use jc_witness::witnessed::Witnessed;
use std::alloc::Global;
use std::mem::replace;
use std::process::Abort;

/// A class file: its name, and where it fails with the new release.
type File = (&'static [u8], Option<Spot>);

/// The rule of a finding or a collision, and the class files that show it.
type Shown = (u8, &'static [File]);

/// Two releases, and what is shown of the findings and of the collisions, in order.
struct Change {
    old: &'static [Row],
    new: &'static [Row],
    findings: &'static [Shown],
    collisions: &'static [Shown],
}

const LOAD: Option<Spot> = Some(Spot::Load);

const FIRST: Option<Spot> = Some(Spot::Item(0));

const SECOND: Option<Spot> = Some(Spot::Item(1));

const THIRD: Option<Spot> = Some(Spot::Item(2));

const FOURTH: Option<Spot> = Some(Spot::Item(3));

/// `p/A` with a public constructor without parameters.
const A: Row = Row {
    name: b"p/A",
    methods: &[(b"<init>", b"()V", 0x0001)],
    ..PLAIN
};

const I: Row = Row {
    name: b"p/I",
    flags: INTERFACE,
    ..PLAIN
};

/// A hidden class.
const HIDDEN: Row = Row {
    flags: 0x0020,
    ..PLAIN
};

/// Its subclasses get an object of the hidden class `p/S`.
const GIVES: Row = Row {
    methods: &[(b"<init>", b"()V", 0x0001), (b"s", b"()Lp/S;", 0x000c)],
    ..A
};

/// Its subclasses pass an object of the hidden class `p/T`.
const TAKES: Row = Row {
    name: b"p/B",
    methods: &[(b"<init>", b"()V", 0x0001), (b"t", b"(Lp/T;)V", 0x000c)],
    ..PLAIN
};

/// The hidden class `p/S` below `p/T`, and no longer below it.
const BELOW: Row = Row {
    name: b"p/S",
    superclass: b"p/T",
    ..HIDDEN
};

const ALONE: Row = Row {
    name: b"p/S",
    ..HIDDEN
};

const ABOVE: Row = Row {
    name: b"p/T",
    ..HIDDEN
};

// A table that a function names is a part of the function, which grows with it: so there are four.

const ON_CLASSES: &[Change] = &[
    // Nothing changes.
    Change {
        old: &[A, I],
        new: &[A, I],
        findings: &[],
        collisions: &[],
    },
    // A class is gone. The library has the package w0, so the clients have the next one.
    Change {
        old: &[Row {
            name: b"w0/A",
            ..PLAIN
        }],
        new: &[],
        findings: &[(1, &[(b"w1/U", SECOND)])],
        collisions: &[],
    },
    // A class is no longer public; another one that wasn't is gone.
    Change {
        old: &[
            A,
            Row {
                name: b"p/Own",
                flags: 0x0020,
                ..PLAIN
            },
        ],
        new: &[Row { flags: 0x0020, ..A }],
        findings: &[(1, &[(b"w0/U", SECOND)])],
        collisions: &[],
    },
    // A class is final now.
    Change {
        old: &[A],
        new: &[Row { flags: 0x0031, ..A }],
        findings: &[(2, &[(b"w0/Y", LOAD)])],
        collisions: &[],
    },
    // An interface permits fewer classes; the client has the name that is no longer permitted.
    Change {
        old: &[Row {
            permits: Some(&[b"q/C", b"r/D"]),
            ..I
        }],
        new: &[Row {
            permits: Some(&[b"q/C"]),
            ..I
        }],
        findings: &[(2, &[(b"r/D", LOAD)])],
        collisions: &[],
    },
    // An interface became a class.
    Change {
        old: &[I],
        new: &[Row {
            name: b"p/I",
            ..PLAIN
        }],
        findings: &[(3, &[(b"w0/U", SECOND)])],
        collisions: &[],
    },
    // A superclass left the chain.
    Change {
        old: &[
            A,
            Row {
                name: b"p/B",
                superclass: b"p/A",
                ..PLAIN
            },
        ],
        new: &[
            A,
            Row {
                name: b"p/B",
                ..PLAIN
            },
        ],
        findings: &[(4, &[(b"w0/U", SECOND)])],
        collisions: &[],
    },
    // A superclass left the chain of a class, and of one below that didn't change itself.
    Change {
        old: &[
            A,
            Row {
                name: b"p/B",
                superclass: b"p/A",
                ..A
            },
            Row {
                name: b"p/C",
                superclass: b"p/B",
                ..A
            },
        ],
        new: &[
            A,
            Row { name: b"p/B", ..A },
            Row {
                name: b"p/C",
                superclass: b"p/B",
                ..A
            },
        ],
        findings: &[(4, &[(b"w0/U", SECOND)]), (4, &[(b"w0/U", SECOND)])],
        collisions: &[],
    },
];

const ON_MEMBERS: &[Change] = &[
    // A public constructor is protected now, which `new` can't use, and a protected one is private, which no subclass can call.
    Change {
        old: &[Row {
            methods: &[(b"<init>", b"(I)V", 0x0001), (b"<init>", b"(J)V", 0x0004)],
            ..A
        }],
        new: &[Row {
            methods: &[(b"<init>", b"(I)V", 0x0004), (b"<init>", b"(J)V", 0x0002)],
            ..A
        }],
        findings: &[(5, &[(b"w0/U", THIRD)]), (5, &[(b"w0/Y", FIRST)])],
        collisions: &[],
    },
    // The same of a superclass alone: the constructor of the class below is as it was.
    Change {
        old: &[
            A,
            Row {
                name: b"p/B",
                superclass: b"p/A",
                ..A
            },
        ],
        new: &[
            Row {
                methods: &[(b"<init>", b"()V", 0x0004)],
                ..A
            },
            Row {
                name: b"p/B",
                superclass: b"p/A",
                ..A
            },
        ],
        findings: &[(5, &[(b"w0/U", THIRD)])],
        collisions: &[],
    },
    // A method is final now. The class is sealed, and the client has the first name in byte order that it permits.
    Change {
        old: &[Row {
            methods: &[(b"<init>", b"()V", 0x0004), (b"m", b"()V", 0x0001)],
            permits: Some(&[b"q/Z", b"b/X", b"p/A"]),
            ..A
        }],
        new: &[Row {
            methods: &[(b"<init>", b"()V", 0x0004), (b"m", b"()V", 0x0011)],
            permits: Some(&[b"q/Z", b"b/X", b"p/A"]),
            ..A
        }],
        findings: &[(6, &[(b"b/X", LOAD)])],
        collisions: &[],
    },
    // A field is final now.
    Change {
        old: &[Row {
            fields: &[(b"f", b"I", 0x0001)],
            ..A
        }],
        new: &[Row {
            fields: &[(b"f", b"I", 0x0011)],
            ..A
        }],
        findings: &[(7, &[(b"w0/Y", SECOND)])],
        collisions: &[],
    },
    // A method is static now.
    Change {
        old: &[Row {
            methods: &[(b"m", b"()V", 0x0001)],
            ..A
        }],
        new: &[Row {
            methods: &[(b"m", b"()V", 0x0009)],
            ..A
        }],
        findings: &[(8, &[(b"w0/Y", SECOND)])],
        collisions: &[],
    },
    // An interface no longer inherits a method.
    Change {
        old: &[
            Row {
                name: b"p/J",
                methods: &[(b"k", b"()V", 0x0401)],
                ..I
            },
            Row {
                interfaces: &[b"p/J"],
                methods: &[(b"k", b"()V", 0x0002)],
                ..I
            },
        ],
        new: &[
            Row {
                name: b"p/J",
                methods: &[(b"k", b"()V", 0x0401)],
                ..I
            },
            Row {
                methods: &[(b"k", b"()V", 0x0002)],
                ..I
            },
        ],
        findings: &[(9, &[(b"w0/J", None), (b"w0/U", SECOND)])],
        collisions: &[],
    },
];

const COLLISIONS: &[Change] = &[
    // A constant is added to an interface.
    Change {
        old: &[I],
        new: &[Row {
            fields: &[(b"f", b"I", 0x0019)],
            ..I
        }],
        findings: &[],
        collisions: &[(10, &[(b"w0/U", SECOND), (b"w0/Y", None), (b"w0/Z", None)])],
    },
    // An added private method captures calls.
    Change {
        old: &[A],
        new: &[Row {
            methods: &[(b"<init>", b"()V", 0x0001), (b"run", b"()V", 0x0002)],
            ..A
        }],
        findings: &[],
        collisions: &[(11, &[(b"w0/J", None), (b"w0/U", SECOND), (b"w0/Y", None)])],
    },
    // A final method is added.
    Change {
        old: &[A],
        new: &[Row {
            methods: &[(b"<init>", b"()V", 0x0001), (b"close", b"()V", 0x0011)],
            ..A
        }],
        findings: &[],
        collisions: &[(12, &[(b"w0/Y", LOAD)])],
    },
];

const TWO_SEATS: &[Change] = &[
    // A hidden superclass left the chain of a hidden class; the one is exposed to the subclasses of p/B alone, and the other to those of p/A.
    Change {
        old: &[GIVES, TAKES, BELOW, ABOVE],
        new: &[GIVES, TAKES, ALONE, ABOVE],
        findings: &[(4, &[(b"w0/Y", FOURTH), (b"w0/Z", None)])],
        collisions: &[],
    },
    // Both are sealed: the client of p/A leaves that of p/B the one name that it permits.
    Change {
        old: &[
            Row {
                permits: Some(&[b"q/C", b"q/D"]),
                ..GIVES
            },
            Row {
                permits: Some(&[b"q/C"]),
                ..TAKES
            },
            BELOW,
            ABOVE,
        ],
        new: &[
            Row {
                permits: Some(&[b"q/C", b"q/D"]),
                ..GIVES
            },
            Row {
                permits: Some(&[b"q/C"]),
                ..TAKES
            },
            ALONE,
            ABOVE,
        ],
        findings: &[(4, &[(b"q/C", FOURTH), (b"q/D", None)])],
        collisions: &[],
    },
    // Both permit one and the same name alone, which no two clients have.
    Change {
        old: &[
            Row {
                permits: Some(&[b"q/C"]),
                ..GIVES
            },
            Row {
                permits: Some(&[b"q/C"]),
                ..TAKES
            },
            BELOW,
            ABOVE,
        ],
        new: &[
            Row {
                permits: Some(&[b"q/C"]),
                ..GIVES
            },
            Row {
                permits: Some(&[b"q/C"]),
                ..TAKES
            },
            ALONE,
            ABOVE,
        ],
        findings: &[],
        collisions: &[],
    },
];

/// A platform with a final class and a sealed interface, which are the same for both releases.
const CLOSED_PLATFORM: &[Row] = &[
    ROOT,
    Row {
        name: b"j/F",
        flags: 0x0031,
        ..A
    },
    Row {
        name: b"j/S",
        flags: INTERFACE,
        permits: Some(&[b"q/C"]),
        ..PLAIN
    },
];

/// A class of the release is final now.
const FINAL_NOW: Change = Change {
    old: &[A],
    new: &[Row { flags: 0x0031, ..A }],
    findings: &[(2, &[(b"w0/Y", LOAD)])],
    collisions: &[],
};

// Whether the files have these names and spots.
fn are_files(files: &[WitnessFile], wanted: &[File]) -> bool {
    if files.len() != wanted.len() {
        return false;
    }
    for n in 0..files.len() {
        let (name, spot) = wanted[n];
        if files[n].class.as_bytes() != name || files[n].spot != spot {
            return false;
        }
    }
    true
}

// The class files that show the cause of this number.
fn files_of<C: Witnessed>(
    rt: &impl Abort,
    alloc: Global,
    planner: &Planner<'_>,
    causes: &[C],
    number: usize,
) -> Vec<WitnessFile>
    requires stand { All (λ c. StandsInVerdict planner.now.old planner.now.new (C.cause c)) causes.now }
    requires number { number < length causes.now }
    requires old_names { HasShortSide planner.now.old }
    requires new_names { HasShortSide planner.now.new }
{
    causes[number].show(alloc, planner).expect(rt, "memory")
}

fn see_shown<C: Witnessed>(
    rt: &impl Abort,
    alloc: Global,
    planner: &Planner<'_>,
    causes: &[C],
    wanted: &[Shown],
)
    requires stand { All (λ c. StandsInVerdict planner.now.old planner.now.new (C.cause c)) causes.now }
    requires old_names { HasShortSide planner.now.old }
    requires new_names { HasShortSide planner.now.new }
{
    assert_eq!(rt; causes.len(), wanted.len());
    for n in 0..causes.len() {
        let made = files_of(rt, alloc, planner, causes, n);
        assert!(rt; are_files(made.as_slice(), wanted[n].1));
    }
}

// Whether the findings are of these rules.
fn are_findings_of(findings: &[Finding], wanted: &[Shown]) -> bool {
    findings
        .iter()
        .map(|f| f.rule)
        .eq(wanted.iter().map(|s| s.0))
}

// Whether the collisions are of these rules.
fn are_collisions_of(collisions: &[Collision], wanted: &[Shown]) -> bool {
    collisions
        .iter()
        .map(|c| c.rule)
        .eq(wanted.iter().map(|s| s.0))
}

fn see_verdict(
    rt: &impl Abort,
    alloc: Global,
    planner: &Planner<'_>,
    verdict: &Verdict,
    change: &Change,
)
    requires verdict { IsVerdict planner.now.old planner.now.new verdict.now }
    requires old_names { HasShortSide planner.now.old }
    requires new_names { HasShortSide planner.now.new }
{
    let findings = verdict.findings.as_slice();
    let collisions = verdict.collisions.as_slice();
    assert!(rt; are_findings_of(findings, change.findings));
    assert!(rt; are_collisions_of(collisions, change.collisions));
    see_shown(rt, alloc, planner, findings, change.findings);
    see_shown(rt, alloc, planner, collisions, change.collisions);
}

fn see_comparison(rt: &impl Abort, alloc: Global, old: &Table, new: &Table, change: &Change)
    requires run { AreOfOneRun old.now new.now }
    requires old_names { HasShortSide old.now }
    requires new_names { HasShortSide new.now }
{
    let planner = Planner::new(alloc, old, new).expect(rt, "memory");
    let verdict = compare(alloc, old, new).expect(rt, "memory");
    see_verdict(rt, alloc, &planner, &verdict, change);
}

fn see_change(rt: &impl Abort, alloc: Global, platform: &[ClassFacts], change: &Change) {
    let (old, new) = tables(rt, alloc, platform, change.old, change.new);
    see_comparison(rt, alloc, &old, &new, change);
}

fn see_changes(rt: &impl Abort, alloc: Global, changes: &[Change]) {
    let platform = platform(rt, alloc);
    for change in changes {
        see_change(rt, alloc, platform.as_slice(), change);
    }
}

#[test]
fn files_and_spots_of_findings_on_classes(rt: HostRuntime) {
    see_changes(&rt, rt.alloc(), ON_CLASSES);
}

#[test]
fn files_and_spots_of_findings_on_members(rt: HostRuntime) {
    see_changes(&rt, rt.alloc(), ON_MEMBERS);
}

#[test]
fn files_and_spots_of_findings_between_two_seats(rt: HostRuntime) {
    see_changes(&rt, rt.alloc(), TWO_SEATS);
}

#[test]
fn files_and_spots_of_collisions(rt: HostRuntime) {
    see_changes(&rt, rt.alloc(), COLLISIONS);
}

// The platform's own classes aren't among the findings.
#[test]
fn the_finding_over_a_platform_that_is_closed(rt: HostRuntime) {
    let alloc = rt.alloc();
    let platform = classes(alloc, CLOSED_PLATFORM).expect(&rt, "memory");
    see_change(&rt, alloc, platform.as_slice(), &FINAL_NOW);
}

// The last finding of the verdict, as a cause.
fn last_finding(alloc: Global, mut verdict: Verdict) -> Option<Cause>
    ensures { IfSome result (HasCause verdict) }
{
    let none = Items::from_vec(Vec::new(alloc));
    let mut findings = replace(&mut verdict.findings, none).into_vec();
    let finding = findings.pop()?;
    Some(Cause::Finding(finding))
}

fn see_last(rt: &impl Abort, alloc: Global, old: &Table, new: &Table, wanted: &[File])
    requires run { AreOfOneRun old.now new.now }
    requires old_names { HasShortSide old.now }
    requires new_names { HasShortSide new.now }
{
    let verdict = compare(alloc, old, new).expect(rt, "memory");
    let cause = last_finding(alloc, verdict).expect(rt, "a finding");
    let files = witness(alloc, old, new, &cause).expect(rt, "memory");
    assert!(rt; are_files(files.as_slice(), wanted));
}

// The class is gone in the new release.
#[test]
fn a_witness_of_one_cause(rt: HostRuntime) {
    let alloc = rt.alloc();
    let platform = platform(&rt, alloc);
    let (old, new) = tables(&rt, alloc, platform.as_slice(), &[A], &[]);
    see_last(&rt, alloc, &old, &new, &[(b"w0/U", SECOND)]);
}
