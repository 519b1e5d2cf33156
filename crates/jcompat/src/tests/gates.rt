//! Which gates are asked, and what comes of it.
ghost use Rattle.std.specs.Prelude.{refl, codes, nat_eq, if◌then◌else◌};

use super::assembler::{cut, number, values};
use super::rows::{Row, words_of};
use super::{Host, files_of, folder, see_table, sink, trees};
use crate::run::run;
use jc_gate::gate::Gate;
use std::cell::Cell;
use std::rc::Rc;

const FEW_GONE: &str = r##": P java/lang/Object init | O p/A init | N p/A init method=2:run:()V
#1 check --platform P --old O --new N --gate links,collisions
> 1 Capture p/A run()V invokevirtual - IllegalAccessError | compatible: 0 findings, 1 collisions, 0 notes
#1 check --gate collisions --json --platform P --old O --new N
> {"collisions":[{"class":"p/A","error":"IllegalAccessError","member":"run()V","number":1,"operation":"invokevirtual","rule":"Capture","seat":null}],"findings":[],"notes":[],"verdict":"compatible"}
#0 check --platform P --old O --new N --gate few
> 1 Capture p/A run()V invokevirtual - IllegalAccessError | compatible: 0 findings, 1 collisions, 0 notes
#0 check --platform P --old O --new N --gate links,links
> 1 Capture p/A run()V invokevirtual - IllegalAccessError | compatible: 0 findings, 1 collisions, 0 notes
#2 check --platform P --old O --new N --gate links,nope,none ! jcompat: usage: unknown gate nope
#2 check --platform P --old O --new N --gate few^ ! jcompat: usage: unknown gate few\x0a
#2 check --platform P --old O --new N --gate links, ! jcompat: usage: unknown gate ~
#2 check --platform P --old O --new N --gate ~ ! jcompat: usage: unknown gate ~
#2 check --gate nope --platform P --old O ! jcompat: usage: words
"##;

const MANY_GONE: &str =
    ": P java/lang/Object init | O p/A init | O p/B init | O p/C init | O p/D init | O p/E init | O p/F init | O p/G init | O p/H init | O p/I init
: O p/J init
> 1 H1 p/A - class - NoClassDefFoundError | 2 H1 p/B - class - NoClassDefFoundError | 3 H1 p/C - class - NoClassDefFoundError
> 4 H1 p/D - class - NoClassDefFoundError | 5 H1 p/E - class - NoClassDefFoundError | 6 H1 p/F - class - NoClassDefFoundError
> 7 H1 p/G - class - NoClassDefFoundError | 8 H1 p/H - class - NoClassDefFoundError | 9 H1 p/I - class - NoClassDefFoundError
> 10 H1 p/J - class - NoClassDefFoundError
#0 check --platform P --old O --new N --gate few,collisions > incompatible: 10 findings, 0 collisions, 0 notes
#1 check --platform P --old O --new N --gate few : O p/K init
> 11 H1 p/K - class - NoClassDefFoundError | incompatible: 11 findings, 0 collisions, 0 notes
";

const NO_FILES: &str =
    "#2 check --platform P --old O --new N --gate Links ! jcompat: usage: unknown gate Links
";

#[test]
fn gates_are_asked_by_their_names(rt: HostRuntime) {
    for table in [FEW_GONE, MANY_GONE, NO_FILES] {
        see_table(&rt, table);
    }
}

/// What has become of some gates: the rules that they saw, as the digits of a number to the base 100, in
/// which a step that they were told is 90 more than itself, how many times one was asked whether it passes,
/// and how many were dropped.
#[derive(Drop)]
struct Fate {
    seen: Cell<u64>,
    asked: Cell<u64>,
    dropped: Cell<u64>,
}

fn count_up(counter: &Cell<u64>) {
    counter.set(counter.get().saturating_add(1));
}

fn note(fate: &Fate, number: u8) {
    let before = fate.seen.get().saturating_mul(100);
    fate.seen.set(before.saturating_add(u64::from(number)));
}

/// A gate named `links` or `other`, which passes or doesn't whatever it sees, and tells its fate.
struct Watched {
    is_links: bool,
    is_open: bool,
    fate: Rc<Fate>,
}

impl Drop for Watched {
    fn drop(self) {
        let Watched {
            is_links: _,
            is_open: _,
            fate,
        } = self;
        count_up(&fate.dropped);
    }
}

impl Gate for Watched {
    ghost label = { λ gate. if gate.is_links then codes "links" else codes "other" };

    ghost state = { λ gate. if gate.is_open then 1 else 0 };

    ghost informed = { λ gate state step. state };

    ghost after = { λ gate state rule. state };

    ghost pass = { λ gate state. nat_eq state 1 };

    ghost one_informed = { λ a b. refl };

    ghost one_after = { λ a b. refl };

    ghost one_pass = { λ a b. refl };

    fn name(&self) -> &str {
        if self.is_links { "links" } else { "other" }
    }

    fn tell(&mut self, step: u8) {
        note(&self.fate, step.saturating_add(90));
    }

    fn see(&mut self, rule: u8) {
        note(&self.fate, rule);
    }

    fn passes(&self) -> bool {
        count_up(&self.fate.asked);
        self.is_open
    }
}

/// Runs over the releases whose verdict has a finding of rule 6 and a collision of rule 12, with gates,
/// whether each is open, and their fate.
const ASKED: &str = "$ check --platform P --old O --new N
: P java/lang/Object init method=1:toString:()Ljava/lang/String; | O p/A init
: N p/A init method=11:toString:()Ljava/lang/String; method=11:close:()V
#0 without names the gate links alone, which is open, watched=links:open watched=other:shut seen=612 asked=1 dropped=2
#1 each gate that is named, in the order in which they were handed in, watched=links:shut watched=other:open seen=6120612 asked=2 dropped=2
$ check --platform P --old O --new N --gate other,links
#1 both gates of one name, watched=links:open watched=links:shut seen=6120612 asked=2 dropped=2
#1 each is told the step once and before it sees, watched=links:open watched=other:shut seen=930612930612 asked=2 dropped=2
$ check --platform P --old O --new N --gate other,links --from 1.4.0 --to 2.0.0
#0 a gate that isn't named is told nothing, watched=links:open watched=other:shut seen=920612 asked=1 dropped=2
$ check --platform P --old O --new N --from 1.4.0 --to 1.5.0
#2 no gate of the name, watched=other:open seen=0 asked=0 dropped=1
#5 a last line that isn't put, watched=links:open watched=other:shut out=3 seen=0 asked=0 dropped=2
#0 a link, which asks no gate, watched=links:shut seen=0 asked=0 dropped=1
$ link --platform P --release R --client C
";

// The gates of a text, which tell their fate.
fn watched_gates(rt: &impl Host, told: &str, fate: &Rc<Fate>) -> Vec<Box<dyn Gate>> {
    let mut watched: Vec<Box<dyn Gate>> = Vec::new(rt.alloc());
    let gates = values(rt.alloc(), told, "watched").expect(rt, "memory");
    for gate in gates.as_slice() {
        let (name, state) = cut(gate, ":");
        let gate = Watched {
            is_links: name == "links",
            is_open: state == "open",
            fate: fate.clone().expect(rt, "memory"),
        };
        watched
            .push(Box::new(rt.alloc(), gate).expect(rt, "memory"))
            .expect(rt, "memory");
    }
    watched
}

// The status of the row's run, whose gates tell their fate.
fn asked_status(rt: &impl Host, row: &Row<'_>, fate: &Rc<Fate>) -> u8 {
    let told = row.shown();
    let words = words_of(rt.alloc(), row.line()).expect(rt, "memory");
    run(
        rt.alloc(),
        words.as_slice(),
        &mut trees(rt, files_of(rt, row), told),
        &mut sink(rt, told, "out"),
        &mut sink(rt, told, "err"),
        &mut folder(rt, told),
        watched_gates(rt, told, fate),
    )
}

fn see_asked(rt: &impl Host, row: &Row<'_>) {
    let fate = Fate {
        seen: Cell::new(0),
        asked: Cell::new(0),
        dropped: Cell::new(0),
    };
    let fate = Rc::new(rt.alloc(), fate).expect(rt, "memory");
    let told = row.shown();
    assert!(rt; asked_status(rt, row, &fate) == row.status(), "{told}");
    assert!(rt; fate.seen.get() == number(told, "seen"), "{told}");
    assert!(rt; fate.asked.get() == number(told, "asked"), "{told}");
    assert!(rt; fate.dropped.get() == number(told, "dropped"), "{told}");
}

#[test]
fn gates_see_the_rules_and_are_dropped(rt: HostRuntime) {
    let (common, rows) = cut(ASKED, "#");
    for own in rows.split('#') {
        see_asked(&rt, &Row { common, own });
    }
}
