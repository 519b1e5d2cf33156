//! Runs of which one call fails, and hierarchies that are wide or deep.
use super::rows::Row;
use super::{Host, see_run, see_table};

const CAPTURE: &str = r##"$ check --platform P --old O --new N --witness d
: P java/lang/Object init | O p/A init | N p/A init method=2:run:()V
#4 the platform isn't listed, trees=1 ! jcompat: platform: read fault
#4 the platform has a file that isn't read, trees=2 ! jcompat: platform: read fault
#4 the old release isn't listed, trees=3 ! jcompat: old: read fault
#4 the old release has a file that isn't read, trees=4 ! jcompat: old: read fault
#4 the new release isn't listed, trees=5 ! jcompat: new: read fault
#4 the new release has a file that isn't read, trees=6 ! jcompat: new: read fault
#5 witness file 1 of three is not put, folder=1
#5 witness file 2 of three is not put, folder=2 held=1
#5 witness file 3 of three is not put, folder=3 held=2
#5 line 1 of the output is cut off, out=1 held=3 > 1 Capture p/A run()V invokev\
#5 line 2 of the output is cut off, out=2 held=3
> 1 Capture p/A run()V invokevirtual - IllegalAccessError | compatible: 0 findings,\
#5 the line on the error stream is cut off, err=1
$ ! jcompat: usag\
#0 the JSON is one put, so that there is no second one to fail, out=2
$ check --json --platform P --old O --new N
> {"collisions":[{"class":"p/A","error":"IllegalAccessError","member":"run()V","number":1,"operation":"invokevirtual","rule":"Capture","seat":null}],"findings":[],"notes":[],"verdict":"compatible"}
#2 what is refused puts no witness, folder=1
$ check --platform P --old O --new N --witness ! jcompat: usage: words
#2 what is refused puts no witness, folder=1
$ check --witness d --platform P --old O --new N --witness d ! jcompat: usage: words
#2 what is refused puts no witness, folder=1
$ link --platform P --release O --client C --witness d ! jcompat: usage: words
"##;

const CHECKS: &str = r"$ check --platform P --old O --new N
: P java/lang/Object init
#4 the platform has a file that isn't read, trees=2 ! jcompat: platform: read fault
#4 the new release isn't listed, trees=4 ! jcompat: new: read fault
#5 line 1 of the output is cut off, out=1 > compatible: 0 findings,\
#5 line 2 of the output is cut off, out=2 : O p/A init > 1 H1 p/A - class - NoClassDefFoundError | incompatible: 1 findings\
";

const LINKS: &str = "$ link --platform P --release R --client C
: P java/lang/Object init | C q/A init
#4 the release isn't listed, trees=3 ! jcompat: release: read fault
#4 the client isn't listed, trees=4 ! jcompat: client: read fault
#4 the client has a file that isn't read, trees=5 ! jcompat: client: read fault
";

const OTHERS: &str = r"#5 the line on the error stream is cut off, err=1
$ check --platform P --old O --new N ! jcompat: platform:\
#0 generated releases, for which no tree is read, trees=1
$ make 8 > classes 8 | findings 4 | collisions 1 | notes 0 | verdict incompatible
#5 nothing is put after the put that fails, trees=1 out=2
$ make 8 > classes 8 | findi\
#3 what is refused puts no witness, folder=1 : O p/A init
$ check --platform P --old O --new N --witness d ! jcompat: platform: bad root missing
";

#[test]
fn a_failing_call_ends_a_run(rt: HostRuntime) {
    for table in [CAPTURE, CHECKS, LINKS, OTHERS] {
        see_table(&rt, table);
    }
}

/// Puts more behind a text.
pub(super) fn push(rt: &impl Host, text: &mut String, more: &str) {
    text.push_str(more).expect(rt, "memory")
}

/// A lattice of interfaces, and its lowest level.
const LATTICE: &str = "$ check --platform P --old O --new N
#0 a wide lattice of interfaces : P java/lang/Object init
> compatible: 0 findings, 0 collisions, 0 notes
: O,N p/A00 flags=601 | O,N p/B00 flags=601
";

// Puts the interfaces of this level, of which each extends both of the level below.
fn put_level(rt: &impl Host, table: &mut String, level: u32) {
    let below = level.saturating_sub(1);
    for name in ["p/A", "p/B"] {
        let line = format!(in rt.alloc();
            ": O,N {name}{level:02} flags=601 implements=p/A{below:02} implements=p/B{below:02}\n"
        );
        push(rt, table, line.expect(rt, "memory").as_str());
    }
}

#[test]
fn a_wide_lattice_of_interfaces(rt: HostRuntime) {
    let mut table = String::from_str(rt.alloc(), LATTICE).expect(&rt, "memory");
    for level in 1..40 {
        put_level(&rt, &mut table, level);
    }
    see_table(&rt, table.as_str());
}

// Puts a class of this number, which extends the one before it in the old release, and in the new one
// too or only `java/lang/Object`.
fn put_class(rt: &impl Host, table: &mut String, number: u32, is_kept: bool) {
    let above = number.saturating_sub(1);
    let old = format!(in rt.alloc(); "p/C{above:04}").expect(rt, "memory");
    let old = old.as_str();
    let new = if is_kept { old } else { "java/lang/Object" };
    let line = format!(in rt.alloc();
        ": O p/C{number:04} extends={old} init | N p/C{number:04} extends={new} init\n"
    );
    push(rt, table, line.expect(rt, "memory").as_str());
}

/// A platform, and the highest class of a chain.
const HIGHEST: &str = "$ check --platform P --old O --new N
: P java/lang/Object init | O,N p/C0000 init
";

// Sees what is said of a chain of so many classes in the old release, which is kept in the new one or not.
fn see_chain(rt: &impl Host, own: &str, count: u32, is_kept: bool) {
    let mut table = String::from_str(rt.alloc(), HIGHEST).expect(rt, "memory");
    for number in 1..count {
        put_class(rt, &mut table, number, is_kept);
    }
    let common = table.as_str();
    see_run(rt, &Row { common, own });
}

const BROKEN: &str = "7 a long chain of classes, and the same without the chain
! jcompat: limit findings";

const ASKED: &str = "7 the same for the lines that explain what clients lose
$ clients --platform P --old O --new N --used A
! jcompat: limit findings";

const KEPT: &str = "0 a long chain of classes
> compatible: 0 findings, 0 collisions, 0 notes";

#[test]
fn a_long_chain_of_classes(rt: HostRuntime) {
    see_chain(&rt, BROKEN, 1_500, false);
    see_chain(&rt, ASKED, 1_500, false);
    see_chain(&rt, KEPT, 2_000, true);
}
