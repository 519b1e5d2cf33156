//! What is more than one expects: parts of a report past their limits, and releases with many of a kind.
use super::hostile::push;
use super::rows::Row;
use super::{Host, see_run, see_table};

// Puts a line for each number below this one, with the number in place of `@`.
fn put_numbered(rt: &impl Host, table: &mut String, count: u32, line: &str) {
    for number in 0..count {
        let digits = format!(in rt.alloc(); "{number:04}").expect(rt, "memory");
        let line = line.replace(rt.alloc(), '@', digits.as_str());
        push(rt, table, line.expect(rt, "memory").as_str());
    }
}

/// An interface that gains methods, which each of the interfaces below it inherits.
const GAINS: &str = "$ check --warn --platform P --old O --new N
: P java/lang/Object init | O p/I flags=601
: N p/I flags=601";

#[test]
fn more_warnings_than_there_may_be(rt: HostRuntime) {
    let mut table = String::from_str(rt.alloc(), GAINS).expect(&rt, "memory");
    put_numbered(&rt, &mut table, 1_000, " method=401:k@:()V");
    put_numbered(
        &rt,
        &mut table,
        1_000,
        "\n: O,N p/J@ flags=601 implements=p/I",
    );
    let common = table.as_str();
    let own =
        "7 a thousand and one interfaces, each with a thousand warnings\n! jcompat: limit warnings";
    see_run(&rt, &Row { common, own });
}

/// An interface that extends many others, which each of the classes drops.
const DROPS: &str = "$ check --dropped --platform P --old O --new N
: P java/lang/Object init
: P p/J flags=601";

#[test]
fn more_dropped_interfaces_than_there_may_be(rt: HostRuntime) {
    let mut table = String::from_str(rt.alloc(), DROPS).expect(&rt, "memory");
    put_numbered(&rt, &mut table, 200, " implements=p/I@");
    put_numbered(&rt, &mut table, 200, "\n: P p/I@ flags=601");
    put_numbered(
        &rt,
        &mut table,
        5_000,
        "\n: O q/A@ implements=p/J init | N q/A@ init",
    );
    let common = table.as_str();
    let own = "7 five thousand classes, each with 201 dropped interfaces\n! jcompat: limit dropped";
    see_run(&rt, &Row { common, own });
}

/// An interface whose methods each of the classes gets.
const GETS: &str = "$ check --calls --platform P --old O --new N
: P java/lang/Object init
: P p/J flags=601";

#[test]
fn more_lines_on_calls_than_there_may_be(rt: HostRuntime) {
    let mut table = String::from_str(rt.alloc(), GETS).expect(&rt, "memory");
    put_numbered(&rt, &mut table, 1_000, " method=401:k@:()V");
    put_numbered(
        &rt,
        &mut table,
        1_001,
        "\n: O q/A@ flags=421 init | N q/A@ flags=421 implements=p/J init",
    );
    let common = table.as_str();
    let own =
        "7 a thousand and one classes, each with a thousand lines on calls\n! jcompat: limit calls";
    see_run(&rt, &Row { common, own });
    let own =
        "7 and as many warnings, which come before\n$ check --calls --warn --platform P --old O --new N\n! jcompat: limit warnings";
    see_run(&rt, &Row { common, own });
}

/// A module with so many entries for the package `p` that it exports.
const EXPORTS: &str = "$ check --modular --platform P --old O --new N
: P java/lang/Object init | O,N p/A init
: O,N bytes module-info.class ca fe ba be 0 0 0 35 0 8 7 0 2 1 0 b 6d 6f 64 75 6c 65 2d 69 6e 66 6f 1 0 6 4d 6f 64 75 6c 65 13 0 5 1 0 1 6d 14 0 7 1 0 1 70 80 0 0 1 0 0 0 0 0 0 0 0 0 1 0 3 0 0 7 18 0 4 0 0 0 0 0 0 1 2c";

#[test]
fn a_module_that_exports_300_times(rt: HostRuntime) {
    let mut table = String::from_str(rt.alloc(), EXPORTS).expect(&rt, "memory");
    put_numbered(&rt, &mut table, 300, " 0 6 0 0 0 0");
    push(
        &rt,
        &mut table,
        " 0 0 0 0 0 0\n#0 each entry is read\n> compatible: 0 findings, 0 collisions, 0 notes\n",
    );
    see_table(&rt, table.as_str());
}

/// A hidden class that lost a superclass, in a table that goes on with members of the class that exposes both.
const EXPOSED: &str = "$ check --platform P --old O --new N
: P java/lang/Object init | O,N p/B flags=20 init | O p/S flags=20 extends=p/B init | N p/S flags=20 init
: O,N p/A init";

#[test]
fn a_class_that_exposes_by_100_members(rt: HostRuntime) {
    let mut table = String::from_str(rt.alloc(), EXPOSED).expect(&rt, "memory");
    put_numbered(&rt, &mut table, 100, " method=9:m@:(Lp/S;)Lp/B;");
    push(
        &rt,
        &mut table,
        "\n#1 the first of them in order is the one that shows it\n> 1 H4 p/S p/B assign java/lang/Object VerifyError\n> incompatible: 1 findings, 0 collisions, 0 notes\n",
    );
    see_table(&rt, table.as_str());
}
