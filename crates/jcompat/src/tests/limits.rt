//! What is at the limits, and past them.
use super::see_table;

#[test]
fn paths_of_at_most_so_many_bytes(rt: HostRuntime) {
    let name = "a".repeat(rt.alloc(), 4_090).expect(&rt, "memory");
    let table = format!(in rt.alloc();
        "$ check --platform P --old O --new N
: P java/lang/Object init
#7 a path of a byte too many : O {name}a flags=20 init
! jcompat: old: limit path
#0 a path of as many bytes as there may be : O {name} flags=20 init
> compatible: 0 findings, 0 collisions, 0 notes"
    );
    see_table(&rt, table.expect(&rt, "memory").as_str());
}

#[test]
fn captures_have_at_most_255_slots(rt: HostRuntime) {
    let most = "I".repeat(rt.alloc(), 254).expect(&rt, "memory");
    let table = format!(in rt.alloc();
        "$ check --platform P --old O --new N
: P java/lang/Object init | O p/A init
#0 a call of as many slots as there may be : N p/A init method=9:s:({most})V
> 1 Capture p/A s({most})V invokevirtual - IncompatibleClassChangeError
> compatible: 0 findings, 1 collisions, 0 notes
#0 a call of a slot more : N p/A init method=9:s:({most}I)V
> compatible: 0 findings, 0 collisions, 0 notes"
    );
    see_table(&rt, table.expect(&rt, "memory").as_str());
}
