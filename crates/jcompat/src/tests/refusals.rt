//! Trees and calls that are refused.
use super::see_table;

const OVER_ROOT: &str = "$ check --platform P --old O --new N
: P java/lang/Object init
#3 a byte more than a class file has
: O bytes p/A.class ca fe ba be 0 0 0 34 0 7 1 0 3 70 2f 41 7 0 1 1 0 10 6a 61 76 61 2f 6c 61 6e 67 2f 4f 62 6a 65 63 74 7 0 3 1 0 6 3c 69 6e 69 74 3e 1 0 3 28 29 56 0 21 0 2 0 4 0 0 0 0 0 1 0 1 0 5 0 6 0 0 0 0 0
! jcompat: old: p/A.class: Trailing at 78
#3 a byte less : O bytes p/A.class ca fe ba be 0 0 0 34 0 7 1 0 3 70 2f 41 7 0 1 1 0 10 6a 61 76 61 2f 6c 61 6e 67 2f 4f 62 6a 65 63 74 7 0 3 1 0 6 3c 69 6e 69 74 3e 1 0 3 28 29 56 0 21 0 2 0 4 0 0 0 0 0 1 0 1 0 5 0 6 0 0 0
! jcompat: old: p/A.class: Short at 77
#3 a file at another place : N at q/A.class p/A init ! jcompat: new: q/A.class: misplaced p/A
#3 the new release declares java/lang/Object too : N java/lang/Object init ! jcompat: new: overlap java/lang/Object
#3 both releases declare names of the platform, of which the first of the old one is named : P p/A init | P p/B init | O p/A init | O p/B init | N java/lang/Object init
! jcompat: old: overlap p/A
";

const OTHER_ROOTS: &str = "$ check --platform P --old O --new N
#3 malformed files, of which the first in order is named, before what the platform lacks : N bytes p/A.class | O bytes p/C.class | O bytes p/B.class ca fe ba be 0 0 0 34 0 4 7 0 | O p/A init
! jcompat: old: p/B.class: Short at 12
#3 an empty platform, and a release with java/lang/Object : N java/lang/Object init ! jcompat: platform: bad root missing
#3 a final root : P java/lang/Object flags=31 init ! jcompat: platform: bad root flags
#3 a root with an interface; with a superclass it would be malformed : P java/lang/Object implements=p/I init
! jcompat: platform: bad root interfaces
#3 a root with a field : P java/lang/Object field=1:f:I init ! jcompat: platform: bad root fields
#3 a sealed root : P java/lang/Object sealed permits=p/A init ! jcompat: platform: bad root permits
#3 a root whose constructor is protected : P java/lang/Object method=4:<init>:()V ! jcompat: platform: bad root init
";

#[test]
fn trees_are_refused(rt: HostRuntime) {
    for table in [OVER_ROOT, OTHER_ROOTS] {
        see_table(&rt, table);
    }
}
