//! Clients that are linked with a release.
use super::see_table;

const OVER_ROOT: &str = "$ link --platform P --release R --client C
: P java/lang/Object init
#0 a client whose method does nothing
: C bytes q/U.class ca fe ba be 0 0 0 34 0 8 7 0 2 1 0 3 71 2f 55 7 0 4 1 0 10 6a 61 76 61 2f 6c 61 6e 67 2f 4f 62 6a 65 63 74 1 0 3 75 73 65 1 0 3 28 29 56 1 0 4 43 6f 64 65 0 21 0 1 0 3 0 0 0 0 0 1 0 9 0 5 0 6 0 1 0 7 0 0 0 d 0 0 0 0 0 0 0 1 b1 0 0 0 0 0 0
> class q/U ok | links: 1 outcomes, 0 errors
#3 an opcode that there isn't, before a later file that is cut off
: C bytes q/U.class ca fe ba be 0 0 0 34 0 8 7 0 2 1 0 3 71 2f 55 7 0 4 1 0 10 6a 61 76 61 2f 6c 61 6e 67 2f 4f 62 6a 65 63 74 1 0 3 75 73 65 1 0 3 28 29 56 1 0 4 43 6f 64 65 0 21 0 1 0 3 0 0 0 0 0 1 0 9 0 5 0 6 0 1 0 7 0 0 0 d 0 0 0 0 0 0 0 1 ca 0 0 0 0 0 0
: C bytes q/V.class ca fe ba be 0 0 0 34 0 4 7 0 ! jcompat: client: q/U.class: code BadOpcode at 94
#0 the same bytes in the release, of whose code nothing is asked
: R bytes q/U.class ca fe ba be 0 0 0 34 0 8 7 0 2 1 0 3 71 2f 55 7 0 4 1 0 10 6a 61 76 61 2f 6c 61 6e 67 2f 4f 62 6a 65 63 74 1 0 3 75 73 65 1 0 3 28 29 56 1 0 4 43 6f 64 65 0 21 0 1 0 3 0 0 0 0 0 1 0 9 0 5 0 6 0 1 0 7 0 0 0 d 0 0 0 0 0 0 0 1 ca 0 0 0 0 0 0
> links: 0 outcomes, 0 errors
#1 clients in byte order of names, not of files, the second without its superclass : C q/A init | C q/A$B extends=q/Gone init
> class q/A ok | class q/A$B NoClassDefFoundError | refused: 2 outcomes, 1 errors
#0 files below META-INF and the descriptor of a module are passed over : C bytes META-INF/x/U.class 0 | C bytes module-info.class 0
> links: 0 outcomes, 0 errors
#3 a client in a package of the release, and the first in byte order of two : R p/A init | C p/X init | C p/X$Y init
! jcompat: client: name p/X package
#3 a client that the release declares : R p/A init | C p/A init ! jcompat: client: name p/A declared
#3 a client that the release names as a superclass : R p/A extends=q/B init | C q/B init ! jcompat: client: name q/B super
#3 a release that declares a name of the platform, before the names of clients : R java/lang/Object init | C java/lang/X init
! jcompat: release: overlap java/lang/Object
";

const WITHOUT_ROOT: &str = "$ link --platform P --release R --client C
#3 an empty platform, and a release with java/lang/Object : R java/lang/Object init ! jcompat: platform: bad root missing
#3 a client at another place, before what the platform lacks : C at q/A.class p/A init
! jcompat: client: q/A.class: misplaced p/A
";

#[test]
fn clients_are_linked(rt: HostRuntime) {
    for table in [OVER_ROOT, WITHOUT_ROOT] {
        see_table(&rt, table);
    }
}
