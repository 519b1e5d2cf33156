//! Clients of two releases.
use super::see_table;

const ROWS: &str = r"$ clients --platform P --old O --new N A B C
: P java/lang/Object init
#1 a class that is gone, which the first of three extends, and an error that was there before
: O p/A init | A q/A extends=p/A init | A q/B init | B q/A init | C q/A extends=q/Gone init
> client 1 class q/A NoClassDefFoundError | client 1 breaks: 2 classes, 2 outcomes, 0 errors before, 1 lost
> client 2 keeps: 1 classes, 1 outcomes, 0 errors before, 0 lost
> client 3 keeps: 1 classes, 1 outcomes, 1 errors before, 0 lost
> clients: 3 clients, 1 broken, 0 refused
#0 an error that isn't there any more, and two folders without class files : N p/A init | A q/A extends=p/A init
> client 1 keeps: 1 classes, 1 outcomes, 1 errors before, 0 lost
> client 2 keeps: 0 classes, 0 outcomes, 0 errors before, 0 lost
> client 3 keeps: 0 classes, 0 outcomes, 0 errors before, 0 lost
> clients: 3 clients, 0 broken, 0 refused
#1 two that aren't linked, and one that keeps all : O,N p/A init | A p/A init | B at q/A.class q/B init | C q/A extends=p/A init
> client 1 jcompat: client: name p/A declared
> client 2 jcompat: client: q/A.class: misplaced q/B
> client 3 keeps: 1 classes, 1 outcomes, 0 errors before, 0 lost
> clients: 3 clients, 0 broken, 2 refused
#1 a name that the new release alone declares : N q/A init | A q/A init
> client 1 jcompat: client: name q/A declared
> client 2 keeps: 0 classes, 0 outcomes, 0 errors before, 0 lost
> client 3 keeps: 0 classes, 0 outcomes, 0 errors before, 0 lost
> clients: 3 clients, 0 broken, 1 refused
#4 a second client that isn't listed, trees=6 ! jcompat: client 2: read fault
#4 a new release that isn't listed, trees=4 ! jcompat: new: read fault
#3 a file of a release that is cut off, before a client's : N bytes p/A.class ca fe ba be 0 0 0 34 0 4 7 0 | A bytes q/A.class ca
! jcompat: new: p/A.class: Short at 12
#3 a new release that declares a name of the platform : P p/A init | N p/A init ! jcompat: new: overlap p/A
";

const WORDS: &str = r"#3 no platform
$ clients --platform P --old O --new N A
! jcompat: platform: bad root missing
#2 no client
$ clients --platform P --old O --new N
! jcompat: usage: clients 0
#2 no new release
$ clients --platform P --old O A
! jcompat: usage: words
#2 an option of another command
$ clients --platform P --old O --new N A --witness W
! jcompat: usage: words
";

const DOCUMENTS: &str = r#"$ clients --platform P --old O --new N --json A B C
: P java/lang/Object init
#1 one that breaks, one that isn't linked and one without class files, as JSON
: O p/A init | A q/A extends=p/A init | B at q/A.class q/B init
> {"clients":[{"classes":1,"errors":0,"lost":[{"class":"q/A","error":"NoClassDefFoundError","member":null,"name":null,"operation":null,"receiver":null}],"number":1,"outcomes":1,"refusal":null},{"classes":null,"errors":null,"lost":null,"number":2,"outcomes":null,"refusal":{"class":null,"path":"q/A.class","reason":"misplaced q/B"}},{"classes":0,"errors":0,"lost":[],"number":3,"outcomes":0,"refusal":null}],"total":{"broken":1,"clients":3,"refused":1}}
#1 a class that a release declares, as JSON : O,N p/A init | A p/A init
> {"clients":[{"classes":null,"errors":null,"lost":null,"number":1,"outcomes":null,"refusal":{"class":"p/A","path":null,"reason":"declared"}},{"classes":0,"errors":0,"lost":[],"number":2,"outcomes":0,"refusal":null},{"classes":0,"errors":0,"lost":[],"number":3,"outcomes":0,"refusal":null}],"total":{"broken":0,"clients":3,"refused":1}}
"#;

// The old release is a module `m` that exports the package `p`; the new one exports nothing.
const MODULES: &str = "$ clients --platform P --old O --new N --modular A
: P java/lang/Object init | O,N p/A init | A q/A extends=p/A init
: O bytes module-info.class ca fe ba be 0 0 0 35 0 8 7 0 2 1 0 b 6d 6f 64 75 6c 65 2d 69 6e 66 6f 1 0 6 4d 6f 64 75 6c 65 13 0 5 1 0 1 6d 14 0 7 1 0 1 70 80 0 0 1 0 0 0 0 0 0 0 0 0 1 0 3 0 0 0 16 0 4 0 0 0 0 0 0 0 1 0 6 0 0 0 0 0 0 0 0 0 0
: N bytes module-info.class ca fe ba be 0 0 0 35 0 8 7 0 2 1 0 b 6d 6f 64 75 6c 65 2d 69 6e 66 6f 1 0 6 4d 6f 64 75 6c 65 13 0 5 1 0 1 6d 14 0 7 1 0 1 70 80 0 0 1 0 0 0 0 0 0 0 0 0 1 0 3 0 0 0 10 0 4 0 0 0 0 0 0 0 0 0 0 0 0 0 0
#1 a class whose package is no longer exported
> client 1 class q/A IllegalAccessError | client 1 breaks: 1 classes, 1 outcomes, 0 errors before, 1 lost
> clients: 1 clients, 1 broken, 0 refused
#0 the same without modules
$ clients --platform P --old O --new N A
> client 1 keeps: 1 classes, 1 outcomes, 0 errors before, 0 lost
> clients: 1 clients, 0 broken, 0 refused
";

const USED: &str = r#"$ clients --platform P --old O --new N --used A B
: P java/lang/Object init
#1 a class that is gone, and a new final method that a class of the second client declares: its number follows that of the finding
: O p/A init | O p/B init | N p/A init method=11:close:()V | A q/B extends=p/B init | B q/A extends=p/A init method=1:close:()V
> client 1 class q/B NoClassDefFoundError 1 | client 1 breaks: 1 classes, 1 outcomes, 0 errors before, 1 lost
> client 2 class q/A IncompatibleClassChangeError 2 | client 2 breaks: 1 classes, 1 outcomes, 0 errors before, 1 lost
> used 1 1 H1 p/B - class - NoClassDefFoundError | used 1 2 Final p/A close()V override - IncompatibleClassChangeError
> clients: 2 clients, 2 broken, 0 refused
#1 a seal that permits fewer, of a class with a new final method, of which there is no line, though one that it still permits declares it
: O p/S sealed permits=q/C permits=q/D init | N p/S sealed permits=q/C init method=11:close:()V | A q/C extends=p/S init method=1:close:()V | B q/D extends=p/S init
> client 1 class q/C IncompatibleClassChangeError - | client 1 breaks: 1 classes, 1 outcomes, 0 errors before, 1 lost
> client 2 class q/D IncompatibleClassChangeError 1 | client 2 breaks: 1 classes, 1 outcomes, 0 errors before, 1 lost
> used 1 1 H2 p/S - extend - IncompatibleClassChangeError
> clients: 2 clients, 2 broken, 0 refused
#1 lines that explain nothing aren't printed, and a client that isn't linked has none : O p/A init | O p/B init | N p/C init | A p/A init | B q/B extends=p/B init
> client 1 jcompat: client: name p/A declared
> client 2 class q/B NoClassDefFoundError 2 | client 2 breaks: 1 classes, 1 outcomes, 0 errors before, 1 lost
> used 1 2 H1 p/B - class - NoClassDefFoundError
> clients: 2 clients, 1 broken, 1 refused
#1 the same as JSON
$ clients --platform P --old O --new N --used --json A
: O p/A init | O p/B init | N p/C init | A q/B extends=p/B init
> {"clients":[{"classes":1,"errors":0,"lost":[{"class":"q/B","error":"NoClassDefFoundError","explained":2,"member":null,"name":null,"operation":null,"receiver":null}],"number":1,"outcomes":1,"refusal":null}],"total":{"broken":1,"clients":1,"refused":0},"used":[{"class":"p/B","clients":1,"error":"NoClassDefFoundError","member":null,"number":2,"operation":"class","rule":"H1","seat":null}]}
#3 a new release that declares a name of the platform, before the verdict : P p/A init | N p/A init ! jcompat: new: overlap p/A
#4 a second client that isn't listed, behind the verdict, trees=6 ! jcompat: client 2: read fault
"#;

#[test]
fn clients_of_two_releases_are_judged(rt: HostRuntime) {
    for table in [ROWS, WORDS, DOCUMENTS, MODULES, USED] {
        see_table(&rt, table);
    }
}
