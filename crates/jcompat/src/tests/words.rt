//! What words ask for, and words that ask for nothing.
use super::see_table;

const OVER_TREES: &str = r##": P java/lang/Object init | O p/A init | N p/A init method=2:run:()V
#0 check --new=N --old O --platform P
> 1 Capture p/A run()V invokevirtual - IllegalAccessError | compatible: 0 findings, 1 collisions, 0 notes
#0 check --platform P --old O --new N --
> 1 Capture p/A run()V invokevirtual - IllegalAccessError | compatible: 0 findings, 1 collisions, 0 notes
#0 check --platform P --old O --new N --json
> {"collisions":[{"class":"p/A","error":"IllegalAccessError","member":"run()V","number":1,"operation":"invokevirtual","rule":"Capture","seat":null}],"findings":[],"notes":[],"verdict":"compatible"}
#2 ~ ! jcompat: usage: unknown command ~
#2 compare ! jcompat: usage: unknown command compare
#2 a\bé^ check ! jcompat: usage: unknown command a\\b\xc3\xa9\x0a
#2 check --platform P ! jcompat: usage: words
#2 check --platform P --old O --new N --old O ! jcompat: usage: words
#2 check --platform P --old O --new ! jcompat: usage: words
#2 check --platform P --old O --new N --json=x ! jcompat: usage: words
#2 check --platform P --old O --new N ~ ! jcompat: usage: words
#2 check --platform P --old O --new N --help ! jcompat: usage: words
#2 link --platform P --release R --client C --json ! jcompat: usage: words
#2 no words
$
! jcompat: usage: no command
"##;

const OVER_OTHERS: &str =
    r##"#1 check --json --new N --platform=P --old O : P java/lang/Object init | O p/A init
> {"collisions":[],"findings":[{"class":"p/A","error":"NoClassDefFoundError","member":null,"number":1,"operation":"class","rule":"H1","seat":null}],"notes":[],"verdict":"incompatible"}
#0 link --client C --release R --platform P : P java/lang/Object init > links: 0 outcomes, 0 errors
#3 check --json --platform P --old O --new N ! jcompat: platform: bad root missing
"##;

const DELETE: &str = "#2 the byte behind the last that is printed as itself
$ a\u{7f}b ! jcompat: usage: unknown command a\\x7fb
";

#[test]
fn words_are_taken_or_refused(rt: HostRuntime) {
    for table in [OVER_TREES, OVER_OTHERS, DELETE] {
        see_table(&rt, table);
    }
}
