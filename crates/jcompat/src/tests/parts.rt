//! Reports of several parts.
use super::see_table;

const PARTS: &str =
    r#"$ check --json --calls --dropped --signatures --warn --platform P --old O --new N
: P java/lang/Object init | O,N p/I flags=601
: O p/A implements=p/I init signature=Ljava/lang/Object;Lp/I; | N p/A init signature=Ljava/lang/Object;
: O p/J flags=601 | N p/J flags=601 method=401:k:()V
: O p/E flags=4031 | N p/E flags=4031 field=4019:A:Lp/E;
#0 all parts as JSON, of which each is one put, so that there is no sixth one to fail, out=6
> {"collisions":[],"findings":[],"notes":[],"verdict":"compatible"} | {"warnings":[{"class":"p/J","kind":"defaults","member":"k()V"}]}
> {"signatures":[{"change":"interfaces","class":"p/A","member":null}]} | {"dropped":[{"class":"p/A","interface":"p/I"}]}
> {"calls":[{"class":"p/E","kind":"constants","member":null,"target":null}]}
#5 the second part is cut off, and no further one is put, out=2
> {"collisions":[],"findings":[],"notes":[],"verdict":"compatible"} | {"warnings":[{"class":"p/J","kin\
#5 the third part is cut off, out=3
> {"collisions":[],"findings":[],"notes":[],"verdict":"compatible"} | {"warnings":[{"class":"p/J","kind":"defaults","member":"k()V"}]}
> {"signatures":[{"change":"interfac\
#5 the fourth part is cut off, out=4
> {"collisions":[],"findings":[],"notes":[],"verdict":"compatible"} | {"warnings":[{"class":"p/J","kind":"defaults","member":"k()V"}]}
> {"signatures":[{"change":"interfaces","class":"p/A","member":null}]} | {"dropped":[{"class":"p/\
#5 the last part is cut off, out=5
> {"collisions":[],"findings":[],"notes":[],"verdict":"compatible"} | {"warnings":[{"class":"p/J","kind":"defaults","member":"k()V"}]}
> {"signatures":[{"change":"interfaces","class":"p/A","member":null}]} | {"dropped":[{"class":"p/A","interface":"p/I"}]}
> {"calls":[{"class":"p/E","kind":"cons\
#5 the same as text, where the put behind the verdict fails, out=2
$ check --calls --dropped --signatures --warn --platform P --old O --new N
> compatible: 0 findings, 0 collisions, 0 notes | warning p/J k\
#0 as text there are five puts too, out=6
$ check --calls --dropped --signatures --warn --platform P --old O --new N
> compatible: 0 findings, 0 collisions, 0 notes | warning p/J k()V defaults | note signature p/A - interfaces | dropped p/A p/I | call p/E - constants
"#;

#[test]
fn a_put_fails_between_two_parts(rt: HostRuntime) {
    see_table(&rt, PARTS);
}
