//! Interfaces that classes drop.
use super::see_table;

const DROPPED: &str = r#"$ check --dropped --platform P --old O --new N
: P java/lang/Object init | O,N p/I flags=601 method=401:run:()V
#0 a class that no longer implements an interface : O p/A implements=p/I init method=1:run:()V | N p/A init method=1:run:()V
> compatible: 0 findings, 0 collisions, 0 notes | dropped p/A p/I
#0 the same as JSON : O p/A implements=p/I init method=1:run:()V | N p/A init method=1:run:()V
$ check --json --dropped --platform P --old O --new N
> {"collisions":[],"findings":[],"notes":[],"verdict":"compatible"} | {"dropped":[{"class":"p/A","interface":"p/I"}]}
#0 it isn't asked for : O p/A implements=p/I init method=1:run:()V | N p/A init method=1:run:()V
$ check --platform P --old O --new N
> compatible: 0 findings, 0 collisions, 0 notes
#0 a class that has it by another one now : O,N p/J flags=601 implements=p/I | O p/A implements=p/I init method=1:run:()V | N p/A implements=p/J init method=1:run:()V
> compatible: 0 findings, 0 collisions, 0 notes
#0 one line for a class and those below it : O p/A implements=p/I init method=1:run:()V | O p/B extends=p/A init | N p/A init method=1:run:()V | N p/B extends=p/A init
> compatible: 0 findings, 0 collisions, 0 notes | dropped p/A p/I
#0 an interface that clients can't name, and that a member takes : O,N p/H flags=600 method=401:run:()V | O,N p/X init method=9:take:(Lp/H;)V | O p/A implements=p/H init method=1:run:()V | N p/A init method=1:run:()V
> compatible: 0 findings, 0 collisions, 0 notes | dropped p/A p/H
#0 and that the library alone takes : O,N p/H flags=600 method=401:run:()V | O,N p/X init method=8:take:(Lp/H;)V | O p/A implements=p/H init method=1:run:()V | N p/A init method=1:run:()V
> compatible: 0 findings, 0 collisions, 0 notes
#0 behind the notes on signatures : O p/A implements=p/I init method=1:run:()V signature=Ljava/lang/Object;Lp/I; | N p/A init method=1:run:()V signature=Ljava/lang/Object;
$ check --dropped --signatures --warn --platform P --old O --new N
> compatible: 0 findings, 0 collisions, 0 notes | note signature p/A - interfaces | dropped p/A p/I
"#;

#[test]
fn a_class_drops_an_interface(rt: HostRuntime) {
    see_table(&rt, DROPPED);
}
