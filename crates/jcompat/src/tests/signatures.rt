//! Notes on generic signatures.
use super::see_table;

const NOTES: &str = r#"$ check --signatures --platform P --old O --new N
: P java/lang/Object init
#0 type parameters changed : O p/A init signature=<T:Ljava/lang/Object;>Ljava/lang/Object; | N p/A init signature=<T::Ljava/lang/Comparable;>Ljava/lang/Object;
> compatible: 0 findings, 0 collisions, 0 notes | note signature p/A - parameters
#0 type parameters changed, as JSON : O p/A init signature=<T:Ljava/lang/Object;>Ljava/lang/Object; | N p/A init signature=<T::Ljava/lang/Comparable;>Ljava/lang/Object;
$ check --json --signatures --platform P --old O --new N
> {"collisions":[],"findings":[],"notes":[],"verdict":"compatible"} | {"signatures":[{"change":"parameters","class":"p/A","member":null}]}
#0 they are not asked for : O p/A init signature=<T:Ljava/lang/Object;>Ljava/lang/Object; | N p/A init signature=<T::Ljava/lang/Comparable;>Ljava/lang/Object;
$ check --platform P --old O --new N
> compatible: 0 findings, 0 collisions, 0 notes
#0 a changed result : O p/A init method=1:get:()Ljava/lang/Object;:()TT; | N p/A init method=1:get:()Ljava/lang/Object;:()Ljava/lang/Object;
> compatible: 0 findings, 0 collisions, 0 notes | note signature p/A get()Ljava/lang/Object; result
#0 a text that is unread : O p/A init signature=<T:Ljava/lang/Object;>Ljava/lang/Object; | N p/A init signature=<T
> compatible: 0 findings, 0 collisions, 0 notes | note signature p/A - unread
#0 the same text that is unread : O p/A init signature=<T | N p/A init signature=<T
> compatible: 0 findings, 0 collisions, 0 notes
"#;

const GRAMMAR: &str = r"$ check --signatures --platform P --old O --new N
: P java/lang/Object init
#0 a field's : O p/A init field=1:f:Ljava/util/Map;:Ljava/util/Map<TK;+Lp/A<*>.B;>; | N p/A init field=1:f:Ljava/util/Map;:Ljava/util/Map<TK;-Lp/A<*>.B;>;
> compatible: 0 findings, 0 collisions, 0 notes | note signature p/A f:Ljava/util/Map; whole
#0 a field's that is no reference type : O p/A init field=1:f:I:I | N p/A init field=1:f:I
> compatible: 0 findings, 0 collisions, 0 notes | note signature p/A f:I unread
#0 a field's with a variable that has no end : O p/A init field=1:f:Ljava/lang/Object;:TT; | N p/A init field=1:f:Ljava/lang/Object;:TT
> compatible: 0 findings, 0 collisions, 0 notes | note signature p/A f:Ljava/lang/Object; unread
#0 two parameters without bounds : O p/A init signature=<A:Lx:>Lp/A; | N p/A init signature=<A:Lx:>Lp/B;
> compatible: 0 findings, 0 collisions, 0 notes | note signature p/A - superclass
#0 the second of two parameters gone : O p/A init signature=<A:Lx:>Lp/A; | N p/A init signature=<A:>Lp/A;
> compatible: 0 findings, 0 collisions, 0 notes | note signature p/A - parameters
";

const ORDER: &str = r"$ check --signatures --platform P --old O --new N
: P java/lang/Object init
#0 a class before its members, private ones too, and one that has none now : O p/A init signature=Ljava/lang/Object;Lq/I<TT;>; method=2:m:()V:()V^TE; field=1:f:Lp/B;:Lp/B<*>; | O p/B init
: N p/A init signature=Ljava/lang/Object;Lq/J; method=2:m:()V:()V field=1:f:Lp/B; | N p/B init signature=Ljava/lang/Object;
> compatible: 0 findings, 0 collisions, 0 notes
> note signature p/A - interfaces | note signature p/A f:Lp/B; gone | note signature p/A m()V throws | note signature p/B - new
#0 a class that is public on one side alone : O p/A flags=20 init signature=Ljava/lang/Object; | N p/A init signature=Lp/B;
> compatible: 0 findings, 0 collisions, 0 notes
#0 a method that one side alone declares : O p/A init method=2:m:()V:()V | N p/A init
> compatible: 0 findings, 0 collisions, 0 notes
#1 gates and counts see no note : O p/A init signature=Ljava/lang/Object; | O p/B init | N p/A init signature=Lp/B;
$ check --signatures --warn --gate few,links --platform P --old O --new N
> 1 H1 p/B - class - NoClassDefFoundError | incompatible: 1 findings, 0 collisions, 0 notes | note signature p/A - superclass
#0 behind the warnings : O p/I flags=601 | N p/I flags=601 signature=Ljava/lang/Object; method=401:m:()V
$ check --warn --signatures --platform P --old O --new N
> compatible: 0 findings, 0 collisions, 0 notes | warning p/I m()V defaults | note signature p/I - new
";

#[test]
fn notes_tell_what_has_changed_of_a_signature(rt: HostRuntime) {
    for table in [NOTES, GRAMMAR, ORDER] {
        see_table(&rt, table);
    }
}
