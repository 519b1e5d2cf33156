//! Generated releases.
use super::see_table;

const MADE: &str = "#0 make 1 > classes 1 | findings 0 | collisions 0 | notes 0 | verdict compatible
#0 make 8 > classes 8 | findings 4 | collisions 1 | notes 0 | verdict incompatible
#0 make 64 > classes 64 | findings 86 | collisions 32 | notes 0 | verdict incompatible
#2 make 08 ! jcompat: usage: number 08
#2 make 0 ! jcompat: usage: number 0
#2 make 4097 ! jcompat: usage: number 4097
#2 make 1x ! jcompat: usage: number 1x
#2 make ~ ! jcompat: usage: number ~
#2 make 18446744073709551617 ! jcompat: usage: number 18446744073709551617
#2 make ! jcompat: usage: words
#2 make 8 --gate links ! jcompat: usage: words
";

#[test]
fn releases_of_a_number_of_classes(rt: HostRuntime) {
    see_table(&rt, MADE);
}
