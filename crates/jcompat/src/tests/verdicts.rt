//! Checks of two releases that have a verdict, and the witnesses of what they find.
use super::see_table;

const CLASSES: &str = r"$ check --platform P --old O --new N
: P java/lang/Object init
#0 an unchanged class : O p/A init | N p/A init > compatible: 0 findings, 0 collisions, 0 notes
#0 a package-private class gone : O p/A flags=20 init > compatible: 0 findings, 0 collisions, 0 notes
#1 classes gone, in the order of their names, which is not that of their paths, one of them hidden now : O p/A$B init | O p/A init | N p/A$B flags=20 init
> 1 H1 p/A - class - NoClassDefFoundError | 2 H1 p/A$B - class - IllegalAccessError | incompatible: 2 findings, 0 collisions, 0 notes
* d/000001/w0/U.class | item w0/U class p/A - - | NoClassDefFoundError
* d/000002/w0/U.class | item w0/U class p/A$B - - | IllegalAccessError
#0 final is free with only a private constructor : O p/A method=2:<init>:()V | N p/A flags=31 method=2:<init>:()V
> compatible: 0 findings, 0 collisions, 0 notes
#1 a class made final : O p/A init | N p/A flags=31 init
> 1 H2 p/A - extend - IncompatibleClassChangeError | incompatible: 1 findings, 0 collisions, 0 notes
* d/000001/w0/Y.class | class w0/Y | IncompatibleClassChangeError
#1 a seal that permits fewer, of classes in no folder : O p/S flags=601 sealed permits=q/C permits=r/D | N p/S flags=601 sealed permits=q/C
> 1 H2 p/S - implement - IncompatibleClassChangeError | incompatible: 1 findings, 0 collisions, 0 notes
* d/000001/r/D.class | class r/D | IncompatibleClassChangeError
#0 a seal that permits the same in another order : O p/S flags=601 sealed permits=q/C permits=r/D permits=s/E | N p/S flags=601 sealed permits=s/E permits=q/C permits=r/D
> compatible: 0 findings, 0 collisions, 0 notes
#1 a seal that drops a name in the middle and has one more : O p/S flags=601 sealed permits=q/C permits=r/D permits=s/E permits=t/F | N p/S flags=601 sealed permits=t/F permits=s/E permits=q/C permits=u/G
> 1 H2 p/S - implement - IncompatibleClassChangeError | incompatible: 1 findings, 0 collisions, 0 notes
* d/000001/r/D.class | class r/D | IncompatibleClassChangeError
#1 an interface that became a class : O p/I flags=601 | N p/I init
> 1 H3 p/I - assign - VerifyError | incompatible: 1 findings, 0 collisions, 0 notes
* d/000001/w0/U.class | item w0/U assign java/lang/Object p/I - | VerifyError
#1 a class that doesn't load, since its superclass is gone : O p/A init | N p/A extends=x/Gone init
> 1 H1 p/A - class - NoClassDefFoundError | note unloadable new p/A NoClassDefFoundError | incompatible: 1 findings, 0 collisions, 1 notes
#1 a superclass that left the chain : O p/A extends=p/B init | O p/B init | N p/A init | N p/B init
> 1 H4 p/A p/B assign - VerifyError | incompatible: 1 findings, 0 collisions, 0 notes
* d/000001/w0/U.class | item w0/U assign p/A p/B - | VerifyError
#1 a hidden class that lost a superclass : O,N p/B flags=20 init | O,N p/A init method=9:s:()Lp/S; method=9:b:(Lp/B;)V | O p/S flags=20 extends=p/B init | N p/S flags=20 init
> 1 H4 p/S p/B assign java/lang/Object VerifyError | incompatible: 1 findings, 0 collisions, 0 notes
* d/000001/w0/Y.class | item w0/Y assign p/S p/B - | VerifyError
#1 a hidden interface that became a class : O,N p/A init method=9:i:()Lp/I; | O p/I flags=600 | N p/I flags=20 init
> 1 H3 p/I - assign java/lang/Object VerifyError | incompatible: 1 findings, 0 collisions, 0 notes
* d/000001/w0/Y.class | item w0/Y assign java/lang/Object p/I - | VerifyError
#0 superclasses in a cycle : O p/A extends=p/B init | O p/B extends=p/A init | N p/A extends=p/B init | N p/B extends=p/A init
> note unloadable old p/A ClassCircularityError | note unloadable old p/B ClassCircularityError
> note unloadable new p/A ClassCircularityError | note unloadable new p/B ClassCircularityError
> compatible: 0 findings, 0 collisions, 4 notes
#0 a class that extends itself : O p/A extends=p/A init
> note unloadable old p/A ClassCircularityError | compatible: 0 findings, 0 collisions, 1 notes
#0 files that are passed over : O bytes META-INF/A.class | O bytes module-info.class | N bytes notes.txt
> compatible: 0 findings, 0 collisions, 0 notes
";

const INITIALIZERS: &str = r"$ check --platform P --old O --new N
: P java/lang/Object init | O,N p/B flags=20 init
: O p/C extends=p/B init | N p/C init
#1 a class that lost a hidden superclass, which an initializer takes : O,N p/A method=1:<init>:(Lp/B;)V
> 1 H4 p/C p/B assign java/lang/Object VerifyError | incompatible: 1 findings, 0 collisions, 0 notes
* d/000001/w0/Y.class | item w0/Y assign p/C p/B - | VerifyError
#1 the same, of an initializer that subclasses alone call : O,N p/A init method=4:<init>:(Lp/B;)V
> 1 H4 p/C p/B assign p/A VerifyError | incompatible: 1 findings, 0 collisions, 0 notes
* d/000001/w0/Y.class | item w0/Y assign p/C p/B - | VerifyError
#1 the same, of a public initializer of an abstract class : O,N p/A flags=421 init method=1:<init>:(Lp/B;)V
> 1 H4 p/C p/B assign p/A VerifyError | incompatible: 1 findings, 0 collisions, 0 notes
* d/000001/w0/Y.class | item w0/Y assign p/C p/B - | VerifyError
#0 the same, of an initializer for classes of its package : O,N p/A init method=0:<init>:(Lp/B;)V
> compatible: 0 findings, 0 collisions, 0 notes
#1 two hidden classes, which two initializers take that subclasses alone call : O,N p/A init method=4:<init>:(Lp/B;I)V method=4:<init>:(JLp/S;)V
: O p/S flags=20 extends=p/B init | N p/S flags=20 init
> 1 H4 p/C p/B assign p/A VerifyError | 2 H4 p/S p/B assign p/A VerifyError | incompatible: 2 findings, 0 collisions, 0 notes
* d/000001/w0/Y.class | item w0/Y assign p/C p/B - | VerifyError
* d/000002/w0/Y.class | item w0/Y assign p/S p/B - | VerifyError
";

const SEATS: &str = r"$ check --platform P --old O --new N
: P java/lang/Object init | O,N p/T flags=20 init
: O p/S flags=20 extends=p/T init | N p/S flags=20 init
#1 a hidden class that lost a superclass, each exposed to a seat of its own : O,N p/A init method=c:s:()Lp/S; | O,N p/B init method=c:t:(Lp/T;)V
> 1 H4 p/S p/T assign p/A VerifyError | incompatible: 1 findings, 0 collisions, 0 notes
* d/000001/w0/Y.class d/000001/w0/Z.class | item w0/Y assign p/S p/T - | VerifyError
#1 the same, with a third seat to which both are exposed : O,N p/A init method=c:s:()Lp/S; | O,N p/B init method=c:t:(Lp/T;)V
: O,N p/C init method=4:s:()Lp/S; method=4:t:(Lp/T;)V
> 1 H4 p/S p/T assign p/C VerifyError | incompatible: 1 findings, 0 collisions, 0 notes
* d/000001/w0/Y.class | item w0/Y assign p/S p/T - | VerifyError
#1 the same, where the one seat permits a name and the other another one too : O,N p/A sealed init permits=q/C method=c:s:()Lp/S;
: O,N p/B sealed init permits=q/C permits=r/D method=c:t:(Lp/T;)V
> 1 H4 p/S p/T assign p/A VerifyError | incompatible: 1 findings, 0 collisions, 0 notes
* d/000001/q/C.class d/000001/r/D.class | item r/D assign p/S p/T - | VerifyError
#0 two seats that permit the same name alone : O,N p/A sealed init permits=q/C method=c:s:()Lp/S; | O,N p/B sealed init permits=q/C method=c:t:(Lp/T;)V
> compatible: 0 findings, 0 collisions, 0 notes
";

const MEMBERS: &str = r"$ check --platform P --old O --new N
: P java/lang/Object init
#0 a method that moved to the superclass : O p/B init | O p/A extends=p/B init method=1:m:()V | N p/B init method=1:m:()V | N p/A extends=p/B init
> compatible: 0 findings, 0 collisions, 0 notes
#1 a method whose result changed : O p/A init method=1:m:()Ljava/lang/Object; | N p/A init method=1:m:()Ljava/lang/String;
> 1 H8 p/A m()Ljava/lang/Object; invokevirtual java/lang/Object NoSuchMethodError | incompatible: 1 findings, 0 collisions, 0 notes
#1 a method made static : O p/A init method=1:m:()V | N p/A init method=9:m:()V
> 1 H8 p/A m()V invokevirtual java/lang/Object IncompatibleClassChangeError | incompatible: 1 findings, 0 collisions, 0 notes
* d/000001/w0/Y.class | item w0/Y invokevirtual p/A m()V p/A | IncompatibleClassChangeError
#0 an added private method, which captures : O p/A init | N p/A init method=2:run:()V
> 1 Capture p/A run()V invokevirtual - IllegalAccessError | compatible: 0 findings, 1 collisions, 0 notes
* d/000001/w0/J.class d/000001/w0/U.class d/000001/w0/Y.class | item w0/U invokevirtual w0/Y run()V w0/Y | IllegalAccessError
#1 a constructor made protected : O p/A init | N p/A method=4:<init>:()V
> 1 H5 p/A <init>()V new - IllegalAccessError | incompatible: 1 findings, 0 collisions, 0 notes
* d/000001/w0/U.class | item w0/U new p/A <init>()V - | IllegalAccessError
#1 an interface that no longer inherits a method : O p/J flags=601 method=401:k:()V | O p/I flags=601 implements=p/J method=2:k:()V | N p/J flags=601 method=401:k:()V | N p/I flags=601 method=2:k:()V
> 1 H9 p/I k()V inherit - NoSuchMethodError | incompatible: 1 findings, 0 collisions, 0 notes
* d/000001/w0/J.class d/000001/w0/U.class | item w0/U invokeinterface w0/J k()V w0/J | NoSuchMethodError
#1 a method of an interface that is gone : O p/I flags=601 method=401:k:()V | N p/I flags=601
> 1 H8 p/I k()V invokeinterface java/lang/Object NoSuchMethodError | 2 H9 p/I k()V inherit - NoSuchMethodError
> incompatible: 2 findings, 0 collisions, 0 notes
#0 a constant added to an interface : O p/I flags=601 | N p/I flags=601 field=19:f:I
> 1 Constant p/I f:I getfield - IncompatibleClassChangeError | compatible: 0 findings, 1 collisions, 0 notes
* d/000001/w0/U.class d/000001/w0/Y.class d/000001/w0/Z.class | item w0/U getfield w0/Y f:I w0/Y | IncompatibleClassChangeError
#1 a protected static field that moved to one of two subclasses : O p/B flags=20 init field=c:f:I | O p/C extends=p/B init | O p/D extends=p/B init | N p/B flags=20 init
: N p/C extends=p/B init field=c:f:I | N p/D extends=p/B init
> 1 H7 p/C f:I getstatic p/D IllegalAccessError | 2 H7 p/D f:I getstatic p/C NoSuchFieldError
> incompatible: 2 findings, 0 collisions, 0 notes
#1 a field made final : O p/A init field=1:f:I | N p/A init field=11:f:I
> 1 H7 p/A f:I putfield java/lang/Object IllegalAccessError | incompatible: 1 findings, 0 collisions, 0 notes
* d/000001/w0/Y.class | item w0/Y putfield p/A f:I p/A | IllegalAccessError
";

const FINALS: &str = r"$ check --platform P --old O --new N
#1 methods made final, one that could be overridden, and a new one : P java/lang/Object init method=1:toString:()Ljava/lang/String; | O p/A init | N p/A init method=11:toString:()Ljava/lang/String; method=11:close:()V
> 1 H6 p/A toString()Ljava/lang/String; override - IncompatibleClassChangeError | 2 Final p/A close()V override - IncompatibleClassChangeError
> incompatible: 1 findings, 1 collisions, 0 notes
* d/000001/w0/Y.class | class w0/Y | IncompatibleClassChangeError
* d/000002/w0/Y.class | class w0/Y | IncompatibleClassChangeError
";

const LIBRARY: &str = r"$ check --platform P --old O --new N
: P java/lang/Object init method=1:toString:()Ljava/lang/String; method=1:equals:(Ljava/lang/Object;)Z method=1:hashCode:()I method=4:clone:()Ljava/lang/Object;
: P java/lang/Runnable flags=601 method=401:run:()V
: P java/lang/Comparable flags=601 method=401:compareTo:(Ljava/lang/Object;)I
: O,N lib/Shape flags=601 sealed method=401:area:()I method=401:name:()Ljava/lang/String;
: O,N lib/Base flags=421 sealed implements=lib/Shape field=12:name:Ljava/lang/String; method=4:<init>:(Ljava/lang/String;)V method=1:name:()Ljava/lang/String; method=1:toString:()Ljava/lang/String;
: O,N lib/Square flags=31 sealed extends=lib/Base implements=java/lang/Comparable field=12:side:I method=1:<init>:(I)V method=1:area:()I method=1:compareTo:(Llib/Square;)I method=1001:compareTo:(Ljava/lang/Object;)I
: O,N lib/Circle flags=31 sealed extends=lib/Base field=12:radius:I method=1:<init>:(I)V method=1:area:()I
: O,N lib/Canvas$Cursor flags=31 sealed nest_host=lib/Canvas method=0:<init>:(Llib/Canvas;)V method=1:next:()Llib/Shape;
: O,N lib/Sink flags=601 sealed method=401:put:(Llib/Shape;)V
: O,N lib/Buffer flags=20 sealed method=0:<init>:()V method=0:grow:()V
: O,N lib/Log sealed init method=1:line:(Ljava/lang/String;)V
: O lib/Canvas sealed nest_member=lib/Canvas$Cursor field=2:shapes:[Llib/Shape; field=2:count:I init method=1:add:(Llib/Shape;)V method=1:total:()I
: O lib/Task sealed implements=java/lang/Runnable field=14:canvas:Llib/Canvas; method=1:<init>:(Llib/Canvas;)V method=1:run:()V
: O lib/FileLog sealed extends=lib/Log method=1:<init>:(Ljava/lang/String;)V method=1:line:(Ljava/lang/String;)V
: O lib/Shapes flags=31 sealed field=19:MAX:I:64 method=2:<init>:()V method=9:square:(I)Llib/Shape;
: N lib/Canvas sealed nest_member=lib/Canvas$Cursor field=2:shapes:[Llib/Shape; field=2:count:I init method=1:add:(Llib/Shape;)V method=1:total:()I method=2:grow:(I)V
: N lib/Task sealed implements=java/lang/Runnable field=14:canvas:Llib/Canvas; method=1:<init>:(Llib/Canvas;)V method=1:run:()V method=1:cancel:()V
: N lib/FileLog sealed extends=lib/Log method=1:<init>:(Ljava/lang/String;)V method=1:line:(Ljava/lang/String;)V method=2:flush:()V
> 1 Capture lib/Canvas grow(I)V invokevirtual - IllegalAccessError | 2 Capture lib/FileLog flush()V invokevirtual - IllegalAccessError
#0 a library of twelve classes that gains two private helpers : N lib/Shapes flags=31 sealed field=19:MAX:I:64 method=2:<init>:()V method=9:square:(I)Llib/Shape;
> compatible: 0 findings, 2 collisions, 0 notes
#0 the same, with another constant value : N lib/Shapes flags=31 sealed field=19:MAX:I:65 method=2:<init>:()V method=9:square:(I)Llib/Shape;
> note constant lib/Shapes MAX:I | compatible: 0 findings, 2 collisions, 1 notes
";

#[test]
fn checks_have_their_verdicts_and_witnesses(rt: HostRuntime) {
    for table in [CLASSES, INITIALIZERS, SEATS, MEMBERS, FINALS, LIBRARY] {
        see_table(&rt, table);
    }
}
