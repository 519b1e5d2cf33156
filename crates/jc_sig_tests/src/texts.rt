//! Texts that are read and written back as the same bytes, and texts that aren't signatures, by JVMS
//! 4.7.9.1. Those of classes of the platform are what `javac` gives these.
use jc_sig::read::{read_class_sig, read_field_sig, read_method_sig};
use jc_sig::write::{write_class_sig, write_field_sig, write_method_sig};
use std::alloc::Global;
use std::process::Abort;

// What is written of what is read, where a signature is.
fn class_again(rt: &impl Abort, alloc: Global, text: &[u8]) -> Option<Vec<u8>> {
    let read = read_class_sig(alloc, text).expect(rt, "memory");
    let Some(tree) = read else {
        return None;
    };
    Some(write_class_sig(alloc, &tree).expect(rt, "memory"))
}

fn method_again(rt: &impl Abort, alloc: Global, text: &[u8]) -> Option<Vec<u8>> {
    let read = read_method_sig(alloc, text).expect(rt, "memory");
    let Some(tree) = read else {
        return None;
    };
    Some(write_method_sig(alloc, &tree).expect(rt, "memory"))
}

fn field_again(rt: &impl Abort, alloc: Global, text: &[u8]) -> Option<Vec<u8>> {
    let read = read_field_sig(alloc, text).expect(rt, "memory");
    let Some(tree) = read else {
        return None;
    };
    Some(write_field_sig(alloc, &tree).expect(rt, "memory"))
}

// Whether the text is given back, or isn't read, as it should.
fn is_as_wanted(again: &Option<Vec<u8>>, text: &[u8], read: bool) -> bool {
    match again {
        None => !read,
        Some(bytes) => read && bytes.as_slice() == text,
    }
}

const CLASSES: &[(&str, bool)] = &[
    (
        "<E:Ljava/lang/Enum<TE;>;>Ljava/lang/Object;Ljava/lang/constant/Constable;Ljava/lang/Comparable<TE;>;Ljava/io/Serializable;",
        true,
    ),
    ("<A:Lx:>Lp/A;", true),
    ("<T::Ljava/lang/Comparable<-TT;>;U:TT;L:[I>LA;", true),
    ("", false),
    ("<>Lp/A;", false),
    ("<A>Lp/A;", false),
    ("<A:Lx>Lp/A;", false),
    ("<A::>Lp/A;", false),
    ("<A:I>Lp/A;", false),
    ("TT;", false),
    ("[Lp/A;", false),
    ("Lp/A;x", false),
];

#[test]
fn class_signatures(rt: HostRuntime) {
    for (text, read) in CLASSES {
        let again = class_again(&rt, rt.alloc(), text.as_bytes());
        assert!(rt; is_as_wanted(&again, text.as_bytes(), *read), "at {text}");
    }
}

const METHODS: &[(&str, bool)] = &[
    (
        "<T:Ljava/lang/Object;:Ljava/lang/Comparable<-TT;>;>(Ljava/util/Collection<+TT;>;)TT;",
        true,
    ),
    (
        "<X:Ljava/lang/Throwable;>(Ljava/util/function/Supplier<+TX;>;)TT;^TX;",
        true,
    ),
    ("()TT;", true),
    ("(I[[JTT;)V^Ljava/io/IOException;^TX;", true),
    ("()", false),
    ("(V)V", false),
    ("()[V", false),
    ("()V^I", false),
    ("()V^[TT;", false),
    ("()V^", false),
    ("()VI", false),
];

#[test]
fn method_signatures(rt: HostRuntime) {
    for (text, read) in METHODS {
        let again = method_again(&rt, rt.alloc(), text.as_bytes());
        assert!(rt; is_as_wanted(&again, text.as_bytes(), *read), "at {text}");
    }
}

const FIELDS: &[(&str, bool)] = &[
    ("Ljava/util/Map<TK;+Lp/A<*>.B;>;", true),
    ("[[TT;", true),
    ("[I", true),
    ("I", false),
    ("TT", false),
    ("TT;x", false),
    ("T;", false),
    ("[V", false),
    ("Lp//A;", false),
    ("Lp/A", false),
    ("Lp/A.;", false),
    ("Lp/A<>;", false),
    ("Lp/A<I>;", false),
    ("Lp/A<+*>;", false),
];

#[test]
fn field_signatures(rt: HostRuntime) {
    for (text, read) in FIELDS {
        let again = field_again(&rt, rt.alloc(), text.as_bytes());
        assert!(rt; is_as_wanted(&again, text.as_bytes(), *read), "at {text}");
    }
}

// The middle, with so many of the front before it and of the back behind it.
fn nested(rt: &impl Abort, alloc: Global, count: usize, parts: &(&str, &str, &str)) -> Vec<u8> {
    let mut text = Vec::new(alloc);
    for _ in 0..count {
        text.extend_from_slice(parts.0.as_bytes())
            .expect(rt, "memory");
    }
    text.extend_from_slice(parts.1.as_bytes())
        .expect(rt, "memory");
    for _ in 0..count {
        text.extend_from_slice(parts.2.as_bytes())
            .expect(rt, "memory");
    }
    text
}

// Fronts and what is of depth 200 at most behind so many of them, but not behind one more.
const NESTED: &[((&str, &str, &str), usize)] = &[
    (("[", "I", ""), 199),
    (("[", "La<*>;", ""), 199),
    (("La<", "*", ">;"), 200),
    (("La<-", "TT;", ">;"), 199),
];

#[test]
fn types_are_at_most_200_deep(rt: HostRuntime) {
    for (parts, count) in NESTED {
        let text = nested(&rt, rt.alloc(), *count, parts);
        let again = field_again(&rt, rt.alloc(), text.as_slice());
        assert!(rt; is_as_wanted(&again, text.as_slice(), true));
        let text = nested(&rt, rt.alloc(), *count + 1, parts);
        let again = field_again(&rt, rt.alloc(), text.as_slice());
        assert!(rt; again.is_none());
    }
}
