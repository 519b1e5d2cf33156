//! Texts and what they are, by JVMS 4.2 and 4.3.
use jc_desc::field::{Base, field_type};
use jc_desc::method::{method_type, returns_void, slots};
use jc_desc::names::{is_class_name, is_member_name};
use jc_desc::utf8::is_text;

const CLASS_NAMES: &[(&str, bool)] = &[
    ("java/lang/Object", true),
    ("A", true),
    ("p/<init>", true),
    ("", false),
    ("p//A", false),
    ("/p/A", false),
    ("p/A/", false),
    ("p.A", false),
    ("Lp/A;", false),
    ("[I", false),
];

#[test]
fn class_names_have_parts(rt: HostRuntime) {
    for (text, want) in CLASS_NAMES {
        assert!(rt; is_class_name(text.as_bytes()) == *want, "at {text}");
    }
}

const MEMBER_NAMES: &[(&str, bool, bool)] = &[
    ("run", true, true),
    ("<init>", true, true),
    ("<clinit>", true, true),
    ("a<b", true, false),
    ("<init", true, false),
    ("", false, false),
    ("a.b", false, false),
    ("a/b", false, false),
    ("a;", false, false),
    ("[", false, false),
];

#[test]
fn member_names_of_fields_and_methods(rt: HostRuntime) {
    for (text, field, method) in MEMBER_NAMES {
        assert!(rt;
            is_member_name(text.as_bytes(), false) == *field,
            "field {text}"
        );
        assert!(rt;
            is_member_name(text.as_bytes(), true) == *method,
            "method {text}"
        );
    }
}

const DESCRIPTORS: &[(&str, Option<u32>, bool)] = &[
    ("(IJ[Ljava/lang/String;)V", Some(4), true),
    ("()V", Some(0), true),
    ("(DD[J)Ljava/lang/Object;", Some(5), false),
    ("([[BLp/A;ZCSF)[D", Some(6), false),
    ("(I", None, false),
    ("(V)V", None, false),
    ("()X", None, false),
    ("()VV", None, false),
    ("()", None, false),
    ("(L;)V", None, false),
    ("I", None, false),
];

#[test]
fn slots_of_method_descriptors(rt: HostRuntime) {
    for (text, want, void) in DESCRIPTORS {
        assert!(rt; slots(text.as_bytes()) == *want, "slots of {text}");
        assert!(rt; returns_void(text.as_bytes()) == *void, "result of {text}");
    }
}

#[test]
fn types_are_read(rt: HostRuntime) {
    let method = method_type(rt.alloc(), b"(IJ[Ljava/lang/String;)V")
        .expect(&rt, "memory")
        .expect(&rt, "a method");
    let params = method.params.as_slice();
    assert!(rt; params.len() == 3);
    assert!(rt; params[1].base == Base::Long);
    assert!(rt; params[2].dims == 1);
    assert!(rt; params[2].base == Base::Class(b"java/lang/String"));
    assert!(rt; method.result.is_none());
}

#[test]
fn other_texts_are_no_types(rt: HostRuntime) {
    let method = method_type(rt.alloc(), b"(I").expect(&rt, "memory");
    assert!(rt; method.is_none());
    for text in ["V", "Lp/A", "Lp//A;", "L;", "[", "II", "", "p/A"] {
        assert!(rt; field_type(text.as_bytes()).is_none(), "at {text}");
    }
}

#[test]
fn arrays_have_at_most_255_dimensions(rt: HostRuntime) {
    let mut text = Vec::new(rt.alloc());
    for _ in 0..256 {
        text.push(b'[').expect(&rt, "memory");
    }
    text.push(b'I').expect(&rt, "memory");
    let most = field_type(&text[1..]).expect(&rt, "255 dimensions");
    assert!(rt; most.dims == 255);
    assert!(rt; field_type(&text).is_none());
}

const UTF8: &[([u8; 3], bool)] = &[
    ([0x41, 0x7f, 0x01], true),
    ([0xc0, 0x80, 0x41], true),
    ([0xe0, 0x80, 0x80], true),
    ([0xef, 0xbf, 0xbf], true),
    ([0x41, 0x00, 0x41], false),
    ([0x41, 0x80, 0x41], false),
    ([0x41, 0x41, 0xc0], false),
    ([0xc0, 0x41, 0x80], false),
    ([0x41, 0xe0, 0x80], false),
    ([0xf0, 0x80, 0x80], false),
];

#[test]
fn modified_utf8_by_its_shapes(rt: HostRuntime) {
    for (bytes, want) in UTF8 {
        assert!(rt; is_text(bytes) == *want, "at {bytes:?}");
    }
}
