//! Class files made byte by byte: what their code does, and where it is refused (JVMS 4.7.3, 4.9.1, 4.10.1, 6.5).
use jc_base::name::Name;
use jc_code::items::{CodeError, items_of};
use jc_facts::act::Act;
use jc_facts::client::{Item, Place};
use jc_facts::code_fault::CodeReason;
use std::alloc::Global;
use std::process::Abort;

// ---- what `items_of` answers, as text: a line for each item, or a refusal with its place

fn act_word(act: Act) -> &'static [u8] {
    match act {
        Act::GetStatic => b"getstatic",
        Act::PutStatic => b"putstatic",
        Act::GetField => b"getfield",
        Act::PutField => b"putfield",
        Act::InvokeVirtual => b"invokevirtual",
        Act::InvokeSpecial => b"invokespecial",
        Act::InvokeSpecialInterface => b"invokespecial-interface",
        Act::InvokeStatic => b"invokestatic",
        Act::InvokeStaticInterface => b"invokestatic-interface",
        Act::InvokeInterface => b"invokeinterface",
        _ => b"another act",
    }
}

fn place_word(place: Place) -> &'static [u8] {
    match place {
        Place::Init => b" init",
        Place::Clinit => b" clinit",
        Place::Other => b" other",
    }
}

fn reason_word(reason: CodeReason) -> &'static [u8] {
    match reason {
        CodeReason::BadLayout => b"BadLayout ",
        CodeReason::BadOpcode => b"BadOpcode ",
        CodeReason::CutShort => b"CutShort ",
        CodeReason::BadEntry => b"BadEntry ",
    }
}

fn put_name(rt: &impl Abort, out: &mut Vec<u8>, name: &Name) {
    out.push(b' ').expect(rt, "memory");
    out.extend_from_slice(name.as_bytes()).expect(rt, "memory")
}

fn put_receiver(rt: &impl Abort, out: &mut Vec<u8>, receiver: &Option<Name>) {
    match receiver {
        Some(name) => put_name(rt, out, name),
        None => out.extend_from_slice(b" -").expect(rt, "memory"),
    }
}

// An item whose word is followed by two names.
fn put_two(rt: &impl Abort, out: &mut Vec<u8>, word: &[u8], first: &Name, second: &Name) {
    out.extend_from_slice(word).expect(rt, "memory");
    put_name(rt, out, first);
    put_name(rt, out, second)
}

fn put_item(rt: &impl Abort, out: &mut Vec<u8>, item: &Item) {
    match item {
        Item::Class { class } => {
            out.extend_from_slice(b"class").expect(rt, "memory");
            put_name(rt, out, class);
        }
        Item::New { class, descriptor } => put_two(rt, out, b"new", class, descriptor),
        Item::Init { class, descriptor } => put_two(rt, out, b"init", class, descriptor),
        Item::Assign { from, to } => put_two(rt, out, b"assign", from, to),
        Item::Access {
            act,
            class,
            key,
            receiver,
            place,
        } => {
            put_two(rt, out, act_word(*act), class, &key.name);
            put_name(rt, out, &key.descriptor);
            put_receiver(rt, out, receiver);
            out.extend_from_slice(place_word(*place))
                .expect(rt, "memory");
        }
    }
    out.push(b'\n').expect(rt, "memory");
}

// A refusal at this place.
fn put_refusal(
    rt: &impl Abort,
    alloc: Global,
    out: &mut Vec<u8>,
    reason: CodeReason,
    place: usize,
) {
    out.extend_from_slice(reason_word(reason))
        .expect(rt, "memory");
    let digits = format!(in alloc; "{place}").expect(rt, "memory");
    out.extend_from_slice(digits.as_str().as_bytes())
        .expect(rt, "memory");
}

// The place of a refusal is counted from this offset on.
fn told(rt: &impl Abort, alloc: Global, bytes: &[u8], from: usize) -> Vec<u8> {
    let mut out = Vec::new(alloc);
    assert!(rt; bytes.len() <= 4_194_304);
    match items_of(alloc, bytes) {
        Ok(items) => {
            for item in items.as_slice() {
                put_item(rt, &mut out, item);
            }
        }
        Err(CodeError::BadCode { offset, reason }) => {
            put_refusal(
                rt,
                alloc,
                &mut out,
                reason,
                (offset as usize).saturating_sub(from),
            );
        }
        Err(CodeError::Memory) => panic!(rt; "memory"),
    }
    out
}

// ---- whole files

struct File {
    bytes: &'static [u8],
    want: &'static [u8],
}

const FILES: &[File] = &[
    // q/U with `public static void use() { }`, whose return stands at 94.
    File {
        bytes: b"\xca\xfe\xba\xbe\0\0\0\x34\0\x08\x07\0\x02\x01\0\x03q/U\x07\0\x04\x01\0\x10java/lang/Object\x01\0\x03use\x01\0\x03()V\x01\0\x04Code\0\x21\0\x01\0\x03\0\0\0\0\0\x01\0\x09\0\x05\0\x06\0\x01\0\x07\0\0\0\x0d\0\0\0\0\0\0\0\x01\xb1\0\0\0\0\0\0",
        want: b"",
    },
    // The same with an opcode that no instruction has, and with one of three bytes.
    File {
        bytes: b"\xca\xfe\xba\xbe\0\0\0\x34\0\x08\x07\0\x02\x01\0\x03q/U\x07\0\x04\x01\0\x10java/lang/Object\x01\0\x03use\x01\0\x03()V\x01\0\x04Code\0\x21\0\x01\0\x03\0\0\0\0\0\x01\0\x09\0\x05\0\x06\0\x01\0\x07\0\0\0\x0d\0\0\0\0\0\0\0\x01\xca\0\0\0\0\0\0",
        want: b"BadOpcode 94",
    },
    File {
        bytes: b"\xca\xfe\xba\xbe\0\0\0\x34\0\x08\x07\0\x02\x01\0\x03q/U\x07\0\x04\x01\0\x10java/lang/Object\x01\0\x03use\x01\0\x03()V\x01\0\x04Code\0\x21\0\x01\0\x03\0\0\0\0\0\x01\0\x09\0\x05\0\x06\0\x01\0\x07\0\0\0\x0d\0\0\0\0\0\0\0\x01\xb8\0\0\0\0\0\0",
        want: b"CutShort 94",
    },
    // w0/U: its `<init>` calls that of `java/lang/Object`, and `use(Lw0/Y;)V` calls `run()V` on its parameter.
    File {
        bytes: b"\xca\xfe\xba\xbe\0\0\0\x34\0\x11\x01\0\x04w0/U\x07\0\x01\x01\0\x10java/lang/Object\x07\0\x03\x01\0\x06<init>\x01\0\x03()V\x01\0\x04Code\x0c\0\x05\0\x06\x0a\0\x04\0\x08\x01\0\x03use\x01\0\x09(Lw0/Y;)V\x01\0\x04w0/Y\x07\0\x0c\x01\0\x03run\x0c\0\x0e\0\x06\x0a\0\x0d\0\x0f\0\x21\0\x02\0\x04\0\0\0\0\0\x02\0\x01\0\x05\0\x06\0\x01\0\x07\0\0\0\x11\0\x01\0\x01\0\0\0\x05\x2a\xb7\0\x09\xb1\0\0\0\0\0\x09\0\x0a\0\x0b\0\x01\0\x07\0\0\0\x11\0\x01\0\x01\0\0\0\x05\x2a\xb6\0\x10\xb1\0\0\0\0\0\0",
        want: b"init java/lang/Object ()V\ninvokevirtual w0/Y run ()V w0/Y other\n",
    },
    // The same at the last major that is read, and at the next one, whose version is refused.
    File {
        bytes: b"\xca\xfe\xba\xbe\0\0\0\x41\0\x11\x01\0\x04w0/U\x07\0\x01\x01\0\x10java/lang/Object\x07\0\x03\x01\0\x06<init>\x01\0\x03()V\x01\0\x04Code\x0c\0\x05\0\x06\x0a\0\x04\0\x08\x01\0\x03use\x01\0\x09(Lw0/Y;)V\x01\0\x04w0/Y\x07\0\x0c\x01\0\x03run\x0c\0\x0e\0\x06\x0a\0\x0d\0\x0f\0\x21\0\x02\0\x04\0\0\0\0\0\x02\0\x01\0\x05\0\x06\0\x01\0\x07\0\0\0\x11\0\x01\0\x01\0\0\0\x05\x2a\xb7\0\x09\xb1\0\0\0\0\0\x09\0\x0a\0\x0b\0\x01\0\x07\0\0\0\x11\0\x01\0\x01\0\0\0\x05\x2a\xb6\0\x10\xb1\0\0\0\0\0\0",
        want: b"init java/lang/Object ()V\ninvokevirtual w0/Y run ()V w0/Y other\n",
    },
    File {
        bytes: b"\xca\xfe\xba\xbe\0\0\0\x42\0\x08\x07\0\x02\x01\0\x03q/U\x07\0\x04\x01\0\x10java/lang/Object\x01\0\x03use\x01\0\x03()V\x01\0\x04Code\0\x21\0\x01\0\x03\0\0\0\0\0\x01\0\x09\0\x05\0\x06\0\x01\0\x07\0\0\0\x0d\0\0\0\0\0\0\0\x01\xb1\0\0\0\0\0\0",
        want: b"BadLayout 4",
    },
];

// ---- p/A, a subclass of p/B with one method

const POOL: &[&[u8]] = &[
    b"\x01\0\x03p/A", // 1
    b"\x07\0\x01", // 2 this class
    b"\x01\0\x03p/B", // 3
    b"\x07\0\x03", // 4 its superclass
    b"\x01\0\x04Code", // 5
    b"\x01\0\x10BootstrapMethods", // 6
    b"\x01\0\x03q/C", // 7
    b"\x07\0\x07", // 8 another class
    b"\x01\0\x06[Lq/C;", // 9
    b"\x07\0\x09", // 10 an array class
    b"\x01\0\x06<init>", // 11
    b"\x01\0\x03()V", // 12
    b"\x0c\0\x0b\0\x0c", // 13 <init>()V
    b"\x01\0\x01f", // 14
    b"\x01\0\x01I", // 15
    b"\x0c\0\x0e\0\x0f", // 16 f:I
    b"\x01\0\x01m", // 17
    b"\x0c\0\x11\0\x0c", // 18 m()V
    b"\x09\0\x08\0\x10", // 19 Fieldref q/C.f:I
    b"\x0a\0\x08\0\x12", // 20 Methodref q/C.m()V
    b"\x0b\0\x08\0\x12", // 21 InterfaceMethodref q/C.m()V
    b"\x0a\0\x08\0\x0d", // 22 Methodref q/C.<init>()V
    b"\x0a\0\x04\0\x0d", // 23 Methodref p/B.<init>()V
    b"\x0a\0\x02\0\x0d", // 24 Methodref p/A.<init>()V
    b"\x0a\0\x0a\0\x12", // 25 Methodref of the array class, m()V
    b"\x0a\0\x0a\0\x0d", // 26 Methodref of the array class, <init>()V
    b"\x03\0\0\0\x07", // 27 Integer
    b"\x04\x3f\x80\0\0", // 28 Float
    b"\x08\0\x0e", // 29 String
    b"\x05\0\0\0\0\0\0\0\x01", // 30 Long, and 31
    b"\x06\0\0\0\0\0\0\0\0", // 32 Double, and 33
    b"\x0f\x06\0\x14", // 34 MethodHandle invokestatic q/C.m()V
    b"\x10\0\x0c", // 35 MethodType
    b"\x11\0\0\0\x10", // 36 Dynamic of bootstrap method 0
    b"\x12\0\0\0\x12", // 37 InvokeDynamic of bootstrap method 0
    b"\x12\0\x01\0\x12", // 38 InvokeDynamic of bootstrap method 1
    b"\x0f\x01\0\x13", // 39 MethodHandle getfield
    b"\x0f\x02\0\x13", // 40 getstatic
    b"\x0f\x03\0\x13", // 41 putfield
    b"\x0f\x04\0\x13", // 42 putstatic
    b"\x0f\x05\0\x14", // 43 invokevirtual
    b"\x0f\x06\0\x15", // 44 invokestatic of an interface
    b"\x0f\x07\0\x14", // 45 invokespecial
    b"\x0f\x07\0\x15", // 46 invokespecial of an interface
    b"\x0f\x08\0\x16", // 47 new and invokespecial
    b"\x0f\x09\0\x15", // 48 invokeinterface
    b"\x0f\x05\0\x19", // 49 invokevirtual on the array class
    b"\x09\0\x0a\0\x10", // 50 Fieldref of the array class, f:I
    b"\x01\0\x08<clinit>", // 51
    b"\x01\0\x01r", // 52
    b"\x01\0\x05Lq/D;", // 53
    b"\x0c\0\x34\0\x35", // 54 r:Lq/D;
    b"\x09\0\x08\0\x36", // 55 Fieldref q/C.r:Lq/D;
    b"\x01\0\x01g", // 56
    b"\x01\0\x12(Lq/D;JLq/E;)Lq/F;", // 57
    b"\x0c\0\x38\0\x39", // 58 g(Lq/D;JLq/E;)Lq/F;
    b"\x0a\0\x08\0\x3a", // 59 Methodref q/C.g(Lq/D;JLq/E;)Lq/F;
    b"\x01\0\x08(Lq/D;)V", // 60
    b"\x0c\0\x0b\0\x3c", // 61 <init>(Lq/D;)V
    b"\x0a\0\x08\0\x3d", // 62 Methodref q/C.<init>(Lq/D;)V
    b"\x01\0\x11(Lq/C;Lq/G;)Lq/H;", // 63
    b"\x01\0\x08(Lq/C;)V", // 64
];

// What a function names is a part of it: the entries are named here alone.
fn pool() -> &'static [&'static [u8]] {
    POOL
}

/// How many indices the pool has, 0 counted.
const COUNT: u8 = 65;

// Flags, name and descriptor of the method.
const STATIC: &[u8] = b"\0\x09\0\x11\0\x0c"; // static m()V

const INSTANCE: &[u8] = b"\0\x01\0\x11\0\x0c"; // m()V

const TAKES_ONE: &[u8] = b"\0\x09\0\x11\0\x40"; // static m(Lq/C;)V

const TAKES_TWO: &[u8] = b"\0\x09\0\x11\0\x3f"; // static m(Lq/C;Lq/G;)Lq/H;

const INIT: &[u8] = b"\0\x01\0\x0b\0\x0c"; // <init>()V

const INIT_TAKES_ONE: &[u8] = b"\0\x01\0\x0b\0\x40"; // <init>(Lq/C;)V

const CLINIT: &[u8] = b"\0\x08\0\x33\0\x0c"; // static <clinit>()V

struct Row {
    what: &'static str,
    major: u8,
    method: &'static [u8],
    code: &'static [u8],
    /// How often the code is written.
    times: usize,
    /// Entries of the exception table, eight bytes each.
    catches: &'static [u8],
    /// The count of the Code's own attributes, and these.
    attributes: &'static [u8],
    /// How many Code attributes the method has.
    codes: u8,
    /// The contents of each BootstrapMethods attribute.
    boots: &'static [&'static [u8]],
    /// A refusal's place is counted from the Code attribute's first byte; its code begins at 14.
    want: &'static [u8],
}

const PLAIN: Row = Row {
    what: "",
    major: 61,
    method: STATIC,
    code: b"",
    times: 1,
    catches: b"",
    attributes: b"\0\0",
    codes: 1,
    boots: &[b"\0\x01\0\x22\0\0"],
    want: b"",
};

fn put_number(rt: &impl Abort, out: &mut Vec<u8>, n: usize) {
    out.push((n / 256 % 256) as u8).expect(rt, "memory");
    out.push((n % 256) as u8).expect(rt, "memory");
}

fn put_long_number(rt: &impl Abort, out: &mut Vec<u8>, n: usize) {
    put_number(rt, out, n / 65536);
    put_number(rt, out, n)
}

fn put_attribute(rt: &impl Abort, out: &mut Vec<u8>, name: u8, body: &[u8]) {
    out.push(0).expect(rt, "memory");
    out.push(name).expect(rt, "memory");
    put_long_number(rt, out, body.len());
    out.extend_from_slice(body).expect(rt, "memory")
}

// The contents of the Code attribute: no stack and no locals are counted.
fn code_body(rt: &impl Abort, alloc: Global, row: &Row, code: &[u8]) -> Vec<u8> {
    let mut out = Vec::new(alloc);
    put_long_number(rt, &mut out, 0);
    put_long_number(rt, &mut out, code.len());
    out.extend_from_slice(code).expect(rt, "memory");
    put_number(rt, &mut out, row.catches.len() / 8);
    out.extend_from_slice(row.catches).expect(rt, "memory");
    out.extend_from_slice(row.attributes).expect(rt, "memory");
    out
}

// All up to the method's attributes.
fn file_head(rt: &impl Abort, alloc: Global, row: &Row) -> Vec<u8> {
    let mut out = Vec::new(alloc);
    out.extend_from_slice(b"\xca\xfe\xba\xbe\0\0\0")
        .expect(rt, "memory");
    out.push(row.major).expect(rt, "memory");
    out.push(0).expect(rt, "memory");
    out.push(COUNT).expect(rt, "memory");
    for entry in pool() {
        out.extend_from_slice(entry).expect(rt, "memory");
    }
    out.extend_from_slice(b"\0\x21\0\x02\0\x04\0\0\0\0\0\x01")
        .expect(rt, "memory");
    out.extend_from_slice(row.method).expect(rt, "memory");
    out.push(0).expect(rt, "memory");
    out.push(row.codes).expect(rt, "memory");
    out
}

// What is told of the row's class with this code.
fn told_of(rt: &impl Abort, alloc: Global, row: &Row, code: &[u8]) -> Vec<u8> {
    let mut out = file_head(rt, alloc, row);
    let from = out.len();
    let body = code_body(rt, alloc, row, code);
    for _ in 0..row.codes {
        put_attribute(rt, &mut out, 5, body.as_slice());
    }
    put_number(rt, &mut out, row.boots.len());
    for boots in row.boots {
        put_attribute(rt, &mut out, 6, boots);
    }
    told(rt, alloc, out.as_slice(), from)
}

fn repeated(rt: &impl Abort, alloc: Global, code: &[u8], times: usize) -> Vec<u8> {
    let mut out = Vec::new(alloc);
    for _ in 0..times {
        out.extend_from_slice(code).expect(rt, "memory");
    }
    out
}

// ---- lengths and pool entries of each opcode

/// The first and the last opcode, the length, and the entries that the instruction may name; none where it names no entry.
type Group = (u8, u8, u8, &'static [u8]);

const CLASSES: &[u8] = &[2, 4, 8, 10];

const FIELDS: &[u8] = &[19, 50, 55];

const GROUPS: &[Group] = &[
    (0, 15, 1, &[]),
    (16, 16, 2, &[]),
    (17, 17, 3, &[]),
    (
        18,
        18,
        2,
        &[
            2, 4, 8, 10, 27, 28, 29, 34, 35, 36, 39, 40, 41, 42, 43, 44, 45, 46, 47, 48, 49,
        ],
    ),
    (
        19,
        19,
        3,
        &[
            2, 4, 8, 10, 27, 28, 29, 34, 35, 36, 39, 40, 41, 42, 43, 44, 45, 46, 47, 48, 49,
        ],
    ),
    (20, 20, 3, &[30, 32, 36]),
    (21, 25, 2, &[]),
    (26, 53, 1, &[]),
    (54, 58, 2, &[]),
    (59, 131, 1, &[]),
    (132, 132, 3, &[]),
    (133, 152, 1, &[]),
    (153, 168, 3, &[]),
    (169, 169, 2, &[]),
    (172, 177, 1, &[]),
    (178, 181, 3, FIELDS),
    (182, 182, 3, &[20, 25, 59]),
    (183, 183, 3, &[20, 21, 22, 23, 24, 25, 26, 59, 62]),
    (184, 184, 3, &[20, 21, 25, 59]),
    (185, 185, 5, &[21]),
    (186, 186, 5, &[37]),
    (187, 187, 3, CLASSES),
    (188, 188, 2, &[]),
    (189, 189, 3, CLASSES),
    (190, 191, 1, &[]),
    (192, 193, 3, CLASSES),
    (194, 195, 1, &[]),
    (197, 197, 4, CLASSES),
    (198, 199, 3, &[]),
    (200, 201, 5, &[]),
];

// The instruction with this pool index; its other operands are bytes that no opcode has.
fn instruction(rt: &impl Abort, alloc: Global, group: &Group, op: u8, index: u8) -> Vec<u8> {
    let (_, _, len, entries) = *group;
    let mut out = Vec::new(alloc);
    out.push(op).expect(rt, "memory");
    if !entries.is_empty() {
        if op != 18 {
            out.push(0).expect(rt, "memory");
        }
        out.push(index).expect(rt, "memory");
    }
    for _ in 0..len {
        out.push(0xff).expect(rt, "memory");
    }
    out.truncate(len as usize);
    out
}

// Items begin with a small letter, refusals with a large one.
fn is_refused(told: &[u8]) -> bool {
    matches!(told.first(), Some(b'B' | b'C'))
}

// Whether this is told of the plain row's class with this code.
fn tells(rt: &impl Abort, alloc: Global, code: &[u8], want: &[u8]) -> bool {
    told_of(rt, alloc, &PLAIN, code).as_slice() == want
}

// Whether the plain row's class is refused with this code.
fn refuses(rt: &impl Abort, alloc: Global, code: &[u8]) -> bool {
    is_refused(told_of(rt, alloc, &PLAIN, code).as_slice())
}

// Whether a bad opcode is found behind so many bytes of code.
fn is_bad_behind(rt: &impl Abort, alloc: Global, code: &[u8], len: u8) -> bool {
    let want = format!(in alloc; "BadOpcode {}", 14 + len as usize).expect(rt, "memory");
    tells(rt, alloc, code, want.as_str().as_bytes())
}

// What is told of code that lacks the last byte of its only instruction, which has so many.
fn cut_short(len: u8) -> &'static [u8] {
    if len == 1 {
        b"BadLayout 0"
    } else {
        b"CutShort 14"
    }
}

// As it is, with a bad opcode behind it, and without its last byte.
fn has_length(rt: &impl Abort, alloc: Global, group: &Group, op: u8) -> bool {
    let len = group.2;
    let index = group.3.first().copied().unwrap_or(0);
    let mut code = instruction(rt, alloc, group, op, index);
    let is_whole = !refuses(rt, alloc, code.as_slice());
    code.push(0xff).expect(rt, "memory");
    let is_no_longer = is_bad_behind(rt, alloc, code.as_slice(), len);
    code.truncate((len as usize).saturating_sub(1));
    is_whole && is_no_longer && tells(rt, alloc, code.as_slice(), cut_short(len))
}

// Refused for this index of the pool exactly where the group doesn't have it.
fn is_judged(rt: &impl Abort, alloc: Global, group: &Group, op: u8, index: u8) -> bool {
    let code = instruction(rt, alloc, group, op, index);
    if group.3.contains(&index) {
        return !refuses(rt, alloc, code.as_slice());
    }
    tells(rt, alloc, code.as_slice(), b"BadEntry 14")
}

// Each index of the pool is judged; without a choice of entries there is none.
fn are_judged(rt: &impl Abort, alloc: Global, group: &Group, op: u8) -> bool {
    if group.3.is_empty() {
        return true;
    }
    for index in 0..COUNT + 1 {
        if !is_judged(rt, alloc, group, op, index) {
            return false;
        }
    }
    true
}

// Each opcode of the group has its length and names its entries.
fn check_group(rt: &impl Abort, alloc: Global, group: &Group) {
    for op in group.0..=group.1 {
        assert!(rt; has_length(rt, alloc, group, op), "length of {op}");
        assert!(rt; are_judged(rt, alloc, group, op), "entries of {op}");
    }
}

fn check_groups(rt: &impl Abort, alloc: Global, groups: &[Group]) {
    for group in groups {
        check_group(rt, alloc, group);
    }
}

#[test]
fn each_opcode_has_its_length_and_names_its_entries(rt: HostRuntime) {
    check_groups(&rt, rt.alloc(), GROUPS);
}

// ---- methods and what they give

// The row's method gives what the row wants.
fn gives(rt: &impl Abort, alloc: Global, row: &Row) -> bool {
    let code = repeated(rt, alloc, row.code, row.times);
    let found = told_of(rt, alloc, row, code.as_slice());
    found.as_slice() == row.want
}

fn check(rt: &impl Abort, alloc: Global, rows: &[Row]) {
    for row in rows {
        assert!(rt; gives(rt, alloc, row), "{}", row.what);
    }
}

// Items by scan: the last instruction is no return.
const SCANNED: &[Row] = &[
    Row {
        what: "instructions that name a class",
        code: b"\xbb\0\x08\xbd\0\x08\xc0\0\x08\xc1\0\x08\xc5\0\x08\x01",
        want: b"class q/C\nclass q/C\nclass q/C\nclass q/C\nclass q/C\n",
        ..PLAIN
    },
    Row {
        what: "instructions that name an array class",
        code: b"\xc0\0\x0a\xbd\0\x0a",
        want: b"class [Lq/C;\nclass [Lq/C;\n",
        ..PLAIN
    },
    Row {
        what: "constants without items",
        code: b"\x12\x1b\x12\x1c\x12\x1d\x12\x23\x13\0\x1b\x13\0\x1c\x13\0\x1d\x13\0\x23\x14\0\x1e\x14\0\x20",
        want: b"",
        ..PLAIN
    },
    Row {
        what: "constants that are a class or a method handle",
        code: b"\x12\x08\x12\x22\x13\0\x08\x13\0\x22",
        want: b"class q/C\ninvokestatic q/C m ()V - other\nclass q/C\ninvokestatic q/C m ()V - other\n",
        ..PLAIN
    },
    Row {
        what: "constants that are computed",
        code: b"\x12\x24\x13\0\x24\x14\0\x24",
        want: b"invokestatic q/C m ()V - other\ninvokestatic q/C m ()V - other\ninvokestatic q/C m ()V - other\n",
        ..PLAIN
    },
    Row {
        what: "acts on fields",
        code: b"\xb2\0\x13\xb3\0\x13\xb4\0\x13\xb5\0\x13",
        want: b"getstatic q/C f I - other\nputstatic q/C f I - other\ngetfield q/C f I - other\nputfield q/C f I - other\n",
        ..PLAIN
    },
    Row {
        what: "acts on methods, of a class and of an interface",
        code: b"\xb6\0\x14\xb7\0\x14\xb7\0\x15\xb8\0\x14\xb8\0\x15\xb9\0\x15\x01\0",
        want: b"invokevirtual q/C m ()V - other\ninvokespecial q/C m ()V - other\ninvokespecial-interface q/C m ()V - other\ninvokestatic q/C m ()V - other\ninvokestatic-interface q/C m ()V - other\ninvokeinterface q/C m ()V - other\n",
        ..PLAIN
    },
    Row {
        what: "members of an array class",
        code: b"\xb4\0\x32\xb6\0\x19\xb7\0\x1a",
        want: b"class [Lq/C;\nclass [Lq/C;\nclass [Lq/C;\n",
        ..PLAIN
    },
    Row {
        what: "instance initializers called outside of one",
        code: b"\xb7\0\x16\xb7\0\x17\xb7\0\x18",
        want: b"new q/C ()V\nnew p/B ()V\nnew p/A ()V\n",
        ..PLAIN
    },
    Row {
        what: "instance initializers called in one, of another class, the superclass and the own",
        method: INIT,
        code: b"\xb7\0\x16\xb7\0\x17\xb7\0\x18",
        want: b"new q/C ()V\ninit p/B ()V\ninit p/A ()V\n",
        ..PLAIN
    },
    Row {
        what: "an act in an instance initializer",
        method: INIT,
        code: b"\xb2\0\x13",
        want: b"getstatic q/C f I - init\n",
        ..PLAIN
    },
    Row {
        what: "an act in a class initializer",
        method: CLINIT,
        code: b"\xb2\0\x13",
        want: b"getstatic q/C f I - clinit\n",
        ..PLAIN
    },
    Row {
        what: "arguments of a bootstrap method that give no items",
        code: b"\xba\0\x25\0\0",
        boots: &[b"\0\x01\0\x22\0\x08\0\x01\0\x1b\0\x1c\0\x1d\0\x1e\0\x20\0\x23\0\x24"],
        want: b"invokestatic q/C m ()V - other\n",
        ..PLAIN
    },
    Row {
        what: "arguments that are classes and method handles",
        code: b"\xba\0\x25\0\0",
        boots: &[
            b"\0\x01\0\x22\0\x0c\0\x08\0\x27\0\x28\0\x29\0\x2a\0\x2b\0\x2c\0\x2d\0\x2e\0\x2f\0\x30\0\x31",
        ],
        want: b"invokestatic q/C m ()V - other\nclass q/C\ngetfield q/C f I - other\ngetstatic q/C f I - other\nputfield q/C f I - other\nputstatic q/C f I - other\ninvokevirtual q/C m ()V - other\ninvokestatic-interface q/C m ()V - other\ninvokespecial q/C m ()V - other\ninvokespecial-interface q/C m ()V - other\nnew q/C ()V\ninvokeinterface q/C m ()V - other\nclass [Lq/C;\n",
        ..PLAIN
    },
    Row {
        what: "a method handle in an instance initializer",
        method: INIT,
        code: b"\x12\x22",
        want: b"invokestatic q/C m ()V - other\n",
        ..PLAIN
    },
    Row {
        what: "the second bootstrap method",
        code: b"\xba\0\x26\0\0",
        boots: &[b"\0\x02\0\x22\0\0\0\x2f\0\x01\0\x04"],
        want: b"new q/C ()V\nclass p/B\n",
        ..PLAIN
    },
    Row {
        what: "a second BootstrapMethods doesn't count",
        code: b"\xba\0\x25\0\0",
        boots: &[b"\0\x01\0\x22\0\0", b"\0\x01\0\x2f\0\0"],
        want: b"invokestatic q/C m ()V - other\n",
        ..PLAIN
    },
    Row {
        what: "catch types come after the code, and 0 is no class",
        code: b"\xbb\0\x08",
        catches: b"\0\0\0\x01\0\0\0\0\0\0\0\x01\0\0\0\x04\0\0\0\x01\0\0\0\x08",
        want: b"class q/C\nclass p/B\nclass q/C\n",
        ..PLAIN
    },
];

#[test]
fn items_by_scan(rt: HostRuntime) {
    check(&rt, rt.alloc(), SCANNED);
}

// Lengths that vary. Behind the instruction stands `new q/C`.
const LENGTHS: &[Row] = &[
    Row {
        what: "wide before a load, a store and ret",
        code: b"\xc4\x15\xff\xff\xbb\0\x08\xc4\x3a\xff\xff\xbb\0\x08\xc4\xa9\xff\xff\xbb\0\x08",
        want: b"class q/C\nclass q/C\nclass q/C\n",
        ..PLAIN
    },
    Row {
        what: "wide before iinc",
        code: b"\xc4\x84\xff\xff\xff\xff\xbb\0\x08",
        want: b"class q/C\n",
        ..PLAIN
    },
    Row {
        what: "wide before another opcode",
        code: b"\0\xc4\0\xff\xff",
        want: b"BadOpcode 15",
        ..PLAIN
    },
    Row {
        what: "wide before wide",
        code: b"\xc4\xc4\xff\xff",
        want: b"BadOpcode 14",
        ..PLAIN
    },
    Row {
        what: "wide at the end",
        code: b"\0\xc4",
        want: b"CutShort 15",
        ..PLAIN
    },
    Row {
        what: "wide whose local is cut",
        code: b"\xc4\x19\xff",
        want: b"CutShort 14",
        ..PLAIN
    },
    Row {
        what: "wide iinc whose number is cut",
        code: b"\xc4\x84\xff\xff\xff",
        want: b"CutShort 14",
        ..PLAIN
    },
    Row {
        what: "tableswitch at 0",
        code: b"\xaa\xff\xff\xff\xff\xff\xff\xff\0\0\0\x05\0\0\0\x06\xff\xff\xff\xff\xff\xff\xff\xff\xbb\0\x08",
        want: b"class q/C\n",
        ..PLAIN
    },
    Row {
        what: "tableswitch at 1",
        code: b"\0\xaa\xff\xff\xff\xff\xff\xff\0\0\0\x05\0\0\0\x06\xff\xff\xff\xff\xff\xff\xff\xff\xbb\0\x08",
        want: b"class q/C\n",
        ..PLAIN
    },
    Row {
        what: "tableswitch at 2",
        code: b"\0\0\xaa\xff\xff\xff\xff\xff\0\0\0\x05\0\0\0\x06\xff\xff\xff\xff\xff\xff\xff\xff\xbb\0\x08",
        want: b"class q/C\n",
        ..PLAIN
    },
    Row {
        what: "tableswitch at 3",
        code: b"\0\0\0\xaa\xff\xff\xff\xff\0\0\0\x05\0\0\0\x06\xff\xff\xff\xff\xff\xff\xff\xff\xbb\0\x08",
        want: b"class q/C\n",
        ..PLAIN
    },
    Row {
        what: "lookupswitch at 0",
        code: b"\xab\xff\xff\xff\xff\xff\xff\xff\0\0\0\x01\xff\xff\xff\xff\xff\xff\xff\xff\xbb\0\x08",
        want: b"class q/C\n",
        ..PLAIN
    },
    Row {
        what: "lookupswitch at 1",
        code: b"\0\xab\xff\xff\xff\xff\xff\xff\0\0\0\x01\xff\xff\xff\xff\xff\xff\xff\xff\xbb\0\x08",
        want: b"class q/C\n",
        ..PLAIN
    },
    Row {
        what: "lookupswitch at 2",
        code: b"\0\0\xab\xff\xff\xff\xff\xff\0\0\0\x01\xff\xff\xff\xff\xff\xff\xff\xff\xbb\0\x08",
        want: b"class q/C\n",
        ..PLAIN
    },
    Row {
        what: "lookupswitch at 3",
        code: b"\0\0\0\xab\xff\xff\xff\xff\0\0\0\x01\xff\xff\xff\xff\xff\xff\xff\xff\xbb\0\x08",
        want: b"class q/C\n",
        ..PLAIN
    },
    Row {
        what: "tableswitch from -1 to 0",
        code: b"\xaa\xff\xff\xff\xff\xff\xff\xff\xff\xff\xff\xff\0\0\0\0\xff\xff\xff\xff\xff\xff\xff\xff\xbb\0\x08",
        want: b"class q/C\n",
        ..PLAIN
    },
    Row {
        what: "tableswitch from 6 to 5",
        code: b"\xaa\xff\xff\xff\xff\xff\xff\xff\0\0\0\x06\0\0\0\x05",
        want: b"BadOpcode 14",
        ..PLAIN
    },
    Row {
        what: "tableswitch from 0 to -1",
        code: b"\xaa\xff\xff\xff\xff\xff\xff\xff\0\0\0\0\xff\xff\xff\xff\xff\xff\xff\xff",
        want: b"BadOpcode 14",
        ..PLAIN
    },
    Row {
        what: "tableswitch whose low and high are cut",
        code: b"\xaa\xff\xff\xff\xff\xff\xff\xff\0\0\0\x06\0\0\0",
        want: b"CutShort 14",
        ..PLAIN
    },
    Row {
        what: "tableswitch whose jumps are cut",
        code: b"\xaa\xff\xff\xff\xff\xff\xff\xff\0\0\0\x05\0\0\0\x06\xff\xff\xff\xff\xff\xff\xff",
        want: b"CutShort 14",
        ..PLAIN
    },
    Row {
        what: "tableswitch from the least to the greatest number",
        code: b"\xaa\xff\xff\xff\xff\xff\xff\xff\x80\0\0\0\x7f\xff\xff\xff\xff\xff\xff\xff\xff\xff\xff\xff",
        want: b"CutShort 14",
        ..PLAIN
    },
    Row {
        what: "lookupswitch without pairs",
        code: b"\xab\xff\xff\xff\xff\xff\xff\xff\0\0\0\0\xbb\0\x08",
        want: b"class q/C\n",
        ..PLAIN
    },
    Row {
        what: "lookupswitch with a negative count",
        code: b"\xab\xff\xff\xff\xff\xff\xff\xff\xff\xff\xff\xff",
        want: b"BadOpcode 14",
        ..PLAIN
    },
    Row {
        what: "lookupswitch whose count is cut",
        code: b"\xab\xff\xff\xff\xff\xff\xff\xff\xff\xff\xff",
        want: b"CutShort 14",
        ..PLAIN
    },
    Row {
        what: "lookupswitch whose pairs are cut",
        code: b"\xab\xff\xff\xff\xff\xff\xff\xff\0\0\0\x01\xff\xff\xff\xff\xff\xff\xff",
        want: b"CutShort 14",
        ..PLAIN
    },
];

#[test]
fn lengths_that_vary(rt: HostRuntime) {
    check(&rt, rt.alloc(), LENGTHS);
}

// Refusals.
const REFUSED: &[Row] = &[
    Row {
        what: "the first opcode that no instruction has",
        code: b"\xca",
        want: b"BadOpcode 14",
        ..PLAIN
    },
    Row {
        what: "the last",
        code: b"\xff",
        want: b"BadOpcode 14",
        ..PLAIN
    },
    Row {
        what: "an instruction is cut before its entry is judged",
        code: b"\xbb\0",
        want: b"CutShort 14",
        ..PLAIN
    },
    Row {
        what: "the first of two refusals",
        code: b"\0\xbb\0\x01\xca",
        want: b"BadEntry 15",
        ..PLAIN
    },
    Row {
        what: "the code is judged before its catch types",
        code: b"\xbb\0\x08\xb8",
        catches: b"\0\0\0\x01\0\0\0\x01",
        want: b"CutShort 17",
        ..PLAIN
    },
    Row {
        what: "a catch type that is no class",
        code: b"\xb1",
        catches: b"\0\0\0\x01\0\0\0\x04\0\0\0\x01\0\0\0\x01",
        want: b"BadEntry 25",
        ..PLAIN
    },
    Row {
        what: "a code of no bytes",
        code: b"",
        want: b"BadLayout 0",
        ..PLAIN
    },
    Row {
        what: "a code of 65,535 bytes",
        code: b"\0",
        times: 65_535,
        want: b"",
        ..PLAIN
    },
    Row {
        what: "a code of 65,536 bytes",
        code: b"\0",
        times: 65_536,
        want: b"BadLayout 0",
        ..PLAIN
    },
    Row {
        what: "a Code that doesn't fill its length",
        code: b"\xb1",
        attributes: b"\0\0\0",
        want: b"BadLayout 0",
        ..PLAIN
    },
    Row {
        what: "a Code that is cut",
        code: b"\xb1",
        attributes: b"\0",
        want: b"BadLayout 0",
        ..PLAIN
    },
    Row {
        what: "a Code whose own attribute is cut",
        code: b"\xb1",
        attributes: b"\0\x01\0\x01\0\0\0\x01",
        want: b"BadLayout 0",
        ..PLAIN
    },
    Row {
        what: "a Code with an attribute whose name and contents aren't looked at",
        code: b"\xbb\0\x08",
        attributes: b"\0\x01\0\x08\0\0\0\x01\xff",
        want: b"class q/C\n",
        ..PLAIN
    },
    Row {
        what: "a second Code",
        code: b"\xb1",
        codes: 2,
        want: b"BadLayout 19",
        ..PLAIN
    },
    Row {
        what: "no BootstrapMethods",
        code: b"\xba\0\x25\0\0",
        boots: &[],
        want: b"BadEntry 14",
        ..PLAIN
    },
    Row {
        what: "a bootstrap method that isn't there",
        code: b"\xba\0\x26\0\0",
        want: b"BadEntry 14",
        ..PLAIN
    },
    Row {
        what: "a bootstrap method whose handle is none",
        code: b"\xba\0\x25\0\0",
        boots: &[b"\0\x01\0\x14\0\0"],
        want: b"BadEntry 14",
        ..PLAIN
    },
    Row {
        what: "an argument that is no entry",
        code: b"\xba\0\x25\0\0",
        boots: &[b"\0\x01\0\x22\0\x02\0\x08\0\x1f"],
        want: b"BadEntry 14",
        ..PLAIN
    },
    Row {
        what: "a BootstrapMethods that isn't of its form",
        code: b"\xba\0\x25\0\0",
        boots: &[b"\0\x01\0\x22\0\x01", b"\0\x01\0\x22\0\0"],
        want: b"BadEntry 14",
        ..PLAIN
    },
    Row {
        what: "a BootstrapMethods that isn't of its form and isn't used",
        code: b"\xb1",
        boots: &[b"\0\x01\0\x22\0\x01"],
        want: b"",
        ..PLAIN
    },
    Row {
        what: "no BootstrapMethods for a computed constant",
        code: b"\x12\x24",
        boots: &[],
        want: b"BadEntry 14",
        ..PLAIN
    },
    Row {
        what: "BootstrapMethods below major 51",
        major: 50,
        code: b"\xba\0\x25\0\0",
        want: b"BadEntry 14",
        ..PLAIN
    },
    Row {
        what: "BootstrapMethods at major 51",
        major: 51,
        code: b"\xba\0\x25\0\0",
        want: b"invokestatic q/C m ()V - other\n",
        ..PLAIN
    },
];

#[test]
fn refusals_of_one_method(rt: HostRuntime) {
    check(&rt, rt.alloc(), REFUSED);
}

// Straight methods: receivers are known, and assignments are told.
const STRAIGHT: &[Row] = &[
    Row {
        what: "the receiver of a straight method",
        method: TAKES_ONE,
        code: b"\x2a\xb6\0\x14\xb1",
        want: b"invokevirtual q/C m ()V q/C other\n",
        ..PLAIN
    },
    Row {
        what: "the receivers of other acts",
        method: INSTANCE,
        code: b"\x2a\xb4\0\x13\x57\x2a\xb7\0\x14\x2a\xb9\0\x15\x01\0\xb8\0\x14\xb1",
        want: b"getfield q/C f I p/A other\ninvokespecial q/C m ()V p/A other\ninvokeinterface q/C m ()V p/A other\ninvokestatic q/C m ()V - other\n",
        ..PLAIN
    },
    Row {
        what: "the receiver null",
        code: b"\x01\xb4\0\x13\x57\xb1",
        want: b"getfield q/C f I - other\n",
        ..PLAIN
    },
    Row {
        what: "an assignment to a field",
        method: TAKES_TWO,
        code: b"\x2a\x2b\xb5\0\x37\x2b\xb3\0\x37\x2b\xb0",
        want: b"putfield q/C r Lq/D; q/C other\nassign q/G q/D\nputstatic q/C r Lq/D; - other\nassign q/G q/D\nassign q/G q/H\n",
        ..PLAIN
    },
    Row {
        what: "assignments of arguments from left to right, and of the result",
        method: TAKES_TWO,
        code: b"\x2a\x2a\x09\x2b\xb6\0\x3b\xb0",
        want: b"invokevirtual q/C g (Lq/D;JLq/E;)Lq/F; q/C other\nassign q/C q/D\nassign q/G q/E\nassign q/F q/H\n",
        ..PLAIN
    },
    Row {
        what: "no assignment of null, and none to the same type",
        method: TAKES_TWO,
        code: b"\x01\x2a\xb4\0\x37\xb5\0\x37\x01\x01\xb5\0\x37\x01\xb0",
        want: b"getfield q/C r Lq/D; q/C other\nputfield q/C r Lq/D; - other\nputfield q/C r Lq/D; - other\n",
        ..PLAIN
    },
    Row {
        what: "a cast gives its class, and is its item",
        method: TAKES_ONE,
        code: b"\x2a\xc0\0\x04\xb6\0\x14\xb1",
        want: b"class p/B\ninvokevirtual q/C m ()V p/B other\n",
        ..PLAIN
    },
    Row {
        what: "constants that are a string and a class",
        code: b"\x12\x1d\xb3\0\x37\x12\x08\xb3\0\x37\xb1",
        want: b"putstatic q/C r Lq/D; - other\nassign java/lang/String q/D\nclass q/C\nputstatic q/C r Lq/D; - other\nassign java/lang/Class q/D\n",
        ..PLAIN
    },
    Row {
        what: "a new object is of its class when it is initialized",
        method: TAKES_ONE,
        code: b"\xbb\0\x08\x59\x2a\xb7\0\x3e\xb6\0\x14\xb1",
        want: b"class q/C\nnew q/C (Lq/D;)V\nassign q/C q/D\ninvokevirtual q/C m ()V q/C other\n",
        ..PLAIN
    },
    Row {
        what: "an instance initializer and its instance",
        method: INIT,
        code: b"\x2a\xb7\0\x17\x2a\xb4\0\x13\x57\xb1",
        want: b"init p/B ()V\ngetfield q/C f I p/A init\n",
        ..PLAIN
    },
    Row {
        what: "a new object of the own class in an instance initializer",
        method: INIT,
        code: b"\x2a\xb7\0\x17\xbb\0\x02\xb7\0\x18\xb1",
        want: b"init p/B ()V\nclass p/A\nnew p/A ()V\n",
        ..PLAIN
    },
    Row {
        what: "a local that is stored and loaded",
        method: TAKES_ONE,
        code: b"\x2a\x4c\x2b\xb6\0\x14\xb1",
        want: b"invokevirtual q/C m ()V q/C other\n",
        ..PLAIN
    },
    Row {
        what: "a long in two locals",
        method: TAKES_ONE,
        code: b"\x09\x40\x1f\x58\x2a\xb6\0\x14\xb1",
        want: b"invokevirtual q/C m ()V q/C other\n",
        ..PLAIN
    },
];

#[test]
fn items_of_straight_methods(rt: HostRuntime) {
    check(&rt, rt.alloc(), STRAIGHT);
}

// Methods that aren't straight: no receiver is known.
const NOT_STRAIGHT: &[Row] = &[
    Row {
        what: "no return at the end",
        method: TAKES_ONE,
        code: b"\x2a\xb6\0\x14",
        want: b"invokevirtual q/C m ()V - other\n",
        ..PLAIN
    },
    Row {
        what: "a second return",
        method: TAKES_ONE,
        code: b"\x2a\xb6\0\x14\xb1\xb1",
        want: b"invokevirtual q/C m ()V - other\n",
        ..PLAIN
    },
    Row {
        what: "a branch",
        method: TAKES_ONE,
        code: b"\xa7\0\x03\x2a\xb6\0\x14\xb1",
        want: b"invokevirtual q/C m ()V - other\n",
        ..PLAIN
    },
    Row {
        what: "an exception table",
        method: TAKES_ONE,
        code: b"\x2a\xb6\0\x14\xb1",
        catches: b"\0\0\0\x01\0\0\0\0",
        want: b"invokevirtual q/C m ()V - other\n",
        ..PLAIN
    },
    Row {
        what: "wide",
        method: TAKES_ONE,
        code: b"\xc4\x19\0\0\xb6\0\x14\xb1",
        want: b"invokevirtual q/C m ()V - other\n",
        ..PLAIN
    },
    Row {
        what: "an operation on numbers",
        method: TAKES_ONE,
        code: b"\x03\x03\x60\x57\x2a\xb6\0\x14\xb1",
        want: b"invokevirtual q/C m ()V - other\n",
        ..PLAIN
    },
    Row {
        what: "a constant that is a method type",
        method: TAKES_ONE,
        code: b"\x12\x23\x57\x2a\xb6\0\x14\xb1",
        want: b"invokevirtual q/C m ()V - other\n",
        ..PLAIN
    },
    Row {
        what: "a computed constant",
        method: TAKES_ONE,
        code: b"\x12\x24\x57\x2a\xb6\0\x14\xb1",
        want: b"invokestatic q/C m ()V - other\ninvokevirtual q/C m ()V - other\n",
        ..PLAIN
    },
    Row {
        what: "a computed call",
        method: TAKES_ONE,
        code: b"\xba\0\x25\0\0\x2a\xb6\0\x14\xb1",
        want: b"invokestatic q/C m ()V - other\ninvokevirtual q/C m ()V - other\n",
        ..PLAIN
    },
    Row {
        what: "a member of an array class",
        method: TAKES_ONE,
        code: b"\x2a\xb6\0\x14\x01\xb6\0\x19\xb1",
        want: b"invokevirtual q/C m ()V - other\nclass [Lq/C;\n",
        ..PLAIN
    },
    Row {
        what: "a result that isn't given",
        method: TAKES_TWO,
        code: b"\x2a\xb6\0\x14\xb1",
        want: b"invokevirtual q/C m ()V - other\n",
        ..PLAIN
    },
    Row {
        what: "a result of another kind",
        method: TAKES_TWO,
        code: b"\x2a\xb6\0\x14\x03\xac",
        want: b"invokevirtual q/C m ()V - other\n",
        ..PLAIN
    },
    Row {
        what: "an instance that isn't initialized at the end",
        method: INIT_TAKES_ONE,
        code: b"\x2b\xb6\0\x14\xb1",
        want: b"invokevirtual q/C m ()V - init\n",
        ..PLAIN
    },
    Row {
        what: "an uninitialized instance that is stored",
        method: INIT,
        code: b"\x2a\x4c\x2a\xb7\0\x17\x2b\xb6\0\x14\xb1",
        want: b"init p/B ()V\ninvokevirtual q/C m ()V - init\n",
        ..PLAIN
    },
    Row {
        what: "a long half of which is stored over",
        method: TAKES_ONE,
        code: b"\x09\x40\x03\x3d\x1f\x58\x2a\xb6\0\x14\xb1",
        want: b"invokevirtual q/C m ()V - other\n",
        ..PLAIN
    },
    Row {
        what: "dup of a long",
        method: TAKES_ONE,
        code: b"\x09\x59\x58\x58\x2a\xb6\0\x14\xb1",
        want: b"invokevirtual q/C m ()V - other\n",
        ..PLAIN
    },
    Row {
        what: "a number where an object is due",
        method: TAKES_ONE,
        code: b"\x2a\xb6\0\x14\x03\xb6\0\x14\xb1",
        want: b"invokevirtual q/C m ()V - other\ninvokevirtual q/C m ()V - other\n",
        ..PLAIN
    },
    Row {
        what: "too few values",
        method: TAKES_ONE,
        code: b"\x2a\xb6\0\x14\x57\xb1",
        want: b"invokevirtual q/C m ()V - other\n",
        ..PLAIN
    },
    Row {
        what: "a scanned initializer and a new object of the own class",
        method: INIT,
        code: b"\xa7\0\x03\x2a\xb7\0\x17\xbb\0\x02\xb7\0\x18\xb1",
        want: b"init p/B ()V\nclass p/A\ninit p/A ()V\n",
        ..PLAIN
    },
];

#[test]
fn items_of_other_methods(rt: HostRuntime) {
    check(&rt, rt.alloc(), NOT_STRAIGHT);
}

// The whole file gives what it wants.
fn is_told(rt: &impl Abort, alloc: Global, file: &File) -> bool {
    told(rt, alloc, file.bytes, 0).as_slice() == file.want
}

fn check_files(rt: &impl Abort, alloc: Global, files: &[File]) {
    for file in files {
        assert!(rt; is_told(rt, alloc, file), "want {:?}", file.want);
    }
}

#[test]
fn whole_class_files(rt: HostRuntime) {
    check_files(&rt, rt.alloc(), FILES);
}
