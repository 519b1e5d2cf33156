//! What the words of the program ask for.
use jc_base::text::Text;
use jc_words::check::Check;
use jc_words::clients::Clients;
use jc_words::command::Command;
use jc_words::history::History;
use jc_words::link::Link;
use jc_words::make::Make;
use jc_words::usage::Usage;
use std::alloc::Global;
use std::process::Abort;

const CHECK: Check<'static> = Check {
    platform: "P",
    old: "O",
    new: "N",
    witness: None,
    json: false,
    gate: None,
    from: None,
    to: None,
    warn: false,
    signatures: false,
    dropped: false,
    calls: false,
    modular: false,
};

const CHECK_WITH_ALL: Check<'static> = Check {
    platform: "P",
    old: "O",
    new: "N",
    witness: Some("D"),
    json: true,
    gate: Some("links,few"),
    from: Some("1.4.0"),
    to: Some("1.5.0"),
    warn: true,
    signatures: true,
    dropped: true,
    calls: true,
    modular: true,
};

const LINK: Link<'static> = Link {
    platform: "P",
    release: "R",
    client: "C",
    modular: false,
};

const UNKNOWN_COMMANDS: &[&str] = &["", "compare", "--help", "\u{e9}"];

const WORDS_NOT_TAKEN: &[&str] = &[
    "check",
    "check --platform P",
    "check --platform P --old O --new",
    "check --platform P --old O --new N --new N",
    "check --platform P --old O --new N --json=x",
    "check --platform P --old O --new N --gate",
    "check --platform P --old O --new N ",
    "link --release R --client C",
    "history --platform P A B --modular",
    "make",
    "make 8 8",
    "help check",
];

fn words(rt: &impl Abort, alloc: Global, line: &str) -> Vec<Text> {
    let mut words = Vec::new(alloc);
    for word in line.split(' ') {
        let word = Text::from_str(alloc, word).expect(rt, "memory");
        words.push(word).expect(rt, "memory");
    }
    words
}

fn asks(rt: &impl Abort, alloc: Global, line: &str, asked: &Command) -> bool {
    let words = words(rt, alloc, line);
    match Command::from_words(alloc, words.as_slice()).expect(rt, "memory") {
        Ok(found) => found == *asked,
        Err(_) => false,
    }
}

fn is_refused(rt: &impl Abort, alloc: Global, line: &str, fault: &Usage) -> bool {
    let words = words(rt, alloc, line);
    match Command::from_words(alloc, words.as_slice()).expect(rt, "memory") {
        Ok(_) => false,
        Err(usage) => usage == *fault,
    }
}

fn is_unknown(rt: &impl Abort, alloc: Global, word: &str) -> bool {
    let text = Text::from_str(alloc, word).expect(rt, "memory");
    is_refused(rt, alloc, word, &Usage::UnknownCommand(text))
}

#[test]
fn reads_what_is_asked(rt: HostRuntime) {
    let alloc = rt.alloc();
    let check = Command::Check(CHECK);
    assert!(rt; asks(&rt, alloc, "check --platform P --old O --new N", &check));
    let with_all = Command::Check(CHECK_WITH_ALL);
    let line =
        "check --warn --gate links,few --witness D --new=N --json --to 1.5.0 --from=1.4.0 --platform=P --signatures --dropped --calls --modular --old O";
    assert!(rt; asks(&rt, alloc, line, &with_all));
    let link = Command::Link(LINK);
    assert!(rt;
        asks(
            &rt,
            alloc,
            "link --client C --release R --platform P",
            &link
        )
    );
    let modular = Command::Link(Link {
        modular: true,
        ..LINK
    });
    assert!(rt;
        asks(
            &rt,
            alloc,
            "link --client C --modular --release R --platform P",
            &modular
        )
    );
    let make = Command::Make(Make { classes: 64 });
    assert!(rt; asks(&rt, alloc, "make 64", &make));
    assert!(rt; asks(&rt, alloc, "help", &Command::Help));
}

#[test]
fn reads_a_row_of_releases(rt: HostRuntime) {
    let alloc = rt.alloc();
    let row = Command::History(History {
        platform: "P",
        releases: vec![in alloc; "A", "B", "A"].expect(&rt, "memory"),
    });
    assert!(rt; asks(&rt, alloc, "history A B --platform P A", &row));
    assert!(rt; is_refused(&rt, alloc, "history --platform P A", &Usage::Releases(1)));
}

#[test]
fn reads_clients_of_two_releases(rt: HostRuntime) {
    let alloc = rt.alloc();
    let clients = Command::Clients(Clients {
        platform: "P",
        old: "O",
        new: "N",
        json: true,
        modular: false,
        used: false,
        clients: vec![in alloc; "A", "B", "A"].expect(&rt, "memory"),
    });
    let line = "clients A --new N B --platform=P --json --old O A";
    assert!(rt; asks(&rt, alloc, line, &clients));
    let line = "clients --platform P --old O --new N";
    assert!(rt; is_refused(&rt, alloc, line, &Usage::Clients(0)));
}

// Whether a check with this value of `--gate` names these gates.
fn names(rt: &impl Abort, alloc: Global, gate: Option<&str>, wanted: &[&str]) -> bool {
    let check = Check { gate, ..CHECK };
    let names = check.gate_names(alloc).expect(rt, "memory");
    names.as_slice() == wanted
}

#[test]
fn a_value_is_cut_into_names_of_gates(rt: HostRuntime) {
    let alloc = rt.alloc();
    assert!(rt; names(&rt, alloc, None, &["links"]));
    assert!(rt; names(&rt, alloc, Some("few"), &["few"]));
    assert!(rt; names(&rt, alloc, Some("links,links"), &["links", "links"]));
    assert!(rt; names(&rt, alloc, Some(""), &[""]));
    assert!(rt; names(&rt, alloc, Some("links,,few,"), &["links", "", "few", ""]));
}

#[test]
fn says_why_nothing_is_asked(rt: HostRuntime) {
    match Command::from_words(rt.alloc(), &[]).expect(&rt, "memory") {
        Ok(_) => panic!(rt; "no word asks for something"),
        Err(usage) => assert!(rt; usage == Usage::NoCommand),
    }
    for word in UNKNOWN_COMMANDS {
        assert!(rt; is_unknown(&rt, rt.alloc(), word), "{word}");
    }
    for line in WORDS_NOT_TAKEN {
        assert!(rt; is_refused(&rt, rt.alloc(), line, &Usage::Words), "{line}");
    }
}

// The words of a front, this one, and those of a rest.
fn line(rt: &impl Abort, alloc: Global, front: &str, word: &str, rest: &str) -> String {
    format!(in alloc; "{front}{word}{rest}").expect(rt, "memory")
}

// A word of 100,000 bytes is read as any other, wherever it stands.
#[test]
fn reads_a_long_word(rt: HostRuntime) {
    let alloc = rt.alloc();
    let long = "-".repeat(alloc, 100_000).expect(&rt, "memory");
    let long = long.as_str();
    assert!(rt; is_unknown(&rt, alloc, long));
    let check = line(&rt, alloc, "check --platform P --old O --new N ", long, "");
    assert!(rt; is_refused(&rt, alloc, check.as_str(), &Usage::Words));
    let link = line(
        &rt,
        alloc,
        "link --platform=",
        long,
        " --release R --client C",
    );
    let asked = Command::Link(Link {
        platform: long,
        ..LINK
    });
    assert!(rt; asks(&rt, alloc, link.as_str(), &asked));
}
