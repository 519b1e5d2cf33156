//! What is said of a client, printed with ample memory.
use crate::answer::Answer;
use crate::used::Explained;
use crate::used_json::used_json;
use crate::used_text::used_text;
use jc_base::items::Items;
use jc_base::name::Name;
use jc_facts::act::Act;
use jc_facts::finding::Finding;
use jc_facts::link_error::LinkError;
use jc_facts::outcome::Outcome;
use jc_facts::rule_numbers::CLASS_GONE;
use jc_losses::losses::Losses;
use std::alloc::Global;
use std::process::Abort;

const TEXT: &[u8] = b"client 1 class c/C NoClassDefFoundError 1
client 1 breaks: 1 classes, 1 outcomes, 0 errors before, 1 lost
used 1 1 H1 p/A - class - NoClassDefFoundError
clients: 1 clients, 1 broken, 0 refused
";

const JSON: &[u8] =
    b"{\"clients\":[{\"classes\":1,\"errors\":0,\"lost\":[{\"class\":\"c/C\",\"error\":\"NoClassDefFoundError\",\"explained\":1,\"member\":null,\"name\":null,\"operation\":null,\"receiver\":null}],\"number\":1,\"outcomes\":1,\"refusal\":null}],\"total\":{\"broken\":1,\"clients\":1,\"refused\":0},\"used\":[{\"class\":\"p/A\",\"clients\":1,\"error\":\"NoClassDefFoundError\",\"member\":null,\"number\":1,\"operation\":\"class\",\"rule\":\"H1\",\"seat\":null}]}\n";

fn name(rt: &impl Abort, alloc: Global, text: &[u8]) -> Name {
    Name::from_bytes(alloc, text).expect(rt, "memory")
}

// A client whose one class doesn't load any more.
fn answers(rt: &impl Abort, alloc: Global) -> Vec<Answer> {
    let mut lost = Vec::new(alloc);
    lost.push(Outcome {
        class: name(rt, alloc, b"c/C"),
        item: None,
        error: Some(LinkError::NoClassDefFoundError),
    })
    .expect(rt, "memory");
    let mut answers = Vec::new(alloc);
    answers
        .push(Answer::Judged(Losses {
            classes: 1,
            outcomes: 1,
            errors: 0,
            lost: Items::from_vec(lost),
        }))
        .expect(rt, "memory");
    answers
}

// The first line explains it.
fn explained(rt: &impl Abort, alloc: Global) -> Vec<Explained> {
    let mut numbers = Vec::new(alloc);
    numbers.push(Some(1)).expect(rt, "memory");
    let mut explained = Vec::new(alloc);
    explained.push(Explained { numbers }).expect(rt, "memory");
    explained
}

fn entries(rt: &impl Abort, alloc: Global) -> Vec<Finding> {
    let mut entries = Vec::new(alloc);
    entries
        .push(Finding {
            rule: CLASS_GONE,
            class: name(rt, alloc, b"p/A"),
            key: None,
            target: None,
            act: Act::ClassRef,
            seat: None,
            error: LinkError::NoClassDefFoundError,
        })
        .expect(rt, "memory");
    entries
}

#[test]
fn lines_that_explain(rt: HostRuntime) {
    let alloc = rt.alloc();
    let answers = answers(&rt, alloc);
    let explained = explained(&rt, alloc);
    let entries = entries(&rt, alloc);
    let text = used_text(
        alloc,
        answers.as_slice(),
        explained.as_slice(),
        entries.as_slice(),
    )
    .expect(&rt, "memory");
    assert!(rt; text.as_slice() == TEXT);
    let json = used_json(
        alloc,
        answers.as_slice(),
        explained.as_slice(),
        entries.as_slice(),
    )
    .expect(&rt, "memory");
    assert!(rt; json.as_slice() == JSON);
}
