//! Says whether clients that were compiled against an old release of a library link with a new one.
#![tactic(auto)]

ghost use Rattle.std.specs.Prelude.{◌≡◌, List, None, map, drop, string_bytes, IfOk, OnErr, IfSome};
ghost use Rattle.jc_base.specs.States.{change};
ghost use Rattle.jc_gate.specs.Gates.{GateOf};
ghost use Rattle.jcompat.specs.Answers.{ran};
ghost use Rattle.jcompat.specs.Program.{OwnAnswers, IsIdle, IsNoText};

mod disk_folder;
mod disk_trees;
mod laws;
mod run;
mod std_sink;
mod writer;

use crate::disk_folder::DiskFolder;
use crate::disk_trees::DiskTrees;
use crate::run::run;
use crate::std_sink::StdSink;
use jc_base::folder::Folder;
use jc_base::sink::Sink;
use jc_base::text::Text;
use jc_base::trees::Trees;
use jc_commands::put::put_stop;
use jc_gate::at_most::AtMost;
use jc_gate::calls::Calls;
use jc_gate::collisions::Collisions;
use jc_gate::gate::Gate;
use jc_gate::links::Links;
use jc_releases::status::NO_MEMORY;
use jc_releases::stop::Stop;
use jc_version::version_gate::VersionGate;
use jc_words::usage::Usage;
use std::alloc::{AllocError, Global};
use std::env;
use std::env::Env;
use std::io::ErrorKind;
use std::process::ExitCode;

// The texts behind the first of those that are given, which is the program's name: also those that are empty.
fn words_behind_name(alloc: Global, given: &[String]) -> Result<Vec<Text>, AllocError>
    ensures { IfOk result (λ words. words.items ≡ map string_bytes (drop 1 given.now)) }
{
    let mut words = Vec::new(alloc);
    let Some((_, behind)) = given.split_first() else {
        return Ok(words);
    };
    for word in behind {
        words.push(Text::from_str(alloc, word.as_str())?)?;
    }
    Ok(words)
}

// The words after the program's name, or none where there is one that isn't UTF-8.
fn words_after_name(rt: &(impl Env + AllocGlobal)) -> Result<Option<Vec<Text>>, AllocError> {
    let alloc = rt.alloc();
    let given = match env::args(rt) {
        Ok(given) => given,
        Err(error) if error.kind() == ErrorKind::OutOfMemory => return Err(AllocError),
        Err(_) => return Ok(None),
    };
    let given: Vec<String> = given.collect(alloc)?;
    Ok(Some(words_behind_name(alloc, given.as_slice())?))
}

// Runs with these words and the gates of the program: `links`, `collisions`, `few`, which lets ten rules
// pass, `version` and `calls`.
fn run_with_gates<T: Trees, O: Sink, E: Sink, F: Folder>(
    alloc: Global,
    words: &[Text],
    trees: &mut T,
    out: &mut O,
    err: &mut E,
    witnesses: &mut F,
) -> Result<u8, AllocError>
    ensures answers { IfOk result (λ status. (gates : List GateOf) × OwnAnswers (ran gates words.now (change T.state trees.old trees.new) (change O.state out.old out.new) (change E.state err.old err.new) (change F.state witnesses.old witnesses.new) status)) }
    ensures no_memory { OnErr result (IsIdle (change T.state trees.old trees.new) (change O.state out.old out.new) (change E.state err.old err.new) (change F.state witnesses.old witnesses.new)) }
{
    let mut gates: Vec<Box<dyn Gate>> = Vec::new(alloc);
    gates.push(Box::new(alloc, Links::new())?)?;
    gates.push(Box::new(alloc, Collisions::new())?)?;
    gates.push(Box::new(alloc, AtMost::new(10))?)?;
    gates.push(Box::new(alloc, VersionGate::new())?)?;
    gates.push(Box::new(alloc, Calls::new())?)?;
    Ok(run(alloc, words, trees, out, err, witnesses, gates))
}

// Runs with these words and the gates of the program. No command takes a word that isn't UTF-8.
fn run_words<T: Trees, O: Sink, E: Sink, F: Folder>(
    alloc: Global,
    words: Option<Vec<Text>>,
    trees: &mut T,
    out: &mut O,
    err: &mut E,
    witnesses: &mut F,
) -> u8
    ensures answers { IfSome words (λ given. (gates : List GateOf) × OwnAnswers (ran gates given.items (change T.state trees.old trees.new) (change O.state out.old out.new) (change E.state err.old err.new) (change F.state witnesses.old witnesses.new) result)) }
    ensures no_text { words ≡ None → IsNoText (change T.state trees.old trees.new) (change O.state out.old out.new) (change E.state err.old err.new) (change F.state witnesses.old witnesses.new) result }
{
    match words {
        Some(words) => match run_with_gates(alloc, words.as_slice(), trees, out, err, witnesses) {
            Ok(status) => status,
            Err(_) => NO_MEMORY,
        },
        None => put_stop(alloc, &Stop::Usage(Usage::Words), err),
    }
}

fn main(rt: HostRuntime) -> ExitCode {
    let alloc = rt.alloc();
    let Ok(words) = words_after_name(&rt) else {
        // There is no memory even for the words.
        return ExitCode::from(NO_MEMORY);
    };
    let files: Result<_, _> = rt.clone();
    let Ok(files) = files else {
        return ExitCode::from(NO_MEMORY);
    };
    let mut out = StdSink::new(rt.stdout());
    let mut err = StdSink::new(rt.stderr());
    let mut witnesses = DiskFolder::new(files);
    let mut trees = DiskTrees::new(rt);
    ExitCode::from(run_words(alloc, words, &mut trees, &mut out, &mut err, &mut witnesses))
}

#[cfg(test)]
mod tests;
