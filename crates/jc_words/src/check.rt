//! Checks of two releases.
ghost use Rattle.std.specs.Prelude.{◌≡◌, ◌==◌, IfOk, map, [], ◌∷◌};
ghost use Rattle.std.specs.List.{slice_split};
ghost use Rattle.std.specs.Option.{option_map};
ghost use Rattle.clap.specs.Words.{app_of, rows_of, found_of};
ghost use Rattle.jc_words.specs.Command.{check_arguments, check_in, check_by, gate_names as names_by};
ghost use Rattle.jc_words.specs.CommandView.{check_of};

use crate::arguments::{bare, flag, is_on, option, required, taken, value_of, value_or_none};
use clap::{ArgMatches, Command};
use jc_base::text::Text;
use std::alloc::{AllocError, Global};

/// A check of two releases with a platform, each the root of a tree.
#[derive(Clone, Copy, PartialEq, Eq, Debug)]
pub struct Check<'a> {
    pub platform: &'a str,
    pub old: &'a str,
    pub new: &'a str,
    /// The folder for the witnesses, where they are wanted.
    pub witness: Option<&'a str>,
    /// Whether the report is JSON.
    pub json: bool,
    /// The value of `--gate`, where it is used.
    pub gate: Option<&'a str>,
    /// The version of the old release, where it is said.
    pub from: Option<&'a str>,
    /// The version of the new release, where it is said.
    pub to: Option<&'a str>,
    /// Whether the report has the warnings of selection.
    pub warn: bool,
    /// Whether the report has the notes on generic signatures.
    pub signatures: bool,
    /// Whether the report has the interfaces that classes drop.
    pub dropped: bool,
    /// Whether the report has the calls and method references that no longer run, though all links.
    pub calls: bool,
    /// Whether a file `module-info.class` at the root of a release makes it a named module.
    pub modular: bool,
}

impl<'a> Check<'a> {
    /// The check of the words after `check`, or none where they aren't taken.
    ///
    /// # Errors
    ///
    /// `AllocError` where memory runs out.
    pub fn from_words(alloc: Global, words: &'a [Text]) -> Result<Option<Check<'a>>, AllocError>
        ensures exact { IfOk result (λ c. option_map check_of c ≡ check_by words.entry.now) }
    {
        match taken(arguments(alloc)?, words)? {
            Some(matches) => Ok(Some(Check::from_matches(&matches))),
            None => Ok(None),
        }
    }

    fn from_matches(matches: &ArgMatches<'a>) -> Check<'a>
        ensures { check_of result ≡ check_in (rows_of (found_of matches.now)) }
    {
        Check {
            platform: value_of(matches, "platform"),
            old: value_of(matches, "old"),
            new: value_of(matches, "new"),
            witness: value_or_none(matches, "witness"),
            json: is_on(matches, "json"),
            gate: value_or_none(matches, "gate"),
            from: value_or_none(matches, "from"),
            to: value_or_none(matches, "to"),
            warn: is_on(matches, "warn"),
            signatures: is_on(matches, "signatures"),
            dropped: is_on(matches, "dropped"),
            calls: is_on(matches, "calls"),
            modular: is_on(matches, "modular"),
        }
    }

    /// The names of the gates that are asked, at least one: the parts of the value of `--gate`, which
    /// is cut at each comma, and `links` without it.
    ///
    /// # Errors
    ///
    /// `AllocError` where memory runs out.
    pub fn gate_names(&self, alloc: Global) -> Result<Vec<&'a str>, AllocError>
        ensures { IfOk result (λ names. map (λ name. name.now) names.items ≡ (check_of self.now).gates) }
    {
        names_in(alloc, self.gate)
    }
}

// The names of gates in the value of `--gate`, or `links` without it.
fn names_in<'a>(alloc: Global, gate: Option<&'a str>) -> Result<Vec<&'a str>, AllocError>
    ensures { IfOk result (λ names. map (λ name. name.now) names.items ≡ names_by (option_map (λ s. s.now) gate.entry)) }
{
    match gate {
        Some(value) => parts(alloc, value),
        None => one(alloc, "links"),
    }
}

fn one<'a>(alloc: Global, text: &'a str) -> Result<Vec<&'a str>, AllocError>
    ensures { IfOk result (λ texts. map (λ t. t.now) texts.items ≡ text.now ∷ []) }
{
    let mut texts = Vec::new(alloc);
    texts.push(text)?;
    Ok(texts)
}

// The parts of a text that is cut at each comma.
fn parts(alloc: Global, text: &str) -> Result<Vec<&str>, AllocError>
    ensures { IfOk result (λ parts. map (λ part. part.now) parts.items ≡ slice_split (λ b. b == 0x2c) text.now) }
{
    text.split(',').collect(alloc)
}

// The arguments of `check`.
fn arguments<'a>(alloc: Global) -> Result<Command<'a>, AllocError>
    ensures { IfOk result (λ c. app_of c ≡ check_arguments) }
{
    bare(alloc, "check")
        .arg(required(alloc, "platform"))?
        .arg(required(alloc, "old"))?
        .arg(required(alloc, "new"))?
        .arg(option(alloc, "witness"))?
        .arg(flag(alloc, "json"))?
        .arg(option(alloc, "gate"))?
        .arg(option(alloc, "from"))?
        .arg(option(alloc, "to"))?
        .arg(flag(alloc, "warn"))?
        .arg(flag(alloc, "signatures"))?
        .arg(flag(alloc, "dropped"))?
        .arg(flag(alloc, "calls"))?
        .arg(flag(alloc, "modular"))
}
