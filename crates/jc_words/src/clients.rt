//! Clients of two releases.
ghost use Rattle.std.specs.Prelude.{◌≡◌, IfOk};
ghost use Rattle.std.specs.Result.{result_map_both};
ghost use Rattle.clap.specs.Words.{app_of, rows_of, found_of};
ghost use Rattle.jc_words.specs.Command.{ClientsCommand, clients_arguments, clients_in, clients_by, or_clients};
ghost use Rattle.jc_words.specs.CommandView.{clients_of};

use crate::arguments::{bare, flag, is_on, required, taken, value_of, values_of, words};
use crate::usage::Usage;
use clap::{ArgMatches, Command};
use jc_base::text::Text;
use std::alloc::{AllocError, Global};

/// The fewest clients.
const MIN_CLIENTS: usize = 1;

/// The most clients.
const MAX_CLIENTS: usize = 1000;

/// Two releases with a platform, and clients of them, each the root of a tree.
#[derive(PartialEq, Eq, Debug, Drop)]
pub struct Clients<'a> {
    pub platform: &'a str,
    pub old: &'a str,
    pub new: &'a str,
    /// Whether the answer is JSON.
    pub json: bool,
    /// Whether a file `module-info.class` at the root of a release makes it a named module.
    pub modular: bool,
    /// Whether the lines of the check of the two that explain losses are reported.
    pub used: bool,
    /// In their order, from 1 to 1,000.
    pub clients: Vec<&'a str>,
}

impl<'a> Clients<'a> {
    /// What the words after `clients` ask for. The fault is `Words` where they aren't taken, and `Clients`
    /// where they don't name from 1 to 1,000 clients.
    ///
    /// # Errors
    ///
    /// `AllocError` where memory runs out.
    pub fn from_words(
        alloc: Global,
        words: &'a [Text],
    ) -> Result<Result<Clients<'a>, Usage>, AllocError>
        ensures exact { IfOk result (λ r. result_map_both (λ c. ClientsCommand (clients_of c)) (λ usage. usage) r ≡ clients_by words.entry.now) }
    {
        match taken(arguments(alloc)?, words)? {
            Some(matches) => Ok(Clients::from_matches(alloc, &matches)?.or_fault()),
            None => Ok(Err(Usage::Words)),
        }
    }

    fn from_matches(alloc: Global, matches: &ArgMatches<'a>) -> Result<Clients<'a>, AllocError>
        ensures { IfOk result (λ c. clients_of c ≡ clients_in (rows_of (found_of matches.now))) }
    {
        let clients = values_of(alloc, matches, "clients")?;
        Ok(Clients {
            platform: value_of(matches, "platform"),
            old: value_of(matches, "old"),
            new: value_of(matches, "new"),
            json: is_on(matches, "json"),
            modular: is_on(matches, "modular"),
            used: is_on(matches, "used"),
            clients,
        })
    }

    // The same, or the fault of a number of clients that is none.
    fn or_fault(self) -> Result<Clients<'a>, Usage>
        ensures { result_map_both (λ c. ClientsCommand (clients_of c)) (λ usage. usage) result ≡ or_clients (clients_of self.entry) }
    {
        let count = self.clients.len();
        if MIN_CLIENTS <= count && count <= MAX_CLIENTS {
            Ok(self)
        } else {
            Err(Usage::Clients(count))
        }
    }
}

// The arguments of `clients`.
fn arguments<'a>(alloc: Global) -> Result<Command<'a>, AllocError>
    ensures { IfOk result (λ c. app_of c ≡ clients_arguments) }
{
    bare(alloc, "clients")
        .arg(required(alloc, "platform"))?
        .arg(required(alloc, "old"))?
        .arg(required(alloc, "new"))?
        .arg(flag(alloc, "json"))?
        .arg(flag(alloc, "modular"))?
        .arg(flag(alloc, "used"))?
        .arg(words(alloc, "clients"))
}
