//! Links of clients with a release.
ghost use Rattle.std.specs.Prelude.{◌≡◌, IfOk};
ghost use Rattle.std.specs.Option.{option_map};
ghost use Rattle.clap.specs.Words.{app_of, rows_of, found_of};
ghost use Rattle.jc_words.specs.Command.{link_arguments, link_in, link_by};
ghost use Rattle.jc_words.specs.CommandView.{link_of};

use crate::arguments::{bare, flag, is_on, required, taken, value_of};
use clap::{ArgMatches, Command};
use jc_base::text::Text;
use std::alloc::{AllocError, Global};

/// The linking of clients with a platform and a release, each the root of a tree.
#[derive(Clone, Copy, PartialEq, Eq, Debug)]
pub struct Link<'a> {
    pub platform: &'a str,
    pub release: &'a str,
    pub client: &'a str,
    /// Whether a file `module-info.class` at the root of the release makes it a named module.
    pub modular: bool,
}

impl<'a> Link<'a> {
    /// The link of the words after `link`, or none where they aren't taken.
    ///
    /// # Errors
    ///
    /// `AllocError` where memory runs out.
    pub fn from_words(alloc: Global, words: &'a [Text]) -> Result<Option<Link<'a>>, AllocError>
        ensures exact { IfOk result (λ l. option_map link_of l ≡ link_by words.entry.now) }
    {
        match taken(arguments(alloc)?, words)? {
            Some(matches) => Ok(Some(Link::from_matches(&matches))),
            None => Ok(None),
        }
    }

    fn from_matches(matches: &ArgMatches<'a>) -> Link<'a>
        ensures { link_of result ≡ link_in (rows_of (found_of matches.now)) }
    {
        Link {
            platform: value_of(matches, "platform"),
            release: value_of(matches, "release"),
            client: value_of(matches, "client"),
            modular: is_on(matches, "modular"),
        }
    }
}

// The arguments of `link`.
fn arguments<'a>(alloc: Global) -> Result<Command<'a>, AllocError>
    ensures { IfOk result (λ c. app_of c ≡ link_arguments) }
{
    bare(alloc, "link")
        .arg(required(alloc, "platform"))?
        .arg(required(alloc, "release"))?
        .arg(required(alloc, "client"))?
        .arg(flag(alloc, "modular"))
}
