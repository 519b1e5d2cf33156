//! Generated releases.
ghost use Rattle.std.specs.Prelude.{◌≡◌, IfOk};
ghost use Rattle.std.specs.Option.{option_map};
ghost use Rattle.std.specs.Result.{result_map_both};
ghost use Rattle.clap.specs.Words.{app_of};
ghost use Rattle.jc_words.specs.Command.{MakeCommand, make_arguments, make_by, number_word as word_by, or_number};
ghost use Rattle.jc_words.specs.Number.{number_of as number_in};

use crate::arguments::{bare, taken, value_of, word};
use crate::number::number_of;
use crate::usage::Usage;
use clap::Command;
use jc_base::text::Text;
use std::alloc::{AllocError, Global};

/// An old and a new release that are generated.
#[derive(Clone, Copy, PartialEq, Eq, Debug)]
pub struct Make {
    /// How many classes each of them has, from 1 to 4,096.
    pub classes: u32,
}

impl Make {
    /// What the words after `make` ask for. The fault is `Words` where they aren't one word that is no
    /// option, and `Number` where the word says no number from 1 to 4,096.
    ///
    /// # Errors
    ///
    /// `AllocError` where memory runs out.
    pub fn from_words(alloc: Global, words: &[Text]) -> Result<Result<Make, Usage>, AllocError>
        ensures exact { IfOk result (λ r. result_map_both (λ make. MakeCommand make.classes) (λ usage. usage) r ≡ make_by words.now) }
    {
        match number_word(alloc, words)? {
            Some(word) => Make::from_word(alloc, word),
            None => Ok(Err(Usage::Words)),
        }
    }

    // The releases of as many classes as the word says.
    fn from_word(alloc: Global, word: &str) -> Result<Result<Make, Usage>, AllocError>
        ensures { IfOk result (λ r. result_map_both (λ make. MakeCommand make.classes) (λ usage. usage) r ≡ or_number word.now (number_in word.now)) }
    {
        match number_of(alloc, word)? {
            Some(classes) => Ok(Ok(Make { classes })),
            None => Ok(Err(Usage::Number(Text::from_str(alloc, word)?))),
        }
    }
}

// The word in the place of the number, or none where the words aren't taken.
fn number_word<'a>(alloc: Global, words: &'a [Text]) -> Result<Option<&'a str>, AllocError>
    ensures { IfOk result (λ word. option_map (λ s. s.now) word ≡ word_by words.entry.now) }
{
    match taken(arguments(alloc)?, words)? {
        Some(matches) => Ok(Some(value_of(&matches, "number"))),
        None => Ok(None),
    }
}

// The arguments of `make`.
fn arguments<'a>(alloc: Global) -> Result<Command<'a>, AllocError>
    ensures { IfOk result (λ c. app_of c ≡ make_arguments) }
{
    bare(alloc, "make").arg(word(alloc, "number"))
}
