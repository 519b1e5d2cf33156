//! The page of help.
ghost use Rattle.std.specs.Prelude.{◌≡◌};
ghost use Rattle.jc_words.specs.Help.{help_page};

const PAGE: &str = "\
Do clients that were compiled against the old release of a Java library still
link with the new one? Each FOLDER, RELEASE and CLIENT is a folder of class
files. The first line of a command has what must be given, the lines below it
what may be.

jcompat check --platform FOLDER --old FOLDER --new FOLDER
  compares two releases over the platform that both need
  --witness FOLDER  writes there, for each break, a client that has it
  --json            prints JSON
  --gate NAME,..    which gates decide the status: links (as without this),
                    collisions, few, version, calls
  --from VERSION    the version of the old release
  --to VERSION      the version of the new release
  --warn            prints too which calls may find no method to run
  --signatures      prints too which generic signatures have changed
  --dropped         prints too which interfaces classes no longer implement
  --calls           prints too which calls and method references no longer
                    run though all links
  --modular         a release with a module-info.class is a named module

jcompat history --platform FOLDER RELEASE RELEASE..
  compares each of 2 to 20 releases with the next one

jcompat clients --platform FOLDER --old FOLDER --new FOLDER CLIENT..
  what each of 1 to 1,000 clients loses from the old release to the new one
  --json            prints JSON
  --modular         a release with a module-info.class is a named module
  --used            prints too which line of check explains each loss

jcompat link --platform FOLDER --release FOLDER --client FOLDER
  what becomes of each class of a client, and each use, over one release
  --modular         a release with a module-info.class is a named module

jcompat make NUMBER
  compares two generated releases of so many classes, from 1 to 4,096

jcompat help
  prints this page

Status:
  0  the gates pass, no release of the row breaks a client, no client loses
     anything, all links; of make and help always
  1  that isn't so
  2  wrong words
  3  wrong class files
  4  a folder or a file can't be read
  5  writing failed
  6  there is no memory
  7  a limit is passed
";

/// The page of commands, options and statuses.
#[tactic(auto, unfolding(crate::specs::Help::help_lines))]
pub fn page() -> &'static str
    ensures { result.now ≡ help_page }
{
    PAGE
}
