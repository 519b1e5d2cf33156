//! Laws of the definitions that the top call's contract cites, each the contract of a function that
//! does nothing, and the top call over trees, sinks and a folder that don't fail.
ghost use Rattle.std.specs.Prelude.{◌≡◌, ◌≢◌, ◌⊎◌, ℕ, List, map, Ok};
ghost use Rattle.jc_base.specs.Outside.{FileOf};
ghost use Rattle.jc_base.specs.States.{change};
ghost use Rattle.jc_facts.specs.declared.verdict.Verdict.{Verdict};
ghost use Rattle.jc_report.specs.MadeText.{made_text_of};
ghost use Rattle.jc_promises.specs.rule.Verdict.{IsVerdict};
ghost use Rattle.jc_promises.specs.Pairs.{IsPair};
ghost use Rattle.jc_facts.specs.world.World.{World};
ghost use Rattle.jc_gate.specs.Gates.{GateOf, gate_of};
ghost use Rattle.jc_commands.specs.Causes.{IsRefused, IsAccepted};
ghost use Rattle.jcompat.specs.Alike.{OneAnswer};
ghost use Rattle.jcompat.specs.Answers.{Answers, Ran, ran, Puts};
ghost use Rattle.jcompat.specs.declared.disk_trees.TheConstants.{MAX_ENTRIES};
ghost use Rattle.jc_words.specs.Command.{CommandOf, MakeCommand, HelpCommand, asked};
ghost use Rattle.jc_words.specs.Help.{help_page};
ghost use Rattle.jc_commands.specs.Make.{IsVerdictOnMade};
ghost use Rattle.jc_commands.specs.Reports.{RecordsOf, ReportOf, Accepts, IsReportOn};
ghost use Rattle.jc_releases.specs.declared.status.TheConstants.{PASSED, READ_FAULT, WRITE_FAULT, NO_MEMORY};
ghost use Rattle.jc_releases.specs.declared.stop.Stop.{Stop};

use crate::run::run;
use jc_base::folder::Folder;
use jc_base::sink::Sink;
use jc_base::sure_folder::SureFolder;
use jc_base::sure_sink::SureSink;
use jc_base::sure_trees::SureTrees;
use jc_base::text::Text;
use jc_base::trees::Trees;
use jc_gate::gate::Gate;
use std::alloc::Global;

/// Words and files have at most one first refusal.
pub fn one_refusal()
    ensures { (gates : List GateOf) (words : List (List ℕ)) (files : List FileOf) (a b : Stop) → IsRefused gates words files a → IsRefused gates words files b → a ≡ b }
{}

/// Words and files are accepted, or there is a first refusal, and not both.
pub fn refused_or_accepted()
    ensures either { (gates : List GateOf) (words : List (List ℕ)) (files : List FileOf) → IsAccepted gates words files ⊎ ((stop : Stop) × IsRefused gates words files stop) }
    ensures not_both { (gates : List GateOf) (words : List (List ℕ)) (files : List FileOf) (stop : Stop) → IsAccepted gates words files → IsRefused gates words files stop → ⊥ }
{}

/// Two sides of one run, with modules or without, have a verdict: sides of valid classes over a platform that
/// has its root.
pub fn there_is_a_verdict()
    ensures { (O N : World) → IsPair O N → (v : Verdict) × IsVerdict O N v }
{}

/// What is accepted has one report, and what isn't has none.
pub fn one_report()
    ensures some { (files : List FileOf) (command : CommandOf) (records : RecordsOf files command) → Accepts files command records → (report : ReportOf command) × IsReportOn files command records report }
    ensures accepted { (files : List FileOf) (command : CommandOf) (records : RecordsOf files command) (report : ReportOf command) → IsReportOn files command records report → Accepts files command records }
    ensures one { (files : List FileOf) (command : CommandOf) (r s : RecordsOf files command) (a b : ReportOf command) → IsReportOn files command r a → IsReportOn files command s b → a ≡ b }
{}

/// A run for generated releases puts the text of the verdict on them and passes, unless a put fails or
/// there is no memory.
pub fn generated_releases()
    ensures { (r : Ran) (n : ℕ) → Answers r → asked r.words ≡ Ok (MakeCommand n)
        → ((r.status ≡ PASSED) × ((v : Verdict) × IsVerdictOnMade n v × Puts r (made_text_of n v))) ⊎ (r.status ≡ WRITE_FAULT) ⊎ (r.status ≡ NO_MEMORY) }
{}

/// A run for help puts its page and passes, unless a put fails or there is no memory.
pub fn help_is_put()
    ensures { (r : Ran) → Answers r → asked r.words ≡ Ok HelpCommand → ((r.status ≡ PASSED) × Puts r help_page) ⊎ (r.status ≡ WRITE_FAULT) ⊎ (r.status ≡ NO_MEMORY) }
{}

/// Two runs with the same words, gates and told files, both of which answer, put the same bytes and have
/// one status.
pub fn one_answer()
    ensures { OneAnswer }
{}

/// A real folder with more than 1,000,000 entries below it isn't listed. No other clause says what the constant is.
pub fn entries_of_a_folder()
    ensures { MAX_ENTRIES ≡ 1000000 }
{}

/// The top call over trees, sinks and a folder that don't fail. Only a lack of memory stands in the way
/// of its answer.
pub fn run_surely(
    alloc: Global,
    words: &[Text],
    trees: &mut SureTrees,
    out: &mut SureSink,
    err: &mut SureSink,
    witnesses: &mut SureFolder,
    gates: Vec<Box<dyn Gate>>,
) -> u8
    ensures answers { Answers (ran (map (λ gate. gate_of (⟦<dyn Gate as Gate>⟧ gate.vtable) gate.value) gates.items) words.now (change ⟦<SureTrees as Trees>⟧.state trees.old trees.new)
        (change ⟦<SureSink as Sink>⟧.state out.old out.new) (change ⟦<SureSink as Sink>⟧.state err.old err.new)
        (change ⟦<SureFolder as Folder>⟧.state witnesses.old witnesses.new) result) }
    ensures no_read_fault { result ≢ READ_FAULT }
    ensures no_write_fault { result ≢ WRITE_FAULT }
{
    run(alloc, words, trees, out, err, witnesses, gates)
}
