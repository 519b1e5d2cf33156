//! The comparison of two releases with a platform.
ghost use Rattle.std.specs.Prelude.{◌≡◌, [], ◌∷◌, None, length, IfOk, IfErr, IfSome, option_map};
ghost use Rattle.jc_promises.specs.Pairs.{AreOfOneRun};
ghost use Rattle.jc_bodies.specs.Files.{CanWrite};
ghost use Rattle.jc_witness.specs.Ground.{HasShortSide};
ghost use Rattle.jc_commands.specs.Check.{mismatch_of, AreWarned};
ghost use Rattle.jc_releases.specs.Releases.{side_of};
ghost use Rattle.jc_commands.specs.Signatures.{AreNoted};
ghost use Rattle.jc_commands.specs.steps.Check.{AreFound, IsComparison, StopsComparing, StopsCounting, StopsMatching, StopsWarning};
ghost use Rattle.jc_releases.specs.steps.Releases.{AreOldAndNew};
ghost use Rattle.jc_select.specs.Within.{AnswersStill};
ghost use Rattle.jc_trees.specs.ClassLists.{IsRecordList};
ghost use Rattle.jc_words.specs.CommandView.{check_of};

use crate::found::{Found, Judged, verdict_with_parts};
use jc_call_kinds::call_line::CallLine;
use jc_facts::class_facts::ClassFacts;
use jc_facts::dropped::Dropped;
use jc_facts::sig_note::SigNote;
use jc_facts::verdict::Verdict;
use jc_facts::warning::Warning;
use jc_loading::platform::Platform;
use jc_releases::limits::MAX_WARNINGS;
use jc_releases::releases::{Release, tables_over, two_releases};
use jc_releases::stop::{Part, Stop};
use jc_select::warnings::warnings_within;
use jc_sig::notes::signature_notes;
use jc_table::table::Table;
use jc_words::check::Check;
use std::alloc::{AllocError, Global};

/// The platform with the old release and with the new one, the verdict on them, and the warnings, the
/// notes on signatures, the dropped interfaces and the lines on calls where they are asked for.
#[derive(Drop)]
pub struct Comparison {
    pub old: Table,
    pub new: Table,
    pub verdict: Verdict,
    pub warnings: Option<Vec<Warning>>,
    pub signatures: Option<Vec<SigNote>>,
    pub dropped: Option<Vec<Dropped>>,
    pub calls: Option<Vec<CallLine>>,
}

/// The platform with the old release, and with the new one.
#[derive(Drop)]
pub struct TwoTables {
    pub old: Table,
    pub new: Table,
}

impl TwoTables {
    // The sides of these tables.
    fn of_tables(old: Table, new: Table) -> TwoTables
        requires run { AreOfOneRun old new }
        requires short_old { HasShortSide old }
        requires short_new { HasShortSide new }
        ensures old { result.old ≡ old }
        ensures new { result.new ≡ new }
        ensures run { AreOfOneRun result.old result.new }
        ensures can { CanWrite result.old result.new }
    {
        // Counts say what always holds of a table.
        let _old_size = old.count();
        let _new_size = new.count();
        let _old_names = old.mention_count();
        let _new_names = new.mention_count();
        TwoTables { old, new }
    }
}

// The two tables.
fn both_of(mut tables: Vec<Table>) -> (Table, Table)
    requires { length tables.items ≡ 2 }
    ensures { tables.items ≡ result.0 ∷ result.1 ∷ [] }
{
    let second = tables.pop().unwrap();
    let first = tables.pop().unwrap();
    (first, second)
}

/// The tables of the two sides of this platform, or why there are none.
///
/// # Errors
///
/// Those of `both_sides`.
pub fn sides_over(
    alloc: Global,
    platform: &Platform,
    old: Release,
    new: Release,
) -> Result<TwoTables, Stop>
    requires platform { IsRecordList platform.now }
    requires releases { AreOldAndNew old new }
    ensures old { IfOk result (λ s. s.old ≡ side_of platform.now old) }
    ensures new { IfOk result (λ s. s.new ≡ side_of platform.now new) }
    ensures fits { IfOk result (λ s. mismatch_of (side_of platform.now old) (side_of platform.now new) ≡ None) }
    ensures run { IfOk result (λ s. AreOfOneRun s.old s.new) }
    ensures can { IfOk result (λ s. CanWrite s.old s.new) }
    ensures stopped { IfErr result (StopsMatching (side_of platform.now old) (side_of platform.now new)) }
{
    let Ok(releases) = two_releases(alloc, old, new) else {
        return Err(Stop::Memory);
    };
    let tables = match tables_over(alloc, platform, releases) {
        Ok(tables) => tables,
        Err(stop) => return Err(stop),
    };
    let (old, new) = both_of(tables);
    Ok(TwoTables::of_tables(old, new))
}

/// The tables of the two sides, or why there are none.
///
/// # Errors
///
/// `Stop::BadRoot` where the platform's `java/lang/Object` isn't as it has to be, `Overlap` where a release
/// declares a name of the platform, of the old release first, and `Memory` where memory runs out.
pub fn both_sides(
    alloc: Global,
    platform: Vec<ClassFacts>,
    old: Release,
    new: Release,
) -> Result<TwoTables, Stop>
    requires platform { IsRecordList platform.items }
    requires releases { AreOldAndNew old new }
    ensures old { IfOk result (λ s. s.old ≡ side_of platform.items old) }
    ensures new { IfOk result (λ s. s.new ≡ side_of platform.items new) }
    ensures fits { IfOk result (λ s. mismatch_of (side_of platform.items old) (side_of platform.items new) ≡ None) }
    ensures run { IfOk result (λ s. AreOfOneRun s.old s.new) }
    ensures can { IfOk result (λ s. CanWrite s.old s.new) }
    ensures stopped { IfErr result (StopsMatching (side_of platform.items old) (side_of platform.items new)) }
{
    let Ok(platform) = Platform::new(alloc, platform) else {
        return Err(Stop::Memory);
    };
    match sides_over(alloc, &platform, old, new) {
        Ok(sides) => Ok(sides),
        Err(stop) => Err(stop),
    }
}

/// The verdict on two sides, unless there are too many findings, and the interfaces that classes drop
/// between them and the lines on calls, where they are asked for, or why these aren't reported.
///
/// # Errors
///
/// `Stop::TooMany` where there are too many findings and collisions, and `Memory` where memory runs out.
pub fn found_between(
    alloc: Global,
    old: &Table,
    new: &Table,
    dropped: bool,
    calls: bool,
) -> Result<Found, Stop>
    requires { AreOfOneRun old.now new.now }
    ensures found { IfOk result (AreFound dropped calls old.now new.now) }
    ensures stopped { IfErr result (StopsCounting old.now new.now) }
{
    match verdict_with_parts(alloc, old, new, dropped, calls) {
        Ok(Some(found)) => Ok(found),
        Ok(None) => Err(Stop::TooMany(Part::Findings)),
        Err(_) => Err(Stop::Memory),
    }
}

// The warnings on two sides, where they are asked for, unless there are too many.
fn warned(alloc: Global, old: &Table, new: &Table, warn: bool) -> Result<Option<Vec<Warning>>, Stop>
    requires { AreOfOneRun old.now new.now }
    ensures exact { IfOk result (λ made. AreWarned warn old.now new.now (option_map (λ ws. ws.items) made)) }
    ensures answered { IfOk result (λ made. IfSome (option_map (λ ws. ws.items) made) (AnswersStill old.now new.now)) }
    ensures stopped { IfErr result (StopsWarning warn old.now new.now) }
{
    if !warn {
        return Ok(None);
    }
    match warnings_within(alloc, old, new, MAX_WARNINGS) {
        Ok(Some(warnings)) => Ok(Some(warnings)),
        Ok(None) => Err(Stop::TooMany(Part::Warnings)),
        Err(_) => Err(Stop::Memory),
    }
}

// The notes on the signatures of two sides, where they are asked for.
fn noted(
    alloc: Global,
    old: &Table,
    new: &Table,
    signatures: bool,
) -> Result<Option<Vec<SigNote>>, AllocError>
    requires { AreOfOneRun old.now new.now }
    ensures { IfOk result (λ made. AreNoted signatures old.now new.now (option_map (λ ns. ns.items) made)) }
{
    if !signatures {
        return Ok(None);
    }
    let notes = signature_notes(alloc, old, new)?;
    Ok(Some(notes))
}

impl Comparison {
    /// The comparison of these records, with the parts that the check asks for, or why there is none.
    ///
    /// # Errors
    ///
    /// Those of `both_sides`; and `Stop::TooMany` where the verdict is over its limit, or else the
    /// warnings are, or else the dropped interfaces, or else the lines on calls.
    pub fn of_records(
        alloc: Global,
        platform: Vec<ClassFacts>,
        old: Release,
        new: Release,
        check: &Check<'_>,
    ) -> Result<Comparison, Stop>
        requires platform { IsRecordList platform.items }
        requires releases { AreOldAndNew old new }
        ensures compared { IfOk result (IsComparison (check_of check.now) (side_of platform.items old) (side_of platform.items new)) }
        ensures stopped { IfErr result (StopsComparing (check_of check.now) (side_of platform.items old) (side_of platform.items new)) }
    {
        let TwoTables { old, new } = match both_sides(alloc, platform, old, new) {
            Ok(sides) => sides,
            Err(stop) => return Err(stop),
        };
        let found = match found_between(alloc, &old, &new, check.dropped, check.calls) {
            Ok(found) => found,
            Err(stop) => return Err(stop),
        };
        let Found { judged, calls } = found;
        let Judged { verdict, dropped } = judged;
        let warnings = match warned(alloc, &old, &new, check.warn) {
            Ok(warnings) => warnings,
            Err(stop) => return Err(stop),
        };
        let Ok(signatures) = noted(alloc, &old, &new, check.signatures) else {
            return Err(Stop::Memory);
        };
        let dropped = match dropped {
            Ok(dropped) => dropped,
            Err(stop) => return Err(stop),
        };
        match calls {
            Ok(calls) => Ok(Comparison {
                old,
                new,
                verdict,
                warnings,
                signatures,
                dropped,
                calls,
            }),
            Err(stop) => Err(stop),
        }
    }
}
