//! The class files of a witness.
ghost use Rattle.std.specs.Prelude.{◌≡◌, IfOk};
ghost use Rattle.std.specs.List.{All};
ghost use Rattle.jc_promises.specs.Pairs.{AreOfOneRun};
ghost use Rattle.jc_facts.specs.written.Written.{written};
ghost use Rattle.jc_facts.specs.declared.verdict.Cause.TheVariants as cause;
ghost use Rattle.jc_witness.specs.Ground.{HasShortSide};
ghost use Rattle.jc_witness.specs.Witnesses.{IsWitnessOf, StandsInVerdict};
ghost use Rattle.jc_witness.specs.steps.PlanFiles.{written_file, written_files, in_order, spot_in, CanBeWritten, IsReady};

use crate::planned_files::PlannedFiles;
use crate::planner::Planner;
use crate::plans::{collision_plan, finding_plan};
use crate::witnessed::Witnessed;
use jc_base::items::Items;
use jc_base::name::Name;
use jc_facts::blueprint::Blueprint;
use jc_facts::finding::Finding;
use jc_facts::verdict::{Cause, Collision, Spot};
use jc_table::table::Table;
use jc_write::write::{WriteError, write_class};
use std::alloc::{AllocError, Global};

/// A class file of a witness (JVMS 4.1): the name of its class, its bytes, and where the class fails
/// with the new release. Exactly one file of a witness has a spot.
#[derive(PartialEq, Eq, Debug, Drop)]
pub struct WitnessFile {
    pub class: Name,
    pub bytes: Items<u8>,
    pub spot: Option<Spot>,
}

// The bytes of a class file that passes no limit of the format.
fn bytes_of(alloc: Global, file: &Blueprint) -> Result<Vec<u8>, AllocError>
    requires { IsReady file.now }
    ensures { IfOk result (λ bytes. bytes.items ≡ written file.now) }
{
    match write_class(alloc, file) {
        Ok(bytes) => Ok(bytes),
        // No class file that is ready passes a limit.
        Err(WriteError::TooBig) => unreachable!(),
        Err(WriteError::Memory) => Err(AllocError),
    }
}

// The spot, where it is that of the class of this name.
fn spot_for(planned: &PlannedFiles, name: &Name) -> Option<Spot>
    ensures { result ≡ spot_in planned.now name.now }
{
    if *name == planned.name {
        Some(planned.spot)
    } else {
        None
    }
}

fn witness_file(
    alloc: Global,
    planned: &PlannedFiles,
    file: &Blueprint,
) -> Result<WitnessFile, AllocError>
    requires { IsReady file.now }
    ensures { IfOk result (λ made. made ≡ written_file planned.now file.now) }
{
    let bytes = bytes_of(alloc, file)?;
    Ok(WitnessFile {
        class: file.facts.name.copy(alloc)?,
        bytes: Items::from_vec(bytes),
        spot: spot_for(planned, &file.facts.name),
    })
}

// The planned files as they are written.
fn write_files(alloc: Global, planned: &PlannedFiles) -> Result<Vec<WitnessFile>, AllocError>
    requires { All IsReady planned.now.files }
    ensures { IfOk result (λ files. files.items ≡ written_files planned.now) }
{
    let mut files = Vec::new(alloc);
    for file in planned.files.as_slice() {
        files.push(witness_file(alloc, planned, file)?)?;
    }
    Ok(files)
}

// The same in byte order of names.
fn files_of(alloc: Global, planned: PlannedFiles) -> Result<Vec<WitnessFile>, AllocError>
    requires { CanBeWritten planned }
    ensures { IfOk result (λ files. files.items ≡ written_files (in_order planned)) }
{
    let sorted = planned.sorted()?;
    write_files(alloc, &sorted)
}

impl Witnessed for Finding {
    ghost cause = { cause.Finding };

    fn show(&self, alloc: Global, planner: &Planner<'_>) -> Result<Vec<WitnessFile>, AllocError> {
        // The package says what always holds of the two sides.
        let _package = planner.package();
        files_of(alloc, finding_plan(alloc, planner, self)?)
    }
}

impl Witnessed for Collision {
    ghost cause = { cause.Collision };

    fn show(&self, alloc: Global, planner: &Planner<'_>) -> Result<Vec<WitnessFile>, AllocError> {
        // The package says what always holds of the two sides.
        let _package = planner.package();
        files_of(alloc, collision_plan(alloc, planner, self)?)
    }
}

/// The files of a witness for a finding or a collision that `compare` of the two tables gives. The
/// tables are of one run. For many causes of one comparison make one `Planner` and ask it.
///
/// # Errors
///
/// `AllocError` where memory runs out.
pub fn witness(
    alloc: Global,
    old: &Table,
    new: &Table,
    of: &Cause,
) -> Result<Vec<WitnessFile>, AllocError>
    requires run { AreOfOneRun old.now new.now }
    requires cause { StandsInVerdict old.now new.now of.now }
    requires old_names { HasShortSide old.now }
    requires new_names { HasShortSide new.now }
    ensures { IfOk result (λ files. IsWitnessOf old.now new.now of.now files.items) }
{
    let planner = Planner::new(alloc, old, new)?;
    match of {
        Cause::Finding(finding) => finding.show(alloc, &planner),
        Cause::Collision(collision) => collision.show(alloc, &planner),
    }
}
