//! Putting the class files of witnesses into a folder.
ghost use Rattle.std.specs.Prelude.{◌≡◌, ◌≤◌, ◌<◌, ◌+◌, ◌^◌, length, map, OnOk, OnErr, IsErrOf, IsTrue, [], ◌∷◌};
ghost use Rattle.std.specs.List.{All};
ghost use Rattle.std.specs.Str.{is_utf8};
ghost use Rattle.jc_base.specs.Causes.{Rose};
ghost use Rattle.jc_base.specs.States.{change};
ghost use Rattle.jc_witness.specs.Ground.{HasShortSide};
ghost use Rattle.jc_witness.specs.Witnesses.{StandsInVerdict};
ghost use Rattle.jc_shown.specs.Witness.{PutsFiles, PutsSome, put_file, files_of_cause, files_from, witness_puts};
ghost use Rattle.jc_shown.specs.steps.PutFiles.{IsPutWhole, IsPutInPart};
ghost use Rattle.jc_shown.specs.Shown.{CanShow};

use crate::shown::Shown;
use crate::witness_path::witness_path;
use jc_base::folder::{Folder, FolderError};
use jc_facts::verdict::Verdict;
use jc_witness::planner::Planner;
use jc_witness::witness::WitnessFile;
use jc_witness::witnessed::Witnessed;
use std::alloc::Global;

// Puts a class file of the witness of this number.
fn put_file<F: Folder>(
    alloc: Global,
    dir: &str,
    number: usize,
    file: &WitnessFile,
    folder: &mut F,
) -> Result<(), FolderError>
    requires { IsTrue (is_utf8 file.now.class) }
    ensures whole { OnOk result (IsPutWhole (put_file dir.now number file.now ∷ []) (change F.state folder.old folder.new)) }
    ensures part { OnErr result (IsPutInPart (put_file dir.now number file.now ∷ []) (change F.state folder.old folder.new)) }
    ensures never_falls { (F.state folder.old).faults ≤ (F.state folder.new).faults }
    ensures cause { IsErrOf result FolderError.Fault → Rose (F.state folder.old).faults (F.state folder.new).faults }
{
    let Ok(path) = witness_path(alloc, dir, number, &file.class) else {
        return Err(FolderError::Memory);
    };
    match folder.put(path.as_str(), file.bytes.as_slice()) {
        Ok(()) => Ok(()),
        Err(error) => Err(error),
    }
}

// Puts the class files of the witness of this number.
fn put_files<F: Folder>(
    alloc: Global,
    dir: &str,
    number: usize,
    files: &[WitnessFile],
    folder: &mut F,
) -> Result<(), FolderError>
    requires { All (λ f. IsTrue (is_utf8 f.class)) files.now }
    ensures whole { OnOk result (IsPutWhole (map (put_file dir.now number) files.now) (change F.state folder.old folder.new)) }
    ensures part { OnErr result (IsPutInPart (map (put_file dir.now number) files.now) (change F.state folder.old folder.new)) }
    ensures never_falls { (F.state folder.old).faults ≤ (F.state folder.new).faults }
    ensures cause { IsErrOf result FolderError.Fault → Rose (F.state folder.old).faults (F.state folder.new).faults }
{
    for file in files {
        match put_file(alloc, dir, number, file, folder) {
            Ok(()) => {}
            Err(error) => return Err(error),
        }
    }
    Ok(())
}

// Puts the witness of this number.
fn put_cause<F: Folder, C: Witnessed>(
    alloc: Global,
    dir: &str,
    number: usize,
    planner: &Planner<'_>,
    cause: &C,
    folder: &mut F,
) -> Result<(), FolderError>
    requires stands { StandsInVerdict planner.now.old planner.now.new (C.cause cause.now) }
    requires old_names { HasShortSide planner.now.old }
    requires new_names { HasShortSide planner.now.new }
    ensures whole { OnOk result (IsPutWhole (files_of_cause dir.now planner.now.old planner.now.new number (C.cause cause.now)) (change F.state folder.old folder.new)) }
    ensures part { OnErr result (IsPutInPart (files_of_cause dir.now planner.now.old planner.now.new number (C.cause cause.now)) (change F.state folder.old folder.new)) }
    ensures never_falls { (F.state folder.old).faults ≤ (F.state folder.new).faults }
    ensures cause { IsErrOf result FolderError.Fault → Rose (F.state folder.old).faults (F.state folder.new).faults }
{
    let Ok(files) = cause.show(alloc, planner) else {
        return Err(FolderError::Memory);
    };
    match put_files(alloc, dir, number, files.as_slice(), folder) {
        Ok(()) => Ok(()),
        Err(error) => Err(error),
    }
}

// Puts the witnesses of the causes, whose numbers go on from this one.
fn put_causes<F: Folder, C: Witnessed>(
    alloc: Global,
    dir: &str,
    first: usize,
    planner: &Planner<'_>,
    causes: &[C],
    folder: &mut F,
) -> Result<(), FolderError>
    requires stand { All (λ c. StandsInVerdict planner.now.old planner.now.new (C.cause c)) causes.now }
    requires old_names { HasShortSide planner.now.old }
    requires new_names { HasShortSide planner.now.new }
    requires few { first + length causes.now < 2 ^ 64 }
    ensures whole { OnOk result (IsPutWhole (files_from dir.now planner.now.old planner.now.new first (map C.cause causes.now)) (change F.state folder.old folder.new)) }
    ensures part { OnErr result (IsPutInPart (files_from dir.now planner.now.old planner.now.new first (map C.cause causes.now)) (change F.state folder.old folder.new)) }
    ensures never_falls { (F.state folder.old).faults ≤ (F.state folder.new).faults }
    ensures cause { IsErrOf result FolderError.Fault → Rose (F.state folder.old).faults (F.state folder.new).faults }
{
    for (i, cause) in causes.iter().enumerate() {
        match put_cause(alloc, dir, first + i, planner, cause, folder) {
            Ok(()) => {}
            Err(error) => return Err(error),
        }
    }
    Ok(())
}

// Puts the witnesses of all findings, and then those of all collisions.
fn put_all<F: Folder>(
    alloc: Global,
    planner: &Planner<'_>,
    of: &Shown<'_>,
    verdict: &Verdict,
    folder: &mut F,
) -> Result<(), FolderError>
    requires can { CanShow of.now verdict.now }
    requires sides { planner.now ≡ record { old = of.now.old; new = of.now.new } }
    ensures whole { OnOk result (IsPutWhole (witness_puts of.now.dir.now of.now.old of.now.new verdict.now) (change F.state folder.old folder.new)) }
    ensures part { OnErr result (IsPutInPart (witness_puts of.now.dir.now of.now.old of.now.new verdict.now) (change F.state folder.old folder.new)) }
    ensures never_falls { (F.state folder.old).faults ≤ (F.state folder.new).faults }
    ensures cause { IsErrOf result FolderError.Fault → Rose (F.state folder.old).faults (F.state folder.new).faults }
{
    let findings = verdict.findings.as_slice();
    match put_causes(alloc, of.dir, 1, planner, findings, folder) {
        Ok(()) => {}
        Err(error) => return Err(error),
    }
    let next = findings.len() + 1;
    let collisions = verdict.collisions.as_slice();
    match put_causes(alloc, of.dir, next, planner, collisions, folder) {
        Ok(()) => Ok(()),
        Err(error) => Err(error),
    }
}

/// Puts the witness of each finding and of each collision of the verdict into the folder, in their order, numbered
/// from 1: each class file at `DIR/NNNNNN/NAME.class`, in byte order of names. At an error a prefix of
/// the files stands, and the path of the next one may hold anything. All other paths stay as they
/// were.
///
/// # Errors
///
/// `FolderError::Fault` where a put failed, and `FolderError::Memory` where memory runs out.
pub fn put_witnesses<F: Folder>(
    alloc: Global,
    of: &Shown<'_>,
    verdict: &Verdict,
    folder: &mut F,
) -> Result<(), FolderError>
    requires { CanShow of.now verdict.now }
    ensures whole { OnOk result (PutsFiles (change F.state folder.old folder.new) (witness_puts of.now.dir.now of.now.old of.now.new verdict.now)) }
    ensures some { OnErr result (PutsSome (change F.state folder.old folder.new) (witness_puts of.now.dir.now of.now.old of.now.new verdict.now)) }
    ensures never_falls { (F.state folder.old).faults ≤ (F.state folder.new).faults }
    ensures cause { IsErrOf result FolderError.Fault → Rose (F.state folder.old).faults (F.state folder.new).faults }
{
    let Ok(planner) = Planner::new(alloc, &of.old, &of.new) else {
        return Err(FolderError::Memory);
    };
    match put_all(alloc, &planner, of, verdict, folder) {
        Ok(()) => Ok(()),
        Err(error) => Err(error),
    }
}
