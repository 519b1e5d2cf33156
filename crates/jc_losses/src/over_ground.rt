//! Clients over a platform and a release: the names that aren't allowed, and the table of all classes.
ghost use Rattle.std.specs.Prelude.{◌≡◌, ◌≤◌, ◌+◌, [], length, option_map, IfOk, IsTrue};
ghost use Rattle.std.specs.List.{All};
ghost use Rattle.jc_facts.specs.declared.limits.TheConstants.{MAX_SIDE_CLASSES};
ghost use Rattle.jc_facts.specs.world.World.{differ_by_name, side, modular_side, with_clients};
ghost use Rattle.jc_facts.specs.file.Valid.{IsValidClass};
ghost use Rattle.jc_link.specs.Refusals.{first_refused};
ghost use Rattle.jc_losses.specs.Ground.{side_of_ground, size_of_ground, IsGround, AreTwoLists};
ghost use Rattle.jc_losses.specs.steps.Ground.{with_records, StandBeside, AreBeside};

use crate::grounds::Ground;
use jc_base::items::Items;
use jc_base::name::Name;
use jc_facts::class_facts::ClassFacts;
use jc_facts::client::ClientClass;
use jc_link::client_names::refused_client;
use jc_link::link::copies_of;
use jc_link::refusal::ClientPart;
use jc_loading::platform::Platform;
use jc_table::table::Table;
use std::alloc::{AllocError, Global};

// The first client whose name a platform and a release in one list don't allow, and why.
fn refused_over_list<'a>(
    alloc: Global,
    both: &Platform,
    clients: &'a [ClientClass],
) -> Result<Option<(&'a Name, ClientPart)>, AllocError>
    ensures { IfOk result (λ refused. option_map (λ p. (p.0.now, p.1)) refused ≡ first_refused (side both.now []) clients.now) }
{
    let none = Vec::new(alloc);
    let refused = refused_client(alloc, both.classes(), none.as_slice(), clients)?;
    Ok(refused)
}

// The first client whose name a platform and a release, each in its list, don't allow, and why.
fn refused_over_lists<'a>(
    alloc: Global,
    platform: &Platform,
    release: &[ClassFacts],
    clients: &'a [ClientClass],
) -> Result<Option<(&'a Name, ClientPart)>, AllocError>
    ensures { IfOk result (λ refused. option_map (λ p. (p.0.now, p.1)) refused ≡ first_refused (side platform.now release.now) clients.now) }
{
    let refused = refused_client(alloc, platform.classes(), release, clients)?;
    Ok(refused)
}

/// The first of the clients whose name the side doesn't allow, and why.
///
/// # Errors
///
/// `AllocError` where memory runs out.
pub(crate) fn refused_by<'a>(
    alloc: Global,
    of: &Ground,
    clients: &'a [ClientClass],
) -> Result<Option<(&'a Name, ClientPart)>, AllocError>
    ensures { IfOk result (λ refused. option_map (λ p. (p.0.now, p.1)) refused ≡ first_refused (side_of_ground of.now) clients.now) }
{
    match of {
        Ground::Together(both) => {
            let refused = refused_over_list(alloc, both, clients)?;
            Ok(refused)
        }
        Ground::Apart {
            platform,
            release,
            exports: _,
        } => {
            let refused = refused_over_lists(alloc, platform, release.as_slice(), clients)?;
            Ok(refused)
        }
    }
}

// The table of a platform and a release in one list with clients.
fn table_over_list(
    alloc: Global,
    both: &Platform,
    records: Vec<ClassFacts>,
) -> Result<Table, AllocError>
    requires valid { All IsValidClass both.now }
    requires valid_records { All IsValidClass records.items }
    requires differ { IsTrue (differ_by_name both.now) }
    requires records_differ { IsTrue (differ_by_name records.items) }
    requires few { length both.now + length records.items ≤ MAX_SIDE_CLASSES }
    ensures { IfOk result (λ table. table ≡ side both.now records.items) }
{
    match Table::over(alloc, both, records) {
        Ok(table) => Ok(table),
        Err(_) => Err(AllocError),
    }
}

// Copies of names.
fn copied(alloc: Global, names: &[Name]) -> Result<Vec<Name>, AllocError>
    ensures { IfOk result (λ copies. copies.items ≡ names.now) }
{
    let mut copies = Vec::with_capacity(alloc, names.len())?;
    for name in names {
        copies.push(name.copy(alloc)?)?;
    }
    Ok(copies)
}

// Copies of the packages, where there is a list of them.
fn exports_copied(
    alloc: Global,
    exports: &Option<Items<Name>>,
) -> Result<Option<Vec<Name>>, AllocError>
    ensures { IfOk result (λ copies. option_map (λ ns. ns.items) copies ≡ exports.now) }
{
    match exports {
        Some(packages) => {
            let copies = copied(alloc, packages.as_slice())?;
            Ok(Some(copies))
        }
        None => Ok(None),
    }
}

// The table of a platform and a release, each in its list, with clients, in a run with modules. The
// release is copied.
fn modular_table(
    alloc: Global,
    platform: &Platform,
    release: &[ClassFacts],
    exports: &Option<Items<Name>>,
    records: Vec<ClassFacts>,
) -> Result<Table, AllocError>
    requires lists { AreTwoLists platform.now release.now }
    requires valid_records { All IsValidClass records.items }
    requires beside { AreBeside platform.now release.now records.items }
    requires few { length platform.now + (length release.now + length records.items) ≤ MAX_SIDE_CLASSES }
    ensures { IfOk result (λ table. table ≡ with_clients (modular_side exports.now platform.now release.now) records.items) }
{
    let copies = copies_of(alloc, release)?;
    let packages = exports_copied(alloc, exports)?;
    match Table::over_modular(alloc, platform, copies, records, packages) {
        Ok(table) => Ok(table),
        Err(_) => Err(AllocError),
    }
}

/// The table of a platform and a release with the records of clients, whose names are allowed.
///
/// # Errors
///
/// `AllocError` where memory runs out.
pub(crate) fn table_over(
    alloc: Global,
    of: &Ground,
    records: Vec<ClassFacts>,
) -> Result<Table, AllocError>
    requires lists { IsGround of.now }
    requires valid { All IsValidClass records.items }
    requires differ { IsTrue (differ_by_name records.items) }
    requires beside { StandBeside of.now records.items }
    requires few { size_of_ground of.now + length records.items ≤ MAX_SIDE_CLASSES }
    ensures { IfOk result (λ table. table ≡ with_records of.now records.items) }
{
    match of {
        Ground::Together(both) => table_over_list(alloc, both, records),
        Ground::Apart {
            platform,
            release,
            exports,
        } => modular_table(alloc, platform, release.as_slice(), exports, records),
    }
}
