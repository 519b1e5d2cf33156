//! Linking the classes of clients in a run with modules (JVMS 5.3.6).
ghost use Rattle.std.specs.Prelude.{◌≡◌, ◌≤◌, ◌+◌, None, length, option_map, IfOk, IfErr, IsTrue};
ghost use Rattle.std.specs.List.{All};
ghost use Rattle.jc_facts.specs.declared.limits.TheConstants.{MAX_SIDE_CLASSES};
ghost use Rattle.jc_facts.specs.world.World.{differ_by_name, side, modular_side, with_clients};
ghost use Rattle.jc_facts.specs.client.Valid.{facts_of, IsValidClient};
ghost use Rattle.jc_facts.specs.client.Linked.{outcomes, all_outcomes};
ghost use Rattle.jc_facts.specs.file.Valid.{IsValidClass};
ghost use Rattle.jc_index.specs.Root.{fault_of_root};
ghost use Rattle.jc_index.specs.Sides.{overlap_of};
ghost use Rattle.jc_link.specs.Refusals.{first_refused, RefusesBy, RefusesLink, MayLink};

use crate::asked::{Parts, parted};
use crate::link::{copies_of, refusal, refusal_of};
use crate::order::sort;
use crate::outcomes::outcomes_in_order;
use crate::refusal::LinkRefusal;
use jc_base::name::Name;
use jc_facts::class_facts::ClassFacts;
use jc_facts::client::ClientClass;
use jc_facts::outcome::Outcome;
use jc_loading::platform::Platform;
use jc_table::table::Table;
use std::alloc::Global;

// The outcomes of clients in byte order of names, whose names are allowed: by one table of the platform,
// the release and the clients, which are in a module of their own.
fn modular_outcomes(
    alloc: Global,
    platform: &Platform,
    release: Vec<ClassFacts>,
    exports: Option<Vec<Name>>,
    clients: Vec<ClientClass>,
) -> Result<Vec<Outcome>, LinkRefusal>
    requires valid_platform { All IsValidClass platform.now }
    requires valid_release { All IsValidClass release.items }
    requires valid_clients { All IsValidClient clients.items }
    requires platform_differs { IsTrue (differ_by_name platform.now) }
    requires release_differs { IsTrue (differ_by_name release.items) }
    requires clients_differ { IsTrue (differ_by_name (facts_of clients.items)) }
    requires few { length platform.now + (length release.items + length clients.items) ≤ MAX_SIDE_CLASSES }
    requires allowed { first_refused (side platform.now release.items) clients.items ≡ None }
    ensures value { IfOk result (λ list. list.items ≡ all_outcomes (with_clients (modular_side (option_map (λ ns. ns.items) exports) platform.now release.items) (facts_of clients.items)) clients.items) }
    ensures sound { IfOk result (λ _. (fault_of_root platform.now ≡ None) × (overlap_of platform.now release.items ≡ None)) }
    ensures refused { IfErr result (RefusesBy platform.now release.items None) }
{
    let Parts { records, asked } = match parted(alloc, Vec::new(alloc), clients) {
        Ok(parts) => parts,
        Err(_) => return Err(LinkRefusal::Memory),
    };
    match Table::over_modular(alloc, platform, release, records, exports) {
        Err(error) => Err(refusal_of(error)),
        Ok(table) => {
            let _classes = table.count();
            match outcomes_in_order(alloc, &table, asked) {
                Ok(outcomes) => Ok(outcomes),
                Err(_) => Err(LinkRefusal::Memory),
            }
        }
    }
}

/// What linking the clients gives in a run with modules: over a release whose module exports these
/// packages, or that is in the clients' module, where there is no such list (JVMS 5.3.6, 5.4.4). All
/// else is as for `link_over`.
///
/// # Errors
///
/// Those of `link_over`.
pub fn link_modular_over(
    alloc: Global,
    platform: &Platform,
    release: Vec<ClassFacts>,
    exports: Option<Vec<Name>>,
    clients: Vec<ClientClass>,
) -> Result<Vec<Outcome>, LinkRefusal>
    requires valid_platform { All IsValidClass platform.now }
    requires valid_release { All IsValidClass release.items }
    requires valid_clients { All IsValidClient clients.items }
    requires platform_differs { IsTrue (differ_by_name platform.now) }
    requires release_differs { IsTrue (differ_by_name release.items) }
    requires clients_differ { IsTrue (differ_by_name (facts_of clients.items)) }
    requires few { length platform.now + (length release.items + length clients.items) ≤ MAX_SIDE_CLASSES }
    ensures value { IfOk result (λ list. list.items ≡ outcomes (modular_side (option_map (λ ns. ns.items) exports) platform.now release.items) clients.items) }
    ensures linked { IfOk result (λ _. MayLink platform.now release.items clients.items) }
    ensures refused { IfErr result (RefusesLink platform.now release.items clients.items) }
{
    let mut clients = clients;
    match sort(&mut clients) {
        Ok(()) => {}
        Err(_) => return Err(LinkRefusal::Memory),
    }
    match refusal(alloc, platform, release.as_slice(), clients.as_slice()) {
        Some(refusal) => Err(refusal),
        None => modular_outcomes(alloc, platform, release, exports, clients),
    }
}

/// The same over a platform that nobody shares, which is copied.
///
/// # Errors
///
/// Those of `link_over`.
pub fn link_modular(
    alloc: Global,
    platform: &[ClassFacts],
    release: Vec<ClassFacts>,
    exports: Option<Vec<Name>>,
    clients: Vec<ClientClass>,
) -> Result<Vec<Outcome>, LinkRefusal>
    requires valid_platform { All IsValidClass platform.now }
    requires valid_release { All IsValidClass release.items }
    requires valid_clients { All IsValidClient clients.items }
    requires platform_differs { IsTrue (differ_by_name platform.now) }
    requires release_differs { IsTrue (differ_by_name release.items) }
    requires clients_differ { IsTrue (differ_by_name (facts_of clients.items)) }
    requires few { length platform.now + (length release.items + length clients.items) ≤ MAX_SIDE_CLASSES }
    ensures value { IfOk result (λ list. list.items ≡ outcomes (modular_side (option_map (λ ns. ns.items) exports) platform.now release.items) clients.items) }
    ensures linked { IfOk result (λ _. MayLink platform.now release.items clients.items) }
    ensures refused { IfErr result (RefusesLink platform.now release.items clients.items) }
{
    let Ok(copies) = copies_of(alloc, platform) else {
        return Err(LinkRefusal::Memory);
    };
    let Ok(shared) = Platform::new(alloc, copies) else {
        return Err(LinkRefusal::Memory);
    };
    match link_modular_over(alloc, &shared, release, exports, clients) {
        Ok(outcomes) => Ok(outcomes),
        Err(refusal) => Err(refusal),
    }
}
