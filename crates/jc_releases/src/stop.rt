//! Why there is no report.
ghost use Rattle.std.specs.Prelude.{◌≡◌, ◌++◌, codes, string_bytes, IfOk, OnOk};
ghost use Rattle.std.specs.Fmt.{decimal};
ghost use Rattle.jc_report.specs.Text.{printed};
ghost use Rattle.jc_trees.specs.Tree.{tree_words};
ghost use Rattle.jc_releases.specs.Stop.{reason_name as name_of, code_reason_name as name_of_code_reason, part_name as part_name_of, client_part_name as name_of_client_part, report_part_name as name_of_part, file_words, unread_words, usage_words, line_of, file_status as file_status_of, tree_status as tree_status_of, status_of};

use crate::status::{BAD_INPUT, LIMIT, NO_MEMORY, READ_FAULT, USAGE};
use jc_base::name::Name;
use jc_desc::fault::{Malformed, Reason};
use jc_facts::code_fault::CodeReason;
use jc_index::root::RootPart;
use jc_link::refusal::ClientPart;
use jc_report::printed::{push_decimal, push_printed};
use jc_trees::file_fault::{FileFault, TreeFault};
use jc_trees::tree::TreeName;
use jc_words::usage::Usage;
use std::alloc::{AllocError, Global};

/// The part of a report that can have too many items.
#[derive(Clone, Copy, Debug)]
pub enum Part {
    /// Its findings and collisions.
    Findings,
    /// Its warnings of selection.
    Warnings,
    /// Its dropped interfaces.
    Dropped,
    /// Its lines on calls.
    Calls,
}

/// Why there is no report.
#[derive(Debug, Drop)]
pub enum Stop {
    /// The words ask for nothing.
    Usage(Usage),
    /// The class files of the tree aren't read.
    Unread(TreeName, TreeFault),
    /// This part of the platform's `java/lang/Object` isn't as it has to be.
    BadRoot(RootPart),
    /// The release of this tree declares this name, and so does the platform.
    Overlap(TreeName, Name),
    /// The platform and the release don't allow a client of this name.
    ClientName(Name, ClientPart),
    /// This part of the report has more items than the limit.
    TooMany(Part),
    /// A call on the tree failed.
    ReadFault(TreeName),
    /// There was no memory.
    Memory,
}

fn file_status(fault: &FileFault) -> u8
    ensures { result ≡ file_status_of fault.now }
{
    match fault {
        FileFault::TooLong => LIMIT,
        FileFault::Malformed(_) | FileFault::Misplaced(_) | FileFault::BadCode { .. } => BAD_INPUT,
    }
}

fn tree_status(fault: &TreeFault) -> u8
    ensures { result ≡ tree_status_of fault.now }
{
    match fault {
        TreeFault::TooManyFiles | TreeFault::LongPath => LIMIT,
        TreeFault::File(_, fault) => file_status(fault),
    }
}

fn reason_name(reason: Reason) -> &'static str
    ensures { result.now ≡ name_of reason }
{
    match reason {
        Reason::BadMagic => "BadMagic",
        Reason::BadVersion => "BadVersion",
        Reason::Short => "Short",
        Reason::BadTag => "BadTag",
        Reason::BadUtf8 => "BadUtf8",
        Reason::BadIndex => "BadIndex",
        Reason::BadName => "BadName",
        Reason::BadDescriptor => "BadDescriptor",
        Reason::BadFlags => "BadFlags",
        Reason::Duplicate => "Duplicate",
        Reason::BadAttribute => "BadAttribute",
        Reason::Trailing => "Trailing",
    }
}

fn code_reason_name(reason: CodeReason) -> &'static str
    ensures { result.now ≡ name_of_code_reason reason }
{
    match reason {
        CodeReason::BadLayout => "BadLayout",
        CodeReason::BadOpcode => "BadOpcode",
        CodeReason::CutShort => "CutShort",
        CodeReason::BadEntry => "BadEntry",
    }
}

fn part_name(part: RootPart) -> &'static str
    ensures { result.now ≡ part_name_of part }
{
    match part {
        RootPart::Missing => "missing",
        RootPart::Flags => "flags",
        RootPart::Super => "super",
        RootPart::Interfaces => "interfaces",
        RootPart::Fields => "fields",
        RootPart::Permits => "permits",
        RootPart::Init => "init",
    }
}

/// The word of why a client may not have its name.
pub fn client_part_name(part: ClientPart) -> &'static str
    ensures { result.now ≡ name_of_client_part part }
{
    match part {
        ClientPart::Declared => "declared",
        ClientPart::Super => "super",
        ClientPart::Package => "package",
        ClientPart::Length => "length",
        ClientPart::Encoding => "encoding",
    }
}

fn report_part_name(part: Part) -> &'static str
    ensures { result.now ≡ name_of_part part }
{
    match part {
        Part::Findings => "findings",
        Part::Warnings => "warnings",
        Part::Dropped => "dropped",
        Part::Calls => "calls",
    }
}

// What is said of a class file that is no class file, from this offset on.
fn malformed_text(alloc: Global, malformed: &Malformed) -> Result<String, AllocError>
    ensures { IfOk result (λ text. string_bytes text ≡ name_of malformed.now.reason ++ codes " at " ++ decimal malformed.now.offset) }
{
    let reason = reason_name(malformed.reason);
    let offset = malformed.offset;
    format!(in alloc; "{reason} at {offset}")
}

// What is said of a class file whose code is refused, first at this offset.
fn bad_code_text(alloc: Global, offset: u32, reason: CodeReason) -> Result<String, AllocError>
    ensures { IfOk result (λ text. string_bytes text ≡ codes "code " ++ name_of_code_reason reason ++ codes " at " ++ decimal offset) }
{
    let reason = code_reason_name(reason);
    format!(in alloc; "code {reason} at {offset}")
}

/// What is said of a class file that isn't read.
///
/// # Errors
///
/// `AllocError` where memory runs out.
pub fn file_text(alloc: Global, fault: &FileFault) -> Result<String, AllocError>
    ensures { IfOk result (λ text. string_bytes text ≡ file_words fault.now) }
{
    match fault {
        FileFault::TooLong => String::from_str(alloc, "limit bytes"),
        FileFault::Malformed(malformed) => malformed_text(alloc, malformed),
        FileFault::Misplaced(name) => {
            let mut text = String::from_str(alloc, "misplaced ")?;
            push_printed(&mut text, name.as_bytes())?;
            Ok(text)
        }
        FileFault::BadCode { offset, reason } => bad_code_text(alloc, *offset, *reason),
    }
}

fn push_unread_words(alloc: Global, line: &mut Vec<u8>, fault: &TreeFault) -> Result<(), AllocError>
    ensures { OnOk result (line.new.items ≡ line.old.items ++ unread_words fault.now) }
{
    match fault {
        TreeFault::TooManyFiles => line.extend_from_slice(b"limit files")?,
        TreeFault::LongPath => line.extend_from_slice(b"limit path")?,
        TreeFault::File(path, fault) => {
            push_printed(line, path.as_str().as_bytes())?;
            line.extend_from_slice(b": ")?;
            line.extend_from_slice(file_text(alloc, fault)?.as_str().as_bytes())?;
        }
    }
    Ok(())
}

// A line on a tree as a whole.
fn tree_line(alloc: Global, tree: TreeName, what: &[u8]) -> Result<Vec<u8>, AllocError>
    ensures { IfOk result (λ line. line.items ≡ codes "jcompat: " ++ tree_words tree ++ what.now) }
{
    let mut line = Vec::from_slice(alloc, b"jcompat: ")?;
    tree.push_words(alloc, &mut line)?;
    line.extend_from_slice(what)?;
    Ok(line)
}

// The line on a tree whose class files aren't read.
fn unread_line(alloc: Global, tree: TreeName, fault: &TreeFault) -> Result<Vec<u8>, AllocError>
    ensures { IfOk result (λ line. line.items ≡ codes "jcompat: " ++ tree_words tree ++ codes ": " ++ unread_words fault.now ++ codes "\n") }
{
    let mut line = tree_line(alloc, tree, b": ")?;
    push_unread_words(alloc, &mut line, fault)?;
    line.push(b'\n')?;
    Ok(line)
}

// The line on a platform whose root isn't as it has to be.
fn bad_root_line(alloc: Global, part: RootPart) -> Result<Vec<u8>, AllocError>
    ensures { IfOk result (λ line. line.items ≡ codes "jcompat: platform: bad root " ++ part_name_of part ++ codes "\n") }
{
    let mut line = Vec::from_slice(alloc, b"jcompat: platform: bad root ")?;
    line.extend_from_slice(part_name(part).as_bytes())?;
    line.push(b'\n')?;
    Ok(line)
}

// The line on a release that declares a name of the platform.
fn overlap_line(alloc: Global, tree: TreeName, name: &Name) -> Result<Vec<u8>, AllocError>
    ensures { IfOk result (λ line. line.items ≡ codes "jcompat: " ++ tree_words tree ++ codes ": overlap " ++ printed name.now ++ codes "\n") }
{
    let mut line = tree_line(alloc, tree, b": overlap ")?;
    push_printed(&mut line, name.as_bytes())?;
    line.push(b'\n')?;
    Ok(line)
}

// The line on a client whose name isn't allowed.
fn client_name_line(alloc: Global, name: &Name, part: ClientPart) -> Result<Vec<u8>, AllocError>
    ensures { IfOk result (λ line. line.items ≡ codes "jcompat: client: name " ++ printed name.now ++ codes " " ++ name_of_client_part part ++ codes "\n") }
{
    let mut line = Vec::from_slice(alloc, b"jcompat: client: name ")?;
    push_printed(&mut line, name.as_bytes())?;
    line.push(b' ')?;
    line.extend_from_slice(client_part_name(part).as_bytes())?;
    line.push(b'\n')?;
    Ok(line)
}

// The line on a part of the report that has too many items.
fn too_many_line(alloc: Global, part: Part) -> Result<Vec<u8>, AllocError>
    ensures { IfOk result (λ line. line.items ≡ codes "jcompat: limit " ++ name_of_part part ++ codes "\n") }
{
    let mut line = Vec::from_slice(alloc, b"jcompat: limit ")?;
    line.extend_from_slice(report_part_name(part).as_bytes())?;
    line.push(b'\n')?;
    Ok(line)
}

fn usage_line(alloc: Global, usage: &Usage) -> Result<Vec<u8>, AllocError>
    ensures { IfOk result (λ line. line.items ≡ codes "jcompat: usage: " ++ usage_words usage.now ++ codes "\n") }
{
    let mut line = Vec::from_slice(alloc, b"jcompat: usage: ")?;
    match usage {
        Usage::NoCommand => line.extend_from_slice(b"no command")?,
        Usage::UnknownCommand(word) => {
            line.extend_from_slice(b"unknown command ")?;
            push_printed(&mut line, word.as_str().as_bytes())?;
        }
        Usage::Words => line.extend_from_slice(b"words")?,
        Usage::UnknownGate(name) => {
            line.extend_from_slice(b"unknown gate ")?;
            push_printed(&mut line, name.as_str().as_bytes())?;
        }
        Usage::Number(number) => {
            line.extend_from_slice(b"number ")?;
            push_printed(&mut line, number.as_str().as_bytes())?;
        }
        Usage::Releases(count) => {
            line.extend_from_slice(b"releases ")?;
            push_decimal(alloc, &mut line, *count)?;
        }
        Usage::Clients(count) => {
            line.extend_from_slice(b"clients ")?;
            push_decimal(alloc, &mut line, *count)?;
        }
        Usage::VersionMissing => line.extend_from_slice(b"version missing")?,
        Usage::Version(version) => {
            line.extend_from_slice(b"version ")?;
            push_printed(&mut line, version.as_str().as_bytes())?;
        }
        Usage::Versions(from, to) => {
            line.extend_from_slice(b"versions ")?;
            push_printed(&mut line, from.as_str().as_bytes())?;
            line.push(b' ')?;
            push_printed(&mut line, to.as_str().as_bytes())?;
        }
    }
    line.push(b'\n')?;
    Ok(line)
}

impl Stop {
    /// The exit status.
    pub fn status(&self) -> u8
        ensures { result ≡ status_of self.now }
    {
        match self {
            Stop::Usage(_) => USAGE,
            Stop::Unread(_, fault) => tree_status(fault),
            Stop::BadRoot(_) | Stop::Overlap(..) | Stop::ClientName(..) => BAD_INPUT,
            Stop::TooMany(_) => LIMIT,
            Stop::ReadFault(_) => READ_FAULT,
            Stop::Memory => NO_MEMORY,
        }
    }

    /// The line on standard error, with its line end.
    ///
    /// # Errors
    ///
    /// `AllocError` where memory runs out.
    pub fn line(&self, alloc: Global) -> Result<Vec<u8>, AllocError>
        ensures { IfOk result (λ line. line.items ≡ line_of self.now) }
    {
        match self {
            Stop::Usage(usage) => usage_line(alloc, usage),
            Stop::Unread(tree, fault) => unread_line(alloc, *tree, fault),
            Stop::BadRoot(part) => bad_root_line(alloc, *part),
            Stop::Overlap(tree, name) => overlap_line(alloc, *tree, name),
            Stop::ClientName(name, part) => client_name_line(alloc, name, *part),
            Stop::TooMany(part) => too_many_line(alloc, *part),
            Stop::ReadFault(tree) => tree_line(alloc, *tree, b": read fault\n"),
            Stop::Memory => Ok(Vec::new(alloc)),
        }
    }
}
