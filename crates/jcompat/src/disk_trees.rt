//! Real folders as trees.
ghost use Rattle.std.specs.Prelude.{◌≡◌, ◌≤◌, ◌<◌, ◌+◌, ◌^◌, ℕ, List, [], length, Option, None, IfOk, OnOk, OnErr, IsErrOf, IsTrue};
ghost use Rattle.jc_base.specs.Causes.{Rose};
ghost use Rattle.jc_base.specs.RootFaults.{count_at};
ghost use Rattle.jc_base.specs.Outside.{are_distinct};
ghost use Rattle.jc_base.specs.States.{TreesState};
ghost use Rattle.jcompat.specs.steps.Ascending.{ascends};

use jc_base::file_buf::{FileBuf, MAX_READ};
use jc_base::root_faults::RootFaults;
use jc_base::text::Text;
use jc_base::trees::{TreeError, Trees};
use jc_trees::class_file::is_class_path;
use jc_trees::limits::MAX_PATH;
use jc_trees::tree::TreeKind;
use std::alloc::{AllocError, Global};
use std::fs::{DirEntry, Metadata, OpenFile, metadata, open, read_dir};
use std::io;
use std::io::{ErrorKind, Read};
use std::path::Path;
use std::rt::Files;

/// A root with more entries below it isn't listed.
pub(crate) const MAX_ENTRIES: u32 = 1_000_000;

/// Real folders. A root is the path of a folder, and its files are what stands below it and is no
/// folder. What they are isn't told.
///
/// Folders are followed, links to folders are passed over, and a link to anything else is a file,
/// also one that leads nowhere. To read what doesn't lead to a regular file, as a FIFO, a socket, a
/// device or nothing, is a fault, and it isn't opened: what a path leads to is asked before, by the
/// listing where this met only folders and regular files. What takes a file's place between the two
/// may be opened. What has the path of a class file with more bytes than `MAX_PATH` is a file,
/// whatever it is, since the system takes no path so long.
///
/// A call on a root fails where the system fails, and a listing also where the root isn't a folder,
/// where a folder is gone once it is listed, where a name isn't UTF-8, where there are more than
/// 1,000,000 entries, folders among them, and where a path came twice. The count of failed calls on a
/// root stops at `u64::MAX`.
#[derive(Drop)]
pub struct DiskTrees<R: Files + AllocGlobal + Clone + Drop> {
    rt: R,
    failed: RootFaults,
    /// The root that was listed last, where each of its files was a regular file itself.
    regular_root: Option<String>,
}

// A path below a folder, or the name itself where the folder is "". It is made in room of its length.
fn joined(alloc: Global, folder: &str, name: &str) -> Result<String, AllocError> {
    let room = folder.len().saturating_add(name.len()).saturating_add(1);
    let mut path = String::with_capacity(alloc, room)?;
    path.push_str(folder)?;
    if !folder.is_empty() {
        path.push('/')?;
    }
    path.push_str(name)?;
    Ok(path)
}

// Whether it is a class file's path past the limit, in trees of all kinds: it isn't that of a module's file,
// which is short. No call of the system takes one, so what is there can't be asked, and nobody opens it.
fn is_past_limit(path: &str) -> bool {
    path.len() > MAX_PATH && is_class_path(TreeKind::Library, path.as_bytes())
}

// Whether the link at the path leads to a folder.
fn leads_to_folder(files: &impl Files, path: Path<'_>) -> io::Result<bool> {
    match metadata(files, path) {
        Ok(target) => Ok(target.is_dir()),
        Err(error) if error.kind() == ErrorKind::OutOfMemory => Err(error),
        Err(_) => Ok(false),
    }
}

/// The files below a root. Paths are below the root.
#[derive(Drop)]
struct Listing {
    files: Vec<Text>,
    /// Whether each is a regular file itself, and no link to one.
    all_regular: bool,
}

impl Listing {
    // Adds a file.
    fn add(&mut self, alloc: Global, path: &str, is_regular: bool) -> Result<(), AllocError> {
        self.files.push(Text::from_str(alloc, path)?)?;
        self.all_regular = self.all_regular && is_regular;
        Ok(())
    }
}

/// What a walk below a root has met. Paths are below the root.
#[derive(Drop)]
struct Walk {
    met: Listing,
    /// The folders that are still to be visited.
    folders: Vec<String>,
    /// How many more entries may come.
    left: u32,
}

impl Walk {
    fn new(alloc: Global) -> Walk {
        Walk {
            met: Listing {
                files: Vec::new(alloc),
                all_regular: true,
            },
            folders: Vec::new(alloc),
            left: MAX_ENTRIES,
        }
    }

    // Takes the entries of a folder. The system ends the listing of a folder that was removed as if
    // it had been read whole, so the folder is asked for again.
    fn visit<R: Files + AllocGlobal + Clone + Drop>(
        &mut self,
        rt: &R,
        root: &str,
        folder: &str,
    ) -> io::Result<()> {
        let place = joined(rt.alloc(), root, folder)?;
        let (files, folders) = (self.met.files.len(), self.folders.len());
        for entry in read_dir(rt, place.as_str())? {
            self.take(rt, folder, &entry?)?;
        }
        self.sort_behind(rt.alloc(), files, folders)?;
        if metadata(rt, place.as_str())?.is_dir() {
            Ok(())
        } else {
            Err(io::Error::from(ErrorKind::NotADirectory))
        }
    }

    // Sorts the files and the folders behind so many, those of one folder. The first folder is visited next, so
    // all files come nearly in order, and little is left to sort at the end.
    fn sort_behind(
        &mut self,
        alloc: Global,
        files: usize,
        folders: usize,
    ) -> Result<(), AllocError> {
        if let Some(new) = self.met.files.as_mut_slice().get_mut(files..) {
            new.sort(alloc)?;
        }
        if let Some(new) = self.folders.as_mut_slice().get_mut(folders..) {
            new.sort(alloc)?;
            new.reverse();
        }
        Ok(())
    }

    // Takes an entry of a folder.
    fn take<R: Files + AllocGlobal + Clone + Drop>(
        &mut self,
        rt: &R,
        folder: &str,
        entry: &DirEntry<R, Global>,
    ) -> io::Result<()> {
        if self.left == 0 {
            return Err(io::Error::from(ErrorKind::QuotaExceeded));
        }
        self.left -= 1;
        let path = joined(rt.alloc(), folder, entry.file_name())?;
        if is_past_limit(path.as_str()) {
            self.met.add(rt.alloc(), path.as_str(), false)?;
            return Ok(());
        }
        let kind = entry.file_type()?;
        if kind.is_dir() {
            self.folders.push(path)?;
        } else if !kind.is_symlink() || !leads_to_folder(rt, entry.path())? {
            self.met.add(rt.alloc(), path.as_str(), kind.is_file())?;
        }
        Ok(())
    }
}

// The files below a root.
fn files_below<R: Files + AllocGlobal + Clone + Drop>(rt: &R, root: &str) -> io::Result<Listing> {
    let mut walk = Walk::new(rt.alloc());
    walk.visit(rt, root, "")?;
    // There are no more folders than entries, so one turn more than entries finds none left.
    for _ in 0..MAX_ENTRIES + 1 {
        match walk.folders.pop() {
            Some(folder) => walk.visit(rt, root, folder.as_str())?,
            None => return Ok(walk.met),
        }
    }
    Err(io::Error::from(ErrorKind::QuotaExceeded))
}

// Whether each text is below the next.
fn is_ascending(texts: &[Text]) -> bool
    ensures { result ≡ ascends texts.now }
{
    for i in 1..texts.len() {
        if texts[i - 1] >= texts[i] {
            return false;
        }
    }
    true
}

// The files below a root, in order, none of them twice.
#[tactic(auto, using(crate::proofs::Ascents::distinct_ascending))]
fn sorted_files<R: Files + AllocGlobal + Clone + Drop>(rt: &R, root: &str) -> io::Result<Listing>
    ensures { IfOk result (λ listing. IsTrue (are_distinct listing.files.items)) }
{
    let Listing { files, all_regular } = files_below(rt, root)?;
    let mut files = files;
    files.sort()?;
    if is_ascending(files.as_slice()) {
        Ok(Listing { files, all_regular })
    } else {
        Err(io::Error::from(ErrorKind::AlreadyExists))
    }
}

// The length where it is of a regular file, else an error.
fn regular_len(found: Metadata) -> io::Result<u64> {
    if found.is_file() {
        Ok(found.len())
    } else {
        Err(io::Error::from(ErrorKind::InvalidInput))
    }
}

// Opens the regular file that a path leads to, and tells its length. What it is is asked first, unless it
// is known, since to open a FIFO or a device may wait for ever; and again of what was opened, since another
// may have come in its place.
fn open_regular<R: Files>(files: &R, path: &str, is_known: bool) -> io::Result<(R::File, u64)> {
    if !is_known {
        regular_len(metadata(files, path)?)?;
    }
    let file = open(files, path)?;
    let len = regular_len(file.metadata()?)?;
    Ok((file, len))
}

// How many bytes of a file to ask for, where at most so many are wanted. To ask for more than it has takes one
// more read, which gives nothing; only a file of the system's own that says it has none may have some.
fn due(len: u64, most: usize) -> usize
    ensures { result ≤ most }
{
    if len == 0 {
        most
    } else {
        most.min(len as usize)
    }
}

// Fills the buffer with the first bytes of a source, at most as many as given. A read that gives
// nothing is the source's end. After a failed read the buffer is empty.
pub(crate) fn fill<R: Read>(source: &mut R, most: usize, buffer: &mut FileBuf) -> io::Result<()>
    requires { most ≤ MAX_READ }
    ensures short { OnOk result (length buffer.new ≤ most) }
    ensures empty { OnErr result (buffer.new ≡ []) }
{
    buffer.clear();
    let mut left = most;
    while left > 0 {
        match buffer.append_from(source, left) {
            Ok(0) => return Ok(()),
            Ok(count) => left -= count,
            Err(error) => {
                buffer.clear();
                return Err(error);
            }
        }
    }
    Ok(())
}

// Fills the buffer with the first bytes of a regular file, at most as many as given. Whether it is known to
// be one is told.
fn read_front<R: Files + AllocGlobal + Clone + Drop>(
    rt: &R,
    root: &str,
    path: &str,
    is_known: bool,
    most: usize,
    buffer: &mut FileBuf,
) -> io::Result<()>
    requires { most ≤ MAX_READ }
    ensures short { OnOk result (length buffer.new ≤ most) }
    ensures empty { OnErr result (buffer.new ≡ []) }
{
    buffer.clear();
    let place = joined(rt.alloc(), root, path)?;
    let (opened, len) = open_regular(rt, place.as_str(), is_known)?;
    let mut file = opened;
    match fill(&mut file, due(len, most), buffer) {
        Ok(()) => Ok(()),
        Err(error) => Err(error),
    }
}

impl<R: Files + AllocGlobal + Clone + Drop> DiskTrees<R> {
    /// No call has failed yet.
    pub fn new(rt: R) -> DiskTrees<R>
        ensures { (root : List ℕ) → (⟦<DiskTrees<R> as Trees>⟧.state result).faults root ≡ 0 }
    {
        let failed = RootFaults::new(rt.alloc());
        DiskTrees {
            rt,
            failed,
            regular_root: None,
        }
    }

    // Whether each file of the root is known to be a regular file.
    fn knows(&self, root: &str) -> bool {
        match &self.regular_root {
            Some(known) => known.as_str() == root,
            None => false,
        }
    }

    // Keeps what a listing of the root tells of its files.
    fn note(&mut self, alloc: Global, root: &str, all_regular: bool) -> Result<(), AllocError>
        ensures { self.new.failed ≡ self.old.failed }
    {
        self.regular_root = None;
        if all_regular {
            self.regular_root = Some(String::from_str(alloc, root)?);
        }
        Ok(())
    }

    // What a call on the root answers at this error, which is counted where it isn't lack of memory.
    fn fault(&mut self, alloc: Global, root: &str, error: io::Error) -> TreeError
        ensures never_falls { (r : List ℕ) → count_at self.old.failed r ≤ count_at self.new.failed r }
        ensures cause { result ≡ TreeError.Fault → Rose (count_at self.old.failed root.now) (count_at self.new.failed root.now) }
    {
        if error.kind() == ErrorKind::OutOfMemory {
            return TreeError::Memory;
        }
        match self.failed.raise(alloc, root) {
            Ok(()) => TreeError::Fault,
            Err(_) => TreeError::Memory,
        }
    }
}

impl<R: Files + AllocGlobal + Clone + Drop> Trees for DiskTrees<R> {
    ghost state = { λ t. record { content = None; faults = count_at t.failed } };

    fn list(&mut self, alloc: Global, root: &str) -> Result<Vec<Text>, TreeError> {
        match sorted_files(&self.rt, root) {
            Ok(Listing { files, all_regular }) => match self.note(alloc, root, all_regular) {
                Ok(()) => Ok(files),
                Err(_) => Err(TreeError::Memory),
            },
            Err(error) => Err(self.fault(alloc, root, error)),
        }
    }

    fn read_into(
        &mut self,
        alloc: Global,
        root: &str,
        path: &str,
        limit: u32,
        into: &mut FileBuf,
    ) -> Result<(), TreeError> {
        let is_known = self.knows(root);
        match read_front(&self.rt, root, path, is_known, limit as usize + 1, into) {
            Ok(()) => Ok(()),
            Err(error) => Err(self.fault(alloc, root, error)),
        }
    }
}
