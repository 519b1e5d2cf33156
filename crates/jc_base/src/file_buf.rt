//! The bytes of one file at a time.
ghost use Rattle.std.specs.Prelude.{◌≡◌, ◌≤◌, ◌<◌, ◌+◌, ◌++◌, ℕ, [], length, take, drop, IfOk, OnOk, OnErr, MatchResult};
ghost use Rattle.std.specs.Io.{StartsWith, appended_bytes};
ghost use Rattle.std.specs.Io.KnownBytes.{Keeps, Consumes, IsAtEnd};

use crate::trees::MAX_BYTES;
use std::alloc::{AllocError, Global};
use std::io;
use std::io::Read;
use std::marker::Model;

/// The most bytes that a buffer holds: one more than the greatest limit of a read, so that a file that
/// is too long is told from one that isn't.
pub const MAX_READ: usize = MAX_BYTES as usize + 1;

/// A buffer for the bytes of files, one after the other. A contract sees it as the bytes that it
/// holds, which are at most [`MAX_READ`]. It takes all its memory when it is made, and none later.
#[derive(Drop)]
pub struct FileBuf {
    /// As many bytes as the buffer may hold.
    room: Vec<u8>,
    /// How many of them, from the first on, are those that it holds.
    len: usize,
}

impl Model for FileBuf {
    ghost use Rattle.std.specs.Prelude.{◌≡◌, ◌≤◌, ℕ, List, length, take};
    ghost use Rattle.jc_base.specs.declared.file_buf.TheConstants.{MAX_READ};

    ghost Value = { List ℕ };

    ghost view = { λ b. take b.len b.room.items };

    ghost invariant = { λ b. (b.len ≤ MAX_READ) × (length b.room.items ≡ MAX_READ) };
}

// Writes a piece over the bytes from this place on.
fn write_at(room: &mut [u8], at: usize, piece: &[u8])
    requires { at + length piece.now ≤ length room.old }
    ensures { take (at + length piece.now) room.new ≡ take at room.old ++ piece.now }
{
    room[at..at + piece.len()].copy_from_slice(piece);
}

// One read over the bytes from this place on, at most so many.
fn read_at<R: Read>(source: &mut R, room: &mut [u8], at: usize, most: usize) -> io::Result<usize>
    requires { at + most ≤ length room.old }
    ensures front { take at room.new ≡ take at room.old }
    ensures count { IfOk result (λ n. n ≤ most) }
    ensures bytes { IfOk result (λ n. Consumes (R.remaining source.old) (R.remaining source.new) (take n (drop at room.new))) }
    ensures end { IfOk result (λ n. n ≡ 0 → 0 < most → IsAtEnd (R.remaining source.new)) }
    ensures err { OnErr result (Keeps (R.remaining source.old) (R.remaining source.new)) }
{
    source.read(&mut room[at..at + most])
}

impl FileBuf {
    /// An empty buffer, with all the memory that it will need.
    ///
    /// # Errors
    ///
    /// `AllocError` where memory runs out.
    pub fn new(alloc: Global) -> Result<FileBuf, AllocError>
        ensures { IfOk result (λ buffer. buffer ≡ []) }
    {
        let mut room = Vec::new(alloc);
        room.resize(MAX_READ, 0)?;
        Ok(FileBuf { room, len: 0 })
    }

    /// The bytes that it holds. Takes no memory.
    pub fn as_bytes(&self) -> &[u8]
        ensures bytes { result.now ≡ self.now }
        ensures bounded { length self.now ≤ MAX_READ }
    {
        &self.room.as_slice()[..self.len]
    }

    /// Empties it. Takes no memory.
    pub fn clear(&mut self)
        ensures { self.new ≡ [] }
    {
        self.len = 0;
    }

    /// Puts a piece behind the bytes that it holds. Takes no memory.
    pub fn append(&mut self, piece: &[u8])
        requires { length self.old + length piece.now ≤ MAX_READ }
        ensures { self.new ≡ self.old ++ piece.now }
    {
        write_at(self.room.as_mut_slice(), self.len, piece);
        self.len += piece.len();
    }

    /// Puts what one read of the source gives behind the bytes that it holds, at most so many bytes,
    /// and answers how many they were. Where some are asked for and none come, the source is at its
    /// end. After a failed read it holds what it held. Takes no memory of its own.
    ///
    /// # Errors
    ///
    /// The source's own, where its read fails.
    pub fn append_from<R: Read>(&mut self, source: &mut R, most: usize) -> io::Result<usize>
        requires { length self.old + most ≤ MAX_READ }
        ensures kept { StartsWith self.new self.old }
        ensures count { IfOk result (λ n. (n ≤ most) × (length self.new ≡ length self.old + n)) }
        ensures bytes { OnOk result (Consumes (R.remaining source.old) (R.remaining source.new) (appended_bytes self.old self.new)) }
        ensures end { IfOk result (λ n. n ≡ 0 → 0 < most → IsAtEnd (R.remaining source.new)) }
        ensures err { OnErr result ((self.new ≡ self.old) × Keeps (R.remaining source.old) (R.remaining source.new)) }
    {
        let count = read_at(source, self.room.as_mut_slice(), self.len, most)?;
        self.len += count;
        Ok(count)
    }
}
