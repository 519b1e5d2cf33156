//! What no process shows of real folders and streams.
use super::Host;
use crate::disk_folder::DiskFolder;
use crate::std_sink::StdSink;
use crate::writer::Writer;
use jc_base::folder::{Folder, FolderError};
use jc_base::sink::{Sink, SinkError};
use std::io;
use std::io::Write;

fn see_fault(rt: &impl Host, folder: &mut DiskFolder<HostRuntime>, path: &str) {
    let put = folder.put(path, b"file");
    assert!(rt; matches!(put, Err(FolderError::Fault)), "{path}");
}

#[test]
fn no_file_is_put_at_a_path_that_has_no_name(rt: HostRuntime) {
    let mut folder = DiskFolder::new(rt.clone().expect(&rt, "memory"));
    see_fault(&rt, &mut folder, "");
    see_fault(&rt, &mut folder, "/");
}

// A writer that takes one byte at a time, and nothing once it is full.
#[derive(Drop)]
struct Narrow {
    room: usize,
}

impl Write for Narrow {
    fn write(&mut self, buf: &[u8]) -> io::Result<usize> {
        let count = buf.len().min(self.room).min(1);
        self.room -= count;
        Ok(count)
    }

    fn flush(&mut self) -> io::Result<()> {
        Ok(())
    }
}

impl Writer for Narrow {
    ghost use Rattle.std.specs.Prelude.{false, refl};

    ghost tells = { false };

    ghost known = { λ w. refl };
}

#[test]
fn a_writer_that_is_full_is_a_fault(rt: HostRuntime) {
    let mut narrow = StdSink::new(Narrow { room: 3 });
    assert!(rt; narrow.put(b"abc").is_ok());
    assert!(rt; matches!(narrow.put(b"d"), Err(SinkError::Fault)));
}
