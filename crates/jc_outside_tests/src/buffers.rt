//! The buffer that files are read into.
use jc_base::file_buf::FileBuf;
use std::io;
use std::io::{ErrorKind, Read};
use std::process::Abort;

/// A source that gives so many bytes, one a read, and then fails.
#[derive(Drop)]
struct Torn {
    left: usize,
}

impl Read for Torn {
    fn read(&mut self, buf: &mut [u8]) -> io::Result<usize> {
        if self.left == 0 {
            return Err(io::Error::from(ErrorKind::UnexpectedEof));
        }
        if buf.is_empty() {
            return Ok(0);
        }
        self.left -= 1;
        buf[0] = b'x';
        Ok(1)
    }
}

// How many bytes one read of at most so many gives, or none where it fails.
fn read<R: Read>(
    rt: &impl Abort,
    buffer: &mut FileBuf,
    source: &mut R,
    most: usize,
) -> Option<usize> {
    assert!(rt; buffer.as_bytes().len() < 10 && most < 10);
    buffer.append_from(source, most).ok()
}

#[test]
fn a_buffer_holds_what_was_put_since_it_was_cleared(rt: HostRuntime) {
    let mut buffer = FileBuf::new(rt.alloc()).expect(&rt, "memory");
    assert!(rt; buffer.as_bytes().is_empty());
    buffer.append(b"abc");
    buffer.append(b"");
    buffer.append(b"de");
    assert!(rt; buffer.as_bytes() == b"abcde".as_slice());
    buffer.clear();
    buffer.append(b"f");
    let mut source = b"ghi".as_slice();
    assert!(rt; read(&rt, &mut buffer, &mut source, 2) == Some(2));
    assert!(rt; read(&rt, &mut buffer, &mut source, 9) == Some(1));
    assert!(rt; read(&rt, &mut buffer, &mut source, 9) == Some(0));
    assert!(rt; buffer.as_bytes() == b"fghi".as_slice());
    let mut torn = Torn { left: 1 };
    assert!(rt; read(&rt, &mut buffer, &mut torn, 9) == Some(1));
    assert!(rt; read(&rt, &mut buffer, &mut torn, 9).is_none());
    assert!(rt; buffer.as_bytes() == b"fghix".as_slice());
}
