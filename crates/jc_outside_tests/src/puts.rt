//! Sinks and folders in memory.
use jc_base::folder::{Folder, FolderError};
use jc_base::mem_folder::MemFolder;
use jc_base::mem_sink::MemSink;
use jc_base::sink::{Sink, SinkError};
use jc_base::sure_folder::SureFolder;
use jc_base::sure_sink::SureSink;
use std::alloc::Global;
use std::process::Abort;

// The second call fails.
fn second(rt: &impl Abort, alloc: Global) -> Vec<u64> {
    Vec::from_slice(alloc, &[2]).expect(rt, "memory")
}

#[test]
fn the_listed_calls_on_sinks_take_half(rt: HostRuntime) {
    let mut sink = MemSink::new(rt.alloc(), second(&rt, rt.alloc()));
    sink.put(b"abc").expect(&rt, "put");
    assert!(rt; sink.put(b"defgh") == Err(SinkError::Fault));
    assert_eq!(rt; sink.faults(), 1);
    sink.put(b"i").expect(&rt, "put");
    assert!(rt; sink.bytes() == b"abcdei".as_slice());
}

#[test]
fn other_sinks_take_all(rt: HostRuntime) {
    let mut sink = SureSink::new(rt.alloc());
    sink.put(b"abc").expect(&rt, "put");
    sink.put(b"").expect(&rt, "put");
    assert!(rt; sink.bytes() == b"abc".as_slice());
}

#[test]
fn the_listed_calls_on_folders_change_nothing(rt: HostRuntime) {
    let mut folder = MemFolder::new(rt.alloc(), second(&rt, rt.alloc()));
    folder.put("d/A.class", b"abc").expect(&rt, "put");
    assert!(rt; folder.put("d/A.class", b"de") == Err(FolderError::Fault));
    assert_eq!(rt; folder.faults(), 1);
    folder.put("d/B.class", b"f").expect(&rt, "put");
    assert!(rt; folder.get("d/A.class") == Some(b"abc".as_slice()));
    assert!(rt; folder.get("d/B.class") == Some(b"f".as_slice()));
    assert!(rt; folder.get("d/C.class").is_none());
}

#[test]
fn a_put_replaces_the_file(rt: HostRuntime) {
    let mut folder = SureFolder::new(rt.alloc());
    folder.put("d/A.class", b"abc").expect(&rt, "put");
    folder.put("d/A.class", b"").expect(&rt, "put");
    assert!(rt; folder.get("d/A.class") == Some(b"".as_slice()));
    assert!(rt; folder.get("d").is_none());
}
