//! The adapters over real files and outputs.
use crate::adapters::{Disk, Stream};
use scc_base::{FileFault, Files, Sink, SinkFault};
use std::test::Fail;

#[test]
fn reads_files_of_the_system(rt: HostRuntime) -> Result<(), Fail> {
    let alloc = rt.alloc();
    let mut files = Disk::new(&rt);
    let zeros = files.read(alloc, "/dev/zero", 10_000);
    assert!(rt; matches!(&zeros, Ok(bytes) if bytes.len() == 10_000));
    let nothing = files.read(alloc, "/dev/null", 10_000);
    assert!(rt; matches!(&nothing, Ok(bytes) if bytes.is_empty()));
    let missing = files.read(alloc, "/dev/null/no such file", 1);
    assert!(rt; matches!(&missing, Err(FileFault::Missing | FileFault::Failed)));
    let absent = files.read(alloc, "/no such file", 1);
    assert!(rt; matches!(&absent, Err(FileFault::Missing)));
    let folder = files.read(alloc, "/", 1);
    assert!(rt; matches!(&folder, Err(FileFault::Failed)));
    Ok(())
}

#[test]
fn writes_to_outputs(rt: HostRuntime) -> Result<(), Fail> {
    let alloc = rt.alloc();
    let mut taken = Vec::new(alloc);
    let mut stream = Stream::new(&mut taken);
    assert!(rt; matches!(stream.write(b"scc"), Ok(3)));
    assert!(rt; matches!(stream.write(b""), Ok(0)));
    drop(stream);
    assert_eq!(rt; taken.as_slice(), b"scc".as_slice());
    let mut room = [0u8; 2];
    let mut full = Stream::new(room.as_mut_slice());
    assert!(rt; matches!(full.write(b"scc"), Ok(2)));
    assert!(rt; matches!(full.write(b"c"), Err(SinkFault::Failed)));
    Ok(())
}
