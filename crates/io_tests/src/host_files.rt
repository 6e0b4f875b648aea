//! A store over files that each system has, and over a file that the test writes and reads back.
use crate::fixtures;
use pm_io::{HostStore, Loaded, Made, Put, Store};
use std::alloc::Global;
use std::fs;
use std::process::Abort;
use std::rt::Files;

// Loads a file of the host, as `fixtures::load` does.
fn load<R: Files + Abort>(
    rt: &R,
    alloc: Global,
    name: &[u8],
    limit: usize,
    answer: Loaded,
    content: &[u8],
) {
    let mut store = HostStore::new(alloc, rt);
    fixtures::load(rt, alloc, &mut store, name, limit, answer, content);
}

#[test]
fn a_store_loads_files_of_the_system(rt: HostRuntime) {
    let table: [(&[u8], usize, Loaded, &[u8]); 8] = [
        (b"/dev/null", 0, Loaded::All, b""),
        (b"/dev/zero", 3, Loaded::TooLarge, b""),
        (b"/dev/zero", 70000, Loaded::TooLarge, b""),
        (b"/proc/sys/kernel/ostype", 6, Loaded::All, b"Linux\n"),
        (b"/proc/sys/kernel/ostype", 5, Loaded::TooLarge, b""),
        (b"/dev/missing", 3, Loaded::Failed, b""),
        (b"/dev/\xff", 3, Loaded::Failed, b""),
        (b"/", 3, Loaded::Failed, b""),
    ];
    for (name, limit, answer, content) in table {
        load(&rt, rt.alloc(), name, limit, answer, content);
    }
}

#[test]
fn a_store_tells_that_it_created_no_file(rt: HostRuntime) {
    let mut store = HostStore::new(rt.alloc(), &rt);
    assert!(rt; store.create(b"/dev/missing/file") == Made::Failed);
    assert!(rt; store.create(b"/dev/null") == Made::Done);
    assert!(rt; store.append(b"abc") == Put::All);
}

#[test]
fn a_store_tells_that_the_disk_is_full(rt: HostRuntime) {
    let mut store = HostStore::new(rt.alloc(), &rt);
    assert!(rt; store.create(b"/dev/full") == Made::Done);
    assert!(rt; store.append(b"abc") == Put::Failed);
}

// Creates the file of this name, or empties it, and appends `ab` and then the end.
fn write<R: Files + Abort>(rt: &R, alloc: Global, name: &[u8], end: &[u8]) {
    let mut store = HostStore::new(alloc, rt);
    assert!(rt; !end.is_empty());
    assert!(rt; store.create(name) == Made::Done);
    assert!(rt; store.append(b"ab") == Put::All);
    assert!(rt; store.append(end) == Put::All);
}

#[test]
fn a_file_holds_what_was_appended_since_it_was_created(rt: HostRuntime) {
    let name = "written_by_io_tests";
    for (end, content) in [
        (b"cdefgh".as_slice(), b"abcdefgh".as_slice()),
        (b"c", b"abc"),
    ] {
        write(&rt, rt.alloc(), name.as_bytes(), end);
        load(
            &rt,
            rt.alloc(),
            name.as_bytes(),
            content.len(),
            Loaded::All,
            content,
        );
        load(
            &rt,
            rt.alloc(),
            name.as_bytes(),
            content.len() - 1,
            Loaded::TooLarge,
            b"",
        );
    }
    assert!(rt; fs::remove_file(&rt, name).is_ok());
    load(&rt, rt.alloc(), name.as_bytes(), 8, Loaded::Failed, b"");
}
