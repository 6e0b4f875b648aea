//! The objects in memory, some of whose calls fail, and each call that needs memory once with enough of it.
ghost use Rattle.std.specs.Prelude.{◌≡◌, ◌<◌, IsSome, length};
ghost use Rattle.pm_io.specs.Memory.{AreFilled};
ghost use Rattle.pm_io.specs.MemoryFiles.{NamesDiffer};

use crate::fixtures::{file, load, numbers, text};
use pm_io::{
    Got, List, Loaded, Made, MemFile, MemSink, MemSource, MemStore, Put, Sink, Source, Store, Text,
    Took,
};
use std::alloc::Global;
use std::process::Abort;

// The pieces `abc` and `d`.
fn two_pieces(rt: &impl Abort, alloc: Global) -> List<Text>
    ensures { AreFilled result }
{
    let first = text(rt, alloc, b"abc");
    let second = text(rt, alloc, b"d");
    List::from_vec(vec![in alloc; first, second].expect(rt, "memory"))
}

// A source of the two pieces, whose third call fails.
fn source(rt: &impl Abort, alloc: Global) -> MemSource {
    MemSource::new(two_pieces(rt, alloc), numbers(rt, alloc, &[3]))
}

#[test]
fn a_source_gives_its_pieces(rt: HostRuntime) {
    let mut source = source(&rt, rt.alloc());
    let mut buffer = [0; 2];
    for (answer, bytes) in [
        (Got::Bytes(2), *b"ab"),
        (Got::Bytes(1), *b"cb"),
        (Got::Failed, *b"cb"),
        (Got::Bytes(1), *b"db"),
        (Got::End, *b"db"),
        (Got::End, *b"db"),
    ] {
        assert!(rt; source.read(&mut buffer) == answer);
        assert!(rt; buffer == bytes);
    }
}

// A sink of five bytes that takes at most three at once, and whose second call fails.
fn sink(rt: &impl Abort, alloc: Global) -> MemSink {
    MemSink::new(alloc, 5, 3, numbers(rt, alloc, &[2])).expect(rt, "memory")
}

#[test]
fn a_sink_holds_what_fits(rt: HostRuntime) {
    let mut sink = sink(&rt, rt.alloc());
    for (piece, answer) in [
        (b"abcd".as_slice(), Took::Bytes(3)),
        (b"d", Took::Failed),
        (b"def", Took::Failed),
        (b"de", Took::Bytes(2)),
        (b"f", Took::Failed),
    ] {
        assert!(rt; !piece.is_empty());
        assert!(rt; sink.write(piece) == answer);
    }
    assert!(rt; sink.bytes() == b"abcde".as_slice());
}

// The files `a` and `b`.
fn two_files(rt: &impl Abort, alloc: Global) -> List<MemFile>
    ensures { NamesDiffer result }
{
    let first = file(rt, alloc, b"a", b"xyz");
    let second = file(rt, alloc, b"b", b"old");
    List::from_vec(vec![in alloc; first, second].expect(rt, "memory"))
}

// A store of the two files with so much room, whose call of this number fails.
fn store(rt: &impl Abort, alloc: Global, room: usize, fails: u64) -> MemStore
    ensures { result.current ≡ None }
{
    let fails = numbers(rt, alloc, &[fails]);
    MemStore::new(alloc, two_files(rt, alloc), room, fails).expect(rt, "memory")
}

// Loads a file for each row, one after the other.
fn load_each(
    rt: &impl Abort,
    alloc: Global,
    store: &mut MemStore,
    rows: &[(&[u8], usize, Loaded, &[u8])],
) {
    for (name, limit, answer, content) in rows {
        load(rt, alloc, store, name, *limit, *answer, content);
    }
}

#[test]
fn a_store_loads_its_files(rt: HostRuntime) {
    let mut store = store(&rt, rt.alloc(), 0, 4);
    load_each(
        &rt,
        rt.alloc(),
        &mut store,
        &[
            (b"a", 3, Loaded::All, b"xyz"),
            (b"a", 2, Loaded::TooLarge, b""),
            (b"c", 3, Loaded::Failed, b""),
            (b"a", 3, Loaded::Failed, b""),
            (b"b", 9, Loaded::All, b"old"),
        ],
    );
    holds(&rt, &store, b"a", b"xyz");
    assert!(rt; store.file(b"c") == None);
}

// Appends a piece to the current file.
fn append(rt: &impl Abort, store: &mut MemStore, piece: &[u8], answer: Put)
    requires current { IsSome store.old.current }
    requires some { 0 < length piece.now }
    ensures { store.new.current ≡ store.old.current }
{
    assert!(rt; store.append(piece) == answer);
}

// The file of this name has this content.
fn holds(rt: &impl Abort, store: &MemStore, name: &[u8], content: &[u8]) {
    assert!(rt; store.file(name) == Some(content));
}

#[test]
fn a_store_writes_its_current_file(rt: HostRuntime) {
    let mut store = store(&rt, rt.alloc(), 4, 3);
    assert!(rt; store.create(b"b") == Made::Done);
    append(&rt, &mut store, b"new", Put::All);
    append(&rt, &mut store, b"!", Put::Failed);
    append(&rt, &mut store, b"er", Put::Failed);
    append(&rt, &mut store, b".", Put::All);
    holds(&rt, &store, b"b", b"new.");
    holds(&rt, &store, b"a", b"xyz");
    load(&rt, rt.alloc(), &mut store, b"b", 9, Loaded::All, b"new.");
}
