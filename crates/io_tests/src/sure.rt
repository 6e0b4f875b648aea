//! Over the objects that never fail a generic caller answers no fault, which is proved and not only run.
ghost use Rattle.std.specs.Prelude.{◌≡◌, ◌<◌, ◌⊎◌, None, true, length};
ghost use Rattle.pm_io.specs.Causes.{Rose};

use crate::fixtures::{file, load, text};
use pm_io::{
    Got, List, Loaded, Made, Put, Sink, Source, Store, SureSink, SureSource, SureStore, put_all,
};
use std::alloc::Global;
use std::process::Abort;

#[derive(Clone, Copy, PartialEq, Eq)]
enum Copied {
    Some,
    All,
    Failed,
}

// Copies a piece of a source.
fn copy_piece<I: Source, K: Sink>(source: &mut I, sink: &mut K, buffer: &mut [u8]) -> Copied
    requires { 0 < length buffer.old }
    ensures { result ≡ Copied.Failed → Rose (I.faults source.old) (I.faults source.new) ⊎ Rose (K.faults sink.old) (K.faults sink.new) }
{
    match source.read(buffer) {
        Got::Bytes(count) => match put_all(sink, &buffer[..count]) {
            Put::All => Copied::Some,
            Put::Failed => Copied::Failed,
        },
        Got::End => Copied::All,
        Got::Failed => Copied::Failed,
    }
}

// Loads a file of a store.
fn load_fails<S: Store>(store: &mut S, name: &[u8], into: &mut Vec<u8>) -> bool
    ensures cause { result ≡ true → Rose (S.faults store.old) (S.faults store.new) }
    ensures current { S.current store.new ≡ S.current store.old }
{
    store.load(name, 9, into) == Loaded::Failed
}

#[test]
fn copies_never_fail(rt: HostRuntime) {
    let mut source = SureSource::new(text(&rt, rt.alloc(), b"abc"));
    let mut sink = SureSink::new();
    let mut buffer = [0; 2];
    for answer in [Copied::Some, Copied::Some, Copied::All] {
        let copied = copy_piece(&mut source, &mut sink, &mut buffer);
        let failed = copied == Copied::Failed;
        prove!(!failed);
        assert!(rt; copied == answer);
    }
    assert!(rt; buffer == *b"cb");
}

// A store of the file `a`.
fn store(rt: &impl Abort, alloc: Global) -> SureStore
    ensures { result.current ≡ None }
{
    let files = vec![in alloc; file(rt, alloc, b"a", b"xyz")].expect(rt, "memory");
    SureStore::new(alloc, List::from_vec(files))
}

#[test]
fn loads_never_fail(rt: HostRuntime) {
    let mut store = store(&rt, rt.alloc());
    let mut into = Vec::new(rt.alloc());
    let failed = load_fails(&mut store, b"a", &mut into);
    prove!(!failed);
    assert!(rt; into.as_slice() == b"xyz".as_slice());
}

#[test]
fn a_sure_store_loads_and_writes_its_files(rt: HostRuntime) {
    let mut store = store(&rt, rt.alloc());
    load(&rt, rt.alloc(), &mut store, b"a", 9, Loaded::All, b"xyz");
    load(&rt, rt.alloc(), &mut store, b"a", 2, Loaded::TooLarge, b"");
    load(&rt, rt.alloc(), &mut store, b"b", 2, Loaded::All, b"");
    assert!(rt; store.create(b"a") == Made::Done);
    assert!(rt; store.append(b"new") == Put::All);
}
