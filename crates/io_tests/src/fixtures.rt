//! Texts, numbers and files for the tests, and a load.
ghost use Rattle.std.specs.Prelude.{◌≡◌};

use pm_io::{List, Loaded, MemFile, Store, Text};
use std::alloc::Global;
use std::process::Abort;

pub fn text(rt: &impl Abort, alloc: Global, bytes: &[u8]) -> Text
    ensures { result ≡ bytes.now }
{
    Text::from_slice(alloc, bytes).expect(rt, "memory")
}

pub fn numbers(rt: &impl Abort, alloc: Global, numbers: &[u64]) -> List<u64> {
    List::from_slice(alloc, numbers).expect(rt, "memory")
}

pub fn file(rt: &impl Abort, alloc: Global, name: &[u8], bytes: &[u8]) -> MemFile
    ensures { result.name ≡ name.now }
{
    MemFile {
        name: text(rt, alloc, name),
        bytes: text(rt, alloc, bytes),
    }
}

/// Loads a file over older content. The store answers this, and the content is this if all of it was loaded.
pub fn load<S: Store>(
    rt: &impl Abort,
    alloc: Global,
    store: &mut S,
    name: &[u8],
    limit: usize,
    answer: Loaded,
    content: &[u8],
)
    ensures { S.current store.new ≡ S.current store.old }
{
    let mut into = Vec::from_slice(alloc, b"older").expect(rt, "memory");
    assert!(rt; store.load(name, limit, &mut into) == answer);
    assert!(rt; answer != Loaded::All || into.as_slice() == content);
}
