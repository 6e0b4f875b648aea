//! One file of the host, read whole or created.
ghost use Rattle.std.specs.Prelude.{◌≡◌, ◌≢◌, ◌<◌, ◌≤◌, false, [], IfOk, IfErr, vec_len};

use crate::host_stream::read_some;
use crate::store::Loaded;
use std::alloc::AllocError;
use std::fs;
use std::io::Read;
use std::rt::Files;

// How many bytes one read asks for, and the least by which the room grows.
const PIECE: usize = 65536;

// Makes room for another piece: doubles the room, but never takes more than `limit` bytes.
fn make_room(into: &mut Vec<u8>, limit: usize) -> Result<(), AllocError>
    requires { vec_len into.old ≤ limit }
    ensures items { into.new.items ≡ into.old.items }
    ensures len { vec_len into.new ≡ vec_len into.old }
{
    let left = limit - into.len();
    if into.capacity() - into.len() < left.min(PIECE) {
        into.reserve_exact(left.min(into.len().max(PIECE)))?;
    }
    Ok(())
}

// Reads a piece once and adds it to the end: whether the stream is at its end, or what the load gives if this failed.
fn read_piece<R: Read>(stream: &mut R, limit: usize, into: &mut Vec<u8>) -> Result<bool, Loaded>
    requires { vec_len into.old < limit }
    ensures within { vec_len into.new ≤ limit }
    ensures more { IfOk result (λ ended. ended ≡ false → vec_len into.old < vec_len into.new) }
    ensures failed { IfErr result (λ answer. answer ≢ Loaded.All) }
{
    let start = into.len();
    let wanted = (limit - start).min(PIECE);
    if make_room(into, limit).is_err() || into.resize(start + wanted, 0).is_err() {
        return Err(Loaded::NoMemory);
    }
    match read_some(stream, &mut into[start..]) {
        Some(count) => {
            into.truncate(start + count);
            Ok(count == 0)
        }
        None => Err(Loaded::Failed),
    }
}

// What the load gives once `limit` bytes were read: it depends on whether there are more.
fn end_at_limit<R: Read>(stream: &mut R) -> Loaded {
    match read_some(stream, &mut [0; 1]) {
        Some(0) => Loaded::All,
        Some(_) => Loaded::TooLarge,
        None => Loaded::Failed,
    }
}

// Reads a stream to its end, if it has at most `limit` bytes. It takes no more memory than for `limit` bytes.
fn read_to_limit<R: Read>(stream: &mut R, limit: usize, into: &mut Vec<u8>) -> Loaded
    requires { into.old.items ≡ [] }
    ensures { result ≡ Loaded.All → vec_len into.new ≤ limit }
{
    while into.len() < limit {
        match read_piece(stream, limit, into) {
            Ok(true) => return Loaded::All,
            Ok(false) => {}
            Err(answer) => return answer,
        }
    }
    end_at_limit(stream)
}

/// Reads the whole file of this name, if it has at most `limit` bytes.
pub fn read_file<R: Files>(rt: &R, name: &[u8], limit: usize, into: &mut Vec<u8>) -> Loaded
    requires { into.old.items ≡ [] }
    ensures { result ≡ Loaded.All → vec_len into.new ≤ limit }
{
    let Ok(path) = str::from_utf8(name) else {
        return Loaded::Failed;
    };
    match fs::open(rt, path) {
        Ok(mut file) => read_to_limit(&mut file, limit, into),
        Err(_) => Loaded::Failed,
    }
}

/// An empty file of this name, or `None` if the host refuses it.
pub fn create_file<R: Files>(rt: &R, name: &[u8]) -> Option<R::File> {
    let path = str::from_utf8(name).ok()?;
    fs::create(rt, path).ok()
}
