//! A file in memory.
ghost use Rattle.std.specs.Prelude.{◌≡◌, option_copied};
ghost use Rattle.std.specs.Map.{lookup};
ghost use Rattle.std.specs.Str.{bytes_eq};
ghost use Rattle.pm_io.specs.MemoryFiles.{listed_of};

use crate::text::Text;

/// A file with its name.
#[derive(Drop)]
pub struct MemFile {
    pub name: Text,
    pub bytes: Text,
}

/// The content of the first file of this name, if there is one.
pub fn find<'a>(files: &'a [MemFile], name: &[u8]) -> Option<&'a [u8]>
    ensures { option_copied result ≡ lookup (bytes_eq name.now) (listed_of files.now) }
{
    for file in files {
        if name == file.name.as_slice() {
            return Some(file.bytes.as_slice());
        }
    }
    None
}
