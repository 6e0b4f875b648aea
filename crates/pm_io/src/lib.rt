//! The outside of the program: what it reads from, what it writes to, and the files that it names.
//!
//! The rest of the program reads a `Source`, writes to a `Sink` and loads from a `Store`, and knows nothing else about
//! streams and files. Each object tells contracts what it holds, if it can, and counts its faults: a call returns that
//! it failed only if that count has risen. `Lines` cuts a source into lines, and `put_all` writes a whole piece or,
//! after a failure, a prefix of it. `Text`, `List`, `Boxed` and `Stack` are what the trees of other crates are made of.
#![tactic(auto)]

mod buffer;
mod calls;
mod gate;
mod host_file;
mod host_sink;
mod host_source;
mod host_store;
mod host_stream;
mod lines;
mod memory_file;
mod memory_sink;
mod memory_source;
mod memory_store;
mod no_memory;
mod sink;
mod source;
mod stack;
mod store;
mod store_log;
mod sure;
mod text;
mod write_buffer;

pub use gate::{FreeGate, Gate};
pub use host_sink::HostSink;
pub use host_source::HostSource;
pub use host_store::HostStore;
pub use lines::{CR, LF, LineGot, Lines};
pub use memory_file::MemFile;
pub use memory_sink::MemSink;
pub use memory_source::MemSource;
pub use memory_store::MemStore;
pub use no_memory::NoMemory;
pub use sink::{Put, Sink, Took, put_all};
pub use source::{Got, Source};
pub use sqlite_items::{Boxed, Items as List};
pub use stack::Stack;
pub use store::{Loaded, Made, Store, StoreCall};
pub use sure::{SureSink, SureSource, SureStore};
pub use text::Text;
pub use write_buffer::WriteBuffer;
