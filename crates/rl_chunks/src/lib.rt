//! Chunks and stores: a stream's lines as bytes that are written and read exactly, and the devices that keep such bytes.
//!
//! - `line`: `Line`, a timestamp and a text. `as_line`: `AsLine`, what stands for a line and lends it. `chunk`: `Chunk`, the
//!   labels of a stream and lines of it.
//! - `format`: the forms that a chunk's bytes may have.
//! - `fault`: `ChunkFault`, why bytes are no chunk.
//! - `writing`: `encode`. `reading`: `decode`.
//! - `store`: `Store`, bytes by number, whatever its device does. `mem_store`: `MemStore`, in memory. `dir_store`: `DirStore`,
//!   in a folder, with `history`, what it was asked to keep. `spoil_store`: `SpoilStore`, which spoils what is read.
#![tactic(auto)]

pub mod as_line;
pub mod chunk;
pub mod dir_store;
pub mod fault;
pub mod format;
pub mod history;
pub mod line;
pub mod mem_store;
pub mod reading;
pub mod spoil_store;
pub mod store;
pub mod writing;

pub use as_line::AsLine;
pub use chunk::Chunk;
pub use dir_store::DirStore;
pub use fault::{ChunkError, ChunkFault};
pub use format::Format;
pub use line::Line;
pub use mem_store::MemStore;
pub use reading::decode;
pub use spoil_store::{Spoil, SpoilStore};
pub use store::{Store, StoreFault};
pub use writing::encode;
