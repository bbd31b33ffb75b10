//! The store of the engine: three files, what a read of them gives, and what a stop may leave of them.
#![tactic(auto)]

mod call;
mod failed;
mod files;
mod image;
mod memory;
mod opened;
mod replay;
mod said;
mod store;

pub use call::Call;
pub use failed::{Failed, OutOfMemory, StoreFault};
pub use files::FileStore;
pub use image::{File, Image};
pub use memory::MemoryStore;
pub use said::Piece;
pub use store::Store;
