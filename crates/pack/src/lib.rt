// Document 02, C-15: the byte table of a graph, and the call that packs it.
#![tactic(auto)]

pub mod bytes;
pub mod packing;
pub mod refusals;

pub use crate::bytes::ByteTable;
pub use crate::packing::pack;
